//! The values of a plan's roles in a zone. None of them is a value that a claim gives a name.
ghost use Rattle.std.specs.Prelude.{◌≡◌, []};
ghost use Rattle.std.specs.Option.{ok_or, option_copied};
ghost use Rattle.faults.specs.declared.role.Role.TheVariants.{Rate};
ghost use Rattle.fixpoint.specs.Money.{is_money, is_rate};
ghost use Rattle.settlement.specs.Roles.{is_true_flag, limits, terms, units_where, value_of};
ghost use Rattle.plan_zones.specs.Terms.{GivesLimits, GivesTerms, same_family, same_terms};

use faults::Role;
use feel_tests::Value;
use fixpoint::Fixed;
use settlement::Money;
use tables::{Answer, Env, FamilyRoles, Roles, Source};

/// The limits of a claim's family.
#[derive(Clone, Copy, PartialEq, Eq)]
pub struct FamilyTerms {
    pub deductible: Money,
    pub oop_max: Money,
}

/// The cost sharing of the claims in a zone: an amount for each role, the rate, and the limits of the
/// family, if the plan has any.
#[derive(Clone, Copy, PartialEq, Eq)]
pub struct Terms {
    pub fee: Money,
    pub deductible: Money,
    pub copay: Money,
    pub rate: Fixed,
    pub oop_max: Money,
    pub family: Option<FamilyTerms>,
}

/// Returns whether the terms are the same.
pub fn are_same_terms(one: &Terms, other: &Terms) -> bool
    ensures { result ≡ same_terms one.now other.now }
{
    one.fee == other.fee
        && one.deductible == other.deductible
        && one.copay == other.copay
        && one.rate == other.rate
        && one.oop_max == other.oop_max
        && is_same_family(&one.family, &other.family)
}

fn is_same_family(one: &Option<FamilyTerms>, other: &Option<FamilyTerms>) -> bool
    ensures { result ≡ same_family one.now other.now }
{
    match one {
        Some(limits) => match other {
            Some(others) => {
                limits.deductible == others.deductible && limits.oop_max == others.oop_max
            }
            None => false,
        },
        None => match other {
            Some(_) => false,
            None => true,
        },
    }
}

/// Returns whether the role `cover` is true.
pub fn is_covered(env: &Env, roles: &Roles) -> bool
    ensures { result ≡ is_true_flag (value_of [] env.now roles.now.cover) }
{
    match value_of(env, &roles.cover) {
        Some(Value::Flag(flag)) => *flag,
        _ => false,
    }
}

/// Returns the cost sharing, or the first role whose value is missing or is not an amount of money or,
/// for `rate`, not a rate.
pub fn terms_of(env: &Env, roles: &Roles) -> Result<Terms, Role>
    ensures { GivesTerms (terms [] env.now roles.now) result }
{
    let fee = money_at(env, &roles.fee, Role::Fee)?;
    let deductible = money_at(env, &roles.deductible, Role::Deductible)?;
    let copay = money_at(env, &roles.copay, Role::Copay)?;
    let rate = rate_at(env, &roles.rate)?;
    let oop_max = money_at(env, &roles.oop_max, Role::OopMax)?;
    let family = limits_of(env, &roles.family)?;
    Ok(Terms {
        fee,
        deductible,
        copay,
        rate,
        oop_max,
        family,
    })
}

fn limits_of(env: &Env, roles: &Option<FamilyRoles>) -> Result<Option<FamilyTerms>, Role>
    ensures { GivesLimits (limits [] env.now roles.now) result }
{
    let Some(roles) = roles else {
        return Ok(None);
    };
    let deductible = money_at(env, &roles.deductible, Role::FamilyDeductible)?;
    let oop_max = money_at(env, &roles.oop_max, Role::FamilyOopMax)?;
    Ok(Some(FamilyTerms {
        deductible,
        oop_max,
    }))
}

// Returns the value of a role as an amount of money. If it is not one, the role is the error.
fn money_at(env: &Env, source: &Source, role: Role) -> Result<Money, Role>
    ensures { result ≡ ok_or (units_where is_money (value_of [] env.now source.now)) role }
{
    money_of(value_of(env, source)).ok_or(role)
}

fn money_of(value: Option<&Value>) -> Option<Money>
    ensures { result ≡ units_where is_money (option_copied value.entry) }
{
    match value {
        Some(Value::Number(number)) => Money::new(*number),
        _ => None,
    }
}

fn rate_at(env: &Env, source: &Source) -> Result<Fixed, Role>
    ensures { result ≡ ok_or (units_where is_rate (value_of [] env.now source.now)) Rate }
{
    rate_of(value_of(env, source)).ok_or(Role::Rate)
}

fn rate_of(value: Option<&Value>) -> Option<Fixed>
    ensures { result ≡ units_where is_rate (option_copied value.entry) }
{
    match value {
        Some(Value::Number(number)) if number.is_rate() => Some(*number),
        _ => None,
    }
}

// Returns the value of a role, or `None` if it has none or a list.
fn value_of<'a>(env: &'a Env, source: &'a Source) -> Option<&'a Value>
    ensures { option_copied result ≡ value_of [] env.now source.now }
{
    match source {
        Source::Literal(value) => Some(value),
        Source::Input(_) => None,
        Source::Output(name) => match env.get(name.as_str()) {
            Some(Answer::One(value)) => Some(value),
            Some(Answer::Many(_)) => None,
            None => None,
        },
    }
}
