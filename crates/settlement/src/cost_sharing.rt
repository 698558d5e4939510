//! The values of a plan's roles for a claim: whether it is covered, its cost sharing and its
//! remarks.
ghost use Rattle.std.specs.Prelude.{◌≡◌, Some, slice_get, IfOk, IsTrue};
ghost use Rattle.std.specs.List.{filter_map};
ghost use Rattle.std.specs.Option.{ok_or, option_and_then, option_copied};
ghost use Rattle.fixpoint.specs.Money.{is_money, is_rate};
ghost use Rattle.tables.specs.Environment.{answer_at};
ghost use Rattle.settlement.specs.RoleBindings.{IsPlaced, AreFamilyPlaced, AreRemarksPlaced, ArePlaced};
ghost use Rattle.settlement.specs.Roles.{value_of, is_true_flag, units_where, terms, limits, remarks_of, text_of, texts_of};

use crate::money::Money;
use crate::rate::Rate;
use crate::remark_table::RemarkTable;
use crate::remarks::Remarks;
use crate::role_bindings::{FamilyBindings, RoleBindings};
use faults::Role;
use feel_tests::{Text, Value};
use std::alloc::{AllocError, Global};
use tables::{Answer, Env, FamilyRoles, Inputs, Name, OutputPlace, Roles, Sequence, Source};

/// The limits of a claim's family.
#[derive(Clone, Copy)]
pub struct FamilyLimits {
    pub deductible: Money,
    pub oop_max: Money,
}

/// The cost sharing of a claim: the values of its number roles, and the limits of the family, if
/// the plan has any.
#[derive(Clone, Copy)]
pub struct CostSharing {
    pub fee: Money,
    pub deductible: Money,
    pub copay: Money,
    pub rate: Rate,
    pub oop_max: Money,
    pub family: Option<FamilyLimits>,
}

/// Returns whether the claim is covered: whether the role `cover` is true.
pub fn is_covered(inputs: &Inputs, env: &Env, roles: &Roles, places: &RoleBindings) -> bool
    requires { ArePlaced env.now.tables roles.now places.now }
    ensures { result ≡ is_true_flag (value_of inputs.now env.now roles.now.cover) }
{
    match value_of(inputs, env, &roles.cover, places.cover) {
        Some(Value::Flag(flag)) => *flag,
        _ => false,
    }
}

/// Returns the cost sharing of the claim, or the first role whose value is missing or is not an
/// amount of money or, for `rate`, not a rate.
pub fn terms_of(
    inputs: &Inputs,
    env: &Env,
    roles: &Roles,
    places: &RoleBindings,
) -> Result<CostSharing, Role>
    requires { ArePlaced env.now.tables roles.now places.now }
    ensures { result ≡ terms inputs.now env.now roles.now }
{
    let fee = money_at(inputs, env, &roles.fee, places.fee, Role::Fee)?;
    let deductible = money_at(
        inputs,
        env,
        &roles.deductible,
        places.deductible,
        Role::Deductible,
    )?;
    let copay = money_at(inputs, env, &roles.copay, places.copay, Role::Copay)?;
    let rate = rate_of(value_of(inputs, env, &roles.rate, places.rate)).ok_or(Role::Rate)?;
    let oop_max = money_at(inputs, env, &roles.oop_max, places.oop_max, Role::OopMax)?;
    let family = limits_of(inputs, env, &roles.family, &places.family)?;
    Ok(CostSharing {
        fee,
        deductible,
        copay,
        rate,
        oop_max,
        family,
    })
}

fn limits_of(
    inputs: &Inputs,
    env: &Env,
    roles: &Option<FamilyRoles>,
    places: &FamilyBindings,
) -> Result<Option<FamilyLimits>, Role>
    requires { AreFamilyPlaced env.now.tables roles.now places.now }
    ensures { result ≡ limits inputs.now env.now roles.now }
{
    let Some(roles) = roles else {
        return Ok(None);
    };
    let deductible = money_at(
        inputs,
        env,
        &roles.deductible,
        places.deductible,
        Role::FamilyDeductible,
    )?;
    let oop_max = money_at(
        inputs,
        env,
        &roles.oop_max,
        places.oop_max,
        Role::FamilyOopMax,
    )?;
    Ok(Some(FamilyLimits {
        deductible,
        oop_max,
    }))
}

/// Returns the remarks: the texts in the output with this name, or none if the plan names no
/// output. Texts in the table of remarks are not copied.
pub fn remarks(
    env: &Env,
    name: &Option<Name>,
    place: Option<OutputPlace>,
    remark_table: &RemarkTable,
) -> Result<Remarks, AllocError>
    requires { AreRemarksPlaced env.now.tables name.now place }
    ensures { IfOk result (λ remarks. remarks ≡ remarks_of env.now name.now) }
{
    match name {
        Some(_) => texts(answer_of_place(env, place), remark_table),
        None => Ok(Remarks::none()),
    }
}

fn texts(answer: Option<&Answer>, remark_table: &RemarkTable) -> Result<Remarks, AllocError>
    ensures { IfOk result (λ texts. texts ≡ texts_of (option_copied answer.entry)) }
{
    match answer {
        Some(Answer::Many(values)) => texts_in(values.as_slice(), remark_table),
        _ => Ok(Remarks::none()),
    }
}

// The table of remarks is not verified, so its result is compared with the texts. If they differ,
// the texts are copied.
fn texts_in(values: &[Value], remark_table: &RemarkTable) -> Result<Remarks, AllocError>
    ensures { IfOk result (λ texts. texts ≡ filter_map text_of values.now) }
{
    let found = remark_table.look_up(values)?;
    if are_texts_of(&found, values) {
        return Ok(found);
    }
    let alloc = remark_table.alloc();
    Remarks::new(alloc, copies_of(alloc, values)?)
}

fn are_texts_of(remarks: &Remarks, values: &[Value]) -> bool
    ensures { IsTrue result → remarks.now ≡ filter_map text_of values.now }
{
    let count = remarks.len();
    let mut compared = 0;
    for value in values {
        if let Some(text) = text_of(value) {
            if !is_at(remarks, compared, text) {
                return false;
            }
            compared += 1;
        }
    }
    compared == count
}

fn is_at(remarks: &Remarks, place: usize, text: &Text) -> bool
    ensures { IsTrue result → slice_get remarks.now place ≡ Some text.now }
{
    match remarks.get(place) {
        Some(remark) => remark == text.as_str(),
        None => false,
    }
}

fn copies_of(alloc: Global, values: &[Value]) -> Result<Sequence<Text>, AllocError>
    ensures { IfOk result (λ texts. texts ≡ filter_map text_of values.now) }
{
    let mut texts = Sequence::new(alloc);
    for value in values {
        if let Some(text) = text_of(value) {
            texts.push(Text::new(alloc, text.as_str())?)?;
        }
    }
    Ok(texts)
}

/// Returns the text of a value, or `None` if it is not a text.
pub fn text_of(value: &Value) -> Option<&Text>
    ensures { option_copied result ≡ text_of value.now }
{
    match value {
        Value::Text(text) => Some(text),
        Value::Number(_) => None,
        Value::Flag(_) => None,
        Value::Day(_) => None,
    }
}

// Returns the value of a role, or `None` if it has none or a list.
fn value_of<'a>(
    inputs: &'a Inputs,
    env: &'a Env,
    source: &'a Source,
    place: Option<OutputPlace>,
) -> Option<&'a Value>
    requires { IsPlaced env.now.tables source.now place }
    ensures { option_copied result ≡ value_of inputs.now env.now source.now }
{
    match source {
        Source::Literal(value) => Some(value),
        Source::Input(place) => inputs.get(*place),
        Source::Output(_) => match answer_of_place(env, place) {
            Some(Answer::One(value)) => Some(value),
            Some(Answer::Many(_)) => None,
            None => None,
        },
    }
}

fn answer_of_place<'a>(env: &'a Env, place: Option<OutputPlace>) -> Option<&'a Answer>
    ensures { option_copied result ≡ option_and_then (answer_at env.now.answers) place }
{
    match place {
        Some(place) => env.at(place),
        None => None,
    }
}

// Returns the value of a role as an amount of money. If it is not one, the role is the error.
fn money_at(
    inputs: &Inputs,
    env: &Env,
    source: &Source,
    place: Option<OutputPlace>,
    role: Role,
) -> Result<Money, Role>
    requires { IsPlaced env.now.tables source.now place }
    ensures { result ≡ ok_or (units_where is_money (value_of inputs.now env.now source.now)) role }
{
    money_of(value_of(inputs, env, source, place)).ok_or(role)
}

fn money_of(value: Option<&Value>) -> Option<Money>
    ensures { result ≡ units_where is_money (option_copied value.entry) }
{
    match value {
        Some(Value::Number(number)) => Money::new(*number),
        _ => None,
    }
}

fn rate_of(value: Option<&Value>) -> Option<Rate>
    ensures { result ≡ units_where is_rate (option_copied value.entry) }
{
    match value {
        Some(Value::Number(number)) => Rate::new(*number),
        _ => None,
    }
}
