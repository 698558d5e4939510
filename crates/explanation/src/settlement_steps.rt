//! The facts of a claim, of its accumulators and of the steps of its settlement.
ghost use Rattle.std.specs.Prelude.{◌≡◌, ◌++◌, codes, IfOk, OnOk};
ghost use Rattle.std.specs.Option.{option_copied};
ghost use Rattle.feel_tests.specs.Value.{literal_text};
ghost use Rattle.feel_tests.specs.declared.value.Value.TheVariants.{Day};
ghost use Rattle.fixpoint.specs.Money.{is_money};
ghost use Rattle.settlement.specs.Roles.{units_where, value_of};
ghost use Rattle.settlement.specs.Settlement.{remaining};
ghost use Rattle.explanation.specs.Steps.{accumulator_facts, amount_facts, before_facts, claim_facts, family_deductible, family_left, family_maximum, family_role_facts, paid_facts, place_facts, role_facts, roles_facts, verdict_text};

use crate::fact::Facts;
use crate::row::Place;
use feel_tests::Value;
use remit_records::reason_text;
use settlement::{Acc, Claim, Money, Outcome, Verdict};
use std::alloc::{AllocError, Global};
use tables::{Answer, Env, FamilyRoles, Inputs, Roles, Source};

const SETTLEMENT: &[u8] = b"settlement";

/// Adds the file and the number of a record.
pub(crate) fn add_place(facts: &mut Facts, provider: usize, number: usize) -> Result<(), AllocError>
    ensures { OnOk result (facts.new ≡ facts.old ++ place_facts provider number) }
{
    facts.add_number(b"this record", b"file", provider as u128)?;
    facts.add_number(b"this record", b"number", number as u128)
}

/// Adds the claim of the record.
pub(crate) fn add_claim(alloc: Global, facts: &mut Facts, claim: &Claim) -> Result<(), AllocError>
    ensures { OnOk result (facts.new ≡ facts.old ++ claim_facts claim.now) }
{
    let service = service_text(alloc, claim)?;
    facts.add(b"this claim", b"identifier", claim.id.as_bytes())?;
    facts.add(b"this claim", b"member", claim.member.as_bytes())?;
    facts.add(b"this claim", b"day of service", service.as_slice())?;
    facts.add_money(b"this claim", b"billed", claim.billed)
}

fn service_text(alloc: Global, claim: &Claim) -> Result<Vec<u8>, AllocError>
    ensures { IfOk result (λ text. text.items ≡ literal_text (Day claim.now.service)) }
{
    let mut text = Vec::new(alloc);
    Value::Day(claim.service).write_text(&mut text)?;
    Ok(text)
}

/// Adds the accumulators of the claim's account, and the sums of its family, if it has one.
pub(crate) fn add_accumulators(
    facts: &mut Facts,
    step: &[u8],
    claim: &Claim,
    acc: &Acc,
) -> Result<(), AllocError>
    ensures { OnOk result (facts.new
        ≡ facts.old ++ accumulator_facts step.now claim.now.family acc.now) }
{
    facts.add_money(step, b"met of the deductible", acc.met)?;
    facts.add_money(step, b"paid out of pocket", acc.oop)?;
    facts.add_money(step, b"paid by the plan", acc.paid)?;
    if claim.family.is_none() {
        return Ok(());
    }
    facts.add_money(step, b"met of the family's deductible", acc.fmet)?;
    facts.add_money(step, b"paid out of pocket by the family", acc.foop)
}

/// Adds what the claim's account has before the claim: its accumulators, and the record of its last
/// claim, if there is one.
pub(crate) fn add_before(
    facts: &mut Facts,
    claim: &Claim,
    acc: &Acc,
    last: Option<Place>,
) -> Result<(), AllocError>
    ensures { OnOk result (facts.new ≡ facts.old ++ before_facts (codes "before this claim")
        claim.now.family (record { acc = acc.now; last = last })) }
{
    let step = b"before this claim";
    add_accumulators(facts, step, claim, acc)?;
    let Some(place) = last else {
        return Ok(());
    };
    facts.add_number(step, b"after file", place.provider as u128)?;
    facts.add_number(step, b"after record", place.number as u128)
}

/// Adds the values of the roles.
pub(crate) fn add_roles(
    alloc: Global,
    facts: &mut Facts,
    given: &Inputs,
    env: &Env,
    roles: &Roles,
) -> Result<(), AllocError>
    ensures { OnOk result (facts.new ≡ facts.old ++ roles_facts given.now env.now roles.now) }
{
    add_role(alloc, facts, given, env, b"cover", &roles.cover)?;
    add_role(alloc, facts, given, env, b"fee", &roles.fee)?;
    let deductible = b"deductible of the plan";
    add_role(alloc, facts, given, env, deductible, &roles.deductible)?;
    add_role(alloc, facts, given, env, b"copay of the plan", &roles.copay)?;
    add_role(alloc, facts, given, env, b"rate", &roles.rate)?;
    add_role(
        alloc,
        facts,
        given,
        env,
        b"out-of-pocket maximum",
        &roles.oop_max,
    )?;
    add_family_roles(alloc, facts, given, env, &roles.family)
}

fn add_family_roles(
    alloc: Global,
    facts: &mut Facts,
    given: &Inputs,
    env: &Env,
    limits: &Option<FamilyRoles>,
) -> Result<(), AllocError>
    ensures { OnOk result (facts.new
        ≡ facts.old ++ family_role_facts given.now env.now limits.now) }
{
    let Some(limits) = limits else {
        return Ok(());
    };
    let maximum = b"family's out-of-pocket maximum";
    add_role(
        alloc,
        facts,
        given,
        env,
        b"family's deductible",
        &limits.deductible,
    )?;
    add_role(alloc, facts, given, env, maximum, &limits.oop_max)
}

fn add_role(
    alloc: Global,
    facts: &mut Facts,
    given: &Inputs,
    env: &Env,
    key: &[u8],
    source: &Source,
) -> Result<(), AllocError>
    ensures { OnOk result (facts.new
        ≡ facts.old ++ role_facts given.now env.now key.now source.now) }
{
    let mut name = Vec::from_slice(alloc, key)?;
    if let Source::Output(output) = source {
        name.extend_from_slice(b" by the output ")?;
        name.extend_from_slice(output.as_str().as_bytes())?;
    }
    facts.add_value(SETTLEMENT, name.as_slice(), value_of(given, env, source))
}

fn value_of<'a>(given: &'a Inputs, env: &'a Env<'_>, source: &'a Source) -> Option<&'a Value>
    ensures { option_copied result ≡ value_of given.now env.now source.now }
{
    match source {
        Source::Literal(value) => Some(value),
        Source::Input(place) => given.get(*place),
        Source::Output(name) => match env.get(name.as_str())? {
            Answer::One(value) => Some(value),
            Answer::Many(_) => None,
        },
    }
}

/// Adds the steps of the amounts of a paid claim.
pub(crate) fn add_amounts(
    facts: &mut Facts,
    given: &Inputs,
    env: &Env,
    roles: &Roles,
    acc: &Acc,
    decided: &Outcome,
) -> Result<(), AllocError>
    ensures { OnOk result (facts.new ≡ facts.old
        ++ amount_facts decided.now.verdict given.now env.now roles.now acc.now decided.now) }
{
    match decided.verdict {
        Verdict::Paid => add_paid(facts, given, env, roles, acc, decided),
        Verdict::Denied => Ok(()),
        Verdict::Pended(_) => Ok(()),
    }
}

fn add_paid(
    facts: &mut Facts,
    given: &Inputs,
    env: &Env,
    roles: &Roles,
    acc: &Acc,
    decided: &Outcome,
) -> Result<(), AllocError>
    ensures { OnOk result (facts.new ≡ facts.old
        ++ paid_facts given.now env.now roles.now acc.now decided.now) }
{
    let deductible = family_deductible(&roles.family);
    let maximum = family_maximum(&roles.family);
    facts.add_money(SETTLEMENT, b"allowed", decided.allowed)?;
    let name = b"left of the deductible";
    add_left(facts, given, env, name, Some(&roles.deductible), acc.met)?;
    let name = b"left of the family's deductible";
    add_left(facts, given, env, name, deductible, acc.fmet)?;
    facts.add_money(SETTLEMENT, b"deductible", decided.ded)?;
    facts.add_money(SETTLEMENT, b"copay", decided.copay)?;
    facts.add_money(SETTLEMENT, b"coinsurance", decided.coins)?;
    let name = b"left of the out-of-pocket maximum";
    add_left(facts, given, env, name, Some(&roles.oop_max), acc.oop)?;
    let name = b"left of the family's out-of-pocket maximum";
    add_left(facts, given, env, name, maximum, acc.foop)?;
    facts.add_money(SETTLEMENT, b"share of the member", decided.share)?;
    facts.add_money(SETTLEMENT, b"paid by the plan", decided.paid)
}

fn family_deductible(limits: &Option<FamilyRoles>) -> Option<&Source>
    ensures { option_copied result ≡ family_deductible limits.now }
{
    match limits {
        Some(limits) => Some(&limits.deductible),
        None => None,
    }
}

fn family_maximum(limits: &Option<FamilyRoles>) -> Option<&Source>
    ensures { option_copied result ≡ family_maximum limits.now }
{
    match limits {
        Some(limits) => Some(&limits.oop_max),
        None => None,
    }
}

// Adds what is left of a limit after the `used` amount, if the limit is an amount of money.
fn add_left(
    facts: &mut Facts,
    given: &Inputs,
    env: &Env,
    name: &[u8],
    source: Option<&Source>,
    used: Money,
) -> Result<(), AllocError>
    ensures { OnOk result (facts.new ≡ facts.old
        ++ family_left given.now env.now name.now (option_copied source.entry) used) }
{
    let Some(source) = source else {
        return Ok(());
    };
    match money_of(value_of(given, env, source)) {
        Some(limit) => facts.add_money(SETTLEMENT, name, remaining(limit, used)),
        None => Ok(()),
    }
}

fn money_of(value: Option<&Value>) -> Option<Money>
    ensures { result ≡ units_where is_money (option_copied value.entry) }
{
    match value {
        Some(Value::Number(number)) => Money::new(*number),
        _ => None,
    }
}

// Returns what is left of the limit, and zero if more than the limit is used.
fn remaining(limit: Money, used: Money) -> Money
    ensures { result ≡ remaining limit used }
{
    let Some(rest) = limit.amount().sub(used.amount()) else {
        unreachable!();
    };
    match Money::new(rest) {
        Some(rest) => rest,
        None => Money::zero(),
    }
}

/// Returns the words for a verdict.
pub(crate) fn verdict_text(alloc: Global, verdict: Verdict) -> Result<Vec<u8>, AllocError>
    ensures { IfOk result (λ text. text.items ≡ verdict_text verdict) }
{
    match verdict {
        Verdict::Paid => Vec::from_slice(alloc, b"paid"),
        Verdict::Denied => {
            Vec::from_slice(alloc, b"denied, since the value of cover is not true")
        }
        Verdict::Pended(reason) => {
            let mut text = Vec::from_slice(alloc, b"pended by ")?;
            text.extend_from_slice(reason_text(alloc, reason)?.as_bytes())?;
            Ok(text)
        }
    }
}
