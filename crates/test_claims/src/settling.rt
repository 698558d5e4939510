//! Tests of settlements by worked examples. Amounts are in cents. A call that runs out of memory is
//! repeated.
//!
//! Plans, claims and outcomes are dropped explicitly: for the prover, `drop` is one call, but the
//! end of a scope is one step for each part of the value.

mod adjudicators;
mod host_valuer;
mod input_classes;

use crate::ending::expects;
use dtable::{PlanFault, read_plan};
use feel_tests::{Day, TEXT_LIMIT_BYTES, Text, Value};
use fixpoint::Fixed;
use settlement::{Acc, Claim, Money, Outcome, after, decide};
use std::alloc::{AllocError, Global};
use std::fmt::Write;
use std::process::Abort;
use tables::{Plan, Sequence, Valuer};
use test_fixtures::family_plan;

/// Accumulators: the amounts met, out of pocket and paid of the member, and the sums of what its
/// family has met and paid out of pocket.
pub type Sums = (i64, i64, i64, i64, i64);

/// A claim's code, its billed amount and the accumulators before it, and the text of its outcome:
/// the verdict, the allowed amount, deductible, copay, coinsurance, the member's share, the amount
/// that the plan pays, the remarks, and the accumulators after the claim.
type Example = (&'static str, i64, Sums, &'static str);

/// Returns a plan for families with three chained tables: the second reads the tier from the first,
/// and the third lists remarks for the output of the second.
fn chained_plan() -> &'static str {
    r#"
version = 3
fields = [{name = "code", kind = "text"}]

[roles]
cover = "covered"
fee = "most"
deductible = "50"
copay = "10"
rate = "0.2"
oop_max = "60"
remarks = "note"
family_deductible = "80"
family_oop_max = "100"

[[tables]]
inputs = [{name = "code"}, {name = "family"}]
outputs = [{name = "tier", kind = "text"}]
rules = [{when = ['"A"', '-'], then = ['"high"']}, {when = ['"B"', '"F1"'], then = ['"low"']}]

[[tables]]
inputs = [{name = "tier"}]
outputs = [{name = "covered", kind = "flag"}, {name = "most", kind = "number"}]
rules = [{when = ['"high"'], then = ['true', '100']}, {when = ['"low"'], then = ['true', '40']}]

[[tables]]
hit = "R"
inputs = [{name = "most"}, {name = "met"}]
outputs = [{name = "note", kind = "text"}]
rules = [
  {when = ['<50', '-'], then = ['"CAPPED"']},
  {when = ['-', '>=50'], then = ['"MET"']},
]
"#
}

/// A claim under the chained tables of a member who has met the deductible and the out-of-pocket
/// maximum. The fee caps what is allowed.
fn capped_example() -> Example {
    (
        "B",
        12_000,
        (5_000, 6_000, 4_000, 5_000, 6_000),
        "Paid 4000 0 1000 600 0 4000 CAPPED MET, 5000 6000 8000 5000 6000",
    )
}

/// A claim under the chained tables of another member of the family, which leaves 30.00 of its
/// deductible and 40.00 of its out-of-pocket maximum.
fn uncapped_example() -> Example {
    (
        "A",
        12_000,
        (0, 0, 0, 5_000, 6_000),
        "Paid 10000 3000 1000 1200 4000 6000, 3000 4000 6000 8000 10000",
    )
}

/// Returns the amount of this count of cents.
pub fn money(rt: &impl Abort, cents: i64) -> Money {
    let amount = Fixed::from_units(cents.saturating_mul(100)).expect(rt, "a number");
    Money::new(amount).expect(rt, "money")
}

pub fn acc(rt: &impl Abort, sums: Sums) -> Acc {
    let (met, oop, paid, fmet, foop) = sums;
    Acc {
        met: money(rt, met),
        oop: money(rt, oop),
        paid: money(rt, paid),
        fmet: money(rt, fmet),
        foop: money(rt, foop),
    }
}

/// Copies a text of at most 256 bytes.
pub fn text(rt: &impl Abort, alloc: Global, text: &str) -> Text {
    assert!(rt; text.len() <= TEXT_LIMIT_BYTES);
    match Text::new(alloc, text) {
        Ok(made) => made,
        Err(_) => Text::new(alloc, text).expect(rt, "memory for a text"),
    }
}

fn room(rt: &impl Abort, alloc: Global) -> Sequence<Value> {
    match Sequence::with_capacity(alloc, 1) {
        Ok(room) => room,
        Err(_) => Sequence::with_capacity(alloc, 1).expect(rt, "memory for a value"),
    }
}

// Returns the values of a claim's fields: its code.
fn values(rt: &impl Abort, alloc: Global, code: &str) -> Sequence<Value> {
    let mut values = room(rt, alloc);
    let pushed = values.push(Value::Text(text(rt, alloc, code)));
    expects(rt, pushed.is_ok(), "room for a value");
    values
}

// Returns the family of a claim, if the plan keeps accumulators for families.
fn family_under(rt: &impl Abort, alloc: Global, plan: &Plan) -> Option<Text> {
    if plan.keeps_families() {
        Some(text(rt, alloc, "F1"))
    } else {
        None
    }
}

fn claim(rt: &impl Abort, alloc: Global, plan: &Plan, billed: i64, code: &str) -> Claim {
    Claim {
        id: text(rt, alloc, "c1"),
        family: family_under(rt, alloc, plan),
        member: text(rt, alloc, "M1"),
        service: Day::from_epoch_day(19_727).expect(rt, "a day"),
        billed: money(rt, billed),
        fields: values(rt, alloc, code),
    }
}

// This call may be repeated.
fn decided_once<V: Valuer>(
    rt: &impl Abort,
    alloc: Global,
    valuer: &V,
    claim: &Claim,
    before: &Acc,
) -> Result<Outcome, AllocError> {
    let plan = valuer.plan();
    assert!(rt; plan.roles().is_some());
    assert!(rt; claim.is_of(plan));
    decide(alloc, valuer, claim, *before)
}

// Writes an outcome as one line: its verdict, amounts and remarks, and the accumulators after it.
fn outcome_text(rt: &impl Abort, alloc: Global, outcome: &Outcome, before: &Acc) -> String {
    let mut reported = String::new(alloc);
    if write_outcome(&mut reported, outcome, before).is_err() {
        reported.clear();
        let again = write_outcome(&mut reported, outcome, before);
        expects(rt, again.is_ok(), "memory for the line");
    }
    reported
}

fn write_outcome(reported: &mut String, outcome: &Outcome, before: &Acc) -> Result<(), AllocError> {
    write!(reported, "{:?}", outcome.verdict)?;
    write_each(
        reported,
        &[
            outcome.allowed,
            outcome.ded,
            outcome.copay,
            outcome.coins,
            outcome.share,
            outcome.paid,
        ],
    )?;
    for place in 0..outcome.remarks.len() {
        if let Some(remark) = outcome.remarks.get(place) {
            write!(reported, " {remark}")?;
        }
    }
    write_left(reported, after(*before, outcome))
}

// Writes amounts as counts of cents.
fn write_each(reported: &mut String, amounts: &[Money]) -> Result<(), AllocError> {
    for amount in amounts {
        write!(reported, " {}", amount.amount().units() / 100)?;
    }
    Ok(())
}

fn write_left(reported: &mut String, left: Option<Acc>) -> Result<(), AllocError> {
    match left {
        Some(acc) => {
            reported.push(',')?;
            write_each(reported, &[acc.met, acc.oop, acc.paid, acc.fmet, acc.foop])
        }
        None => reported.push_str(", out of range"),
    }
}

fn is_reported(rt: &impl Abort, alloc: Global, outcome: Outcome, example: &Example) {
    let (_, _, before, wanted) = example;
    let reported = outcome_text(rt, alloc, &outcome, &acc(rt, *before));
    expects(rt, reported.as_str() == *wanted, wanted);
    drop(outcome);
}

// Decides a claim by the valuer, and compares its outcome.
fn settles<V: Valuer>(rt: &impl Abort, alloc: Global, valuer: &V, example: &Example) {
    let (code, billed, before, _) = example;
    let claim = claim(rt, alloc, valuer.plan(), *billed, code);
    let before = acc(rt, *before);
    let outcome = match decided_once(rt, alloc, valuer, &claim, &before) {
        Ok(outcome) => outcome,
        Err(_) => decided_once(rt, alloc, valuer, &claim, &before).expect(
            rt,
            "memory for an outcome",
        ),
    };
    is_reported(rt, alloc, outcome, example);
    drop(claim);
}

fn plan(rt: &impl Abort, alloc: Global, text: &str) -> Plan {
    match read(alloc, text) {
        Ok(plan) => plan,
        Err(fault) => {
            expects(rt, fault == PlanFault::from(AllocError), "a plan");
            read(alloc, text).expect(rt, "a plan")
        }
    }
}

// This call may be repeated. A function without a contract keeps the proofs of its callers small.
fn read(alloc: Global, text: &str) -> Result<Plan, PlanFault> {
    read_plan(alloc, text.as_bytes())
}

// `./check` runs this test once for each of its allocations, with that allocation refused.
#[test]
fn tables_in_a_chain_though_memory_is_refused(rt: HostRuntime) {
    let plan = plan(&rt, rt.alloc(), chained_plan());
    settles(&rt, rt.alloc(), &plan, &capped_example());
    settles(&rt, rt.alloc(), &plan, &uncapped_example());
    drop(plan);
}

fn copy(rt: &impl Abort, alloc: Global, claim: &Claim) -> Claim {
    match claim.duplicate(alloc) {
        Ok(copy) => copy,
        Err(_) => claim.duplicate(alloc).expect(rt, "memory for a copy"),
    }
}

fn is_that_claim(plan: &Plan, claim: Claim) -> bool {
    let same = claim.is_of(plan) && has_its_parts(&claim);
    drop(claim);
    same
}

fn has_its_parts(claim: &Claim) -> bool {
    claim.id.as_str() == "c1"
        && claim.family().as_str() == "F1"
        && claim.member.as_str() == "M1"
        && claim.service.epoch_day() == 19_727
        && claim.billed.amount().units() == 10_000
}

#[test]
fn a_copy_of_a_claim_though_memory_is_refused(rt: HostRuntime) {
    let plan = plan(&rt, rt.alloc(), family_plan());
    let claim = claim(&rt, rt.alloc(), &plan, 100, "A");
    let copied = copy(&rt, rt.alloc(), &claim);
    expects(&rt, is_that_claim(&plan, copied), "the same claim");
    drop(claim);
    drop(plan);
}
