//! Tests of adjudicators, which decide several claims.
ghost use Rattle.std.specs.Prelude.{◌≡◌};

use super::{Example, acc, capped_example, chained_plan, claim, is_reported, plan};
use settlement::{Adjudicator, Outcome};
use std::alloc::{AllocError, Global};
use std::process::Abort;
use tables::{InputClasses, Plan};

// Returns the outcome of one more claim by the same adjudicator.
fn decided_next<V: InputClasses>(
    rt: &impl Abort,
    alloc: Global,
    desk: &mut Adjudicator<V>,
    plan: &Plan,
    example: &Example,
) -> Result<Outcome, AllocError>
    requires { desk.old ≡ plan.now }
    ensures { desk.new ≡ desk.old }
{
    let (code, billed, before, _) = example;
    let claim = claim(rt, alloc, plan, *billed, code);
    assert!(rt; plan.roles().is_some());
    assert!(rt; claim.is_of(plan));
    let outcome = desk.decide(alloc, &claim, acc(rt, *before));
    drop(claim);
    outcome
}

pub fn desk<'v, V: InputClasses>(
    rt: &impl Abort,
    alloc: Global,
    valuer: &'v V,
) -> Adjudicator<'v, V>
    ensures { result ≡ V.plan_of valuer.now }
{
    match Adjudicator::new(alloc, valuer) {
        Ok(desk) => desk,
        Err(_) => Adjudicator::new(alloc, valuer).expect(rt, "memory for an adjudicator"),
    }
}

pub fn settles_next<V: InputClasses>(
    rt: &impl Abort,
    alloc: Global,
    desk: &mut Adjudicator<V>,
    plan: &Plan,
    example: &Example,
)
    requires { desk.old ≡ plan.now }
    ensures { desk.new ≡ desk.old }
{
    let outcome = match decided_next(rt, alloc, desk, plan, example) {
        Ok(outcome) => outcome,
        Err(_) => {
            decided_next(rt, alloc, desk, plan, example).expect(rt, "memory for an outcome")
        }
    };
    is_reported(rt, alloc, outcome, example);
}

// A claim under the chained tables, to be decided before the capped one.
fn before_capped() -> Example {
    (
        "A",
        9_000,
        (0, 0, 0, 0, 0),
        "Paid 9000 5000 1000 600 6000 3000, 5000 6000 3000 5000 6000",
    )
}

// A decision that runs out of memory and is not repeated must not affect the decision of the next
// claim.
fn settles_after_a_refusal(rt: &impl Abort, alloc: Global, plan: &Plan) {
    let mut desk = desk(rt, alloc, plan);
    if let Ok(outcome) = decided_next(rt, alloc, &mut desk, plan, &before_capped()) {
        is_reported(rt, alloc, outcome, &before_capped());
    }
    settles_next(rt, alloc, &mut desk, plan, &capped_example());
    drop(desk);
}

#[test]
fn an_adjudicator_decides_though_memory_is_refused(rt: HostRuntime) {
    let plan = plan(&rt, rt.alloc(), chained_plan());
    settles_after_a_refusal(&rt, rt.alloc(), &plan);
    drop(plan);
}
