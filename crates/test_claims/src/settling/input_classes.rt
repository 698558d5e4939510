//! Tests of an adjudicator's cache by an evaluator that counts. No clause asks that a determination
//! is looked up: an adjudicator may also evaluate the tables for each claim.
ghost use Rattle.std.specs.Prelude.{◌≡◌, []};

use super::adjudicators::{desk, settles_next};
use super::{Example, capped_example, chained_plan, plan};
use crate::ending::expects;
use faults::Fault;
use std::alloc::Global;
use std::cell::Cell;
use std::process::Abort;
use tables::{Env, InputClasses, Inputs, Plan, Valuer};

/// An evaluator that counts the lookups of an input class, and its evaluations. Its inputs are all
/// in one class if its plan has no tables, and otherwise it knows no class.
#[derive(Drop)]
struct Counted<'p> {
    plan: &'p Plan,
    asked: Cell<u32>,
    valued: Cell<u32>,
}

impl<'p> Valuer for Counted<'p> {
    ghost plan_of = { λ counted. counted.plan.now };

    fn plan(&self) -> &Plan {
        self.plan
    }

    fn value<'a>(&'a self, alloc: Global, inputs: &Inputs) -> Result<Env<'a>, Fault> {
        self.valued.set(self.valued.get().saturating_add(1));
        self.plan.value(alloc, inputs)
    }
}

impl<'p> InputClasses for Counted<'p> {
    ghost in_class = { λ counted given input_class. counted.plan.now.tables ≡ [] };

    fn input_class(&self, _inputs: &Inputs) -> Option<u64> {
        self.asked.set(self.asked.get().saturating_add(1));
        if self.plan.tables().is_empty() {
            Some(0)
        } else {
            None
        }
    }
}

// Decides the claim repeatedly by one adjudicator.
fn settles_often(rt: &impl Abort, alloc: Global, counted: &Counted, example: &Example, times: u32) {
    let mut desk = desk(rt, alloc, counted);
    for _ in 0..times {
        settles_next(rt, alloc, &mut desk, counted.plan, example);
    }
    drop(desk);
}

// Returns the number of lookups and the number of evaluations for a claim that is decided several
// times.
fn counts(rt: &impl Abort, alloc: Global, text: &str, example: &Example, times: u32) -> (u32, u32) {
    let plan = plan(rt, alloc, text);
    let counted = Counted {
        plan: &plan,
        asked: Cell::new(0),
        valued: Cell::new(0),
    };
    settles_often(rt, alloc, &counted, example, times);
    let counts = (counted.asked.get(), counted.valued.get());
    drop(counted);
    drop(plan);
    counts
}

#[test]
fn an_adjudicator_gives_up_classes_that_have_no_number(rt: HostRuntime) {
    let (asked, _) = counts(&rt, rt.alloc(), chained_plan(), &capped_example(), 1_200);
    expects(&rt, asked == 1_024, "1024 lookups of input classes");
}

// A plan without tables, whose roles are literals.
fn flat_plan() -> &'static str {
    r#"
version = 1
fields = [{name = "code", kind = "text"}]

[roles]
cover = "true"
fee = "5"
deductible = "100"
copay = "0"
rate = "0"
oop_max = "1000"
"#
}

#[test]
fn claims_of_one_class_are_evaluated_once(rt: HostRuntime) {
    let example = (
        "A",
        2,
        (9_999, 0, 0, 9_999, 0),
        "Paid 2 1 0 0 1 1, 10000 1 1 10000 1",
    );
    let (_, valued) = counts(&rt, rt.alloc(), flat_plan(), &example, 2);
    expects(&rt, valued == 1, "one evaluation");
}
