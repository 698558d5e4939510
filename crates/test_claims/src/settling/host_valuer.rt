//! An example of a host with a valuer of its own, which evaluates a plan's tables one by one.
//! `settlement::decide` asks it for the plan and for the value of the tables, and for nothing else.
ghost use Rattle.std.specs.Prelude.{[]};
ghost use Rattle.tables.specs.Environment.{answers_of};
ghost use Rattle.tables.specs.HitPolicy.{Gives};

use super::{Example, plan, settles};
use faults::Fault;
use std::alloc::Global;
use tables::{Answers, AnswersByTable, Env, Inputs, Plan, Table, Valuer, table_value};
use test_fixtures::health_plan;

/// The valuer of a host that has the plan.
#[derive(Clone, Copy)]
struct HostValuer<'p> {
    plan: &'p Plan,
}

impl<'p> Valuer for HostValuer<'p> {
    ghost plan_of = { λ host. host.plan.now };

    fn plan(&self) -> &Plan {
        self.plan
    }

    fn value<'a>(&'a self, alloc: Global, inputs: &Inputs) -> Result<Env<'a>, Fault> {
        let answers = answers_of(alloc, inputs, self.plan.tables())?;
        Ok(Env::new(self.plan.tables(), answers))
    }
}

// Returns the answers of the tables, each by the answers before it, or the first fault.
fn answers_of<'a>(
    alloc: Global,
    inputs: &Inputs,
    tables: &[Table],
) -> Result<AnswersByTable<'a>, Fault>
    ensures { Gives (answers_of inputs.now [] tables.now) result }
{
    let mut answers = AnswersByTable::new(alloc);
    for table in tables {
        let next = table_value(alloc, inputs, answers.as_slice(), table)?;
        answers.push(Answers::from_sequence(next))?;
    }
    Ok(answers)
}

// A claim under the health plan, of a member who has met the deductible and has paid 50.00. The fee
// is 100.00, so that the billed 60.00 are allowed. The copay is 10.00, and the coinsurance is 20 %
// of the other 50.00. Of these 20.00 the member pays 10.00, up to the maximum of 60.00, and the
// plan pays 50.00. The member is its own family.
fn example() -> Example {
    (
        "A",
        6_000,
        (5_000, 5_000, 0, 5_000, 5_000),
        "Paid 6000 0 1000 1000 1000 5000 MET, 5000 6000 5000 5000 6000",
    )
}

#[test]
fn a_host_values_its_plan_by_its_own(rt: HostRuntime) {
    let plan = plan(&rt, rt.alloc(), health_plan());
    settles(&rt, rt.alloc(), &HostValuer { plan: &plan }, &example());
    drop(plan);
}
