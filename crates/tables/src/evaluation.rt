//! The evaluation of a plan's tables (DMN 1.4, decision tables).
ghost use Rattle.std.specs.Prelude.{◌≡◌, ◌≤◌, ◌<◌, ◌^◌, [], length};
ghost use Rattle.tables.specs.Environment.{answers_of, table_value, number_after};
ghost use Rattle.tables.specs.HitPolicy.{Gives, by_hit};

mod lists;
pub mod matching;
mod numbers;
mod priority;
mod single;

use crate::answers::{Answers, AnswersByTable};
use crate::environment::{Answer, Env};
use crate::hit::Hit;
use crate::input_classes::InputClasses;
use crate::inputs::Inputs;
use crate::plan::Plan;
use crate::table::Table;
use crate::valuer::Valuer;
use faults::Fault;
use feel_tests::Sequence;
pub use lists::lists_of;
use numbers::Aggregator;
pub use priority::{in_priority_order, rules_are_ranked_once, rules_have_one_priority_order};
pub use single::rules_agree;
use std::alloc::Global;

impl Valuer for Plan {
    ghost plan_of = { λ plan. plan };

    fn plan(&self) -> &Plan {
        self
    }

    fn value<'a>(&'a self, alloc: Global, inputs: &Inputs) -> Result<Env<'a>, Fault> {
        let answers = answers_of(alloc, inputs, self.tables())?;
        Ok(Env::new(self.tables(), answers))
    }
}

// A plan that is not compiled has no input classes.
impl InputClasses for Plan {
    ghost in_class = { λ plan given input_class. ⊥ };

    fn input_class(&self, _inputs: &Inputs) -> Option<u64> {
        None
    }
}

// Returns the answers of the tables in order, or the first fault.
fn answers_of<'a>(
    alloc: Global,
    given: &Inputs,
    tables: &[Table],
) -> Result<AnswersByTable<'a>, Fault>
    ensures { Gives (answers_of given.now [] tables.now) result }
{
    let mut answers = AnswersByTable::new(alloc);
    for table in tables {
        let next = table_value(alloc, given, answers.as_slice(), table)?;
        answers.push(Answers::from_sequence(next))?;
    }
    Ok(answers)
}

/// Returns the answers of the table that follows the tables with the `earlier` answers.
pub fn table_value(
    alloc: Global,
    given: &Inputs,
    earlier: &[Answers<'_>],
    table: &Table,
) -> Result<Sequence<Answer>, Fault>
    ensures { Gives (table_value given.now earlier.now table.now) result }
{
    let number = earlier.len() + 1;
    if let Some(column) = matching::first_outside(given, earlier, table) {
        return Err(Fault::Outside {
            table: number,
            column: column + 1,
        });
    }
    let rules = matching::matching(alloc, given, earlier, table)?;
    answers_by_hit(alloc, number, table, rules.as_slice())
}

/// Applies the hit policy of the table to the matching rules, which are given in rule order and
/// numbered from 0. A fault names the table by `number`, from 1.
pub fn answers_by_hit(
    alloc: Global,
    number: usize,
    table: &Table,
    rules: &[usize],
) -> Result<Sequence<Answer>, Fault>
    ensures { Gives (by_hit table.now.hit number table.now rules.now) result }
{
    match table.hit {
        Hit::U => single::unique(alloc, number, table, rules),
        Hit::A => single::any(alloc, number, table, rules),
        Hit::P => single::of_rule(alloc, number, table, priority::highest_rule(table, rules)),
        Hit::F => single::of_rule(alloc, number, table, rules.first().copied()),
        Hit::O => lists::in_output_order(alloc, table, rules),
        Hit::R | Hit::C => lists::in_rule_order(alloc, table, rules),
        Hit::Sum => numbers::aggregate(alloc, number, table, rules, Aggregator::Sum),
        Hit::Min => numbers::aggregate(alloc, number, table, rules, Aggregator::Min),
        Hit::Max => numbers::aggregate(alloc, number, table, rules, Aggregator::Max),
        Hit::Count => numbers::match_count(alloc, number, table, rules),
    }
}
