//! Hit policies that list all matches (DMN 1.4, hit policies Rule order, Output order and Collect).
ghost use Rattle.std.specs.Prelude.{◌≡◌, ◌++◌, Ok, IfOk, OnOk, slice_get};
ghost use Rattle.std.specs.Option.{option_to_list};
ghost use Rattle.tables.specs.HitPolicy.{Gives, lists, column_of};
ghost use Rattle.tables.specs.Priority.{entries_of, in_priority_order};

use super::priority;
use crate::environment::Answer;
use crate::table::Table;
use faults::Fault;
use feel_tests::{Sequence, Value};
use std::alloc::{AllocError, Global};

/// Applies Rule order, or Collect, which this profile lists in rule order: the entries of the
/// matches for each output.
pub fn in_rule_order(
    alloc: Global,
    table: &Table,
    rules: &[usize],
) -> Result<Sequence<Answer>, Fault>
    ensures { Gives (Ok (lists table.now rules.now)) result }
{
    Ok(lists_of(alloc, table, rules)?)
}

/// Applies Output order: the entries of the matches for each output, in decreasing priority.
pub fn in_output_order(
    alloc: Global,
    table: &Table,
    rules: &[usize],
) -> Result<Sequence<Answer>, Fault>
    ensures { Gives (Ok (lists table.now (in_priority_order table.now rules.now))) result }
{
    let ordered = priority::in_priority_order(alloc, table, rules)?;
    Ok(lists_of(alloc, table, ordered.as_slice())?)
}

/// Returns, for each output, the list of the entries of these rules, in the given order.
pub fn lists_of(
    alloc: Global,
    table: &Table,
    rules: &[usize],
) -> Result<Sequence<Answer>, AllocError>
    ensures { IfOk result (λ answers. answers ≡ lists table.now rules.now) }
{
    let mut answers = Sequence::with_capacity(alloc, table.outputs.len())?;
    for column in 0..table.outputs.len() {
        answers.push(Answer::Many(column_of(alloc, table, rules, column)?))?;
    }
    Ok(answers)
}

fn column_of(
    alloc: Global,
    table: &Table,
    rules: &[usize],
    column: usize,
) -> Result<Sequence<Value>, AllocError>
    ensures { IfOk result (λ values. values ≡ column_of table.now rules.now column) }
{
    let mut values = Sequence::with_capacity(alloc, rules.len())?;
    for rule in rules {
        push_entry(alloc, table, *rule, column, &mut values)?;
    }
    Ok(values)
}

fn push_entry(
    alloc: Global,
    table: &Table,
    rule: usize,
    column: usize,
    values: &mut Sequence<Value>,
) -> Result<(), AllocError>
    ensures { OnOk result (values.new
        ≡ values.old ++ option_to_list (slice_get (entries_of table.now rule) column)) }
{
    match table.entry(rule, column) {
        Some(value) => values.push(value.duplicate(alloc)?),
        None => Ok(()),
    }
}
