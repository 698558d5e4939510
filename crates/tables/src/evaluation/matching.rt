//! The rules that match (DMN 1.4, decision tables).
ghost use Rattle.std.specs.Prelude.{◌≡◌, ◌+◌, ◌<◌, ◌^◌, IfOk, IfSome, slice_get};
ghost use Rattle.std.specs.Option.{option_copied, option_and_then};
ghost use Rattle.tables.specs.Matching.{value_read, earlier_value, single, holds_of, cells_hold, matching, is_outside, first_outside};

use crate::answers::Answers;
use crate::environment::Answer;
use crate::inputs::Inputs;
use crate::table::{Input, Origin, Table};
use feel_tests::{Cell, Sequence, Value};
use std::alloc::{AllocError, Global};

/// Returns the indices of the matching rules, from 0, in rule order.
pub fn matching(
    alloc: Global,
    given: &Inputs,
    earlier: &[Answers<'_>],
    table: &Table,
) -> Result<Sequence<usize>, AllocError>
    ensures { IfOk result (λ rules. rules ≡ matching given.now earlier.now table.now) }
{
    let mut found = Sequence::new(alloc);
    for (place, rule) in table.rules.as_slice().iter().enumerate() {
        if cells_hold(
            given,
            earlier,
            table.inputs.as_slice(),
            rule.cells.as_slice(),
        ) {
            found.push(place)?;
        }
    }
    Ok(found)
}

// Returns whether each cell holds for the value of its input. The first cell that does not hold
// ends the test.
fn cells_hold(given: &Inputs, earlier: &[Answers<'_>], inputs: &[Input], cells: &[Cell]) -> bool
    ensures { result ≡ cells_hold given.now earlier.now inputs.now cells.now }
{
    for (place, input) in inputs.iter().enumerate() {
        match cells.get(place) {
            Some(cell) => {
                if !cell_holds(given, earlier, input, cell) {
                    return false;
                }
            }
            None => return true,
        }
    }
    true
}

/// Returns the first column, from 0, whose value is not among its allowed values.
pub fn first_outside(given: &Inputs, earlier: &[Answers<'_>], table: &Table) -> Option<usize>
    ensures value { result ≡ first_outside given.now earlier.now table.now }
    ensures countable { IfSome result (λ column. column + 1 < 2 ^ 64) }
{
    let inputs = table.inputs.as_slice();
    for (column, input) in inputs.iter().enumerate() {
        if is_outside(given, earlier, input) {
            return Some(column);
        }
    }
    None
}

fn is_outside(given: &Inputs, earlier: &[Answers<'_>], input: &Input) -> bool
    ensures { result ≡ is_outside given.now earlier.now input.now }
{
    match &input.values {
        Some(allowed) => !cell_holds(given, earlier, input, allowed),
        None => false,
    }
}

fn cell_holds(given: &Inputs, earlier: &[Answers<'_>], input: &Input, cell: &Cell) -> bool
    ensures { result ≡ holds_of (value_read given.now earlier.now input.now.origin) cell.now }
{
    holds_of(value_read(given, earlier, input.origin), cell)
}

/// Returns the value that an input reads: a given value, or an answer of an earlier table.
pub fn value_read<'a>(
    given: &'a Inputs,
    earlier: &'a [Answers<'_>],
    origin: Origin,
) -> Option<&'a Value>
    ensures { option_copied result ≡ value_read given.now earlier.now origin }
{
    match origin {
        Origin::Given(place) => given.get(place),
        Origin::Earlier { table, column } => earlier_value(earlier, table, column),
    }
}

fn earlier_value<'a>(earlier: &'a [Answers<'_>], table: usize, column: usize) -> Option<&'a Value>
    ensures { option_copied result ≡ earlier_value earlier.now table column }
{
    match earlier.get(table) {
        Some(answers) => single_at(answers.as_slice(), column),
        None => None,
    }
}

fn single_at(answers: &[Answer], column: usize) -> Option<&Value>
    ensures { option_copied result ≡ option_and_then single (slice_get answers.now column) }
{
    match answers.get(column) {
        Some(Answer::One(value)) => Some(value),
        _ => None,
    }
}

// A cell does not hold for a missing value.
fn holds_of(value: Option<&Value>, cell: &Cell) -> bool
    ensures { result ≡ holds_of (option_copied value.entry) cell.now }
{
    match value {
        Some(value) => cell.holds(value),
        None => false,
    }
}
