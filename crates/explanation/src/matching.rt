//! The rules of a table that match.
ghost use Rattle.std.specs.Prelude.{◌≡◌, IfOk};
ghost use Rattle.std.specs.Option.{option_copied};
ghost use Rattle.tables.specs.Matching.{cells_hold, holds_of, matching};

use feel_tests::{Cell, Value};
use std::alloc::{AllocError, Global};
use tables::{Answers, Input, Inputs, Sequence, Table, value_read};

/// Returns the indices of the matching rules, from 0, in rule order.
pub(crate) fn matching(
    alloc: Global,
    given: &Inputs,
    earlier: &[Answers<'_>],
    table: &Table,
) -> Result<Sequence<usize>, AllocError>
    ensures { IfOk result (λ rules. rules ≡ matching given.now earlier.now table.now) }
{
    let mut found = Sequence::new(alloc);
    for (place, rule) in table.rules.as_slice().iter().enumerate() {
        if cells_hold(
            given,
            earlier,
            table.inputs.as_slice(),
            rule.cells.as_slice(),
        ) {
            found.push(place)?;
        }
    }
    Ok(found)
}

fn cells_hold(given: &Inputs, earlier: &[Answers<'_>], inputs: &[Input], cells: &[Cell]) -> bool
    ensures { result ≡ cells_hold given.now earlier.now inputs.now cells.now }
{
    inputs.iter().zip(cells).all(|(input, cell)| holds_of(
        value_read(given, earlier, input.origin),
        cell,
    ))
}

fn holds_of(value: Option<&Value>, cell: &Cell) -> bool
    ensures { result ≡ holds_of (option_copied value.entry) cell.now }
{
    match value {
        Some(value) => cell.holds(value),
        None => false,
    }
}
