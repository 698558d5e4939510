//! The values that the fields of a row give.

ghost use Rattle.std.specs.Prelude.{◌≡◌, ◌<◌, Some, IfOk, IfErr, IfSome, IfNone, IsSome, length, slice_get, option_map};
ghost use Rattle.csv.specs.Records.{fields_of};
ghost use Rattle.feel_tests.specs.Value.{kind_of};
ghost use Rattle.plan_rows.specs.Columns.{AreApart, AreOfNames};
ghost use Rattle.plan_rows.specs.Given.{AreReadBefore, GivesRow, IsUnreadAt, IsUnreadField, IsValueAt};

use crate::columns::{Column, Use};
use csv::ByteRecord;
use feel_tests::{Kind, PlainFault, Value, read_plain};
use std::alloc::{AllocError, Global};
use std::str;
use tables::{Inputs, Plan};

/// Reads the values that a row with a field for each column gives, or returns the index of the
/// first column whose field denotes no value.
pub fn read_given(
    alloc: Global,
    plan: &Plan,
    columns: &[Column<'_>],
    row: &ByteRecord,
) -> Result<Result<Inputs, usize>, AllocError>
    requires apart { AreApart columns.now }
    requires named { AreOfNames plan.now.names columns.now }
    requires width { length (fields_of row.now) ≡ length columns.now }
    ensures given { IfOk result (λ read. IfOk read
        (GivesRow plan.now.names columns.now (fields_of row.now))) }
    ensures unread { IfOk result (λ read. IfErr read
        (IsUnreadAt plan.now.names columns.now (fields_of row.now))) }
    ensures first { IfOk result (λ read. IfErr read
        (AreReadBefore plan.now.names columns.now (fields_of row.now))) }
{
    let mut inputs = Inputs::new(alloc, plan)?;
    for (index, column) in columns.iter().enumerate() {
        let Use::Given(place) = column.used else {
            continue;
        };
        match read_field(alloc, kind_at(plan, place), row, index)? {
            Some(value) => inputs.set(place, value),
            None => return Ok(Err(index)),
        }
    }
    Ok(Ok(inputs))
}

fn kind_at(plan: &Plan, place: usize) -> Kind
    requires { IsSome (slice_get plan.now.names place) }
    ensures { option_map (λ d. d.kind) (slice_get plan.now.names place) ≡ Some result }
{
    match plan.names().get(place) {
        Some(input) => input.kind,
        None => unreachable!(),
    }
}

// Reads the field at a place as a value of the kind, or returns `None` if it denotes none.
fn read_field(
    alloc: Global,
    kind: Kind,
    row: &ByteRecord,
    place: usize,
) -> Result<Option<Value>, AllocError>
    requires { place < length (fields_of row.now) }
    ensures value { IfOk result (λ read. IfSome read (IsValueAt kind (fields_of row.now) place)) }
    ensures kind { IfOk result (λ read. IfSome read (λ value. kind_of value ≡ kind)) }
    ensures none { IfOk result (λ read. IfNone read
        (IsUnreadField kind (fields_of row.now) place)) }
{
    let Some(field) = row.get(place) else {
        unreachable!();
    };
    let Ok(text) = str::from_utf8(field) else {
        return Ok(None);
    };
    match read_plain(alloc, kind, text) {
        Ok(value) => Ok(Some(value)),
        Err(PlainFault::Bad) => Ok(None),
        Err(PlainFault::OutOfMemory) => Err(AllocError),
    }
}
