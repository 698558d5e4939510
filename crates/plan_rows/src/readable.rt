//! The expectations of a row that cannot be read: a field that is no value of the kind that the
//! column's output or amount has, or no status.

ghost use Rattle.std.specs.Prelude.{◌≡◌, ◌<◌, ◌↔◌, IfOk, IfSome, IfNone, IsTrue, Some, length};
ghost use Rattle.std.specs.List.{AllZip};
ghost use Rattle.csv.specs.Records.{field_at, fields_of};
ghost use Rattle.plan_rows.specs.declared.part.Part.TheVariants.{Status};
ghost use Rattle.plan_rows.specs.Readable.{IsReadable, IsReadableAs, IsReadablePart, IsUnreadableAt, kind_among, output_kind};

use crate::columns::{Column, Use};
use crate::expected::are_of_kind;
use crate::lines::field_of;
use crate::part::Part;
use csv::ByteRecord;
use feel_tests::Kind;
use std::alloc::{AllocError, Global};
use tables::{Plan, Table};

/// Returns the index of the first column whose field is an expectation that cannot be read.
pub fn first_unreadable(
    alloc: Global,
    plan: &Plan,
    columns: &[Column<'_>],
    row: &ByteRecord,
) -> Result<Option<usize>, AllocError>
    requires { length (fields_of row.now) ≡ length columns.now }
    ensures unreadable { IfOk result (λ found. IfSome found
        (IsUnreadableAt plan.now columns.now (fields_of row.now))) }
    ensures readable { IfOk result (λ found. IfNone found
        (AllZip (IsReadable plan.now) columns.now (fields_of row.now))) }
{
    for (place, column) in columns.iter().enumerate() {
        if !is_readable(alloc, plan, *column, field_of(row, place))? {
            return Ok(Some(place));
        }
    }
    Ok(None)
}

// An empty field can always be read.
fn is_readable(
    alloc: Global,
    plan: &Plan,
    column: Column<'_>,
    field: &[u8],
) -> Result<bool, AllocError>
    ensures { IfOk result (λ is. IsTrue is ↔ IsReadable plan.now column.entry field.now) }
{
    if field.is_empty() {
        return Ok(true);
    }
    is_readable_as(alloc, plan, column, field)
}

fn is_readable_as(
    alloc: Global,
    plan: &Plan,
    column: Column<'_>,
    field: &[u8],
) -> Result<bool, AllocError>
    ensures { IfOk result (λ is. IsTrue is
        ↔ IsReadableAs plan.now column.entry.used column.entry.name.now field.now) }
{
    match column.used {
        Use::Given(_) => Ok(true),
        Use::Expected => match output_kind(plan.tables(), column.name) {
            Some(kind) => are_of_kind(alloc, kind, field),
            None => Ok(true),
        },
        Use::Settled(part) => is_readable_part(alloc, part, field),
        Use::Fault => Ok(true),
        Use::Carried => Ok(true),
    }
}

fn is_readable_part(alloc: Global, part: Part, field: &[u8]) -> Result<bool, AllocError>
    ensures { IfOk result (λ is. IsTrue is ↔ IsReadablePart part field.now) }
{
    match part {
        Part::Status => Ok(is_status(field)),
        Part::Reason => Ok(true),
        Part::Amount(_) => are_of_kind(alloc, Kind::Number, field),
    }
}

fn is_status(field: &[u8]) -> bool
    ensures { IsTrue result ↔ IsReadablePart Status field.now }
{
    if is_word(field, b"paid") {
        return true;
    }
    if is_word(field, b"denied") {
        return true;
    }
    is_word(field, b"pended")
}

fn is_word(field: &[u8], word: &[u8]) -> bool
    ensures { IsTrue result ↔ field.now ≡ word.now }
{
    field == word
}

// Returns the kind of the first output with this name.
fn output_kind(tables: &[Table], name: &str) -> Option<Kind>
    ensures { result ≡ output_kind tables.now name.now }
{
    for table in tables {
        if let Some(kind) = kind_among(table, name) {
            return Some(kind);
        }
    }
    None
}

fn kind_among(table: &Table, name: &str) -> Option<Kind>
    ensures { result ≡ kind_among table.now name.now }
{
    for output in table.outputs.as_slice() {
        if output.name.as_str() == name {
            return Some(output.kind);
        }
    }
    None
}
