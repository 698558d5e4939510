//! The values of a record by column, each with the type of its column. A refused field has no
//! value; its fault is not reported here.
ghost use Rattle.std.specs.Prelude.{◌≡◌, ◌<◌, length, IfOk, IfErr, IfSome, IfNone};
ghost use Rattle.std.specs.Int.{IsInRange};
ghost use Rattle.std.specs.List.{All, Any};
ghost use Rattle.feel_tests.specs.Calendar.{year_text};
ghost use Rattle.feel_tests.specs.TextBytes.{IsText};
ghost use Rattle.feel_tests.specs.declared.kind.Kind.TheVariants as kinds;
ghost use Rattle.feel_tests.specs.declared.value.Value.TheVariants as values;
ghost use Rattle.intake_csv.specs.Record.{IsPlain};
ghost use Rattle.intake_csv.specs.Rows.{AreValues, IsFaultyUnder};
ghost use Rattle.intake_csv.specs.Validated.{IsReadUnder, IsRefusedUnder, IsTextUnder};
ghost use Rattle.intake_csv.specs.declared.column.Content.TheVariants as contents;

use crate::column::Column;
use crate::csv_record::CsvRecord;
use crate::field::{check_identifier, read_money, read_of_kind, read_year};
use faults::RowCause;
use feel_tests::{Day, TEXT_LIMIT_BYTES, Text, Value};
use settlement::Money;
use std::alloc::{AllocError, Global};
use tables::Sequence;

/// Returns the text of a column's field, or the fault of a field that is no text.
#[inline(always)]
pub fn field_of_column(column: Column, row: &CsvRecord) -> Result<&str, RowCause>
    requires { column.place < length row.now }
    ensures text { IfOk result (λ text. IsTextUnder row.now column text.now) }
    ensures faulty { IfErr result (λ cause. IsFaultyUnder row.now cause column) }
{
    let Some(found) = row.text(column.place) else {
        unreachable!();
    };
    let Ok(text) = found else {
        return Err(RowCause::Utf8);
    };
    if text.len() > TEXT_LIMIT_BYTES {
        return Err(RowCause::TooLong);
    }
    Ok(text)
}

/// Returns the text of a column of identifiers, which is the unchanged field, or `None` if the
/// field is refused.
#[inline(always)]
pub fn identifier_of_column(column: Column, row: &CsvRecord) -> Option<&str>
    requires within { column.place < length row.now }
    requires content { column.content ≡ contents.Identifier }
    ensures read { IsReadUnder (λ text. values.Text text.now) row.now column result }
    ensures text { IfSome result (λ text. IsText text.now) }
{
    let Ok(text) = field_of_column(column, row) else {
        return None;
    };
    match check_identifier(text) {
        Ok(()) => Some(text),
        Err(_) => None,
    }
}

/// Returns a copy of the text of a column of identifiers, or `None` if the field is refused.
pub fn text_of_column(
    alloc: Global,
    column: Column,
    row: &CsvRecord,
) -> Result<Option<Text>, AllocError>
    requires within { column.place < length row.now }
    requires content { column.content ≡ contents.Identifier }
    ensures { IfOk result (IsReadUnder values.Text row.now column) }
{
    let Some(text) = identifier_of_column(column, row) else {
        return Ok(None);
    };
    Ok(Some(Text::new(alloc, text)?))
}

/// Returns the year of a column of years, or `None` if the field is refused.
pub fn year_of_column(column: Column, row: &CsvRecord) -> Option<u16>
    requires within { column.place < length row.now }
    requires content { column.content ≡ contents.Year }
    ensures read { IsReadUnder (λ year. values.Text (year_text year)) row.now column result }
    ensures in_range { IfSome result (IsInRange 1 9999) }
{
    let Ok(text) = field_of_column(column, row) else {
        return None;
    };
    read_year(text).ok()
}

/// Returns the amount of a column of money, or `None` if the field is refused.
pub fn money_of_column(column: Column, row: &CsvRecord) -> Option<Money>
    requires within { column.place < length row.now }
    requires content { column.content ≡ contents.Money }
    ensures { IsReadUnder values.Number row.now column result }
{
    let Ok(text) = field_of_column(column, row) else {
        return None;
    };
    read_money(text).ok()
}

/// Returns the date of a column of dates, or `None` if the field is refused.
#[tactic(auto, using(crate::proofs::Shapes::day_value))]
pub fn day_of_column(
    alloc: Global,
    column: Column,
    row: &CsvRecord,
) -> Result<Option<Day>, AllocError>
    requires within { column.place < length row.now }
    requires content { column.content ≡ contents.Plain kinds.Day }
    ensures { IfOk result (IsReadUnder values.Day row.now column) }
{
    let Some(value) = value_of_column(alloc, column, row)? else {
        return Ok(None);
    };
    let Value::Day(day) = value else {
        unreachable!();
    };
    Ok(Some(day))
}

/// Returns the values of these columns, in the order of the columns, or `None` if a field is
/// refused. The list takes the memory of `spare`, whose items are dropped.
pub fn values_of_columns(
    alloc: Global,
    columns: &[Column],
    row: &CsvRecord,
    spare: Sequence<Value>,
) -> Result<Option<Sequence<Value>>, AllocError>
    requires within { All (λ c. c.place < length row.now) columns.now }
    requires plain { All IsPlain columns.now }
    ensures values { IfOk result (λ read. IfSome read (AreValues row.now columns.now)) }
    ensures none { IfOk result (λ read. IfNone read (Any (IsRefusedUnder row.now) columns.now)) }
{
    let mut values = spare;
    values.clear();
    values.reserve(columns.len())?;
    for column in columns {
        let Some(value) = value_of_column(alloc, *column, row)? else {
            return Ok(None);
        };
        values.push(value)?;
    }
    Ok(Some(values))
}

#[inline(always)]
fn value_of_column(
    alloc: Global,
    column: Column,
    row: &CsvRecord,
) -> Result<Option<Value>, AllocError>
    requires within { column.place < length row.now }
    requires plain { IsPlain column }
    ensures { IfOk result (IsReadUnder (λ value. value) row.now column) }
{
    let Ok(text) = field_of_column(column, row) else {
        return Ok(None);
    };
    Ok(read_of_kind(alloc, column.content.kind(), text)?.ok())
}
