//! The judgement of a row.

ghost use Rattle.std.specs.Prelude.{◌≡◌, ◌<◌, ◌↔◌, IfOk, IsSome, IsTrue, length, slice_get};
ghost use Rattle.std.specs.List.{AllZip};
ghost use Rattle.csv.specs.Records.{fields_of};
ghost use Rattle.tables.specs.Environment.{env};
ghost use Rattle.tables.specs.Inputs.{IsReady};
ghost use Rattle.plan_rows.specs.Columns.{AreApart, AreOfNames, GivesNeeded};
ghost use Rattle.plan_rows.specs.Readable.{IsReadable};
ghost use Rattle.plan_rows.specs.Report.{HasValues, IsJudged, IsRefusedBy, IsSettledAs, IsUnfitIn, IsUnreadIn, unread_line, width_line};

use crate::columns::{Column, settles};
use crate::filing::filed_by;
use crate::finding::Finding;
use crate::given::read_given;
use crate::lines::{append_printed, append_row_start, row_text};
use crate::readable::first_unreadable;
use csv::ByteRecord;
use settlement::{Outcome, decide};
use std::alloc::{AllocError, Global};
use tables::{Env, Fault, Inputs, Plan, Valuer};

/// The judgement of a row.
#[derive(Clone, Copy)]
pub enum Judgement {
    /// Each expectation is met.
    Right,
    /// At least one expectation is not met.
    Wrong,
    /// The row has another number of fields than the header, or a field that can't be read.
    Refused,
}

/// The judgement of a row, and its lines.
#[derive(Drop)]
pub struct Judged {
    pub judgement: Judgement,
    pub text: Vec<u8>,
}

/// Judges the row with this number.
pub fn judge_row(
    alloc: Global,
    plan: &Plan,
    columns: &[Column<'_>],
    number: usize,
    row: &ByteRecord,
) -> Result<Judged, AllocError>
    requires apart { AreApart columns.now }
    requires named { AreOfNames plan.now.names columns.now }
    requires needed { GivesNeeded plan.now columns.now }
    ensures { IfOk result (λ judged. IsJudged number plan.now columns.now (fields_of row.now)
        judged.judgement judged.text.items) }
{
    if has_width(row, columns) {
        return judge_fields(alloc, plan, columns, number, row);
    }
    width_row(alloc, number)
}

/// Returns whether the row has a field for each column.
pub fn has_width(row: &ByteRecord, columns: &[Column<'_>]) -> bool
    ensures { IsTrue result ↔ length (fields_of row.now) ≡ length columns.now }
{
    row.len() == columns.len()
}

// Judges a row with a field for each column.
fn judge_fields(
    alloc: Global,
    plan: &Plan,
    columns: &[Column<'_>],
    number: usize,
    row: &ByteRecord,
) -> Result<Judged, AllocError>
    requires apart { AreApart columns.now }
    requires named { AreOfNames plan.now.names columns.now }
    requires needed { GivesNeeded plan.now columns.now }
    requires width { length (fields_of row.now) ≡ length columns.now }
    ensures { IfOk result (λ judged. IsJudged number plan.now columns.now (fields_of row.now)
        judged.judgement judged.text.items) }
{
    if let Some(place) = first_unreadable(alloc, plan, columns, row)? {
        return unread_row(alloc, number, columns, place);
    }
    judge_readable(alloc, plan, columns, number, row)
}

// Judges a row whose expectations can be read.
fn judge_readable(
    alloc: Global,
    plan: &Plan,
    columns: &[Column<'_>],
    number: usize,
    row: &ByteRecord,
) -> Result<Judged, AllocError>
    requires apart { AreApart columns.now }
    requires named { AreOfNames plan.now.names columns.now }
    requires needed { GivesNeeded plan.now columns.now }
    requires width { length (fields_of row.now) ≡ length columns.now }
    requires readable { AllZip (IsReadable plan.now) columns.now (fields_of row.now) }
    ensures { IfOk result (λ judged. IsJudged number plan.now columns.now (fields_of row.now)
        judged.judgement judged.text.items) }
{
    match read_given(alloc, plan, columns, row)? {
        Ok(inputs) => judge_inputs(alloc, plan, columns, number, row, &inputs),
        Err(place) => unread_row(alloc, number, columns, place),
    }
}

fn width_row(alloc: Global, number: usize) -> Result<Judged, AllocError>
    ensures { IfOk result (IsRefusedBy (width_line number)) }
{
    let judgement = Judgement::Refused;
    let text = width_text(alloc, number)?;
    Ok(Judged { judgement, text })
}

fn unread_row(
    alloc: Global,
    number: usize,
    columns: &[Column<'_>],
    place: usize,
) -> Result<Judged, AllocError>
    requires { place < length columns.now }
    ensures { IfOk result (IsUnreadIn number columns.now place) }
{
    let judgement = Judgement::Refused;
    let name = columns[place].name;
    let text = unread_text(alloc, number, name)?;
    Ok(Judged { judgement, text })
}

fn width_text(alloc: Global, number: usize) -> Result<Vec<u8>, AllocError>
    ensures { IfOk result (λ text. text.items ≡ width_line number) }
{
    let mut text = Vec::new(alloc);
    append_row_start(&mut text, number)?;
    text.extend_from_slice(b"another number of fields than the header\n")?;
    Ok(text)
}

fn unread_text(alloc: Global, number: usize, name: &str) -> Result<Vec<u8>, AllocError>
    ensures { IfOk result (λ text. text.items ≡ unread_line number name.now) }
{
    let mut text = Vec::new(alloc);
    append_row_start(&mut text, number)?;
    append_printed(&mut text, name.as_bytes())?;
    text.extend_from_slice(b" can't be read\n")?;
    Ok(text)
}

// Judges a row with these values.
fn judge_inputs(
    alloc: Global,
    plan: &Plan,
    columns: &[Column<'_>],
    number: usize,
    row: &ByteRecord,
    inputs: &Inputs,
) -> Result<Judged, AllocError>
    requires { HasValues plan.now columns.now (fields_of row.now) inputs.now }
    ensures { IfOk result (λ judged. IsJudged number plan.now columns.now (fields_of row.now)
        judged.judgement judged.text.items) }
{
    if !settles(plan, columns) {
        return judge_finding(alloc, plan, columns, number, row, inputs, None);
    }
    match filed_by(alloc, plan, inputs)? {
        Ok(filed) => {
            let outcome = decide(alloc, plan, &filed.claim, filed.acc)?;
            judge_finding(alloc, plan, columns, number, row, inputs, Some(outcome))
        }
        Err(place) => unfit_row(alloc, plan, number, place),
    }
}

// Returns the judgement of a row whose value of a name no claim can have.
fn unfit_row(alloc: Global, plan: &Plan, number: usize, place: usize) -> Result<Judged, AllocError>
    requires { IsSome (slice_get plan.now.names place) }
    ensures { IfOk result (IsUnfitIn number plan.now place) }
{
    let judgement = Judgement::Refused;
    let name = plan.names()[place].name.as_str();
    let text = unread_text(alloc, number, name)?;
    Ok(Judged { judgement, text })
}

// Judges a row with these values and this outcome of its claim, if the rows are settled.
fn judge_finding(
    alloc: Global,
    plan: &Plan,
    columns: &[Column<'_>],
    number: usize,
    row: &ByteRecord,
    inputs: &Inputs,
    settled: Option<Outcome>,
) -> Result<Judged, AllocError>
    requires values { HasValues plan.now columns.now (fields_of row.now) inputs.now }
    requires settled { IsSettledAs plan.now columns.now inputs.now settled }
    ensures { IfOk result (λ judged. IsJudged number plan.now columns.now (fields_of row.now)
        judged.judgement judged.text.items) }
{
    let tables = tables_value(alloc, plan, inputs)?;
    let finding = Finding { tables, settled };
    let text = row_text(alloc, number, columns, row, &finding);
    drop(finding);
    let text = text?;
    if text.as_slice().is_empty() {
        let judgement = Judgement::Right;
        return Ok(Judged { judgement, text });
    }
    let judgement = Judgement::Wrong;
    Ok(Judged { judgement, text })
}

/// Returns the value of the tables of the valuer's plan, or their first fault.
pub fn tables_value<'v, V: Valuer>(
    alloc: Global,
    valuer: &'v V,
    inputs: &Inputs,
) -> Result<Result<Env<'v>, Fault>, AllocError>
    requires { IsReady (V.plan_of valuer.now).tables inputs.now }
    ensures { IfOk result (λ value. env (V.plan_of valuer.now) inputs.now ≡ value) }
{
    match valuer.value(alloc, inputs) {
        Ok(values) => Ok(Ok(values)),
        Err(Fault::OutOfMemory) => Err(AllocError),
        Err(fault) => Ok(Err(fault)),
    }
}
