//! The record of a row: its fields, the texts of the outputs, and the fault.

ghost use Rattle.std.specs.Prelude.{◌≡◌, ◌<◌, ◌++◌, ◌∷◌, [], ◌+◌, ◌^◌, IfOk, OnOk, get_or, length, map, replicate};
ghost use Rattle.csv.specs.Records.{fields_of};
ghost use Rattle.evaluation.specs.Stop.{fault_text};
ghost use Rattle.tables.specs.Environment.{env};
ghost use Rattle.tables.specs.Inputs.{IsReady};
ghost use Rattle.tables.specs.Plan.{IsPlan};
ghost use Rattle.plan_rows.specs.Columns.{AreApart, AreOfNames, GivesRead};
ghost use Rattle.plan_rows.specs.Placed.{ArePlaces, placed_text};
ghost use Rattle.plan_rows.specs.ValuedRows.{IsFieldsEnd, IsRowEnd, IsValued, RowEnd, end_fields, faulty_end, fitted, valued_end, value_fault};

use crate::columns::Column;
use crate::given::read_given;
use crate::judging::{has_width, tables_value};
use crate::lines::{append_fault, append_place};
use crate::sheet::Line;
use csv::ByteRecord;
use cutplan::CutPlan;
use std::alloc::{AllocError, Global};
use tables::{Env, Fault, Inputs, OutputPlace, Valuer};

/// The fault of a row that has another number of fields than the header, as the remittance has it.
const WIDTH_FAULT: &[u8] = b"fieldcount";

/// Fills the line with the record of a row.
pub fn fill_line(
    alloc: Global,
    plan: &CutPlan<'_>,
    columns: &[Column<'_>],
    places: &[Option<OutputPlace>],
    row: &ByteRecord,
    line: &mut Line,
) -> Result<(), AllocError>
    requires sound { IsPlan plan.now }
    requires apart { AreApart columns.now }
    requires named { AreOfNames plan.now.names columns.now }
    requires needed { GivesRead plan.now columns.now }
    requires placed { ArePlaces plan.now.tables places.now }
    ensures { OnOk result (IsValued plan.now columns.now (fields_of row.now) line.new) }
{
    line.clear();
    push_fitted(line, columns.len(), row)?;
    push_end(alloc, plan, columns, places, row, line)
}

// Appends the first fields of the row, and empty ones where it has fewer.
fn push_fitted(line: &mut Line, count: usize, row: &ByteRecord) -> Result<(), AllocError>
    ensures { OnOk result (line.new ≡ line.old ++ fitted count (fields_of row.now)) }
{
    for place in 0..count {
        line.push(field_or_empty(row, place))?;
    }
    Ok(())
}

fn field_or_empty(row: &ByteRecord, place: usize) -> &[u8]
    ensures { result.now ≡ get_or (fields_of row.now) place [] }
{
    match row.get(place) {
        Some(field) => field,
        None => b"",
    }
}

// Appends what follows the fields of the row.
fn push_end(
    alloc: Global,
    plan: &CutPlan<'_>,
    columns: &[Column<'_>],
    places: &[Option<OutputPlace>],
    row: &ByteRecord,
    line: &mut Line,
) -> Result<(), AllocError>
    requires sound { IsPlan plan.now }
    requires apart { AreApart columns.now }
    requires named { AreOfNames plan.now.names columns.now }
    requires needed { GivesRead plan.now columns.now }
    requires placed { ArePlaces plan.now.tables places.now }
    ensures { OnOk result ((row_end : RowEnd)
        × IsRowEnd plan.now columns.now (fields_of row.now) row_end
        × (line.new ≡ line.old ++ end_fields row_end)) }
{
    if has_width(row, columns) {
        return push_fields_end(alloc, plan, columns, places, row, line);
    }
    push_faulty(plan, places, WIDTH_FAULT, line)
}

// Appends what follows the fields of a row that has as many as the header.
fn push_fields_end(
    alloc: Global,
    plan: &CutPlan<'_>,
    columns: &[Column<'_>],
    places: &[Option<OutputPlace>],
    row: &ByteRecord,
    line: &mut Line,
) -> Result<(), AllocError>
    requires sound { IsPlan plan.now }
    requires apart { AreApart columns.now }
    requires named { AreOfNames plan.now.names columns.now }
    requires needed { GivesRead plan.now columns.now }
    requires placed { ArePlaces plan.now.tables places.now }
    requires width { length (fields_of row.now) ≡ length columns.now }
    ensures { OnOk result ((row_end : RowEnd)
        × IsFieldsEnd plan.now columns.now (fields_of row.now) row_end
        × (line.new ≡ line.old ++ end_fields row_end)) }
{
    match read_given(alloc, plan.plan(), columns, row)? {
        Ok(inputs) => push_value(alloc, plan, places, &inputs, line),
        Err(place) => push_unread(alloc, plan, places, place, line),
    }
}

// Appends what follows the fields of a row with these values.
fn push_value(
    alloc: Global,
    plan: &CutPlan<'_>,
    places: &[Option<OutputPlace>],
    inputs: &Inputs,
    line: &mut Line,
) -> Result<(), AllocError>
    requires placed { ArePlaces plan.now.tables places.now }
    requires ready { IsReady plan.now.tables inputs.now }
    ensures { OnOk result (line.new ≡ line.old
        ++ end_fields (valued_end plan.now.tables (env plan.now inputs.now))) }
{
    match tables_value(alloc, plan, inputs)? {
        Ok(values) => {
            push_answers(line, places, &values)?;
            line.push(b"")
        }
        Err(fault) => {
            let text = fault_text(alloc, fault)?;
            push_faulty(plan, places, text.as_slice(), line)
        }
    }
}

fn fault_text(alloc: Global, fault: Fault) -> Result<Vec<u8>, AllocError>
    ensures { IfOk result (λ text. text.items ≡ fault_text fault) }
{
    let mut text = Vec::new(alloc);
    append_fault(&mut text, fault)?;
    Ok(text)
}

fn push_answers(
    line: &mut Line,
    places: &[Option<OutputPlace>],
    values: &Env<'_>,
) -> Result<(), AllocError>
    ensures { OnOk result (line.new ≡ line.old
        ++ map (placed_text values.now.answers) places.now) }
{
    for place in places {
        push_placed(line, *place, values)?;
    }
    Ok(())
}

// Appends the answer at a place.
fn push_placed(
    line: &mut Line,
    place: Option<OutputPlace>,
    values: &Env<'_>,
) -> Result<(), AllocError>
    ensures { OnOk result (line.new ≡ line.old ++ placed_text values.now.answers place ∷ []) }
{
    let Some(place) = place else {
        return line.push(b"");
    };
    match values.at(place) {
        Some(answer) => line.push_answer(answer),
        None => line.push(b""),
    }
}

// Appends what follows the fields of a row whose field of the column at an index denotes no value.
fn push_unread(
    alloc: Global,
    plan: &CutPlan<'_>,
    places: &[Option<OutputPlace>],
    place: usize,
    line: &mut Line,
) -> Result<(), AllocError>
    requires placed { ArePlaces plan.now.tables places.now }
    requires within { place + 1 < 2 ^ 64 }
    ensures { OnOk result (line.new ≡ line.old
        ++ end_fields (faulty_end plan.now.tables (value_fault place))) }
{
    let mut text = Vec::from_slice(alloc, b"value")?;
    append_place(&mut text, place + 1)?;
    push_faulty(plan, places, text.as_slice(), line)
}

// Appends what follows the fields of a row that has no value for this fault.
fn push_faulty(
    plan: &CutPlan<'_>,
    places: &[Option<OutputPlace>],
    fault: &[u8],
    line: &mut Line,
) -> Result<(), AllocError>
    requires placed { ArePlaces plan.now.tables places.now }
    ensures { OnOk result (line.new ≡ line.old
        ++ end_fields (faulty_end plan.now.tables fault.now)) }
{
    push_empty(line, places.len())?;
    line.push(fault)
}

fn push_empty(line: &mut Line, count: usize) -> Result<(), AllocError>
    ensures { OnOk result (line.new ≡ line.old ++ replicate count []) }
{
    for _ in 0..count {
        line.push(b"")?;
    }
    Ok(())
}
