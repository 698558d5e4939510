//! The text for the rows of a file: the header, and a record for each row.

ghost use Rattle.std.specs.Prelude.{◌≡◌, ◌++◌, ◌∷◌, [], IfOk, IfErr, List, OnOk, map, ℕ};
ghost use Rattle.std.specs.List.{AllZip};
ghost use Rattle.csv.specs.Records.{fields_of};
ghost use Rattle.intake_csv.specs.Reader.{HasLeft};
ghost use Rattle.intake_csv.specs.Records.{Fields};
ghost use Rattle.tables.specs.Plan.{IsPlan};
ghost use Rattle.plan_rows.specs.Columns.{AreApart, AreOfNames, GivesRead, fault_word};
ghost use Rattle.plan_rows.specs.Placed.{ArePlaces, IsPlaceOf};
ghost use Rattle.plan_rows.specs.RowsStop.{RefusesHeader, RefusesRows};
ghost use Rattle.plan_rows.specs.Sheet.{HasText, record_text};
ghost use Rattle.plan_rows.specs.ValuedRows.{IsTextOf, IsTextOfRows, IsTextUnder, output_names};
ghost use Rattle.plan_rows.specs.WrittenRows.{HasWrittenAll};

use crate::columns::{Column, FAULT};
use crate::lines::field_of;
use crate::records::{new_reader, read_record};
use crate::row_columns::read_row_columns;
use crate::rows_stop::{RowsFault, RowsStop};
use crate::sheet::{Line, into_text, sheet_writer, write_line};
use crate::testing::CASES_LIMIT_BYTES;
use crate::valued_row::fill_line;
use csv::{ByteRecord, Reader, Writer};
use cutplan::{CutPlan, compile};
use std::alloc::{AllocError, Global};
use tables::{Output, OutputPlace, Plan, Table};

/// Returns the text for the rows of a file under the plan.
pub fn valued_text(alloc: Global, plan: &Plan, rows: &[u8]) -> Result<Vec<u8>, RowsStop>
    ensures text { IfOk result (λ text. IsTextOf plan.now rows.now text.items) }
    ensures refused { IfErr result (RefusesRows plan.now rows.now) }
{
    if rows.len() > CASES_LIMIT_BYTES {
        return Err(RowsStop::Rows(RowsFault::TooLarge));
    }
    let mut reader = new_reader(alloc, rows);
    let mut header = ByteRecord::new(alloc);
    if !read_record(&mut reader, &mut header)? {
        return Err(RowsStop::Rows(RowsFault::NoHeader));
    }
    text_under(alloc, plan, &header, &mut reader)
}

// Returns the text for this header and the remaining rows of the reader.
fn text_under(
    alloc: Global,
    plan: &Plan,
    header: &ByteRecord,
    reader: &mut Reader<&[u8]>,
) -> Result<Vec<u8>, RowsStop>
    ensures text { IfOk result (λ text. (rows : List Fields) → HasLeft reader.old rows
        → IsTextOfRows plan.now (fields_of header.now) rows text.items) }
    ensures refused { IfErr result (RefusesHeader plan.now (fields_of header.now)) }
{
    let columns = read_row_columns(alloc, plan, header)?;
    let text = text_of_columns(alloc, plan, header, columns.as_slice(), reader);
    drop(columns);
    Ok(text?)
}

fn text_of_columns(
    alloc: Global,
    plan: &Plan,
    header: &ByteRecord,
    columns: &[Column<'_>],
    reader: &mut Reader<&[u8]>,
) -> Result<Vec<u8>, AllocError>
    requires apart { AreApart columns.now }
    requires named { AreOfNames plan.now.names columns.now }
    requires needed { GivesRead plan.now columns.now }
    ensures { IfOk result (λ text. (rows : List Fields) → HasLeft reader.old rows
        → IsTextUnder plan.now (fields_of header.now) columns.now rows text.items) }
{
    let names = output_names(alloc, plan.tables())?;
    let places = places_of(alloc, plan, names.as_slice())?;
    let mut writer = sheet_writer(alloc);
    write_header(alloc, header, names.as_slice(), &mut writer)?;
    let compiled = compile(alloc, plan)?;
    write_rows(
        alloc,
        &compiled,
        columns,
        places.as_slice(),
        reader,
        &mut writer,
    )?;
    into_text(writer)
}

fn output_names<'t>(alloc: Global, tables: &'t [Table]) -> Result<Vec<&'t str>, AllocError>
    ensures { IfOk result (λ names. map (λ n. n.now) names.items ≡ output_names tables.now) }
{
    let mut names = Vec::new(alloc);
    for table in tables {
        push_names(&mut names, table.outputs.as_slice())?;
    }
    Ok(names)
}

fn push_names<'t>(names: &mut Vec<&'t str>, outputs: &'t [Output]) -> Result<(), AllocError>
    ensures { OnOk result (map (λ n. n.now) names.new.items
        ≡ map (λ n. n.now) names.old.items ++ map (λ o. o.name) outputs.now) }
{
    for output in outputs {
        names.push(output.name.as_str())?;
    }
    Ok(())
}

// Returns the places of the outputs with these names.
fn places_of(
    alloc: Global,
    plan: &Plan,
    names: &[&str],
) -> Result<Vec<Option<OutputPlace>>, AllocError>
    ensures { IfOk result (λ places.
        AllZip (IsPlaceOf plan.now.tables) (map (λ n. n.now) names.now) places.items) }
{
    let mut places = Vec::new(alloc);
    for name in names {
        places.push(plan.output_place(name))?;
    }
    Ok(places)
}

// Writes the names of the columns.
fn write_header(
    alloc: Global,
    header: &ByteRecord,
    names: &[&str],
    writer: &mut Writer<Vec<u8>>,
) -> Result<(), AllocError>
    ensures { OnOk result ((text : List ℕ) → HasText writer.old text
        → HasText writer.new (text ++ record_text
        (fields_of header.now ++ (map (λ n. n.now) names.now ++ fault_word ∷ [])))) }
{
    let mut line = Line::new(alloc);
    push_fields(&mut line, header)?;
    push_texts(&mut line, names)?;
    line.push(FAULT.as_bytes())?;
    write_line(writer, &line)
}

fn push_fields(line: &mut Line, row: &ByteRecord) -> Result<(), AllocError>
    ensures { OnOk result (line.new ≡ line.old ++ fields_of row.now) }
{
    for place in 0..row.len() {
        line.push(field_of(row, place))?;
    }
    Ok(())
}

fn push_texts(line: &mut Line, texts: &[&str]) -> Result<(), AllocError>
    ensures { OnOk result (line.new ≡ line.old ++ map (λ n. n.now) texts.now) }
{
    for text in texts {
        line.push(text.as_bytes())?;
    }
    Ok(())
}

// Writes a record for each remaining row of the reader. A text has fewer rows than the loop has turns.
fn write_rows(
    alloc: Global,
    plan: &CutPlan<'_>,
    columns: &[Column<'_>],
    places: &[Option<OutputPlace>],
    reader: &mut Reader<&[u8]>,
    writer: &mut Writer<Vec<u8>>,
) -> Result<(), AllocError>
    requires sound { IsPlan plan.now }
    requires apart { AreApart columns.now }
    requires named { AreOfNames plan.now.names columns.now }
    requires needed { GivesRead plan.now columns.now }
    requires placed { ArePlaces plan.now.tables places.now }
    ensures { OnOk result ((rows : List Fields) (text : List ℕ) → HasLeft reader.old rows
        → HasText writer.old text → HasWrittenAll plan.now columns.now rows text writer.new) }
{
    let mut row = ByteRecord::new(alloc);
    let mut line = Line::new(alloc);
    for _ in 0..u64::MAX {
        if !read_record(reader, &mut row)? {
            return Ok(());
        }
        fill_line(alloc, plan, columns, places, &row, &mut line)?;
        write_line(writer, &line)?;
    }
    Err(AllocError)
}
