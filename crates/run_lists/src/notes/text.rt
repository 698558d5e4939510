//! The work list of a run: a CSV file with a record for each note.

use crate::notes::fields::{column_at_fault, columns_of, columns_read};
use crate::notes::file::FileRecords;
use crate::notes::{Note, NoteCause};
use crate::sheet::{Sheet, push_shown};
use intake_csv::{RowCause, RowFault};
use remit_records::RefusalCount;
use settlement::Reason;
use std::alloc::{AllocError, Global};
use tables::Plan;

/// The names of the columns.
static HEADER: [&str; 8] = [
    "file", "record", "line", "status", "reason", "column", "text", "values",
];

/// The texts of the run whose notes are written.
#[derive(Clone, Copy)]
pub struct NotedTexts<'a> {
    pub plan: &'a Plan,
    /// The names of the providers' files, in their order.
    pub names: &'a [&'a str],
    pub files: &'a [&'a [u8]],
}

/// Returns the work list of these notes, which must be in the order of the files. A record has the name
/// of its file, its number there, the line on which it begins, its status and its reason as in the
/// remittance, the column at fault and the field in it, and the fields on which the answer of the failed
/// table depends.
pub fn notes_text(
    alloc: Global,
    texts: NotedTexts<'_>,
    notes: &[Note],
) -> Result<Vec<u8>, AllocError> {
    let mut sheet = Sheet::new(alloc);
    for name in HEADER.as_slice() {
        sheet.push(name.as_bytes())?;
    }
    sheet.end_record()?;
    let mut next = 0;
    for place in 0..texts.files.len() {
        next = add_file(alloc, &mut sheet, texts, place, notes, next)?;
    }
    sheet.into_text()
}

// Adds the notes of a file from this one on, and returns the index of the first note of a later file.
fn add_file(
    alloc: Global,
    sheet: &mut Sheet,
    texts: NotedTexts<'_>,
    place: usize,
    notes: &[Note],
    next: usize,
) -> Result<usize, AllocError> {
    let Some(text) = texts.files.get(place) else {
        return Ok(next);
    };
    let name = name_of(texts.names, place);
    let mut records = FileRecords::new(alloc, *text)?;
    for at in next..notes.len() {
        let note = notes[at];
        if note.provider != place.saturating_add(1) {
            return Ok(at);
        }
        records.read_up_to(note.number)?;
        add_note(alloc, sheet, texts.plan, name, &records, note)?;
    }
    Ok(notes.len())
}

fn name_of<'n>(names: &'n [&'n str], place: usize) -> &'n str {
    match names.get(place) {
        Some(name) => *name,
        None => "",
    }
}

fn add_note(
    alloc: Global,
    sheet: &mut Sheet,
    plan: &Plan,
    name: &str,
    records: &FileRecords<'_>,
    note: Note,
) -> Result<(), AllocError> {
    sheet.push_shown(name.as_bytes())?;
    sheet.push_number(note.number as u64)?;
    sheet.push_number(records.line())?;
    match note.cause {
        NoteCause::Refused(fault) => push_refused(alloc, sheet, records, fault)?,
        NoteCause::Pended(reason) => push_pended(alloc, sheet, plan, records, reason)?,
    }
    sheet.end_record()
}

// A record with a wrong number of fields has no column at fault.
fn push_refused(
    alloc: Global,
    sheet: &mut Sheet,
    records: &FileRecords<'_>,
    fault: RowFault,
) -> Result<(), AllocError> {
    let reason = RefusalCount { fault, count: 1 }.reason(alloc)?;
    sheet.push(b"refused")?;
    sheet.push(reason.as_bytes())?;
    if fault.cause == RowCause::FieldCount {
        sheet.push(b"")?;
        sheet.push(b"")?;
    } else {
        let place = fault.column.saturating_sub(1);
        sheet.push_shown(records.name(place))?;
        sheet.push_shown(records.field(place))?;
    }
    sheet.push(b"")
}

fn push_pended(
    alloc: Global,
    sheet: &mut Sheet,
    plan: &Plan,
    records: &FileRecords<'_>,
    reason: Reason,
) -> Result<(), AllocError> {
    let column = column_at_fault(plan, reason);
    sheet.push(b"pended")?;
    let words = reason_text(alloc, reason)?;
    sheet.push(words.as_bytes())?;
    sheet.push(column.as_bytes())?;
    sheet.push_shown(field_of(plan, records, column))?;
    let values = values_text(alloc, plan, records, reason)?;
    sheet.push(values.as_bytes())
}

// The reason why a claim is pended, as in the remittance.
fn reason_text(alloc: Global, reason: Reason) -> Result<String, AllocError> {
    let word = reason.word();
    let place = reason.place();
    match reason.column() {
        Some(column) => format!(in alloc; "{word}:{place}:{column}"),
        None => format!(in alloc; "{word}:{place}"),
    }
}

// The field of a column by its name. An output of a table and an accumulator are no columns of the file.
fn field_of<'r>(plan: &Plan, records: &'r FileRecords<'_>, name: &str) -> &'r [u8] {
    for column in columns_of(plan) {
        if column.name.as_str() == name {
            return records.field_named(name.as_bytes());
        }
    }
    b""
}

// The fields on which the answer of the failed table depends, each with its name.
fn values_text(
    alloc: Global,
    plan: &Plan,
    records: &FileRecords<'_>,
    reason: Reason,
) -> Result<String, AllocError> {
    let columns = columns_of(plan);
    let read = columns_read(alloc, plan, reason)?;
    let mut text = String::new(alloc);
    for place in 0..columns.len() {
        if read.get(place) == Some(&true) {
            add_value(alloc, &mut text, records, columns[place].name.as_str())?;
        }
    }
    Ok(text)
}

fn add_value(
    alloc: Global,
    text: &mut String,
    records: &FileRecords<'_>,
    name: &str,
) -> Result<(), AllocError> {
    if !text.is_empty() {
        text.push_str("; ")?;
    }
    text.push_str(name)?;
    text.push('=')?;
    push_shown(alloc, text, records.field_named(name.as_bytes()))
}
