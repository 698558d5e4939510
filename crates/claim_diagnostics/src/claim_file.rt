//! Explains a fault of a file of claims or balances, and names the columns that it is about.

use crate::file_texts::{file_explanation, record_explanation};
use crate::header_reasons::{first_line, reason_of};
use csv::{ByteRecord, ReaderBuilder};
use diagnostics::{
    Explanation, FAMILIES_SINCE, Message, Part, document_of, dots_if, explain_at, is_one_edit,
    items_after, shown_front, text_after, version_of,
};
use faults::{FileFault, RowFault, names};
use std::alloc::{AllocError, Global};
use toml::Value;

/// The first version of a plan with accumulators by benefit year.
const YEARS_SINCE: i64 = 2;

/// The content of a file.
#[derive(Clone, Copy)]
pub enum FileKind {
    Claims,
    Balances,
}

/// Explains the fault of a whole file of this name. The text of the plan shows which columns are required.
pub fn explain_file(
    alloc: Global,
    name: &str,
    text: &[u8],
    plan: &[u8],
    kind: FileKind,
    fault: FileFault,
) -> Result<Message, AllocError> {
    let is_about_columns = matches!(fault, FileFault::MissingColumn | FileFault::DuplicateColumn);
    if !is_about_columns {
        return explain_at(alloc, "{}", &[Part::Word(name)], file_explanation(fault));
    }
    let header = header_of(alloc, text)?;
    let mut message = Message::new(alloc);
    let done = add_file(alloc, &mut message, name, text, &header, plan, kind, fault);
    message.after(done)
}

fn add_file(
    alloc: Global,
    message: &mut Message,
    name: &str,
    text: &[u8],
    header: &ByteRecord,
    plan: &[u8],
    kind: FileKind,
    fault: FileFault,
) -> Result<(), AllocError> {
    message.sentence("{}", &[Part::Word(name)])?;
    add_header(message, text)?;
    add_columns(alloc, message, header, plan, kind, fault)?;
    let words = file_explanation(fault);
    if fault == FileFault::MissingColumn {
        return message.words(reason_of(text, header).unwrap_or(words));
    }
    message.words(words)
}

// Adds the first line of a file, unless it is no text in UTF-8.
fn add_header(message: &mut Message, text: &[u8]) -> Result<(), AllocError> {
    let line = str::from_utf8(first_line(text)).unwrap_or("");
    if line.is_empty() {
        return Ok(());
    }
    let shown = shown_front(line);
    let dots = dots_if(shown.len() < line.len());
    let values = [Part::Word(shown), Part::Word(dots)];
    message.sentence("The first line is: {}{}", &values)
}

/// Explains the fault of a record of balances in a file of this name. Records count from 1 after the header.
pub fn explain_record(
    alloc: Global,
    name: &str,
    text: &[u8],
    number: usize,
    fault: &RowFault,
) -> Result<Message, AllocError> {
    let header = header_of(alloc, text)?;
    let column = column_name(&header, fault.column);
    explain_record_at(alloc, name, number, column, record_explanation(fault.cause))
}

// The column is empty where the fault is about none.
fn explain_record_at<'n>(
    alloc: Global,
    name: &'n str,
    number: usize,
    column: &'n str,
    words: Explanation,
) -> Result<Message, AllocError> {
    let place = if column.is_empty() {
        "{}, record {} after the header"
    } else {
        "{}, record {} after the header, column {}"
    };
    let values = [Part::Word(name), Part::Number(number), Part::Word(column)];
    explain_at(alloc, place, &values, words)
}

/// The name of a column. Column 0 is the record as a whole, which has no name.
pub fn column_name(header: &ByteRecord, column: usize) -> &str {
    match header.get(column.saturating_sub(1)) {
        Some(field) if column > 0 => str::from_utf8(field).unwrap_or(""),
        _ => "",
    }
}

/// The header of a file.
pub fn header_of(alloc: Global, text: &[u8]) -> Result<ByteRecord, AllocError> {
    let mut header = ByteRecord::new(alloc);
    let mut reader = ReaderBuilder::new()
        .has_headers(false)
        .flexible(true)
        .from_reader(alloc, text);
    match reader.read_byte_record(&mut header) {
        Ok(_) => Ok(header),
        Err(_) => Err(AllocError),
    }
}

// Adds a line for each required column that is missing or occurs twice.
fn add_columns(
    alloc: Global,
    message: &mut Message,
    header: &ByteRecord,
    plan: &[u8],
    kind: FileKind,
    fault: FileFault,
) -> Result<(), AllocError> {
    for name in required_columns(kind) {
        add_column(message, header, name, fault)?;
    }
    match document_of(alloc, plan)? {
        Some(plan) => add_columns_of_plan(message, header, &plan, kind, fault),
        None => Ok(()),
    }
}

// Adds the columns that some plans require.
fn add_columns_of_plan(
    message: &mut Message,
    header: &ByteRecord,
    plan: &Value,
    kind: FileKind,
    fault: FileFault,
) -> Result<(), AllocError> {
    let version = version_of(plan).unwrap_or(1);
    if version >= FAMILIES_SINCE {
        add_column(message, header, names::FAMILY, fault)?;
    }
    match kind {
        FileKind::Claims => add_fields(message, header, plan, fault),
        FileKind::Balances if version >= YEARS_SINCE => {
            add_column(message, header, names::YEAR, fault)
        }
        FileKind::Balances => Ok(()),
    }
}

fn add_fields(
    message: &mut Message,
    header: &ByteRecord,
    plan: &Value,
    fault: FileFault,
) -> Result<(), AllocError> {
    for field in items_after(Some(plan), "fields") {
        if let Some(name) = text_after(Some(field), "name") {
            add_column(message, header, name, fault)?;
        }
    }
    Ok(())
}

// The columns that are required under each version of the plan.
fn required_columns(kind: FileKind) -> &'static [&'static str] {
    match kind {
        FileKind::Claims => &[names::CLAIM, names::MEMBER, names::SERVICE, names::BILLED],
        FileKind::Balances => &[names::MEMBER, names::MET, names::OOP, names::PAID],
    }
}

fn add_column(
    message: &mut Message,
    header: &ByteRecord,
    name: &str,
    fault: FileFault,
) -> Result<(), AllocError> {
    let count = count_of(header, name);
    let value = [Part::Word(name)];
    match fault {
        FileFault::MissingColumn if count == 0 => match near_column(header, name) {
            Some(near) => {
                let values = [Part::Word(name), Part::Word(near)];
                message.sentence("The header has no column `{}`, but one `{}`.", &values)
            }
            None => message.sentence("The header has no column `{}`.", &value),
        },
        FileFault::DuplicateColumn if count > 1 => {
            message.sentence("The header has more than one column `{}`.", &value)
        }
        _ => Ok(()),
    }
}

// The first column whose name differs in case, in spaces round it, or by one edit.
fn near_column<'h>(header: &'h ByteRecord, name: &str) -> Option<&'h str> {
    for place in 0..header.len() {
        let field = header.get(place).unwrap_or(&[]);
        let is_near = field.trim_ascii().eq_ignore_ascii_case(name.as_bytes())
            || is_one_edit(field, name.as_bytes());
        if is_near {
            return Some(str::from_utf8(field).unwrap_or(""));
        }
    }
    None
}

fn count_of(header: &ByteRecord, name: &str) -> usize {
    let mut count = 0usize;
    for place in 0..header.len() {
        if header.get(place) == Some(name.as_bytes()) {
            count = count.saturating_add(1);
        }
    }
    count
}
