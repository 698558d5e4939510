//! The records of a text (RFC 4180, section 2, as `csv` reads them).

ghost use Rattle.std.specs.Prelude.{◌≡◌, IfOk, List, map};
ghost use Rattle.csv.specs.Records.{fields_of};
ghost use Rattle.intake_csv.specs.Reader.{HasLeft};
ghost use Rattle.intake_csv.specs.Records.{Fields, records_of};
ghost use Rattle.plan_rows.specs.Reading.{ReadsFrom};

use csv::{ByteRecord, Reader, ReaderBuilder};
use std::alloc::{AllocError, Global};

/// Reads the records of a text, of which none is treated as a header. A byte order mark at the
/// start of the text is skipped.
pub fn read_records(alloc: Global, text: &[u8]) -> Result<Vec<ByteRecord>, AllocError>
    ensures { IfOk result (λ records. map fields_of records.items ≡ records_of text.now) }
{
    let mut reader = new_reader(alloc, text);
    let mut records = Vec::new(alloc);
    let mut record = ByteRecord::new(alloc);
    while read_record(&mut reader, &mut record)? {
        records.push(record)?;
        record = ByteRecord::new(alloc);
    }
    Ok(records)
}

/// Returns a reader at the first record of a text. A byte order mark at the start of the text is
/// skipped.
pub fn new_reader(alloc: Global, text: &[u8]) -> Reader<&[u8]>
    ensures { HasLeft result (records_of text.now) }
{
    ReaderBuilder::new()
        .has_headers(false)
        .flexible(true)
        .from_reader(alloc, text)
}

/// Reads the next record into `row`, and returns whether there was one. A slice of bytes can always
/// be read, so every error of `csv` means that memory ran out.
pub fn read_record(reader: &mut Reader<&[u8]>, row: &mut ByteRecord) -> Result<bool, AllocError>
    ensures { IfOk result (λ found. (rows : List Fields) → HasLeft reader.old rows
        → ReadsFrom rows found (fields_of row.new) reader.new) }
{
    let Ok(found) = reader.read_byte_record(row) else {
        return Err(AllocError);
    };
    Ok(found)
}

/// Returns the name of the column with this number, from 1, with U+FFFD in place of bytes that are
/// not UTF-8; empty if there is no such column.
pub fn name_of_column(alloc: Global, text: &[u8], column: usize) -> Result<String, AllocError> {
    let records = read_records(alloc, text)?;
    let name = name_at(alloc, records.as_slice(), column);
    drop(records);
    name
}

fn name_at(alloc: Global, records: &[ByteRecord], column: usize) -> Result<String, AllocError> {
    let Some(header) = records.first() else {
        return Ok(String::new(alloc));
    };
    match header.get(column.saturating_sub(1)) {
        Some(field) => String::from_utf8_lossy(alloc, field),
        None => Ok(String::new(alloc)),
    }
}
