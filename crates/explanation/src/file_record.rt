//! A record of a provider's file, with its fields as the text has them.
ghost use Rattle.std.specs.Prelude.{◌≡◌, IfOk};
ghost use Rattle.csv.specs.Records.{fields_of};
ghost use Rattle.explanation.specs.Refusals.{field_in, record_at};

use csv::{ByteRecord, ReaderBuilder};
use std::alloc::{AllocError, Global};

/// Returns the record of a file's text with this number, where the header has the number 0. If the text
/// has fewer records, the result has no fields. A slice of bytes can always be read, so every error of
/// `csv` means that memory ran out.
pub(crate) fn record_at(alloc: Global, text: &[u8], number: usize) -> Result<ByteRecord, AllocError>
    ensures { IfOk result (λ line. fields_of line ≡ record_at text.now number) }
{
    let mut reader = ReaderBuilder::new()
        .has_headers(false)
        .flexible(true)
        .from_reader(alloc, text);
    let mut line = ByteRecord::new(alloc);
    let mut earlier = number;
    'records: loop {
        let Ok(found) = reader.read_byte_record(&mut line) else {
            return Err(AllocError);
        };
        if !found {
            return Ok(ByteRecord::new(alloc));
        }
        if earlier == 0 {
            return Ok(line);
        }
        earlier -= 1;
    }
}

/// Returns the field of a record in a column, from 1.
pub(crate) fn field_in(line: &ByteRecord, column: usize) -> &[u8]
    ensures { result.now ≡ field_in (fields_of line.now) column }
{
    match line.get(column.saturating_sub(1)) {
        Some(field) => field,
        None => b"",
    }
}
