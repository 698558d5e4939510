//! CSV texts (RFC 4180) for a person: each record ends with CRLF, and no field has characters that a
//! screen would obey or not show.

use csv::{ByteRecord, Terminator, Writer, WriterBuilder};
use faults::push_printable;
use std::alloc::{AllocError, Global};

/// The greatest number of characters that are shown of a field.
const SHOWN_CHARACTERS: usize = 256;

/// The greatest number of bytes of these characters.
const SHOWN_BYTES: usize = 1024;

/// A text that grows by fields and records.
pub struct Sheet {
    alloc: Global,
    written: Writer<Vec<u8>>,
    line: ByteRecord,
}

impl Drop for Sheet {
    fn drop(self) {
        let Sheet {
            alloc: _,
            written: _,
            line: _,
        } = self;
    }
}

impl Sheet {
    /// Returns an empty text.
    pub fn new(alloc: Global) -> Sheet {
        Sheet {
            alloc,
            written: WriterBuilder::new()
                .terminator(Terminator::CRLF)
                .from_writer(Vec::new(alloc)),
            line: ByteRecord::new(alloc),
        }
    }

    /// Appends a field to the last record.
    pub fn push(&mut self, field: &[u8]) -> Result<(), AllocError> {
        self.line.push_field(field)
    }

    /// Appends a field with a number.
    pub fn push_number(&mut self, number: u64) -> Result<(), AllocError> {
        let digits = format!(in self.alloc; "{number}")?;
        self.line.push_field(digits.as_bytes())
    }

    /// Appends a field as `push_shown` shows it.
    pub fn push_shown(&mut self, field: &[u8]) -> Result<(), AllocError> {
        let mut shown = String::new(self.alloc);
        push_shown(self.alloc, &mut shown, field)?;
        self.line.push_field(shown.as_bytes())
    }

    /// Ends the last record.
    pub fn end_record(&mut self) -> Result<(), AllocError> {
        if self.written.write_byte_record(&self.line).is_err() {
            return Err(AllocError);
        }
        self.line.clear();
        Ok(())
    }

    /// Returns the text of the records that are ended.
    pub fn into_text(self) -> Result<Vec<u8>, AllocError> {
        let Sheet {
            alloc: _,
            written,
            line: _,
        } = self;
        match written.into_inner() {
            Ok(text) => Ok(text),
            Err(_) => Err(AllocError),
        }
    }
}

/// Appends the first characters of a field, with U+FFFD in place of each control character, of each
/// character without a width, and of bytes that are not UTF-8.
pub fn push_shown(alloc: Global, text: &mut String, field: &[u8]) -> Result<(), AllocError> {
    let first = &field[..SHOWN_BYTES.min(field.len())];
    let words = String::from_utf8_lossy(alloc, first)?;
    let mut characters = words.as_str().chars();
    let mut shown = String::new(alloc);
    for _ in 0..SHOWN_CHARACTERS {
        let Some(character) = characters.next() else {
            return push_printable(text, shown.as_str());
        };
        shown.push(character)?;
    }
    push_printable(text, shown.as_str())
}
