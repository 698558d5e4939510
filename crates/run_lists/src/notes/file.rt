//! The records of a file, with the lines on which they begin.

use crate::notes::lines::RecordLines;
use csv::{ByteRecord, Reader, ReaderBuilder};
use std::alloc::{AllocError, Global};

/// A reader of a file's records, with its header and the record that it has read last.
pub struct FileRecords<'t> {
    reader: Reader<&'t [u8]>,
    lines: RecordLines<'t>,
    header: ByteRecord,
    current: ByteRecord,
    /// The number of the record that was read last; the header has the number 0.
    number: usize,
    line: u64,
}

impl Drop for FileRecords<'_> {
    fn drop(self) {
        let FileRecords {
            reader: _,
            lines: _,
            header: _,
            current: _,
            number: _,
            line: _,
        } = self;
    }
}

impl<'t> FileRecords<'t> {
    /// Begins after the header of a file.
    pub fn new(alloc: Global, text: &'t [u8]) -> Result<FileRecords<'t>, AllocError> {
        let mut reader = ReaderBuilder::new()
            .has_headers(false)
            .flexible(true)
            .from_reader(alloc, text);
        let mut header = ByteRecord::new(alloc);
        if reader.read_byte_record(&mut header).is_err() {
            return Err(AllocError);
        }
        let mut lines = RecordLines::new(text);
        let line = lines.pass_record();
        Ok(FileRecords {
            reader,
            lines,
            header,
            current: ByteRecord::new(alloc),
            number: 0,
            line,
        })
    }

    /// Reads the records up to the one with this number.
    pub fn read_up_to(&mut self, number: usize) -> Result<(), AllocError> {
        for _ in self.number..number {
            // A slice of bytes can always be read, so every error of `csv` means that memory ran out.
            if self.reader.read_byte_record(&mut self.current).is_err() {
                return Err(AllocError);
            }
            self.line = self.lines.pass_record();
        }
        self.number = number;
        Ok(())
    }

    /// Returns the line on which the record begins, from 1.
    pub fn line(&self) -> u64 {
        self.line
    }

    /// Returns the name of the column at this place, from 0.
    pub fn name(&self, place: usize) -> &[u8] {
        self.header.get(place).unwrap_or(b"".as_slice())
    }

    /// Returns the field of the record at this place, from 0.
    pub fn field(&self, place: usize) -> &[u8] {
        self.current.get(place).unwrap_or(b"".as_slice())
    }

    /// Returns the field of the record in the column with this name.
    pub fn field_named(&self, name: &[u8]) -> &[u8] {
        for place in 0..self.header.len() {
            if self.name(place) == name {
                return self.field(place);
            }
        }
        b""
    }
}
