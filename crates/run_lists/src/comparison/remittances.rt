//! Two remittances, which are read side by side.

use csv::{ByteRecord, Reader, ReaderBuilder};
use std::alloc::{AllocError, Global};
use std::str;

/// Two remittances of the same files, each with its header and the record that was read last.
pub struct Remittances<'t> {
    old: Remittance<'t>,
    new: Remittance<'t>,
    /// The places of the compared fields in the new remittance, from 0.
    first: usize,
    end: usize,
}

impl Drop for Remittances<'_> {
    fn drop(self) {
        let Remittances {
            old: _,
            new: _,
            first: _,
            end: _,
        } = self;
    }
}

impl<'t> Remittances<'t> {
    /// Begins after the headers.
    pub fn new(
        alloc: Global,
        old: &'t [u8],
        new: &'t [u8],
        has_remarks: bool,
    ) -> Result<Remittances<'t>, AllocError> {
        let old = Remittance::new(alloc, old)?;
        let new = Remittance::new(alloc, new)?;
        let first = new.place_of(b"status");
        let end = if has_remarks {
            new.header.len()
        } else {
            new.place_of(b"remarks")
        };
        Ok(Remittances {
            old,
            new,
            first,
            end,
        })
    }

    /// Reads the next record of both, and returns whether it is one of a file. The last one has the totals.
    pub fn read(&mut self) -> Result<bool, AllocError> {
        let has_old = self.old.read()?;
        let has_new = self.new.read()?;
        Ok(has_old && has_new)
    }

    /// Returns the place of the first compared field.
    pub fn first_compared(&self) -> usize {
        self.first
    }

    /// Returns the place after the last compared field.
    pub fn end_compared(&self) -> usize {
        self.end
    }

    /// Returns the name of the field at this place.
    pub fn name(&self, place: usize) -> &[u8] {
        self.new.header.get(place).unwrap_or(b"".as_slice())
    }

    /// Returns the field of the old remittance's record with this name.
    pub fn old_field(&self, name: &[u8]) -> &[u8] {
        self.old.field(self.old.place_of(name))
    }

    /// Returns the field of the new remittance's record with this name.
    pub fn new_field(&self, name: &[u8]) -> &[u8] {
        self.new.field(self.new.place_of(name))
    }

    /// Returns the field at this place. Where the new plan refuses a record it is empty there, and the old
    /// remittance may have it.
    pub fn front_field(&self, place: usize) -> &[u8] {
        let field = self.new.field(place);
        if field.is_empty() {
            self.old_field(self.name(place))
        } else {
            field
        }
    }

    /// Returns the number of the record's file.
    pub fn provider(&self) -> usize {
        match str::from_utf8(self.new.field(0)) {
            Ok(text) => text.parse::<usize>().unwrap_or(0),
            Err(_) => 0,
        }
    }

    /// Returns whether a compared field differs.
    pub fn differ(&self) -> bool {
        for place in self.first..self.end {
            if self.new.field(place) != self.old_field(self.name(place)) {
                return true;
            }
        }
        false
    }
}

/// A remittance, with its header and the record that was read last.
struct Remittance<'t> {
    reader: Reader<&'t [u8]>,
    header: ByteRecord,
    line: ByteRecord,
}

impl Drop for Remittance<'_> {
    fn drop(self) {
        let Remittance {
            reader: _,
            header: _,
            line: _,
        } = self;
    }
}

impl<'t> Remittance<'t> {
    fn new(alloc: Global, text: &'t [u8]) -> Result<Remittance<'t>, AllocError> {
        let mut reader = ReaderBuilder::new()
            .has_headers(false)
            .flexible(true)
            .from_reader(alloc, text);
        let mut header = ByteRecord::new(alloc);
        if reader.read_byte_record(&mut header).is_err() {
            return Err(AllocError);
        }
        Ok(Remittance {
            reader,
            header,
            line: ByteRecord::new(alloc),
        })
    }

    // Reads the next record, and returns whether it is one of a file.
    fn read(&mut self) -> Result<bool, AllocError> {
        // A slice of bytes can always be read, so every error of `csv` means that memory ran out.
        match self.reader.read_byte_record(&mut self.line) {
            Ok(found) => Ok(found && self.field(0) != b"total".as_slice()),
            Err(_) => Err(AllocError),
        }
    }

    fn field(&self, place: usize) -> &[u8] {
        self.line.get(place).unwrap_or(b"".as_slice())
    }

    // The place of the field with this name, or the number of fields.
    fn place_of(&self, name: &[u8]) -> usize {
        for place in 0..self.header.len() {
            if self.header.get(place) == Some(name) {
                return place;
            }
        }
        self.header.len()
    }
}
