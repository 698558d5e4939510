//! The current record of a reader.
ghost use Rattle.std.specs.Prelude.{◌≡◌, ℕ, ℤ, List, [], length, IsUtf8, IfOk, IfErr, OnErr, is_err, true, false, Ok, None, Some, option_map};
ghost use Rattle.std.specs.Option.{IfSome};
ghost use Rattle.csv.specs.Records.{field_at, fields_of};
ghost use Rattle.feel_tests.specs.declared.value.Value.TheVariants as values;
ghost use Rattle.intake_csv.specs.RowSummary.{IsDayLocatedAt};
ghost use Rattle.intake_csv.specs.Records.{Reads};
ghost use Rattle.intake_csv.specs.declared.records.Stage.TheVariants.{Over, Failed};

use crate::records::Records;
use csv::ByteRecord;
use feel_tests::{Day, Kind, PlainFault, Value, read_plain};
use std::alloc::{AllocError, Global};
use std::marker::Model;
use std::str;

/// A record of a file. It is tested once whether the whole record is ASCII; if it is, no field
/// needs a test for UTF-8.
pub struct CsvRecord {
    is_ascii: bool,
    row: ByteRecord,
}

impl Drop for CsvRecord {
    fn drop(self) {
        let CsvRecord {
            is_ascii: _,
            row: _,
        } = self;
    }
}

impl Model for CsvRecord {
    ghost use Rattle.std.specs.Prelude.{◌≡◌, true};
    ghost use Rattle.csv.specs.Records.{AllText, fields_of};
    ghost use Rattle.intake_csv.specs.Records.{Fields};

    ghost Value = { Fields };

    ghost view = { λ l. fields_of l.row };

    ghost invariant = { λ l. l.is_ascii ≡ true → AllText (fields_of l.row) };
}

/// A field is not UTF-8.
#[derive(Clone, Copy, Drop)]
pub struct NotUtf8;

impl CsvRecord {
    /// Returns a record without fields.
    pub fn new(alloc: Global) -> CsvRecord
        ensures { result ≡ [] }
    {
        CsvRecord {
            is_ascii: false,
            row: ByteRecord::new(alloc),
        }
    }

    /// Replaces this record by the next record of a file, and returns whether there was one.
    pub fn read(&mut self, records: &mut Records) -> Result<bool, AllocError>
        ensures reads { IfOk result (λ found. Reads records.old records.new found self.new) }
        ensures refused { OnErr result (records.new ≡ record records.old { stage = Failed }) }
        ensures failed { records.old.stage ≡ Failed → is_err result ≡ true }
        ensures over { records.old.stage ≡ Over → result ≡ Ok false }
    {
        self.is_ascii = false;
        let read = records.read(&mut self.row);
        self.is_ascii = self.row.as_slice().is_ascii();
        read
    }

    /// Returns the number of fields.
    pub fn len(&self) -> usize
        ensures { result ≡ length self.now }
    {
        self.row.len()
    }

    /// Returns the text of the field at a place from 0, or `None` if there is no such field.
    #[tactic(auto, using(crate::proofs::AsciiFields::text_at))]
    pub fn text(&self, place: usize) -> Option<Result<&str, NotUtf8>>
        ensures text { IfSome result (λ found. IfOk found (λ text.
            field_at self.now place ≡ Some text.now)) }
        ensures none { IfSome result (λ found. IfErr found (λ _.
            (bytes : List ℕ) × (field_at self.now place ≡ Some bytes) × (¬ IsUtf8 bytes))) }
        ensures lacking { result ≡ None → field_at self.now place ≡ None }
    {
        let field = self.row.get(place)?;
        if self.is_ascii {
            // SAFETY: the record is ASCII, so each of its fields is UTF-8, as the invariant states.
            return Some(Ok(unsafe { str::from_utf8_unchecked(field) }));
        }
        match str::from_utf8(field) {
            Ok(text) => Some(Ok(text)),
            Err(_) => Some(Err(NotUtf8)),
        }
    }

    /// Returns the date in the field at a place from 0, or `None` if the field is not a date.
    pub fn day(&self, alloc: Global, place: usize) -> Result<Option<Day>, AllocError>
        ensures day { IfOk result (λ day. IfSome day (IsDayLocatedAt self.now place)) }
        ensures lacking { IfOk result (λ day.
            (held : ℤ) → IsDayLocatedAt self.now place held → day ≡ Some held) }
    {
        // proof: a field denotes at most one value
        feel_tests::field_spells_at_most_one_value();
        let Some(Ok(text)) = self.text(place) else {
            return Ok(None);
        };
        match read_plain(alloc, Kind::Day, text) {
            Ok(value) => Ok(day_of(value)),
            Err(PlainFault::OutOfMemory) => Err(AllocError),
            Err(PlainFault::Bad) => Ok(None),
        }
    }

    /// Returns the bytes of the field at a place from 0, or `None` if there is no such field.
    pub fn bytes(&self, place: usize) -> Option<&[u8]>
        ensures { option_map (λ s. s.now) result ≡ field_at self.now place }
    {
        self.row.get(place)
    }
}

fn day_of(value: Value) -> Option<Day>
    ensures day { IfSome result (λ day. value ≡ values.Day day) }
    ensures lacking { (held : ℤ) → value ≡ values.Day held → result ≡ Some held }
{
    let Value::Day(day) = value else {
        return None;
    };
    Some(day)
}
