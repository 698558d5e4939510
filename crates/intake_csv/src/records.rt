//! The reader of a text's records (RFC 4180, section 2, as `csv` reads them).
ghost use Rattle.std.specs.Prelude.{◌≡◌, true, false, Ok, IfOk, OnErr, is_err};
ghost use Rattle.csv.specs.Records.{fields_of};
ghost use Rattle.intake_csv.specs.Records.{Reads};
ghost use Rattle.intake_csv.specs.declared.records.Stage.TheVariants.{Reading, Over, Failed};

use csv::{ByteRecord, Reader, ReaderBuilder};
use std::alloc::{AllocError, Global};
use std::marker::Model;

/// A reader of the records of a text. It skips a byte order mark at the start of the text, and has
/// one record in memory at a time.
pub struct Records<'t> {
    text: &'t [u8],
    reader: Reader<&'t [u8]>,
    given: usize,
    stage: Stage,
}

impl Drop for Records<'_> {
    fn drop(self) {
        let Records {
            text: _,
            reader: _,
            given: _,
            stage: _,
        } = self;
    }
}

/// The stage of a reader.
#[derive(Clone, Copy, Drop)]
pub enum Stage {
    /// All earlier calls returned a record.
    Reading,
    /// There is no further record.
    Over,
    /// Memory ran out.
    Failed,
}

impl<'t> Model for Records<'t> {
    ghost use Rattle.std.specs.Prelude.{◌≤◌, drop, length};
    ghost use Rattle.intake_csv.specs.Reader.{IsAtStage};
    ghost use Rattle.intake_csv.specs.Records.{RecordsLeft, records_of};

    ghost Value = { RecordsLeft };

    ghost view = { λ r. record { text = r.text.now; given = r.given; stage = r.stage } };

    ghost invariant = { λ r.
        IsAtStage r.stage r.reader (drop r.given (records_of r.text.now))
        × (r.given ≤ length (records_of r.text.now)) };
}

impl<'t> Records<'t> {
    /// Returns a reader at the first record of a text.
    pub fn new(alloc: Global, text: &'t [u8]) -> Records<'t>
        ensures { result ≡ record { text = text.now; given = 0; stage = Reading } }
    {
        Records {
            text,
            reader: ReaderBuilder::new()
                .has_headers(false)
                .flexible(true)
                .from_reader(alloc, text),
            given: 0,
            stage: Stage::Reading,
        }
    }

    /// Reads the next record into `row`, and returns whether there was one. After the last record,
    /// every call returns `false`. If memory runs out, every later call returns the error again. A
    /// slice of bytes can always be read, so every error of `csv` means that memory ran out.
    pub fn read(&mut self, row: &mut ByteRecord) -> Result<bool, AllocError>
        ensures reads { IfOk result (λ found. Reads self.old self.new found (fields_of row.new)) }
        ensures refused { OnErr result (self.new ≡ record self.old { stage = Failed }) }
        ensures failed { self.old.stage ≡ Failed → is_err result ≡ true }
        ensures over { self.old.stage ≡ Over → result ≡ Ok false }
    {
        match self.stage {
            Stage::Failed => return Err(AllocError),
            Stage::Over => return Ok(false),
            Stage::Reading => {}
        }
        let Ok(found) = self.reader.read_byte_record(row) else {
            self.stage = Stage::Failed;
            return Err(AllocError);
        };
        if !found {
            self.stage = Stage::Over;
            return Ok(false);
        }
        self.given += 1;
        Ok(true)
    }

    /// Makes every later call report that memory ran out.
    pub fn fail(&mut self)
        ensures { self.new ≡ record self.old { stage = Failed } }
    {
        self.stage = Stage::Failed;
    }
}
