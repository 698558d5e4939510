//! The rows of a provider's claim file.
ghost use Rattle.std.specs.Prelude.{◌≡◌, ◌≤◌, true, Ok, None, IfOk, IfErr, OnErr, drop, is_err, length};
ghost use Rattle.intake_csv.specs.RowSummary.{GivesSummary};
ghost use Rattle.intake_csv.specs.Rows.{Gives, IsHead};
ghost use Rattle.intake_csv.specs.Record.{IsClaimLayout};
ghost use Rattle.intake_csv.specs.Records.{records_of};
ghost use Rattle.intake_csv.specs.HeaderedFile.{IsWithin};
ghost use Rattle.intake_csv.specs.declared.records.Stage.TheVariants.{Reading, Over, Failed};
ghost use Rattle.intake_csv.specs.Limits.{file_limit_bytes};

use crate::claim::read_claim;
use crate::column::Layout;
use crate::csv_record::CsvRecord;
use crate::records::Records;
use crate::row_summary::RowSummary;
use crate::validation::validate_claim;
use faults::RowFault;
use feel_tests::Value;
use settlement::Claim;
use std::alloc::{AllocError, Global};
use std::marker::Model;
use tables::Sequence;

/// A record of a claim file.
#[derive(Drop)]
pub enum Row {
    /// A claim. Its number is that of its record after the header, from 1. Its place is its index
    /// among the claims of the file, from 0.
    Good {
        number: usize,
        place: usize,
        claim: Claim,
    },
    /// A refused record, with its number and its first fault.
    Bad {
        number: usize,
        fault: RowFault,
    },
}

/// The rows of a claim file, one after another. It borrows the text of the file, and has one record
/// in memory at a time.
pub struct Rows<'t> {
    alloc: Global,
    layout: Layout,
    families: bool,
    records: Records<'t>,
    current: CsvRecord,
    next: usize,
    claims: usize,
}

impl Drop for Rows<'_> {
    fn drop(self) {
        let Rows {
            alloc: _,
            layout: _,
            families: _,
            records: _,
            current: _,
            next: _,
            claims: _,
        } = self;
    }
}

impl<'t> Model for Rows<'t> {
    ghost use Rattle.std.specs.Prelude.{◌≡◌, ◌<◌, ◌≤◌, false, drop, length};
    ghost use Rattle.intake_csv.specs.Records.{is_failed, records_of};
    ghost use Rattle.intake_csv.specs.Rows.{RowsLeft};
    ghost use Rattle.intake_csv.specs.HeaderedFile.{IsWithin};
    ghost use Rattle.intake_csv.specs.Record.{IsClaimLayout};
    ghost use Rattle.intake_csv.specs.Limits.{file_limit_bytes};

    ghost Value = { RowsLeft };

    ghost view = { λ r. record {
      layout = r.layout;
      number = r.next;
      place = r.claims;
      records = drop r.next (records_of r.records.text);
      stage = r.records.stage;
    } };

    ghost invariant = { λ r.
        IsWithin r.layout
        × IsClaimLayout r.families r.layout
        × (r.claims < r.next)
        × (length r.records.text ≤ file_limit_bytes)
        × (is_failed r.records.stage ≡ false → r.records.given ≡ r.next) };
}

impl<'t> Rows<'t> {
    /// Begins at the first record after a validated header.
    pub(crate) fn after_header(
        alloc: Global,
        layout: Layout,
        families: bool,
        records: Records<'t>,
    ) -> Rows<'t>
        requires within { IsWithin layout }
        requires columns { IsClaimLayout families layout }
        requires small { length records.text ≤ file_limit_bytes }
        requires records { records ≡ record { text = records.text; given = 1; stage = Reading } }
        ensures { result ≡ record {
          layout = layout;
          number = 1;
          place = 0;
          records = drop 1 (records_of records.entry.text);
          stage = Reading;
        } }
    {
        Rows {
            alloc,
            layout,
            families,
            records,
            current: CsvRecord::new(alloc),
            next: 1,
            claims: 0,
        }
    }

    /// Reads the next row. After the last row, every call returns `None`. If memory runs out, every
    /// later call returns the error again.
    pub fn next(&mut self) -> Result<Option<Row>, AllocError>
        ensures gives { IfOk result (Gives self.old self.new) }
        ensures head { IfOk result (IsHead self.old self.new) }
        ensures over { self.old.stage ≡ Over → result ≡ Ok None }
        ensures refused { OnErr result (self.new ≡ record self.old { stage = Failed }) }
        ensures failed { self.old.stage ≡ Failed → is_err result ≡ true }
    {
        let spare = Sequence::new(self.alloc);
        self.next_in_spare(spare)
    }

    /// Reads the next row as `next` does. A claim's fields take the memory of `spare`, whose items
    /// are dropped.
    pub fn next_in_spare(&mut self, spare: Sequence<Value>) -> Result<Option<Row>, AllocError>
        ensures gives { IfOk result (Gives self.old self.new) }
        ensures head { IfOk result (IsHead self.old self.new) }
        ensures over { self.old.stage ≡ Over → result ≡ Ok None }
        ensures refused { OnErr result (self.new ≡ record self.old { stage = Failed }) }
        ensures failed { self.old.stage ≡ Failed → is_err result ≡ true }
    {
        match self.current.read(&mut self.records) {
            Ok(true) => {}
            Ok(false) => return Ok(None),
            Err(AllocError) => return Err(AllocError),
        }
        let number = self.next;
        let line = &self.current;
        match read_claim(self.alloc, self.families, &self.layout, line, spare) {
            Ok(Ok(claim)) => {
                let place = self.claims;
                self.next += 1;
                self.claims += 1;
                Ok(Some(Row::Good {
                    number,
                    place,
                    claim,
                }))
            }
            Ok(Err(fault)) => {
                self.next += 1;
                Ok(Some(Row::Bad { number, fault }))
            }
            Err(AllocError) => {
                self.records.fail();
                Err(AllocError)
            }
        }
    }

    /// Reads the summary of the next row, and leaves its record in `line`. After the last row,
    /// every call returns `None`. If memory runs out, every later call returns the error again.
    pub fn next_summary(&mut self, line: &mut CsvRecord) -> Result<Option<RowSummary>, AllocError>
        ensures gives { IfOk result (GivesSummary self.old self.new line.new) }
        ensures over { self.old.stage ≡ Over → result ≡ Ok None }
        ensures refused { OnErr result (self.new ≡ record self.old { stage = Failed }) }
        ensures failed { self.old.stage ≡ Failed → is_err result ≡ true }
    {
        match line.read(&mut self.records) {
            Ok(true) => {}
            Ok(false) => return Ok(None),
            Err(AllocError) => return Err(AllocError),
        }
        let number = self.next;
        match validate_claim(self.alloc, self.families, &self.layout, line) {
            Ok(Ok(id_columns)) => {
                let place = self.claims;
                self.next += 1;
                self.claims += 1;
                Ok(Some(RowSummary::Good {
                    number,
                    place,
                    id_columns,
                }))
            }
            Ok(Err(fault)) => {
                self.next += 1;
                Ok(Some(RowSummary::Bad { number, fault }))
            }
            Err(AllocError) => {
                self.records.fail();
                Err(AllocError)
            }
        }
    }
}
