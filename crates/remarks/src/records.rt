//! Searches the records of all claim files of a run for claim numbers that come again, and for opening balances whose account has no claim. Refused
//! records are left out.

ghost use Rattle.std.specs.Prelude.{◌≡◌};

use crate::accounts::Accounts;
use crate::lines::{Part, Remarks};
use dtable::read_plan;
use intake_csv::{ClaimFile, CsvRecord, IdColumns, RowSummary, Rows};
use std::alloc::{AllocError, Global};
use std::collections::HashSet;
use tables::Plan;

/// A record of a claim file. Both numbers count from 1.
#[derive(Clone, Copy)]
struct RecordNumber {
    file: usize,
    record: usize,
}

/// A search in the records of all files.
struct RecordSearch {
    alloc: Global,
    /// The claim numbers so far.
    known: HashSet<Vec<u8>>,
    /// The number of records with a claim number that comes before, and the first of them with that number.
    repeated: usize,
    first: Option<RecordNumber>,
    first_claim: Vec<u8>,
    accounts: Accounts,
}

impl Drop for RecordSearch {
    fn drop(self) {
        let RecordSearch {
            alloc: _,
            known: _,
            repeated: _,
            first: _,
            first_claim: _,
            accounts: _,
        } = self;
    }
}

impl RecordSearch {
    fn add_file(&mut self, plan: &Plan, text: &[u8], file: usize) -> Result<(), AllocError> {
        // A file that is refused is reported by the run.
        match ClaimFile::new(self.alloc, plan, text) {
            Ok(claims) => self.add_rows(claims.rows(self.alloc)?, file),
            Err(_) => Ok(()),
        }
    }

    fn add_rows(&mut self, rows: Rows, file: usize) -> Result<(), AllocError> {
        let mut rows = rows;
        let mut line = CsvRecord::new(self.alloc);
        for _ in 0..u64::MAX {
            let Some(row) = rows.next_summary(&mut line)? else {
                return Ok(());
            };
            if let RowSummary::Good {
                number,
                id_columns,
                ..
            } = row
            {
                let place = RecordNumber {
                    file,
                    record: number,
                };
                self.add_claim(&line, place, id_columns)?;
            }
        }
        Ok(())
    }

    fn add_claim(
        &mut self,
        line: &CsvRecord,
        place: RecordNumber,
        columns: IdColumns,
    ) -> Result<(), AllocError> {
        self.accounts.add_claim(line, columns)?;
        let claim = line.bytes(columns.id).unwrap_or(&[]);
        if self.known.insert(Vec::from_slice(self.alloc, claim)?)? {
            return Ok(());
        }
        self.repeated = self.repeated.saturating_add(1);
        if self.first.is_none() {
            self.first = Some(place);
            self.first_claim.extend_from_slice(claim)?;
        }
        Ok(())
    }
}

impl Remarks {
    /// Adds a line if claim numbers come again in the files, and one if opening balances belong to accounts without a claim. A plan or a text that is
    /// refused is left out.
    pub fn add_records(
        &mut self,
        plan: &[u8],
        balances: Option<&[u8]>,
        files: &[Vec<u8>],
    ) -> Result<(), AllocError>
        ensures { self.new.may_lose_records ≡ self.old.may_lose_records }
    {
        let alloc = self.alloc();
        let Ok(plan) = read_plan(alloc, plan) else {
            return Ok(());
        };
        let done = match search_of(alloc, &plan, balances, files) {
            Ok(search) => self.add_search(&search),
            Err(fault) => Err(fault),
        };
        drop(plan);
        done
    }

    fn add_search(&mut self, search: &RecordSearch) -> Result<(), AllocError>
        ensures { self.new.may_lose_records ≡ self.old.may_lose_records }
    {
        if let Some(first) = search.first {
            let claim = String::from_utf8_lossy(self.alloc(), search.first_claim.as_slice())?;
            self.add(&[
                Part::Words("The number of claims whose claim number comes before is "),
                Part::Number(search.repeated),
                Part::Words("; the first is "),
                Part::Name(claim.as_str()),
                Part::Words(" in file "),
                Part::Number(first.file),
                Part::Words(", record "),
                Part::Number(first.record),
                Part::Words(".\n"),
            ])?;
        }
        self.add_accounts(&search.accounts)
    }
}

fn search_of(
    alloc: Global,
    plan: &Plan,
    balances: Option<&[u8]>,
    files: &[Vec<u8>],
) -> Result<RecordSearch, AllocError> {
    let mut search = RecordSearch {
        alloc,
        known: HashSet::new(alloc),
        repeated: 0,
        first: None,
        first_claim: Vec::new(alloc),
        accounts: Accounts::new(alloc, plan, balances)?,
    };
    for place in 0..files.len() {
        search.add_file(plan, files[place].as_slice(), place.saturating_add(1))?;
    }
    Ok(search)
}
