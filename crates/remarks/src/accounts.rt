//! The accounts of opening balances, and which of them have a claim.

ghost use Rattle.std.specs.Prelude.{◌≡◌};

use crate::lines::{Part, Remarks};
use feel_tests::year_text;
use intake_csv::{CsvRecord, IdColumns, OpeningEntry, read_balances};
use std::alloc::{AllocError, Global};
use std::collections::HashMap;
use tables::Plan;

/// The number of digits of a year, with which a day begins.
const YEAR_DIGITS: usize = 4;

/// The accounts of opening balances.
pub struct Accounts {
    entries: Vec<OpeningEntry>,
    /// The places of the entries whose account has no claim so far, by the keys of the accounts.
    unused: HashMap<Vec<u8>, usize>,
    keeps_years: bool,
    keeps_families: bool,
    /// The key of the last claim.
    key: Vec<u8>,
}

impl Drop for Accounts {
    fn drop(self) {
        let Accounts {
            entries: _,
            unused: _,
            keeps_years: _,
            keeps_families: _,
            key: _,
        } = self;
    }
}

impl Accounts {
    /// The accounts of these balances; none if there are no balances, or if they are refused.
    pub fn new(
        alloc: Global,
        plan: &Plan,
        balances: Option<&[u8]>,
    ) -> Result<Accounts, AllocError> {
        let mut accounts = Accounts {
            entries: entries_of(alloc, plan, balances)?,
            unused: HashMap::new(alloc),
            keeps_years: plan.keeps_years(),
            keeps_families: plan.keeps_families(),
            key: Vec::new(alloc),
        };
        for place in 0..accounts.entries.len() {
            accounts.list(alloc, place)?;
        }
        Ok(accounts)
    }

    fn list(&mut self, alloc: Global, place: usize) -> Result<(), AllocError> {
        let Some(entry) = self.entries.get(place) else {
            return Ok(());
        };
        let digits = year_text(entry.year.min(9999));
        let year = year_part(self.keeps_years, digits.as_slice());
        let mut key = Vec::new(alloc);
        let (family, member) = (entry.family.as_bytes(), entry.member.as_bytes());
        put_key(&mut key, family, member, year)?;
        self.unused.insert(key, place)?;
        Ok(())
    }

    /// Notes that the account of this claim has a claim.
    pub fn add_claim(&mut self, record: &CsvRecord, columns: IdColumns) -> Result<(), AllocError> {
        if self.unused.is_empty() {
            return Ok(());
        }
        let member = record.bytes(columns.member).unwrap_or(&[]);
        let family = match columns.family {
            Some(column) => record.bytes(column).unwrap_or(&[]),
            None => member,
        };
        let year = year_part(
            self.keeps_years,
            record.bytes(columns.service).unwrap_or(&[]),
        );
        put_key(&mut self.key, family, member, year)?;
        let _ = self.unused.remove(self.key.as_slice());
        Ok(())
    }

    // The first entry whose account has no claim.
    fn first_unused(&self) -> Option<&OpeningEntry> {
        let mut first = usize::MAX;
        for place in self.unused.values() {
            first = first.min(*place);
        }
        self.entries.get(first)
    }
}

fn entries_of(
    alloc: Global,
    plan: &Plan,
    balances: Option<&[u8]>,
) -> Result<Vec<OpeningEntry>, AllocError> {
    let Some(text) = balances else {
        return Ok(Vec::new(alloc));
    };
    match read_balances(alloc, plan, text) {
        Ok(balances) => balances.entries(alloc),
        Err(_) => Ok(Vec::new(alloc)),
    }
}

// The year of a day, if the plan keeps accumulators by benefit year.
fn year_part(keeps_years: bool, day: &[u8]) -> &[u8] {
    if keeps_years {
        day.get(..YEAR_DIGITS).unwrap_or(&[])
    } else {
        &[]
    }
}

// Names may have any bytes, so the length of the family's name is part of the key.
fn put_key(key: &mut Vec<u8>, family: &[u8], member: &[u8], year: &[u8]) -> Result<(), AllocError> {
    key.clear();
    key.extend_from_slice(year)?;
    key.extend_from_slice(&family.len().to_le_bytes())?;
    key.extend_from_slice(family)?;
    key.extend_from_slice(member)
}

impl Remarks {
    /// Adds a line if there are accounts without a claim.
    pub fn add_accounts(&mut self, accounts: &Accounts) -> Result<(), AllocError>
        ensures { self.new.may_lose_records ≡ self.old.may_lose_records }
    {
        let Some(first) = accounts.first_unused() else {
            return Ok(());
        };
        self.add(&[
            Part::Words("The number of opening balances whose account has no claim is "),
            Part::Number(accounts.unused.len()),
            Part::Words(" of "),
            Part::Number(accounts.entries.len()),
            Part::Words("; the first is of member "),
            Part::Name(first.member.as_str()),
        ])?;
        if accounts.keeps_families {
            self.add(&[
                Part::Words(" in family "),
                Part::Name(first.family.as_str()),
            ])?;
        }
        if accounts.keeps_years {
            self.add(&[
                Part::Words(" in year "),
                Part::Number(usize::from(first.year)),
            ])?;
        }
        self.add(&[Part::Words(".\n")])
    }
}
