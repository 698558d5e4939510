//! The opening balances of accounts, before their first claim of a run.
ghost use Rattle.std.specs.Prelude.{◌≡◌, ◌≤◌, ◌<◌, ◌+◌, ◌++◌, ◌∷◌, [], List, flat_map, length, cond, map, string_bytes, IfOk, IfErr, OnOk, IsSome, is_some, None, Some};
ghost use Rattle.std.specs.Option.{option_and_then, option_copied};
ghost use Rattle.std.specs.Str.{bytes_eq};
ghost use Rattle.settlement.specs.Opening.{opening};
ghost use Rattle.intake_csv.specs.Balances.{AreBalanceColumns, AreBalances, AreOnce, Entry as AnyEntry, Holder as AnyHolder, HasBalanceFault, HoldsEntries, IsRecordFault, IsReportedAt, JoinsIn, TakesEntry, accounts_in, accounts_of, book_of, books_of, entry_of, found_in, holder_of, is_holder, opening_of, refusal_cause, refusal_of, refusal_place};
ghost use Rattle.intake_csv.specs.Columns.{balance_columns, year_columns};
ghost use Rattle.intake_csv.specs.FamilyYears.{AreOnceBy, balance_in, refused_after};
ghost use Rattle.intake_csv.specs.HeaderedFile.{IsHeaderedFileOf, IsWithin};

use crate::claim::push_family;
use crate::column::{Content, Layout, RequiredColumn, push_column};
use crate::csv_record::CsvRecord;
use crate::entry::{Entry, OpeningEntry, member_place, met_place, read_entry};
use crate::family_year::{FamilyYear, Refusal};
use crate::headered_file::{HeaderedFile, read_headered_file};
use crate::name_hashing::NameHashing;
use faults::names::{MEMBER, MET, OOP, PAID, YEAR};
use faults::{BalanceFault, FileFault, RowCause, RowFault};
use settlement::{Acc, Balance};
use std::alloc::{AllocError, Global};
use std::collections::HashMap;
use std::marker::Model;
use tables::{Plan, Sequence, has_families, has_years};

// The families of a year. They are found by a hash: a file has many families, often in no order, and
// a tree of that size would mostly wait for memory.
type Families = HashMap<String, FamilyYear, NameHashing>;

/// The opening balances of a file.
///
/// Contracts see a list with an entry for each year: the families of that year, and the members of
/// each family with their balances. If the plan does not keep accumulators by benefit year, all
/// families are in the entry of year 0. If it does not keep accumulators for families, each member
/// is its own family.
#[derive(Drop)]
pub struct Balances {
    years: Vec<Families>,
    hashing: NameHashing,
}

impl Model for Balances {
    ghost use Rattle.std.specs.Prelude.{List};
    ghost use Rattle.intake_csv.specs.Balances.{AreOnce, Book, books_of};

    ghost Value = { List Book };

    ghost view = { λ balances. books_of balances.years.items };

    ghost invariant = { λ balances. AreOnce (books_of balances.years.items) };
}

/// Reads a file of balances. It has one record for each account: for each member, and also for each
/// family and benefit year if the plan keeps accumulators by these.
///
/// # Errors
///
/// Returns the fault of the file, or the fault of its first refused record. A record is also
/// refused if it repeats an account (`Repeated`), or if it takes a sum of a family out of range
/// (`Sum`).
pub fn read_balances(alloc: Global, plan: &Plan, text: &[u8]) -> Result<Balances, BalanceFault>
    ensures ok { IfOk result (AreBalances plan.now.version text.now) }
    ensures fault { IfErr result (HasBalanceFault plan.now.version text.now) }
{
    read_by(alloc, plan.version(), text)
}

#[tactic(auto, using(crate::proofs::Books::none_once, crate::proofs::Entries::read_none))]
fn read_by(alloc: Global, version: u8, text: &[u8]) -> Result<Balances, BalanceFault>
    ensures ok { IfOk result (AreBalances version text.now) }
    ensures fault { IfErr result (HasBalanceFault version text.now) }
{
    let headered_file = balance_file(alloc, version, text)?;
    let HeaderedFile {
        layout,
        mut records,
    } = headered_file;
    let mut balances = Balances {
        years: Vec::new(alloc),
        hashing: NameHashing::of_text(text),
    };
    let mut record = CsvRecord::new(alloc);
    let mut number: usize = 0;
    while record.read(&mut records)? {
        number += 1;
        match balances.read(alloc, version, &layout, &record)? {
            Ok(()) => {}
            Err(fault) => return Err(BalanceFault::Row { number, fault }),
        }
    }
    Ok(balances)
}

fn balance_file<'t>(
    alloc: Global,
    version: u8,
    text: &'t [u8],
) -> Result<HeaderedFile<'t>, BalanceFault>
    ensures ok { IfOk result (IsHeaderedFileOf (balance_columns version) text.now) }
    ensures fault { IfErr result (HasBalanceFault version text.now) }
{
    let needed = balance_columns(alloc, version)?;
    match read_headered_file(alloc, needed.as_slice(), text) {
        Ok(headered_file) => Ok(headered_file),
        Err(FileFault::OutOfMemory) => Err(BalanceFault::OutOfMemory),
        Err(fault) => Err(BalanceFault::File(fault)),
    }
}

impl Balances {
    /// Returns the opening accumulators of a member in a family and year. Its own amounts are zero
    /// if it has no balance. The family's sums are over all members of the family. If the plan does
    /// not keep accumulators by benefit year, the year must be 0; if it does not keep them for
    /// families, `family` must be the member.
    #[tactic(auto, using(crate::proofs::Books::begun_some, crate::proofs::Books::begun_none))]
    pub fn of(&self, family: &str, member: &str, year: u16) -> Acc
        ensures { result ≡ opening (accounts_of self.now)
            (record { family = family.now; member = member.now; year = year }) }
    {
        match self.find(family, year) {
            Some(family_year) => family_year.opening(member),
            None => Acc::zero(),
        }
    }

    /// Returns the entry of each account that has a balance, year by year and family by family. The
    /// order of the families of a year is not specified.
    pub fn entries(&self, alloc: Global) -> Result<Vec<OpeningEntry>, AllocError>
        ensures listed { IfOk result (λ entries. map opening_of entries.items
            ≡ accounts_of self.now) }
        ensures once { AreOnce self.now }
    {
        let mut entries = Vec::new(alloc);
        for place in 0..self.years.len() {
            // The year of an entry is a `u16`, so there are no more years than it counts.
            let Ok(year) = u16::try_from(place) else {
                return Err(AllocError);
            };
            list_year(alloc, &mut entries, &self.years[place], year)?;
        }
        Ok(entries)
    }

    #[tactic(auto, using(crate::proofs::Books::found_within, crate::proofs::Books::found_beyond))]
    fn find(&self, family: &str, year: u16) -> Option<&FamilyYear>
        ensures found { option_copied result ≡ found_in self.now (family.now, year) }
        ensures once { AreOnce self.now }
    {
        let place = usize::from(year);
        if place >= self.years.len() {
            return None;
        }
        self.years[place].get(family)
    }

    // Adds the entry of one more record, or returns its fault.
    fn read(
        &mut self,
        alloc: Global,
        version: u8,
        layout: &Layout,
        row: &CsvRecord,
    ) -> Result<Result<(), RowFault>, AllocError>
        requires within { IsWithin layout.now }
        requires balances { AreBalanceColumns version layout.now.columns }
        ensures entry { IfOk result (λ read. OnOk read ((front : List AnyEntry)
            → HoldsEntries front self.old
            → TakesEntry version layout.now front row.now self.new)) }
        ensures refused { IfOk result (λ read. IfErr read (λ fault. (front : List AnyEntry)
            → HoldsEntries front self.old
            → IsRecordFault version layout.now front row.now fault)) }
    {
        let entry = match read_entry(alloc, version, layout, row) {
            Ok(Ok(entry)) => entry,
            Ok(Err(fault)) => return Ok(Err(fault)),
            Err(AllocError) => return Err(AllocError),
        };
        let has_family = match self.judge(&entry) {
            Ok(has_family) => has_family,
            Err(refusal) => return Ok(Err(fault_of(layout, version, refusal))),
        };
        self.put(alloc, &entry, has_family)?;
        Ok(Ok(()))
    }

    // Returns whether the entry's family has balances in its year, or why the entry is refused.
    fn judge(&self, entry: &Entry) -> Result<bool, Refusal>
        ensures known { IfOk result (λ has_family.
            is_some (found_in self.now (holder_of (entry_of entry.now).0)) ≡ has_family) }
        ensures free { OnOk result (refusal_of self.now (entry_of entry.now) ≡ None) }
        ensures refused { IfErr result (λ refusal.
            refusal_of self.now (entry_of entry.now) ≡ Some refusal) }
    {
        match self.find(entry.family, entry.year) {
            Some(family_year) => match family_year.refusal(entry.member, entry.balance) {
                Some(refusal) => Err(refusal),
                None => Ok(true),
            },
            None => Ok(false),
        }
    }

    // Adds an entry that is not refused, to its family if that has balances in its year.
    fn put(&mut self, alloc: Global, entry: &Entry, has_family: bool) -> Result<(), AllocError>
        requires free { refusal_of self.old (entry_of entry.now) ≡ None }
        requires known { is_some (found_in self.old (holder_of (entry_of entry.now).0))
            ≡ has_family }
        ensures { OnOk result ((front : List AnyEntry) → HoldsEntries front self.old
            → HoldsEntries (front ++ entry_of entry.now ∷ []) self.new) }
    {
        let name = String::from_str(alloc, entry.member)?;
        if has_family {
            return join(
                &mut self.years,
                entry.family,
                entry.year,
                name,
                entry.balance,
            );
        }
        let family = String::from_str(alloc, entry.family)?;
        let family_year = FamilyYear::new(alloc, name, entry.balance);
        make_room(alloc, &mut self.years, self.hashing, entry.year)?;
        add(&mut self.years, family, entry.year, family_year)
    }
}

// Appends the entries of the families of a year.
fn list_year(
    alloc: Global,
    entries: &mut Vec<OpeningEntry>,
    families: &Families,
    year: u16,
) -> Result<(), AllocError>
    ensures { OnOk result (map opening_of entries.new.items
        ≡ map opening_of entries.old.items ++ flat_map (accounts_in year) (book_of families.now)) }
{
    for family in families.iter() {
        family.1.list(alloc, entries, family.0.as_str(), year)?;
    }
    Ok(())
}

// Returns the fault of a refusal, with the number of its column.
fn fault_of(layout: &Layout, version: u8, refusal: Refusal) -> RowFault
    requires within { IsWithin layout.now }
    requires there { refusal_place version refusal < length layout.now.columns }
    ensures { IsReportedAt layout.now
        (refusal_place version refusal) (refusal_cause refusal) result }
{
    let place = refusal_place(version, refusal);
    RowFault {
        column: layout.columns.as_slice()[place].place + 1,
        cause: refusal_cause(refusal),
    }
}

// Returns the place of the column that a refusal is reported at, among the required columns.
fn refusal_place(version: u8, refusal: Refusal) -> usize
    ensures { result ≡ refusal_place version refusal }
{
    match refusal {
        Refusal::Again => member_place(version),
        Refusal::Met => met_place(version),
        Refusal::Oop => met_place(version) + 1,
    }
}

fn refusal_cause(refusal: Refusal) -> RowCause
    ensures { result ≡ refusal_cause refusal }
{
    match refusal {
        Refusal::Again => RowCause::Repeated,
        Refusal::Met => RowCause::Sum,
        Refusal::Oop => RowCause::Sum,
    }
}

fn make_room(
    alloc: Global,
    years: &mut Vec<Families>,
    hashing: NameHashing,
    year: u16,
) -> Result<(), AllocError>
    ensures same { (holder : AnyHolder) → found_in (books_of years.new.items) holder
        ≡ found_in (books_of years.old.items) holder }
    ensures once { AreOnce (books_of years.old.items) → AreOnce (books_of years.new.items) }
    ensures room { OnOk result (year < length years.new.items) }
{
    let missing = (usize::from(year) + 1).saturating_sub(years.len());
    for _ in 0..missing {
        add_year(alloc, years, hashing)?;
    }
    Ok(())
}

// Appends a year without balances.
#[tactic(auto, using(crate::proofs::Books::room_found, crate::proofs::Books::room_kept))]
fn add_year(
    alloc: Global,
    years: &mut Vec<Families>,
    hashing: NameHashing,
) -> Result<(), AllocError>
    ensures same { (holder : AnyHolder) → found_in (books_of years.new.items) holder
        ≡ found_in (books_of years.old.items) holder }
    ensures once { AreOnce (books_of years.old.items) → AreOnce (books_of years.new.items) }
    ensures room { OnOk result (length years.new.items ≡ length years.old.items + 1) }
{
    years.push(HashMap::with_hasher(alloc, hashing))?;
    Ok(())
}

// Adds a new family to a year that has an entry.
fn add(
    years: &mut Vec<Families>,
    family: String,
    year: u16,
    family_year: FamilyYear,
) -> Result<(), AllocError>
    requires room { year < length years.old.items }
    requires once { AreOnceBy bytes_eq family_year }
    ensures added { OnOk result ((holder : AnyHolder)
        → found_in (books_of years.new.items) holder
        ≡ cond (is_holder (string_bytes family, year) holder)
        (Some family_year)
        (found_in (books_of years.old.items) holder)) }
    ensures once { AreOnce (books_of years.old.items) → AreOnce (books_of years.new.items) }
{
    match years[usize::from(year)].insert(family, family_year) {
        Ok(_) => Ok(()),
        Err(_) => Err(AllocError),
    }
}

// Adds a member, whose balance is not refused, to its family.
fn join(
    years: &mut Vec<Families>,
    family: &str,
    year: u16,
    member: String,
    balance: Balance,
) -> Result<(), AllocError>
    requires there { IsSome (found_in (books_of years.old.items) (family.now, year)) }
    requires free { option_and_then
        (λ members.
        refused_after members (balance_in members (string_bytes member)) balance)
        (found_in (books_of years.old.items) (family.now, year)) ≡ None }
    ensures joined { OnOk result (JoinsIn (family.now, year) (string_bytes member) balance
        (books_of years.old.items) (books_of years.new.items)) }
    ensures once { AreOnce (books_of years.old.items) → AreOnce (books_of years.new.items) }
{
    match years[usize::from(year)].get_mut(family) {
        Some(family_year) => family_year.join(member, balance),
        None => unreachable!(),
    }
}

fn balance_columns(alloc: Global, version: u8) -> Result<Sequence<RequiredColumn>, AllocError>
    ensures { IfOk result (λ needed. needed ≡ balance_columns version) }
{
    let mut needed = Sequence::new(alloc);
    push_family(alloc, &mut needed, has_families(version))?;
    push_column(alloc, &mut needed, MEMBER, Content::Identifier)?;
    push_year(alloc, &mut needed, has_years(version))?;
    push_column(alloc, &mut needed, MET, Content::Money)?;
    push_column(alloc, &mut needed, OOP, Content::Money)?;
    push_column(alloc, &mut needed, PAID, Content::Money)?;
    Ok(needed)
}

// Appends the column of the year, if the plan keeps accumulators by benefit year.
fn push_year(
    alloc: Global,
    needed: &mut Sequence<RequiredColumn>,
    years: bool,
) -> Result<(), AllocError>
    ensures { OnOk result (needed.new ≡ needed.old ++ year_columns years) }
{
    if years {
        push_column(alloc, needed, YEAR, Content::Year)
    } else {
        Ok(())
    }
}
