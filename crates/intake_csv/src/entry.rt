//! The reader of entries of balances. It copies nothing: an entry borrows the texts of its record.
ghost use Rattle.std.specs.Prelude.{◌≡◌, ◌≤◌, ◌<◌, ◌+◌, length, IfOk, IfErr, IfSome, IfNone};
ghost use Rattle.std.specs.List.{All, Any};
ghost use Rattle.tables.specs.Plan.{has_families, has_years};
ghost use Rattle.intake_csv.specs.Balances.{AreBalanceColumns, HoldsBalance, HoldsFamily, HoldsYear, IsEntry, IsKeptUnder, entry_of, entry_values, opening_of};
ghost use Rattle.intake_csv.specs.Columns.{member_place, met_place};
ghost use Rattle.intake_csv.specs.HeaderedFile.{IsWithin};
ghost use Rattle.intake_csv.specs.Rows.{AreValues, HasFault};
ghost use Rattle.intake_csv.specs.Validated.{IsRefusedUnder};

use crate::column::{Column, Layout};
use crate::column_values::{identifier_of_column, money_of_column, year_of_column};
use crate::csv_record::CsvRecord;
use crate::validation::first_fault;
use faults::{RowCause, RowFault};
use settlement::Balance;
use std::alloc::{AllocError, Global};
use tables::{has_families, has_years};

/// The account of a record, and its balance.
#[derive(Drop)]
pub struct Entry<'r> {
    pub family: &'r str,
    pub member: &'r str,
    pub year: u16,
    pub balance: Balance,
}

/// An account with its opening balance, which owns its names.
#[derive(Drop)]
pub struct OpeningEntry {
    pub family: String,
    pub member: String,
    pub year: u16,
    pub balance: Balance,
}

impl OpeningEntry {
    /// Copies the names of an account.
    pub fn new(
        alloc: Global,
        family: &str,
        member: &str,
        year: u16,
        balance: Balance,
    ) -> Result<OpeningEntry, AllocError>
        ensures { IfOk result (λ entry. opening_of entry
            ≡ (record { family = family.now; member = member.now; year = year }, balance)) }
    {
        Ok(OpeningEntry {
            family: String::from_str(alloc, family)?,
            member: String::from_str(alloc, member)?,
            year,
            balance,
        })
    }
}

/// Reads a record of a file of balances, and returns its entry or its first fault. A record without
/// an entry is validated once more, to find the leftmost fault.
pub fn read_entry<'r>(
    alloc: Global,
    version: u8,
    layout: &Layout,
    row: &'r CsvRecord,
) -> Result<Result<Entry<'r>, RowFault>, AllocError>
    requires within { IsWithin layout.now }
    requires balances { AreBalanceColumns version layout.now.columns }
    ensures entry { IfOk result (λ read. IfOk read (λ entry.
        IsEntry version layout.now row.now (entry_of entry))) }
    ensures fault { IfOk result (λ read. IfErr read (HasFault layout.now row.now)) }
{
    if row.len() != layout.width {
        return Ok(Err(RowFault {
            column: 0,
            cause: RowCause::FieldCount,
        }));
    }
    let columns = layout.columns.as_slice();
    if let Some(entry) = entry_of_columns(version, columns, row) {
        return Ok(Ok(entry));
    }
    match first_fault(alloc, columns, row)? {
        Some(fault) => Ok(Err(fault)),
        None => unreachable!(),
    }
}

// Returns the entry of these columns, or `None` if a field is refused.
fn entry_of_columns<'r>(version: u8, columns: &[Column], row: &'r CsvRecord) -> Option<Entry<'r>>
    requires within { All (λ c. c.place < length row.now) columns.now }
    requires contents { AreBalanceColumns version columns.now }
    ensures values { IfSome result (λ entry.
        AreValues row.now columns.now (entry_values version (entry_of entry))) }
    ensures kept { IfSome result (λ entry. IsKeptUnder version (entry_of entry).0) }
    ensures none { IfNone result (Any (IsRefusedUnder row.now) columns.now) }
{
    let member = identifier_of_column(columns[member_place(version)], row)?;
    let family = family_of_columns(version, columns, member, row)?;
    let year = year_of_columns(version, columns, row)?;
    let balance = balance_of_columns(version, columns, row)?;
    Some(Entry {
        family,
        member,
        year,
        balance,
    })
}

// Without a column of the family, the member is its own family.
fn family_of_columns<'r>(
    version: u8,
    columns: &[Column],
    member: &'r str,
    row: &'r CsvRecord,
) -> Option<&'r str>
    requires within { All (λ c. c.place < length row.now) columns.now }
    requires contents { AreBalanceColumns version columns.now }
    ensures family { IfSome result (λ family.
        HoldsFamily (has_families version) row.now columns.now member.now family.now) }
    ensures none { IfNone result (Any (IsRefusedUnder row.now) columns.now) }
{
    if has_families(version) {
        identifier_of_column(columns[0], row)
    } else {
        Some(member)
    }
}

// Without a column of the year, the year is 0.
fn year_of_columns(version: u8, columns: &[Column], row: &CsvRecord) -> Option<u16>
    requires within { All (λ c. c.place < length row.now) columns.now }
    requires contents { AreBalanceColumns version columns.now }
    ensures year { IfSome result
        (HoldsYear (has_years version) row.now columns.now (member_place version + 1)) }
    ensures none { IfNone result (Any (IsRefusedUnder row.now) columns.now) }
{
    if has_years(version) {
        year_of_column(columns[member_place(version) + 1], row)
    } else {
        Some(0)
    }
}

fn balance_of_columns(version: u8, columns: &[Column], row: &CsvRecord) -> Option<Balance>
    requires within { All (λ c. c.place < length row.now) columns.now }
    requires contents { AreBalanceColumns version columns.now }
    ensures balance { IfSome result (HoldsBalance row.now columns.now (met_place version)) }
    ensures none { IfNone result (Any (IsRefusedUnder row.now) columns.now) }
{
    let place = met_place(version);
    let met = money_of_column(columns[place], row)?;
    let oop = money_of_column(columns[place + 1], row)?;
    let paid = money_of_column(columns[place + 2], row)?;
    Some(Balance { met, oop, paid })
}

/// Returns the place of the member's column among the required columns.
pub fn member_place(version: u8) -> usize
    ensures value { result ≡ member_place version }
    ensures small { result ≤ 1 }
{
    if has_families(version) { 1 } else { 0 }
}

/// Returns the place of the column `met` among the required columns.
pub fn met_place(version: u8) -> usize
    ensures value { result ≡ met_place version }
    ensures small { result ≤ 3 }
{
    if has_years(version) {
        member_place(version) + 2
    } else {
        member_place(version) + 1
    }
}
