//! The text of closing balances: the CSV (RFC 4180) that a run reads as its opening balances.
ghost use Rattle.std.specs.Prelude.{◌≡◌, ◌<◌, IfOk, OnOk, map, string_bytes, true};
ghost use Rattle.intake_csv.specs.Balances.{IsKept, IsKeptUnder};
ghost use Rattle.intake_csv.specs.Columns.{balance_columns};
ghost use Rattle.remit_records.specs.Fields.{Pushes};
ghost use Rattle.run_lists.specs.Entries.{account_of_key, entries_of};
ghost use Rattle.run_lists.specs.ClosingText.{AreWritable, IsClosingText, IsWritable, account_fields, closing_text, entry_fields};

use crate::closing::account_key::AccountKey;
use crate::closing::accounts::ClosingBalances;
use crate::closing::posting::closing_balances;
use claim_gate::{Batch, Terms};
use csv::Writer;
use feel_tests::year_text;
use remit_records::{end_record, push_family, push_field, push_money, push_year};
use settlement::Balance;
use std::alloc::{AllocError, Global};
use tables::{has_families, has_years};

/// Returns the closing balances of a finished run as a file of balances. It has a header, and a
/// record for each account, sorted by year, then by family, then by member. Commas separate the
/// fields, LF ends each record, and amounts have two decimals.
pub fn closing_text(alloc: Global, terms: &Terms, batch: &Batch) -> Result<Vec<u8>, AllocError>
    requires same_terms { batch.now.terms ≡ terms.now }
    ensures { IfOk result (λ text. IsClosingText terms.now batch.now.journal text.items) }
{
    let closing = closing_balances(alloc, terms, batch)?;
    let text = text_of(alloc, terms.plan().version(), &closing);
    drop(closing);
    text
}

fn text_of(alloc: Global, version: u8, closing: &ClosingBalances) -> Result<Vec<u8>, AllocError>
    ensures text { IfOk result (λ text. text.items
        ≡ closing_text version (entries_of closing.now)) }
    ensures writable { IfOk result (λ _. AreWritable version (entries_of closing.now)) }
{
    let mut writer = Writer::from_writer(Vec::new(alloc));
    push_header(&mut writer, version)?;
    end_record(&mut writer)?;
    for account in closing.accounts.iter() {
        push_entry(&mut writer, version, account.0, *account.1)?;
        end_record(&mut writer)?;
    }
    match writer.into_inner() {
        Ok(text) => Ok(text),
        Err(_) => Err(AllocError),
    }
}

fn push_header(line: &mut Writer<Vec<u8>>, version: u8) -> Result<(), AllocError>
    ensures { OnOk result (Pushes line.old line.new (map (λ c. c.name) (balance_columns version))) }
{
    push_account(line, version, b"family", b"member", b"year")?;
    push_field(line, b"met")?;
    push_field(line, b"oop")?;
    push_field(line, b"paid")
}

fn push_entry(
    line: &mut Writer<Vec<u8>>,
    version: u8,
    key: &AccountKey,
    balance: Balance,
) -> Result<(), AllocError>
    ensures fields { OnOk result (Pushes line.old line.new
        (entry_fields version (account_of_key key.now, balance))) }
    ensures writable { OnOk result (IsWritable version (account_of_key key.now, balance)) }
{
    // The accounts of balances and of claims are all valid.
    if !is_kept(version, key) {
        return Err(AllocError);
    }
    // proof: each amount is money in the range of numbers
    let _met = balance.met.amount();
    let _oop = balance.oop.amount();
    let _paid = balance.paid.amount();
    let year = year_text(key.year);
    push_account(
        line,
        version,
        key.family.as_bytes(),
        key.member.as_bytes(),
        &year,
    )?;
    push_money(line, balance.met)?;
    push_money(line, balance.oop)?;
    push_money(line, balance.paid)
}

// Returns whether the account is valid under a plan of this version.
fn is_kept(version: u8, key: &AccountKey) -> bool
    ensures kept { result ≡ true → IsKeptUnder version (account_of_key key.now) }
    ensures year { result ≡ true → key.now.year < 10000 }
{
    is_kept_year(has_years(version), key.year) && (has_families(version) || is_alone(key))
}

fn is_kept_year(keeps_years: bool, year: u16) -> bool
    ensures kept { result ≡ true → IsKept keeps_years year }
    ensures small { result ≡ true → year < 10000 }
{
    if keeps_years {
        1 <= year && year <= 9999
    } else {
        year == 0
    }
}

fn is_alone(key: &AccountKey) -> bool
    ensures { result ≡ true → string_bytes key.now.family ≡ string_bytes key.now.member }
{
    key.family.as_str() == key.member.as_str()
}

// Appends the names of an account. Only some versions of a plan have a family and a year.
fn push_account(
    line: &mut Writer<Vec<u8>>,
    version: u8,
    family: &[u8],
    member: &[u8],
    year: &[u8],
) -> Result<(), AllocError>
    ensures { OnOk result (Pushes line.old line.new
        (account_fields version family.now member.now year.now)) }
{
    push_family(line, has_families(version), family)?;
    push_field(line, member)?;
    push_year(line, has_years(version), year)
}
