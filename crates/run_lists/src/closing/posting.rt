//! The closing balances of a run, from its opening balances and the outcomes of its claims.
ghost use Rattle.std.specs.Prelude.{◌≡◌, ◌≤◌, ◌-◌, [], get_or, length, IfOk, OnOk};
ghost use Rattle.remit_records.specs.Looked.{looked_up};
ghost use Rattle.run_lists.specs.Charges.{FileIsPosted, FilesArePosted, LeftArePosted, Posts, row_charges};
ghost use Rattle.run_lists.specs.Closing.{AreClosing};
ghost use Rattle.run_lists.specs.Entries.{entries_of};

use crate::closing::accounts::ClosingBalances;
use claim_gate::{Batch, Terms};
use intake_csv::{Row, Rows};
use remit_records::Decisions;
use std::alloc::{AllocError, Global};

/// Returns what each account has met, paid and been paid after the last claim of a finished run.
/// The files are read once more for this purpose. The accounts are those of the opening balances
/// and of the accepted claims.
pub fn closing_balances(
    alloc: Global,
    terms: &Terms,
    batch: &Batch,
) -> Result<ClosingBalances, AllocError>
    requires same_terms { batch.now.terms ≡ terms.now }
    ensures { IfOk result (λ closing.
        AreClosing terms.now batch.now.journal (entries_of closing)) }
{
    let journal = batch.journal();
    let providers = terms.files().len();
    let decisions = Decisions::new(alloc, terms, providers, journal)?;
    let mut closing = ClosingBalances::of_opening(alloc, terms)?;
    post_files(alloc, terms, &decisions, providers, &mut closing)?;
    // proof: the accounts are in order
    let _accounts = closing.len();
    Ok(closing)
}

fn post_files(
    alloc: Global,
    terms: &Terms,
    decisions: &Decisions,
    providers: usize,
    closing: &mut ClosingBalances,
) -> Result<(), AllocError>
    requires { providers ≡ length terms.now.files }
    ensures { OnOk result (FilesArePosted terms.now.plan (looked_up decisions.now)
        terms.now.files (entries_of closing.old) (entries_of closing.new)) }
{
    for place in 0..providers {
        post_file(alloc, terms, decisions, place + 1, closing)?;
    }
    Ok(())
}

fn post_file(
    alloc: Global,
    terms: &Terms,
    decisions: &Decisions,
    provider: usize,
    closing: &mut ClosingBalances,
) -> Result<(), AllocError>
    requires least { 1 ≤ provider }
    requires most { provider ≤ length terms.now.files }
    ensures { OnOk result (FileIsPosted terms.now.plan (looked_up decisions.now) provider
        (get_or terms.now.files (provider - 1) [])
        (entries_of closing.old) (entries_of closing.new)) }
{
    // proof: the remaining rows of a new reader are all rows of the file
    intake_csv::reader_begins_with_all_rows();
    let rows = terms.rows(alloc, provider)?;
    post_rows(alloc, terms, decisions, provider, rows, closing)
}

// Posts the remaining rows of a reader.
fn post_rows(
    alloc: Global,
    terms: &Terms,
    decisions: &Decisions,
    provider: usize,
    rows: Rows,
    closing: &mut ClosingBalances,
) -> Result<(), AllocError>
    requires { 1 ≤ provider }
    ensures { OnOk result (LeftArePosted terms.now.plan (looked_up decisions.now) provider
        rows.entry (entries_of closing.old) (entries_of closing.new)) }
{
    // proof: a reader returns the first of its remaining rows, and no row after the last one
    intake_csv::given_row_is_the_first();
    intake_csv::no_records_give_no_rows();
    let mut rows = rows;
    loop {
        let Ok(next) = rows.next() else {
            return Err(AllocError);
        };
        let Some(row) = next else {
            return Ok(());
        };
        post_row(alloc, terms, decisions, provider, row, closing)?;
    }
}

// Adds the outcome of a claim to its account. A refused record and a late claim add nothing.
fn post_row(
    alloc: Global,
    terms: &Terms,
    decisions: &Decisions,
    provider: usize,
    row: Row,
    closing: &mut ClosingBalances,
) -> Result<(), AllocError>
    requires { 1 ≤ provider }
    ensures { OnOk result (Posts (row_charges terms.now.plan (looked_up decisions.now) provider row)
        (entries_of closing.old) (entries_of closing.new)) }
{
    match row {
        Row::Good { place, claim, .. } => match decisions.outcome(provider, place) {
            Some(outcome) => closing.charge(alloc, terms, &claim, outcome),
            None => Ok(()),
        },
        Row::Bad { .. } => Ok(()),
    }
}
