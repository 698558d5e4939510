//! The sums of the amounts over the paid claims of each file.

ghost use Rattle.std.specs.Prelude.{◌≤◌, length};

use claim_gate::{Batch, Terms};
use intake_csv::{CsvRecord, RowSummary, Rows};
use remit_records::Decisions;
use settlement::{Money, Outcome, Verdict};
use std::alloc::{AllocError, Global};

/// Sums over the paid claims of a file, in ten-thousandths.
#[derive(Clone, Copy)]
pub struct FileSums {
    /// What the plan allows.
    pub allowed: u128,
    /// What the members pay.
    pub share: u128,
    /// What the plan pays.
    pub paid: u128,
}

impl FileSums {
    fn zero() -> FileSums {
        FileSums {
            allowed: 0,
            share: 0,
            paid: 0,
        }
    }

    // The sums with those of one more claim. No file is so long that they leave their range.
    fn with(self, outcome: &Outcome) -> FileSums {
        match outcome.verdict {
            Verdict::Paid => FileSums {
                allowed: self.allowed.saturating_add(units_of(outcome.allowed)),
                share: self.share.saturating_add(units_of(outcome.share)),
                paid: self.paid.saturating_add(units_of(outcome.paid)),
            },
            Verdict::Denied | Verdict::Pended(_) => self,
        }
    }
}

fn units_of(money: Money) -> u128 {
    u128::from(money.amount().units().unsigned_abs())
}

/// Adds up the amounts of each file of a finished run, in the order of the files. The files are read once
/// more for this purpose.
pub fn sums_of_files(
    alloc: Global,
    terms: &Terms,
    batch: &Batch,
) -> Result<Vec<FileSums>, AllocError> {
    let decisions = Decisions::new(alloc, terms, terms.files().len(), batch.journal())?;
    let mut sums = Vec::new(alloc);
    push_sums(alloc, terms, &decisions, &mut sums)?;
    Ok(sums)
}

fn push_sums(
    alloc: Global,
    terms: &Terms,
    decisions: &Decisions,
    sums: &mut Vec<FileSums>,
) -> Result<(), AllocError> {
    for place in 0..terms.files().len() {
        sums.push(sums_of_file(alloc, terms, decisions, place + 1)?)?;
    }
    Ok(())
}

fn sums_of_file(
    alloc: Global,
    terms: &Terms,
    decisions: &Decisions,
    provider: usize,
) -> Result<FileSums, AllocError>
    requires least { 1 ≤ provider }
    requires most { provider ≤ length terms.now.files }
{
    // Each record has at least one byte.
    let most = terms.files()[provider - 1].len();
    let mut rows = terms.rows(alloc, provider)?;
    sums_of_rows(
        decisions,
        provider,
        most,
        &mut rows,
        &mut CsvRecord::new(alloc),
    )
}

// The sums of at most this number of rows.
fn sums_of_rows(
    decisions: &Decisions,
    provider: usize,
    most: usize,
    rows: &mut Rows<'_>,
    source: &mut CsvRecord,
) -> Result<FileSums, AllocError>
    requires { 1 ≤ provider }
{
    let mut sums = FileSums::zero();
    for _ in 0..most {
        let Ok(next) = rows.next_summary(source) else {
            return Err(AllocError);
        };
        match next {
            Some(RowSummary::Good { place, .. }) => {
                if let Some(outcome) = decisions.outcome(provider, place) {
                    sums = sums.with(outcome);
                }
            }
            Some(RowSummary::Bad { .. }) => {}
            None => return Ok(sums),
        }
    }
    Ok(sums)
}
