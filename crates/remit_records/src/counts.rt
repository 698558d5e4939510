//! Counts of the records of a run by their status, file by file.
ghost use Rattle.std.specs.Prelude.{◌≡◌, ◌≤◌, ◌-◌, [], get_or, length, map, pos, string_bytes, IfOk, OnOk};
ghost use Rattle.fixpoint.specs.Money.{money_text};
ghost use Rattle.intake_csv.specs.Records.{Fields};
ghost use Rattle.intake_csv.specs.RowSummary.{IsSummaryOf};
ghost use Rattle.intake_csv.specs.declared.rows.Row.{Row as AnyRow};
ghost use Rattle.remit_records.specs.Counts.{AreRunCounts, EachIsCounted, IsCounted, LeftIsCounted, counted, no_records, status_of, status_of_row};
ghost use Rattle.remit_records.specs.FieldTexts.{fault_text};
ghost use Rattle.remit_records.specs.Looked.{looked_up, outcome_in};

use crate::decisions::Decisions;
use crate::field_texts::{fault_text as reason_of_refusal, sum_text};
use crate::sums::Sums;
use claim_gate::{Batch, Terms};
use intake_csv::{CsvRecord, RowFault, RowSummary, Rows};
use settlement::{Outcome, Verdict};
use std::alloc::{AllocError, Global};

/// The status of a record in the remittance.
#[derive(Clone, Copy)]
pub enum RecordStatus {
    /// The claim is covered, and its amounts are settled.
    Paid,
    /// The claim is not covered.
    Denied,
    /// The claim waits for a decision by a person.
    Pended,
    /// The record is not a valid claim.
    Refused,
    /// The claim was not accepted before the cutoff.
    Late,
}

impl RecordStatus {
    // Returns the status of a claim with this outcome. A claim without one was not accepted.
    fn of_outcome(outcome: Option<&Outcome>) -> RecordStatus
        ensures { result ≡ status_of (outcome_in outcome.entry) }
    {
        let Some(outcome) = outcome else {
            return RecordStatus::Late;
        };
        match &outcome.verdict {
            Verdict::Paid => RecordStatus::Paid,
            Verdict::Denied => RecordStatus::Denied,
            Verdict::Pended(_) => RecordStatus::Pended,
        }
    }
}

/// The number of records with each status. A count that reaches 2^64 - 1 stays there.
#[derive(Clone, Copy)]
pub struct RecordCounts {
    pub paid: u64,
    pub denied: u64,
    pub pended: u64,
    pub refused: u64,
    pub late: u64,
}

impl RecordCounts {
    /// Returns the counts of no records.
    pub fn new() -> RecordCounts
        ensures { result ≡ no_records }
    {
        RecordCounts {
            paid: 0,
            denied: 0,
            pended: 0,
            refused: 0,
            late: 0,
        }
    }

    /// Counts one more record.
    pub fn add(&mut self, status: RecordStatus)
        ensures { self.new ≡ counted self.old status }
    {
        match status {
            RecordStatus::Paid => self.paid = self.paid.saturating_add(1),
            RecordStatus::Denied => self.denied = self.denied.saturating_add(1),
            RecordStatus::Pended => self.pended = self.pended.saturating_add(1),
            RecordStatus::Refused => self.refused = self.refused.saturating_add(1),
            RecordStatus::Late => self.late = self.late.saturating_add(1),
        }
    }

    /// Returns the sums of these counts and others, each at most 2^64 - 1.
    pub fn plus(self, others: RecordCounts) -> RecordCounts {
        RecordCounts {
            paid: self.paid.saturating_add(others.paid),
            denied: self.denied.saturating_add(others.denied),
            pended: self.pended.saturating_add(others.pended),
            refused: self.refused.saturating_add(others.refused),
            late: self.late.saturating_add(others.late),
        }
    }

    /// Returns the number of all records, at most 2^64 - 1.
    pub fn records(&self) -> u64 {
        self.paid
            .saturating_add(self.denied)
            .saturating_add(self.pended)
            .saturating_add(self.refused)
            .saturating_add(self.late)
    }
}

/// The number of records of a file that were refused for one fault.
#[derive(Clone, Copy)]
pub struct RefusalCount {
    pub fault: RowFault,
    pub count: u64,
}

impl RefusalCount {
    /// Returns the reason as the remittance prints it, for example `value:3`.
    pub fn reason(&self, alloc: Global) -> Result<String, AllocError>
        ensures { IfOk result (λ text. string_bytes text ≡ fault_text self.now.fault) }
    {
        reason_of_refusal(alloc, self.fault)
    }
}

/// The counts of the records of a provider's file.
pub struct FileCounts {
    pub counts: RecordCounts,
    refusals: Vec<RefusalCount>,
}

impl Drop for FileCounts {
    fn drop(self) {
        let FileCounts {
            counts: _,
            refusals: _,
        } = self;
    }
}

impl FileCounts {
    fn new(alloc: Global) -> FileCounts
        ensures { result.counts ≡ no_records }
    {
        FileCounts {
            counts: RecordCounts::new(),
            refusals: Vec::new(alloc),
        }
    }

    // Counts the row with this summary.
    fn add(
        &mut self,
        decisions: &Decisions,
        provider: usize,
        summary: &RowSummary,
    ) -> Result<(), AllocError>
        requires { 1 ≤ provider }
        ensures { OnOk result ((source : Fields) (row : AnyRow) → IsSummaryOf source summary.now row
            → self.new.counts ≡ counted self.old.counts
            (status_of_row (looked_up decisions.now) provider row)) }
    {
        match summary {
            RowSummary::Good { place, .. } => {
                let outcome = decisions.outcome(provider, *place);
                self.counts.add(RecordStatus::of_outcome(outcome));
                Ok(())
            }
            RowSummary::Bad { fault, .. } => {
                self.counts.add(RecordStatus::Refused);
                count_refusal(&mut self.refusals, *fault)
            }
        }
    }

    /// Returns the fault for which most records of the file were refused, or `None` if no record
    /// was refused. Of several such faults it returns the one that occurs first in the file.
    pub fn most_frequent_refusal(&self) -> Option<RefusalCount> {
        let mut most: Option<RefusalCount> = None;
        for refusal in self.refusals.as_slice() {
            let is_more = match most {
                Some(known) => refusal.count > known.count,
                None => true,
            };
            if is_more {
                most = Some(*refusal);
            }
        }
        most
    }
}

fn count_refusal(refusals: &mut Vec<RefusalCount>, fault: RowFault) -> Result<(), AllocError> {
    for known in refusals.iter_mut() {
        if known.fault == fault {
            known.count = known.count.saturating_add(1);
            return Ok(());
        }
    }
    refusals.push(RefusalCount { fault, count: 1 })?;
    Ok(())
}

/// The counts of the records of a run, and the total that the plan pays.
pub struct RunCounts {
    /// The counts of the providers' files, in their order.
    pub files: Vec<FileCounts>,
    // The total that the plan pays, in units.
    paid: u128,
}

impl Drop for RunCounts {
    fn drop(self) {
        let RunCounts { files: _, paid: _ } = self;
    }
}

impl RunCounts {
    /// Returns the total that the plan pays for all claims, as money with two decimals.
    pub fn paid_text(&self, alloc: Global) -> Result<String, AllocError>
        ensures { IfOk result (λ text. string_bytes text ≡ money_text (pos self.now.paid)) }
    {
        sum_text(alloc, self.paid)
    }
}

/// Counts the records of each provider's file by their status in the remittance of this run. The
/// files are read once more for this purpose.
pub fn count_run(alloc: Global, terms: &Terms, batch: &Batch) -> Result<RunCounts, AllocError>
    requires same_terms { batch.now.terms ≡ terms.now }
    ensures { IfOk result (AreRunCounts terms.now batch.now.journal) }
{
    let journal = batch.journal();
    let providers = terms.files().len();
    let decisions = Decisions::new(alloc, terms, providers, journal)?;
    let files = count_files(alloc, terms, &decisions, providers)?;
    let paid = Sums::over(journal).paid();
    Ok(RunCounts { files, paid })
}

fn count_files(
    alloc: Global,
    terms: &Terms,
    decisions: &Decisions,
    providers: usize,
) -> Result<Vec<FileCounts>, AllocError>
    requires { providers ≡ length terms.now.files }
    ensures { IfOk result (λ files. EachIsCounted (looked_up decisions.now)
        terms.now.plan.names terms.now.files (map (λ file. file.counts) files.items)) }
{
    let mut files = Vec::new(alloc);
    for place in 0..providers {
        files.push(count_file(alloc, terms, decisions, place + 1)?)?;
    }
    Ok(files)
}

fn count_file(
    alloc: Global,
    terms: &Terms,
    decisions: &Decisions,
    provider: usize,
) -> Result<FileCounts, AllocError>
    requires least { 1 ≤ provider }
    requires most { provider ≤ length terms.now.files }
    ensures { IfOk result (λ file. IsCounted (looked_up decisions.now) provider
        terms.now.plan.names (get_or terms.now.files (provider - 1) []) file.counts) }
{
    // proof: the remaining rows of a new reader are all rows of the file
    intake_csv::reader_begins_with_all_rows();
    let rows = terms.rows(alloc, provider)?;
    count_rows(alloc, decisions, provider, rows)
}

// Counts the remaining rows of a reader.
fn count_rows(
    alloc: Global,
    decisions: &Decisions,
    provider: usize,
    rows: Rows,
) -> Result<FileCounts, AllocError>
    requires { 1 ≤ provider }
    ensures { IfOk result (λ file.
        LeftIsCounted (looked_up decisions.now) provider rows.entry file.counts) }
{
    // proof: a reader returns the first of its remaining rows, and no row after the last one
    intake_csv::given_row_is_the_first();
    intake_csv::no_records_give_no_rows();
    let mut rows = rows;
    let mut source = CsvRecord::new(alloc);
    let mut file = FileCounts::new(alloc);
    loop {
        let Ok(next) = rows.next_summary(&mut source) else {
            return Err(AllocError);
        };
        let Some(summary) = next else {
            return Ok(file);
        };
        file.add(decisions, provider, &summary)?;
    }
}
