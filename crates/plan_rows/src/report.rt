//! The report on all rows: the lines of each row, and the counts.

ghost use Rattle.std.specs.Prelude.{◌≡◌, ◌≢◌, ◌++◌, ◌∷◌, [], List, IfOk, IfErr, OnOk, map};
ghost use Rattle.csv.specs.Records.{fields_of};
ghost use Rattle.plan_rows.specs.Columns.{AreApart, AreOfNames, GivesNeeded};
ghost use Rattle.plan_rows.specs.Report.{CanGrow, IsReport, IsTextOf, IsTextOfRecords, count_text, counts_line, counts_of, tested_of};
ghost use Rattle.plan_rows.specs.Stop.{RefusesCases, RefusesRecords};
ghost use Rattle.plan_rows.specs.declared.judging.Judgement.{Judgement as AnyJudgement};

use crate::columns::{Column, read_columns};
use crate::judging::{Judgement, judge_row};
use crate::lines::append_number;
use crate::records::read_records;
use crate::stop::{CasesFault, TestStop};
use crate::testing::{CASES_LIMIT_BYTES, Tested};
use csv::ByteRecord;
use std::alloc::{AllocError, Global};
use tables::Plan;

/// The text of the report, and whether there is a row and all rows are right.
#[derive(Drop)]
pub struct Report {
    pub text: Vec<u8>,
    pub tested: Tested,
}

/// The numbers of rows by their judgement.
#[derive(Clone, Copy)]
struct Counts {
    rows: usize,
    right: usize,
    wrong: usize,
    refused: usize,
}

/// Tests the rows of a file under the plan.
pub fn report_of(alloc: Global, plan: &Plan, cases: &[u8]) -> Result<Report, TestStop>
    ensures report { IfOk result (λ report.
        IsTextOf plan.now cases.now report.tested report.text.items) }
    ensures refused { IfErr result (RefusesCases plan.now cases.now) }
{
    if cases.len() > CASES_LIMIT_BYTES {
        return Err(TestStop::Cases(CasesFault::TooLarge));
    }
    let records = read_records(alloc, cases)?;
    let report = report_of_records(alloc, plan, records.as_slice());
    drop(records);
    report
}

fn report_of_records(alloc: Global, plan: &Plan, records: &[ByteRecord]) -> Result<Report, TestStop>
    ensures report { IfOk result (λ report.
        IsTextOfRecords plan.now (map fields_of records.now) report.tested report.text.items) }
    ensures refused { IfErr result (RefusesRecords plan.now (map fields_of records.now)) }
{
    let [header, rows @ ..] = records else {
        return Err(TestStop::Cases(CasesFault::NoHeader));
    };
    let columns = read_columns(alloc, plan, header)?;
    let report = judge_rows(alloc, plan, columns.as_slice(), rows);
    drop(columns);
    Ok(report?)
}

fn judge_rows(
    alloc: Global,
    plan: &Plan,
    columns: &[Column<'_>],
    rows: &[ByteRecord],
) -> Result<Report, AllocError>
    requires apart { AreApart columns.now }
    requires named { AreOfNames plan.now.names columns.now }
    requires needed { GivesNeeded plan.now columns.now }
    ensures { IfOk result (λ report. IsReport plan.now columns.now (map fields_of rows.now)
        report.tested report.text.items) }
{
    let mut text = Vec::new(alloc);
    let mut counts = Counts::new();
    for (index, row) in rows.iter().enumerate() {
        let judged = judge_row(alloc, plan, columns, index + 1, row)?;
        text.extend_from_slice(judged.text.as_slice())?;
        counts.add(judged.judgement);
    }
    append_counts(&mut text, counts)?;
    Ok(Report {
        text,
        tested: counts.outcome(),
    })
}

impl Counts {
    fn new() -> Counts
        ensures { result ≡ counts_of [] }
    {
        Counts {
            rows: 0,
            right: 0,
            wrong: 0,
            refused: 0,
        }
    }

    fn add(&mut self, judgement: Judgement)
        requires { CanGrow self.old }
        ensures { (judgements : List AnyJudgement) → self.old ≡ counts_of judgements
            → self.new ≡ counts_of (judgements ++ judgement ∷ []) }
    {
        self.rows += 1;
        match judgement {
            Judgement::Right => self.right += 1,
            Judgement::Wrong => self.wrong += 1,
            Judgement::Refused => self.refused += 1,
        }
    }

    fn outcome(self) -> Tested
        ensures { (judgements : List AnyJudgement) → self ≡ counts_of judgements
            → result ≡ tested_of judgements }
    {
        if self.rows == 0 {
            return Tested::Differing;
        }
        self.outcome_of_rows()
    }

    fn outcome_of_rows(self) -> Tested
        requires { self.rows ≢ 0 }
        ensures { (judgements : List AnyJudgement) → self ≡ counts_of judgements
            → result ≡ tested_of judgements }
    {
        if self.right == self.rows {
            Tested::AllRight
        } else {
            Tested::Differing
        }
    }
}

fn append_counts(text: &mut Vec<u8>, counts: Counts) -> Result<(), AllocError>
    ensures { OnOk result (text.new.items ≡ text.old.items ++ counts_line counts) }
{
    append_count(text, "rows ", counts.rows)?;
    append_count(text, " right ", counts.right)?;
    append_count(text, " wrong ", counts.wrong)?;
    append_count(text, " refused ", counts.refused)?;
    text.push(b'\n')?;
    Ok(())
}

fn append_count(text: &mut Vec<u8>, words: &str, count: usize) -> Result<(), AllocError>
    ensures { OnOk result (text.new.items ≡ text.old.items ++ count_text words.now count) }
{
    text.extend_from_slice(words.as_bytes())?;
    append_number(text, count)
}
