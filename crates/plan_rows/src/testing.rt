//! The command `test`: it evaluates a plan's tables for each row of a file, and compares the values
//! with those that the row expects.

ghost use Rattle.std.specs.Prelude.{◌≡◌, IfOk, IfErr, OnOk};
ghost use Rattle.fixpoint.specs.Out.{writer_of, has_failed};
ghost use Rattle.evaluation.specs.Stop.{WritesText};
ghost use Rattle.plan_rows.specs.Report.{IsSomeTestText, IsTestText};
ghost use Rattle.plan_rows.specs.Stop.{IsReason, RefusesTexts, WritesUntil, failed_after};

use crate::report::{Report, report_of};
use crate::stop::TestStop;
use dtable::read_plan;
use evaluation::ValueStop;
use fixpoint::{Out, ShortWrite, put_all};
use std::alloc::Global;
use std::io::Write;

/// The greatest size of a file of tests in bytes, which is that of a claim file.
pub const CASES_LIMIT_BYTES: usize = 16_777_216;

/// Whether there is a row, and all rows are right.
#[derive(Clone, Copy, PartialEq, Eq)]
pub enum Tested {
    /// There is a row, and each row is right.
    AllRight,
    /// A row is wrong or refused, or there is none.
    Differing,
}

/// Tests a plan with the rows of a file. The first record names the columns: a name of the plan
/// gives its value, the name of an output expects its answer, a field of the remittance expects a
/// part of the settlement of a claim with the row's values, and `fault` expects a fault.
/// Writes a line for each expectation that is not met, a line for each row that can't be read, and
/// the counts. The whole text is made before its first byte is written.
#[tactic(auto, using(crate::proofs::Refusals::refused_is_reason, crate::proofs::Refusals::refused_keeps, crate::proofs::Refusals::refused_unfailed, crate::proofs::Refusals::writes_test, crate::proofs::Refusals::writes_front))]
pub fn do_test<W: Write>(
    alloc: Global,
    plan: &[u8],
    cases: &[u8],
    out: &mut Out<W>,
) -> Result<Tested, TestStop>
    ensures written { IfOk result (λ tested. WritesText (IsTestText plan.now cases.now tested)
        (W.contents (writer_of out.old)) (W.contents (writer_of out.new))) }
    ensures reason { IfErr result (IsReason plan.now cases.now) }
    ensures stopped { IfErr result (WritesUntil (IsSomeTestText plan.now cases.now)
        (W.contents (writer_of out.old)) (W.contents (writer_of out.new))) }

    // The writer has failed after a write fault, and otherwise only if it had failed before.
    ensures ok_failed { OnOk result (has_failed out.new ≡ has_failed out.old) }
    ensures failed { IfErr result (λ stop.
        has_failed out.new ≡ failed_after (has_failed out.old) stop) }
{
    let report = report_of_text(alloc, plan, cases)?;
    match put_all(report.text.as_slice(), out) {
        Ok(()) => Ok(report.tested),
        Err(ShortWrite { written }) => Err(TestStop::Value(ValueStop::Write { written })),
    }
}

fn report_of_text(alloc: Global, plan: &[u8], cases: &[u8]) -> Result<Report, TestStop>
    ensures report { IfOk result (λ report.
        IsTestText plan.now cases.now report.tested report.text.items) }
    ensures refused { IfErr result (RefusesTexts plan.now cases.now) }
{
    let plan = read_plan(alloc, plan)?;
    let report = report_of(alloc, &plan, cases);
    drop(plan);
    report
}
