//! The command `check`: it reports the gaps of a table, which are inputs that no rule covers, and
//! its overlaps, which are pairs of rules that can match together. It reports all of them, or only
//! those that are errors under the table's hit policy.

ghost use Rattle.std.specs.Prelude.{◌≡◌, ◌<◌, true, IfOk, IfErr, OnErr, OnOk, length};
ghost use Rattle.std.specs.Io.KnownBytes.{Appends};
ghost use Rattle.fixpoint.specs.Out.{writer_of, has_failed};
ghost use Rattle.evaluation.specs.Stop.{PutsUntil, RefusesPlan, WritesText, WritesUntil as WritesUntilValueStop, IsPlanReason as IsPlanReasonOfValue, failed_after as failed_after_value};
ghost use Rattle.check_report.specs.CheckText.{IsCheckText};
ghost use Rattle.check_report.specs.ErrorsText.{IsErrorsCheckText};
ghost use Rattle.check_report.specs.Findings.{IsReportedText};
ghost use Rattle.fixpoint.specs.BufferedOut.{greatest_count};
ghost use Rattle.orders.specs.Stop.{WritesUntil, IsPlanReason, failed_after};
ghost use Rattle.check_report.specs.CheckReport.{reported_text};

pub mod report;
pub mod text;

use dtable::read_plan;
use evaluation::ValueStop;
use fixpoint::{Out, ShortWrite};
use orders::Stop;
use report::{CheckReport, Findings};
use std::alloc::Global;
use std::io::Write;
use text::{checked_report, put_report};

/// Checks the plan's tables, and writes a line for each pair of rules that can match together
/// (`overlap`), a line for each region of inputs that no rule covers (`gap`), a line for each table
/// with too many regions (`wide`), and the counts.
///
/// The check is complete before the first byte is written, so that only the writer can fail after
/// that. The text is written in pieces, and memory holds no more than one piece of it.
pub fn do_check<W: Write>(alloc: Global, plan: &[u8], out: &mut Out<W>) -> Result<(), Stop>
    ensures written { OnOk result (WritesText (IsCheckText plan.now)
        (W.contents (writer_of out.old)) (W.contents (writer_of out.new))) }
    ensures reason { IfErr result (IsPlanReason plan.now) }
    ensures stopped { IfErr result (WritesUntil (IsCheckText plan.now)
        (W.contents (writer_of out.old)) (W.contents (writer_of out.new))) }

    // The writer has failed after a write fault, and otherwise only if it had failed before.
    ensures ok_failed { OnOk result (has_failed out.new ≡ has_failed out.old) }
    ensures failed { IfErr result (λ stop.
        has_failed out.new ≡ failed_after (has_failed out.old) stop) }
{
    do_findings_check(alloc, plan, Findings::All, out)
}

/// Checks the plan's tables as `do_check` does, but reports only the gaps and overlaps that are
/// errors: a gap of a table whose value is the fault `norule` in it, and an overlap of rules that
/// clash if both match. A wide table is reported if a gap of it would be. The counts are those of
/// the reported gaps and overlaps.
pub fn do_errors_check<W: Write>(alloc: Global, plan: &[u8], out: &mut Out<W>) -> Result<(), Stop>
    ensures written { OnOk result (WritesText (IsErrorsCheckText plan.now)
        (W.contents (writer_of out.old)) (W.contents (writer_of out.new))) }
    ensures reason { IfErr result (IsPlanReason plan.now) }
    ensures stopped { IfErr result (WritesUntil (IsErrorsCheckText plan.now)
        (W.contents (writer_of out.old)) (W.contents (writer_of out.new))) }

    // The writer has failed after a write fault, and otherwise only if it had failed before.
    ensures ok_failed { OnOk result (has_failed out.new ≡ has_failed out.old) }
    ensures failed { IfErr result (λ stop.
        has_failed out.new ≡ failed_after (has_failed out.old) stop) }
{
    do_findings_check(alloc, plan, Findings::Errors, out)
}

/// Checks the plan's tables as `do_check` does, or as `do_errors_check` does.
pub fn do_findings_check<W: Write>(
    alloc: Global,
    plan: &[u8],
    findings: Findings,
    out: &mut Out<W>,
) -> Result<(), Stop>
    ensures written { OnOk result (WritesText (IsReportedText findings plan.now)
        (W.contents (writer_of out.old)) (W.contents (writer_of out.new))) }
    ensures reason { IfErr result (IsPlanReason plan.now) }
    ensures stopped { IfErr result (WritesUntil (IsReportedText findings plan.now)
        (W.contents (writer_of out.old)) (W.contents (writer_of out.new))) }
    ensures ok_failed { OnOk result (has_failed out.new ≡ has_failed out.old) }
    ensures failed { IfErr result (λ stop.
        has_failed out.new ≡ failed_after (has_failed out.old) stop) }
{
    match put_report_of_text(alloc, plan, findings, out) {
        Ok(()) => Ok(()),
        Err(stop) => Err(Stop::Value(stop)),
    }
}

// Does the check with the narrower error type of a command that reads only a plan.
#[tactic(auto, using(crate::proofs::Refusals::writes_whole, crate::proofs::Refusals::writes_front))]
fn put_report_of_text<W: Write>(
    alloc: Global,
    plan: &[u8],
    findings: Findings,
    out: &mut Out<W>,
) -> Result<(), ValueStop>
    ensures written { OnOk result (WritesText (IsReportedText findings plan.now)
        (W.contents (writer_of out.old)) (W.contents (writer_of out.new))) }
    ensures reason { IfErr result (IsPlanReasonOfValue plan.now) }
    ensures stopped { IfErr result (WritesUntilValueStop (IsReportedText findings plan.now)
        (W.contents (writer_of out.old)) (W.contents (writer_of out.new))) }
    ensures ok_failed { OnOk result (has_failed out.new ≡ has_failed out.old) }
    ensures failed { IfErr result (λ stop.
        has_failed out.new ≡ failed_after_value (has_failed out.old) stop) }
{
    let reported = report_of_text(alloc, plan, findings)?;
    put_check(alloc, &reported, out)
}

#[tactic(auto, using(crate::proofs::Refusals::refuses_spelling, crate::proofs::Spelled::reported_is_spelled))]
fn report_of_text(alloc: Global, plan: &[u8], findings: Findings) -> Result<CheckReport, ValueStop>
    ensures text { IfOk result (λ reported.
        IsReportedText findings plan.now (reported_text reported)) }
    ensures counted { IfOk result (λ reported. length (reported_text reported) < greatest_count) }
    ensures refused { IfErr result (RefusesPlan plan.now) }
{
    let plan = read_plan(alloc, plan)?;
    let reported = checked_report(alloc, &plan, findings);
    drop(plan);
    Ok(reported?)
}

// Writes the text of the report.
fn put_check<W: Write>(
    alloc: Global,
    reported: &CheckReport,
    out: &mut Out<W>,
) -> Result<(), ValueStop>
    requires { length (reported_text reported.now) < greatest_count }
    ensures ok { OnOk result (Appends (W.contents (writer_of out.old))
        (W.contents (writer_of out.new)) (reported_text reported.now)) }
    ensures ok_failed { OnOk result (has_failed out.new ≡ has_failed out.old) }
    ensures err { IfErr result (PutsUntil (reported_text reported.now)
        (W.contents (writer_of out.old)) (W.contents (writer_of out.new))) }
    ensures failed { OnErr result (has_failed out.new ≡ true) }
{
    match put_report(alloc, reported, out) {
        Ok(_) => Ok(()),
        Err(ShortWrite { written }) => Err(ValueStop::Write { written }),
    }
}
