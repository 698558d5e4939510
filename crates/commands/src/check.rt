//! The command `check`: reads the plan, and writes its gaps and overlaps, or what pends claims over all tables together.

ghost use Rattle.std.specs.Prelude.{◌≡◌, ◌≢◌};
ghost use Rattle.console.specs.declared.exit_status.ExitStatus.TheVariants.{Done, Refused};
ghost use Rattle.std.specs.Io.KnownBytes.{Keeps};
ghost use Rattle.orders.specs.Stop.{IsPlanReason};
ghost use Rattle.check_report.specs.Findings.{IsReportedText};
ghost use Rattle.value_command.specs.Ends.{HasText, PutsText};
ghost use Rattle.commands.specs.Ends.{CheckIsDone, CheckIsRefused, IsChecked, IsUnchecked};
ghost use Rattle.claim_console.specs.Ends.{IsStatusOfRefusal};

use crate::words::{findings_of, is_whole};
use adjudicate::{Findings, do_findings_check};
use claim_console::{AboutFiles, explain_refusal, is_strict, print_unknown_keys, refuse_unused};
use claim_diagnostics::explain_checked_plan;
use clap::ArgMatches;
use console::{AtomicTarget, ExitStatus, Sources};
use fixpoint::Out;
use plan_commands::check_whole_plan;
use remarks::empty_cells;
use std::io;
use std::rt::Files;
use value_command::{
    About, commit_output, exit_status_of, output_of, plan_of, print_message, report_unwritable,
};

/// Runs the command `check`, and returns its exit status.
#[tactic(auto, using(crate::proofs::Checks::check_done, crate::proofs::Checks::check_refused))]
pub fn check_of<R: Files + Print + Eprint + AllocGlobal, S: Sources>(
    rt: &R,
    sources: &S,
    matches: &ArgMatches<'_>,
    explains: bool,
) -> ExitStatus
    ensures done { result ≡ Done → CheckIsDone (S.whole sources.now) matches.now }
    ensures refused { result ≡ Refused → CheckIsRefused (S.whole sources.now) matches.now result }
{
    let plan = match plan_of(rt, sources, matches, explains) {
        Ok(plan) => plan,
        Err(status) => return status,
    };
    let about = About {
        explains,
        words: matches,
        plan: plan.as_slice(),
    };
    let status = checked_status(rt, &about);
    explain_checked(rt, &about, status);
    if is_strict(matches) {
        return strict_status(rt, about.plan, status);
    }
    if explains && status == ExitStatus::Done {
        print_unknown_keys(rt, about.plan);
    }
    status
}

/// Checks all tables together, or each of them alone.
#[tactic(auto, using(crate::proofs::Checks::whole_checked, crate::proofs::Checks::whole_unchecked, crate::proofs::Checks::tables_checked, crate::proofs::Checks::tables_unchecked))]
fn checked_status<R: Files + Print + Eprint + AllocGlobal>(rt: &R, about: &About) -> ExitStatus
    ensures done { result ≡ Done → IsChecked about.now.words.now about.now.plan.now }
    ensures refused { result ≡ Refused
        → IsUnchecked about.now.words.now about.now.plan.now result }
{
    if is_whole(about.words) {
        check_whole_plan(rt, about)
    } else {
        check_plan(rt, about, findings_of(about.words))
    }
}

// Explains what a checked plan has that its writer cannot have meant. If memory runs out for it, it is left out.
fn explain_checked<R: Eprint + AllocGlobal>(rt: &R, about: &About, status: ExitStatus) {
    if about.explains
        && status == ExitStatus::Done
        && let Ok(empty) = empty_cells(rt.alloc(), about.plan)
    {
        print_message(
            rt,
            explain_checked_plan(rt.alloc(), about.plan, empty.as_slice()),
        );
    }
}

/// The status under `--strict` of a check that has this status without it. Unknown keys are reported for an invalid plan, too, since they may be the
/// reason.
fn strict_status<R: Eprint + AllocGlobal>(rt: &R, plan: &[u8], status: ExitStatus) -> ExitStatus
    ensures { result ≡ Done → status ≡ Done }
{
    if status == ExitStatus::Usage || status == ExitStatus::Resource {
        return status;
    }
    match refuse_unused(rt, plan) {
        Ok(()) => status,
        Err(unused) => unused,
    }
}

/// Writes to the file of `--output` if there is one, and otherwise to standard output.
fn check_plan<R: Files + Print + Eprint + AllocGlobal>(
    rt: &R,
    about: &About,
    findings: Findings,
) -> ExitStatus
    ensures done { result ≡ Done → HasText (IsReportedText findings about.now.plan.now) }
    ensures refused { result ≢ Done → IsStatusOfRefusal (IsPlanReason about.now.plan.now) result }
{
    match output_of(rt, about) {
        Ok(Some(mut file)) => check_into(rt, about, about.plan, findings, &mut file),
        Ok(None) => check(rt, about, about.plan, findings),
        Err(status) => status,
    }
}

#[tactic(auto, using(crate::proofs::Ends::ends_done))]
fn check<R: Print + Eprint + AllocGlobal>(
    rt: &R,
    about: &About,
    plan: &[u8],
    findings: Findings,
) -> ExitStatus
    ensures done { result ≡ Done → HasText (IsReportedText findings plan.now) }
    ensures refused { result ≢ Done → IsStatusOfRefusal (IsPlanReason plan.now) result }
{
    let mut out = Out::new(io::writer(rt));
    let answer = do_findings_check(rt.alloc(), plan, findings, &mut out);
    let status = exit_status_of(rt, &answer);
    explain_refusal(rt, &AboutFiles::of_plan(*about), &answer);
    status
}

/// Writes to a place, whose text is replaced atomically.
#[tactic(auto, using(crate::proofs::Ends::placed_done, crate::proofs::Ends::kept_twice))]
fn check_into<R: Eprint + AllocGlobal, P: AtomicTarget>(
    rt: &R,
    about: &About,
    plan: &[u8],
    findings: Findings,
    place: &mut P,
) -> ExitStatus
    ensures done { result ≡ Done
        → PutsText (IsReportedText findings plan.now) (P.current place.old) (P.current place.new) }
    ensures kept { result ≢ Done → Keeps (P.current place.old) (P.current place.new) }
    ensures refused { result ≢ Done → IsStatusOfRefusal (IsPlanReason plan.now) result }
{
    let text = match place.begin() {
        Ok(text) => text,
        Err(fault) => return report_unwritable(rt, about, &fault),
    };
    let mut out = Out::new(text);
    let outcome = do_findings_check(rt.alloc(), plan, findings, &mut out);
    let status = commit_output(rt, about, place, out.into_inner(), &outcome);
    explain_refusal(rt, &AboutFiles::of_plan(*about), &outcome);
    status
}
