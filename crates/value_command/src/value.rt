//! The command `value`: reads the plan, and writes the outputs of its tables.

ghost use Rattle.std.specs.Prelude.{◌≡◌, ◌≢◌};
ghost use Rattle.std.specs.Io.KnownBytes.{Keeps};
ghost use Rattle.console.specs.declared.exit_status.ExitStatus.TheVariants.{Done, Refused};
ghost use Rattle.evaluation.specs.Arguments.{argument_texts};
ghost use Rattle.evaluation.specs.Stop.{IsReason};
ghost use Rattle.evaluation.specs.ValueText.{IsValueText};
ghost use Rattle.value_command.specs.Ends.{HasText, IsStatusOfRefusal, PutsText, ValueIsDone, ValueIsRefused};
ghost use Rattle.value_command.specs.Words.{words_at};

use crate::error_line::exit_status_of;
use crate::explaining::explain_refusal;
use crate::explanation::About;
use crate::files::plan_of;
use crate::output::{commit_output, output_of, report_unwritable};
use clap::ArgMatches;
use console::names::ASSIGNMENT;
use console::{AtomicTarget, ExitStatus, Sources};
use evaluation::do_value;
use fixpoint::Out;
use std::io;
use std::rt::Files;

/// Runs the command `value`, and returns its exit status.
pub fn value_of<R: Files + Print + Eprint + AllocGlobal, S: Sources>(
    rt: &R,
    sources: &S,
    matches: &ArgMatches<'_>,
    explains: bool,
) -> ExitStatus
    ensures done { result ≡ Done → ValueIsDone (S.whole sources.now) matches.now }
    ensures refused { result ≡ Refused → ValueIsRefused (S.whole sources.now) matches.now result }
{
    let plan = match plan_of(rt, sources, matches, explains) {
        Ok(plan) => plan,
        Err(status) => return status,
    };
    value_plan(rt, matches, plan.as_slice(), explains)
}

/// Writes to the file of `--output` if there is one, and otherwise to standard output.
fn value_plan<R: Files + Print + Eprint + AllocGlobal>(
    rt: &R,
    matches: &ArgMatches<'_>,
    plan: &[u8],
    explains: bool,
) -> ExitStatus
    ensures done { result ≡ Done
        → HasText (IsValueText plan.now (words_at matches.now ASSIGNMENT.now)) }
    ensures refused { result ≢ Done → IsStatusOfRefusal
        (IsReason plan.now (words_at matches.now ASSIGNMENT.now)) result }
{
    let assignments = matches.get_strs(ASSIGNMENT).unwrap_or(&[]);
    let about = About {
        explains,
        words: matches,
        plan,
    };
    match output_of(rt, &about) {
        Ok(Some(mut file)) => value_into(rt, &about, plan, assignments, &mut file),
        Ok(None) => value(rt, &about, plan, assignments),
        Err(status) => status,
    }
}

#[tactic(auto, using(crate::proofs::Ends::ends_done))]
fn value<R: Print + Eprint + AllocGlobal>(
    rt: &R,
    about: &About,
    plan: &[u8],
    assignments: &[&str],
) -> ExitStatus
    ensures done { result ≡ Done → HasText (IsValueText plan.now (argument_texts assignments.now)) }
    ensures refused { result ≢ Done → IsStatusOfRefusal
        (IsReason plan.now (argument_texts assignments.now)) result }
{
    let mut out = Out::new(io::writer(rt));
    let answer = do_value(rt.alloc(), plan, assignments, &mut out);
    let status = exit_status_of(rt, &answer);
    explain_refusal(rt, about, &answer);
    status
}

/// Writes to a place, whose text is replaced atomically.
#[tactic(auto, using(crate::proofs::Ends::placed_done, crate::proofs::Ends::kept_twice))]
fn value_into<R: Eprint + AllocGlobal, P: AtomicTarget>(
    rt: &R,
    about: &About,
    plan: &[u8],
    assignments: &[&str],
    place: &mut P,
) -> ExitStatus
    ensures done { result ≡ Done
        → PutsText (IsValueText plan.now (argument_texts assignments.now))
        (P.current place.old) (P.current place.new) }
    ensures kept { result ≢ Done → Keeps (P.current place.old) (P.current place.new) }
    ensures refused { result ≢ Done → IsStatusOfRefusal
        (IsReason plan.now (argument_texts assignments.now)) result }
{
    let text = match place.begin() {
        Ok(text) => text,
        Err(fault) => return report_unwritable(rt, about, &fault),
    };
    let mut out = Out::new(text);
    let outcome = do_value(rt.alloc(), plan, assignments, &mut out);
    let status = commit_output(rt, about, place, out.into_inner(), &outcome);
    explain_refusal(rt, about, &outcome);
    status
}
