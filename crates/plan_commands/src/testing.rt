//! The command `test`: reads the plan and a file of tests, and writes the rows that differ.

ghost use Rattle.std.specs.Prelude.{◌≡◌, ◌≢◌, ◌⊎◌, IfErr, IfOk, false, true};
ghost use Rattle.console.specs.declared.exit_status.ExitStatus.TheVariants.{Done, Refused};
ghost use Rattle.console.specs.ExitStatus.{IsUnjudged, code_of};
ghost use Rattle.plan_rows.specs.Stop.{status_of};
ghost use Rattle.plan_rows.specs.declared.testing.Tested.TheVariants as outcomes;
ghost use Rattle.plan_commands.specs.Testing.{IsDoneTest, IsNamedCases, IsRefusedTest, TestIsDone, TestIsRefused};

use crate::lines::report_open_quote;
use crate::test_explaining::explain_test;
use clap::ArgMatches;
use console::names::CASES;
use console::{AtomicTarget, ExitStatus, Sources, input_once};
use fixpoint::Out;
use plan_rows::{CASES_LIMIT_BYTES, TestStop, Tested, do_test};
use remarks::ends_in_quotes;
use std::io;
use std::rt::Files;
use value_command::{
    About, commit_output, exit_status_of, output_of, plan_of, read_or_report, report_unwritable,
};

/// Runs the command `test`, and returns its exit status: `Done` if there is a row, each row is right, and no row is lost in a quoted field.
pub fn test_of<R: Files + Print + Eprint + AllocGlobal, S: Sources>(
    rt: &R,
    sources: &S,
    matches: &ArgMatches<'_>,
    explains: bool,
) -> ExitStatus
    ensures done { result ≡ Done → TestIsDone (S.whole sources.now) matches.now }
    ensures refused { result ≡ Refused → TestIsRefused (S.whole sources.now) matches.now result }
{
    match input_once(rt, matches) {
        Ok(()) => test_named(rt, sources, matches, explains),
        Err(status) => status,
    }
}

fn test_named<R: Files + Print + Eprint + AllocGlobal, S: Sources>(
    rt: &R,
    sources: &S,
    matches: &ArgMatches<'_>,
    explains: bool,
) -> ExitStatus
    ensures done { result ≡ Done → TestIsDone (S.whole sources.now) matches.now }
    ensures refused { result ≡ Refused → TestIsRefused (S.whole sources.now) matches.now result }
{
    let plan = match plan_of(rt, sources, matches, explains) {
        Ok(plan) => plan,
        Err(status) => return status,
    };
    match cases_of(rt, sources, matches, explains) {
        Ok(cases) => test_texts(rt, matches, plan.as_slice(), cases.as_slice(), explains),
        Err(status) => status,
    }
}

/// Reads the file of tests. If it cannot be read, an error line is printed, and its status is returned.
fn cases_of<R: Eprint + AllocGlobal, S: Sources>(
    rt: &R,
    sources: &S,
    matches: &ArgMatches<'_>,
    explains: bool,
) -> Result<Vec<u8>, ExitStatus>
    ensures named { IfOk result (λ cases.
        IsNamedCases (S.whole sources.now) matches.now cases.items) }
    ensures failed { IfErr result IsUnjudged }
{
    match matches.get_str(CASES) {
        Some(name) => {
            let line = "cannot read tests";
            let cases = read_or_report(rt, sources, name, CASES_LIMIT_BYTES, line, explains)?;
            report_open_quote(rt, name, cases.as_slice());
            Ok(cases)
        }
        None => Err(ExitStatus::Usage),
    }
}

/// Writes to the file of `--output` if there is one, and otherwise to standard output.
fn test_texts<R: Files + Print + Eprint + AllocGlobal>(
    rt: &R,
    matches: &ArgMatches<'_>,
    plan: &[u8],
    cases: &[u8],
    explains: bool,
) -> ExitStatus
    ensures done { result ≡ Done → IsDoneTest plan.now cases.now }
    ensures refused { result ≡ Refused → IsRefusedTest plan.now cases.now result }
{
    let about = About {
        explains,
        words: matches,
        plan,
    };
    match output_of(rt, &about) {
        Ok(Some(mut file)) => test_into(rt, &about, plan, cases, &mut file),
        Ok(None) => test_out(rt, &about, plan, cases),
        Err(status) => status,
    }
}

fn test_out<R: Print + Eprint + AllocGlobal>(
    rt: &R,
    about: &About,
    plan: &[u8],
    cases: &[u8],
) -> ExitStatus
    ensures done { result ≡ Done → IsDoneTest plan.now cases.now }
    ensures refused { result ≡ Refused → IsRefusedTest plan.now cases.now result }
{
    match do_test(rt.alloc(), plan, cases, &mut Out::new(io::writer(rt))) {
        Ok(tested) => status_of_tests(tested, ends_in_quotes(cases)),
        Err(stop) => refuse(rt, about, cases, stop),
    }
}

/// Writes to a place, whose text is replaced atomically, also if rows differ.
fn test_into<R: Eprint + AllocGlobal, P: AtomicTarget>(
    rt: &R,
    about: &About,
    plan: &[u8],
    cases: &[u8],
    place: &mut P,
) -> ExitStatus
    ensures done { result ≡ Done → IsDoneTest plan.now cases.now }
    ensures refused { result ≡ Refused → IsRefusedTest plan.now cases.now result }
{
    let text = match place.begin() {
        Ok(text) => text,
        Err(fault) => return report_unwritable(rt, about, &fault),
    };
    let mut out = Out::new(text);
    match do_test(rt.alloc(), plan, cases, &mut out) {
        Ok(tested) => {
            let written: Result<(), TestStop> = Ok(());
            match commit_output(rt, about, place, out.into_inner(), &written) {
                ExitStatus::Done => status_of_tests(tested, ends_in_quotes(cases)),
                status => status,
            }
        }
        Err(stop) => {
            let answer = Err(stop);
            let status = commit_output(rt, about, place, out.into_inner(), &answer);
            explain_test(rt, about, cases, &answer);
            status
        }
    }
}

// If the file ends within a quoted field, tests are lost, so that the others do not suffice.
fn status_of_tests(tested: Tested, loses_rows: bool) -> ExitStatus
    ensures done { result ≡ Done → (tested ≡ outcomes.AllRight) × (loses_rows ≡ false) }
    ensures refused { result ≡ Refused → (tested ≡ outcomes.Differing) ⊎ (loses_rows ≡ true) }
{
    if loses_rows {
        return ExitStatus::Refused;
    }
    match tested {
        Tested::AllRight => ExitStatus::Done,
        Tested::Differing => ExitStatus::Refused,
    }
}

/// Prints an error of the library, and returns its status.
fn refuse<R: Eprint + AllocGlobal>(
    rt: &R,
    about: &About,
    cases: &[u8],
    stop: TestStop,
) -> ExitStatus
    ensures status { code_of result ≡ status_of stop }
    ensures not_done { result ≢ Done }
{
    let answer = Err(stop);
    let status = exit_status_of(rt, &answer);
    explain_test(rt, about, cases, &answer);
    status
}
