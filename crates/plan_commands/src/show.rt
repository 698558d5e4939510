//! The command `show`: shows the tables of a plan, in boxes or as a page in HTML.

ghost use Rattle.std.specs.Prelude.{◌≡◌, ◌≢◌, ◌⊎◌, IfErr, IfOk};
ghost use Rattle.console.specs.declared.exit_status.ExitStatus.TheVariants.{Done, Refused};
ghost use Rattle.console.specs.ExitStatus.{IsUnjudged, code_of};
ghost use Rattle.evaluation.specs.Stop.{IsPlanReason, status_of};
ghost use Rattle.plan_commands.specs.Ends.{ShowIsDone, ShowIsRefused};
ghost use Rattle.plan_commands.specs.Pages.{DenotesPlan, IsNamedOld, IsRefusedBeside};
ghost use Rattle.value_command.specs.Ends.{IsStatusOfRefusal};

use crate::pages::{Asked, put_page};
use clap::ArgMatches;
use clap::parser::ValueSource;
use console::names::{HTML, OLD, OUTPUT, WIDTH};
use console::{ExitStatus, Sources, input_once};
use diagnostics::explain_plan;
use dtable::{PLAN_LIMIT_BYTES, read_plan};
use evaluation::ValueStop;
use std::rt::Files;
use value_command::{About, exit_status_of, plan_of, print_message, read_or_report};

/// The width of lines that are not for a terminal, in columns.
const FILE_WIDTH: usize = 100;

/// Runs the command, and returns its exit status.
pub fn show_of<R: Files + Print + Eprint + AllocGlobal, S: Sources>(
    rt: &R,
    sources: &S,
    matches: &ArgMatches<'_>,
    explains: bool,
) -> ExitStatus
    ensures done { result ≡ Done → ShowIsDone (S.whole sources.now) matches.now }
    ensures refused { result ≡ Refused → ShowIsRefused (S.whole sources.now) matches.now result }
{
    match input_once(rt, matches) {
        Ok(()) => show_named(rt, sources, matches, explains),
        Err(status) => status,
    }
}

fn show_named<R: Files + Print + Eprint + AllocGlobal, S: Sources>(
    rt: &R,
    sources: &S,
    matches: &ArgMatches<'_>,
    explains: bool,
) -> ExitStatus
    ensures done { result ≡ Done → ShowIsDone (S.whole sources.now) matches.now }
    ensures refused { result ≡ Refused → ShowIsRefused (S.whole sources.now) matches.now result }
{
    let plan = match plan_of(rt, sources, matches, explains) {
        Ok(plan) => plan,
        Err(status) => return status,
    };
    let about = About {
        explains,
        words: matches,
        plan: plan.as_slice(),
    };
    show_plan(rt, sources, &about)
}

#[tactic(auto, using(crate::proofs::PageStatuses::refused_alone))]
fn show_plan<R: Files + Print + Eprint + AllocGlobal, S: Sources>(
    rt: &R,
    sources: &S,
    about: &About,
) -> ExitStatus
    ensures done { result ≡ Done → DenotesPlan about.now.plan.now }
    ensures refused { result ≡ Refused → IsRefusedBeside (S.whole sources.now)
        about.now.words.now about.now.plan.now result }
{
    if about.words.get_str(OLD).is_some() {
        return show_beside(rt, sources, about);
    }
    put_page(rt, about, asked_of(about.words))
}

fn asked_of(matches: &ArgMatches<'_>) -> Asked<'static> {
    if matches.get_flag(HTML) {
        Asked::Html(None)
    } else {
        Asked::Boxes(width_of(matches))
    }
}

/// The width of lines, in columns. That of the terminal is a default value, which is not for the file of `--output`.
fn width_of(matches: &ArgMatches<'_>) -> usize {
    let is_given = matches.value_source(WIDTH) == Some(ValueSource::CommandLine);
    if is_given || matches.get_str(OUTPUT).is_none() {
        matches.get_one::<usize>(WIDTH).unwrap_or(FILE_WIDTH)
    } else {
        FILE_WIDTH
    }
}

/// Shows a plan beside an old one, for which the command line asks only with `--html`.
fn show_beside<R: Files + Print + Eprint + AllocGlobal, S: Sources>(
    rt: &R,
    sources: &S,
    about: &About,
) -> ExitStatus
    ensures done { result ≡ Done → DenotesPlan about.now.plan.now }
    ensures refused { result ≡ Refused → IsRefusedBeside (S.whole sources.now)
        about.now.words.now about.now.plan.now result }
{
    match old_plan_of(rt, sources, about) {
        Ok(old) => show_texts(rt, about, old.as_slice()),
        Err(status) => status,
    }
}

/// Reads the old plan. If it cannot be read, an error line is printed, and its status is returned.
fn old_plan_of<R: Eprint + AllocGlobal, S: Sources>(
    rt: &R,
    sources: &S,
    about: &About,
) -> Result<Vec<u8>, ExitStatus>
    ensures named { IfOk result (λ old.
        IsNamedOld (S.whole sources.now) about.now.words.now old.items) }
    ensures failed { IfErr result IsUnjudged }
{
    match about.words.get_str(OLD) {
        Some(name) => {
            let line = "cannot read plan";
            read_or_report(rt, sources, name, PLAN_LIMIT_BYTES, line, about.explains)
        }
        None => Err(ExitStatus::Usage),
    }
}

fn show_texts<R: Files + Print + Eprint + AllocGlobal>(
    rt: &R,
    about: &About,
    old: &[u8],
) -> ExitStatus
    ensures done { result ≡ Done → DenotesPlan about.now.plan.now }
    ensures refused { result ≢ Done → IsStatusOfRefusal (IsPlanReason about.now.plan.now) result
        ⊎ IsStatusOfRefusal (IsPlanReason old.now) result }
{
    match read_plan(rt.alloc(), old) {
        Ok(plan) => {
            let status = put_page(rt, about, Asked::Html(Some(&plan)));
            drop(plan);
            status
        }
        Err(fault) => refuse_old(rt, about, old, ValueStop::from(fault)),
    }
}

/// Prints the error of the old plan, and returns its status.
fn refuse_old<R: Eprint + AllocGlobal>(
    rt: &R,
    about: &About,
    old: &[u8],
    stop: ValueStop,
) -> ExitStatus
    ensures status { code_of result ≡ status_of stop }
    ensures not_done { result ≢ Done }
{
    if !matches!(stop, ValueStop::NoMemory) {
        let _ = rt.eprint("old plan: ");
    }
    let answer = Err(stop);
    let status = exit_status_of(rt, &answer);
    if about.explains
        && let Err(ValueStop::Plan(fault)) = &answer
    {
        print_message(rt, explain_plan(rt.alloc(), about.word(OLD), old, fault));
    }
    status
}
