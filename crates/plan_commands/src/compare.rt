//! The command `compare`: lists the values at which two plans differ, and how they do.

ghost use Rattle.std.specs.Prelude.{◌≡◌, IfErr, IfOk, false, true};
ghost use Rattle.console.specs.declared.exit_status.ExitStatus.TheVariants.{Done, Refused};
ghost use Rattle.console.specs.ExitStatus.{IsUnjudged};
ghost use Rattle.plan_commands.specs.Comparing.{AreComparedAsAsked, AreRefused, IsNamedOld};
ghost use Rattle.plan_commands.specs.Ends.{CompareIsDone, CompareIsRefused};
ghost use Rattle.plan_commands.specs.Words.{AsksFail, IsFail};

use crate::compare_refusal::{ComparedTexts, refuse_compare};
use crate::compare_report::{CompareReport, report_of};
use crate::words::fails;
use clap::ArgMatches;
use console::names::OLD;
use console::{AtomicTarget, ExitStatus, Sources, input_once};
use dtable::PLAN_LIMIT_BYTES;
use evaluation::ValueStop;
use fixpoint::{Out, put_all};
use std::io;
use std::rt::Files;
use value_command::{
    About, commit_output, exit_status_of, output_of, plan_of, read_or_report, report_unwritable,
};

/// Runs the command, and returns its exit status.
pub fn compare_of<R: Files + Print + Eprint + AllocGlobal, S: Sources>(
    rt: &R,
    sources: &S,
    matches: &ArgMatches<'_>,
    explains: bool,
) -> ExitStatus
    ensures done { result ≡ Done → CompareIsDone (S.whole sources.now) matches.now }
    ensures refused { result ≡ Refused → CompareIsRefused (S.whole sources.now) matches.now result }
{
    match input_once(rt, matches) {
        Ok(()) => compare_named(rt, sources, matches, explains),
        Err(status) => status,
    }
}

#[tactic(auto, using(crate::proofs::Comparisons::named_done, crate::proofs::Comparisons::named_refused))]
fn compare_named<R: Files + Print + Eprint + AllocGlobal, S: Sources>(
    rt: &R,
    sources: &S,
    matches: &ArgMatches<'_>,
    explains: bool,
) -> ExitStatus
    ensures done { result ≡ Done → CompareIsDone (S.whole sources.now) matches.now }
    ensures refused { result ≡ Refused → CompareIsRefused (S.whole sources.now) matches.now result }
{
    let old = match old_plan_of(rt, sources, matches, explains) {
        Ok(old) => old,
        Err(status) => return status,
    };
    match plan_of(rt, sources, matches, explains) {
        Ok(new) => {
            let texts = ComparedTexts {
                about: About {
                    explains,
                    words: matches,
                    plan: new.as_slice(),
                },
                old: old.as_slice(),
            };
            compare_texts(rt, &texts)
        }
        Err(status) => status,
    }
}

/// Reads the old plan. If it cannot be read, an error line is printed, and its status is returned.
fn old_plan_of<R: Eprint + AllocGlobal, S: Sources>(
    rt: &R,
    sources: &S,
    matches: &ArgMatches<'_>,
    explains: bool,
) -> Result<Vec<u8>, ExitStatus>
    ensures named { IfOk result (λ plan. IsNamedOld (S.whole sources.now) matches.now plan.items) }
    ensures failed { IfErr result IsUnjudged }
{
    match matches.get_str(OLD) {
        Some(name) => {
            let line = "cannot read plan";
            read_or_report(rt, sources, name, PLAN_LIMIT_BYTES, line, explains)
        }
        None => Err(ExitStatus::Usage),
    }
}

#[tactic(auto, using(crate::proofs::Comparisons::compare_done, crate::proofs::Comparisons::compare_fails))]
fn compare_texts<R: Files + Print + Eprint + AllocGlobal>(
    rt: &R,
    texts: &ComparedTexts,
) -> ExitStatus
    ensures done { result ≡ Done → AreComparedAsAsked
        texts.now.about.words.now texts.now.old.now texts.now.about.plan.now }
    ensures refused { result ≡ Refused → AreRefused
        texts.now.about.words.now texts.now.old.now texts.now.about.plan.now result }
{
    let about = &texts.about;
    match report_of(rt.alloc(), about.words, texts.old, about.plan) {
        Ok(report) => match output_of(rt, about) {
            Ok(Some(mut file)) => put_into(rt, about, &report, &mut file),
            Ok(None) => put_out(rt, about, &report),
            Err(status) => status,
        },
        Err(stop) => refuse_compare(rt, texts, stop),
    }
}

/// Writes the report to standard output.
fn put_out<R: Print + Eprint>(rt: &R, about: &About, report: &CompareReport) -> ExitStatus
    ensures done { result ≡ Done → AsksFail about.now.words.now → report.now.is_same ≡ true }
    ensures refused { result ≡ Refused
        → IsFail about.now.words.now × (report.now.is_same ≡ false) }
{
    if let Err(cut) = put_all(report.text.as_slice(), &mut Out::new(io::writer(rt))) {
        let written = cut.written;
        let _ = exit_status_of(rt, &Err(ValueStop::Write { written }));
        return ExitStatus::Resource;
    }
    compared_status(about, report)
}

/// Writes the report to a place, whose text is replaced atomically.
fn put_into<R: Eprint + AllocGlobal, P: AtomicTarget>(
    rt: &R,
    about: &About,
    report: &CompareReport,
    place: &mut P,
) -> ExitStatus
    ensures done { result ≡ Done → AsksFail about.now.words.now → report.now.is_same ≡ true }
    ensures refused { result ≡ Refused
        → IsFail about.now.words.now × (report.now.is_same ≡ false) }
{
    let text = match place.begin() {
        Ok(text) => text,
        Err(fault) => return report_unwritable(rt, about, &fault),
    };
    let mut out = Out::new(text);
    let answer = match put_all(report.text.as_slice(), &mut out) {
        Ok(()) => Ok(()),
        Err(cut) => Err(ValueStop::Write {
            written: cut.written,
        }),
    };
    match commit_output(rt, about, place, out.into_inner(), &answer) {
        ExitStatus::Done => compared_status(about, report),
        _ => ExitStatus::Resource,
    }
}

/// The status of a report that is written.
fn compared_status(about: &About, report: &CompareReport) -> ExitStatus
    ensures done { result ≡ Done → AsksFail about.now.words.now → report.now.is_same ≡ true }
    ensures refused { result ≡ Refused
        → IsFail about.now.words.now × (report.now.is_same ≡ false) }
{
    if !report.is_same && fails(about.words) {
        return ExitStatus::Refused;
    }
    ExitStatus::Done
}
