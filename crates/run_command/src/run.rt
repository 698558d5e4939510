//! The command `run`: reads the options and the files, and writes the remittance.

ghost use Rattle.std.specs.Prelude.{◌≡◌, ◌≢◌, ◌⊎◌};
ghost use Rattle.console.specs.declared.exit_status.ExitStatus.TheVariants.{Done, Refused};
ghost use Rattle.std.specs.Io.KnownBytes.{Keeps};
ghost use Rattle.claim_run.specs.RunStop.{IsRunReason};
ghost use Rattle.claim_run.specs.RunText.{run_texts};
ghost use Rattle.value_command.specs.Ends.{HasText, PutsText};
ghost use Rattle.claim_console.specs.Ends.{IsStatusOfRefusal};
ghost use Rattle.claim_console.specs.Words.{IsStrict};
ghost use Rattle.run_command.specs.Ends.{HasRemittance, IsStatusOfRun, IsRemittanceIn, RunIsDone, RunIsRefused, IsRefusedRun};

use crate::noted::run_and_note;
use claim_console::{
    AboutFiles, Counted, Texts, about_without_explanation, cutoff_of, explain_refusal,
    further_place, has_refused_file, is_strict, order_of, put_further, records_in, report_counts,
    slices_of, texts_of, workers_of,
};
use claim_gate::Order;
use claim_run::{Counting, RunInput, do_counted_run};
use clap::ArgMatches;
use console::names::{CLOSING, SUMMARY};
use console::{AtomicTarget, ExitStatus, Heartbeat, Sources, explains, no_memory};
use fixpoint::Out;
use std::alloc::Global;
use std::io;
use std::mem::forget;
use std::rt::Files;
use std::sync::atomic::AtomicU64;
use std::sync::{Arc, Wait};
use std::thread::Threads;
use std::time::Clock;
use value_command::{commit_output, exit_status_of, output_of, report_unwritable};

/// Runs the command `run`, and returns its exit status. If standard error is a terminal, a long run prints progress lines there once the texts are read.
pub fn run_of<R, S: Sources>(
    rt: &R,
    sources: &S,
    matches: &ArgMatches<'_>,
    is_watched: bool,
) -> ExitStatus
where
    R: Files + Print + Eprint + AllocGlobal,
    R: Clock + Threads + Wait + Clone + Drop + Send + Sync + 'static,
    ensures done { result ≡ Done → RunIsDone (S.whole sources.now) matches.now }
    ensures refused { result ≡ Refused → RunIsRefused (S.whole sources.now) matches.now result }
{
    let explains = explains(matches, is_watched);
    match texts_of(rt, sources, matches, explains) {
        Ok(texts) => {
            let status = settle_watched(rt, matches, &texts, is_watched, explains);
            // The program ends next, so to free this memory would only take time.
            forget(texts);
            status
        }
        Err(status) => status,
    }
}

fn settle_watched<R>(
    rt: &R,
    matches: &ArgMatches<'_>,
    texts: &Texts,
    is_watched: bool,
    explains: bool,
) -> ExitStatus
where
    R: Files + Print + Eprint + AllocGlobal,
    R: Clock + Threads + Wait + Clone + Drop + Send + Sync + 'static,
    ensures done { result ≡ Done → HasRemittance matches.now texts.now }
    ensures refused { result ≡ Refused
        → IsRefusedRun matches.now texts.now result ⊎ IsStrict matches.now }
{
    let heartbeat = if is_watched {
        Heartbeat::start(rt, records_in(&texts.files))
    } else {
        None
    };
    let decided = match &heartbeat {
        Some(heartbeat) => heartbeat.decided_count(),
        None => None,
    };
    let status = settle(rt, matches, texts, is_watched, explains, decided);
    if let Some(heartbeat) = heartbeat {
        heartbeat.end(rt);
    }
    status
}

fn settle<R>(
    rt: &R,
    matches: &ArgMatches<'_>,
    texts: &Texts,
    is_watched: bool,
    explains: bool,
    decided: Option<Arc<AtomicU64, Global>>,
) -> ExitStatus
where
    R: Files + Print + Eprint + AllocGlobal + Threads + Wait + Sync,
    ensures done { result ≡ Done → HasRemittance matches.now texts.now }
    ensures refused { result ≡ Refused
        → IsRefusedRun matches.now texts.now result ⊎ IsStrict matches.now }
{
    let Some(workers) = workers_of(matches) else {
        return ExitStatus::Usage;
    };
    let Ok(files) = slices_of(rt.alloc(), &texts.files) else {
        return no_memory(rt);
    };
    let input = RunInput {
        plan: texts.plan.as_slice(),
        balances: texts.balances_slice(),
        files: files.as_slice(),
        cutoff: cutoff_of(matches),
        workers,
    };
    let has_summary = is_watched || matches.get_flag(SUMMARY);
    let about = texts.about(explains, matches);
    let order = order_of(matches);
    run_anywhere(rt, &about, input, order, has_summary, decided)
}

/// Runs, and then writes the closing balances to the file of `--closing` if there is one.
fn run_anywhere<R>(
    rt: &R,
    about: &AboutFiles,
    input: RunInput,
    order: Order,
    has_summary: bool,
    decided: Option<Arc<AtomicU64, Global>>,
) -> ExitStatus
where
    R: Files + Print + Eprint + AllocGlobal + Threads + Wait + Sync,
    ensures done { result ≡ Done → HasText (IsRemittanceIn order (run_texts input.entry)) }
    ensures refused { result ≢ Done
        → IsStatusOfRun about.now.plan.words.now (run_texts input.entry)
        input.entry.workers result }
{
    // Under `--strict` the counts show whether all records of a file are refused.
    let mut counting = if has_summary || is_strict(about.plan.words) {
        Counting::of_records()
    } else {
        Counting::nothing()
    };
    counting.leave_memory();
    if let Some(decided) = decided {
        counting.count_decided(decided);
    }
    if about.plan.words.get_flag(SUMMARY) {
        counting.request_sums();
        counting.request_notes();
    }
    match further_place(rt, about, CLOSING) {
        Ok(Some(mut place)) => {
            counting.request_closing();
            run_and_close(
                rt,
                about,
                input,
                order,
                &mut place,
                &mut counting,
                has_summary,
            )
        }
        Ok(None) => run_and_report(rt, about, input, order, &mut counting, has_summary),
        Err(status) => status,
    }
}

/// Begins the closing balances, so that a place that takes none is refused before the run, and puts them into the place after it.
fn run_and_close<R, P: AtomicTarget>(
    rt: &R,
    about: &AboutFiles,
    input: RunInput,
    order: Order,
    place: &mut P,
    counting: &mut Counting,
    has_summary: bool,
) -> ExitStatus
where
    R: Files + Print + Eprint + AllocGlobal + Threads + Wait + Sync,
    ensures done { result ≡ Done → HasText (IsRemittanceIn order (run_texts input.entry)) }
    ensures refused { result ≢ Done
        → IsStatusOfRun about.now.plan.words.now (run_texts input.entry)
        input.entry.workers result }
{
    let text = match place.begin() {
        Ok(text) => text,
        Err(fault) => return report_unwritable(rt, &about_without_explanation(about), &fault),
    };
    match run_and_report(rt, about, input, order, counting, has_summary) {
        ExitStatus::Done => put_further(rt, about, place, text, counting.closing()),
        status => {
            place.discard(text);
            status
        }
    }
}

/// Runs into the file of `--output` or to standard output, and prints the summary if it is requested. Under `--strict` the
/// status is `Refused` if all records of a file are refused; the remittance is whole then, too.
fn run_and_report<R>(
    rt: &R,
    about: &AboutFiles,
    input: RunInput,
    order: Order,
    counting: &mut Counting,
    has_summary: bool,
) -> ExitStatus
where
    R: Files + Print + Eprint + AllocGlobal + Threads + Wait + Sync,
    ensures done { result ≡ Done → HasText (IsRemittanceIn order (run_texts input.entry)) }
    ensures refused { result ≢ Done
        → IsStatusOfRun about.now.plan.words.now (run_texts input.entry)
        input.entry.workers result }
{
    match run_and_note(rt, about, input, order, counting) {
        ExitStatus::Done => {
            if let Some(counts) = counting.counts() {
                let (sums, notes) = (counting.sums(), counting.notes());
                let counted = Counted {
                    counts,
                    sums,
                    notes,
                };
                report_counts(rt, about, counted, has_summary);
            }
            strict_status(rt, about.plan.words, counting)
        }
        status => status,
    }
}

// The status of a run that has written its remittance.
fn strict_status<R: Eprint>(rt: &R, matches: &ArgMatches<'_>, counting: &Counting) -> ExitStatus
    ensures { result ≢ Done → IsStrict matches.now }
{
    if !is_strict(matches) {
        return ExitStatus::Done;
    }
    match counting.counts() {
        Some(counts) if has_refused_file(counts) => ExitStatus::Refused,
        Some(_) => ExitStatus::Done,
        None => no_memory(rt),
    }
}

#[tactic(auto, using(crate::proofs::Ends::put_is_text))]
pub fn run_to_output<R>(
    rt: &R,
    about: &AboutFiles,
    input: RunInput,
    order: Order,
    counting: &mut Counting,
) -> ExitStatus
where
    R: Files + Print + Eprint + AllocGlobal + Threads + Wait + Sync,
    ensures done { result ≡ Done → HasText (IsRemittanceIn order (run_texts input.entry)) }
    ensures refused { result ≢ Done
        → IsStatusOfRefusal (IsRunReason (run_texts input.entry) input.entry.workers) result }
{
    match output_of(rt, &about.plan) {
        Ok(Some(mut file)) => run_into(rt, about, input, order, &mut file, counting),
        Ok(None) => run(rt, about, input, order, counting),
        Err(status) => status,
    }
}

/// The command `run` over its texts.
fn run<R>(
    rt: &R,
    about: &AboutFiles,
    input: RunInput,
    order: Order,
    counting: &mut Counting,
) -> ExitStatus
where
    R: Print + Eprint + AllocGlobal + Threads + Wait + Sync,
    ensures done { result ≡ Done → HasText (IsRemittanceIn order (run_texts input.entry)) }
    ensures refused { result ≢ Done
        → IsStatusOfRefusal (IsRunReason (run_texts input.entry) input.entry.workers) result }
{
    let mut out = Out::new(io::writer(rt));
    let answer = do_counted_run(rt, input, order, &mut out, counting);
    let status = exit_status_of(rt, &answer);
    explain_refusal(rt, about, &answer);
    status
}

/// Runs into a place, which then has the whole remittance, or what it had before.
#[tactic(auto, using(crate::proofs::Ends::placed_done, crate::proofs::Ends::kept_twice))]
fn run_into<R, P: AtomicTarget>(
    rt: &R,
    about: &AboutFiles,
    input: RunInput,
    order: Order,
    place: &mut P,
    counting: &mut Counting,
) -> ExitStatus
where
    R: Eprint + AllocGlobal + Threads + Wait + Sync,
    ensures done { result ≡ Done → PutsText (IsRemittanceIn order (run_texts input.entry))
        (P.current place.old) (P.current place.new) }
    ensures kept { result ≢ Done → Keeps (P.current place.old) (P.current place.new) }
    ensures refused { result ≢ Done
        → IsStatusOfRefusal (IsRunReason (run_texts input.entry) input.entry.workers) result }
{
    let text = match place.begin() {
        Ok(text) => text,
        Err(fault) => return report_unwritable(rt, &about.plan, &fault),
    };
    let mut out = Out::new(text);
    let outcome = do_counted_run(rt, input, order, &mut out, counting);
    let status = commit_output(rt, &about.plan, place, out.into_inner(), &outcome);
    explain_refusal(rt, about, &outcome);
    status
}
