//! The notes of a run: a work list of the records that need a person, beside the remittance.

ghost use Rattle.std.specs.Prelude.{◌≡◌, ◌≢◌};
ghost use Rattle.console.specs.declared.exit_status.ExitStatus.TheVariants.{Done};
ghost use Rattle.claim_run.specs.RunStop.{IsRunReason};
ghost use Rattle.claim_run.specs.RunText.{run_texts};
ghost use Rattle.value_command.specs.Ends.{HasText};
ghost use Rattle.claim_console.specs.Ends.{IsStatusOfRefusal};
ghost use Rattle.run_command.specs.Ends.{IsRemittanceIn};

use crate::run::run_to_output;
use claim_console::{AboutFiles, about_without_explanation, further_place, put_further, work_list};
use claim_gate::Order;
use claim_run::{Counting, RunInput};
use console::names::NOTES;
use console::{AtomicTarget, ExitStatus};
use std::alloc::Global;
use std::rt::Files;
use std::sync::Wait;
use std::thread::Threads;
use value_command::report_unwritable;

/// Runs, and then writes the notes to the file of `--notes` if there is one.
pub fn run_and_note<R>(
    rt: &R,
    about: &AboutFiles,
    input: RunInput,
    order: Order,
    counting: &mut Counting,
) -> ExitStatus
where
    R: Files + Print + Eprint + AllocGlobal + Threads + Wait + Sync,
    ensures done { result ≡ Done → HasText (IsRemittanceIn order (run_texts input.entry)) }
    ensures refused { result ≢ Done
        → IsStatusOfRefusal (IsRunReason (run_texts input.entry) input.entry.workers) result }
{
    match further_place(rt, about, NOTES) {
        Ok(Some(mut place)) => {
            counting.request_notes();
            run_into_notes(rt, about, input, order, &mut place, counting)
        }
        Ok(None) => run_to_output(rt, about, input, order, counting),
        Err(status) => status,
    }
}

/// Begins the notes, so that a place that takes none is refused before the run, and puts them into the place after it.
fn run_into_notes<R, P: AtomicTarget>(
    rt: &R,
    about: &AboutFiles,
    input: RunInput,
    order: Order,
    place: &mut P,
    counting: &mut Counting,
) -> ExitStatus
where
    R: Files + Print + Eprint + AllocGlobal + Threads + Wait + Sync,
    ensures done { result ≡ Done → HasText (IsRemittanceIn order (run_texts input.entry)) }
    ensures refused { result ≢ Done
        → IsStatusOfRefusal (IsRunReason (run_texts input.entry) input.entry.workers) result }
{
    let text = match place.begin() {
        Ok(text) => text,
        Err(fault) => return report_unwritable(rt, &about_without_explanation(about), &fault),
    };
    match run_to_output(rt, about, input, order, counting) {
        ExitStatus::Done => {
            let list = notes_of(rt.alloc(), about, input.files, counting);
            let bytes = list.as_ref().map(Vec::as_slice);
            put_further(rt, about, place, text, bytes)
        }
        status => {
            place.discard(text);
            status
        }
    }
}

// The work list of a run that has ended; none if memory ran out for it.
fn notes_of(
    alloc: Global,
    about: &AboutFiles,
    files: &[&[u8]],
    counting: &Counting,
) -> Option<Vec<u8>> {
    let notes = counting.notes()?;
    work_list(alloc, about, files, notes)
}
