//! The file for a command's results, which they replace atomically.

ghost use Rattle.std.specs.Prelude.{◌≡◌, ◌≢◌, ◌⊎◌, IfErr, IsOk, MatchResult, OnErr};
ghost use Rattle.std.specs.Io.KnownBytes.{Keeps};
ghost use Rattle.console.specs.AtomicTarget.{Becomes};
ghost use Rattle.console.specs.declared.exit_status.ExitStatus.TheVariants.{Done, Resource};
ghost use Rattle.console.specs.ExitStatus.{code_of};

use crate::error_line::report_error;
use crate::explanation::{About, explain_unreadable};
use console::names::{OUTPUT, STREAM};
use console::{AtomicFile, AtomicTarget, ExitStatus, finish, no_memory, print_error};
use diagnostics::unwritable_output;
use faults::Refusal;
use std::io;
use std::rt::Files;

/// The line of the error that the file for the results cannot be written.
const CANNOT_WRITE: &str = "cannot write output";

/// The file that the command line names for the results, if it names one. If results cannot be written there, an error line is printed, and its
/// status is returned.
pub fn output_of<'a, R: Files + Eprint + AllocGlobal>(
    rt: &'a R,
    about: &About,
) -> Result<Option<AtomicFile<'a, R>>, ExitStatus>
    ensures { IfErr result (λ status. status ≡ Resource) }
{
    match about.words.get_str(OUTPUT) {
        None | Some(STREAM) => Ok(None),
        Some(path) => match AtomicFile::new(rt, path) {
            Ok(place) => Ok(Some(place)),
            Err(fault) => Err(report_unwritable(rt, about, &fault)),
        },
    }
}

/// Ends the writing of a command's results: after a success they replace the file's text, and after an error they are discarded. Prints the error,
/// and returns the status of the command.
pub fn commit_output<R: Eprint + AllocGlobal, P: AtomicTarget, S: Refusal>(
    rt: &R,
    about: &About,
    place: &mut P,
    text: P::Text,
    answer: &Result<(), S>,
) -> ExitStatus
    ensures status { MatchResult answer.now (λ _. (result ≡ Done) ⊎ (result ≡ Resource))
        (λ stop. code_of result ≡ S.status stop) }
    ensures refused { OnErr answer.now (result ≢ Done) }
    ensures put { result ≡ Done
        → Becomes (P.current place.old) (P.current place.new) (P.Text.contents text) }
    ensures kept { result ≢ Done → Keeps (P.current place.old) (P.current place.new) }
{
    match answer {
        Ok(()) => match finish(place, text, true) {
            Ok(()) => ExitStatus::Done,
            Err(fault) => report_unwritable(rt, about, &fault),
        },
        Err(stop) => {
            let _ = finish(place, text, false);
            report_error(rt, stop)
        }
    }
}

/// Prints the error that the file for the results cannot be written, and returns its status.
pub fn report_unwritable<R: Eprint + AllocGlobal>(
    rt: &R,
    about: &About,
    fault: &io::Error,
) -> ExitStatus
    ensures { result ≡ Resource }
{
    if fault.kind() == io::ErrorKind::OutOfMemory {
        return no_memory(rt);
    }
    let status = print_error(rt, CANNOT_WRITE, ExitStatus::Resource);
    if about.explains {
        let path = about.word(OUTPUT);
        explain_unreadable(rt, path, fault, unwritable_output());
    }
    status
}
