//! The outputs of a run beside its remittance: files that the command line names by options of their own.

ghost use Rattle.std.specs.Prelude.{◌≡◌, ◌⊎◌, IfErr};
ghost use Rattle.console.specs.declared.exit_status.ExitStatus.TheVariants.{Done, Resource};

use crate::explaining::AboutFiles;
use console::{AtomicFile, AtomicTarget, ExitStatus, no_memory};
use evaluation::ValueStop;
use fixpoint::{Out, put_all};
use std::rt::Files;
use value_command::{About, commit_output, report_unwritable};

/// The file that the command line names by this option, if it names one. If nothing can be written there, an error line is printed, and its
/// status is returned.
pub fn further_place<'a, R: Files + Eprint + AllocGlobal>(
    rt: &'a R,
    about: &AboutFiles,
    option: &str,
) -> Result<Option<AtomicFile<'a, R>>, ExitStatus>
    ensures { IfErr result (λ status. status ≡ Resource) }
{
    let Some(path) = about.plan.words.get_str(option) else {
        return Ok(None);
    };
    match AtomicFile::new(rt, path) {
        Ok(place) => Ok(Some(place)),
        Err(fault) => Err(report_unwritable(rt, &about_without_explanation(about), &fault)),
    }
}

/// Puts these bytes into a place, which then has all of them, or what it had before. Without bytes, memory ran out for them.
pub fn put_further<R: Eprint + AllocGlobal, P: AtomicTarget>(
    rt: &R,
    about: &AboutFiles,
    place: &mut P,
    text: P::Text,
    bytes: Option<&[u8]>,
) -> ExitStatus
    ensures { (result ≡ Done) ⊎ (result ≡ Resource) }
{
    let Some(bytes) = bytes else {
        place.discard(text);
        return no_memory(rt);
    };
    let mut out = Out::new(text);
    let answer = match put_all(bytes, &mut out) {
        Ok(()) => Ok(()),
        Err(cut) => Err(ValueStop::Write {
            written: cut.written,
        }),
    };
    match commit_output(
        rt,
        &about_without_explanation(about),
        place,
        out.into_inner(),
        &answer,
    ) {
        ExitStatus::Done => ExitStatus::Done,
        _ => ExitStatus::Resource,
    }
}

/// An explanation would name the file of `--output`.
pub fn about_without_explanation<'a, 'w>(about: &AboutFiles<'a, 'w>) -> About<'a, 'w> {
    About {
        explains: false,
        words: about.plan.words,
        plan: about.plan.plan,
    }
}
