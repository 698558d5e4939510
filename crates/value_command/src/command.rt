//! The command line of the program that has only the command `value`.

ghost use Rattle.std.specs.Prelude.{◌≡◌};
ghost use Rattle.console.specs.declared.exit_status.ExitStatus.TheVariants.{Done, Refused};
ghost use Rattle.value_command.specs.Ends.{IsDone, IsRefused, NamesValue, ValueIsDone, ValueIsRefused};

use crate::value::value_of;
use clap::{ArgMatches, Error};
use console::names::{ROWS, VALUE};
use console::{
    ExitStatus, Sources, explains, grow_stack, matches_of, no_memory, prepare_outputs, print_error,
    program_arguments, usage,
};
use std::fs::File;
use std::rt::{Env, Files};
use std::time::Clock;

/// Runs the command line over these texts, and returns the exit status. Help and the version are those of the whole program. A command other than
/// `value` is a usage error, and so is its option for a file of rows.
pub fn status<R, S: Sources>(rt: &R, sources: &S, is_watched: bool) -> ExitStatus
where
    R: Env + Files<File = File> + Print + Eprint + AllocGlobal + Clock,
{
    let words = match program_arguments(rt) {
        Ok(words) => words,
        Err(status) => return status,
    };
    if grow_stack(rt.alloc(), words.len()).is_err() {
        return no_memory(rt);
    }
    // This program has no `run`, so it needs no limit on workers, and no `show`, so it needs no width of the terminal.
    let matched = matches_of(rt.alloc(), words.as_slice(), usize::MAX, None);
    let locks = match prepare_outputs(rt, &matched, is_watched) {
        Ok(locks) => locks,
        Err(status) => return status,
    };
    let status = matched_status(rt, sources, &matched, is_watched);
    drop(locks);
    status
}

/// The exit status of a parsed command line. The contract for each status is here and not at `status`, since a proof knows nothing of the words that an
/// `Env` returns.
pub fn matched_status<R, S: Sources>(
    rt: &R,
    sources: &S,
    matched: &Result<ArgMatches<'_>, Error>,
    is_watched: bool,
) -> ExitStatus
where
    R: Files + Print + Eprint + AllocGlobal,
    ensures done { result ≡ Done → IsDone (S.whole sources.now) matched.now }
    ensures refused { result ≡ Refused → IsRefused (S.whole sources.now) matched.now result }
{
    match matched {
        Ok(matches) => command(rt, sources, matches, is_watched),
        Err(fault) => usage(rt, fault),
    }
}

fn command<R, S: Sources>(
    rt: &R,
    sources: &S,
    matches: &ArgMatches<'_>,
    is_watched: bool,
) -> ExitStatus
where
    R: Files + Print + Eprint + AllocGlobal,
    ensures done { result ≡ Done → NamesValue matches.now (ValueIsDone (S.whole sources.now)) }
    ensures refused { result ≡ Refused → NamesValue matches.now (λ words.
        ValueIsRefused (S.whole sources.now) words result) }
{
    match matches.subcommand_matches(VALUE) {
        Some(words) => value_alone(rt, sources, words, is_watched),
        None => print_error(
            rt,
            "error: this program has only the command `value`",
            ExitStatus::Usage,
        ),
    }
}

/// Runs the command `value` without its option for a file of rows.
fn value_alone<R: Files + Print + Eprint + AllocGlobal, S: Sources>(
    rt: &R,
    sources: &S,
    words: &ArgMatches<'_>,
    is_watched: bool,
) -> ExitStatus
    ensures done { result ≡ Done → ValueIsDone (S.whole sources.now) words.now }
    ensures refused { result ≡ Refused → ValueIsRefused (S.whole sources.now) words.now result }
{
    if words.get_str(ROWS).is_some() {
        let line = "error: this program has no option `--rows`: only the whole program has it";
        return print_error(rt, line, ExitStatus::Usage);
    }
    value_of(rt, sources, words, explains(words, is_watched))
}
