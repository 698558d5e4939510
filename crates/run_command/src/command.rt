//! The command line of the program that has only the command `run`.

ghost use Rattle.std.specs.Prelude.{◌≡◌};
ghost use Rattle.console.specs.declared.exit_status.ExitStatus.TheVariants.{Done, Refused};
ghost use Rattle.console.specs.declared.names.TheConstants.{RUN};
ghost use Rattle.value_command.specs.Ends.{Ends};
ghost use Rattle.run_command.specs.Ends.{IsDone, IsRefused, RunIsDone, RunIsRefused};

use crate::run::run_of;
use clap::{ArgMatches, Error};
use console::names::RUN;
use console::{
    ExitStatus, Sources, grow_stack, matches_of, no_memory, prepare_outputs, print_error,
    program_arguments, usage,
};
use crew::WORKERS_LIMIT;
use std::fs::File;
use std::rt::{Env, Files};
use std::sync::Wait;
use std::thread::Threads;
use std::time::Clock;

/// Runs the command line over these texts, and returns the exit status. Help and the version are those of the whole program. A command other than
/// `run` is a usage error.
pub fn status<R, S: Sources>(rt: &R, sources: &S, is_watched: bool) -> ExitStatus
where
    R: Env + Files<File = File> + Print + Eprint + AllocGlobal,
    R: Clock + Threads + Wait + Clone + Drop + Send + Sync + 'static,
{
    let words = match program_arguments(rt) {
        Ok(words) => words,
        Err(status) => return status,
    };
    if grow_stack(rt.alloc(), words.len()).is_err() {
        return no_memory(rt);
    }
    // This program has no `show`, so it needs no width of the terminal.
    let matched = matches_of(rt.alloc(), words.as_slice(), WORKERS_LIMIT, None);
    let locks = match prepare_outputs(rt, &matched, is_watched) {
        Ok(locks) => locks,
        Err(status) => return status,
    };
    let status = matched_status(rt, sources, &matched, is_watched);
    drop(locks);
    status
}

/// The exit status of a parsed command line. The contract for each status is here and not at `status`, since a proof knows nothing of the words that an
/// `Env` returns.
pub fn matched_status<R, S: Sources>(
    rt: &R,
    sources: &S,
    matched: &Result<ArgMatches<'_>, Error>,
    is_watched: bool,
) -> ExitStatus
where
    R: Files + Print + Eprint + AllocGlobal,
    R: Clock + Threads + Wait + Clone + Drop + Send + Sync + 'static,
    ensures done { result ≡ Done → IsDone (S.whole sources.now) matched.now }
    ensures refused { result ≡ Refused → IsRefused (S.whole sources.now) matched.now result }
{
    match matched {
        Ok(matches) => command(rt, sources, matches, is_watched),
        Err(fault) => usage(rt, fault),
    }
}

fn command<R, S: Sources>(
    rt: &R,
    sources: &S,
    matches: &ArgMatches<'_>,
    is_watched: bool,
) -> ExitStatus
where
    R: Files + Print + Eprint + AllocGlobal,
    R: Clock + Threads + Wait + Clone + Drop + Send + Sync + 'static,
    ensures done { result ≡ Done → Ends matches.now RUN.now (RunIsDone (S.whole sources.now)) }
    ensures refused { result ≡ Refused → Ends matches.now RUN.now (λ words.
        RunIsRefused (S.whole sources.now) words result) }
{
    match matches.subcommand_matches(RUN) {
        Some(words) => run_of(rt, sources, words, is_watched),
        None => print_error(
            rt,
            "error: this program has only the command `run`",
            ExitStatus::Usage,
        ),
    }
}
