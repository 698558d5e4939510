//! Runs one command, from the words of the command line to the exit status.

ghost use Rattle.std.specs.Prelude.{◌≡◌};
ghost use Rattle.console.specs.declared.exit_status.ExitStatus.TheVariants.{Done, Refused};
ghost use Rattle.commands.specs.Ends.{CommandIsDone, CommandIsRefused, IsDone, IsRefused};

use crate::auditing::audit_of;
use crate::check::check_of;
use crate::compared_claims::{compare_claims_of, has_claims};
use crate::explained::explain_of;
use adjudicate::WORKERS_LIMIT;
use clap::{ArgMatches, Error};
use console::names::{AUDIT, CHECK, COMPARE, EXPLAIN_RECORD, RUN};
use console::{
    ExitStatus, Sources, explains, grow_stack, matches_of, no_memory, prepare_outputs,
    program_arguments, terminal_columns, usage,
};
use plan_commands::plan_command;
use run_command::run_of;
use std::fs::File;
use std::rt::{Env, Files};
use std::sync::Wait;
use std::thread::Threads;
use std::time::Clock;

/// Runs the command line over these texts, and returns the exit status. `is_watched` says that standard error is a terminal: then errors are
/// explained, and a long run prints progress lines.
pub fn status<R, S: Sources>(rt: &R, sources: &S, is_watched: bool) -> ExitStatus
where
    R: Env + Files<File = File> + Print + Eprint + AllocGlobal,
    R: Clock + Threads + Wait + Clone + Drop + Send + Sync + 'static,
{
    let words = match program_arguments(rt) {
        Ok(words) => words,
        Err(status) => return status,
    };
    if grow_stack(rt.alloc(), words.len()).is_err() {
        return no_memory(rt);
    }
    let columns = match terminal_columns(rt, is_watched) {
        Ok(columns) => columns,
        Err(status) => return status,
    };
    let matched = matches_of(
        rt.alloc(),
        words.as_slice(),
        WORKERS_LIMIT,
        columns.as_deref(),
    );
    let locks = match prepare_outputs(rt, &matched, is_watched) {
        Ok(locks) => locks,
        Err(status) => return status,
    };
    let status = matched_status(rt, sources, &matched, is_watched);
    drop(locks);
    status
}

/// The exit status of a parsed command line. The contract for each status is here and not at `status`, since a proof knows nothing of the words that an
/// `Env` returns.
pub fn matched_status<R, S: Sources>(
    rt: &R,
    sources: &S,
    matched: &Result<ArgMatches<'_>, Error>,
    is_watched: bool,
) -> ExitStatus
where
    R: Files + Print + Eprint + AllocGlobal,
    R: Clock + Threads + Wait + Clone + Drop + Send + Sync + 'static,
    ensures done { result ≡ Done → IsDone (S.whole sources.now) matched.now }
    ensures refused { result ≡ Refused → IsRefused (S.whole sources.now) matched.now result }
{
    match matched {
        Ok(matches) => command(rt, sources, matches, is_watched),
        Err(fault) => usage(rt, fault),
    }
}

fn command<R, S: Sources>(
    rt: &R,
    sources: &S,
    matches: &ArgMatches<'_>,
    is_watched: bool,
) -> ExitStatus
where
    R: Files + Print + Eprint + AllocGlobal,
    R: Clock + Threads + Wait + Clone + Drop + Send + Sync + 'static,
    ensures done { result ≡ Done → CommandIsDone (S.whole sources.now) matches.now }
    ensures refused { result ≡ Refused → CommandIsRefused (S.whole sources.now) matches.now result }
{
    if let Some(words) = matches.subcommand_matches(CHECK) {
        return check_of(rt, sources, words, explains(words, is_watched));
    }
    if let Some(words) = matches.subcommand_matches(RUN) {
        return run_of(rt, sources, words, is_watched);
    }
    if let Some(words) = matches.subcommand_matches(AUDIT) {
        return audit_of(rt, sources, words, explains(words, is_watched));
    }
    if let Some(words) = matches.subcommand_matches(EXPLAIN_RECORD) {
        return explain_of(rt, sources, words, explains(words, is_watched));
    }
    if let Some(words) = matches.subcommand_matches(COMPARE)
        && has_claims(words)
    {
        return compare_claims_of(rt, sources, words, explains(words, is_watched));
    }
    plan_command(rt, sources, matches, is_watched)
}
