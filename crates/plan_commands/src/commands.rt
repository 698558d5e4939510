//! Runs one of the commands over a plan alone.

ghost use Rattle.std.specs.Prelude.{◌≡◌};
ghost use Rattle.console.specs.declared.exit_status.ExitStatus.TheVariants.{Done, Refused};
ghost use Rattle.plan_commands.specs.Ends.{PlanCommandIsDone, PlanCommandIsRefused, ValuesAreDone, ValuesAreRefused};

use crate::compare::compare_of;
use crate::names::names_of;
use crate::rows::rows_of;
use crate::show::show_of;
use crate::testing::test_of;
use clap::ArgMatches;
use console::names::{COMPARE, NAMES, ROWS, SHOW, TEST, VALUE};
use console::{ExitStatus, Sources, explains};
use std::rt::Files;
use value_command::value_of;

/// Runs the command that the command line names, if it is one over a plan alone. Another one is a usage error.
pub fn plan_command<R: Files + Print + Eprint + AllocGlobal, S: Sources>(
    rt: &R,
    sources: &S,
    matches: &ArgMatches<'_>,
    is_watched: bool,
) -> ExitStatus
    ensures done { result ≡ Done → PlanCommandIsDone (S.whole sources.now) matches.now }
    ensures refused { result ≡ Refused
        → PlanCommandIsRefused (S.whole sources.now) matches.now result }
{
    if let Some(words) = matches.subcommand_matches(VALUE) {
        return values_of(rt, sources, words, explains(words, is_watched));
    }
    if let Some(words) = matches.subcommand_matches(TEST) {
        return test_of(rt, sources, words, explains(words, is_watched));
    }
    if let Some(words) = matches.subcommand_matches(COMPARE) {
        return compare_of(rt, sources, words, explains(words, is_watched));
    }
    if let Some(words) = matches.subcommand_matches(NAMES) {
        return names_of(rt, sources, words, explains(words, is_watched));
    }
    match matches.subcommand_matches(SHOW) {
        Some(words) => show_of(rt, sources, words, explains(words, is_watched)),
        None => ExitStatus::Usage,
    }
}

/// Runs the command `value`, over the rows of a file if the command line names one.
fn values_of<R: Files + Print + Eprint + AllocGlobal, S: Sources>(
    rt: &R,
    sources: &S,
    words: &ArgMatches<'_>,
    explains: bool,
) -> ExitStatus
    ensures done { result ≡ Done → ValuesAreDone (S.whole sources.now) words.now }
    ensures refused { result ≡ Refused → ValuesAreRefused (S.whole sources.now) words.now result }
{
    match words.get_str(ROWS) {
        Some(_) => rows_of(rt, sources, words, explains),
        None => value_of(rt, sources, words, explains),
    }
}
