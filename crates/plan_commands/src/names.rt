//! The command `names`: lists the names of a plan, or makes an empty file for it.

ghost use Rattle.std.specs.Prelude.{◌≡◌};
ghost use Rattle.console.specs.declared.exit_status.ExitStatus.TheVariants.{Done, Refused};
ghost use Rattle.plan_commands.specs.Ends.{NamesIsDone, NamesIsRefused};

use crate::pages::{Asked, put_page};
use clap::ArgMatches;
use console::names::{CLAIMS, OPENING};
use console::{ExitStatus, Sources};
use std::rt::Files;
use value_command::{About, plan_of};

/// Runs the command, and returns its exit status.
pub fn names_of<R: Files + Print + Eprint + AllocGlobal, S: Sources>(
    rt: &R,
    sources: &S,
    matches: &ArgMatches<'_>,
    explains: bool,
) -> ExitStatus
    ensures done { result ≡ Done → NamesIsDone (S.whole sources.now) matches.now }
    ensures refused { result ≡ Refused → NamesIsRefused (S.whole sources.now) matches.now result }
{
    let plan = match plan_of(rt, sources, matches, explains) {
        Ok(plan) => plan,
        Err(status) => return status,
    };
    let about = About {
        explains,
        words: matches,
        plan: plan.as_slice(),
    };
    put_page(rt, &about, asked_of(matches))
}

fn asked_of(matches: &ArgMatches<'_>) -> Asked<'static> {
    if matches.get_flag(CLAIMS) {
        Asked::Claims
    } else if matches.get_flag(OPENING) {
        Asked::Balances
    } else {
        Asked::Names
    }
}
