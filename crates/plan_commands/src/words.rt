//! The options of the commands over a plan alone.

ghost use Rattle.std.specs.Prelude.{◌≡◌, true};
ghost use Rattle.plan_commands.specs.Words.{AsksFail, IsFail};

use clap::ArgMatches;
use console::names::FAIL;

/// Whether the status is to be `Refused` where anything is reported.
pub fn fails(matches: &ArgMatches<'_>) -> bool
    ensures fail { result ≡ true → IsFail matches.now }
    ensures asked { AsksFail matches.now → result ≡ true }
{
    matches.get_flag(FAIL)
}
