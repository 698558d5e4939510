//! The options of a check.

ghost use Rattle.std.specs.Prelude.{◌≡◌};
ghost use Rattle.commands.specs.Words.{IsFindings, IsWhole};

use adjudicate::Findings;
use clap::ArgMatches;
use console::names::{ERRORS_ONLY, WHOLE};

/// Whether all tables of a plan are checked together.
pub fn is_whole(matches: &ArgMatches<'_>) -> bool
    ensures { IsWhole matches.now result }
{
    matches.get_flag(WHOLE)
}

/// Which gaps and overlaps a check lists.
pub fn findings_of(matches: &ArgMatches<'_>) -> Findings
    ensures { IsFindings matches.now result }
{
    if matches.get_flag(ERRORS_ONLY) {
        Findings::Errors
    } else {
        Findings::All
    }
}
