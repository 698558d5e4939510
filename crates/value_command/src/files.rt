//! Reads the plan that the command line names.

ghost use Rattle.std.specs.Prelude.{IfErr, IfOk};
ghost use Rattle.console.specs.ExitStatus.{IsUnjudged};
ghost use Rattle.value_command.specs.Texts.{IsNamedPlan};

use crate::source_text::read_or_report;
use clap::ArgMatches;
use console::names::PLAN;
use console::{ExitStatus, Sources};
use dtable::PLAN_LIMIT_BYTES;

/// Reads the plan that the command line names. If it cannot be read, an error line is printed, and its status is returned.
pub fn plan_of<R: Eprint + AllocGlobal, S: Sources>(
    rt: &R,
    sources: &S,
    matches: &ArgMatches<'_>,
    explains: bool,
) -> Result<Vec<u8>, ExitStatus>
    ensures named { IfOk result (λ plan. IsNamedPlan (S.whole sources.now) matches.now plan.items) }
    ensures failed { IfErr result IsUnjudged }
{
    match matches.get_str(PLAN) {
        Some(name) => {
            let line = "cannot read plan";
            read_or_report(rt, sources, name, PLAN_LIMIT_BYTES, line, explains)
        }
        None => Err(ExitStatus::Usage),
    }
}
