//! Reports the unknown keys of a plan, for `--strict`.

ghost use Rattle.std.specs.Prelude.{IfErr};
ghost use Rattle.claim_console.specs.Ends.{IsUnusedStatus};

use claim_diagnostics::unknown_keys;
use console::{ExitStatus, no_memory};

/// Prints a line for each unknown key of the plan. The error is `Refused` if there is one, and `Resource` if memory ran out for the search.
pub fn refuse_unused<R: Eprint + AllocGlobal>(rt: &R, plan: &[u8]) -> Result<(), ExitStatus>
    ensures { IfErr result IsUnusedStatus }
{
    // A text that is not UTF-8 is no plan; the line of that error is enough.
    let Ok(text) = str::from_utf8(plan) else {
        return Ok(());
    };
    let Ok(lines) = unknown_keys(rt.alloc(), text) else {
        return Err(no_memory(rt));
    };
    if lines.as_str().is_empty() {
        return Ok(());
    }
    let _ = rt.eprint(lines.as_str());
    Err(ExitStatus::Refused)
}
