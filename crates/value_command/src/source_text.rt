//! Reads the texts that the command line names.

ghost use Rattle.std.specs.Prelude.{◌≡◌, IfErr, IfOk};
ghost use Rattle.console.specs.declared.exit_status.ExitStatus.TheVariants.{Resource};
ghost use Rattle.console.specs.Reading.{IsReadUpTo};

use crate::explanation::explain_unreadable;
use console::{ExitStatus, ReadFault, Sources, no_memory, print_error, read_text};
use diagnostics::unreadable_file;

/// Reads the text with this name, at most one byte more than the limit. If it cannot be read, the line is printed, and its status is returned.
pub fn read_or_report<R: Eprint + AllocGlobal, S: Sources>(
    rt: &R,
    sources: &S,
    name: &str,
    limit_bytes: usize,
    line: &str,
    explains: bool,
) -> Result<Vec<u8>, ExitStatus>
    ensures read { IfOk result (λ bytes.
        IsReadUpTo limit_bytes (S.whole sources.now name.now) bytes.items) }
    ensures failed { IfErr result (λ status. status ≡ Resource) }
{
    match read_text(rt.alloc(), sources, name, limit_bytes) {
        Ok(bytes) => Ok(bytes),
        Err(fault) => Err(report_unread(rt, name, line, &fault, explains)),
    }
}

/// Prints the line of a text that cannot be read, explains it if errors are explained, and returns its status.
pub fn report_unread<R: Eprint + AllocGlobal>(
    rt: &R,
    name: &str,
    line: &str,
    fault: &ReadFault,
    explains: bool,
) -> ExitStatus
    ensures { result ≡ Resource }
{
    match fault {
        ReadFault::Unreadable(fault) => {
            let status = print_error(rt, line, ExitStatus::Resource);
            if explains {
                explain_unreadable(rt, name, fault, unreadable_file());
            }
            status
        }
        ReadFault::OutOfMemory => no_memory(rt),
    }
}
