//! The exit statuses, and the lines on standard error that go with them.

ghost use Rattle.std.specs.Prelude.{◌≡◌, ◌≢◌};
ghost use Rattle.clap.specs.Words.{kind_of};
ghost use Rattle.clap.specs.declared.error.kind.ErrorKind.TheVariants.{DisplayHelp, DisplayVersion};
ghost use Rattle.console.specs.declared.exit_status.ExitStatus.TheVariants.{Done, Refused, Resource};
ghost use Rattle.console.specs.ExitStatus.{code_of};

use clap::Error;
use clap::error::ErrorKind;
use faults::push_printable;
use std::alloc::{AllocError, Global};
use std::io;

/// How the program ends.
#[derive(Clone, Copy, PartialEq, Eq, Drop)]
pub enum ExitStatus {
    /// Success.
    Done,
    /// An input is not valid.
    Refused,
    /// The command line is not valid.
    Usage,
    /// The system failed (I/O, memory, threads).
    Resource,
}

impl ExitStatus {
    /// The number that the caller of the program gets, from 0 to 3.
    pub fn code(self) -> u8
        ensures { result ≡ code_of self }
    {
        match self {
            ExitStatus::Done => 0,
            ExitStatus::Refused => 1,
            ExitStatus::Usage => 2,
            ExitStatus::Resource => 3,
        }
    }
}

/// Prints a line to standard error, and returns the status. If the line cannot be printed, the status is the only report.
pub fn print_error<R: Eprint>(rt: &R, line: &str, status: ExitStatus) -> ExitStatus
    ensures { result ≡ status }
{
    let _ = rt.eprintln(line);
    status
}

/// Prints that memory ran out, and returns the status.
pub fn no_memory<R: Eprint>(rt: &R) -> ExitStatus
    ensures { result ≡ Resource }
{
    print_error(rt, "no memory", ExitStatus::Resource)
}

/// Prints an error of the command line, or the requested help or version, and returns the status. In an error's lines, which repeat words of the command
/// line, U+FFFD replaces each character that a terminal would obey or not show.
pub fn usage<R: Print + Eprint + AllocGlobal>(rt: &R, fault: &Error) -> ExitStatus
    ensures fault { kind_of fault.now ≢ DisplayHelp
        → kind_of fault.now ≢ DisplayVersion → result ≢ Done }
    ensures not_refused { result ≢ Refused }
{
    if fault.kind() == ErrorKind::OutOfMemory {
        return no_memory(rt);
    }
    let printed = if fault.use_stderr() {
        print_usage(rt, fault)
    } else {
        fault.print(rt)
    };
    match printed {
        Ok(()) if fault.use_stderr() => ExitStatus::Usage,
        Ok(()) => ExitStatus::Done,
        Err(_) => ExitStatus::Resource,
    }
}

fn print_usage<R: Eprint + AllocGlobal>(rt: &R, fault: &Error) -> io::Result<()> {
    let text = format!(in rt.alloc(); "{fault}")?;
    let lines = printable_lines(rt.alloc(), text.as_str())?;
    rt.eprint(lines.as_str())
}

fn printable_lines(alloc: Global, text: &str) -> Result<String, AllocError> {
    let mut lines = String::new(alloc);
    for line in text.lines() {
        push_printable(&mut lines, line)?;
        lines.push('\n')?;
    }
    Ok(lines)
}
