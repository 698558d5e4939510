//! The words of the command line.

ghost use Rattle.std.specs.Prelude.{◌≡◌, IfErr, true};
ghost use Rattle.console.specs.declared.exit_status.ExitStatus.TheVariants.{Usage};
ghost use Rattle.console.specs.ExitStatus.{IsUnjudged};

use crate::exit_status::{ExitStatus, no_memory, print_error};
use crate::names::{BALANCES, CASES, EXPLAIN, FILE, OLD, PLAN, REMITTANCE, ROWS, STREAM};
use clap::ArgMatches;
use std::rt::Env;
use std::{env, io};

/// The words of the command line. If they cannot be read, an error line is printed, and its status is returned.
pub fn program_arguments<R: Env + Eprint + AllocGlobal>(rt: &R) -> Result<Vec<String>, ExitStatus>
    ensures { IfErr result IsUnjudged }
{
    match env::args(rt) {
        Ok(words) => match words.collect(rt.alloc()) {
            Ok(words) => Ok(words),
            Err(_) => Err(no_memory(rt)),
        },
        Err(fault) if fault.kind() == io::ErrorKind::OutOfMemory => Err(no_memory(rt)),
        Err(_) => {
            let line = "error: an argument is not valid UTF-8";
            Err(print_error(rt, line, ExitStatus::Usage))
        }
    }
}

/// Whether errors are explained: standard error is a terminal, or the caller gave `--explain`.
pub fn explains(matches: &ArgMatches<'_>, is_watched: bool) -> bool
    ensures watched { is_watched ≡ true → result ≡ true }
{
    is_watched || matches.get_flag(EXPLAIN)
}

/// Prints an error and returns its status if standard input is named more than once, since it can be read only once.
pub fn input_once<R: Eprint>(rt: &R, matches: &ArgMatches<'_>) -> Result<(), ExitStatus>
    ensures { IfErr result (λ status. status ≡ Usage) }
{
    if times_of_input(matches) > 1 {
        let line = "error: standard input (`-`) can be given only once";
        return Err(print_error(rt, line, ExitStatus::Usage));
    }
    Ok(())
}

fn times_of_input(matches: &ArgMatches<'_>) -> usize {
    let mut times = 0_usize;
    for name in [PLAN, OLD, BALANCES, REMITTANCE, CASES, ROWS] {
        times = times.saturating_add(times_in(matches.get_str(name)));
    }
    for path in matches.get_strs(FILE).unwrap_or(&[]) {
        times = times.saturating_add(times_in(Some(*path)));
    }
    times
}

fn times_in(path: Option<&str>) -> usize {
    usize::from(path == Some(STREAM))
}
