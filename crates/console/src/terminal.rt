//! The width of lines, and that of the terminal.

ghost use Rattle.std.specs.Prelude.{IfErr};
ghost use Rattle.console.specs.ExitStatus.{IsUnjudged};

use crate::exit_status::{ExitStatus, no_memory};
use std::env;
use std::env::VarError;
use std::rt::Env;

/// The least value of `--width`, in columns.
pub const LEAST_WIDTH: u64 = 20;

/// The greatest value of `--width`, in columns.
pub const WIDTH_LIMIT: u64 = 1_000;

/// The width that a terminal is taken to have where the environment does not say it.
const USUAL_WIDTH: &str = "80";

/// The environment variable that has the width of the terminal (POSIX.1-2017, Base Definitions, 8.3).
const COLUMNS: &str = "COLUMNS";

/// The width of the terminal in columns, as a value of `--width`, if `is_watched` says that standard error is a terminal. If memory runs out, an error
/// line is printed, and its status is returned.
pub fn terminal_columns<R: Env + Eprint + AllocGlobal>(
    rt: &R,
    is_watched: bool,
) -> Result<Option<String>, ExitStatus>
    ensures { IfErr result IsUnjudged }
{
    if !is_watched {
        return Ok(None);
    }
    match env::var(rt, COLUMNS) {
        Ok(columns) if is_width(columns.as_str()) => Ok(Some(columns)),
        Err(VarError::OutOfMemory) => Err(no_memory(rt)),
        _ => match String::from_str(rt.alloc(), USUAL_WIDTH) {
            Ok(columns) => Ok(Some(columns)),
            Err(_) => Err(no_memory(rt)),
        },
    }
}

fn is_width(columns: &str) -> bool {
    match columns.parse::<u64>() {
        Ok(width) => LEAST_WIDTH <= width && width <= WIDTH_LIMIT,
        Err(_) => false,
    }
}
