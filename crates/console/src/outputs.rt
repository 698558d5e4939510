//! Looks at the outputs that the command line names, before anything is read.

ghost use Rattle.std.specs.Prelude.{◌≡◌, IfErr};
ghost use Rattle.console.specs.declared.exit_status.ExitStatus.TheVariants.{Usage};
ghost use Rattle.console.specs.ExitStatus.{IsUnjudged};

use crate::exit_status::{ExitStatus, no_memory, print_error};
use crate::names::{BALANCES, CASES, CLOSING, FILE, NOTES, OLD, OUTPUT, PLAN, ROWS, STREAM};
use crate::paths::{is_same_file, is_same_new_file};
use crate::unfinished::{FolderLocks, lock_folders};
use clap::{ArgMatches, Error};
use std::fs::File;
use std::rt::Files;
use std::time::Clock;

/// The path by which the system names the standard input of a process.
const STANDARD_INPUT: &str = "/dev/stdin";

/// Refuses outputs that are named for something else as well, and then locks the folders of the others. A command line that is not valid has no outputs.
pub fn prepare_outputs<R: Files<File = File> + Eprint + AllocGlobal + Clock>(
    rt: &R,
    matched: &Result<ArgMatches<'_>, Error>,
    is_watched: bool,
) -> Result<Option<FolderLocks>, ExitStatus>
    ensures { IfErr result IsUnjudged }
{
    let Ok(matches) = matched else {
        return Ok(None);
    };
    let Some((_, words)) = matches.subcommand() else {
        return Ok(None);
    };
    outputs_apart(rt, words)?;
    match lock_folders(rt, words, is_watched) {
        Ok(locks) => Ok(Some(locks)),
        Err(_) => Err(no_memory(rt)),
    }
}

/// Prints an error and returns its status if an output would replace a file that the command reads, or another output, by whatever names. The closing
/// balances and the notes must also have a file.
fn outputs_apart<R: Files + Eprint + AllocGlobal>(
    rt: &R,
    words: &ArgMatches<'_>,
) -> Result<(), ExitStatus>
    ensures { IfErr result (λ status. status ≡ Usage) }
{
    if output_is_input(rt, words) {
        let line = "error: `--output` must name a file that the command does not read";
        return Err(print_error(rt, line, ExitStatus::Usage));
    }
    if has_taken_path(rt, words, CLOSING, &[OUTPUT]) {
        let line = "error: `--closing` must name a file that nothing else names";
        return Err(print_error(rt, line, ExitStatus::Usage));
    }
    if has_taken_path(rt, words, NOTES, &[OUTPUT, CLOSING]) {
        let line = "error: `--notes` must name a file that nothing else names";
        return Err(print_error(rt, line, ExitStatus::Usage));
    }
    Ok(())
}

fn output_is_input<R: Files>(files: &R, words: &ArgMatches<'_>) -> bool {
    match words.get_str(OUTPUT) {
        Some(output) => output != STREAM && is_input(files, words, output),
        None => false,
    }
}

// Whether this output has a path that is taken, by an input or by one of the other outputs.
fn has_taken_path<R: Files + AllocGlobal>(
    rt: &R,
    words: &ArgMatches<'_>,
    name: &str,
    outputs: &[&str],
) -> bool {
    match words.get_str(name) {
        Some(path) => is_taken(rt, words, path, outputs),
        None => false,
    }
}

// Whether a path is a stream, or leads to the file of an input or of one of these outputs.
fn is_taken<R: Files + AllocGlobal>(
    rt: &R,
    words: &ArgMatches<'_>,
    path: &str,
    outputs: &[&str],
) -> bool {
    if path == STREAM || is_input(rt, words, path) {
        return true;
    }
    for name in outputs {
        if is_output(rt, words, *name, path) {
            return true;
        }
    }
    false
}

fn is_input<R: Files>(files: &R, words: &ArgMatches<'_>, path: &str) -> bool {
    for name in [PLAN, OLD, BALANCES, CASES, ROWS] {
        if let Some(input) = words.get_str(name)
            && is_file_of(files, path, input)
        {
            return true;
        }
    }
    for input in words.get_strs(FILE).unwrap_or(&[]) {
        if is_file_of(files, path, input) {
            return true;
        }
    }
    false
}

// Whether a path leads to the file of an input.
fn is_file_of<R: Files>(files: &R, path: &str, input: &str) -> bool {
    let input = if input == STREAM {
        STANDARD_INPUT
    } else {
        input
    };
    path == input || is_same_file(files, path, input)
}

// Whether a path leads to the file of this output, also if it does not exist yet.
fn is_output<R: Files + AllocGlobal>(
    files: &R,
    words: &ArgMatches<'_>,
    name: &str,
    path: &str,
) -> bool {
    match words.get_str(name) {
        Some(output) => {
            is_same_file(files, path, output) || is_same_new_file(files, path, output)
        }
        None => false,
    }
}
