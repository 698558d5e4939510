//! The unfinished files of commands: a command writes each output to such a file, which replaces the output once it is complete.
//!
//! A command that is killed leaves its unfinished files. While a command is at work it holds a shared lock on the folder of each output. So a later one
//! that gets an exclusive lock knows that all unfinished files in that folder are left over, and removes them.

use crate::names::{CLOSING, NOTES, OUTPUT, STREAM};
use crate::paths::{folder_and_name, led_to};
use crate::words::explains;
use clap::ArgMatches;
use std::alloc::{AllocError, Global};
use std::fs::{File, TryLockError};
use std::rt::Files;
use std::time::{Clock, Duration};
use std::{fs, io, thread};

/// The number of names whose files are removed. A command uses a further name only where all of these are taken.
const REMOVED_NAMES: u32 = 100;

/// The number of times that a lock is tried while somebody else has the folder alone. A command has it only while it removes files.
const LOCK_TRIES: u32 = 100;

/// The time between two of these.
const LOCK_MILLISECONDS: u64 = 1;

/// The locks on the folders of a command's outputs.
#[derive(Drop)]
pub struct FolderLocks {
    output: Option<File>,
    closing: Option<File>,
    notes: Option<File>,
}

/// The path of the unfinished file with this number in a folder.
pub fn unfinished_path(alloc: Global, folder: &str, number: u32) -> Result<String, AllocError> {
    format!(in alloc; "{folder}/adjudicate-unfinished-{number}")
}

/// Removes the unfinished files that interrupted commands have left in the folders of the outputs, and locks these folders. Where the system has no
/// lock for a folder, nothing is removed there. Fails if memory runs out.
pub fn lock_folders<R: Files<File = File> + Eprint + AllocGlobal + Clock>(
    rt: &R,
    words: &ArgMatches<'_>,
    is_watched: bool,
) -> Result<FolderLocks, AllocError> {
    let output = folder_of(rt, words, OUTPUT)?;
    let closing = folder_of(rt, words, CLOSING)?;
    let notes = folder_of(rt, words, NOTES)?;
    let output_is_cleared = clear_folder(rt, &output)?;
    let closing_is_cleared = clear_folder(rt, &closing)?;
    let notes_are_cleared = clear_folder(rt, &notes)?;
    let is_cleared = output_is_cleared || closing_is_cleared || notes_are_cleared;
    if is_cleared && explains(words, is_watched) {
        let line = "Unfinished files of interrupted commands were removed beside the output.";
        let _ = rt.eprintln(line);
    }
    Ok(FolderLocks {
        output: lock_folder(rt, &output),
        closing: lock_folder(rt, &closing),
        notes: lock_folder(rt, &notes),
    })
}

// The folder of an output, if the command line names the output.
fn folder_of<R: Files + AllocGlobal>(
    rt: &R,
    words: &ArgMatches<'_>,
    output: &str,
) -> Result<Option<String>, AllocError> {
    match words.get_str(output) {
        None | Some(STREAM) => Ok(None),
        Some(path) => folder_after_links(rt, path),
    }
}

fn folder_after_links<R: Files + AllocGlobal>(
    rt: &R,
    path: &str,
) -> Result<Option<String>, AllocError> {
    match led_to(rt, path) {
        Ok(led) => {
            let (folder, _) = folder_and_name(led.as_str());
            Ok(Some(String::from_str(rt.alloc(), folder)?))
        }
        Err(fault) if fault.kind() == io::ErrorKind::OutOfMemory => Err(AllocError),
        Err(_) => Ok(None),
    }
}

// Whether a file was removed.
fn clear_folder<R: Files<File = File> + AllocGlobal>(
    rt: &R,
    folder: &Option<String>,
) -> Result<bool, AllocError> {
    let Some(folder) = folder else {
        return Ok(false);
    };
    let Ok(opened) = fs::open(rt, folder.as_str()) else {
        return Ok(false);
    };
    if opened.try_lock().is_err() {
        return Ok(false);
    }
    let removed = has_removed(rt, folder.as_str());
    // The folder is locked until here.
    drop(opened);
    removed
}

fn has_removed<R: Files + AllocGlobal>(rt: &R, folder: &str) -> Result<bool, AllocError> {
    let mut has_removed = false;
    for number in 0..REMOVED_NAMES {
        if has_removed_one(rt, folder, number)? {
            has_removed = true;
        }
    }
    Ok(has_removed)
}

fn has_removed_one<R: Files + AllocGlobal>(
    rt: &R,
    folder: &str,
    number: u32,
) -> Result<bool, AllocError> {
    let path = unfinished_path(rt.alloc(), folder, number)?;
    Ok(fs::remove_file(rt, path.as_str()).is_ok())
}

fn lock_folder<R: Files<File = File> + Clock>(rt: &R, folder: &Option<String>) -> Option<File> {
    let Some(folder) = folder else {
        return None;
    };
    match fs::open(rt, folder.as_str()) {
        Ok(opened) => lock_opened(rt, opened),
        Err(_) => None,
    }
}

fn lock_opened<R: Files<File = File> + Clock>(rt: &R, opened: File) -> Option<File> {
    for _ in 0..LOCK_TRIES {
        match opened.try_lock_shared() {
            Ok(()) => return Some(opened),
            Err(TryLockError::WouldBlock) => {
                thread::sleep(rt, Duration::from_millis(LOCK_MILLISECONDS));
            }
            Err(TryLockError::Error(_)) => return None,
        }
    }
    None
}
