//! Paths of files: where their links lead, their folders, and whether two of them lead to the same file.

use std::fs::Metadata;
use std::os::unix::fs::MetadataExt;
use std::path::PathBuf;
use std::rt::Files;
use std::{fs, io};

/// The number of links that are followed in a row, as many as Linux follows.
const LINKS: u32 = 40;

/// The file at a path, if there is one. It is an error if the path is empty, or has something other than a file.
pub fn file_at<R: Files>(files: &R, path: &str) -> io::Result<Option<Metadata>> {
    if path.is_empty() {
        return Err(invalid_input("the name is empty"));
    }
    match metadata_if_there(fs::metadata(files, path))? {
        Some(there) if !there.is_file() => Err(invalid_input("not a regular file")),
        there => Ok(there),
    }
}

fn invalid_input(reason: &'static str) -> io::Error {
    io::Error::new(io::ErrorKind::InvalidInput, reason)
}

// It is no error that nothing is there.
fn metadata_if_there(there: io::Result<Metadata>) -> io::Result<Option<Metadata>> {
    match there {
        Ok(there) => Ok(Some(there)),
        Err(fault) if fault.kind() == io::ErrorKind::NotFound => Ok(None),
        Err(fault) => Err(fault),
    }
}

/// The end of a path's links, whether a file exists there or not.
pub fn led_to<R: Files + AllocGlobal>(files: &R, path: &str) -> io::Result<String> {
    let mut path = PathBuf::from_str(files.alloc(), path)?;
    for _ in 0..=LINKS {
        if !follow(files, &mut path)? {
            return Ok(path.into_string());
        }
    }
    Err(io::Error::from(io::ErrorKind::FilesystemLoop))
}

// Replaces the path of a link by that of its target. Returns false if there is no link at the path.
fn follow<R: Files + AllocGlobal>(files: &R, path: &mut PathBuf) -> io::Result<bool> {
    let is_link = match metadata_if_there(fs::symlink_metadata(files, &*path))? {
        Some(there) => there.is_symlink(),
        None => false,
    };
    if is_link {
        let target = fs::read_link(files, &*path)?;
        // A relative target is relative to the link's folder.
        path.pop();
        path.push(&target)?;
    }
    Ok(is_link)
}

/// The folder and the name of a path.
pub fn folder_and_name(path: &str) -> (&str, &str) {
    match path.rfind('/') {
        Some(0) => ("/", &path[1..]),
        Some(end) => (&path[..end], &path[end + 1..]),
        None => (".", path),
    }
}

/// Whether two paths lead to the same file or folder.
pub fn is_same_file<R: Files>(files: &R, first: &str, second: &str) -> bool {
    match (fs::metadata(files, first), fs::metadata(files, second)) {
        (Ok(first), Ok(second)) => first.dev() == second.dev() && first.ino() == second.ino(),
        _ => false,
    }
}

/// Whether two paths would lead to the same file, once it is created.
pub fn is_same_new_file<R: Files + AllocGlobal>(files: &R, first: &str, second: &str) -> bool {
    match (led_to(files, first), led_to(files, second)) {
        (Ok(first), Ok(second)) => has_same_place(files, first.as_str(), second.as_str()),
        _ => false,
    }
}

fn has_same_place<R: Files>(files: &R, first: &str, second: &str) -> bool {
    let (first_folder, first_name) = folder_and_name(first);
    let (second_folder, second_name) = folder_and_name(second);
    first_name == second_name && is_same_file(files, first_folder, second_folder)
}
