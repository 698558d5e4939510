//! Finds texts by their names.

ghost use Rattle.std.specs.Prelude.{◌≡◌, List, ℕ, Option, None, IfOk};

use crate::names::STREAM;
use std::io::{Input, Read};
use std::rt::Files;
use std::{fs, io};

/// A set of texts with names.
pub trait Sources {
    // A thread may read it.
    type Source: Read + Drop + Send;

    // The whole text with a name, if it is known to a proof.
    ghost whole: { Self → List ℕ → Option (List ℕ) } = { λ _ _. None };

    /// A reader of the text with this name.
    fn reader_of(&self, name: &str) -> io::Result<Self::Source>
        ensures { IfOk result (λ source. Self.Source.remaining source ≡ whole self.now name.now) };

    /// Whether a read of this text may wait for another program or for a person. It is a hint: no text after such a one is opened before it is read.
    fn may_wait(&self, _source: &Self::Source) -> bool {
        false
    }
}

/// The system's files by their paths, and standard input by `-`. Their texts are not known to a proof.
#[derive(Drop)]
pub struct FileSources<'a> {
    rt: &'a HostRuntime,
}

impl<'a> FileSources<'a> {
    /// The files and the standard input of a runtime.
    pub fn new(rt: &'a HostRuntime) -> FileSources<'a> {
        FileSources { rt }
    }
}

/// A file, or standard input.
pub enum FileSource {
    File(<HostRuntime as Files>::File),
    Input(<HostRuntime as Input>::Reader),
}

// Written by hand, so that a program that owns one need not prove how each of its parts is dropped.
impl Drop for FileSource {
    fn drop(self) {
        match self {
            FileSource::File(_) => {}
            FileSource::Input(_) => {}
        }
    }
}

impl Read for FileSource {
    fn read(&mut self, buf: &mut [u8]) -> io::Result<usize> {
        match self {
            FileSource::File(file) => file.read(buf),
            FileSource::Input(input) => input.read(buf),
        }
    }
}

impl Sources for FileSources<'_> {
    type Source = FileSource;

    fn reader_of(&self, name: &str) -> io::Result<FileSource> {
        if name == STREAM {
            return Ok(FileSource::Input(self.rt.reader()));
        }
        Ok(FileSource::File(fs::open(self.rt, name)?))
    }

    fn may_wait(&self, source: &FileSource) -> bool {
        match source {
            FileSource::File(file) => !is_regular(file),
            FileSource::Input(_) => true,
        }
    }
}

// Whether this is neither a pipe nor a device.
fn is_regular(file: &<HostRuntime as Files>::File) -> bool {
    match file.metadata() {
        Ok(metadata) => metadata.is_file(),
        Err(_) => false,
    }
}
