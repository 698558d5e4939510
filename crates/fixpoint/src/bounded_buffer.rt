//! A writer into memory with a limit on its length.
ghost use Rattle.std.specs.Prelude.{◌≡◌, [], Some};
ghost use Rattle.fixpoint.specs.Out.{held_in};

use std::alloc::Global;
use std::io;
use std::io::{ErrorKind, Write};

/// A text in memory that grows up to a limit in bytes. A write that would exceed the limit fails
/// and leaves the text unchanged.
#[derive(Drop)]
pub struct BoundedBuffer {
    text: Vec<u8>,
    most: usize,
}

impl BoundedBuffer {
    /// Returns an empty buffer that takes at most `most` bytes.
    pub fn new(alloc: Global, most: usize) -> BoundedBuffer
        ensures { held_in result ≡ [] }
    {
        BoundedBuffer {
            text: Vec::new(alloc),
            most,
        }
    }

    /// Returns the bytes written so far.
    pub fn into_text(self) -> Vec<u8>
        ensures { result.items ≡ held_in self }
    {
        self.text
    }
}

impl Write for BoundedBuffer {
    ghost use Rattle.fixpoint.specs.Out.{held_in};

    ghost contents = { λ held. Some (held_in held) };

    fn write(&mut self, piece: &[u8]) -> io::Result<usize> {
        if piece.len() > self.most.saturating_sub(self.text.len()) {
            return Err(io::Error::from(ErrorKind::Other));
        }
        self.text.write(piece)
    }

    fn flush(&mut self) -> io::Result<()> {
        Ok(())
    }
}
