//! A writer that makes one write a call, and none after a failed one.
use std::io::Write;
use thiserror::Error;

/// A write failed, in this call or in an earlier one.
#[derive(Clone, Copy, Debug, PartialEq, Eq, Error)]
#[error("the writer takes no more bytes")]
pub struct Failed;

/// Passes bytes to a writer until one write fails.
#[derive(Drop)]
pub struct Out<W> {
    writer: W,
    failed: bool,
}

impl<W: Write> Out<W> {
    ghost use Rattle.std.specs.Prelude.{◌≡◌, ◌<◌, ◌≤◌, true, false, length, take, OnErr, OnOk, IfOk, IsErr, IsTrue};
    ghost use Rattle.std.specs.Io.KnownBytes.{Appends, Keeps};
    ghost use Rattle.fixpoint.specs.Out.{writer_of, has_failed};

    /// Wraps a writer; no write has failed yet.
    pub fn new(writer: W) -> Out<W>
        ensures writer { writer_of result ≡ writer }
        ensures failed { has_failed result ≡ false }
    {
        Out {
            writer,
            failed: false,
        }
    }

    /// Returns the writer.
    pub fn into_inner(self) -> W
        ensures { result ≡ writer_of self }
    {
        self.writer
    }

    /// Returns whether a `put` has failed.
    pub fn failed(&self) -> bool
        ensures { result ≡ has_failed self.now }
    {
        self.failed
    }

    /// Passes the bytes to the writer in one write, and returns how many of them it took, at least
    /// one.
    ///
    /// # Errors
    ///
    /// Returns `Failed` if the write fails, or if an earlier one has failed.
    pub fn put(&mut self, piece: &[u8]) -> Result<usize, Failed>
        requires { 0 < length piece.now }
        ensures wrote { IfOk result (λ count. (1 ≤ count) × (count ≤ length piece.now)) }
        ensures bytes { IfOk result (λ count. Appends (W.contents (writer_of self.old))
            (W.contents (writer_of self.new)) (take count piece.now)) }
        ensures ok { OnOk result ((has_failed self.old ≡ false) × (has_failed self.new ≡ false)) }
        ensures failed { OnErr result (has_failed self.new ≡ true) }
        ensures nothing { OnErr result (Keeps (W.contents (writer_of self.old))
            (W.contents (writer_of self.new))) }
        ensures later { IsTrue (has_failed self.old)
            → IsErr result × (writer_of self.new ≡ writer_of self.old) }
    {
        let Out { writer, failed } = self;
        if *failed {
            return Err(Failed);
        }
        match writer.write(piece) {
            Ok(count) if count > 0 => Ok(count),
            _ => {
                *failed = true;
                Err(Failed)
            }
        }
    }
}
