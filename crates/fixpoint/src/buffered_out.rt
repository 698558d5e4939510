//! A buffer for a text that is passed on to a writer in large pieces.
ghost use Rattle.std.specs.Prelude.{◌≡◌, ◌≤◌, ◌++◌, [], length};
ghost use Rattle.std.specs.Bool.{OnFalse, OnTrue};
ghost use Rattle.fixpoint.specs.Out.{has_failed, writer_of};
ghost use Rattle.fixpoint.specs.BufferedOut.{Ends, IsEmpty, Passes, Puts, Stays, at, at_progress, is_cut, unsent_of, written_of};

use crate::out::Out;
use crate::whole_write::{ShortWrite, put_all};
use std::alloc::Global;
use std::io::Write;

/// The size of the buffer, in bytes.
pub const PIECE_BYTES: usize = 65_536;

/// The progress of a text into a writer.
#[derive(Drop)]
struct Progress {
    // The number of bytes that the writer received.
    written: usize,
    // Whether the text is cut: the writer failed before its end, or it is longer than any count. It
    // receives no more bytes then.
    is_cut: bool,
}

impl Progress {
    // Passes more of the text on to the writer, unless the text is cut.
    fn pass<W: Write>(&mut self, text: &[u8], out: &mut Out<W>)
        ensures passes { Passes
            (at_progress (W.contents (writer_of out.old)) (has_failed out.old) self.old)
            (at_progress (W.contents (writer_of out.new)) (has_failed out.new) self.new) text.now }
        ensures stays { Stays self.old.is_cut self.new.is_cut
            (has_failed out.old) (has_failed out.new) }
    {
        if self.is_cut {
            return;
        }
        // No real writer takes that many bytes. The test keeps the sums below from overflowing.
        if text.len() > usize::MAX - self.written {
            self.is_cut = true;
            return;
        }
        match put_all(text, out) {
            Ok(()) => self.written += text.len(),
            Err(short) => {
                self.written += short.written;
                self.is_cut = true;
            }
        }
    }
}

/// The buffered end of a text, and the progress of the text before it.
///
/// What the writer has received is always a prefix of the text that was put. If the writer fails
/// before the end of the text, it receives no more bytes, and the text is cut. A text of more than
/// `usize::MAX` bytes is cut as well, so that the number of bytes is always exact.
#[derive(Drop)]
pub struct BufferedOut {
    gathered: Vec<u8>,
    progress: Progress,
}

impl BufferedOut {
    /// Returns an empty buffer. It allocates as the text grows; if memory runs out, the text is
    /// passed on at once.
    pub fn new(alloc: Global) -> BufferedOut
        ensures { IsEmpty result }
    {
        BufferedOut {
            gathered: Vec::new(alloc),
            progress: Progress {
                written: 0,
                is_cut: false,
            },
        }
    }

    /// Returns the number of bytes that the writer has received.
    pub fn bytes_written(&self) -> usize
        ensures { result ≡ written_of self.now }
    {
        self.progress.written
    }

    /// Returns whether the text is cut.
    pub fn is_cut(&self) -> bool
        ensures { result ≡ is_cut self.now }
    {
        self.progress.is_cut
    }

    /// Appends to the text. A text that does not fit into the buffer is passed on without a copy,
    /// after the buffer.
    pub fn put<W: Write>(&mut self, text: &[u8], out: &mut Out<W>)
        ensures puts { Puts (at (W.contents (writer_of out.old)) (has_failed out.old) self.old)
            (at (W.contents (writer_of out.new)) (has_failed out.new) self.new) text.now }
        ensures stays { Stays (is_cut self.old) (is_cut self.new)
            (has_failed out.old) (has_failed out.new) }
        ensures bounded { length (unsent_of self.old) ≤ PIECE_BYTES
            → length (unsent_of self.new) ≤ PIECE_BYTES }
    {
        if self.gather(text) {
            return;
        }
        self.hand_over(out);
        self.progress.pass(text, out);
    }

    /// Passes on the buffer, and reuses its memory.
    pub fn hand_over<W: Write>(&mut self, out: &mut Out<W>)
        ensures puts { Puts (at (W.contents (writer_of out.old)) (has_failed out.old) self.old)
            (at (W.contents (writer_of out.new)) (has_failed out.new) self.new) [] }
        ensures all { unsent_of self.new ≡ [] }
        ensures stays { Stays (is_cut self.old) (is_cut self.new)
            (has_failed out.old) (has_failed out.new) }
    {
        self.progress.pass(self.gathered.as_slice(), out);
        self.gathered.clear();
    }

    /// Passes on the buffer at the end of the text, and returns the length of the text in bytes.
    ///
    /// # Errors
    ///
    /// Returns the number of bytes that the writer received if the text is cut.
    pub fn end<W: Write>(mut self, out: &mut Out<W>) -> Result<usize, ShortWrite>
        ensures { Ends (at (W.contents (writer_of out.old)) (has_failed out.old) self)
            (W.contents (writer_of out.new)) (has_failed out.new) result }
    {
        self.hand_over(out);
        let Progress { written, is_cut } = self.progress;
        if is_cut {
            Err(ShortWrite { written })
        } else {
            Ok(written)
        }
    }

    // Buffers the text if there is room for it, and returns whether it did.
    fn gather(&mut self, text: &[u8]) -> bool
        ensures yes { OnTrue result (unsent_of self.new ≡ unsent_of self.old ++ text.now) }
        ensures no { OnFalse result (unsent_of self.new ≡ unsent_of self.old) }
        ensures same { self.new.progress ≡ self.old.progress }
        ensures bounded { length (unsent_of self.old) ≤ PIECE_BYTES
            → length (unsent_of self.new) ≤ PIECE_BYTES }
    {
        let room = PIECE_BYTES.saturating_sub(self.gathered.len());
        text.len() <= room && self.gathered.extend_from_slice(text).is_ok()
    }
}
