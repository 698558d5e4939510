//! A writer that is full after some number of bytes, and what it has received.
use adjudicate::{Stop, ValueStop};
use fixpoint::Out;
use std::alloc::Global;
use std::io;
use std::io::{ErrorKind, Write};
use std::process::Abort;

/// The result of a write to a full writer.
#[derive(Clone, Copy)]
pub enum WhenFull {
    Fails,
    TakesNothing,
}

/// A writer that takes at most `width` bytes a write and `limit` bytes in all. It allocates only
/// when it is made.
#[derive(Drop)]
pub struct Narrow {
    taken: Vec<u8>,
    limit: usize,
    width: usize,
    when_full: WhenFull,
}

fn room_for(rt: &impl Abort, alloc: Global, limit: usize) -> Vec<u8> {
    if let Ok(room) = Vec::with_capacity(alloc, limit) {
        return room;
    }
    Vec::with_capacity(alloc, limit).expect(rt, "memory for a writer")
}

/// Returns such a writer. A refused allocation is tried once more.
pub fn narrow_writer(
    rt: &impl Abort,
    alloc: Global,
    limit: usize,
    width: usize,
    when_full: WhenFull,
) -> Out<Narrow> {
    Out::new(Narrow {
        taken: room_for(rt, alloc, limit),
        limit,
        width,
        when_full,
    })
}

impl Narrow {
    /// Returns the bytes that the writer has received.
    pub fn bytes_taken(&self) -> &[u8] {
        self.taken.as_slice()
    }
}

impl Write for Narrow {
    fn write(&mut self, piece: &[u8]) -> io::Result<usize> {
        let room = self.limit.saturating_sub(self.taken.len()).min(self.width);
        let count = piece.len().min(room);
        match self.when_full {
            WhenFull::Fails if count == 0 => return Err(io::Error::from(ErrorKind::Other)),
            _ => {}
        }
        match self.taken.extend_from_slice(&piece[..count]) {
            Ok(()) => Ok(count),
            Err(_) => Err(io::Error::from(ErrorKind::OutOfMemory)),
        }
    }

    fn flush(&mut self) -> io::Result<()> {
        Ok(())
    }
}

/// What a writer has received of a text.
#[derive(Clone, Copy)]
pub struct Received {
    /// The number of bytes.
    pub count: usize,
    /// Whether they are the first bytes of the text.
    pub is_front: bool,
    /// Whether the writer was full and had to take more.
    pub has_failed: bool,
}

/// Compares what the writer has received with a text.
pub fn compare_received(out: Out<Narrow>, text: &[u8]) -> Received {
    let has_failed = out.failed();
    let writer = out.into_inner();
    Received {
        count: writer.taken.len(),
        is_front: text.starts_with(writer.taken.as_slice()),
        has_failed,
    }
}

// Returns whether the error says that the writer failed after this number of bytes.
fn is_write_fault(stop: &Stop, wanted: usize) -> bool {
    if let Stop::Value(ValueStop::Write { written }) = stop {
        return *written == wanted;
    }
    false
}

/// Returns whether the writer has received the whole text, or, if it has less room, as many first
/// bytes as it has room for, and then the error has their number.
pub fn is_filled(answer: Result<(), Stop>, out: Out<Narrow>, limit: usize, text: &[u8]) -> bool {
    let received = compare_received(out, text);
    let wanted = limit.min(text.len());
    let is_cut = limit < text.len();
    let is_told = match answer {
        Ok(()) => !is_cut,
        Err(stop) => is_cut && is_write_fault(&stop, wanted),
    };
    is_told && received.is_front && received.count == wanted && received.has_failed == is_cut
}
