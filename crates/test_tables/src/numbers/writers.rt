//! Writers that are full after some bytes.
ghost use Rattle.std.specs.Prelude.{◌<◌, length};

use crate::ending::expects;
use fixpoint::{BoundedBuffer, BufferedOut, Failed, Out, PIECE_BYTES, ShortWrite, put_all};
use std::alloc::Global;
use std::io;
use std::io::{ErrorKind, Write};
use std::process::Abort;

/// The behaviour of a full writer.
#[derive(Clone, Copy)]
enum WhenFull {
    Fails,
    TakesNothing,
}

/// A writer that takes at most `room` bytes and counts its calls of `write`.
#[derive(Drop)]
struct Limited {
    taken: Vec<u8>,
    room: usize,
    when_full: WhenFull,
    writes: usize,
}

impl Limited {
    fn new(alloc: Global, room: usize, when_full: WhenFull) -> Limited {
        Limited {
            taken: Vec::new(alloc),
            room,
            when_full,
            writes: 0,
        }
    }
}

impl Write for Limited {
    fn write(&mut self, piece: &[u8]) -> io::Result<usize> {
        self.writes = self.writes.saturating_add(1);
        let count = piece.len().min(self.room);
        match self.when_full {
            WhenFull::Fails if count == 0 => return Err(io::Error::from(ErrorKind::Other)),
            _ => {}
        }
        self.taken.extend_from_slice(&piece[..count])?;
        self.room -= count;
        Ok(count)
    }

    fn flush(&mut self) -> io::Result<()> {
        Ok(())
    }
}

// Requires that the writer has taken these bytes in three writes.
fn has_taken(rt: &impl Abort, out: Out<Limited>, bytes: &[u8]) {
    expects(rt, is_as_far(out.into_inner(), bytes), "three writes");
}

fn is_as_far(writer: Limited, bytes: &[u8]) -> bool {
    writer.taken.as_slice() == bytes && writer.writes == 3
}

// Tests one `put` against its expected result, and whether the writer has failed afterwards.
fn puts(
    rt: &impl Abort,
    out: &mut Out<Limited>,
    piece: &[u8],
    wanted: Result<usize, Failed>,
    failed: bool,
)
    requires { 0 < length piece.now }
{
    expects(rt, out.put(piece) == wanted, "a count or a failure");
    expects(rt, out.failed() == failed, "the failure or none");
}

fn put_until_full(rt: &impl Abort, alloc: Global, when_full: WhenFull) {
    let mut out = Out::new(Limited::new(alloc, 3, when_full));
    expects(rt, !out.failed(), "no failure");
    puts(rt, &mut out, b"ab", Ok(2), false);
    puts(rt, &mut out, b"cd", Ok(1), false);
    puts(rt, &mut out, b"d", Err(Failed), true);
    puts(rt, &mut out, b"d", Err(Failed), true);
    has_taken(rt, out, b"abc");
}

#[test]
fn puts_until_the_writer_is_full(rt: HostRuntime) {
    put_until_full(&rt, rt.alloc(), WhenFull::Fails);
    put_until_full(&rt, rt.alloc(), WhenFull::TakesNothing);
}

// Tests one call of `put_all` against its expected result, and whether the writer has failed
// afterwards.
fn puts_text(
    rt: &impl Abort,
    out: &mut Out<Limited>,
    text: &[u8],
    wanted: Result<(), ShortWrite>,
    failed: bool,
) {
    expects(rt, put_all(text, out) == wanted, "the whole text or a cut");
    expects(rt, out.failed() == failed, "the failure or none");
}

fn put_texts_until_full(rt: &impl Abort, alloc: Global, when_full: WhenFull) {
    let mut out = Out::new(Limited::new(alloc, 5, when_full));
    puts_text(rt, &mut out, b"", Ok(()), false);
    puts_text(rt, &mut out, b"abcd", Ok(()), false);
    puts_text(rt, &mut out, b"efg", Err(ShortWrite { written: 1 }), true);
    puts_text(rt, &mut out, b"", Ok(()), true);
    puts_text(rt, &mut out, b"fg", Err(ShortWrite { written: 0 }), true);
    has_taken(rt, out, b"abcde");
}

#[test]
fn puts_a_text_until_the_writer_is_full(rt: HostRuntime) {
    put_texts_until_full(&rt, rt.alloc(), WhenFull::Fails);
    put_texts_until_full(&rt, rt.alloc(), WhenFull::TakesNothing);
}

// Tests one write into a bounded buffer: the number of bytes that it takes, or `None` if it takes
// none.
fn takes(rt: &impl Abort, held: &mut BoundedBuffer, piece: &[u8], wanted: Option<usize>) {
    expects(rt, held.write(piece).ok() == wanted, "a count or none");
}

#[test]
fn a_text_is_held_up_to_its_limit(rt: HostRuntime) {
    let mut held = BoundedBuffer::new(rt.alloc(), 3);
    takes(&rt, &mut held, b"ab", Some(2));
    takes(&rt, &mut held, b"cd", None);
    takes(&rt, &mut held, b"c", Some(1));
    expects(&rt, is_held(held), "three bytes");
}

fn is_held(held: BoundedBuffer) -> bool {
    held.into_text().as_slice() == b"abc".as_slice()
}

// Tests how far a buffered text has come: the number of bytes that the writer has received, and
// whether the text is cut.
fn is_at(rt: &impl Abort, text: &BufferedOut, written: usize, cut: bool) {
    expects(rt, text.bytes_written() == written, "a number of bytes");
    expects(rt, text.is_cut() == cut, "a cut or none");
}

#[test]
fn a_buffered_text_ends_with_its_length(rt: HostRuntime) {
    let mut out = Out::new(Limited::new(rt.alloc(), 5, WhenFull::Fails));
    let mut text = BufferedOut::new(rt.alloc());
    text.put(b"ab", &mut out);
    is_at(&rt, &text, 0, false);
    text.hand_over(&mut out);
    is_at(&rt, &text, 2, false);
    text.put(b"c", &mut out);
    text.put(b"d", &mut out);
    text.hand_over(&mut out);
    text.put(b"e", &mut out);
    expects(&rt, text.end(&mut out) == Ok(5), "the whole text");
    has_taken(&rt, out, b"abcde");
}

// Returns a text that begins with `front` and has `PIECE_BYTES` bytes more.
fn longer_than_a_piece(rt: &impl Abort, alloc: Global, front: &[u8]) -> Vec<u8> {
    let mut text = Vec::new(alloc);
    expects(rt, text.extend_from_slice(front).is_ok(), "memory");
    for _ in 0..PIECE_BYTES {
        expects(rt, text.push(b'x').is_ok(), "memory");
    }
    text
}

#[test]
fn a_text_of_the_size_of_the_buffer_is_passed_on_after_it(rt: HostRuntime) {
    let full = PIECE_BYTES + 2;
    let mut out = Out::new(Limited::new(rt.alloc(), full, WhenFull::Fails));
    let mut text = BufferedOut::new(rt.alloc());
    text.put(b"ab", &mut out);
    text.put(
        longer_than_a_piece(&rt, rt.alloc(), b"").as_slice(),
        &mut out,
    );
    is_at(&rt, &text, full, false);
    text.put(b"c", &mut out);
    is_at(&rt, &text, full, false);
    text.hand_over(&mut out);
    is_at(&rt, &text, full, true);
    expects(&rt, is_cut_at(text.end(&mut out), full), "a cut");
    has_taken(
        &rt,
        out,
        longer_than_a_piece(&rt, rt.alloc(), b"ab").as_slice(),
    );
}

fn is_cut_at(answer: Result<usize, ShortWrite>, wanted: usize) -> bool {
    answer == Err(ShortWrite { written: wanted })
}
