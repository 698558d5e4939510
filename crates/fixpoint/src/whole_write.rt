//! Writes of a whole text, in as many pieces as the writer takes.
ghost use Rattle.std.specs.Prelude.{◌≡◌, true, OnErr, OnOk, IfErr};
ghost use Rattle.std.specs.Io.KnownBytes.{Appends};
ghost use Rattle.fixpoint.specs.Out.{PutsFront, writer_of, has_failed};

use crate::out::Out;
use std::io::Write;
use thiserror::Error;

/// The writer failed before the end of a text.
#[derive(Clone, Copy, Debug, PartialEq, Eq, Error)]
#[error("the writer takes no more after {written} bytes")]
pub struct ShortWrite {
    /// The number of bytes of the text that the writer took.
    pub written: usize,
}

/// Passes the whole text to the writer, in as few writes as the writer allows. An empty text makes
/// no write and succeeds.
///
/// # Errors
///
/// Returns the number of bytes that the writer took if a write fails, or 0 if an earlier write has
/// failed.
pub fn put_all<W: Write>(text: &[u8], out: &mut Out<W>) -> Result<(), ShortWrite>
    ensures all { OnOk result (Appends (W.contents (writer_of out.old))
        (W.contents (writer_of out.new)) text.now) }
    ensures ok { OnOk result (has_failed out.new ≡ has_failed out.old) }
    ensures front { IfErr result (λ cut. PutsFront text.now cut.written
        (W.contents (writer_of out.old)) (W.contents (writer_of out.new))) }
    ensures failed { OnErr result (has_failed out.new ≡ true) }
{
    let mut written = 0;
    while written < text.len() {
        match out.put(&text[written..]) {
            Ok(count) => written += count,
            Err(_) => return Err(ShortWrite { written }),
        }
    }
    Ok(())
}
