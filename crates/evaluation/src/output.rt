//! The output of a whole text.

ghost use Rattle.std.specs.Prelude.{◌≡◌, true, IfErr, OnOk, OnErr};
ghost use Rattle.std.specs.Io.KnownBytes.{Appends};
ghost use Rattle.fixpoint.specs.Out.{writer_of, has_failed};
ghost use Rattle.evaluation.specs.Stop.{PutsUntil};

use crate::stop::ValueStop;
use fixpoint::{Out, ShortWrite, put_all};
use std::io::Write;

/// Passes the whole text to the writer.
///
/// # Errors
///
/// Returns a write fault with the number of bytes that the writer received if the writer fails.
pub fn put_text<W: Write>(text: &[u8], out: &mut Out<W>) -> Result<(), ValueStop>
    ensures ok { OnOk result (Appends (W.contents (writer_of out.old))
        (W.contents (writer_of out.new)) text.now) }
    ensures ok_failed { OnOk result (has_failed out.new ≡ has_failed out.old) }
    ensures err { IfErr result (PutsUntil text.now
        (W.contents (writer_of out.old)) (W.contents (writer_of out.new))) }
    ensures failed { OnErr result (has_failed out.new ≡ true) }
{
    match put_all(text, out) {
        Ok(()) => Ok(()),
        Err(ShortWrite { written }) => Err(ValueStop::Write { written }),
    }
}
