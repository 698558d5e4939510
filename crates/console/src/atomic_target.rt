//! A place whose text is replaced atomically.

ghost use Rattle.std.specs.Prelude.{◌≡◌, List, ℕ, Option, None, true, false, IfOk, OnOk, OnErr};
ghost use Rattle.std.specs.Io.KnownBytes.{Keeps};
ghost use Rattle.console.specs.AtomicTarget.{Becomes, BeginsEmpty};

use std::io;
use std::io::Write;

/// A place with a text, which a new text can replace atomically.
pub trait AtomicTarget {
    type Text: Write + Drop;

    // The text of the place, if it is known to a proof.
    ghost current: { Self → Option (List ℕ) } = { λ _. None };

    /// Begins a new text, which is empty. The place keeps the old one.
    fn begin(&mut self) -> io::Result<Self::Text>
        ensures empty { IfOk result (λ text.
            BeginsEmpty (current self.old) (Self.Text.contents text)) }
        ensures kept { Keeps (current self.old) (current self.new) };

    /// Replaces the old text by the new one. After an error the place has the old one.
    fn commit(&mut self, text: Self::Text) -> io::Result<()>
        ensures put { OnOk result
            (Becomes (current self.old) (current self.new) (Self.Text.contents text)) }
        ensures kept { OnErr result (Keeps (current self.old) (current self.new)) };

    /// Discards the new text.
    fn discard(&mut self, text: Self::Text)
        ensures kept { Keeps (current self.old) (current self.new) };
}

/// Ends the writing of a text. A complete text replaces the old one, and any other is discarded.
pub fn finish<P: AtomicTarget>(place: &mut P, text: P::Text, is_whole: bool) -> io::Result<()>
    ensures put { is_whole ≡ true → OnOk result
        (Becomes (P.current place.old) (P.current place.new) (P.Text.contents text)) }
    ensures kept { is_whole ≡ false → Keeps (P.current place.old) (P.current place.new) }
    ensures refused { OnErr result (Keeps (P.current place.old) (P.current place.new)) }
{
    if is_whole {
        place.commit(text)
    } else {
        place.discard(text);
        Ok(())
    }
}
