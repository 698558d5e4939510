//! Texts as values: UTF-8 of a limited length, equal if their bytes are equal.
ghost use Rattle.std.specs.Prelude.{◌≡◌, ◌≤◌, [], length, IfOk, IfSome, IfNone, OnOk, OnErr, OnSome};
ghost use Rattle.feel_tests.specs.TextBytes.{IsText};
ghost use Rattle.feel_tests.specs.Limits.{text_limit_bytes};

use smallvec::SmallVec;
use std::alloc::{AllocError, Global};
use std::cmp::Ordering;
use std::marker::Model;
use std::str;

/// The greatest length of a text, in bytes.
pub const TEXT_LIMIT_BYTES: usize = 256;

/// The greatest length of a text that is stored inline, in bytes.
const INLINE_BYTES: usize = 24;

/// A text, compared by its bytes. A short text is stored inline, and a longer one on the heap.
pub struct Text {
    bytes: SmallVec<u8, INLINE_BYTES>,
}

impl Drop for Text {
    #[inline]
    fn drop(self) {
        let Text { bytes: _ } = self;
    }
}

impl Model for Text {
    ghost use Rattle.std.specs.Prelude.{List, ℕ};
    ghost use Rattle.feel_tests.specs.TextBytes.{IsText};

    ghost Value = { List ℕ };

    ghost view = { λ t. t.bytes.items };

    ghost invariant = { λ t. IsText t.bytes.items };
}

impl Text {
    /// Copies a text of at most 256 bytes.
    #[inline(always)]
    pub fn new(alloc: Global, text: &str) -> Result<Text, AllocError>
        requires { length text.now ≤ text_limit_bytes }
        ensures { IfOk result (λ made. made ≡ text.now) }
    {
        Ok(Text {
            bytes: SmallVec::from_slice(alloc, text.as_bytes())?,
        })
    }

    /// Returns the text of these bytes, or `None` if they are not UTF-8 or exceed the limit.
    pub(crate) fn from_bytes(bytes: Vec<u8>) -> Option<Text>
        ensures value { IfSome result (λ made. made ≡ bytes.items) }
        ensures some { OnSome result (IsText bytes.items) }
        ensures none { IfNone result (¬ IsText bytes.items) }
    {
        if bytes.len() > TEXT_LIMIT_BYTES || str::from_utf8(bytes.as_slice()).is_err() {
            return None;
        }
        let mut bytes = SmallVec::from_vec(bytes);
        bytes.shrink_to_fit();
        Some(Text { bytes })
    }

    /// Replaces the text with a copy of another one, and reuses its memory if that suffices. If
    /// memory runs out, the text is empty afterwards.
    pub fn copy_from(&mut self, other: &Text) -> Result<(), AllocError>
        ensures copied { OnOk result (self.new ≡ other.now) }
        ensures emptied { OnErr result (self.new ≡ []) }
    {
        self.bytes.clear();
        self.bytes.extend_from_slice(other.as_str().as_bytes())
    }

    /// Returns the text as a string slice.
    pub fn as_str(&self) -> &str
        ensures value { result.now ≡ self.now }
        ensures fits { length self.now ≤ text_limit_bytes }
    {
        // SAFETY: the bytes are UTF-8 by the invariant.
        unsafe { str::from_utf8_unchecked(self.bytes.as_slice()) }
    }

    /// Returns the bytes of the text.
    pub fn as_bytes(&self) -> &[u8]
        ensures value { result.now ≡ self.now }
        ensures fits { length self.now ≤ text_limit_bytes }
    {
        self.bytes.as_slice()
    }
}

impl PartialEq for Text {
    ghost use Rattle.std.specs.Prelude.{nat_eq};
    ghost use Rattle.std.specs.Cmp.Lexicographic.{pointwise, nat_list_eq_equiv};
    ghost use Rattle.std.specs.Cmp;

    ghost eq = { pointwise nat_eq };

    ghost laws = { Cmp.partial_equiv_from_equiv nat_list_eq_equiv };

    fn eq(&self, other: &Text) -> bool {
        self.bytes.as_slice() == other.bytes.as_slice()
    }
}

impl Eq for Text {
    ghost use Rattle.std.specs.Cmp.Lexicographic.{nat_list_eq_equiv};

    ghost laws = { nat_list_eq_equiv };
}

impl PartialOrd for Text {
    ghost use Rattle.std.specs.Prelude.{Some};
    ghost use Rattle.std.specs.Cmp.Lexicographic.{slice_cmp, texts_po};
    ghost use Rattle.std.specs.Ordering.{nat_cmp};

    ghost partial_cmp = { λ x y. Some (slice_cmp nat_cmp x y) };

    ghost laws = { texts_po };

    fn partial_cmp(&self, other: &Text) -> Option<Ordering> {
        Some(self.cmp(other))
    }
}

impl Ord for Text {
    ghost use Rattle.std.specs.Prelude.{refl};
    ghost use Rattle.std.specs.Cmp.Lexicographic.{slice_cmp, nat_list_cmp_total, texts_ties};
    ghost use Rattle.std.specs.Ordering.{nat_cmp};

    ghost cmp = { slice_cmp nat_cmp };

    ghost total = { nat_list_cmp_total };

    ghost matches_partial_cmp = { λ x y. refl };

    ghost matches_eq = { texts_ties };

    fn cmp(&self, other: &Text) -> Ordering {
        self.as_str().cmp(other.as_str())
    }
}
