//! The hashes of the names in a file.
ghost use Rattle.std.specs.Prelude.{◌≡◌};
ghost use Rattle.std.specs.Hash as fed;
ghost use Rattle.std.specs.Hash.DefaultHasher as sip;
ghost use Rattle.std.specs.Hash.FoldHasher as folding;
ghost use Rattle.std.specs.List.{fold};

use std::hash::{BuildHasher, DefaultHasher, FoldHasher, Hasher};

/// How the names in a file are hashed. Providers choose the names of members, and many names with
/// equal hashes would make a map slow. The hashes therefore depend on the whole text of the file,
/// which is unknown to those who only add names to it.
#[derive(Clone, Copy, Drop)]
pub struct NameHashing {
    initial: DefaultHasher,
}

impl NameHashing {
    /// Returns the hashing of the names in a text. A text is long, so it is hashed by a faster
    /// function than the names are.
    pub fn of_text(text: &[u8]) -> NameHashing
        ensures { result ≡ record {
          initial = fold sip.write sip.initial
              (fed.u64 (folding.finish (folding.write folding.initial text.now)));
        } }
    {
        let mut folded = FoldHasher::default();
        folded.write(text);
        let mut initial = DefaultHasher::new();
        initial.write_u64(folded.finish());
        NameHashing { initial }
    }
}

impl BuildHasher for NameHashing {
    type Hasher = DefaultHasher;

    ghost build_hasher = { λ h. h.initial };

    fn build_hasher(&self) -> DefaultHasher {
        self.initial
    }
}
