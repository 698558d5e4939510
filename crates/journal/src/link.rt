//! Links to claims.
ghost use Rattle.std.specs.Prelude.{◌≡◌, ◌<◌, ◌+◌, ◌^◌, Some, None};
ghost use Rattle.std.specs.Option.{option_or};

use std::marker::Model;

/// The position of a claim, or none. Each claim has three links, and an `Option<u32>` takes twice
/// the memory. Contracts see the position.
#[derive(Clone, Copy)]
pub struct Link {
    /// One more than the position, or 0 if there is none.
    stored: u32,
}

impl Model for Link {
    ghost use Rattle.std.specs.Prelude.{ℕ, Option};
    ghost use Rattle.journal.specs.Links.{stored_position, stored_number, stored_again};

    ghost Value = { Option ℕ };

    ghost view = { λ link. stored_position link.stored };

    ghost inverse = { λ position. record { stored = stored_number position } };

    ghost inverse_ok = { λ link _ i. record { stored = stored_again link.stored i } };
}

impl Link {
    /// Returns a link without a position.
    pub fn none() -> Link
        ensures { result ≡ None }
    {
        Link { stored: 0 }
    }

    /// Returns a link to a position. The greatest number of 32 bits can't be stored.
    pub fn to(position: u32) -> Link
        requires { position + 1 < 2 ^ 32 }
        ensures { result ≡ Some position }
    {
        Link {
            stored: position + 1,
        }
    }

    /// Returns the position, if there is one.
    pub fn position(self) -> Option<u32>
        ensures { result ≡ self }
    {
        if self.stored == 0 {
            None
        } else {
            Some(self.stored - 1)
        }
    }

    /// Returns this link if it has a position, and the other one if not.
    pub fn or(self, other: Link) -> Link
        ensures { result ≡ option_or self other }
    {
        if self.stored == 0 { other } else { self }
    }
}
