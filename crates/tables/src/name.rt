//! The names of input data and outputs.
ghost use Rattle.std.specs.Prelude.{◌≡◌, ◌≤◌, length, IfOk};
ghost use Rattle.tables.specs.Limits.{name_limit_bytes};

use std::alloc::{AllocError, Global};
use std::marker::Model;

/// The greatest length of a name, in bytes.
pub const NAME_LIMIT_BYTES: usize = 64;

/// The name of input data or of an output, of at most `NAME_LIMIT_BYTES` bytes. Contracts see it as
/// its bytes.
#[derive(Debug)]
pub struct Name {
    text: String,
}

impl Drop for Name {
    fn drop(self) {
        let Name { text: _ } = self;
    }
}

impl Model for Name {
    ghost use Rattle.std.specs.Prelude.{List, ℕ, ◌≤◌, length, string_bytes};
    ghost use Rattle.tables.specs.Limits.{name_limit_bytes};

    ghost Value = { List ℕ };

    ghost view = { λ n. string_bytes n.text };

    ghost invariant = { λ n. length (string_bytes n.text) ≤ name_limit_bytes };
}

impl Name {
    /// Copies a name of at most `NAME_LIMIT_BYTES` bytes.
    pub fn new(alloc: Global, text: &str) -> Result<Name, AllocError>
        requires { length text.now ≤ name_limit_bytes }
        ensures { IfOk result (λ name. name ≡ text.now) }
    {
        Ok(Name {
            text: String::from_str(alloc, text)?,
        })
    }

    /// Returns the name as a string slice.
    pub fn as_str(&self) -> &str
        ensures text { result.now ≡ self.now }
        ensures short { length self.now ≤ name_limit_bytes }
    {
        self.text.as_str()
    }
}
