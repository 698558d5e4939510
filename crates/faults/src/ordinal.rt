//! Numbers that count from 1, as messages have them.
ghost use Rattle.std.specs.Prelude.{◌≡◌, ◌≤◌, ◌<◌, ◌+◌, ◌^◌};
ghost use Rattle.std.specs.Option.{SomeIff};

use std::marker::Model;

/// The number of a table, of a rule or of a column, counted from 1. Contracts see it as that number.
#[derive(Clone, Copy, PartialEq, Eq)]
pub struct Ordinal {
    number: usize,
}

impl Model for Ordinal {
    ghost use Rattle.std.specs.Prelude.{ℕ, ◌≤◌};

    ghost Value = { ℕ };

    ghost view = { λ o. o.number };

    ghost invariant = { λ o. 1 ≤ o.number };

    ghost inverse = { λ number. record { number = number } };
}

impl Ordinal {
    /// Returns the number of the item at this index, which counts from 0.
    pub fn at(index: usize) -> Ordinal
        requires { index + 1 < 2 ^ 64 }
        ensures { result ≡ index + 1 }
    {
        Ordinal { number: index + 1 }
    }

    /// Returns this number, unless it is 0.
    pub fn with_number(number: usize) -> Option<Ordinal>
        ensures { SomeIff result (1 ≤ number) number }
    {
        if number >= 1 {
            Some(Ordinal { number })
        } else {
            None
        }
    }

    /// Returns the number.
    pub fn number(self) -> usize
        ensures number { result ≡ self }
        ensures positive { 1 ≤ result }
    {
        self.number
    }

    /// Returns the index of the item, counted from 0.
    pub fn index(self) -> usize
        ensures { result + 1 ≡ self }
    {
        self.number - 1
    }
}
