//! Rates.
ghost use Rattle.std.specs.Prelude.{◌≡◌};
ghost use Rattle.std.specs.Option.{SomeIff};
ghost use Rattle.fixpoint.specs.Money.{IsRate};

use fixpoint::Fixed;
use std::marker::Model;

/// A number from 0 to 1. Contracts see it as its units, ten-thousandths.
#[derive(Clone, Copy)]
pub struct Rate {
    number: Fixed,
}

impl Model for Rate {
    ghost use Rattle.std.specs.Prelude.{ℤ};
    ghost use Rattle.fixpoint.specs.Money.{IsRate};

    ghost Value = { ℤ };

    ghost view = { λ r. r.number };

    ghost invariant = { λ r. IsRate r.number };

    ghost inverse = { λ units. record { number = units } };
}

impl Rate {
    /// Returns the number as a rate, or `None` if it is not from 0 to 1.
    pub fn new(number: Fixed) -> Option<Rate>
        ensures { SomeIff result (IsRate number) number }
    {
        if number.is_rate() {
            Some(Rate { number })
        } else {
            None
        }
    }

    /// Returns the rate as a number.
    pub fn number(self) -> Fixed
        ensures value { result ≡ self }
        ensures rate { IsRate result }
    {
        self.number
    }
}
