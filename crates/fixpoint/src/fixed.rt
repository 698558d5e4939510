//! Decimals with four places, stored as a whole count of ten-thousandths.
ghost use Rattle.std.specs.Prelude.{◌≡◌, ◌≤◌, ◌↔◌, ℤ, ◌+ℤ◌, ◌-ℤ◌, take, IsTrue, IfSome, OnErr};
ghost use Rattle.std.specs.Int.{int_max, int_min};
ghost use Rattle.std.specs.Option.{SomeIff};
ghost use Rattle.fixpoint.specs.Money.{cents_of_product, is_money, is_rate, money_text, IsCents, IsCentsOfProduct, IsMoney};
ghost use Rattle.fixpoint.specs.Number.{IsInRange};
ghost use Rattle.fixpoint.specs.NumberText.{Denotes, IsAnswer, shortest_text};

use crate::fault::NumFault;
use crate::rounding::cents_of_product;
use crate::{reading, writing};
use std::marker::Model;

/// The number of units in one: a unit is a ten-thousandth.
pub const UNITS_PER_ONE: i64 = 10_000;

/// The greatest absolute value of a number, in units.
pub const MAX_UNITS: i64 = 999_999_999_999_999;

/// A decimal with four places, from -99,999,999,999.9999 to 99,999,999,999.9999.
#[derive(Clone, Copy, PartialEq, Eq, PartialOrd, Ord)]
pub struct Fixed {
    units: i64,
}

impl Model for Fixed {
    ghost Value = { ℤ };

    ghost view = { λ n. n.units };

    ghost invariant = { λ n. IsInRange n.units };

    ghost inverse = { λ units. record { units = units } };
}

impl Fixed {
    /// Reads a whole text as a number: an optional `-`, then digits that an optional `.` and more
    /// digits may follow, or a `.` and digits alone.
    ///
    /// # Errors
    ///
    /// Returns `NotNumber`, `TooFine` (a digit after the fourth decimal is not zero) or `TooLarge`
    /// for every other text, whichever of these comes first.
    pub fn parse(text: &[u8]) -> Result<Fixed, NumFault>
        ensures answers { IsAnswer text.now result }
        ensures refused { OnErr result ((units : ℤ) → ¬ Denotes text.now units) }
    {
        let (negative, whole, fraction) = reading::parts(text).ok_or(NumFault::NotNumber)?;
        let count = reading::ten_thousandths(whole, fraction)?;
        let count = count as i64;
        let units = if negative { -count } else { count };
        Ok(Fixed { units })
    }

    /// Returns the number of `units` ten-thousandths, or `None` if their absolute value exceeds
    /// 999,999,999,999,999.
    pub fn from_units(units: i64) -> Option<Fixed>
        ensures { SomeIff result (IsInRange units) units }
    {
        if -MAX_UNITS <= units && units <= MAX_UNITS {
            Some(Fixed { units })
        } else {
            None
        }
    }

    /// Returns the number as a count of ten-thousandths.
    pub fn units(self) -> i64
        ensures value { result ≡ self }
        ensures in_range { IsInRange result }
    {
        let Fixed { units } = self;
        units
    }

    /// Writes the number's shortest text at the start of the buffer and returns its length in
    /// bytes.
    pub fn write_into(self, buffer: &mut [u8; 24]) -> usize
        ensures fits { result ≤ 24 }
        ensures written { take result buffer.new ≡ shortest_text self }
    {
        writing::write_shortest(self.units, buffer)
    }

    /// Returns the exact sum, or `None` if it is out of range.
    pub fn add(self, other: Fixed) -> Option<Fixed>
        ensures { SomeIff result (IsInRange (self +ℤ other)) (self +ℤ other) }
    {
        Fixed::from_units(self.units + other.units)
    }

    /// Returns the exact difference, or `None` if it is out of range.
    pub fn sub(self, other: Fixed) -> Option<Fixed>
        ensures { SomeIff result (IsInRange (self -ℤ other)) (self -ℤ other) }
    {
        Fixed::from_units(self.units - other.units)
    }

    /// Returns the product, rounded once to whole cents, half to even, or `None` if it is out of
    /// range.
    pub fn mul_cents(self, rate: Fixed) -> Option<Fixed>
        ensures exact { SomeIff result (IsInRange (cents_of_product self rate))
            (cents_of_product self rate) }
        ensures rounded { IfSome result (IsCentsOfProduct self rate) }
    {
        let units = cents_of_product(self.units, rate.units);
        match i64::try_from(units) {
            Ok(units) => Fixed::from_units(units),
            Err(_) => None,
        }
    }

    /// Returns whether the number is a whole count of cents.
    pub fn is_cents(self) -> bool
        ensures { IsTrue result ↔ IsCents self }
    {
        self.units.unsigned_abs() % 100 == 0
    }

    /// Returns whether the number is a whole count of cents and not negative.
    pub fn is_money(self) -> bool
        ensures money { IsTrue result ↔ IsMoney self }
        ensures value { result ≡ is_money self }
    {
        self.is_cents() && self.units >= 0
    }

    /// Returns whether the number is from 0 to 1.
    pub fn is_rate(self) -> bool
        ensures { result ≡ is_rate self }
    {
        0 <= self.units && self.units <= UNITS_PER_ONE
    }

    /// Returns the smaller of the two numbers.
    pub fn min(self, other: Fixed) -> Fixed
        ensures { result ≡ int_min self other }
    {
        if other < self { other } else { self }
    }

    /// Returns the greater of the two numbers.
    pub fn max(self, other: Fixed) -> Fixed
        ensures { result ≡ int_max self other }
    {
        if other < self { self } else { other }
    }

    /// Writes the number's text with exactly two decimals at the start of the buffer and returns
    /// its length in bytes.
    pub fn write_money(self, buffer: &mut [u8; 24]) -> usize
        requires { IsCents self }
        ensures fits { result ≤ 24 }
        ensures written { take result buffer.new ≡ money_text self }
    {
        writing::money(self.units, buffer)
    }
}
