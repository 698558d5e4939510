//! Amounts of money.
ghost use Rattle.std.specs.Prelude.{◌≡◌, ℤ, pos, ◌+ℤ◌, ◌-ℤ◌, ◌≤ℤ◌, IsTrue};
ghost use Rattle.std.specs.Int.{int_min};
ghost use Rattle.std.specs.Option.{SomeIff};
ghost use Rattle.fixpoint.specs.Money.{cents_of_product, IsMoney};
ghost use Rattle.settlement.specs.Amount.{IsAmount, is_in_range};
ghost use Rattle.settlement.specs.Settlement.{remaining};

use crate::rate::Rate;
use fixpoint::Fixed;
use std::marker::Model;

/// An amount of money: a whole count of cents that is not negative. Contracts see it as its units:
/// ten-thousandths, of which a cent has a hundred.
#[derive(Clone, Copy, PartialEq, Eq, PartialOrd)]
pub struct Money {
    amount: Fixed,
}

impl Model for Money {
    ghost use Rattle.std.specs.Prelude.{ℤ};
    ghost use Rattle.settlement.specs.Amount.{IsAmount};

    ghost Value = { ℤ };

    ghost view = { λ m. m.amount };

    ghost invariant = { λ m. IsAmount m.amount };

    ghost inverse = { λ units. record { amount = units } };
}

impl Money {
    /// Returns the amount zero.
    pub fn zero() -> Money
        ensures { result ≡ pos 0 }
    {
        Money {
            amount: Fixed::from_units(0).unwrap(),
        }
    }

    /// Returns the number as an amount of money, or `None` if it is negative or not a whole count
    /// of cents.
    pub fn new(amount: Fixed) -> Option<Money>
        ensures { SomeIff result (IsMoney amount) amount }
    {
        // proof: the amount is in its range
        let _units = amount.units();
        if amount.is_money() {
            Some(Money { amount })
        } else {
            None
        }
    }

    /// Returns the amount as a number.
    pub fn amount(self) -> Fixed
        ensures value { result ≡ self }
        ensures amount { IsAmount result }
    {
        let Money { amount } = self;
        amount
    }

    /// Returns the exact sum, or `None` if it is out of range.
    pub fn plus(self, other: Money) -> Option<Money>
        ensures sum { SomeIff result (IsTrue (is_in_range (self +ℤ other))) (self +ℤ other) }
        ensures before { IsTrue (is_in_range self) }
    {
        let amount = self.amount.add(other.amount)?;
        Some(Money { amount })
    }

    /// Subtracts an amount that is at most this one.
    pub(crate) fn minus(self, part: Money) -> Money
        requires { part ≤ℤ self }
        ensures value { result ≡ self -ℤ part }
        ensures within { result ≤ℤ self }
    {
        Money {
            amount: self.amount.sub(part.amount).unwrap(),
        }
    }

    /// Returns the smaller of the two amounts.
    pub(crate) fn min(self, other: Money) -> Money
        ensures { result ≡ int_min self other }
    {
        if other < self { other } else { self }
    }

    /// Returns what remains of this limit after the `used` amount, and zero if that exceeds the
    /// limit.
    pub(crate) fn remaining(self, used: Money) -> Money
        ensures { result ≡ remaining self used }
    {
        if used < self {
            self.minus(used)
        } else {
            Money::zero()
        }
    }

    /// Returns this amount times the rate, rounded once to whole cents, half to even.
    pub(crate) fn part(self, rate: Rate) -> Money
        ensures value { result ≡ cents_of_product self rate }
        ensures within { result ≤ℤ self }
    {
        Money {
            amount: self.amount.mul_cents(rate.number()).unwrap(),
        }
    }
}
