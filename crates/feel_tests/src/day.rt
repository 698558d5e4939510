//! Days of the Gregorian calendar, stored as day numbers.
ghost use Rattle.std.specs.Prelude.{◌≡◌};
ghost use Rattle.std.specs.Option.{SomeIff};
ghost use Rattle.feel_tests.specs.DayNumber.{IsDayNumber};

use std::marker::Model;

/// A Gregorian civil date of the years 0001 to 9999, stored as the number of days since 1 January
/// 1970.
#[derive(Clone, Copy, PartialEq, Eq, PartialOrd, Ord)]
pub struct Day {
    epoch_day: i32,
}

impl Model for Day {
    ghost use Rattle.std.specs.Prelude.{ℤ};
    ghost use Rattle.feel_tests.specs.DayNumber.{IsDayNumber};

    ghost Value = { ℤ };

    ghost view = { λ d. d.epoch_day };

    ghost invariant = { λ d. IsDayNumber d.epoch_day };

    ghost inverse = { λ number. record { epoch_day = number } };
}

/// The day number of 1 January 0001, counted from 1 January 1970.
pub const FIRST_DAY: i32 = -719_162;

/// The day number of 31 December 9999, counted from 1 January 1970.
const LAST_DAY: i32 = 2_932_896;

impl Day {
    /// Returns the day with this number, counted from 1 January 1970 as day 0, or `None` if it is
    /// outside the years 0001 to 9999.
    pub fn from_epoch_day(number: i32) -> Option<Day>
        ensures { SomeIff result (IsDayNumber number) number }
    {
        if FIRST_DAY <= number && number <= LAST_DAY {
            Some(Day { epoch_day: number })
        } else {
            None
        }
    }

    /// Returns the number of days since 1 January 1970.
    pub fn epoch_day(self) -> i32
        ensures value { result ≡ self }
        ensures in_range { IsDayNumber result }
    {
        self.epoch_day
    }
}
