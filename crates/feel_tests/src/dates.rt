//! Dates as text: `YYYY-MM-DD` in the Gregorian calendar of `jiff`.
ghost use Rattle.std.specs.Prelude.{◌≡◌, ℕ, ℤ, pos, ◌+◌, ◌/◌, ◌%◌, ◌<◌, IfSome, IfNone};
ghost use Rattle.std.specs.Int.{IsInRange};
ghost use Rattle.jiff_core.specs.Date.{epoch_day};
ghost use Rattle.feel_tests.specs.DayNumber.{IsDayNumber};
ghost use Rattle.feel_tests.specs.Calendar.{ymd_text, year_of, year_text, HasYearDigits, IsDateText, IsYearText};

use crate::day::Day;
use jiff::civil::Date;
use jiff_core::civil;

/// Returns the day that the text denotes, or `None` if it is not a date `YYYY-MM-DD` of the years
/// 0001 to 9999.
pub fn day_of(text: &[u8]) -> Option<Day>
    ensures some { IfSome result (IsDateText text.now) }
    ensures none { IfNone result ((day : ℤ) → ¬ IsDateText text.now day) }
{
    let (year, month, place) = ymd_of(text)?;
    match Date::new(year as i16, month as i8, place as i8) {
        Ok(date) => Day::from_epoch_day(date.to_plain().to_unix_epoch_day()),
        Err(_) => None,
    }
}

/// Converts a day to a date of `jiff`.
pub fn date_of(day: Day) -> Date
    ensures date { epoch_day result ≡ day }
    ensures in_range { IsDayNumber day }
{
    match civil::Date::from_unix_epoch_day(i64::from(day.epoch_day())) {
        Ok(date) => Date::from_plain(date),
        Err(_) => unreachable!(),
    }
}

/// Returns the year, 1 to 9999, of a day that is given by its number of days since 1 January 1970.
#[tactic(auto, using(crate::proofs::DayText::date_year_is, crate::proofs::DayText::year_within))]
pub fn day_year(number: i32) -> u16
    requires { IsDayNumber number }
    ensures year { result ≡ year_of number }
    ensures in_range { IsInRange 1 9999 result }
{
    match Day::from_epoch_day(number) {
        Some(day) => date_of(day).year().unsigned_abs(),
        None => unreachable!(),
    }
}

/// Returns the year that a text of four digits denotes, or `None` if it is not from `0001` to
/// `9999`.
pub fn year_in(text: &[u8]) -> Option<u16>
    ensures some { IfSome result (IsYearText text.now) }
    ensures none { IfNone result ((year : ℕ) → ¬ IsYearText text.now year) }
{
    let [y3, y2, y1, y0] = text else {
        return None;
    };
    year_from_digits(*y3, *y2, *y1, *y0)
}

// Returns the year of four digits, or `None` if they are not `0001` to `9999`.
fn year_from_digits(y3: u8, y2: u8, y1: u8, y0: u8) -> Option<u16>
    ensures some { IfSome result (HasYearDigits y3 y2 y1 y0) }
    ensures none { IfNone result ((year : ℕ) → ¬ HasYearDigits y3 y2 y1 y0 year) }
{
    let century = two_digits(y3, y2)?;
    let rest = two_digits(y1, y0)?;
    // The calendar of `jiff` has a year 0, but literals do not.
    if century == 0 && rest == 0 {
        return None;
    }
    Some(century as u16 * 100 + rest as u16)
}

/// Returns a year below 10,000 in four digits.
pub fn year_text(year: u16) -> [u8; 4]
    requires { year < 10000 }
    ensures { result ≡ year_text year }
{
    let century = (year / 100) as u8;
    let rest = (year % 100) as u8;
    [
        b'0' + century / 10,
        b'0' + century % 10,
        b'0' + rest / 10,
        b'0' + rest % 10,
    ]
}

// Splits a text of the form `YYYY-MM-DD` into year, month and day. They need not be a date of the
// calendar, but the year is from 1 to 9999.
fn ymd_of(text: &[u8]) -> Option<(u16, u8, u8)>
    ensures some { IfSome result (λ ymd. (text.now ≡ ymd_text ymd.0 ymd.1 ymd.2)
        × IsInRange 1 9999 ymd.0 × (ymd.1 < 100) × (ymd.2 < 100)) }
    ensures none { IfNone result ((year month place : ℕ) → IsInRange 1 9999 year
        → month < 100 → place < 100 → ¬ (text.now ≡ ymd_text year month place)) }
{
    let [y3, y2, y1, y0, dash, m1, m0, hyphen, d1, d0] = text else {
        return None;
    };
    if *dash != b'-' || *hyphen != b'-' {
        return None;
    }
    let year = year_from_digits(*y3, *y2, *y1, *y0)?;
    let month = two_digits(*m1, *m0)?;
    let place = two_digits(*d1, *d0)?;
    Some((year, month, place))
}

fn two_digits(tens: u8, ones: u8) -> Option<u8>
    ensures some { IfSome result (λ n. (n < 100) × (tens ≡ 48 + n / 10) × (ones ≡ 48 + n % 10)) }
    ensures none { IfNone result ((n : ℕ) → n < 100
        → ¬ ((tens ≡ 48 + n / 10) × (ones ≡ 48 + n % 10))) }
{
    if !tens.is_ascii_digit() || !ones.is_ascii_digit() {
        return None;
    }
    Some((tens - b'0') * 10 + (ones - b'0'))
}
