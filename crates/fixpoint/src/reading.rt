//! The parts of a number text, and the count of ten-thousandths that they denote.
ghost use Rattle.std.specs.Prelude.{◌≡◌, ◌≢◌, ◌≤◌, ◌-◌, ◌^◌, ◌++◌, false, min, slice_index, MatchOption};
ghost use Rattle.std.specs.Fmt.{sign_text};
ghost use Rattle.std.specs.Str.Parse.{AllDigits, digits_value};
ghost use Rattle.fixpoint.specs.NumberText.{IsNumberText, without_end_zeros};
ghost use Rattle.fixpoint.specs.Reading.{BeginsWithDigits, HasParts, IsCountAnswer, IsDotTextOf, IsNoDotText};

use crate::fault::NumFault;
use crate::fixed::{MAX_UNITS, UNITS_PER_ONE};

/// The smallest whole part that is too large.
const WHOLE_LIMIT: u64 = 100_000_000_000;

/// Splits a number text into its sign, its whole digits and its decimals. The result is `None` if
/// the text does not have the form of a number.
pub fn parts(text: &[u8]) -> Option<(bool, &[u8], &[u8])>
    ensures { MatchOption result (¬ IsNumberText text.now)
        (λ parts. HasParts text.now parts.0 parts.1.now parts.2.now) }
{
    let (negative, digits) = without_sign(text);
    let (whole, rest) = digits.split_at(leading_digits(digits));
    let fraction = fraction_digits(rest)?;
    if whole.is_empty() && fraction.is_empty() {
        return None;
    }
    Some((negative, whole, fraction))
}

fn without_sign(text: &[u8]) -> (bool, &[u8])
    ensures joined { text.now ≡ sign_text result.0 ++ result.1.now }
    ensures signed { result.0 ≡ false → slice_index text.now 0 ≢ 45 }
{
    if !text.is_empty() && text[0] == b'-' {
        (true, &text[1..])
    } else {
        (false, text)
    }
}

fn leading_digits(text: &[u8]) -> usize
    ensures { BeginsWithDigits text.now result }
{
    for (i, byte) in text.iter().enumerate() {
        if !byte.is_ascii_digit() {
            return i;
        }
    }
    text.len()
}

/// Returns the decimals, which are empty if the text is. The result is `None` if the text is not a
/// `.` and digits.
fn fraction_digits(text: &[u8]) -> Option<&[u8]>
    ensures { MatchOption result (IsNoDotText text.now)
        (λ fraction. IsDotTextOf text.now fraction.now) }
{
    if text.is_empty() {
        return Some(text);
    }
    let fraction = &text[1..];
    if text[0] == b'.' && !fraction.is_empty() && leading_digits(fraction) == fraction.len() {
        Some(fraction)
    } else {
        None
    }
}

/// Returns the count of ten-thousandths that the digits denote.
pub fn ten_thousandths(whole: &[u8], fraction: &[u8]) -> Result<u64, NumFault>
    requires whole { AllDigits 10 whole.now }
    requires fraction { AllDigits 10 fraction.now }
    ensures { IsCountAnswer whole.now fraction.now result }
{
    let decimals = without_end_zeros(fraction);
    if decimals.len() > 4 {
        return Err(NumFault::TooFine);
    }
    let ones = capped_value(whole);
    let rest = capped_value(decimals) * unit_of_last(decimals.len());
    let count = ones * UNITS_PER_ONE as u64 + rest;
    if count > MAX_UNITS as u64 {
        Err(NumFault::TooLarge)
    } else {
        Ok(count)
    }
}

/// Returns the worth of the last of `decimals` decimals, in ten-thousandths.
fn unit_of_last(decimals: usize) -> u64
    requires { decimals ≤ 4 }
    ensures { result ≡ 10 ^ (4 - decimals) }
{
    match decimals {
        0 => 10_000,
        1 => 1_000,
        2 => 100,
        3 => 10,
        _ => 1,
    }
}

/// Returns the digits without their trailing zeros.
pub fn without_end_zeros(digits: &[u8]) -> &[u8]
    ensures { result.now ≡ without_end_zeros digits.now }
{
    let mut len = digits.len();
    while len > 0 && digits[len - 1] == b'0' {
        len -= 1;
    }
    &digits[..len]
}

/// Returns the value of the digits, at most `WHOLE_LIMIT`. The cap excludes an overflow, whatever
/// the number of digits.
fn capped_value(digits: &[u8]) -> u64
    requires { AllDigits 10 digits.now }
    ensures { result ≡ min (digits_value 10 digits.now) WHOLE_LIMIT }
{
    let mut value = 0;
    for digit in digits {
        value = (value * 10 + u64::from(*digit - b'0')).min(WHOLE_LIMIT);
    }
    value
}
