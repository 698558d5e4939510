//! The shortest text of a number, and its text as money.
ghost use Rattle.std.specs.Prelude.{◌≡◌, ◌+◌, ◌/◌, ◌<◌, ◌≤◌, ◌++◌, length, take, decimal, unsigned_abs};
ghost use Rattle.fixpoint.specs.Money.{money_text, two_digits, IsCents};
ghost use Rattle.fixpoint.specs.NumberText.{shortest_text, four_digits, dot_text, without_end_zeros};
ghost use Rattle.fixpoint.specs.Number.{IsInRange, is_negative};
ghost use Rattle.std.specs.Fmt.{sign_text};

use crate::reading::without_end_zeros;
use itoa::Buffer;

/// Writes the shortest text of the number with these units and returns its length.
pub fn write_shortest(units: i64, buffer: &mut [u8; 24]) -> usize
    requires { IsInRange units }
    ensures fits { result ≤ 24 }
    ensures written { take result buffer.new ≡ shortest_text units }
{
    let at = put_whole(units, buffer);
    put_fraction(buffer, at, units.unsigned_abs() % 10_000)
}

/// Writes the text of whole cents, given in units, with two decimals and returns its length.
pub fn money(units: i64, buffer: &mut [u8; 24]) -> usize
    requires in_range { IsInRange units }
    requires cents { IsCents units }
    ensures fits { result ≤ 24 }
    ensures written { take result buffer.new ≡ money_text units }
{
    let at = put_whole(units, buffer);
    let cents = units.unsigned_abs() % 10_000 / 100;
    put(buffer, at, &[b'.', digit(cents / 10), digit(cents % 10)])
}

/// Writes the sign and the whole part and returns where they end.
fn put_whole(units: i64, buffer: &mut [u8; 24]) -> usize
    requires { IsInRange units }
    ensures fits { result ≤ 12 }
    ensures written { take result buffer.new
        ≡ sign_text (is_negative units) ++ decimal (unsigned_abs units / 10000) }
{
    let at = if units < 0 { put(buffer, 0, b"-") } else { 0 };
    let whole = units.unsigned_abs() / 10_000;
    put(buffer, at, Buffer::new().format(whole).as_bytes())
}

/// Writes a fraction of `units` ten-thousandths at `at` and returns where it ends. A fraction of
/// zero has no text, and no dot either.
fn put_fraction(buffer: &mut [u8; 24], at: usize, units: u64) -> usize
    requires room { at + 5 ≤ 24 }
    requires fraction { units < 10000 }
    ensures fits { result ≤ at + 5 }
    ensures written { take result buffer.new
        ≡ take at buffer.old ++ dot_text (without_end_zeros (four_digits units)) }
{
    let digits = [
        digit(units / 1000),
        digit(units / 100 % 10),
        digit(units / 10 % 10),
        digit(units % 10),
    ];
    let decimals = without_end_zeros(&digits);
    if decimals.is_empty() {
        return at;
    }
    let at = put(buffer, at, b".");
    put(buffer, at, decimals)
}

fn digit(value: u64) -> u8
    requires { value < 10 }
    ensures { result ≡ 48 + value }
{
    b'0' + value as u8
}

/// Writes the bytes at `at` and returns where they end.
fn put(buffer: &mut [u8; 24], at: usize, bytes: &[u8]) -> usize
    requires { at + length bytes.now ≤ 24 }
    ensures end { result ≡ at + length bytes.now }
    ensures written { take result buffer.new ≡ take at buffer.old ++ bytes.now }
{
    let end = at + bytes.len();
    buffer[at..end].copy_from_slice(bytes);
    end
}
