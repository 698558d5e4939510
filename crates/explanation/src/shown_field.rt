//! Fields that are shown in part: the first characters of a text that is too long, and the first bytes
//! of a field that is not UTF-8.
ghost use Rattle.std.specs.Prelude.{◌≡◌, ◌<◌, ◌++◌, chars, encode_utf8_all, flat_map, string_bytes, take, IfOk, OnOk};
ghost use Rattle.explanation.specs.Refusals.{escape_of, first_characters, hex_digit, is_plain};

use std::alloc::{AllocError, Global};

/// Returns the first characters of a text, at most this number. U+FFFD replaces what is not UTF-8.
pub(crate) fn first_characters(
    alloc: Global,
    most: usize,
    text: &[u8],
) -> Result<String, AllocError>
    ensures { IfOk result (λ first. string_bytes first ≡ first_characters most text.now) }
{
    let whole = String::from_utf8_lossy(alloc, text)?;
    first_of(alloc, most, whole.as_str())
}

fn first_of(alloc: Global, most: usize, text: &str) -> Result<String, AllocError>
    ensures { IfOk result (λ first. string_bytes first
        ≡ encode_utf8_all (take most (chars text.now))) }
{
    let mut first = String::new(alloc);
    let mut characters = text.chars();
    for _ in 0..most {
        let Some(character) = characters.next() else {
            return Ok(first);
        };
        first.push(character)?;
    }
    Ok(first)
}

/// Returns bytes as printable ASCII: a byte that is not plain is `\x` and two hexadecimal digits.
pub(crate) fn escaped_bytes(alloc: Global, bytes: &[u8]) -> Result<Vec<u8>, AllocError>
    ensures { IfOk result (λ text. text.items ≡ flat_map escape_of bytes.now) }
{
    let mut text = Vec::new(alloc);
    for byte in bytes {
        push_escape(&mut text, *byte)?;
    }
    Ok(text)
}

fn push_escape(text: &mut Vec<u8>, byte: u8) -> Result<(), AllocError>
    ensures { OnOk result (text.new.items ≡ text.old.items ++ escape_of byte) }
{
    if is_plain(byte) {
        text.push(byte)?;
        return Ok(());
    }
    text.extend_from_slice(&[b'\\', b'x', hex_digit(byte / 16), hex_digit(byte % 16)])
}

/// Whether a byte is printable ASCII other than `\`.
fn is_plain(byte: u8) -> bool
    ensures { result ≡ is_plain byte }
{
    matches!(byte, b' '..=b'[' | b']'..=b'~')
}

fn hex_digit(number: u8) -> u8
    requires { number < 16 }
    ensures { result ≡ hex_digit number }
{
    if number < 10 {
        b'0' + number
    } else {
        b'A' - 10 + number
    }
}
