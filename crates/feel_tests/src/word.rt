//! The words of a cell's text, split off one at a time from the start.
ghost use Rattle.std.specs.Prelude.{◌≡◌, ℕ, ◌≤◌, List, length, IsTrue, IfSome, IfNone, ◌↔◌};
ghost use Rattle.feel_tests.specs.Words.{is_white, skip_white, is_name_start, is_name_byte, IsBlank, Sign, Begins};
ghost use Rattle.std.specs.List.{prefix_len};
ghost use Rattle.feel_tests.specs.declared.symbol.Symbol.{Symbol};
ghost use Rattle.feel_tests.specs.Fronts.{digits_len, fraction_len, unsigned_len, number_len, name_len, IsToken};

use crate::symbol::Symbol;

/// The word at the start of a text, with the text after it.
#[derive(Clone, Copy)]
pub enum Token<'a> {
    Sign(Symbol, &'a [u8]),
    Number(&'a [u8], &'a [u8]),
    Name(&'a [u8], &'a [u8]),
    /// The opening quote of a string. Its end has not been searched for.
    Quote(&'a [u8]),
    /// The text does not begin with a word, or is empty.
    Nothing,
}

/// Skips white space and splits off the first word.
pub fn first_token(text: &[u8]) -> Token<'_>
    ensures { IsToken text.now result }
{
    let bytes = skip_white(text);
    if let [b'"', inside @ ..] = bytes {
        return Token::Quote(inside);
    }
    let len = name_len(bytes);
    if len > 0 {
        let (letters, rest) = bytes.split_at(len);
        return Token::Name(letters, rest);
    }
    let len = number_len(bytes);
    if len > 0 {
        let (digits, rest) = bytes.split_at(len);
        return Token::Number(digits, rest);
    }
    match Symbol::at_front(bytes) {
        Some(symbol) => Token::Sign(symbol, &bytes[symbol.text().len()..]),
        None => Token::Nothing,
    }
}

/// Returns the symbol at the start of the text, with the text after it.
pub fn first_symbol(text: &[u8]) -> Option<(Symbol, &[u8])>
    ensures some { IfSome result (λ found. Begins text.now (Sign found.0) found.1.now) }
    ensures none { IfNone result ((symbol : Symbol) (rest : List ℕ)
        → ¬ Begins text.now (Sign symbol) rest) }
{
    match first_token(text) {
        Token::Sign(symbol, rest) => Some((symbol, rest)),
        Token::Number(_, _) => None,
        Token::Name(_, _) => None,
        Token::Quote(_) => None,
        Token::Nothing => None,
    }
}

/// Returns the text after the symbol, or `None` if the text does not begin with it.
pub fn after_symbol(text: &[u8], symbol: Symbol) -> Option<&[u8]>
    ensures some { IfSome result (λ rest. Begins text.now (Sign symbol) rest.now) }
    ensures none { IfNone result ((rest : List ℕ) → ¬ Begins text.now (Sign symbol) rest) }
{
    let (found, rest) = first_symbol(text)?;
    if found == symbol { Some(rest) } else { None }
}

/// Returns the text without leading white space.
pub fn skip_white(text: &[u8]) -> &[u8]
    ensures { result.now ≡ skip_white text.now }
{
    let mut rest = text;
    while let [first, tail @ ..] = rest {
        if !is_white(*first) {
            return rest;
        }
        rest = tail;
    }
    rest
}

/// Returns whether the text consists of white space alone.
pub fn is_blank(text: &[u8]) -> bool
    ensures { IsTrue result ↔ IsBlank text.now }
{
    skip_white(text).is_empty()
}

fn is_white(byte: u8) -> bool
    ensures { result ≡ is_white byte }
{
    byte == b' ' || byte == b'\t' || byte == b'\r' || byte == b'\n'
}

fn digits_len(bytes: &[u8]) -> usize
    ensures value { result ≡ digits_len bytes.now }
    ensures within { result ≤ length bytes.now }
{
    let mut len = 0;
    while len < bytes.len() && bytes[len].is_ascii_digit() {
        len += 1;
    }
    len
}

fn fraction_len(bytes: &[u8]) -> usize
    ensures value { result ≡ fraction_len bytes.now }
    ensures within { result ≤ length bytes.now }
{
    match bytes {
        [b'.', digits @ ..] => {
            let len = digits_len(digits);
            if len > 0 { 1 + len } else { 0 }
        }
        _ => 0,
    }
}

fn unsigned_len(bytes: &[u8]) -> usize
    ensures value { result ≡ unsigned_len bytes.now }
    ensures within { result ≤ length bytes.now }
{
    let whole = digits_len(bytes);
    whole + fraction_len(&bytes[whole..])
}

fn number_len(bytes: &[u8]) -> usize
    ensures value { result ≡ number_len bytes.now }
    ensures within { result ≤ length bytes.now }
{
    match bytes {
        [b'-', unsigned @ ..] => {
            let len = unsigned_len(unsigned);
            if len > 0 { 1 + len } else { 0 }
        }
        _ => unsigned_len(bytes),
    }
}

fn name_len(bytes: &[u8]) -> usize
    ensures value { result ≡ name_len bytes.now }
    ensures within { result ≤ length bytes.now }
{
    match bytes {
        [first, more @ ..] if is_name_start(*first) => 1 + name_bytes_len(more),
        _ => 0,
    }
}

fn name_bytes_len(bytes: &[u8]) -> usize
    ensures value { result ≡ prefix_len is_name_byte bytes.now }
    ensures within { result ≤ length bytes.now }
{
    let mut len = 0;
    while len < bytes.len() && is_name_byte(bytes[len]) {
        len += 1;
    }
    len
}

/// Returns whether a name may begin with the byte: an ASCII letter or `_`.
pub fn is_name_start(byte: u8) -> bool
    ensures { result ≡ is_name_start byte }
{
    byte.is_ascii_alphabetic() || byte == b'_'
}

/// Returns whether a name may contain the byte after its first: an ASCII letter, a digit or `_`.
pub fn is_name_byte(byte: u8) -> bool
    ensures { result ≡ is_name_byte byte }
{
    byte.is_ascii_alphanumeric() || byte == b'_'
}
