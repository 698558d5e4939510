//! Literals at the start of a text: a number, a string, `true`, `false` or a date.
ghost use Rattle.std.specs.Prelude.{IfOk, IfErr};
ghost use Rattle.feel_tests.specs.Value.{flag_text};
ghost use Rattle.feel_tests.specs.Words.{Digits, Name, Begins};
ghost use Rattle.feel_tests.specs.Grammar.{date_word, IsLiteral};
ghost use Rattle.feel_tests.specs.Parts.{DeniesPart, IsQuoteFirst};

use crate::dates::day_of;
use crate::kind::Kind;
use crate::refusal::{Refusal, symbol_at};
use crate::strings::quoted_at;
use crate::symbol::Symbol;
use crate::text::{TEXT_LIMIT_BYTES, Text};
use crate::value::Value;
use crate::word::{Token, first_token};
use faults::CellCause;
use fixpoint::Fixed;
use std::alloc::Global;

/// Reads one literal of the kind and returns it with the rest of the text.
pub fn literal_at(alloc: Global, kind: Kind, text: &[u8]) -> Result<(Value, &[u8]), Refusal>
    ensures ok { IfOk result (λ found. IsLiteral kind text.now found.0 found.1.now) }
    ensures refused { IfErr result (DeniesPart (IsLiteral kind text.now)) }
{
    match first_token(text) {
        Token::Number(digits, rest) => number_at(kind, text, digits, rest),
        Token::Quote(_) => text_at(alloc, kind, text),
        Token::Name(name, rest) => named_at(alloc, kind, text, name, rest),
        Token::Sign(_, _) => Err(Refusal::at(text, CellCause::Token)),
        Token::Nothing => Err(Refusal::at(text, CellCause::Token)),
    }
}

// Reads a literal from a text that begins with a number.
fn number_at<'a>(
    kind: Kind,
    text: &[u8],
    digits: &[u8],
    rest: &'a [u8],
) -> Result<(Value, &'a [u8]), Refusal>
    requires { Begins text.now (Digits digits.now) rest.now }
    ensures ok { IfOk result (λ found. IsLiteral kind text.now found.0 found.1.now) }
    ensures refused { IfErr result (DeniesPart (IsLiteral kind text.now)) }
{
    if kind != Kind::Number {
        return Err(Refusal::at(text, CellCause::WrongKind));
    }
    match Fixed::parse(digits) {
        Ok(number) => Ok((Value::Number(number), rest)),
        Err(_) => Err(Refusal::at(text, CellCause::Literal)),
    }
}

// Reads a literal from a text that begins with a quote.
fn text_at(alloc: Global, kind: Kind, text: &[u8]) -> Result<(Value, &[u8]), Refusal>
    requires { IsQuoteFirst text.now }
    ensures ok { IfOk result (λ found. IsLiteral kind text.now found.0 found.1.now) }
    ensures refused { IfErr result (DeniesPart (IsLiteral kind text.now)) }
{
    let (bytes, rest) = quoted_at(alloc, text)?;
    if kind != Kind::Text {
        return Err(Refusal::at(text, CellCause::WrongKind));
    }
    match Text::from_bytes(bytes) {
        Some(made) => Ok((Value::Text(made), rest)),
        None => Err(Refusal::at(text, CellCause::Literal)),
    }
}

// Reads a literal from a text that begins with a name.
fn named_at<'a>(
    alloc: Global,
    kind: Kind,
    text: &[u8],
    name: &[u8],
    rest: &'a [u8],
) -> Result<(Value, &'a [u8]), Refusal>
    requires { Begins text.now (Name name.now) rest.now }
    ensures ok { IfOk result (λ found. IsLiteral kind text.now found.0 found.1.now) }
    ensures refused { IfErr result (DeniesPart (IsLiteral kind text.now)) }
{
    if name == b"true".as_slice() {
        flag_at(kind, text, true, rest)
    } else if name == b"false".as_slice() {
        flag_at(kind, text, false, rest)
    } else if name == b"date".as_slice() {
        date_at(alloc, kind, text, rest)
    } else {
        Err(Refusal::at(text, CellCause::Token))
    }
}

// Reads a literal from a text that begins with `true` or `false`.
fn flag_at<'a>(
    kind: Kind,
    text: &[u8],
    flag: bool,
    rest: &'a [u8],
) -> Result<(Value, &'a [u8]), Refusal>
    requires { Begins text.now (Name (flag_text flag)) rest.now }
    ensures ok { IfOk result (λ found. IsLiteral kind text.now found.0 found.1.now) }
    ensures refused { IfErr result (DeniesPart (IsLiteral kind text.now)) }
{
    if kind != Kind::Flag {
        return Err(Refusal::at(text, CellCause::WrongKind));
    }
    Ok((Value::Flag(flag), rest))
}

// Reads a literal from a text that begins with `date`; the text after that word must begin with a
// string in parentheses.
fn date_at<'a>(
    alloc: Global,
    kind: Kind,
    text: &[u8],
    after_word: &'a [u8],
) -> Result<(Value, &'a [u8]), Refusal>
    requires { Begins text.now (Name date_word) after_word.now }
    ensures ok { IfOk result (λ found. IsLiteral kind text.now found.0 found.1.now) }
    ensures refused { IfErr result (DeniesPart (IsLiteral kind text.now)) }
{
    if kind != Kind::Day {
        return Err(Refusal::at(text, CellCause::WrongKind));
    }
    let after_open = symbol_at(after_word, Symbol::OpenRound)?;
    let (date, after_string) = quoted_at(alloc, after_open)?;
    if date.len() > TEXT_LIMIT_BYTES {
        return Err(Refusal::at(after_open, CellCause::Literal));
    }
    let rest = symbol_at(after_string, Symbol::CloseRound)?;
    match day_of(&date) {
        Some(day) => Ok((Value::Day(day), rest)),
        None => Err(Refusal::at(text, CellCause::BadDate)),
    }
}
