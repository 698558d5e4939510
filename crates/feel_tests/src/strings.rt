//! Strings: text between double quotes, in which a backslash precedes each quote and each
//! backslash.
ghost use Rattle.std.specs.Prelude.{◌≡◌, ◌∷◌, IfOk, IfErr};
ghost use Rattle.feel_tests.specs.Words.{skip_white, Quoted, Begins};
ghost use Rattle.feel_tests.specs.Parts.{DeniesPart};
ghost use Rattle.feel_tests.specs.Fronts.{IsPiece};

use crate::refusal::Refusal;
use crate::word::{Token, first_token};
use faults::CellCause;
use std::alloc::Global;

/// Reads a string of any length and returns the bytes that it denotes.
pub fn quoted_at(alloc: Global, text: &[u8]) -> Result<(Vec<u8>, &[u8]), Refusal>
    ensures ok { IfOk result (λ found. Begins text.now (Quoted found.0.items) found.1.now) }
    ensures refused { IfErr result (DeniesPart (λ bytes. Begins text.now (Quoted bytes))) }
{
    match first_token(text) {
        Token::Quote(inside) => inside_at(alloc, text, inside),
        Token::Sign(_, _) => Err(Refusal::at(text, CellCause::Token)),
        Token::Number(_, _) => Err(Refusal::at(text, CellCause::Token)),
        Token::Name(_, _) => Err(Refusal::at(text, CellCause::Token)),
        Token::Nothing => Err(Refusal::at(text, CellCause::Token)),
    }
}

// Reads the string of a text that begins with a quote, from the text after the quote.
fn inside_at<'a>(
    alloc: Global,
    text: &[u8],
    inside: &'a [u8],
) -> Result<(Vec<u8>, &'a [u8]), Refusal>
    requires { skip_white text.now ≡ 34 ∷ inside.now }
    ensures ok { IfOk result (λ found. Begins text.now (Quoted found.0.items) found.1.now) }
    ensures refused { IfErr result (DeniesPart (λ bytes. Begins text.now (Quoted bytes))) }
{
    let mut bytes = Vec::new(alloc);
    let mut rest = inside;
    'pieces: loop {
        match first_piece(rest) {
            Piece::Close(following) => return Ok((bytes, following)),
            Piece::Byte(byte, following) => {
                bytes.push(byte)?;
                rest = following;
            }
            Piece::BadEscape => return Err(Refusal::at(rest, CellCause::BadEscape)),
            Piece::End => return Err(Refusal::at(text, CellCause::Token)),
        }
    }
}

/// The next part of a string, with the text after it.
#[derive(Clone, Copy)]
pub enum Piece<'a> {
    /// The closing quote.
    Close(&'a [u8]),
    /// A byte of the text, written plainly or after a backslash.
    Byte(u8, &'a [u8]),
    /// A backslash that does not begin an escape sequence.
    BadEscape,
    /// The end of the text, which may follow a backslash.
    End,
}

fn first_piece(rest: &[u8]) -> Piece<'_>
    ensures { IsPiece rest.now result }
{
    match rest {
        [] => Piece::End,
        [b'"', following @ ..] => Piece::Close(following),
        [b'\\', following @ ..] => escape(following),
        [byte, following @ ..] => Piece::Byte(*byte, following),
    }
}

// Returns the part that begins with a backslash, from the text after the backslash.
fn escape(following: &[u8]) -> Piece<'_>
    ensures { IsPiece (92 ∷ following.now) result }
{
    match following {
        [] => Piece::End,
        [b'"', rest @ ..] => Piece::Byte(b'"', rest),
        [b'\\', rest @ ..] => Piece::Byte(b'\\', rest),
        _ => Piece::BadEscape,
    }
}
