//! Readers of cells and literals. Each function reads one part from the start of a text and returns
//! it with the rest, so that a text is read once, from left to right.
ghost use Rattle.std.specs.Prelude.{◌≡◌, ℕ, ◌≤◌, List, length, IfOk, IfErr, IfSome, IfNone, OnOk, OnErr};
ghost use Rattle.feel_tests.specs.Value.{kind_of};
ghost use Rattle.feel_tests.specs.Words.{IsBlank, Name, Begins};
ghost use Rattle.feel_tests.specs.Grammar.{not_word};
ghost use Rattle.feel_tests.specs.Cell.{SpellsCell, SpellsValue, Refuses};
ghost use Rattle.feel_tests.specs.Parts.{Denies, DeniesPart, IsWholeList};

use crate::cell::{Cell, TEST_LIMIT, Tests};
use crate::kind::Kind;
use crate::literals::literal_at;
use crate::refusal::{Refusal, symbol_at};
use crate::symbol::Symbol;
use crate::unary::test_at;
use crate::value::Value;
use crate::word::{Token, after_symbol, first_token, is_blank};
use faults::{CellCause, CellFault};
use std::alloc::Global;

/// Reads the whole text of a cell of a column of this kind (DMN 1.4, S-FEEL, unary tests).
///
/// # Errors
///
/// Returns the first fault of the text, read from left to right, with its offset in bytes, or
/// `CellCause::OutOfMemory` if memory runs out anywhere.
pub fn read_cell(alloc: Global, kind: Kind, text: &str) -> Result<Cell, CellFault>
    ensures ok { IfOk result (SpellsCell kind text.now) }
    ensures refused { IfErr result (Refuses (SpellsCell kind text.now)) }
    ensures place { IfErr result (λ fault. fault.at ≤ length text.now) }
{
    match cell_of(alloc, kind, text.as_bytes()) {
        Ok(cell) => Ok(cell),
        Err(refusal) => Err(refusal.fault_in(text)),
    }
}

/// Reads the whole text of one literal of this kind. White space may surround the literal.
///
/// # Errors
///
/// Returns the first fault of the text with its offset in bytes, or `CellCause::OutOfMemory` if
/// memory runs out anywhere.
pub fn read_value(alloc: Global, kind: Kind, text: &str) -> Result<Value, CellFault>
    ensures ok { IfOk result (SpellsValue kind text.now) }
    ensures kind { IfOk result (λ value. kind_of value ≡ kind) }
    ensures refused { IfErr result (Refuses (SpellsValue kind text.now)) }
    ensures place { IfErr result (λ fault. fault.at ≤ length text.now) }
{
    match literal_at(alloc, kind, text.as_bytes()) {
        Ok((value, rest)) => {
            if is_blank(rest) {
                Ok(value)
            } else {
                Err(Refusal::at(rest, CellCause::Trailing).fault_in(text))
            }
        }
        Err(refusal) => Err(refusal.fault_in(text)),
    }
}

fn cell_of(alloc: Global, kind: Kind, text: &[u8]) -> Result<Cell, Refusal>
    ensures ok { IfOk result (SpellsCell kind text.now) }
    ensures refused { IfErr result (Denies (SpellsCell kind text.now)) }
{
    if is_blank(text) {
        return Ok(Cell::Dash);
    }
    if let Some(rest) = after_symbol(text, Symbol::Dash) {
        blank_end(rest)?;
        return Ok(Cell::Dash);
    }
    if let Some(after_word) = after_not(text) {
        return negation_of(alloc, kind, text, after_word);
    }
    let (tests, rest) = list_at(alloc, kind, text)?;
    blank_end(rest)?;
    Ok(Cell::OneOf(tests))
}

// Reads a cell from a text that begins with `not`; the text after that word must be a list in
// parentheses.
fn negation_of(alloc: Global, kind: Kind, text: &[u8], after_word: &[u8]) -> Result<Cell, Refusal>
    requires { Begins text.now (Name not_word) after_word.now }
    ensures ok { IfOk result (SpellsCell kind text.now) }
    ensures refused { IfErr result (Denies (SpellsCell kind text.now)) }
{
    let after_open = symbol_at(after_word, Symbol::OpenRound)?;
    let (tests, after_list) = list_at(alloc, kind, after_open)?;
    let rest = symbol_at(after_list, Symbol::CloseRound)?;
    blank_end(rest)?;
    Ok(Cell::NoneOf(tests))
}

// Returns the text after `not`, or `None` if the text does not begin with that word.
fn after_not(text: &[u8]) -> Option<&[u8]>
    ensures some { IfSome result (λ rest. Begins text.now (Name not_word) rest.now) }
    ensures none { IfNone result ((rest : List ℕ) → ¬ Begins text.now (Name not_word) rest) }
{
    match first_token(text) {
        Token::Name(name, rest) => {
            if name == b"not".as_slice() {
                Some(rest)
            } else {
                None
            }
        }
        Token::Number(_, _) => None,
        Token::Quote(_) => None,
        Token::Sign(_, _) => None,
        Token::Nothing => None,
    }
}

// Reads tests until one is not followed by a comma.
fn list_at(alloc: Global, kind: Kind, text: &[u8]) -> Result<(Tests, &[u8]), Refusal>
    ensures ok { IfOk result (λ found. IsWholeList kind text.now found.0 found.1.now) }
    ensures refused { IfErr result (DeniesPart (IsWholeList kind text.now)) }
{
    let (first, mut rest) = test_at(alloc, kind, text)?;
    let mut tests = Tests::one(alloc, first);
    for _count in 1..TEST_LIMIT {
        let Some(after_comma) = after_symbol(rest, Symbol::Comma) else {
            return Ok((tests, rest));
        };
        let (test, after_test) = test_at(alloc, kind, after_comma)?;
        tests.push(test)?;
        rest = after_test;
    }
    match after_symbol(rest, Symbol::Comma) {
        Some(after_comma) => {
            // If the text ends after the comma, a test is missing, and there is not one too many.
            let cause = if is_blank(after_comma) {
                CellCause::Token
            } else {
                CellCause::TooMany
            };
            Err(Refusal::at(after_comma, cause))
        }
        None => Ok((tests, rest)),
    }
}

fn blank_end(text: &[u8]) -> Result<(), Refusal>
    ensures ok { OnOk result (IsBlank text.now) }
    ensures refused { OnErr result (¬ IsBlank text.now) }
{
    if is_blank(text) {
        Ok(())
    } else {
        Err(Refusal::at(text, CellCause::Trailing))
    }
}
