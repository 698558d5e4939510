//! Unary tests at the start of a text: an equality, a comparison or an interval.
ghost use Rattle.std.specs.Prelude.{ℕ, Bool, List, IfOk, IfErr, OnErr};
ghost use Rattle.feel_tests.specs.Words.{Sign, Begins};
ghost use Rattle.feel_tests.specs.Grammar.{op_symbol, IsTest};
ghost use Rattle.feel_tests.specs.Parts.{DeniesPart, IsEnd, IsSpanTest};

use crate::cell::{Op, Test};
use crate::kind::Kind;
use crate::literals::literal_at;
use crate::refusal::{Refusal, symbol_at};
use crate::symbol::Symbol;
use crate::word::first_symbol;
use faults::CellCause;
use std::alloc::Global;

/// Reads one test and returns it with the rest of the text.
pub fn test_at(alloc: Global, kind: Kind, text: &[u8]) -> Result<(Test, &[u8]), Refusal>
    ensures ok { IfOk result (λ found. IsTest kind text.now found.0 found.1.now) }
    ensures refused { IfErr result (DeniesPart (IsTest kind text.now)) }
{
    match first_symbol(text) {
        Some((symbol, rest)) => signed_test_at(alloc, kind, text, symbol, rest),
        None => {
            let (value, rest) = literal_at(alloc, kind, text)?;
            Ok((Test::Equal(value), rest))
        }
    }
}

// Reads a test from a text that begins with a symbol.
fn signed_test_at<'a>(
    alloc: Global,
    kind: Kind,
    text: &[u8],
    symbol: Symbol,
    rest: &'a [u8],
) -> Result<(Test, &'a [u8]), Refusal>
    requires { Begins text.now (Sign symbol) rest.now }
    ensures ok { IfOk result (λ found. IsTest kind text.now found.0 found.1.now) }
    ensures refused { IfErr result (DeniesPart (IsTest kind text.now)) }
{
    if let Some(op) = symbol.op() {
        return comparison_at(alloc, kind, text, op, rest);
    }
    let Some(low_in) = symbol.start_in() else {
        return Err(Refusal::at(text, CellCause::Token));
    };
    if !kind.has_order() {
        return Err(Refusal::at(text, CellCause::WrongKind));
    }
    span_at(alloc, kind, low_in, rest)
}

// Reads a test from a text that begins with an operator; the text after it must begin with a
// literal.
fn comparison_at<'a>(
    alloc: Global,
    kind: Kind,
    text: &[u8],
    op: Op,
    literal: &'a [u8],
) -> Result<(Test, &'a [u8]), Refusal>
    requires { Begins text.now (Sign (op_symbol op)) literal.now }
    ensures ok { IfOk result (λ found. IsTest kind text.now found.0 found.1.now) }
    ensures refused { IfErr result (DeniesPart (IsTest kind text.now)) }
{
    if !kind.has_order() {
        return Err(Refusal::at(text, CellCause::WrongKind));
    }
    let (value, rest) = literal_at(alloc, kind, literal)?;
    Ok((Test::Compare(op, value), rest))
}

// Reads the two ends of an interval and the closing bracket, from the text after its opening one.
fn span_at(alloc: Global, kind: Kind, low_in: bool, text: &[u8]) -> Result<(Test, &[u8]), Refusal>
    ensures ok { IfOk result (λ found. IsSpanTest kind low_in text.now found.0 found.1.now) }
    ensures refused { IfErr result (DeniesPart (IsSpanTest kind low_in text.now)) }
{
    let (low, after_low) = literal_at(alloc, kind, text)?;
    let after_dots = symbol_at(after_low, Symbol::Dots)?;
    let (high, after_high) = literal_at(alloc, kind, after_dots)?;
    let (high_in, rest) = end_at(after_high)?;
    let test = Test::Between {
        low,
        low_in,
        high,
        high_in,
    };
    Ok((test, rest))
}

fn end_at(text: &[u8]) -> Result<(bool, &[u8]), Refusal>
    ensures ok { IfOk result (λ found. IsEnd text.now found.0 found.1.now) }
    ensures refused { OnErr result ((high_in : Bool) (rest : List ℕ)
        → ¬ IsEnd text.now high_in rest) }
{
    let Some((symbol, rest)) = first_symbol(text) else {
        return Err(Refusal::at(text, CellCause::Token));
    };
    match symbol.end_in() {
        Some(high_in) => Ok((high_in, rest)),
        None => Err(Refusal::at(text, CellCause::Token)),
    }
}
