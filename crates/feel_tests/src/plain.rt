//! Plain values: whole fields of a CSV record, without quotes or surrounding white space.
ghost use Rattle.std.specs.Prelude.{◌≡◌, IfOk, IfErr};
ghost use Rattle.feel_tests.specs.Value.{kind_of};
ghost use Rattle.feel_tests.specs.Plain.{SpellsPlain, RefusesPlain, plain_number_of};
ghost use Rattle.feel_tests.specs.declared.kind.Kind.TheVariants as kinds;

use crate::dates::day_of;
use crate::kind::Kind;
use crate::text::{TEXT_LIMIT_BYTES, Text};
use crate::value::Value;
use fixpoint::Fixed;
use std::alloc::Global;
use thiserror::Error;

/// The reason why a field is not a value of its kind.
#[derive(Clone, Copy, Debug, PartialEq, Eq, Drop, Error)]
pub enum PlainFault {
    /// The field does not have the form of a value of its kind.
    #[error("bad value")]
    Bad,
    /// Memory ran out.
    #[error("out of memory")]
    OutOfMemory,
}

impl PlainFault {
    /// Returns the number that messages print for the fault, 1 or 2.
    pub fn number(self) -> u8
        ensures { result ≡ plain_number_of self }
    {
        match self {
            PlainFault::Bad => 1,
            PlainFault::OutOfMemory => 2,
        }
    }
}

/// Reads a whole field of a CSV record (RFC 4180) as a value: a number text, a text of at most 256
/// bytes, which is taken unchanged, `true` or `false`, or a date `YYYY-MM-DD`.
///
/// # Errors
///
/// Returns `PlainFault::Bad` for every other field, and `PlainFault::OutOfMemory` if memory runs
/// out.
#[inline(always)]
pub fn read_plain(alloc: Global, kind: Kind, text: &str) -> Result<Value, PlainFault>
    ensures ok { IfOk result (SpellsPlain kind text.now) }
    ensures kind { IfOk result (λ value. kind_of value ≡ kind) }
    ensures refused { IfErr result (RefusesPlain (SpellsPlain kind text.now)) }
{
    match kind {
        Kind::Number => plain_number(text.as_bytes()),
        Kind::Text => plain_text(alloc, text),
        Kind::Flag => plain_flag(text),
        Kind::Day => plain_day(text.as_bytes()),
    }
}

#[inline(always)]
fn plain_number(text: &[u8]) -> Result<Value, PlainFault>
    ensures ok { IfOk result (SpellsPlain kinds.Number text.now) }
    ensures refused { IfErr result (RefusesPlain (SpellsPlain kinds.Number text.now)) }
{
    match Fixed::parse(text) {
        Ok(number) => Ok(Value::Number(number)),
        Err(_) => Err(PlainFault::Bad),
    }
}

#[tactic(auto, using(crate::proofs::PlainValues::no_text))]
#[inline(always)]
fn plain_text(alloc: Global, text: &str) -> Result<Value, PlainFault>
    ensures ok { IfOk result (SpellsPlain kinds.Text text.now) }
    ensures refused { IfErr result (RefusesPlain (SpellsPlain kinds.Text text.now)) }
{
    if text.len() > TEXT_LIMIT_BYTES {
        return Err(PlainFault::Bad);
    }
    match Text::new(alloc, text) {
        Ok(made) => Ok(Value::Text(made)),
        Err(_) => Err(PlainFault::OutOfMemory),
    }
}

#[inline(always)]
fn plain_flag(text: &str) -> Result<Value, PlainFault>
    ensures ok { IfOk result (SpellsPlain kinds.Flag text.now) }
    ensures refused { IfErr result (RefusesPlain (SpellsPlain kinds.Flag text.now)) }
{
    if text == "true" {
        Ok(Value::Flag(true))
    } else if text == "false" {
        Ok(Value::Flag(false))
    } else {
        Err(PlainFault::Bad)
    }
}

#[inline(always)]
fn plain_day(text: &[u8]) -> Result<Value, PlainFault>
    ensures ok { IfOk result (SpellsPlain kinds.Day text.now) }
    ensures refused { IfErr result (RefusesPlain (SpellsPlain kinds.Day text.now)) }
{
    match day_of(text) {
        Some(day) => Ok(Value::Day(day)),
        None => Err(PlainFault::Bad),
    }
}
