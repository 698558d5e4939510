//! The readers of a single field that is a text, by the content of its column.
ghost use Rattle.std.specs.Prelude.{IfOk};
ghost use Rattle.std.specs.Int.{IsInRange};
ghost use Rattle.feel_tests.specs.Calendar.{year_text};
ghost use Rattle.feel_tests.specs.TextBytes.{IsText};
ghost use Rattle.feel_tests.specs.declared.value.Value.TheVariants as values;
ghost use Rattle.intake_csv.specs.Fields.{IsFieldRead};
ghost use Rattle.intake_csv.specs.declared.column.Content.TheVariants as contents;

use faults::RowCause;
use feel_tests::{Kind, PlainFault, Value, read_plain, year_in};
use fixpoint::{Fixed, text_denotes_at_most_one};
use settlement::Money;
use std::alloc::{AllocError, Global};

/// Returns the first fault of an identifier, which is its own value.
#[inline(always)]
pub fn check_identifier(text: &str) -> Result<(), RowCause>
    requires { IsText text.now }
    ensures { IsFieldRead (λ _. values.Text text.now) contents.Identifier text.now result }
{
    if text.is_empty() {
        return Err(RowCause::EmptyId);
    }
    Ok(())
}

/// Reads an amount of money, or returns the field's first fault.
#[inline(always)]
pub fn read_money(text: &str) -> Result<Money, RowCause>
    requires { IsText text.now }
    ensures { IsFieldRead values.Number contents.Money text.now result }
{
    // proof: a text denotes at most one number
    text_denotes_at_most_one();
    let Ok(amount) = Fixed::parse(text.as_bytes()) else {
        return Err(RowCause::Value);
    };
    if !amount.is_cents() {
        return Err(RowCause::NotCents);
    }
    match Money::new(amount) {
        Some(money) => Ok(money),
        None => Err(RowCause::Negative),
    }
}

/// Reads a year of four digits, or returns the field's first fault.
pub fn read_year(text: &str) -> Result<u16, RowCause>
    requires { IsText text.now }
    ensures read { IsFieldRead (λ year. values.Text (year_text year))
        contents.Year text.now result }
    ensures in_range { IfOk result (IsInRange 1 9999) }
{
    match year_in(text.as_bytes()) {
        Some(year) => Ok(year),
        None => Err(RowCause::Value),
    }
}

/// Reads a value of the kind, or returns the field's first fault.
#[tactic(auto, using(crate::proofs::Spelling::plain_read, crate::proofs::Spelling::unread))]
#[inline(always)]
pub fn read_of_kind(
    alloc: Global,
    kind: Kind,
    text: &str,
) -> Result<Result<Value, RowCause>, AllocError>
    requires { IsText text.now }
    ensures { IfOk result (IsFieldRead (λ value. value) (contents.Plain kind) text.now) }
{
    match read_plain(alloc, kind, text) {
        Ok(value) => Ok(Ok(value)),
        Err(PlainFault::Bad) => Ok(Err(RowCause::Value)),
        Err(PlainFault::OutOfMemory) => Err(AllocError),
    }
}
