//! The comparison of a field with an answer or a number, and the kinds of values that a field lists.

ghost use Rattle.std.specs.Prelude.{◌≡◌, ◌↔◌, IfOk, IsTrue, IsUtf8, map};
ghost use Rattle.std.specs.List.{AllByRecursion, AllZip};
ghost use Rattle.feel_tests.specs.declared.value.Value.TheVariants.{Number};
ghost use Rattle.plan_rows.specs.Expected.{AreOfKind, Denotes, HasAnswer, IsTextOf, SpellsSome, listed_texts};

use feel_tests::{Kind, PlainFault, Value, read_plain};
use fixpoint::Fixed;
use std::alloc::{AllocError, Global};
use std::str;
use tables::Answer;

/// The text of a list without values.
pub const EMPTY_LIST: &str = "[]";

/// Returns whether the field has the answer.
pub fn has_answer(alloc: Global, field: &[u8], answer: &Answer) -> Result<bool, AllocError>
    ensures { IfOk result (λ same. IsTrue same ↔ HasAnswer field.now answer.now) }
{
    let Ok(text) = str::from_utf8(field) else {
        return Ok(false);
    };
    is_text_of(alloc, text, answer)
}

/// Returns whether the field is a text of the number.
pub fn denotes_number(alloc: Global, field: &[u8], number: Fixed) -> Result<bool, AllocError>
    ensures { IfOk result (λ same. IsTrue same
        ↔ IsUtf8 field.now × Denotes field.now (Number number)) }
{
    let Ok(text) = str::from_utf8(field) else {
        return Ok(false);
    };
    denotes(alloc, text, &Value::Number(number))
}

/// Returns whether each value that the field lists is one of this kind.
pub fn are_of_kind(alloc: Global, kind: Kind, field: &[u8]) -> Result<bool, AllocError>
    ensures { IfOk result (λ all. IsTrue all ↔ AreOfKind kind field.now) }
{
    let Ok(text) = str::from_utf8(field) else {
        return Ok(false);
    };
    are_texts_of_kind(alloc, kind, text)
}

fn are_texts_of_kind(alloc: Global, kind: Kind, text: &str) -> Result<bool, AllocError>
    ensures { IfOk result (λ all. IsTrue all
        ↔ AllByRecursion (SpellsSome kind) (listed_texts text.now)) }
{
    if text == EMPTY_LIST {
        return Ok(true);
    }
    let texts: Vec<&str> = text.split(';').collect(alloc)?;
    each_spells(alloc, kind, texts.as_slice())
}

fn each_spells(alloc: Global, kind: Kind, texts: &[&str]) -> Result<bool, AllocError>
    ensures { IfOk result (λ all. IsTrue all
        ↔ AllByRecursion (SpellsSome kind) (map (λ t. t.now) texts.now)) }
{
    for place in 0..texts.len() {
        if !spells(alloc, kind, texts[place])? {
            return Ok(false);
        }
    }
    Ok(true)
}

fn spells(alloc: Global, kind: Kind, text: &str) -> Result<bool, AllocError>
    ensures { IfOk result (λ is. IsTrue is ↔ SpellsSome kind text.now) }
{
    match read_plain(alloc, kind, text) {
        Ok(_) => Ok(true),
        Err(PlainFault::Bad) => Ok(false),
        Err(PlainFault::OutOfMemory) => Err(AllocError),
    }
}

fn is_text_of(alloc: Global, text: &str, answer: &Answer) -> Result<bool, AllocError>
    ensures { IfOk result (λ same. IsTrue same ↔ IsTextOf text.now answer.now) }
{
    match answer {
        Answer::One(value) => denotes(alloc, text, value),
        Answer::Many(values) => lists(alloc, text, values.as_slice()),
    }
}

fn denotes(alloc: Global, text: &str, value: &Value) -> Result<bool, AllocError>
    ensures { IfOk result (λ same. IsTrue same ↔ Denotes text.now value.now) }
{
    // proof: a field denotes at most one value
    feel_tests::field_spells_at_most_one_value();
    match read_plain(alloc, value.kind(), text) {
        Ok(read) => Ok(read == *value),
        Err(PlainFault::Bad) => Ok(false),
        Err(PlainFault::OutOfMemory) => Err(AllocError),
    }
}

fn lists(alloc: Global, text: &str, values: &[Value]) -> Result<bool, AllocError>
    ensures { IfOk result (λ same. IsTrue same
        ↔ AllZip Denotes (listed_texts text.now) values.now) }
{
    if text == EMPTY_LIST {
        return Ok(values.is_empty());
    }
    let texts: Vec<&str> = text.split(';').collect(alloc)?;
    each_denotes(alloc, texts.as_slice(), values)
}

fn each_denotes(alloc: Global, texts: &[&str], values: &[Value]) -> Result<bool, AllocError>
    ensures { IfOk result (λ same. IsTrue same
        ↔ AllZip Denotes (map (λ t. t.now) texts.now) values.now) }
{
    if texts.len() != values.len() {
        return Ok(false);
    }
    for (place, value) in values.iter().enumerate() {
        if !denotes(alloc, texts[place], value)? {
            return Ok(false);
        }
    }
    Ok(true)
}
