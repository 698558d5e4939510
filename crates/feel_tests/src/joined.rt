//! Texts of several items, joined with a separator.

ghost use Rattle.std.specs.Prelude.{◌≡◌, ◌++◌, ℕ, List, OnOk, flat_map};
ghost use Rattle.std.specs.List.{join_by};
ghost use Rattle.feel_tests.specs.Value.{literal_text};

use crate::text::Text;
use crate::value::Value;
use std::alloc::AllocError;

/// A way to write an item as text.
pub trait Spelling<T> {
    /// The text of an item.
    ghost text_of: { T → List ℕ };

    /// Appends the text of an item.
    fn append(text: &mut Vec<u8>, item: &T) -> Result<(), AllocError>
        ensures { OnOk result (text.new.items ≡ text.old.items ++ text_of item.now) };
}

/// Writes values as literals.
pub struct Literals;

impl Spelling<Value> for Literals {
    ghost text_of = { literal_text };

    fn append(text: &mut Vec<u8>, item: &Value) -> Result<(), AllocError> {
        item.write_text(text)
    }
}

/// Writes texts unchanged.
pub struct Bytes;

impl Spelling<Text> for Bytes {
    ghost text_of = { λ text. text };

    fn append(text: &mut Vec<u8>, item: &Text) -> Result<(), AllocError> {
        text.extend_from_slice(item.as_bytes())
    }
}

/// Appends the texts of the items, with the separator between each two of them.
pub fn append_joined<T, S: Spelling<T>>(
    text: &mut Vec<u8>,
    mark: &str,
    items: &[T],
) -> Result<(), AllocError>
    ensures { OnOk result (text.new.items
        ≡ text.old.items ++ join_by S.text_of mark.now items.now) }
{
    match items {
        [] => Ok(()),
        [first, others @ ..] => {
            S::append(text, first)?;
            append_others::<T, S>(text, mark, others)
        }
    }
}

// Appends the texts of the items, each after a separator.
fn append_others<T, S: Spelling<T>>(
    text: &mut Vec<u8>,
    mark: &str,
    items: &[T],
) -> Result<(), AllocError>
    ensures { OnOk result (text.new.items
        ≡ text.old.items ++ flat_map (λ item. mark.now ++ S.text_of item) items.now) }
{
    for item in items {
        text.extend_from_slice(mark.as_bytes())?;
        S::append(text, item)?;
    }
    Ok(())
}
