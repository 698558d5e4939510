//! Lookups in a plan's document, which fail if a key is missing or its value has the wrong type.
ghost use Rattle.std.specs.Prelude.{◌≡◌, ◌≢◌, ◌≤◌, Some, None, length, option_map, IsUtf8, IfOk, IfErr, OnOk, OnErr};
ghost use Rattle.toml.specs.Data.{table, get, as_str};
ghost use Rattle.toml.specs.Parse.{parse_document};
ghost use Rattle.toml.specs.View.{view, items_view};
ghost use Rattle.dtable.specs.Document.{string_at, array_at, optional_array_at, item_count};

use super::place::FaultLocation;
use faults::{PlanCause, PlanFault};
use std::alloc::Global;
use toml::Value;

/// Parses the text as a TOML document in UTF-8.
pub fn read_document(alloc: Global, text: &[u8]) -> Result<Value, PlanFault>
    ensures utf8 { IfOk result (λ _. IsUtf8 text.now) }
    ensures document { IfOk result (λ document. option_map table (parse_document text.now)
        ≡ Some (view document)) }
    ensures refused { IfErr result (λ fault. fault.cause ≢ PlanCause.OutOfMemory → IsUtf8 text.now
        → parse_document text.now ≡ None) }
{
    match toml::table_from_slice(alloc, text) {
        Ok(members) => Ok(Value::Table(members)),
        Err(fault) if fault.is_memory() => Err(FaultLocation::TEXT.fault(PlanCause::OutOfMemory)),
        Err(_) => Err(FaultLocation::TEXT.fault(PlanCause::Toml)),
    }
}

/// Returns the value at a required key. An entry that is not a table has the wrong type.
pub fn required_value<'a>(
    entry: &'a Value,
    key: &str,
    place: FaultLocation,
) -> Result<&'a Value, PlanFault>
    ensures ok { IfOk result (λ value. get key.now (view entry.now) ≡ Some (view value.now)) }
    ensures refused { OnErr result (get key.now (view entry.now) ≡ None) }
{
    match entry.get(key) {
        Some(value) => Ok(value),
        None if entry.is_table() => Err(place.fault(PlanCause::Missing)),
        None => Err(place.fault(PlanCause::Kind)),
    }
}

/// Returns the string at a required key.
pub fn required_text<'a>(
    entry: &'a Value,
    key: &str,
    place: FaultLocation,
) -> Result<&'a str, PlanFault>
    ensures ok { IfOk result (λ text. string_at key.now (view entry.now) ≡ Some text.now) }
    ensures refused { OnErr result (string_at key.now (view entry.now) ≡ None) }
{
    let value = required_value(entry, key, place)?;
    text_of(value, place)
}

/// Returns the text of a value that must be a string.
pub fn text_of(value: &Value, place: FaultLocation) -> Result<&str, PlanFault>
    ensures ok { IfOk result (λ text. as_str (view value.now) ≡ Some text.now) }
    ensures refused { OnErr result (as_str (view value.now) ≡ None) }
{
    match value.as_str() {
        Some(text) => Ok(text),
        None => Err(place.fault(PlanCause::Kind)),
    }
}

/// Returns the items of the array at a required key.
pub fn required_array<'a>(
    entry: &'a Value,
    key: &str,
    place: FaultLocation,
) -> Result<&'a [Value], PlanFault>
    ensures ok { IfOk result (λ items. array_at key.now (view entry.now)
        ≡ Some (items_view items.now)) }
    ensures refused { OnErr result (array_at key.now (view entry.now) ≡ None) }
{
    let value = required_value(entry, key, place)?;
    match value.as_array() {
        Some(items) => Ok(items.as_slice()),
        None => Err(place.fault(PlanCause::Kind)),
    }
}

/// Returns the items of the array at an optional key of the document, or none if the key is
/// missing.
pub fn optional_array<'a>(document: &'a Value, key: &str) -> Result<&'a [Value], PlanFault>
    ensures ok { IfOk result (λ items. optional_array_at key.now (view document.now)
        ≡ Some (items_view items.now)) }
    ensures refused { OnErr result (optional_array_at key.now (view document.now) ≡ None) }
{
    match document.get(key) {
        None => Ok(&[]),
        Some(value) => match value.as_array() {
            Some(items) => Ok(items.as_slice()),
            None => Err(FaultLocation::TEXT.fault(PlanCause::Kind)),
        },
    }
}

/// Requires at most `limit` items; `place` is the location of the first item over the limit.
pub fn check_count(items: &[Value], limit: usize, place: FaultLocation) -> Result<(), PlanFault>
    ensures ok { OnOk result (item_count (items_view items.now) ≤ limit) }
    ensures refused { OnErr result (¬ (item_count (items_view items.now) ≤ limit)) }
{
    if items.len() > limit {
        return Err(place.fault(PlanCause::Limit));
    }
    Ok(())
}
