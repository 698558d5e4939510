//! The reader of the names and kinds of a plan's columns, and of its fields.
ghost use Rattle.std.specs.Prelude.{◌≡◌, ◌++◌};
ghost use Rattle.std.specs.List.{list_all};
ghost use Rattle.feel_tests.specs.Words.{is_name_byte};
ghost use Rattle.toml.specs.View.{view, items_view};
ghost use Rattle.dtable.specs.NameForm.{family_names, has_name_form, is_among, names_taken, reserved_names};
ghost use Rattle.dtable.specs.PlanFile.{IsNamed, IsNewlyNamed, IsOfKind, IsField, AreFields, AreNames};
ghost use Rattle.dtable.specs.Reading.{Reads};
ghost use Rattle.dtable.specs.Scope.{data_names};

use super::document::{check_count, optional_array, required_text};
use super::limits::FIELDS_LIMIT;
use super::place::FaultLocation;
use super::scope::is_taken_field;
use faults::{Ordinal, PlanCause, PlanFault, names};
use feel_tests::{Kind, Sequence, is_name_byte, is_name_start};
use std::alloc::Global;
use tables::{InputData, NAME_LIMIT_BYTES, Name, all_names};
use toml::Value;

/// The reserved names: a claim's own columns, a member's accumulators, and the words of cells.
const RESERVED_NAMES: [&str; 11] = [
    names::CLAIM,
    names::MEMBER,
    names::SERVICE,
    names::BILLED,
    names::MET,
    names::OOP,
    names::PAID,
    "true",
    "false",
    "not",
    "date",
];

/// The names that are reserved in addition if accumulators are kept for families.
const FAMILY_NAMES: [&str; 3] = [names::FAMILY, names::FAMILY_MET, names::FAMILY_OOP];

/// Reads the fields of a document and returns all names of the plan, including the names that every
/// plan has.
pub fn read_names(
    alloc: Global,
    document: &Value,
    families: bool,
) -> Result<Sequence<InputData>, PlanFault>
    ensures { Reads (AreNames families (view document.now)) result }
{
    let entries = optional_array(document, "fields")?;
    let fields = read_fields(alloc, families, entries)?;
    let names = all_names(alloc, families, fields)?;
    Ok(names)
}

fn read_fields(
    alloc: Global,
    families: bool,
    entries: &[Value],
) -> Result<Sequence<InputData>, PlanFault>
    ensures { Reads (AreFields families (items_view entries.now)) result }
{
    check_count(
        entries,
        FIELDS_LIMIT,
        FaultLocation::TEXT.in_column(Ordinal::at(FIELDS_LIMIT)),
    )?;
    let mut fields = Sequence::new(alloc);
    for (index, entry) in entries.iter().enumerate() {
        let field = read_field(
            alloc,
            families,
            entry,
            fields.as_slice(),
            FaultLocation::TEXT.in_column(Ordinal::at(index)),
        )?;
        fields.push(field)?;
    }
    Ok(fields)
}

fn read_field(
    alloc: Global,
    families: bool,
    entry: &Value,
    front: &[InputData],
    place: FaultLocation,
) -> Result<InputData, PlanFault>
    ensures { Reads (IsField (names_taken families ++ data_names front.now)
        (view entry.now)) result }
{
    let name = read_field_name(alloc, families, entry, front, place)?;
    let kind = read_kind(entry, place)?;
    Ok(InputData { name, kind })
}

fn read_field_name(
    alloc: Global,
    families: bool,
    entry: &Value,
    front: &[InputData],
    place: FaultLocation,
) -> Result<Name, PlanFault>
    ensures { Reads (IsNewlyNamed (names_taken families ++ data_names front.now)
        (view entry.now)) result }
{
    let name = read_name(alloc, entry, place)?;
    if is_taken_field(families, front, name.as_str()) {
        return Err(place.fault(PlanCause::Duplicate));
    }
    Ok(name)
}

/// Reads the name of an entry.
pub fn read_name(alloc: Global, entry: &Value, place: FaultLocation) -> Result<Name, PlanFault>
    ensures { Reads (IsNamed (view entry.now)) result }
{
    let text = required_text(entry, "name", place)?;
    if !has_name_form(text) {
        return Err(place.fault(PlanCause::Kind));
    }
    if text.len() > NAME_LIMIT_BYTES {
        return Err(place.fault(PlanCause::Limit));
    }
    Ok(Name::new(alloc, text)?)
}

/// Reads the kind of an entry.
pub fn read_kind(entry: &Value, place: FaultLocation) -> Result<Kind, PlanFault>
    ensures { Reads (IsOfKind (view entry.now)) result }
{
    match required_text(entry, "kind", place)? {
        "number" => Ok(Kind::Number),
        "text" => Ok(Kind::Text),
        "flag" => Ok(Kind::Flag),
        "day" => Ok(Kind::Day),
        _ => Err(place.fault(PlanCause::Kind)),
    }
}

/// Returns whether the text has the form of a name: an ASCII letter or `_`, then letters, digits or
/// `_`. Its length is tested elsewhere, since it is another fault.
fn has_name_form(text: &str) -> bool
    ensures { result ≡ has_name_form text.now }
{
    match text.as_bytes() {
        [] => false,
        [first, rest @ ..] => is_name_start(*first) && are_name_bytes(rest),
    }
}

fn are_name_bytes(bytes: &[u8]) -> bool
    ensures { result ≡ list_all is_name_byte bytes.now }
{
    for byte in bytes {
        if !is_name_byte(*byte) {
            return false;
        }
    }
    true
}

/// Returns whether the name is reserved in every plan.
pub fn is_reserved(name: &str) -> bool
    ensures { result ≡ is_among name.now reserved_names }
{
    RESERVED_NAMES.contains(&name)
}

/// Returns whether the name is reserved in a plan that keeps accumulators for families, or in one
/// that does not.
#[tactic(auto, using(crate::proofs::ReadNames::among_taken_with_families, crate::proofs::ReadNames::among_taken_without))]
pub fn is_taken_from_start(families: bool, name: &str) -> bool
    ensures { result ≡ is_among name.now (names_taken families) }
{
    if families {
        is_family_name(name) || is_reserved(name)
    } else {
        is_reserved(name)
    }
}

fn is_family_name(name: &str) -> bool
    ensures { result ≡ is_among name.now family_names }
{
    FAMILY_NAMES.contains(&name)
}
