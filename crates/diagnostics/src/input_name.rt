//! Explains why an input may not have the name that it has, and finds similar names.

use crate::advice::Advice;
use crate::edits::is_one_edit;
use crate::message::Part;
use crate::plan_node::{entry_of_name, items_after, single_values, tables, text_after, version_of};
use crate::shape::Shape;
use faults::names;
use toml::Value;

/// The first version of a plan with accumulators for families.
pub const FAMILIES_SINCE: i64 = 3;

/// Explains what the name of an input is, if the plan has it elsewhere, or a similar name that the input may have. The input is of the table with this
/// number.
pub fn unknown_input<'d>(
    document: &'d Value,
    input: Option<&'d Value>,
    table: usize,
) -> Option<Advice<'d>> {
    let name = text_after(input, "name")?;
    if let Some(number) = table_with_output(document, name) {
        return Some(output_advice(document, name, number, table));
    }
    if let Some(near) = near_value(document, name, table) {
        let cause = "Unknown input `{}`; did you mean `{}`?";
        let fix = "Correct the name, or declare a field of this name.";
        return Some(Advice::new(cause, fix, Part::Word(name), Part::Word(near)));
    }
    if is_of_families(document, name) {
        let cause = "`{}` is a name of plans of version 3, and this plan has an earlier version.";
        return Some(Advice::about(cause, "Set `version` to 3, or remove the input.", name));
    }
    Some(unlike_advice(document, name))
}

/// Whether the name is one of plans with families, which this plan is not.
pub fn is_of_families(document: &Value, name: &str) -> bool {
    let is_name = name == names::FAMILY || name == names::FAMILY_MET || name == names::FAMILY_OOP;
    is_name && version_of(document).unwrap_or(1) < FAMILIES_SINCE
}

/// The number of the first table that has an output with this name.
pub fn table_with_output(document: &Value, name: &str) -> Option<usize> {
    let mut number = 1usize;
    for table in tables(document) {
        if entry_of_name(items_after(Some(table), "outputs"), name).is_some() {
            return Some(number);
        }
        number = number.saturating_add(1);
    }
    None
}

// Why an output of the table with this number cannot be an input of the other table.
fn output_advice<'d>(
    document: &'d Value,
    name: &'d str,
    number: usize,
    table: usize,
) -> Advice<'d> {
    if number > table {
        let cause = "`{}` is an output of table {}, which comes after this one.";
        let fix = "Move the table with the output `{}` before this one.";
        return Advice::new(cause, fix, Part::Word(name), Part::Number(number));
    }
    if number == table {
        let cause = "`{}` is an output of this table.";
        let fix = "Remove the input, or use an output of an earlier table.";
        return Advice::about(cause, fix, name);
    }
    let hit = text_after(tables(document).get(number.saturating_sub(1)), "hit").unwrap_or("");
    let cause = "`{}` is a list, since its table has the hit policy `{}`.";
    let fix = "Remove the input, or choose a hit policy with a single value for the table of `{}`.";
    Advice::new(cause, fix, Part::Word(name), Part::Word(hit))
}

// Where the key `fields` is misspelt, no field is known.
fn unlike_advice<'d>(document: &'d Value, name: &'d str) -> Advice<'d> {
    if document.get("fields").is_none()
        && let Some(near) = near_key(Some(document), "fields", Shape::Plan.keys())
    {
        return Advice::new(
            "Unknown input `{}`. The key `fields` is missing; the key `{}` may be a misspelling of it.",
            "Correct the name of the key.",
            Part::Word(name),
            Part::Word(near),
        );
    }
    let fix = "Correct the name, or declare the field `{}`.";
    Advice::about("Unknown input `{}`.", fix, name)
}

/// A key of an entry that may be a misspelling of the wanted one. A known key is not one: `when` is one edit away from `then`.
pub fn near_key<'d>(
    entry: Option<&'d Value>,
    wanted: &str,
    known: &[&'static str],
) -> Option<&'d str> {
    let Some(Value::Table(members)) = entry else {
        return None;
    };
    for key in members.keys() {
        if is_near(key.as_str(), wanted, known) {
            return Some(key.as_str());
        }
    }
    None
}

fn is_near(word: &str, wanted: &str, known: &[&'static str]) -> bool {
    is_one_edit(word.as_bytes(), wanted.as_bytes()) && !known.contains(&word)
}

// The first name that the inputs of a table may have and that is one edit away from the given one.
fn near_value<'d>(document: &'d Value, name: &str, table: usize) -> Option<&'d str> {
    for number in 0..table {
        if let Some(near) = near_name(single_values(document, number), name) {
            return Some(near);
        }
    }
    None
}

// Any two names of one character are one edit apart, so they are not similar.
fn near_name<'d>(entries: &'d [Value], name: &str) -> Option<&'d str> {
    for entry in entries {
        let near = text_after(Some(entry), "name").unwrap_or("");
        let is_longer = near.len() > 1 || name.len() > 1;
        if is_longer && is_one_edit(near.as_bytes(), name.as_bytes()) {
            return Some(near);
        }
    }
    None
}
