//! The kinds of a plan's columns, by its document.

use crate::plan_node::{entry_of_name, items_after, tables, text_after};
use faults::names;
use toml::Value;

/// The built-in names of texts.
const TEXT_NAMES: [&str; 3] = [names::CLAIM, names::MEMBER, names::FAMILY];

/// The built-in names of numbers.
const NUMBER_NAMES: [&str; 6] = [
    names::BILLED,
    names::MET,
    names::OOP,
    names::PAID,
    names::FAMILY_MET,
    names::FAMILY_OOP,
];

/// A kind of values: the document's, which may be of a plan that is not valid.
#[derive(Clone, Copy, PartialEq, Eq)]
pub enum Kind {
    Number,
    Text,
    Flag,
    Day,
}

impl Kind {
    /// The kind that a plan calls so.
    pub fn of_word(word: &str) -> Option<Kind> {
        match word {
            "number" => Some(Kind::Number),
            "text" => Some(Kind::Text),
            "flag" => Some(Kind::Flag),
            "day" => Some(Kind::Day),
            _ => None,
        }
    }
}

/// The kind of the values of a name; none if the document does not say it.
pub fn kind_of_name(document: &Value, name: &str) -> Option<Kind> {
    if let Some(kind) = kind_among(items_after(Some(document), "fields"), name) {
        return Some(kind);
    }
    for table in tables(document) {
        if let Some(kind) = kind_among(items_after(Some(table), "outputs"), name) {
            // Later tables read a number where the hit policy counts the matches.
            let is_count = text_after(Some(table), "hit") == Some("C#");
            return Some(if is_count { Kind::Number } else { kind });
        }
    }
    kind_of_built_in(name)
}

/// The kind of the first entry with this name.
pub fn kind_among(entries: &[Value], name: &str) -> Option<Kind> {
    let entry = entry_of_name(entries, name);
    Kind::of_word(text_after(entry, "kind").unwrap_or(""))
}

/// The kind of a name that every plan may read, or a plan with families.
pub fn kind_of_built_in(name: &str) -> Option<Kind> {
    if TEXT_NAMES.contains(&name) {
        Some(Kind::Text)
    } else if NUMBER_NAMES.contains(&name) {
        Some(Kind::Number)
    } else if name == names::SERVICE {
        Some(Kind::Day)
    } else {
        None
    }
}
