//! The parts of a plan: the keys of each, and what their values must be.

use crate::edits::is_one_edit;
use faults::{FAMILY_ROLE_KEYS, ROLE_KEYS};
use toml::Value;

/// The part of a plan that a value is.
#[derive(Clone, Copy, PartialEq, Eq)]
pub enum Shape {
    Plan,
    Fields,
    Field,
    Tables,
    Table,
    Inputs,
    Input,
    Outputs,
    Output,
    Rules,
    Rule,
    Roles,
    /// A value without keys.
    Plain,
    /// The value of an unknown key.
    UnusedKey,
}

impl Shape {
    /// The keys of this part, in the order in which they are read.
    pub fn keys(self) -> &'static [&'static str] {
        match self {
            Shape::Plan => &["version", "fields", "tables", "roles"],
            Shape::Field => &["name", "kind"],
            Shape::Table => &["hit", "inputs", "outputs", "rules"],
            Shape::Input => &["name", "values"],
            Shape::Output => &["name", "kind", "priority", "default"],
            Shape::Rule => &["when", "then"],
            Shape::Roles => &ROLE_KEYS,
            _ => &[],
        }
    }

    /// The keys that this part must have, without those of roles.
    pub fn required_keys(self) -> &'static [&'static str] {
        match self {
            Shape::Plan => &["version"],
            Shape::Field | Shape::Output => &["name", "kind"],
            Shape::Table => &["inputs", "outputs", "rules"],
            Shape::Input => &["name"],
            Shape::Rule => &["when", "then"],
            _ => &[],
        }
    }

    /// The further keys of this part in a plan with families (version 3).
    pub fn family_keys(self) -> &'static [&'static str] {
        match self {
            Shape::Roles => &FAMILY_ROLE_KEYS,
            _ => &[],
        }
    }

    /// Whether this part is a table.
    pub fn has_keys(self) -> bool {
        !self.keys().is_empty()
    }

    /// The part that is the value of a key of this one. Each key has values of the same shape in all parts.
    pub fn key_shape(self, key: &str, families: bool) -> Shape {
        let is_known = self.keys().contains(&key)
            || (families && self.family_keys().contains(&key));
        if !is_known {
            return Shape::UnusedKey;
        }
        match key {
            "fields" => Shape::Fields,
            "tables" => Shape::Tables,
            "roles" => Shape::Roles,
            "inputs" => Shape::Inputs,
            "outputs" => Shape::Outputs,
            "rules" => Shape::Rules,
            _ => Shape::Plain,
        }
    }

    /// A known key of this part that is one edit away from the given one, if there is one.
    pub fn near_key(self, key: &str, families: bool) -> Option<&'static str> {
        let near = near_of(key, self.keys());
        if near.is_none() && families {
            return near_of(key, self.family_keys());
        }
        near
    }

    /// The part that is an item of this one, if this is an array.
    pub fn item(self) -> Shape {
        match self {
            Shape::Fields => Shape::Field,
            Shape::Tables => Shape::Table,
            Shape::Inputs => Shape::Input,
            Shape::Outputs => Shape::Output,
            Shape::Rules => Shape::Rule,
            Shape::UnusedKey => Shape::UnusedKey,
            _ => Shape::Plain,
        }
    }

    /// The first key of this part whose value has another type than it must have, or is an empty array and must not be.
    pub fn mistyped_key(self, entry: &Value) -> Option<&'static str> {
        for key in self.keys() {
            if let Some(value) = entry.get(*key)
                && !Type::at(key).has(value)
            {
                return Some(*key);
            }
        }
        None
    }
}

fn near_of(key: &str, keys: &[&'static str]) -> Option<&'static str> {
    for known in keys {
        if is_one_edit(key.as_bytes(), known.as_bytes()) {
            return Some(*known);
        }
    }
    None
}

/// The type of the value at a key. Each key has the same type in all parts, and those of roles have none here.
#[derive(Clone, Copy)]
pub enum Type {
    Integer,
    Array,
    FilledArray,
    Table,
    Text,
}

impl Type {
    /// The type of the value at a key.
    pub fn at(key: &str) -> Type {
        match key {
            "version" => Type::Integer,
            "fields" | "tables" | "rules" | "when" | "then" | "priority" => Type::Array,
            "inputs" | "outputs" => Type::FilledArray,
            "roles" => Type::Table,
            _ => Type::Text,
        }
    }

    fn has(self, value: &Value) -> bool {
        match self {
            Type::Integer => value.as_integer().is_some(),
            Type::Array => value.as_array().is_some(),
            Type::FilledArray => match value.as_array() {
                Some(items) => !items.as_slice().is_empty(),
                None => false,
            },
            Type::Table => value.is_table(),
            Type::Text => value.as_str().is_some(),
        }
    }

    /// What to write at a key in place of a value of another type, which may be an array.
    pub fn fix(self, key: &str, is_array: bool) -> &'static str {
        match self {
            Type::Integer => "Write an integer without quotes: 1, 2 or 3.",
            Type::Array => match key {
                "tables" => "Write [[tables]], with two brackets on each side.",
                "fields" =>
                    "Write an array of fields: fields = [{name = \"age\", kind = \"number\"}].",
                _ => "Write an array: put the items in brackets.",
            },
            Type::FilledArray => "Write an array of at least one item, in brackets.",
            Type::Table => "Write a table: the line [roles], and the keys after it.",
            Type::Text if is_array => {
                "Write one string; the cell for several texts is '\"A\",\"B\"', for example."
            }
            Type::Text => "Put quotes round the value.",
        }
    }

    /// The type, as a message names it.
    pub fn name(self) -> &'static str {
        match self {
            Type::Integer => "an integer",
            Type::Array => "an array",
            Type::FilledArray => "an array that is not empty",
            Type::Table => "a table",
            Type::Text => "a string",
        }
    }
}
