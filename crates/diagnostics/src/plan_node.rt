//! Finds the value of a plan's document that the numbers of a table, a rule and a column refer to.

use crate::message::{Message, Part, shown_front};
use crate::places::Step;
use crate::texts::{Level, level_of};
use crate::value_path::{TOP, ValuePath};
use faults::{PlanCause, PlanFault, RoleKey};
use std::alloc::{AllocError, Global};
use toml::Value;

/// The document of a plan's text; none if the text is not TOML.
pub fn document_of(alloc: Global, text: &[u8]) -> Result<Option<Value>, AllocError> {
    match toml::table_from_slice(alloc, text) {
        Ok(members) => Ok(Some(Value::Table(members))),
        Err(refusal) if refusal.is_memory() => Err(AllocError),
        Err(_) => Ok(None),
    }
}

/// The path to the place of a plan's fault.
pub fn path_to_fault(document: &Value, fault: &PlanFault) -> ValuePath {
    let column = fault.column;
    match level_of(fault) {
        Level::Plan => TOP,
        Level::Field => match role_of(document, fault) {
            Some(role) => TOP.key("roles").key(role),
            None => TOP.item("fields", column),
        },
        Level::Column => path_in_column(document, fault),
        _ => path_in_table(document, fault.table, fault.rule, column),
    }
}

// A column has cells in the allowed values of an input, and literals in the priority list and the default of an output. Where an output has both, the
// fault may be in either.
fn path_in_column(document: &Value, fault: &PlanFault) -> ValuePath {
    let path = path_in_table(document, fault.table, 0, fault.column);
    if !matches!(fault.cause, PlanCause::Cell(_)) {
        return path;
    }
    if Column::of(document, fault.table, fault.column).is_input {
        return path.key("values");
    }
    match value_at(document, path.as_slice()) {
        Some(output) if output.get("priority").is_none() => path.key("default"),
        _ => path,
    }
}

/// The path to a part of a table: to a rule, a column or a cell, by their numbers from 1. Without a rule or a column the number is 0.
pub fn path_in_table(document: &Value, table: usize, rule: usize, column: usize) -> ValuePath {
    let mut path = TOP.item("tables", table);
    if rule > 0 {
        path = path.item("rules", rule);
    }
    if column > 0 {
        let column = Column::of(document, table, column);
        path = path.item(list_of_columns(rule > 0, column.is_input), column.number);
    }
    path
}

// The key of the role that a fault is about. Fields and roles have the same place numbers; the cause shows which of them is meant.
fn role_of(document: &Value, fault: &PlanFault) -> Option<&'static str> {
    let is_role = match fault.cause {
        PlanCause::Role | PlanCause::Money => true,
        _ => items_after(Some(document), "fields").len() < fault.column,
    };
    if !is_role {
        return None;
    }
    match RoleKey::with_number(fault.column) {
        Some(role) => Some(role.key()),
        None => Some(""),
    }
}

/// Adds a line that names the part of the plan at the place of a fault.
pub fn add_part_name(
    message: &mut Message,
    document: &Value,
    fault: &PlanFault,
) -> Result<(), AllocError> {
    let column = fault.column;
    match level_of(fault) {
        Level::Plan => message.sentence("the top level of the plan", &[]),
        Level::Field => match role_of(document, fault) {
            Some(role) => message.sentence("role {} {}", &[Part::Number(column), Part::Word(role)]),
            None => {
                let path = TOP.item("fields", column);
                let name = text_at(document, path.as_slice(), "name");
                message.sentence("field {} {}", &[Part::Number(column), Part::Word(name)])
            }
        },
        _ => add_name_in_table(message, document, fault.table, fault.rule, column),
    }
}

/// Adds a line that names a part of a table, by the numbers that `path_in_table` takes.
pub fn add_name_in_table(
    message: &mut Message,
    document: &Value,
    table: usize,
    rule: usize,
    column: usize,
) -> Result<(), AllocError> {
    let place = Column::of(document, table, column);
    let side = if place.is_input { "input" } else { "output" };
    match (rule, column) {
        (0, 0) => message.sentence("table {}", &[Part::Number(table)]),
        (_, 0) => {
            let values = [Part::Number(table), Part::Number(rule)];
            message.sentence("table {}, rule {}", &values)
        }
        (0, _) => {
            let values = [
                Part::Number(table),
                Part::Word(side),
                Part::Number(place.number),
                Part::Word(place.name),
            ];
            message.sentence("table {}, {} {} {}", &values)
        }
        _ => {
            let values = [
                Part::Number(table),
                Part::Number(rule),
                Part::Word(side),
                Part::Number(place.number),
                Part::Word(place.name),
            ];
            message.sentence("table {}, rule {}, {} {} {}", &values)
        }
    }
}

/// A column of a table: an input or an output, with its number from 1 among the inputs or the outputs. Its kind is empty if the document does not
/// give one, as for inputs.
#[derive(Clone, Copy)]
pub struct Column<'d> {
    pub is_input: bool,
    number: usize,
    pub name: &'d str,
    pub kind: &'d str,
}

impl<'d> Column<'d> {
    /// The column of a table, both by their numbers from 1.
    pub fn of(document: &'d Value, table: usize, column: usize) -> Column<'d> {
        let path = TOP.item("tables", table);
        let inputs = items_after(value_at(document, path.as_slice()), "inputs").len();
        let is_input = column <= inputs;
        let number = if is_input {
            column
        } else {
            column.saturating_sub(inputs)
        };
        let path = path.item(list_of_columns(false, is_input), number);
        Column {
            is_input,
            number,
            name: text_at(document, path.as_slice(), "name"),
            kind: text_at(document, path.as_slice(), "kind"),
        }
    }
}

// The key of the array that has an item for each column.
fn list_of_columns(is_rule: bool, is_input: bool) -> &'static str {
    match (is_rule, is_input) {
        (true, true) => "when",
        (true, false) => "then",
        (false, true) => "inputs",
        (false, false) => "outputs",
    }
}

/// The value at the end of the steps, if the document has it.
pub fn value_at<'d>(document: &'d Value, steps: &[Step]) -> Option<&'d Value> {
    let mut value = document;
    for step in steps {
        let next = match step {
            Step::Key(key) => value.get(*key),
            Step::Item(item) => value.get(*item),
        };
        value = next?;
    }
    Some(value)
}

/// The version of the plan, if the document has one.
pub fn version_of(document: &Value) -> Option<i64> {
    document.get("version")?.as_integer()
}

/// The string at a key of the value at the end of the steps; empty if there is none.
pub fn text_at<'d>(document: &'d Value, steps: &[Step], key: &str) -> &'d str {
    text_after(value_at(document, steps), key).unwrap_or("")
}

/// The plan's tables.
pub fn tables(document: &Value) -> &[Value] {
    items_after(Some(document), "tables")
}

/// The entries of values that the tables after the one with this number may read, for number 0 the fields, and else the outputs of that table
/// unless they are lists.
pub fn single_values(document: &Value, number: usize) -> &[Value] {
    if number == 0 {
        return items_after(Some(document), "fields");
    }
    let table = tables(document).get(number - 1);
    match text_after(table, "hit") {
        Some("R" | "O" | "C") => &[],
        _ => items_after(table, "outputs"),
    }
}

/// The string at a key of an entry, if there is one. Only the part is returned that a message shows; a name of a valid plan is shorter.
pub fn text_after<'d>(entry: Option<&'d Value>, key: &str) -> Option<&'d str> {
    match value_at_key(entry, key) {
        Some(Value::String(text)) => Some(shown_front(text.as_str())),
        _ => None,
    }
}

/// The items of the array at a key of an entry; none if there is no such array.
pub fn items_after<'d>(entry: Option<&'d Value>, key: &str) -> &'d [Value] {
    match value_at_key(entry, key) {
        Some(Value::Array(items)) => items.as_slice(),
        _ => &[],
    }
}

/// The first of the entries with this name.
pub fn entry_of_name<'d>(entries: &'d [Value], name: &str) -> Option<&'d Value> {
    for entry in entries {
        if text_after(Some(entry), "name") == Some(name) {
            return Some(entry);
        }
    }
    None
}

/// The value at a key of an entry, if there is one.
pub fn value_at_key<'d>(entry: Option<&'d Value>, key: &str) -> Option<&'d Value> {
    entry?.get(key)
}
