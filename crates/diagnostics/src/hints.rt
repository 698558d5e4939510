//! Explains a plan's fault by its one cause and its fix, as far as the document at the fault's place shows them.

use crate::advice::Advice;
use crate::cell_hints::cell_advice;
use crate::input_name::{is_of_families, near_key, table_with_output, unknown_input};
use crate::kind::{Kind, kind_among, kind_of_built_in, kind_of_name};
use crate::message::{Message, Part, shown_front};
use crate::plan_node::{
    Column, items_after, single_values, tables, text_after, text_at, value_at_key,
};
use crate::row::BadCell;
use crate::shape::{Shape, Type};
use crate::texts::{Level, level_of, money_explanation, plan_explanation};
use crate::words::{HIT_POLICIES, KINDS, meaning_of};
use faults::{CellFault, PlanCause, PlanFault, RoleKey};
use std::alloc::AllocError;
use toml::Value;

/// The most bytes of a name.
const NAME_LIMIT_BYTES: usize = 64;

/// The most values of a priority list.
const PRIORITY_LIMIT: usize = 64;

/// The words of cells, which are no names.
const WORDS_OF_CELLS: [&str; 4] = ["true", "false", "not", "date"];

/// The hit policies.
const KNOWN_HIT_POLICIES: [&str; 11] = ["U", "A", "P", "F", "O", "R", "C", "C+", "C<", "C>", "C#"];

/// The key at the place of a plan's fault that the fault is about, if it is about one.
pub fn key_of_fault(
    document: &Value,
    entry: Option<&Value>,
    fault: &PlanFault,
) -> Option<&'static str> {
    match fault.cause {
        PlanCause::Kind => shape_of(document, fault).mistyped_key(entry?),
        PlanCause::Unknown if matches!(level_of(fault), Level::Plan) => Some("version"),
        PlanCause::Hit => Some("hit"),
        _ => None,
    }
}

/// Adds what the document shows at the fault's place, the cell with a mark or the values that a role may name, and then the cause and the fix.
pub fn add_explanation(
    message: &mut Message,
    document: &Value,
    entry: Option<&Value>,
    fault: &PlanFault,
) -> Result<(), AllocError> {
    match fault.cause {
        PlanCause::Role => add_values_of_role(message, document, fault.column)?,
        PlanCause::Cell(cell) => message.mark(text_of(entry).unwrap_or(""), cell.at)?,
        _ => {}
    }
    message.advice(&advice_at(document, entry, fault))
}

// The cause of a plan's fault and its fix.
fn advice_at<'d>(document: &'d Value, entry: Option<&'d Value>, fault: &PlanFault) -> Advice<'d> {
    let known = match fault.cause {
        PlanCause::Missing => missing_key(entry, shape_of(document, fault)),
        PlanCause::Role => role_advice(document, fault.column),
        PlanCause::Kind => wrong_value(document, entry, fault),
        PlanCause::Unknown => unknown_input(document, entry, fault.table),
        PlanCause::Duplicate => used_name(document, entry, fault.table),
        PlanCause::Limit => exceeded_limit(document, entry, fault),
        _ => advice_of_entry(document, entry, fault),
    };
    match known {
        Some(advice) => advice,
        None => {
            let general = plan_explanation(fault);
            Advice::about(general.cause, general.fix, "")
        }
    }
}

// The advice for a fault that is within one value of the document.
fn advice_of_entry<'d>(
    document: &'d Value,
    entry: Option<&'d Value>,
    fault: &PlanFault,
) -> Option<Advice<'d>> {
    match fault.cause {
        PlanCause::Hit => hit_advice(entry),
        PlanCause::Priority => unlisted_literal(entry),
        PlanCause::Cell(cell) => advice_of_cell(document, entry, fault, cell),
        PlanCause::Money => wrong_amount(entry, fault.column),
        _ => None,
    }
}

// The part of the plan that a fault is located at.
fn shape_of(document: &Value, fault: &PlanFault) -> Shape {
    match level_of(fault) {
        Level::Plan => Shape::Plan,
        Level::Field => Shape::Field,
        Level::Table => Shape::Table,
        Level::Column if Column::of(document, fault.table, fault.column).is_input => Shape::Input,
        Level::Column => Shape::Output,
        Level::Rule => Shape::Rule,
        Level::Cell => Shape::Plain,
    }
}

// The first one of the keys that the entry must have and does not have.
fn missing_key<'d>(entry: Option<&'d Value>, shape: Shape) -> Option<Advice<'d>> {
    for key in shape.required_keys() {
        if value_at_key(entry, *key).is_none() {
            return Some(advice_of_missing(entry, *key, shape));
        }
    }
    None
}

fn advice_of_missing<'d>(entry: Option<&'d Value>, key: &'static str, shape: Shape) -> Advice<'d> {
    match near_key(entry, key, shape.keys()) {
        Some(near) => Advice::new(
            "The key `{}` is missing; the key `{}` may be a misspelling of it.",
            "Correct the name of the key.",
            Part::Word(key),
            Part::Word(near),
        ),
        None => Advice::about("The key `{}` is missing.", "Add the key `{}`.", key),
    }
}

fn role_advice<'d>(document: &'d Value, number: usize) -> Option<Advice<'d>> {
    let role = RoleKey::with_number(number)?;
    let roles = document.get("roles");
    match value_at_key(roles, role.key()) {
        Some(value) => Some(advice_of_role(role, value)),
        None => Some(advice_of_missing(roles, role.key(), Shape::Roles)),
    }
}

// What is wrong with the value of a role.
fn advice_of_role<'d>(role: RoleKey, value: &'d Value) -> Advice<'d> {
    let Some(word) = value.as_str() else {
        let fix = "Put quotes round the value, also round a number: \"50\".";
        return Advice::about("The role `{}` must be a string.", fix, role.key());
    };
    let word = shown_front(word);
    match kind_of_role(role) {
        Some(kind) => Advice::new(
            "`{}` is neither a {} nor the name of one with a single value.",
            "Correct the role.",
            Part::Word(word),
            Part::Word(kind),
        ),
        None => Advice::about(
            "`{}` is not a text output of a table under `R`, `O` or `C`.",
            "Correct the role, or remove it.",
            word,
        ),
    }
}

// The kind of a role's value; none for the remarks, which are a list.
fn kind_of_role(role: RoleKey) -> Option<&'static str> {
    match role {
        RoleKey::Remarks => None,
        RoleKey::Cover => Some("flag"),
        RoleKey::Fee
        | RoleKey::Deductible
        | RoleKey::Copay
        | RoleKey::Rate
        | RoleKey::OopMax
        | RoleKey::FamilyDeductible
        | RoleKey::FamilyOopMax => Some("number"),
    }
}

// Adds the names that a role may have if its word is none of them.
fn add_values_of_role(
    message: &mut Message,
    document: &Value,
    number: usize,
) -> Result<(), AllocError> {
    if let Some(role) = RoleKey::with_number(number)
        && let Some(kind) = kind_of_role(role)
        && text_after(document.get("roles"), role.key()).is_some()
    {
        message.add("  The plan has the following {}s:", &[Part::Word(kind)])?;
        return add_single_values(message, document, kind);
    }
    Ok(())
}

// Appends the names of the single values of this kind, and ends the line.
fn add_single_values(
    message: &mut Message,
    document: &Value,
    kind: &str,
) -> Result<(), AllocError> {
    let mut has_names = false;
    for number in 0..=tables(document).len() {
        has_names = add_names(message, single_values(document, number), kind, has_names)?;
    }
    message.add(if has_names { "\n" } else { " none\n" }, &[])
}

// Appends the names of the entries of this kind to a list that may have names, and returns whether it has now.
fn add_names(
    message: &mut Message,
    entries: &[Value],
    kind: &str,
    has_names: bool,
) -> Result<bool, AllocError> {
    let mut has_names = has_names;
    for entry in entries {
        if text_at(entry, &[], "kind") == kind {
            let sentence = if has_names { ", {}" } else { " {}" };
            message.add(sentence, &[Part::Word(text_at(entry, &[], "name"))])?;
            has_names = true;
        }
    }
    Ok(has_names)
}

// What is wrong with the value of a key of an entry, or with the entry itself.
fn wrong_value<'d>(
    document: &'d Value,
    entry: Option<&'d Value>,
    fault: &PlanFault,
) -> Option<Advice<'d>> {
    let value = entry?;
    let shape = shape_of(document, fault);
    if let Some(key) = shape.mistyped_key(value) {
        return Some(advice_of_mistyped(key, value));
    }
    if !value.is_table() {
        let fix = fix_of_table(shape)?;
        return Some(Advice::about("The value must be a table.", fix, ""));
    }
    match shape {
        Shape::Field | Shape::Input | Shape::Output => wrong_word(entry),
        Shape::Rule => wrong_count(document, entry, fault.table),
        _ => None,
    }
}

fn advice_of_mistyped<'d>(key: &'static str, entry: &Value) -> Advice<'d> {
    let is_array = match entry.get(key) {
        Some(value) => value.as_array().is_some(),
        None => false,
    };
    let wanted = Type::at(key);
    Advice::new(
        "The value of `{}` must be {}.",
        wanted.fix(key, is_array),
        Part::Word(key),
        Part::Word(wanted.name()),
    )
}

// What to write in place of a part of the plan that must be a table.
fn fix_of_table(shape: Shape) -> Option<&'static str> {
    match shape {
        Shape::Field => Some("Write the field as {name = \"age\", kind = \"number\"}."),
        Shape::Table => Some("Begin each table with a line [[tables]]."),
        Shape::Input => Some("Write the input as {name = \"age\"}."),
        Shape::Output => Some("Write the output as {name = \"fee\", kind = \"number\"}."),
        Shape::Rule => Some("Write the rule as {when = ['>=18'], then = ['50']}."),
        _ => None,
    }
}

fn wrong_word<'d>(entry: Option<&'d Value>) -> Option<Advice<'d>> {
    if let Some(name) = text_after(entry, "name")
        && !has_name_form(name.as_bytes())
    {
        let fix = "Use ASCII letters, digits and `_`, with no digit at the beginning.";
        return Some(Advice::about("`{}` does not have the form of a name.", fix, name));
    }
    let word = text_after(entry, "kind")?;
    if Kind::of_word(word).is_some() {
        return None;
    }
    let cause = "`{}` is not a kind; the kinds are `number`, `text`, `flag` and `day`.";
    Some(Advice::about(cause, meaning_of(word, KINDS), word))
}

fn has_name_form(name: &[u8]) -> bool {
    for byte in name {
        if !byte.is_ascii_alphanumeric() && *byte != b'_' {
            return false;
        }
    }
    match name.first() {
        Some(first) => !first.is_ascii_digit(),
        None => false,
    }
}

fn wrong_count<'d>(
    document: &'d Value,
    rule: Option<&'d Value>,
    number: usize,
) -> Option<Advice<'d>> {
    let table = tables(document).get(number.saturating_sub(1));
    let cells = items_after(rule, "when").len();
    let inputs = items_after(table, "inputs").len();
    if cells != inputs {
        return Some(Advice::new(
            "The number of cells in `when` is {}, and the number of inputs is {}.",
            "Add or remove cells; `-` is the cell for any value.",
            Part::Number(cells),
            Part::Number(inputs),
        ));
    }
    let literals = items_after(rule, "then").len();
    let outputs = items_after(table, "outputs").len();
    if literals != outputs {
        return Some(Advice::new(
            "The number of literals in `then` is {}, and the number of outputs is {}.",
            "Add or remove literals.",
            Part::Number(literals),
            Part::Number(outputs),
        ));
    }
    None
}

fn hit_advice<'d>(table: Option<&'d Value>) -> Option<Advice<'d>> {
    let word = text_after(table, "hit")?;
    if KNOWN_HIT_POLICIES.contains(&word) {
        let cause = "The hit policy `{}` does not fit the outputs of the table.";
        let fix = "Use one output, and under `C+`, `C<` and `C>` one of numbers.";
        return Some(Advice::about(cause, fix, word));
    }
    let meaning = meaning_of(word, HIT_POLICIES);
    let cause = if meaning.is_empty() {
        "`{}` is not a hit policy."
    } else {
        "`{}` is not a hit policy; the word for it is `{}`."
    };
    let fix = "Use `U`, `A`, `P`, `F`, `O`, `R`, `C`, `C+`, `C<`, `C>` or `C#`.";
    Some(Advice::new(cause, fix, Part::Word(word), Part::Word(meaning)))
}

// What already has the name of a field or an output.
fn used_name<'d>(
    document: &'d Value,
    entry: Option<&'d Value>,
    table: usize,
) -> Option<Advice<'d>> {
    let name = text_after(entry, "name")?;
    let number = table_with_output(document, name).unwrap_or(0);
    let cause = cause_of_use(document, name, table);
    let fix = "Choose another name.";
    Some(Advice::new(cause, fix, Part::Word(name), Part::Number(number)))
}

fn cause_of_use(document: &Value, name: &str, table: usize) -> &'static str {
    if WORDS_OF_CELLS.contains(&name) {
        return "`{}` is a word of cells.";
    }
    if kind_of_built_in(name).is_some() && !is_of_families(document, name) {
        return "`{}` is a built-in name of the plan.";
    }
    if table == 0 || kind_among(items_after(Some(document), "fields"), name).is_some() {
        return "`{}` is also the name of a field.";
    }
    "`{}` is also the name of an output of table {}."
}

// A name or a list that is too long, or a field or a column too many.
fn exceeded_limit<'d>(
    document: &'d Value,
    entry: Option<&'d Value>,
    fault: &PlanFault,
) -> Option<Advice<'d>> {
    let level = level_of(fault);
    if !matches!(level, Level::Field | Level::Column) {
        return None;
    }
    if text_after(entry, "name").unwrap_or("").len() > NAME_LIMIT_BYTES {
        let cause = "The name is longer than 64 bytes.";
        return Some(Advice::about(cause, "Shorten the name.", ""));
    }
    if matches!(level, Level::Field) {
        let cause = "The plan has more than 32 fields.";
        return Some(Advice::about(cause, "Remove fields.", ""));
    }
    if items_after(entry, "priority").len() > PRIORITY_LIMIT {
        let cause = "The `priority` list has more than 64 values.";
        return Some(Advice::about(cause, "Shorten the list.", ""));
    }
    let cause = if Column::of(document, fault.table, fault.column).is_input {
        "The table has more than 16 inputs."
    } else {
        "The table has more than 16 outputs."
    };
    Some(Advice::about(cause, "Split the table.", ""))
}

// An amount that is negative, or that is not whole cents. A rate has one cause alone.
fn wrong_amount<'d>(entry: Option<&'d Value>, column: usize) -> Option<Advice<'d>> {
    let amount = text_of(entry)?;
    if matches!(RoleKey::with_number(column)?, RoleKey::Rate) {
        return None;
    }
    let cause = if amount.trim().starts_with('-') {
        "An amount of money must not be negative."
    } else {
        "An amount of money must not have a fraction of a cent."
    };
    Some(Advice::about(cause, money_explanation(None).fix, ""))
}

fn unlisted_literal<'d>(entry: Option<&'d Value>) -> Option<Advice<'d>> {
    Some(Advice::about(
        "The literal {} is not in the `priority` list of its output.",
        "Correct the literal, or add it to the list.",
        shown_front(text_of(entry)?),
    ))
}

fn text_of<'d>(entry: Option<&'d Value>) -> Option<&'d str> {
    entry?.as_str()
}

fn advice_of_cell<'d>(
    document: &'d Value,
    entry: Option<&'d Value>,
    fault: &PlanFault,
    cell: CellFault,
) -> Option<Advice<'d>> {
    let column = Column::of(document, fault.table, fault.column);
    let kind = if column.is_input {
        kind_of_name(document, column.name)
    } else {
        Kind::of_word(column.kind)
    };
    let cell = BadCell {
        text: text_of(entry)?.as_bytes(),
        kind: kind?,
        is_literal: !column.is_input,
        fault: cell,
    };
    Some(cell_advice(document, &cell))
}
