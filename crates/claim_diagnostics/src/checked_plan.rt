//! What a valid plan has that its writer cannot have meant: entries that their role cannot take, cells that hold for no value, and numbers with commas.

use crate::role_entries::add_role_entries;
use diagnostics::{
    Advice, Kind, Message, Part, Subject, add_name_in_table, document_of, items_after,
    kind_of_name, path_in_table, shown_front, tables, text_at, value_at, values_of,
};
use std::alloc::{AllocError, Global};
use toml::Value;

/// The place of a cell by the numbers of its table, its rule and its input, from 1. In place of a rule, 0 is for the allowed values of the input.
#[derive(Clone, Copy)]
pub struct CellPlace {
    pub table: usize,
    pub rule: usize,
    pub input: usize,
}

/// Explains entries of a valid plan that pend each claim which gets them, these cells, which hold for no allowed value, and cells that seem to have a
/// comma within a number.
pub fn explain_checked_plan(
    alloc: Global,
    plan: &[u8],
    empty: &[CellPlace],
) -> Result<Message, AllocError> {
    let document = document_of(alloc, plan)?;
    let mut message = Message::new(alloc);
    let done = add_parts(&mut message, &document, empty);
    message.after(done)
}

fn add_parts(
    message: &mut Message,
    document: &Option<Value>,
    empty: &[CellPlace],
) -> Result<(), AllocError> {
    let Some(document) = document else {
        return Ok(());
    };
    add_role_entries(message, document)?;
    for place in empty {
        add_empty_cell(message, document, *place)?;
    }
    for table in 1..=tables(document).len() {
        add_numbers_with_commas(message, document, table)?;
    }
    Ok(())
}

fn add_empty_cell(
    message: &mut Message,
    document: &Value,
    place: CellPlace,
) -> Result<(), AllocError> {
    let text = text_of_cell(document, place);
    let cause = if place.rule == 0 {
        "No value satisfies {}, so the table never has an allowed value."
    } else {
        "No allowed value satisfies {}, so the rule never matches."
    };
    let has_three_dots = has_form(text, "*[N ...*");
    let fix = if has_three_dots {
        "Write an interval with two dots between its ends: [1..3]."
    } else {
        "Correct the cell or the allowed values of the input."
    };
    add_cell(message, document, place, cause, fix)
}

// Adds what is wrong with the first cell of each input of numbers in which a comma and a zero with another digit after it look like thousands.
fn add_numbers_with_commas(
    message: &mut Message,
    document: &Value,
    table: usize,
) -> Result<(), AllocError> {
    let path = path_in_table(document, table, 0, 0);
    let inputs = items_after(value_at(document, path.as_slice()), "inputs");
    for number in 1..=inputs.len() {
        let name = text_at(&inputs[number - 1], &[], "name");
        if kind_of_name(document, name) == Some(Kind::Number)
            && let Some(place) = first_number_with_comma(document, table, number)
        {
            let cause =
                "The comma in {} separates two numbers, of which either satisfies the cell.";
            let fix = "Write a number without commas, such as 1234.5.";
            add_cell(message, document, place, cause, fix)?;
        }
    }
    Ok(())
}

fn first_number_with_comma(document: &Value, table: usize, input: usize) -> Option<CellPlace> {
    let path = path_in_table(document, table, 0, 0);
    let rules = items_after(value_at(document, path.as_slice()), "rules").len();
    for rule in 0..=rules {
        let place = CellPlace { table, rule, input };
        if has_form(text_of_cell(document, place), "*,09*") {
            return Some(place);
        }
    }
    None
}

fn has_form(text: &str, form: &str) -> bool {
    let subject = Subject {
        text: text.as_bytes(),
        kind: Kind::Number,
        fault: 0,
    };
    values_of(subject, form).is_some()
}

// The text of a cell, or of the allowed values; empty if there is none.
fn text_of_cell(document: &Value, place: CellPlace) -> &str {
    let path = path_in_table(document, place.table, place.rule, place.input);
    let path = if place.rule == 0 {
        path.key("values")
    } else {
        path
    };
    match value_at(document, path.as_slice()) {
        Some(value) => value.as_str().unwrap_or(""),
        None => "",
    }
}

fn add_cell(
    message: &mut Message,
    document: &Value,
    place: CellPlace,
    cause: &'static str,
    fix: &'static str,
) -> Result<(), AllocError> {
    let CellPlace { table, rule, input } = place;
    add_name_in_table(message, document, table, rule, input)?;
    let word = Part::Word(shown_front(text_of_cell(document, place)));
    message.advice(&Advice::new(cause, fix, word, word))
}
