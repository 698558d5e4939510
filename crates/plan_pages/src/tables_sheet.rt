//! A decision table as texts: rows of headings, and then a row for each rule.

use crate::names::kind_words;
use crate::sheet::{Sheet, put_cell, put_values};
use crate::words::{hit_words, kind_word};
use feel_tests::{Cell, Kind, Sequence, Value};
use std::alloc::Global;
use tables::{Input, Origin, Output, Plan, Rule, Table};

/// The headings of a decision table: the hit policy with the names, the kinds, the allowed values with the defaults, and the priorities.
pub const TABLE_HEADS: usize = 4;

/// The words before the allowed values of an input.
const ALLOWED: &str = "allowed: ";

/// The words before the default of an output.
const DEFAULT: &str = "default: ";

/// The words before the priorities of an output.
const PRIORITY: &str = "priority: ";

/// Returns a table as texts. The first column has the numbers of the rules; the inputs follow, and then the outputs.
pub fn table_sheet(alloc: Global, plan: &Plan, table: &Table) -> Sheet {
    let outputs = table.inputs.len().saturating_add(1);
    let columns = outputs.saturating_add(table.outputs.len());
    let mut sheet = Sheet::new(alloc, columns, TABLE_HEADS, outputs);
    add_names(&mut sheet, table);
    add_kinds(&mut sheet, plan, table);
    add_allowed(&mut sheet, table);
    add_priorities(&mut sheet, table);
    for (place, rule) in table.rules.iter().enumerate() {
        add_rule(&mut sheet, place.saturating_add(1), rule);
    }
    sheet
}

fn add_names(sheet: &mut Sheet, table: &Table) {
    sheet.add(hit_words(table.hit).word);
    for input in table.inputs.as_slice() {
        sheet.add(input.name.as_str());
    }
    for output in table.outputs.as_slice() {
        sheet.add(output.name.as_str());
    }
}

fn add_kinds(sheet: &mut Sheet, plan: &Plan, table: &Table) {
    sheet.add("");
    for input in table.inputs.as_slice() {
        sheet.add(input_kind(plan, input));
    }
    for output in table.outputs.as_slice() {
        sheet.add(kind_words(table, output.kind));
    }
}

/// Returns the word for the kind of an input.
fn input_kind(plan: &Plan, input: &Input) -> &'static str {
    match kind_of(plan, input.origin) {
        Some(kind) => kind_word(kind),
        None => "",
    }
}

fn kind_of(plan: &Plan, origin: Origin) -> Option<Kind> {
    match origin {
        Origin::Given(place) => match plan.names().get(place) {
            Some(data) => Some(data.kind),
            None => None,
        },
        Origin::Earlier { table, column } => match plan.tables().get(table) {
            Some(earlier) => kind_in(earlier, column),
            None => None,
        },
    }
}

fn kind_in(table: &Table, column: usize) -> Option<Kind> {
    match table.outputs.as_slice().get(column) {
        Some(output) => Some(table.hit.read_kind_of(output.kind)),
        None => None,
    }
}

fn add_allowed(sheet: &mut Sheet, table: &Table) {
    sheet.add("");
    for input in table.inputs.as_slice() {
        add_allowed_values(sheet, &input.values);
    }
    for output in table.outputs.as_slice() {
        add_default(sheet, output);
    }
}

fn add_allowed_values(sheet: &mut Sheet, values: &Option<Cell>) {
    if let Some(cell) = values {
        sheet.next().put(ALLOWED);
        put_cell(sheet.next(), cell);
    }
    sheet.close();
}

fn add_default(sheet: &mut Sheet, output: &Output) {
    if let Some(value) = &output.fallback {
        sheet.next().put(DEFAULT);
        sheet.next().put_value(value);
    }
    sheet.close();
}

fn add_priorities(sheet: &mut Sheet, table: &Table) {
    sheet.add("");
    for _ in table.inputs.as_slice() {
        sheet.add("");
    }
    for output in table.outputs.as_slice() {
        add_priority(sheet, &output.priority);
    }
}

fn add_priority(sheet: &mut Sheet, priority: &Option<Sequence<Value>>) {
    if let Some(values) = priority {
        sheet.next().put(PRIORITY);
        put_values(sheet.next(), values.as_slice());
    }
    sheet.close();
}

fn add_rule(sheet: &mut Sheet, number: usize, rule: &Rule) {
    sheet.add_number(number);
    for cell in rule.cells.as_slice() {
        put_cell(sheet.next(), cell);
        sheet.close();
    }
    for value in rule.entries.as_slice() {
        sheet.next().put_value(value);
        sheet.close();
    }
}
