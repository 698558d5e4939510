//! The lines of a check of a whole plan for rules that never give an answer, and for tests of cells that nothing meets.

use crate::zone_cells::{End, append_bounded};
use feel_tests::{Op, Test, Value};
use plan_checks::{DeadParts, RulePlace, TestPlace, tests_at};
use std::alloc::{AllocError, Global};
use tables::Table;

/// Appends a line for each of these rules, and then for each of these tests. Lines number tables, rules and columns from 1.
pub fn append_dead(
    alloc: Global,
    text: &mut Vec<u8>,
    tables: &[Table],
    dead: &DeadParts,
) -> Result<(), AllocError> {
    for place in dead.rules.as_slice() {
        append_rule(alloc, text, *place)?;
        text.extend_from_slice(b": never gives the answer\n")?;
    }
    for place in dead.tests.as_slice() {
        append_test_line(alloc, text, tables, *place)?;
    }
    Ok(())
}

fn append_rule(alloc: Global, text: &mut Vec<u8>, place: RulePlace) -> Result<(), AllocError> {
    let table = place.table.saturating_add(1);
    let rule = place.rule.saturating_add(1);
    let words = format!(in alloc; "dead table {table} rule {rule}")?;
    text.extend_from_slice(words.as_bytes())
}

fn append_test_line(
    alloc: Global,
    text: &mut Vec<u8>,
    tables: &[Table],
    place: TestPlace,
) -> Result<(), AllocError> {
    append_rule(alloc, text, place.rule)?;
    let column = place.column.saturating_add(1);
    let words = format!(in alloc; " column {column}: ")?;
    text.extend_from_slice(words.as_bytes())?;
    if let Some(test) = tests_at(tables, place.rule, place.column).get(place.test) {
        append_test(text, test)?;
    }
    text.extend_from_slice(b" is met nowhere\n")
}

/// Appends a test as a cell has it.
fn append_test(text: &mut Vec<u8>, test: &Test) -> Result<(), AllocError> {
    match test {
        Test::Equal(literal) => literal.write_text(text),
        Test::Compare(op, literal) => append_comparison(text, *op, literal),
        Test::Between {
            low,
            low_in,
            high,
            high_in,
        } => append_bounded(
            text,
            End {
                value: low,
                is_in: *low_in,
            },
            End {
                value: high,
                is_in: *high_in,
            },
        ),
    }
}

fn append_comparison(text: &mut Vec<u8>, op: Op, literal: &Value) -> Result<(), AllocError> {
    text.extend_from_slice(sign_of(op).as_bytes())?;
    literal.write_text(text)
}

fn sign_of(op: Op) -> &'static str {
    match op {
        Op::Less => "<",
        Op::AtMost => "<=",
        Op::More => ">",
        Op::AtLeast => ">=",
    }
}
