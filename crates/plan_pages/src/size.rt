//! The size of a plan.

use crate::names::claim_names;
use crate::sheet::Sheet;
use std::alloc::Global;
use tables::{Plan, Table};

/// The number of names that a claim file gives for every plan.
const CLAIM_NAMES: usize = 4;

/// Returns what a plan has how many of.
pub fn size_sheet(alloc: Global, plan: &Plan) -> Sheet {
    let mut sheet = Sheet::new(alloc, 2, 1, 0);
    sheet.add("what");
    sheet.add("number");
    add_row(&mut sheet, "version", usize::from(plan.version()));
    add_row(&mut sheet, "fields", field_count(plan));
    add_row(&mut sheet, "tables", plan.tables().len());
    add_row(&mut sheet, "rules of all tables", rule_count(plan.tables()));
    add_row(
        &mut sheet,
        "most rules of a table",
        most_rules(plan.tables()),
    );
    sheet
}

fn add_row(sheet: &mut Sheet, words: &str, number: usize) {
    sheet.add(words);
    sheet.add_number(number);
}

fn field_count(plan: &Plan) -> usize {
    let built_in = if plan.keeps_families() {
        CLAIM_NAMES + 1
    } else {
        CLAIM_NAMES
    };
    claim_names(plan).len().saturating_sub(built_in)
}

/// Returns the number of rules of all tables.
pub fn rule_count(tables: &[Table]) -> usize {
    let mut count = 0usize;
    for table in tables {
        count = count.saturating_add(table.rules.len());
    }
    count
}

fn most_rules(tables: &[Table]) -> usize {
    let mut most = 0usize;
    for table in tables {
        most = most.max(table.rules.len());
    }
    most
}
