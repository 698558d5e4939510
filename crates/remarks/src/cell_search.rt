//! The cells of a plan that hold for no allowed value of their input, so that their rules never match.

use claim_diagnostics::CellPlace;
use cutplan::{Partition, Region, holds_in};
use dtable::read_plan;
use feel_tests::{Cell, Test};
use std::alloc::{AllocError, Global};
use tables::{Input, Plan, Rule, Table};

/// The first such cell of each input, or its allowed values if there are none. A text that is refused has no cells.
pub fn empty_cells(alloc: Global, text: &[u8]) -> Result<Vec<CellPlace>, AllocError> {
    let mut found = Vec::new(alloc);
    let Ok(plan) = read_plan(alloc, text) else {
        return Ok(found);
    };
    let done = add_cells(alloc, &plan, &mut found);
    drop(plan);
    match done {
        Ok(()) => Ok(found),
        Err(fault) => Err(fault),
    }
}

fn add_cells(alloc: Global, plan: &Plan, found: &mut Vec<CellPlace>) -> Result<(), AllocError> {
    let mut number = 0usize;
    for table in plan.tables() {
        number = number.saturating_add(1);
        add_cells_of_table(alloc, plan, table, number, found)?;
    }
    Ok(())
}

fn add_cells_of_table(
    alloc: Global,
    plan: &Plan,
    table: &Table,
    number: usize,
    found: &mut Vec<CellPlace>,
) -> Result<(), AllocError> {
    let inputs = table.inputs.as_slice();
    for column in 0..inputs.len() {
        let partition = Partition::of_column(alloc, plan, table, column, &inputs[column])?;
        let regions = partition.regions.as_slice();
        let rule = first_empty(table.rules.as_slice(), column, &inputs[column], regions);
        drop(partition);
        if let Some(rule) = rule {
            found.push(CellPlace {
                table: number,
                rule,
                input: column.saturating_add(1),
            })?;
        }
    }
    Ok(())
}

// The number of the first rule whose cell in this column holds in none of these regions; 0 if there is no region.
fn first_empty(rules: &[Rule], column: usize, input: &Input, regions: &[Region]) -> Option<usize> {
    if regions.is_empty() {
        return Some(0);
    }
    for place in 0..rules.len() {
        if let Some(cell) = rules[place].cells.as_slice().get(column)
            && !holds_for_first_literal(cell, input)
            && is_empty(cell, regions)
        {
            return Some(place + 1);
        }
    }
    None
}

// Whether a literal of the cell shows that it holds. Most cells have one, and a column may have tens of thousands of regions.
fn holds_for_first_literal(cell: &Cell, input: &Input) -> bool {
    let Cell::OneOf(tests) = cell else {
        return false;
    };
    let value = match tests.as_slice().first() {
        Some(Test::Equal(value)) => value,
        Some(Test::Compare(_, value)) => value,
        Some(Test::Between { low, .. }) => low,
        None => return false,
    };
    let is_allowed = match &input.values {
        Some(allowed) => allowed.holds(value),
        None => true,
    };
    is_allowed && cell.holds(value)
}

fn is_empty(cell: &Cell, regions: &[Region]) -> bool {
    for region in regions {
        if holds_in(cell, region) {
            return false;
        }
    }
    true
}
