//! A plan as text: its tables in boxes, its roles, its names and its size; and its names alone.

use crate::grid::{draw, put_aligned};
use crate::names::{names_sheet, roles_sheet};
use crate::page::Page;
use crate::sheet::Sheet;
use crate::size::size_sheet;
use crate::tables_sheet::table_sheet;
use crate::words::hit_words;
use std::alloc::{AllocError, Global};
use tables::{Plan, Table};

/// Returns the names of a plan, one in each line: their kinds, where they come from, and what uses them. Fails only if memory runs out.
pub fn names_text(alloc: Global, plan: &Plan) -> Result<Vec<u8>, AllocError> {
    let mut page = Page::new(alloc);
    let sheet = names_sheet(alloc, plan);
    put_aligned(&mut page, &sheet);
    keep_failure(&mut page, &sheet);
    page.finish()
}

/// Returns a plan as text for a terminal with lines of this width: each table in a box, and then the roles, the names and the size of the plan. Columns
/// are narrowed to fit, but no further than to a few characters. Fails only if memory runs out.
pub fn plan_text(alloc: Global, plan: &Plan, width: usize) -> Result<Vec<u8>, AllocError> {
    let mut page = Page::new(alloc);
    for (place, table) in plan.tables().iter().enumerate() {
        put_title(&mut page, place.saturating_add(1), table);
        put_sheet(&mut page, &table_sheet(alloc, plan, table), width);
    }
    page.put("Roles\n");
    put_sheet(&mut page, &roles_sheet(alloc, plan), width);
    page.put("Names\n");
    put_sheet(&mut page, &names_sheet(alloc, plan), width);
    page.put("Size\n");
    put_sheet(&mut page, &size_sheet(alloc, plan), width);
    page.finish()
}

/// Writes the line above a table: its number, its outputs and its hit policy.
fn put_title(page: &mut Page, number: usize, table: &Table) {
    page.put("Table ");
    page.put_number(number);
    page.put(": ");
    put_outputs(page, table);
    page.put(" (hit policy ");
    page.put(hit_words(table.hit).name);
    page.put(")\n");
}

/// Writes the names of a table's outputs.
pub fn put_outputs(page: &mut Page, table: &Table) {
    let mut mark = "";
    for output in table.outputs.as_slice() {
        page.put(mark);
        page.put(output.name.as_str());
        mark = ", ";
    }
}

fn put_sheet(page: &mut Page, sheet: &Sheet, width: usize) {
    draw(page, sheet, width);
    page.put("\n");
    keep_failure(page, sheet);
}

/// Notes in a page that memory has run out for a text of a sheet that it shows.
pub fn keep_failure(page: &mut Page, sheet: &Sheet) {
    if sheet.is_cut() {
        page.cut();
    }
}
