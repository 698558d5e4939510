//! Tables in HTML.

use crate::findings::{DEAD, DeadCell, Findings};
use crate::marks::Marks;
use crate::page::{Page, Part};
use crate::sheet::Sheet;
use crate::tables_sheet::table_sheet;
use crate::terminal::{keep_failure, put_outputs};
use crate::words::hit_words;
use tables::{Plan, Table};

/// The mark of a row that the old plan does not have.
const ADDED: &str = " <span class=\"tag new\">added</span>";

/// A sheet with what is marked in it.
#[derive(Clone, Copy)]
struct Marked<'s> {
    sheet: &'s Sheet,
    /// The sheet of the old plan, if there is one.
    old: Option<&'s Sheet>,
    findings: Findings<'s>,
}

/// Writes a decision table in a section, which the caller ends. What is found of it is marked. Where there is an old plan, the differences from its table
/// with the same output are marked too.
pub fn put_table(
    page: &mut Page,
    plan: &Plan,
    old: Option<&Plan>,
    findings: Findings<'_>,
    table: &Table,
) {
    let sheet = table_sheet(page.alloc(), plan, table);
    put_title(page, findings.table, table);
    match old {
        Some(old) => put_compared(page, &sheet, old, findings, table),
        None => put_rules(page, &sheet, None, findings, table),
    }
    keep_failure(page, &sheet);
}

fn put_title(page: &mut Page, number: usize, table: &Table) {
    let name = Part::Number(number);
    page.fill("<section id=\"table-{}\">\n<h3>Table {}: ", &[name, name]);
    put_outputs(page, table);
    page.put("</h3>\n");
}

fn put_compared(page: &mut Page, sheet: &Sheet, old: &Plan, findings: Findings<'_>, table: &Table) {
    match table_like(old, table) {
        Some(earlier) => {
            let old_sheet = table_sheet(page.alloc(), old, earlier);
            put_rules(page, sheet, Some(&old_sheet), findings, table);
            keep_failure(page, &old_sheet);
        }
        None => {
            page.put(
                "<p><span class=\"tag new\">added</span> The old plan has no such table.</p>\n",
            );
            put_rules(page, sheet, None, findings, table);
        }
    }
}

/// Returns the table of another plan that has the first output of a table.
fn table_like<'p>(plan: &'p Plan, table: &Table) -> Option<&'p Table> {
    let output = table.outputs.as_slice().first()?;
    let place = plan.output_place(output.name.as_str())?;
    plan.tables().get(place.table)
}

/// Writes the tables of the old plan that the new one does not have.
pub fn put_removed_tables(page: &mut Page, plan: &Plan, old: &Plan) {
    for table in old.tables() {
        if table_like(plan, table).is_none() {
            page.put("<p><span class=\"tag gone\">removed</span> The old plan has a table with ");
            put_outputs(page, table);
            page.put(".</p>\n");
        }
    }
}

fn put_rules(
    page: &mut Page,
    sheet: &Sheet,
    old: Option<&Sheet>,
    findings: Findings<'_>,
    table: &Table,
) {
    put_caption(page, findings, table);
    put_headings(page, sheet, old, table);
    put_rows(
        page,
        Marked {
            sheet,
            old,
            findings,
        },
    );
    page.put("</table>\n</div>\n");
}

/// Begins a table with its hit policy. Where claims pend by it, a reference leads to the values.
fn put_caption(page: &mut Page, findings: Findings<'_>, table: &Table) {
    let hit = hit_words(table.hit);
    let number = Part::Number(findings.table);
    page.fill(
        "<div class=\"wide\" role=\"region\" aria-label=\"Rules of table {}\" tabindex=\"0\">\n<table>\n<caption><span>Hit policy {}. {}",
        &[number, Part::Words(hit.name), Part::Words(hit.meaning)],
    );
    if findings.pends {
        page.fill(
            " <a class=\"tag pend\" href=\"#pends-{}\">Claims pend</a> with the values below the table.",
            &[number],
        );
    }
    page.put("</span></caption>\n");
}

fn put_headings(page: &mut Page, sheet: &Sheet, old: Option<&Sheet>, table: &Table) {
    let hit = hit_words(table.hit);
    page.fill(
        "<thead>\n<tr><th class=\"hit\" rowspan=\"2\" scope=\"col\"><abbr title=\"Hit policy {}, and the numbers of the rules\">{}</abbr></th><th class=\"what\" scope=\"colgroup\" colspan=\"{}\">Inputs</th><th class=\"what out first\" scope=\"colgroup\" colspan=\"{}\">Outputs</th></tr>\n<tr>",
        &[
            Part::Words(hit.name),
            Part::Words(hit.word),
            Part::Number(table.inputs.len()),
            Part::Number(table.outputs.len()),
        ],
    );
    for column in 1..sheet.columns() {
        put_heading(page, sheet, old, column);
    }
    page.put("</tr>\n</thead>\n");
}

/// Writes the heading of a column: the name, and in smaller letters the kind, the allowed values, the default and the priorities.
fn put_heading(page: &mut Page, sheet: &Sheet, old: Option<&Sheet>, column: usize) {
    page.put(if column == sheet.outputs {
        "<th class=\"out first\" scope=\"col\">"
    } else if column > sheet.outputs {
        "<th class=\"out\" scope=\"col\">"
    } else {
        "<th scope=\"col\">"
    });
    page.put_escaped(sheet.text(0, column));
    for row in 1..sheet.heads {
        let text = sheet.text(row, column);
        let earlier = old_text(sheet, old, Some(row), row, column);
        if !text.is_empty() || !earlier.is_empty() {
            page.put(" <span class=\"kind\">");
            put_change(page, earlier, text);
            page.put("</span>");
        }
    }
    page.put("</th>");
}

/// Returns the text of the old sheet at a row of it, or the text of the sheet where there is no old one.
fn old_text<'s>(
    sheet: &'s Sheet,
    old: Option<&'s Sheet>,
    old_row: Option<usize>,
    row: usize,
    column: usize,
) -> &'s str {
    match (old, old_row) {
        (Some(old), Some(old_row)) => Marks { old, new: sheet }.old_text(old_row, column),
        _ => sheet.text(row, column),
    }
}

/// Writes the rows below the headings, and the rows of the old sheet that are gone.
fn put_rows(page: &mut Page, marked: Marked<'_>) {
    page.put("<tbody>\n");
    for row in marked.sheet.heads..marked.sheet.rows() {
        put_row(page, marked, row);
    }
    if let Some(old) = marked.old {
        put_gone_rows(
            page,
            Marks {
                old,
                new: marked.sheet,
            },
        );
    }
    page.put("</tbody>\n");
}

fn put_row(page: &mut Page, marked: Marked<'_>, row: usize) {
    let old_row = old_row_of(marked, row);
    let is_added = marked.old.is_some() && old_row.is_none();
    let is_dead = marked.findings.is_dead(rule_in(marked, row));
    page.put(row_begin(is_added, is_dead));
    page.put_escaped(marked.sheet.text(row, 0));
    if is_added {
        page.put(ADDED);
    }
    if is_dead {
        page.put(DEAD);
    }
    page.put("</th>");
    for column in 1..marked.sheet.columns() {
        put_cell(page, marked, old_row, row, column);
    }
    page.put("</tr>\n");
}

/// Returns the number of the rule in a row, from 1.
fn rule_in(marked: Marked<'_>, row: usize) -> usize {
    row.saturating_sub(marked.sheet.heads).saturating_add(1)
}

/// Returns the row of the old sheet that a row has come from, unless it is added or there is no old sheet.
fn old_row_of(marked: Marked<'_>, row: usize) -> Option<usize> {
    let old = marked.old?;
    Marks {
        old,
        new: marked.sheet,
    }
    .old_row(row)
}

fn row_begin(is_added: bool, is_dead: bool) -> &'static str {
    if is_added && is_dead {
        "<tr class=\"new dead\"><th scope=\"row\">"
    } else if is_added {
        "<tr class=\"new\"><th scope=\"row\">"
    } else if is_dead {
        "<tr class=\"dead\"><th scope=\"row\">"
    } else {
        "<tr><th scope=\"row\">"
    }
}

fn put_cell(
    page: &mut Page,
    marked: Marked<'_>,
    old_row: Option<usize>,
    row: usize,
    column: usize,
) {
    let text = marked.sheet.text(row, column);
    begin_cell(page, column == marked.sheet.outputs, text);
    let earlier = old_text(marked.sheet, marked.old, old_row, row, column);
    match marked.findings.dead_cell(rule_in(marked, row), column) {
        Some(cell) => put_dead_cell(page, earlier, text, cell),
        None => put_change(page, earlier, text),
    }
    page.put("</td>");
}

fn put_gone_rows(page: &mut Page, marks: Marks<'_>) {
    for row in marks.old.heads..marks.old.rows() {
        if marks.is_gone(row) {
            page.fill(
                "<tr class=\"gone\"><th scope=\"row\">{} <span class=\"tag gone\">removed</span></th>",
                &[Part::Words(marks.old.text(row, 0))],
            );
            for column in 1..marks.new.columns() {
                let text = marks.old_text(row, column);
                begin_cell(page, column == marks.new.outputs, text);
                page.put_escaped(text);
                page.put("</td>");
            }
            page.put("</tr>\n");
        }
    }
}

/// The length in bytes up to which a text without a space is not cut at its hyphens.
const WORD_LIMIT_BYTES: usize = 48;

/// Begins a cell.
fn begin_cell(page: &mut Page, is_first_output: bool, text: &str) {
    page.put(if is_first_output {
        "<td class=\"first\">"
    } else if text == "-" {
        "<td class=\"any\">"
    } else if text.contains(' ') || text.len() > WORD_LIMIT_BYTES {
        "<td>"
    } else {
        "<td class=\"word\">"
    });
}

/// Writes a text, after the old one if that is another.
fn put_change(page: &mut Page, old: &str, text: &str) {
    if old == text {
        return page.put_escaped(text);
    }
    page.fill(
        "<del>{}</del> <ins>{}</ins>",
        &[Part::Words(old), Part::Words(text)],
    );
}

/// Writes a cell with tests that hold for no value, after the old text if that is another.
fn put_dead_cell(page: &mut Page, old: &str, text: &str, cell: DeadCell<'_>) {
    if old == text {
        return cell.put(page);
    }
    page.fill("<del>{}</del> <ins>", &[Part::Words(old)]);
    cell.put(page);
    page.put("</ins>");
}

/// Writes a sheet that is a list, beside the one of an old plan if there is one.
pub fn put_list(page: &mut Page, sheet: &Sheet, old: Option<&Sheet>, caption: &str) {
    page.fill(
        "<div class=\"wide list\" role=\"region\" aria-label=\"{}\" tabindex=\"0\">\n<table>\n<caption><span>{}</span></caption>\n<thead>\n<tr>",
        &[Part::Words(caption), Part::Words(caption)],
    );
    for column in 0..sheet.columns() {
        page.fill(
            "<th scope=\"col\">{}</th>",
            &[Part::Words(sheet.text(0, column))],
        );
    }
    page.put("</tr>\n</thead>\n");
    put_rows(
        page,
        Marked {
            sheet,
            old,
            findings: Findings::none(),
        },
    );
    page.put("</table>\n</div>\n");
    keep_failure(page, sheet);
}
