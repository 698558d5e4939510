//! A plan as a page in HTML that needs nothing else: no script, and no style, font or picture from elsewhere.

use crate::findings::{Findings, RuleNumber, TestNumber, put_dead};
use crate::html_table::{put_list, put_removed_tables, put_table};
use crate::names::{names_sheet, roles_sheet};
use crate::page::{Page, Part};
use crate::picture::put_picture;
use crate::sheet::Sheet;
use crate::size::{rule_count, size_sheet};
use crate::style::{page_begin, page_end, page_style};
use crate::words::reason_meaning;
use faults::Reason;
use std::alloc::{AllocError, Global};
use tables::{Plan, Table};

/// The number of values that are listed for a table.
const LISTED: usize = 20;

/// What a page says of a plan beside its text.
#[derive(Clone, Copy)]
pub struct Shown<'s> {
    /// The name of the plan's file.
    pub name: &'s str,
    /// What the check of the whole plan says: one sentence.
    pub check: &'s str,
    /// The reasons for which claims pend, one for each line of `values`.
    pub reasons: &'s [Reason],
    /// The values with which they do.
    pub values: &'s str,
    /// The rules that never give an answer.
    pub dead_rules: &'s [RuleNumber],
    /// The tests of cells that hold for no value.
    pub dead_tests: &'s [TestNumber],
    /// The plan with which this one is compared.
    pub old: Option<&'s Plan>,
    /// What is said of the comparison, in lines.
    pub changes: &'s str,
}

/// The lists after the tables of a page.
#[derive(Clone, Copy)]
enum List {
    Roles,
    Names,
    Size,
}

/// Returns a plan as a page in HTML. Fails only if memory runs out.
pub fn plan_html<'s>(
    alloc: Global,
    plan: &'s Plan,
    shown: &Shown<'s>,
) -> Result<Vec<u8>, AllocError> {
    let mut page = Page::new(alloc);
    put_head(&mut page, plan, shown);
    put_changes(&mut page, shown);
    put_picture(&mut page, plan);
    put_tables(&mut page, plan, shown);
    page.put("<h2 id=\"roles\">Roles</h2>\n");
    put_notes(&mut page, shown, 0);
    put_list_of(
        &mut page,
        plan,
        shown,
        List::Roles,
        "What a claim is settled by.",
    );
    page.put("<h2 id=\"names\">Names</h2>\n");
    put_list_of(
        &mut page,
        plan,
        shown,
        List::Names,
        "The values that tables read and give.",
    );
    page.put("<h2 id=\"size\">Size</h2>\n");
    put_list_of(&mut page, plan, shown, List::Size, "How large the plan is.");
    page.put("</main>\n");
    page.put(page_end());
    page.finish()
}

fn put_head(page: &mut Page, plan: &Plan, shown: &Shown<'_>) {
    page.put(page_begin());
    page.fill("<title>Plan {}</title>\n", &[Part::Words(shown.name)]);
    page.put(page_style());
    page.fill(
        "<header>\n<h1>Plan {}</h1>\n<p class=\"lead\">Format version {}; decision tables: {}; rules: {}.</p>\n<p>{}</p>\n",
        &[
            Part::Words(shown.name),
            Part::Number(usize::from(plan.version())),
            Part::Number(plan.tables().len()),
            Part::Number(rule_count(plan.tables())),
            Part::Words(shown.check),
        ],
    );
    page.put(
        "<nav aria-label=\"Contents\"><ul><li><a href=\"#chain\">Chain of the tables</a></li><li><a href=\"#tables\">Decision tables</a></li><li><a href=\"#roles\">Roles</a></li><li><a href=\"#names\">Names</a></li><li><a href=\"#size\">Size</a></li></ul></nav>\n</header>\n<main>\n",
    );
}

/// Writes what is said of the comparison with another plan, if there is one.
fn put_changes(page: &mut Page, shown: &Shown<'_>) {
    if shown.old.is_some() {
        page.put(
            "<h2 id=\"changes\">Changes</h2>\n<p>Below, rules and cells are marked where they differ from the old plan. A rule is taken for the same one if its conditions are the same, and also if a rule with other conditions had its number.</p>\n",
        );
        if !shown.changes.is_empty() {
            page.put("<ul>\n");
            for line in shown.changes.split('\n') {
                put_line(page, line);
            }
            page.put("</ul>\n");
        }
    }
}

fn put_line(page: &mut Page, line: &str) {
    if !line.is_empty() {
        page.fill("<li><code>{}</code></li>\n", &[Part::Words(line)]);
    }
}

fn put_list_of(page: &mut Page, plan: &Plan, shown: &Shown<'_>, list: List, caption: &str) {
    let sheet = list_sheet(page.alloc(), plan, list);
    match shown.old {
        Some(old) => {
            let old_sheet = list_sheet(page.alloc(), old, list);
            put_list(page, &sheet, Some(&old_sheet), caption);
        }
        None => put_list(page, &sheet, None, caption),
    }
}

fn list_sheet(alloc: Global, plan: &Plan, list: List) -> Sheet {
    match list {
        List::Roles => roles_sheet(alloc, plan),
        List::Names => names_sheet(alloc, plan),
        List::Size => size_sheet(alloc, plan),
    }
}

fn put_tables<'s>(page: &mut Page, plan: &'s Plan, shown: &Shown<'s>) {
    page.put("<h2 id=\"tables\">Decision tables</h2>\n");
    for (place, table) in plan.tables().iter().enumerate() {
        let findings = findings_of(shown, place.saturating_add(1), table);
        put_table(page, plan, shown.old, findings, table);
        put_notes(page, shown, findings.table);
        put_dead(page, findings, table);
        page.put("</section>\n");
    }
    if let Some(old) = shown.old {
        put_removed_tables(page, plan, old);
    }
}

/// Returns what is found of the table with this number.
fn findings_of<'s>(shown: &Shown<'s>, number: usize, table: &'s Table) -> Findings<'s> {
    Findings {
        table: number,
        rules: table.rules.as_slice(),
        dead_rules: shown.dead_rules,
        dead_tests: shown.dead_tests,
        pends: has_reason(shown.reasons, number),
    }
}

fn has_reason(reasons: &[Reason], table: usize) -> bool {
    for reason in reasons {
        if table_of(*reason) == table {
            return true;
        }
    }
    false
}

/// Writes at which values claims pend by a table with this number, or by a role if the number is 0.
fn put_notes(page: &mut Page, shown: &Shown<'_>, table: usize) {
    let mut count = 0usize;
    for (place, values) in shown.values.split('\n').enumerate() {
        if let Some(reason) = shown.reasons.get(place)
            && table_of(*reason) == table
        {
            put_note(page, *reason, values, count);
            count = count.saturating_add(1);
        }
    }
    if count > LISTED {
        page.fill(
            "<li>and {} more, which the command check --whole lists</li>\n",
            &[Part::Number(count.saturating_sub(LISTED))],
        );
    }
    if count > 0 {
        page.put("</ul>\n</div>\n");
    }
}

fn put_note(page: &mut Page, reason: Reason, values: &str, before: usize) {
    if before == 0 {
        page.fill(
            "<div class=\"notes\" id=\"pends-{}\">\n<p>Claims with these values pend:</p>\n<ul>\n",
            &[Part::Number(table_of(reason))],
        );
    }
    if before < LISTED {
        page.put("<li>");
        put_reason(page, reason);
        page.fill("<code>{}</code></li>\n", &[Part::Words(values)]);
    }
}

/// Writes a reason as the remittance has it, with its meaning.
fn put_reason(page: &mut Page, reason: Reason) {
    let word = Part::Words(reason.word());
    let place = Part::Number(reason.place());
    let meaning = Part::Words(reason_meaning(reason));
    match reason.column() {
        Some(column) => page.fill(
            "<span class=\"tag pend\">{}:{}:{}</span> {}: ",
            &[word, place, Part::Number(column), meaning],
        ),
        None => page.fill(
            "<span class=\"tag pend\">{}:{}</span> {}: ",
            &[word, place, meaning],
        ),
    }
    if let Reason::Term(role) = reason {
        page.fill("role {}: ", &[Part::Words(role.key().key())]);
    }
}

/// Returns the number of the table by which a claim pends; 0 is for a role.
fn table_of(reason: Reason) -> usize {
    match reason {
        Reason::Term(_) => 0,
        _ => reason.place(),
    }
}
