//! What the check of a whole plan finds of a table, and the marks for it in HTML.

use crate::page::{Page, Part};
use crate::sheet::put_test;
use feel_tests::{Cell, Test};
use tables::{Rule, Table};

/// The mark of a rule that never gives the answer, and of a test that holds for no value.
pub const DEAD: &str = " <span class=\"tag pend\">dead</span>";

/// A rule by the number of its table and its own, both from 1.
#[derive(Clone, Copy)]
pub struct RuleNumber {
    pub table: usize,
    pub rule: usize,
}

/// A test of a rule's cell by its column and its place among the tests of the cell, both from 1.
#[derive(Clone, Copy)]
pub struct TestNumber {
    pub rule: RuleNumber,
    pub column: usize,
    pub test: usize,
}

/// What the check of the whole plan finds of a table.
#[derive(Clone, Copy)]
pub struct Findings<'f> {
    /// The number of the table, from 1; 0 for a list.
    pub table: usize,
    /// The rules of the table.
    pub rules: &'f [Rule],
    /// The rules of all tables that never give the answer.
    pub dead_rules: &'f [RuleNumber],
    /// The tests of all tables that hold for no value.
    pub dead_tests: &'f [TestNumber],
    /// Claims pend by the table.
    pub pends: bool,
}

/// A cell with tests that hold for no value.
#[derive(Clone, Copy)]
pub struct DeadCell<'f> {
    cell: &'f Cell,
    findings: Findings<'f>,
    rule: usize,
    column: usize,
}

impl<'f> Findings<'f> {
    /// The findings of a list, which has none.
    pub fn none() -> Findings<'static> {
        Findings {
            table: 0,
            rules: &[],
            dead_rules: &[],
            dead_tests: &[],
            pends: false,
        }
    }

    /// Returns whether a rule never gives the answer. Rules are counted from 1.
    pub fn is_dead(&self, rule: usize) -> bool {
        for place in self.dead_rules {
            if place.table == self.table && place.rule == rule {
                return true;
            }
        }
        false
    }

    /// Returns the cell of a rule in a column if a test of it holds for no value. Rules and columns are counted from 1.
    pub fn dead_cell(&self, rule: usize, column: usize) -> Option<DeadCell<'f>> {
        for place in self.dead_tests {
            if self.is_in(*place, rule, column) {
                return Some(DeadCell {
                    cell: cell_at(self.rules, rule, column)?,
                    findings: *self,
                    rule,
                    column,
                });
            }
        }
        None
    }

    fn is_in(&self, place: TestNumber, rule: usize, column: usize) -> bool {
        place.rule.table == self.table && place.rule.rule == rule && place.column == column
    }
}

fn cell_at(rules: &[Rule], rule: usize, column: usize) -> Option<&Cell> {
    let rule = rules.get(rule.checked_sub(1)?)?;
    rule.cells.as_slice().get(column.checked_sub(1)?)
}

impl DeadCell<'_> {
    /// Writes the cell with a mark after each test that holds for no value.
    pub fn put(&self, page: &mut Page) {
        match self.cell {
            Cell::Dash => page.put("-"),
            Cell::OneOf(tests) => self.put_tests(page, tests.as_slice()),
            Cell::NoneOf(tests) => {
                page.put("not(");
                self.put_tests(page, tests.as_slice());
                page.put(")");
            }
        }
    }

    fn put_tests(&self, page: &mut Page, tests: &[Test]) {
        let mut mark = "";
        for (place, test) in tests.iter().enumerate() {
            page.put(mark);
            put_escaped_test(page, test);
            if self.has_dead(place.saturating_add(1)) {
                page.put(DEAD);
            }
            mark = ", ";
        }
    }

    fn has_dead(&self, test: usize) -> bool {
        for place in self.findings.dead_tests {
            if self.findings.is_in(*place, self.rule, self.column) && place.test == test {
                return true;
            }
        }
        false
    }
}

fn put_escaped_test(page: &mut Page, test: &Test) {
    let mut text = Page::new(page.alloc());
    put_test(&mut text, test);
    page.put_escaped(text.as_str());
    if text.is_cut() {
        page.cut();
    }
}

/// Writes below a table which of its rules never give the answer, and which tests hold for no value.
pub fn put_dead(page: &mut Page, findings: Findings<'_>, table: &Table) {
    for place in findings.dead_rules {
        if place.table == findings.table {
            page.fill(
                "<p class=\"notes\"><span class=\"tag pend\">dead</span> Rule {} never gives the answer, whatever a claim has.</p>\n",
                &[Part::Number(place.rule)],
            );
        }
    }
    for place in findings.dead_tests {
        if place.rule.table == findings.table {
            put_dead_test(page, *place, table);
        }
    }
}

fn put_dead_test(page: &mut Page, place: TestNumber, table: &Table) {
    if let Some(input) = table.inputs.as_slice().get(place.column.saturating_sub(1))
        && let Some(cell) = cell_at(table.rules.as_slice(), place.rule.rule, place.column)
        && let Some(test) = test_at(cell, place.test.saturating_sub(1))
    {
        page.fill(
            "<p class=\"notes\"><span class=\"tag pend\">dead</span> Rule {}: no value of {} meets the test <code>",
            &[
                Part::Number(place.rule.rule),
                Part::Words(input.name.as_str()),
            ],
        );
        put_escaped_test(page, test);
        page.put("</code>.</p>\n");
    }
}

fn test_at(cell: &Cell, place: usize) -> Option<&Test> {
    match cell {
        Cell::Dash => None,
        Cell::OneOf(tests) => tests.as_slice().get(place),
        Cell::NoneOf(tests) => tests.as_slice().get(place),
    }
}
