//! Texts in rows and columns: what a table of a page shows, whether it is drawn for a terminal or written as HTML.

use crate::page::Page;
use feel_tests::{Cell, Op, Test, Value};
use std::alloc::Global;

/// Texts in rows and columns.
pub struct Sheet {
    columns: usize,
    /// The number of rows that are headings.
    pub heads: usize,
    /// The column before which the outputs of a decision table begin; 0 in other sheets.
    pub outputs: usize,
    texts: Page,
    ends: Vec<usize>,
}

impl Drop for Sheet {
    fn drop(self) {
        let Sheet {
            columns: _,
            heads: _,
            outputs: _,
            texts: _,
            ends: _,
        } = self;
    }
}

impl Sheet {
    /// Returns a sheet without rows.
    pub fn new(alloc: Global, columns: usize, heads: usize, outputs: usize) -> Sheet {
        Sheet {
            columns,
            heads,
            outputs,
            texts: Page::new(alloc),
            ends: Vec::new(alloc),
        }
    }

    pub fn columns(&self) -> usize {
        self.columns
    }

    pub fn rows(&self) -> usize {
        self.ends.len().checked_div(self.columns).unwrap_or(0)
    }

    /// Returns whether memory has run out for a text.
    pub fn is_cut(&self) -> bool {
        self.texts.is_cut()
    }

    /// Returns a text, or an empty one where the sheet has no such row or column.
    pub fn text(&self, row: usize, column: usize) -> &str {
        let place = row.saturating_mul(self.columns).saturating_add(column);
        let begin = match place.checked_sub(1) {
            Some(before) => self.end(before),
            None => 0,
        };
        self.texts
            .as_str()
            .get(begin..self.end(place))
            .unwrap_or("")
    }

    fn end(&self, place: usize) -> usize {
        match self.ends.as_slice().get(place) {
            Some(end) => *end,
            None => self.texts.as_str().len(),
        }
    }

    /// Returns the text that is being written.
    pub fn next(&mut self) -> &mut Page {
        &mut self.texts
    }

    /// Ends the text that was written, so that the next one begins.
    pub fn close(&mut self) {
        let end = self.texts.as_str().len();
        if self.ends.push(end).is_err() {
            self.texts.cut();
        }
    }

    /// Writes words of the program as the next text.
    pub fn add(&mut self, words: &str) {
        self.texts.put(words);
        self.close();
    }

    /// Writes a number as the next text.
    pub fn add_number(&mut self, number: usize) {
        self.texts.put_number(number);
        self.close();
    }
}

/// Appends a cell in the grammar of a plan's cells.
pub fn put_cell(page: &mut Page, cell: &Cell) {
    match cell {
        Cell::Dash => page.put("-"),
        Cell::OneOf(tests) => put_tests(page, tests.as_slice()),
        Cell::NoneOf(tests) => {
            page.put("not(");
            put_tests(page, tests.as_slice());
            page.put(")");
        }
    }
}

fn put_tests(page: &mut Page, tests: &[Test]) {
    let mut mark = "";
    for test in tests {
        page.put(mark);
        put_test(page, test);
        mark = ", ";
    }
}

/// Appends a test of a cell.
pub fn put_test(page: &mut Page, test: &Test) {
    match test {
        Test::Equal(value) => page.put_value(value),
        Test::Compare(sign, value) => {
            page.put(sign_of(*sign));
            page.put_value(value);
        }
        Test::Between {
            low,
            low_in,
            high,
            high_in,
        } => {
            page.put(if *low_in { "[" } else { "]" });
            page.put_value(low);
            page.put("..");
            page.put_value(high);
            page.put(if *high_in { "]" } else { "[" });
        }
    }
}

fn sign_of(sign: Op) -> &'static str {
    match sign {
        Op::Less => "<",
        Op::AtMost => "<=",
        Op::More => ">",
        Op::AtLeast => ">=",
    }
}

/// Appends literals with a comma between them.
pub fn put_values(page: &mut Page, values: &[Value]) {
    let mut mark = "";
    for value in values {
        page.put(mark);
        page.put_value(value);
        mark = ", ";
    }
}
