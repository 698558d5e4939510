//! Sheets as boxes of lines in a terminal.

use crate::lines::{line_at, line_count, text_width, word_width};
use crate::page::Page;
use crate::sheet::Sheet;

/// The least width to which a column is narrowed.
const LEAST_WIDTH: usize = 4;

/// The widths that a column may have.
#[derive(Clone, Copy)]
struct Widths {
    /// Each text takes one line.
    whole: usize,
    /// Lines end between words alone.
    words: usize,
}

/// The pieces of a line between rows.
#[derive(Clone, Copy)]
struct Edge {
    left: &'static str,
    fill: &'static str,
    cross: &'static str,
    /// Where the outputs begin.
    double: &'static str,
    right: &'static str,
}

const TOP: Edge = Edge {
    left: "┌",
    fill: "─",
    cross: "┬",
    double: "╥",
    right: "┐",
};

const UNDER_HEADS: Edge = Edge {
    left: "╞",
    fill: "═",
    cross: "╪",
    double: "╬",
    right: "╡",
};

const BETWEEN: Edge = Edge {
    left: "├",
    fill: "─",
    cross: "┼",
    double: "╫",
    right: "┤",
};

const BOTTOM: Edge = Edge {
    left: "└",
    fill: "─",
    cross: "┴",
    double: "╨",
    right: "┘",
};

/// A sheet with the widths of its columns, and the number of spaces on both sides of a text.
#[derive(Clone, Copy)]
struct Grid<'s> {
    sheet: &'s Sheet,
    widths: &'s [usize],
    margin: usize,
}

/// Draws a sheet in lines of this width if its columns can be made that narrow. Spaces beside the texts are given up before words are cut.
pub fn draw(page: &mut Page, sheet: &Sheet, width: usize) {
    let mut columns = Vec::new(page.alloc());
    for column in 0..sheet.columns() {
        if columns.push(widths_of(sheet, column)).is_err() {
            return page.cut();
        }
    }
    let lines = sheet.columns().saturating_add(1);
    let margins = sheet.columns().saturating_mul(2);
    let room = width.saturating_sub(lines);
    let least = width_under(columns.as_slice(), Limit::OfTexts(0));
    let is_tight = least.saturating_add(margins) > room;
    let limit = width_limit(
        columns.as_slice(),
        if is_tight {
            room
        } else {
            room.saturating_sub(margins)
        },
    );
    let mut widths = Vec::new(page.alloc());
    for column in columns.as_slice() {
        if widths.push(width_within(*column, limit)).is_err() {
            return page.cut();
        }
    }
    draw_rows(
        page,
        Grid {
            sheet,
            widths: widths.as_slice(),
            margin: usize::from(!is_tight),
        },
    );
}

fn widths_of(sheet: &Sheet, column: usize) -> Widths {
    let mut words = 1usize;
    for row in 0..sheet.rows() {
        words = words.max(word_width(sheet.text(row, column)));
    }
    Widths {
        whole: column_width(sheet, column),
        words,
    }
}

/// The width of the widest text of a column.
fn column_width(sheet: &Sheet, column: usize) -> usize {
    let mut width = 1usize;
    for row in 0..sheet.rows() {
        width = width.max(text_width(sheet.text(row, column)));
    }
    width
}

/// The limits of a column's width, in the order in which a table gets narrower.
#[derive(Clone, Copy)]
enum Limit {
    /// No column that is wider than this is wider than its widest word.
    OfTexts(usize),
    /// Words are cut where they are wider than this.
    OfWords(usize),
}

fn width_within(widths: Widths, limit: Limit) -> usize {
    match limit {
        Limit::OfTexts(most) => widths.whole.min(most.max(widths.words)),
        Limit::OfWords(most) => widths.words.min(most),
    }
}

/// Returns the widest limit with which all columns together are not wider than the room, or else the least one.
fn width_limit(columns: &[Widths], room: usize) -> Limit {
    let cuts_words = width_under(columns, Limit::OfTexts(0)) > room;
    let mut limit = limit_of(cuts_words, LEAST_WIDTH);
    for next in LEAST_WIDTH..room.saturating_add(1) {
        if width_under(columns, limit_of(cuts_words, next)) > room {
            break;
        }
        limit = limit_of(cuts_words, next);
    }
    limit
}

fn limit_of(cuts_words: bool, most: usize) -> Limit {
    if cuts_words {
        Limit::OfWords(most)
    } else {
        Limit::OfTexts(most)
    }
}

fn width_under(columns: &[Widths], limit: Limit) -> usize {
    let mut sum = 0usize;
    for column in columns {
        sum = sum.saturating_add(width_within(*column, limit));
    }
    sum
}

fn draw_rows(page: &mut Page, grid: Grid<'_>) {
    let sheet = grid.sheet;
    let is_parted = has_tall_row(grid);
    draw_edge(page, grid, TOP);
    for row in 0..sheet.rows() {
        if row == sheet.heads {
            draw_edge(page, grid, UNDER_HEADS);
        } else if row > sheet.heads && is_parted {
            draw_edge(page, grid, BETWEEN);
        }
        draw_row(page, grid, row);
    }
    draw_edge(page, grid, BOTTOM);
}

/// Whether a row below the headings has several lines. The rows are then parted by lines.
fn has_tall_row(grid: Grid<'_>) -> bool {
    for row in grid.sheet.heads..grid.sheet.rows() {
        if height(grid, row) > 1 {
            return true;
        }
    }
    false
}

/// The number of lines of a row.
fn height(grid: Grid<'_>, row: usize) -> usize {
    let mut most = 0usize;
    for (column, width) in grid.widths.iter().enumerate() {
        most = most.max(line_count(grid.sheet.text(row, column), *width));
    }
    most
}

/// Draws a row. A row without a text has no line.
fn draw_row(page: &mut Page, grid: Grid<'_>, row: usize) {
    for number in 0..height(grid, row) {
        for (column, width) in grid.widths.iter().enumerate() {
            page.put(bar_before(grid.sheet, column));
            let text = line_at(grid.sheet.text(row, column), *width, number);
            repeat(page, " ", grid.margin);
            page.put(text);
            let rest = width.saturating_sub(text_width(text));
            repeat(page, " ", rest.saturating_add(grid.margin));
        }
        page.put("│\n");
    }
}

fn bar_before(sheet: &Sheet, column: usize) -> &'static str {
    if column > 0 && column == sheet.outputs {
        "║"
    } else {
        "│"
    }
}

fn draw_edge(page: &mut Page, grid: Grid<'_>, edge: Edge) {
    for (column, width) in grid.widths.iter().enumerate() {
        page.put(corner_before(grid.sheet, column, edge));
        let margins = grid.margin.saturating_mul(2);
        repeat(page, edge.fill, width.saturating_add(margins));
    }
    page.put(edge.right);
    page.put("\n");
}

fn corner_before(sheet: &Sheet, column: usize, edge: Edge) -> &'static str {
    if column == 0 {
        edge.left
    } else if column == sheet.outputs {
        edge.double
    } else {
        edge.cross
    }
}

fn repeat(page: &mut Page, words: &str, count: usize) {
    for _ in 0..count {
        page.put(words);
    }
}

/// Writes a sheet as lines of columns with two spaces between them.
pub fn put_aligned(page: &mut Page, sheet: &Sheet) {
    let last = sheet.columns().saturating_sub(1);
    for row in 0..sheet.rows() {
        for column in 0..last {
            let text = sheet.text(row, column);
            let width = column_width(sheet, column).saturating_add(2);
            page.put(text);
            repeat(page, " ", width.saturating_sub(text_width(text)));
        }
        page.put(sheet.text(row, last));
        page.put("\n");
    }
}
