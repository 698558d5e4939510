//! Explains a cell or a literal that cannot be read by the one cause of its fault, and the fix for what its writer meant.

use crate::advice::Advice;
use crate::cause_rows::causes_of;
use crate::cell_rows::{DATES, DAYS, FIRST, FLAGS, LAST, LITERALS, NUMBERS, RANGES, TEXTS};
use crate::kind::{Kind, kind_of_name};
use crate::row::BadCell;
use crate::texts::cell_explanation;
use faults::CellCause;
use toml::Value;

/// The fix of a word that is a name of the plan.
const NAMES: &str = "
@text Write literals alone, without the name of a value or a column.
*FA*
";

/// The cause and the fix of a cell. The names of the document are no literals.
pub fn cell_advice<'d>(document: &Value, cell: &BadCell<'d>) -> Advice<'d> {
    let advice = Advice::about(cause_of(cell), cell_explanation(cell.fault.cause).fix, "");
    if let Some(found) = cell.first_row(NAMES)
        && matches!(cell.fault.cause, CellCause::Token)
        && kind_of_name(document, found.values.texts[0]).is_some()
    {
        return advice.with_fix(found);
    }
    for list in lists_of_fixes(cell.fault.cause, cell.kind) {
        if let Some(found) = cell.first_row(list) {
            return advice.with_fix(found);
        }
    }
    advice
}

fn cause_of(cell: &BadCell<'_>) -> &'static str {
    match cell.first_row(causes_of(cell.fault.cause)) {
        Some(found) => found.sentence,
        None => cell_explanation(cell.fault.cause).cause,
    }
}

// The lists of the fixes for a fault with this cause, in the order in which they are searched.
fn lists_of_fixes(cause: CellCause, kind: Kind) -> [&'static str; 4] {
    match cause {
        CellCause::BadDate => [DATES, "", "", ""],
        CellCause::Literal => [LITERALS, "", "", ""],
        CellCause::Token | CellCause::WrongKind | CellCause::Trailing => {
            [FIRST, list_of_order(kind), list_of_kind(kind), LAST]
        }
        CellCause::BadEscape | CellCause::TooMany | CellCause::OutOfMemory => [""; 4],
    }
}

// Numbers and days have an order.
fn list_of_order(kind: Kind) -> &'static str {
    match kind {
        Kind::Number | Kind::Day => RANGES,
        Kind::Text | Kind::Flag => "",
    }
}

fn list_of_kind(kind: Kind) -> &'static str {
    match kind {
        Kind::Number => NUMBERS,
        Kind::Text => TEXTS,
        Kind::Flag => FLAGS,
        Kind::Day => DAYS,
    }
}
