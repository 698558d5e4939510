//! The one cause of a fault of a cell or a literal, and the fixes of the arguments of `value`, as lists of forms (`row.rt`).

use crate::kind::Kind;
use faults::CellCause;

// A part that is not allowed at its place.
const TOKEN_CAUSES: &str = r#"
@any The text ends too early.
*FE
@any The text in double quotes has no end.
*FU*
@any The text has a character or a word that is not allowed at this byte.
*
"#;

// A literal or a test of another kind.
const KIND_CAUSES: &str = r#"
@any A column of texts or flags cannot have a comparison or an interval.
*F<*
*F>*
*F[*
*F(*
*F]*
@any The literal has another kind than the column.
*
"#;

// A day that does not exist.
const DATE_CAUSES: &str = r#"
@any The calendar has no such day.
*Fdate ( "9999-99-99"*
@any The date does not have the form YYYY-MM-DD.
*
"#;

// A literal that is out of its range.
const LITERAL_CAUSES: &str = r#"
@any The text is longer than 256 bytes.
*F"*
@any The number is out of range.
*F999999999999*
*F-999999999999*
@any The number has more than four significant decimals.
*
"#;

// Arguments that are texts. The first value of a sentence is the name of the argument.
const TEXT_ARGUMENTS: &str = r#"
@literal Write the argument with both pairs of quotes: '{}="{}"'.
A
"#;

// Arguments that are days, in the same way.
const DAY_ARGUMENTS: &str = r#"
@literal Write the argument with both pairs of quotes: '{}=date("{}")'.
I
@literal Write the argument in single quotes, and the day with the word date: '{}=date("2024-02-29")'.
*
"#;

/// The causes that a fault with this cause may have in particular, as sentences in place of fixes.
pub fn causes_of(cause: CellCause) -> &'static str {
    match cause {
        CellCause::Token => TOKEN_CAUSES,
        CellCause::WrongKind => KIND_CAUSES,
        CellCause::BadDate => DATE_CAUSES,
        CellCause::Literal => LITERAL_CAUSES,
        CellCause::BadEscape | CellCause::TooMany | CellCause::Trailing | CellCause::OutOfMemory =>
            "",
    }
}

/// The fixes of an argument of this kind that the shell has changed: it removes quotes.
pub fn fixes_of_argument(kind: Kind) -> &'static str {
    match kind {
        Kind::Text => TEXT_ARGUMENTS,
        Kind::Day => DAY_ARGUMENTS,
        Kind::Number | Kind::Flag => "",
    }
}
