//! The reasons why a cell or a literal cannot be read.
ghost use Rattle.std.specs.Prelude.{◌≡◌};
ghost use Rattle.faults.specs.CellCauseNumber.{number_of};

use thiserror::Error;

/// An error in the text of a cell or of a literal.
#[derive(Clone, Copy, Debug, PartialEq, Eq, Drop, Error)]
pub enum CellCause {
    /// The text has no token here, a token that is not allowed here, or ends too early. A string
    /// without its closing quote is one such case.
    #[error("unexpected token")]
    Token,
    /// A number is out of range or has too many decimals, or a text is too long.
    #[error("literal out of range")]
    Literal,
    /// A literal is not of the column's kind, or a comparison or an interval uses values without an
    /// order.
    #[error("wrong kind")]
    WrongKind,
    /// A backslash does not begin an escape sequence.
    #[error("bad escape")]
    BadEscape,
    /// A date does not exist in the calendar.
    #[error("bad date")]
    BadDate,
    /// The cell has more tests than a cell may have.
    #[error("too many tests")]
    TooMany,
    /// Bytes follow the end of the cell.
    #[error("trailing bytes")]
    Trailing,
    /// Memory ran out.
    #[error("out of memory")]
    OutOfMemory,
}

impl CellCause {
    /// Returns the number that messages print for the cause, from 1 to 8.
    pub fn number(self) -> u8
        ensures { result ≡ number_of self }
    {
        match self {
            CellCause::Token => 1,
            CellCause::Literal => 2,
            CellCause::WrongKind => 3,
            CellCause::BadEscape => 4,
            CellCause::BadDate => 5,
            CellCause::TooMany => 6,
            CellCause::Trailing => 7,
            CellCause::OutOfMemory => 8,
        }
    }
}

/// The first error in a text, with its position.
#[derive(Clone, Copy, Debug, PartialEq, Eq, Drop, Error)]
#[error("{cause} at byte {at}")]
pub struct CellFault {
    /// The offset of the error in bytes, from 0. It has no meaning if memory ran out.
    pub at: usize,
    /// The error at that offset.
    pub cause: CellCause,
}
