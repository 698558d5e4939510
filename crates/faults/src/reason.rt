//! The reasons why claims are pended.
ghost use Rattle.std.specs.Prelude.{◌≡◌, ◌≤◌, length};
ghost use Rattle.faults.specs.Reason.{reason_of};
ghost use Rattle.faults.specs.ReasonText.{column_of, place_of, word_of};

use crate::fault::Fault;
use crate::role::Role;

/// The reason why a claim is pended. Tables and columns are numbered from 1.
#[derive(Clone, Copy, Debug, PartialEq, Eq, Drop)]
pub enum Reason {
    /// The value of an input is not among the allowed values of its column.
    Outside { table: usize, column: usize },
    /// No rule of the table matches, and at least one output has no default.
    NoRule { table: usize },
    /// The matching rules of the table disagree, or several match where the hit policy allows one.
    Clash { table: usize },
    /// A number of the table is outside the range of numbers. Table 0 means the member's
    /// accumulators.
    Range { table: usize },
    /// The value for the role is not an amount of money, or not a rate from 0 to 1.
    Term(Role),
}

impl Reason {
    /// Returns the reason for which a fault of the tables pends a claim, or `None` if memory ran
    /// out.
    pub fn of(fault: Fault) -> Option<Reason>
        ensures { result ≡ reason_of fault }
    {
        match fault {
            Fault::Outside { table, column } => Some(Reason::Outside { table, column }),
            Fault::NoRule { table } => Some(Reason::NoRule { table }),
            Fault::Clash { table } => Some(Reason::Clash { table }),
            Fault::Range { table } => Some(Reason::Range { table }),
            Fault::OutOfMemory => None,
        }
    }

    /// Returns the word for the kind of the reason, as reports and messages print it.
    pub fn word(self) -> &'static str
        ensures word { result.now ≡ word_of self }
        ensures short { length result.now ≤ 7 }
    {
        match self {
            Reason::Outside { .. } => "outside",
            Reason::NoRule { .. } => "norule",
            Reason::Clash { .. } => "clash",
            Reason::Range { .. } => "range",
            Reason::Term(_) => "term",
        }
    }

    /// Returns the number of the table, or of the role.
    pub fn place(self) -> usize
        ensures { result ≡ place_of self }
    {
        match self {
            Reason::Outside { table, .. } => table,
            Reason::NoRule { table } => table,
            Reason::Clash { table } => table,
            Reason::Range { table } => table,
            Reason::Term(role) => usize::from(role.number()),
        }
    }

    /// Returns the number of the column, if the reason is in a column.
    pub fn column(self) -> Option<usize>
        ensures { result ≡ column_of self }
    {
        match self {
            Reason::Outside { column, .. } => Some(column),
            _ => None,
        }
    }
}
