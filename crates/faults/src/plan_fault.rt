//! The reasons why a text is not a plan, with their positions.
ghost use Rattle.std.specs.Prelude.{◌≡◌};
ghost use Rattle.faults.specs.PlanCauseNumber.{number_of};

use crate::cell_fault::CellFault;
use std::alloc::AllocError;
use thiserror::Error;

/// An error in a plan's text.
#[derive(Clone, Copy, Debug, PartialEq, Eq, Drop, Error)]
pub enum PlanCause {
    /// The text is not a TOML document.
    #[error("the text is no TOML document")]
    Toml,
    /// A required key is missing.
    #[error("a key is missing")]
    Missing,
    /// The version is not supported, or an input does not name a single value that is known before
    /// its table.
    #[error("a version or a name is not known here")]
    Unknown,
    /// A name is used twice.
    #[error("a name is taken")]
    Duplicate,
    /// A value has the wrong type, form or length, or a word is not in its list.
    #[error("a value is of another type, form or length")]
    Kind,
    /// The hit policy is unknown, or the outputs violate its constraints.
    #[error("a hit policy is unknown or doesn't fit its outputs")]
    Hit,
    /// A priority list is missing, repeats a value, or lacks a value of a rule.
    #[error("a priority list is missing, has a value twice, or lacks one")]
    Priority,
    /// A role is missing, is not a string, or names an output or a field that it may not name.
    #[error("a role is missing or names what it may not")]
    Role,
    /// A number for a role is not an amount of money, or is not a rate from 0 to 1.
    #[error("a role's number is no money or no rate")]
    Money,
    /// The text, a name or an array is too long.
    #[error("the text, a name or an array is too long")]
    Limit,
    /// A cell or a literal cannot be read.
    #[error("a cell or a literal can't be read: {0}")]
    Cell(CellFault),
    /// Memory ran out.
    #[error("out of memory")]
    OutOfMemory,
}

impl PlanCause {
    /// Returns the number that messages print for the cause, from 1 to 12.
    pub fn number(self) -> u8
        ensures { result ≡ number_of self }
    {
        match self {
            PlanCause::Toml => 1,
            PlanCause::Missing => 2,
            PlanCause::Unknown => 3,
            PlanCause::Duplicate => 4,
            PlanCause::Kind => 5,
            PlanCause::Hit => 6,
            PlanCause::Priority => 7,
            PlanCause::Role => 8,
            PlanCause::Money => 9,
            PlanCause::Limit => 10,
            PlanCause::Cell(_) => 11,
            PlanCause::OutOfMemory => 12,
        }
    }
}

/// The first error in a plan's text, with its position. Tables, rules and columns are numbered from
/// 1; 0 means that the error is in none.
#[derive(Clone, Copy, Debug, PartialEq, Eq, Drop, Error)]
#[error("table {table} rule {rule} column {column}: {cause}")]
pub struct PlanFault {
    /// The table's number in the plan.
    pub table: usize,
    /// The rule's number in its table.
    pub rule: usize,
    /// The column's number: inputs first, then outputs. Outside the tables, it is the number of a
    /// field or of a role.
    pub column: usize,
    /// The error at that position.
    pub cause: PlanCause,
}

impl From<AllocError> for PlanFault {
    ghost use Rattle.std.specs.Prelude.{◌≡◌};
    ghost use Rattle.faults.specs.declared.plan_fault.PlanCause.TheVariants.{OutOfMemory};

    ghost from_gives = { λ _ fault. fault ≡ record { table = 0; rule = 0; column = 0; cause = OutOfMemory } };

    fn from(_: AllocError) -> PlanFault {
        PlanFault {
            table: 0,
            rule: 0,
            column: 0,
            cause: PlanCause::OutOfMemory,
        }
    }
}
