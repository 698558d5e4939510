//! The reasons why a plan's tables have no value.
ghost use Rattle.std.specs.Prelude.{◌≡◌};
ghost use Rattle.faults.specs.declared.fault.Fault.TheVariants.{OutOfMemory};

use std::alloc::AllocError;
use thiserror::Error;

/// The reason why the tables have no value for some inputs. Tables and columns are numbered from 1.
#[derive(Clone, Copy, Debug, PartialEq, Eq, Error)]
pub enum Fault {
    /// The value of an input is not among the allowed values of its column.
    #[error("the value of column {column} of table {table} is not allowed")]
    Outside { table: usize, column: usize },
    /// No rule matches, and at least one output has no default.
    #[error("no rule of table {table} matches")]
    NoRule { table: usize },
    /// The matching rules disagree, or several match where the hit policy allows one.
    #[error("rules of table {table} clash")]
    Clash { table: usize },
    /// A number of the table is outside the range of numbers.
    #[error("the number of table {table} is out of range")]
    Range { table: usize },
    /// Memory ran out.
    #[error("out of memory")]
    OutOfMemory,
}

impl From<AllocError> for Fault {
    ghost from_gives = { λ _ fault. fault ≡ OutOfMemory };

    fn from(_refusal: AllocError) -> Fault {
        Fault::OutOfMemory
    }
}
