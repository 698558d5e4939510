//! The faults of files and of records.
ghost use Rattle.std.specs.Prelude.{◌≡◌};
ghost use Rattle.faults.specs.FileFaultNumber.{file_number_of, cause_number_of};

use std::alloc::AllocError;
use thiserror::Error;

/// The reason why a file is refused. If several apply, the first in this order is returned.
#[derive(Clone, Copy, Debug, PartialEq, Eq, Drop, Error)]
pub enum FileFault {
    /// The file is larger than `FILE_LIMIT_BYTES`.
    #[error("the file is too large")]
    TooLarge,
    /// The file has no record, so it has no header.
    #[error("the file has no header")]
    NoHeader,
    /// The header lacks a required column.
    #[error("a column is missing")]
    MissingColumn,
    /// The header has a required column more than once.
    #[error("a column occurs more than once")]
    DuplicateColumn,
    /// Memory ran out.
    #[error("out of memory")]
    OutOfMemory,
}

impl FileFault {
    /// Returns the number of the fault in the messages of programs.
    pub fn number(self) -> u8
        ensures { result ≡ file_number_of self }
    {
        match self {
            FileFault::TooLarge => 1,
            FileFault::NoHeader => 2,
            FileFault::MissingColumn => 3,
            FileFault::DuplicateColumn => 4,
            FileFault::OutOfMemory => 5,
        }
    }
}

impl From<AllocError> for FileFault {
    ghost use Rattle.std.specs.Prelude.{◌≡◌};
    ghost use Rattle.faults.specs.declared.file_fault.FileFault.TheVariants.{OutOfMemory};

    ghost from_gives = { λ _ fault. fault ≡ OutOfMemory };

    fn from(_: AllocError) -> FileFault {
        FileFault::OutOfMemory
    }
}

/// The reason why a record is refused.
#[derive(Clone, Copy, Debug, PartialEq, Eq, Drop, Error)]
pub enum RowCause {
    /// The record does not have the same number of fields as the header.
    #[error("the number of fields differs from the header's")]
    FieldCount,
    /// A field is not UTF-8.
    #[error("a field is not UTF-8")]
    Utf8,
    /// A field is longer than `TEXT_LIMIT_BYTES` bytes.
    #[error("a field is too long")]
    TooLong,
    /// The identifier of a claim, a family or a member is empty.
    #[error("an identifier is empty")]
    EmptyId,
    /// A field is not a value of its column's kind.
    #[error("a field is not a value of its kind")]
    Value,
    /// An amount is not a whole count of cents.
    #[error("an amount is not in whole cents")]
    NotCents,
    /// An amount is negative.
    #[error("an amount is negative")]
    Negative,
    /// An earlier record has a balance for the same account.
    #[error("a member occurs twice")]
    Repeated,
    /// The sum of an amount over the member's family is out of range.
    #[error("a family's sum is out of range")]
    Sum,
}

impl RowCause {
    /// Returns the number of the cause in the messages of programs.
    pub fn number(self) -> u8
        ensures { result ≡ cause_number_of self }
    {
        match self {
            RowCause::FieldCount => 1,
            RowCause::Utf8 => 2,
            RowCause::TooLong => 3,
            RowCause::EmptyId => 4,
            RowCause::Value => 5,
            RowCause::NotCents => 6,
            RowCause::Negative => 7,
            RowCause::Repeated => 8,
            RowCause::Sum => 9,
        }
    }
}

/// The first fault of a record: the leftmost one in the header's order.
#[derive(Clone, Copy, Debug, PartialEq, Eq, Drop, Error)]
#[error("column {column}: {cause}")]
pub struct RowFault {
    /// The number of the column in the header, from 1, or 0 if the fault is not in a column.
    pub column: usize,
    /// The reason.
    pub cause: RowCause,
}

/// The reason why a file of balances is refused.
#[derive(Clone, Copy, Debug, PartialEq, Eq, Drop, Error)]
pub enum BalanceFault {
    /// The file as a whole is refused, for another reason than memory.
    #[error("{0}")]
    File(FileFault),
    /// A record is refused. Its number after the header counts from 1, and it is the first such
    /// record.
    #[error("record {number}: {fault}")]
    Row { number: usize, fault: RowFault },
    /// Memory ran out.
    #[error("out of memory")]
    OutOfMemory,
}

impl From<AllocError> for BalanceFault {
    ghost use Rattle.std.specs.Prelude.{◌≡◌};
    ghost use Rattle.faults.specs.declared.file_fault.BalanceFault.TheVariants.{OutOfMemory};

    ghost from_gives = { λ _ fault. fault ≡ OutOfMemory };

    fn from(_: AllocError) -> BalanceFault {
        BalanceFault::OutOfMemory
    }
}
