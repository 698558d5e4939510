//! The errors that stop the command `value` over the rows of a file. Each error has one line on standard
//! error and one exit status.

ghost use Rattle.std.specs.Prelude.{◌≡◌, ◌≤◌, ◌++◌, length, take};
ghost use Rattle.plan_rows.specs.RowsStop.{rows_fault_text, status_of, stop_line};

use crate::stop::put_column;
use dtable::PlanFault;
use evaluation::{ErrorLine, LINE_LIMIT_BYTES, Refusal, ValueStop};
use std::alloc::{AllocError, AllocFailed};
use thiserror::Error;

/// The reason why a text is no file of rows. Columns are numbered from 1.
#[derive(Clone, Copy, Debug, Drop, Error)]
pub enum RowsFault {
    /// The file has more bytes than a claim file may have.
    #[error("the file is too large")]
    TooLarge,
    /// The file has no record.
    #[error("there is no header")]
    NoHeader,
    /// This column gives a name that an earlier column gives.
    #[error("column {column} gives a name again")]
    Repeated { column: usize },
    /// This column has the name of an output of the plan, or the name `fault`, which another column of
    /// the result has.
    #[error("column {column} has the name of another column of the result")]
    Taken { column: usize },
}

/// The error that stopped the command `value` over the rows of a file.
#[derive(Debug, Drop, Error)]
pub enum RowsStop {
    /// An error of the command `value`: one of the plan, of the writer or of the memory, or a name
    /// that a table reads and no column gives.
    #[error("{0}")]
    Value(ValueStop),
    /// The text is no file of rows.
    #[error("rows: {0}")]
    Rows(RowsFault),
}

impl RowsStop {
    /// Returns the exit status: 1 for invalid input, 3 for a write fault or a lack of memory.
    pub fn status(&self) -> u8
        ensures { result ≡ status_of self.now }
    {
        match self {
            RowsStop::Value(stop) => stop.status(),
            RowsStop::Rows(_) => 1,
        }
    }

    /// Writes the line of the error, with its line end, to the start of the buffer and returns its
    /// length in bytes.
    pub fn write_line(&self, buffer: &mut [u8; LINE_LIMIT_BYTES]) -> usize
        ensures fits { result ≤ LINE_LIMIT_BYTES }
        ensures written { take result buffer.new ≡ stop_line self.now }
    {
        match self {
            RowsStop::Value(stop) => stop.write_line(buffer),
            RowsStop::Rows(fault) => {
                let mut line = ErrorLine::new();
                put_rows_fault(&mut line, *fault);
                line.put("\n");
                line.copy_to(buffer)
            }
        }
    }
}

// Writes the text of a fault to an empty line.
fn put_rows_fault(line: &mut ErrorLine, fault: RowsFault)
    requires { length line.old ≡ 0 }
    ensures text { line.new ≡ line.old ++ rows_fault_text fault }
    ensures short { length line.new ≤ 50 }
{
    match fault {
        RowsFault::TooLarge => line.put("rows fault 1"),
        RowsFault::NoHeader => line.put("rows fault 2"),
        RowsFault::Repeated { column } => put_column(line, "rows fault 3 column ", column),
        RowsFault::Taken { column } => put_column(line, "rows fault 4 column ", column),
    }
}

impl Refusal for RowsStop {
    ghost use Rattle.plan_rows.specs.RowsStop.{status_of, stop_line};

    ghost status = { λ stop. status_of stop };

    ghost line = { λ stop. stop_line stop };

    #[tactic(auto, using(crate::proofs::Statuses::least_of_rows, crate::proofs::Statuses::greatest_of_rows))]
    fn exit_status(&self) -> u8 {
        self.status()
    }

    fn put_line(&self, buffer: &mut [u8; LINE_LIMIT_BYTES]) -> usize {
        self.write_line(buffer)
    }
}

impl From<PlanFault> for RowsStop {
    ghost use Rattle.plan_rows.specs.RowsStop.{IsStopOfPlan};

    ghost from_gives = { λ fault stop. IsStopOfPlan fault stop };

    fn from(fault: PlanFault) -> RowsStop {
        RowsStop::Value(ValueStop::from(fault))
    }
}

impl From<AllocError> for RowsStop {
    ghost use Rattle.std.specs.Prelude.{◌≡◌};
    ghost use Rattle.evaluation.specs.declared.stop.ValueStop.TheVariants.{NoMemory};
    ghost use Rattle.plan_rows.specs.declared.rows_stop.RowsStop.TheVariants.{Value};

    ghost from_gives = { λ _ stop. stop ≡ Value NoMemory };

    fn from(_error: AllocError) -> RowsStop {
        RowsStop::Value(ValueStop::NoMemory)
    }
}

impl<T: Drop> From<AllocFailed<T>> for RowsStop {
    ghost use Rattle.std.specs.Prelude.{◌≡◌};
    ghost use Rattle.evaluation.specs.declared.stop.ValueStop.TheVariants.{NoMemory};
    ghost use Rattle.plan_rows.specs.declared.rows_stop.RowsStop.TheVariants.{Value};

    ghost from_gives = { λ _ stop. stop ≡ Value NoMemory };

    fn from(_failed: AllocFailed<T>) -> RowsStop {
        RowsStop::Value(ValueStop::NoMemory)
    }
}
