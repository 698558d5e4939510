//! The errors that stop the command `test`. Each error has one line on standard error and one exit
//! status.

ghost use Rattle.std.specs.Prelude.{◌≡◌, ◌≤◌, ◌++◌, ◌+◌, decimal, length, take};
ghost use Rattle.plan_rows.specs.Stop.{cases_fault_text, status_of, stop_line};

use dtable::PlanFault;
use evaluation::{ErrorLine, LINE_LIMIT_BYTES, Refusal, ValueStop};
use std::alloc::{AllocError, AllocFailed};
use thiserror::Error;

/// The reason why a text is no file of tests. Columns are numbered from 1.
#[derive(Clone, Copy, Debug, Drop, Error)]
pub enum CasesFault {
    /// The file has more bytes than a claim file may have.
    #[error("the file is too large")]
    TooLarge,
    /// The file has no record.
    #[error("there is no header")]
    NoHeader,
    /// The plan has nothing with the name of this column.
    #[error("column {column} has an unknown name")]
    Unknown { column: usize },
    /// This column gives a name that an earlier column gives.
    #[error("column {column} gives a name again")]
    Repeated { column: usize },
}

/// The error that stopped the command `test`.
#[derive(Debug, Drop, Error)]
pub enum TestStop {
    /// An error of the command `value`: one of the plan, of the writer or of the memory, or a name
    /// that a table reads and no column gives.
    #[error("{0}")]
    Value(ValueStop),
    /// The text is no file of tests.
    #[error("tests: {0}")]
    Cases(CasesFault),
}

impl TestStop {
    /// Returns the exit status: 1 for invalid input, 3 for a write fault or a lack of memory.
    pub fn status(&self) -> u8
        ensures { result ≡ status_of self.now }
    {
        match self {
            TestStop::Value(stop) => stop.status(),
            TestStop::Cases(_) => 1,
        }
    }

    /// Writes the line of the error, with its line end, to the start of the buffer and returns its
    /// length in bytes.
    pub fn write_line(&self, buffer: &mut [u8; LINE_LIMIT_BYTES]) -> usize
        ensures fits { result ≤ LINE_LIMIT_BYTES }
        ensures written { take result buffer.new ≡ stop_line self.now }
    {
        match self {
            TestStop::Value(stop) => stop.write_line(buffer),
            TestStop::Cases(fault) => {
                let mut line = ErrorLine::new();
                put_cases_fault(&mut line, *fault);
                line.put("\n");
                line.copy_to(buffer)
            }
        }
    }
}

// Writes the text of a fault to an empty line.
fn put_cases_fault(line: &mut ErrorLine, fault: CasesFault)
    requires { length line.old ≡ 0 }
    ensures text { line.new ≡ line.old ++ cases_fault_text fault }
    ensures short { length line.new ≤ 50 }
{
    match fault {
        CasesFault::TooLarge => line.put("tests fault 1"),
        CasesFault::NoHeader => line.put("tests fault 2"),
        CasesFault::Unknown { column } => put_column(line, "tests fault 3 column ", column),
        CasesFault::Repeated { column } => put_column(line, "tests fault 4 column ", column),
    }
}

/// Appends the words and the number of a column to an empty line.
pub fn put_column(line: &mut ErrorLine, words: &str, column: usize)
    requires empty { length line.old ≡ 0 }
    requires short { length words.now ≤ 30 }
    ensures text { line.new ≡ line.old ++ (words.now ++ decimal column) }
    ensures fits { length line.new ≤ length words.now + 20 }
{
    line.put(words);
    line.put_number(column);
}

impl Refusal for TestStop {
    ghost use Rattle.plan_rows.specs.Stop.{status_of, stop_line};

    ghost status = { λ stop. status_of stop };

    ghost line = { λ stop. stop_line stop };

    #[tactic(auto, using(crate::proofs::Statuses::least_status, crate::proofs::Statuses::greatest_status))]
    fn exit_status(&self) -> u8 {
        self.status()
    }

    fn put_line(&self, buffer: &mut [u8; LINE_LIMIT_BYTES]) -> usize {
        self.write_line(buffer)
    }
}

impl From<PlanFault> for TestStop {
    ghost use Rattle.plan_rows.specs.Stop.{IsStopOfPlan};

    ghost from_gives = { λ fault stop. IsStopOfPlan fault stop };

    fn from(fault: PlanFault) -> TestStop {
        TestStop::Value(ValueStop::from(fault))
    }
}

impl From<AllocError> for TestStop {
    ghost use Rattle.std.specs.Prelude.{◌≡◌};
    ghost use Rattle.evaluation.specs.declared.stop.ValueStop.TheVariants.{NoMemory};
    ghost use Rattle.plan_rows.specs.declared.stop.TestStop.TheVariants.{Value};

    ghost from_gives = { λ _ stop. stop ≡ Value NoMemory };

    fn from(_error: AllocError) -> TestStop {
        TestStop::Value(ValueStop::NoMemory)
    }
}

impl<T: Drop> From<AllocFailed<T>> for TestStop {
    ghost use Rattle.std.specs.Prelude.{◌≡◌};
    ghost use Rattle.evaluation.specs.declared.stop.ValueStop.TheVariants.{NoMemory};
    ghost use Rattle.plan_rows.specs.declared.stop.TestStop.TheVariants.{Value};

    ghost from_gives = { λ _ stop. stop ≡ Value NoMemory };

    fn from(_failed: AllocFailed<T>) -> TestStop {
        TestStop::Value(ValueStop::NoMemory)
    }
}
