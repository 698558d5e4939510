//! The errors that stop the command `value`, some of which other commands share. Each error has one
//! line on standard error and one exit status.

ghost use Rattle.std.specs.Prelude.{◌≡◌, ◌<◌, ◌≤◌, take};
ghost use Rattle.evaluation.specs.Stop.{IsStopOfArgument, argument_fault_number, status_of, stop_line};

pub mod line;

use dtable::{PlanCause, PlanFault};
use faults::{LINE_LIMIT_BYTES, Refusal};
use feel_tests::{CellCause, CellFault};
use line::ErrorLine;
use std::alloc::{AllocError, AllocFailed};
use tables::{Fault, Name};
use thiserror::Error;

/// The reason why an argument gives no value.
#[derive(Clone, Copy, Debug, PartialEq, Eq, Error)]
pub enum ArgumentFault {
    /// The argument has no `=`.
    #[error("there is no `=`")]
    NoEquals,
    /// The name before the `=` is not an input of the plan.
    #[error("the plan has no such name")]
    UnknownName,
    /// An earlier argument has the same name.
    #[error("the name was given before")]
    RepeatedName,
    /// The text after the `=` is not a literal of the name's kind.
    #[error("the literal can't be read: {0}")]
    Literal(CellFault),
}

impl ArgumentFault {
    /// Returns the number that messages print for the fault, from 1 to 4.
    pub fn number(&self) -> u8
        ensures number { result ≡ argument_fault_number self.now }
        ensures small { result < 10 }
    {
        match self {
            ArgumentFault::NoEquals => 1,
            ArgumentFault::UnknownName => 2,
            ArgumentFault::RepeatedName => 3,
            ArgumentFault::Literal(_) => 4,
        }
    }
}

/// The error that stopped the command `value`. Other commands that read a plan share the errors of
/// the plan, of the writer and of the memory. Arguments are numbered from 1.
#[derive(Debug, Drop, Error)]
pub enum ValueStop {
    /// The text is not a plan.
    #[error("plan: {0}")]
    Plan(PlanFault),
    /// The argument with this number gives no value.
    #[error("argument {number}: {fault}")]
    Argument { number: usize, fault: ArgumentFault },
    /// A table reads this name, and no argument gives it a value.
    #[error("a value is missing")]
    Missing(Name),
    /// The tables have no value for the given arguments.
    #[error("tables: {0}")]
    Tables(Fault),
    /// The writer failed after it took this number of bytes of the text.
    #[error("the writer failed after {written} bytes")]
    Write { written: usize },
    /// Memory ran out.
    #[error("out of memory")]
    NoMemory,
}

impl ValueStop {
    /// Returns the exit status: 1 for invalid input, 3 for a write fault or a lack of memory.
    pub fn status(&self) -> u8
        ensures { result ≡ status_of self.now }
    {
        match self {
            ValueStop::Plan(_) => 1,
            ValueStop::Argument { .. } => 1,
            ValueStop::Missing(_) => 1,
            ValueStop::Tables(_) => 1,
            ValueStop::Write { .. } => 3,
            ValueStop::NoMemory => 3,
        }
    }

    /// Writes the line of the error, with its line end, to the start of the buffer and returns its
    /// length in bytes.
    pub fn write_line(&self, buffer: &mut [u8; LINE_LIMIT_BYTES]) -> usize
        ensures fits { result ≤ LINE_LIMIT_BYTES }
        ensures written { take result buffer.new ≡ stop_line self.now }
    {
        let mut line = ErrorLine::new();
        match self {
            ValueStop::Plan(fault) => line.put_plan_fault(fault),
            ValueStop::Argument { number, fault } => line.put_argument_fault(*number, fault),
            ValueStop::Missing(name) => {
                line.put("missing ");
                line.put(name.as_str());
            }
            ValueStop::Tables(fault) => line.put_tables_fault(fault),
            ValueStop::Write { written } => line.put_numbered("write fault at ", *written),
            ValueStop::NoMemory => line.put("no memory"),
        }
        line.put("\n");
        line.copy_to(buffer)
    }

    /// Returns the error for a fault of the argument with this number, from 1. A lack of memory is
    /// not a fault of the argument.
    pub(crate) fn from_argument(number: usize, fault: ArgumentFault) -> ValueStop
        ensures { IsStopOfArgument number fault result }
    {
        match fault {
            ArgumentFault::Literal(
                CellFault {
                    cause: CellCause::OutOfMemory,
                    ..
                },
            ) => ValueStop::NoMemory,
            fault => ValueStop::Argument { number, fault },
        }
    }
}

impl Refusal for ValueStop {
    ghost use Rattle.evaluation.specs.Stop.{status_of, stop_line};

    ghost status = { λ stop. status_of stop };

    ghost line = { λ stop. stop_line stop };

    #[tactic(auto, using(crate::proofs::Statuses::least_status, crate::proofs::Statuses::greatest_status))]
    fn exit_status(&self) -> u8 {
        self.status()
    }

    fn put_line(&self, buffer: &mut [u8; LINE_LIMIT_BYTES]) -> usize {
        self.write_line(buffer)
    }
}

impl From<PlanFault> for ValueStop {
    ghost use Rattle.evaluation.specs.Stop.{IsStopOfPlan};

    ghost from_gives = { λ fault stop. IsStopOfPlan fault stop };

    fn from(fault: PlanFault) -> ValueStop {
        match fault.cause {
            PlanCause::OutOfMemory => ValueStop::NoMemory,
            _ => ValueStop::Plan(fault),
        }
    }
}

impl From<Fault> for ValueStop {
    ghost use Rattle.evaluation.specs.Stop.{IsStopOfTables};

    ghost from_gives = { λ fault stop. IsStopOfTables fault stop };

    fn from(fault: Fault) -> ValueStop {
        match fault {
            Fault::OutOfMemory => ValueStop::NoMemory,
            fault => ValueStop::Tables(fault),
        }
    }
}

impl From<AllocError> for ValueStop {
    ghost use Rattle.std.specs.Prelude.{◌≡◌};
    ghost use Rattle.evaluation.specs.declared.stop.ValueStop.TheVariants.{NoMemory};

    ghost from_gives = { λ _ stop. stop ≡ NoMemory };

    fn from(_error: AllocError) -> ValueStop {
        ValueStop::NoMemory
    }
}

impl<T: Drop> From<AllocFailed<T>> for ValueStop {
    ghost use Rattle.std.specs.Prelude.{◌≡◌};
    ghost use Rattle.evaluation.specs.declared.stop.ValueStop.TheVariants.{NoMemory};

    ghost from_gives = { λ _ stop. stop ≡ NoMemory };

    fn from(_failed: AllocFailed<T>) -> ValueStop {
        ValueStop::NoMemory
    }
}
