//! The errors that stop a command. Each error has one line on standard error and one exit status.

ghost use Rattle.std.specs.Prelude.{◌≡◌, ◌≤◌, take};
ghost use Rattle.orders.specs.Stop.{status_of, stop_line};

mod line;

use evaluation::{ErrorLine, LINE_LIMIT_BYTES, Refusal, ValueStop};
use faults::{PlanFault, RunFault, TermsFault, WriteCause, WriteFault};
use line::{put_run_fault, put_terms_fault};
use std::alloc::AllocError;
use thiserror::Error;

/// The error that stopped a command.
#[derive(Debug, Drop, Error)]
pub enum Stop {
    /// An error of the command `value`. The other commands share its errors of the plan, of the
    /// writer and of the memory.
    #[error("{0}")]
    Value(ValueStop),
    /// The texts do not form the terms of a run.
    #[error("terms: {0}")]
    Terms(TermsFault),
    /// The run ended with a fault before the first byte was written.
    #[error("run: {0}")]
    Run(RunFault),
}

impl Stop {
    /// Returns the exit status: 1 for invalid input, 3 for a system error, such as a write fault or
    /// a lack of memory or of threads.
    pub fn status(&self) -> u8
        ensures { result ≡ status_of self.now }
    {
        match self {
            Stop::Value(stop) => stop.status(),
            Stop::Terms(_) | Stop::Run(RunFault::Workers) => 1,
            Stop::Run(_) => 3,
        }
    }

    /// Writes the line of the error, with its line end, to the start of the buffer and returns its
    /// length in bytes.
    pub fn write_line(&self, buffer: &mut [u8; LINE_LIMIT_BYTES]) -> usize
        ensures fits { result ≤ LINE_LIMIT_BYTES }
        ensures written { take result buffer.new ≡ stop_line self.now }
    {
        let mut line = ErrorLine::new();
        match self {
            Stop::Value(stop) => return stop.write_line(buffer),
            Stop::Terms(fault) => put_terms_fault(&mut line, fault),
            Stop::Run(fault) => put_run_fault(&mut line, fault),
        }
        line.put("\n");
        line.copy_to(buffer)
    }
}

impl Refusal for Stop {
    ghost use Rattle.orders.specs.Stop.{status_of, stop_line};

    ghost status = { λ stop. status_of stop };

    ghost line = { λ stop. stop_line stop };

    #[tactic(auto, using(crate::proofs::Statuses::least_status, crate::proofs::Statuses::greatest_status))]
    fn exit_status(&self) -> u8 {
        self.status()
    }

    fn put_line(&self, buffer: &mut [u8; LINE_LIMIT_BYTES]) -> usize {
        self.write_line(buffer)
    }
}

impl From<PlanFault> for Stop {
    ghost use Rattle.orders.specs.Stop.{IsStopOfPlan};

    ghost from_gives = { λ fault stop. IsStopOfPlan fault stop };

    fn from(fault: PlanFault) -> Stop {
        Stop::Value(ValueStop::from(fault))
    }
}

impl From<TermsFault> for Stop {
    ghost use Rattle.orders.specs.Stop.{IsStopOfTerms};

    ghost from_gives = { λ fault stop. IsStopOfTerms fault stop };

    fn from(fault: TermsFault) -> Stop {
        match fault {
            TermsFault::OutOfMemory => Stop::from(AllocError),
            fault => Stop::Terms(fault),
        }
    }
}

impl From<RunFault> for Stop {
    ghost use Rattle.orders.specs.Stop.{IsStopOfRun};

    ghost from_gives = { λ fault stop. IsStopOfRun fault stop };

    fn from(fault: RunFault) -> Stop {
        match fault {
            RunFault::OutOfMemory => Stop::from(AllocError),
            fault => Stop::Run(fault),
        }
    }
}

impl From<WriteFault> for Stop {
    ghost use Rattle.orders.specs.Stop.{IsStopOfWrite};

    ghost from_gives = { λ fault stop. IsStopOfWrite fault stop };

    fn from(fault: WriteFault) -> Stop {
        let written = fault.written;
        match fault.cause {
            WriteCause::Device => Stop::Value(ValueStop::Write { written }),
            WriteCause::OutOfMemory => Stop::from(AllocError),
        }
    }
}

impl From<AllocError> for Stop {
    ghost use Rattle.std.specs.Prelude.{◌≡◌};
    ghost use Rattle.evaluation.specs.declared.stop.ValueStop.TheVariants.{NoMemory};
    ghost use Rattle.orders.specs.declared.stop.Stop.TheVariants.{Value};

    ghost from_gives = { λ _ stop. stop ≡ Value NoMemory };

    fn from(_error: AllocError) -> Stop {
        Stop::Value(ValueStop::NoMemory)
    }
}
