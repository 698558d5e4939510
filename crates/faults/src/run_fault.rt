//! Why a run ends without a finished journal.
ghost use Rattle.std.specs.Prelude.{◌≡◌};
ghost use Rattle.faults.specs.RunFaultNumber.{number_of};

use std::alloc::AllocError;
use thiserror::Error;

/// Why a run ends without a finished journal. Of several faults of its threads, the first in this order is reported.
#[derive(Clone, Copy, Debug, PartialEq, Eq, Drop, Error)]
pub enum RunFault {
    /// The number of workers is 0 or more than `WORKERS_LIMIT`.
    #[error("no worker, or too many workers")]
    Workers,
    /// An allocation failed.
    #[error("out of memory")]
    OutOfMemory,
    /// The system can't start another thread.
    #[error("a thread can't be started")]
    Thread,
    /// The gate's lock has no ticket left.
    #[error("the lock has no ticket left")]
    Worn,
    /// Another caller has stopped the gate.
    #[error("the run was stopped")]
    Stopped,
}

impl RunFault {
    /// Returns the fault's number in the program's messages.
    pub fn number(self) -> u8
        ensures { result ≡ number_of self }
    {
        match self {
            RunFault::Workers => 1,
            RunFault::OutOfMemory => 2,
            RunFault::Thread => 3,
            RunFault::Worn => 4,
            RunFault::Stopped => 5,
        }
    }
}

impl From<AllocError> for RunFault {
    ghost use Rattle.std.specs.Prelude.{◌≡◌};
    ghost use Rattle.faults.specs.declared.run_fault.RunFault.TheVariants.{OutOfMemory};

    ghost from_gives = { λ _ fault. fault ≡ OutOfMemory };

    fn from(_: AllocError) -> RunFault {
        RunFault::OutOfMemory
    }
}
