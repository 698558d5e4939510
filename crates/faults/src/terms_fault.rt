//! Why a run can't be set up from a plan, claim files and balances.
ghost use Rattle.std.specs.Prelude.{◌≡◌};
ghost use Rattle.faults.specs.TermsFaultNumber.{number_of};

use crate::file_fault::{BalanceFault, FileFault};
use std::alloc::AllocError;
use thiserror::Error;

/// Why a run can't be set up from a plan, the providers' files and the balances. The faults are checked in this order.
#[derive(Clone, Copy, Debug, PartialEq, Eq, Drop, Error)]
pub enum TermsFault {
    /// The plan has no roles, so it can't settle claims.
    #[error("the plan has no roles")]
    NoRoles,
    /// There is no file, or there are more than `FILES_LIMIT`.
    #[error("no file, or too many files")]
    Files,
    /// The first file that is not a valid claim file under the plan. Providers count from 1.
    #[error("file {provider}: {fault}")]
    File { provider: usize, fault: FileFault },
    /// The balances are not valid.
    #[error("balances: {0}")]
    Balances(BalanceFault),
    /// An allocation failed.
    #[error("out of memory")]
    OutOfMemory,
}

impl TermsFault {
    /// Returns the fault's number in the program's messages.
    pub fn number(self) -> u8
        ensures { result ≡ number_of self }
    {
        match self {
            TermsFault::NoRoles => 1,
            TermsFault::Files => 2,
            TermsFault::File { .. } => 3,
            TermsFault::Balances(_) => 4,
            TermsFault::OutOfMemory => 5,
        }
    }
}

impl From<AllocError> for TermsFault {
    ghost use Rattle.std.specs.Prelude.{◌≡◌};
    ghost use Rattle.faults.specs.declared.terms_fault.TermsFault.TheVariants.{OutOfMemory};

    ghost from_gives = { λ _ fault. fault ≡ OutOfMemory };

    fn from(_: AllocError) -> TermsFault {
        TermsFault::OutOfMemory
    }
}
