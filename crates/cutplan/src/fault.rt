//! The fault of a check that cannot list the gaps of a table.
ghost use Rattle.std.specs.Prelude.{◌≡◌};
ghost use Rattle.cutplan.specs.declared.fault.CheckFault.TheVariants.{OutOfMemory};

use std::alloc::AllocError;
use thiserror::Error;

/// The reason why the gaps of a table cannot be listed.
#[derive(Clone, Copy, Debug, PartialEq, Eq, Error)]
pub enum CheckFault {
    /// The check has more than `CELL_LIMIT` cells.
    #[error("more than 65536 cells")]
    TooWide,
    /// Memory ran out.
    #[error("out of memory")]
    OutOfMemory,
}

impl From<AllocError> for CheckFault {
    ghost from_gives = { λ _ fault. fault ≡ OutOfMemory };

    fn from(_refusal: AllocError) -> CheckFault {
        CheckFault::OutOfMemory
    }
}
