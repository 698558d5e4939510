//! The fault of a check of a whole plan.
ghost use Rattle.std.specs.Prelude.{◌≡◌};
ghost use Rattle.plan_zones.specs.declared.fault.WholeFault.TheVariants.{OutOfMemory};

use faults::RoleKey;
use std::alloc::AllocError;
use thiserror::Error;

/// The reason why the zones of a plan cannot be listed.
#[derive(Clone, Copy, Debug, PartialEq, Eq, Error)]
pub enum WholeFault {
    /// The plan has more zones than the limit: this many, or `usize::MAX` if there are more.
    #[error("{0} zones")]
    TooWide(usize),
    /// The plan has no roles, so it settles no claims.
    #[error("no roles")]
    NoRoles,
    /// The source of this role is a name of the plan, so that claims in one zone differ by its value.
    #[error("a role has the value of a name")]
    InputRole(RoleKey),
    /// Memory ran out.
    #[error("out of memory")]
    OutOfMemory,
}

impl From<AllocError> for WholeFault {
    ghost from_gives = { λ _ fault. fault ≡ OutOfMemory };

    fn from(_refusal: AllocError) -> WholeFault {
        WholeFault::OutOfMemory
    }
}
