//! The faults of a comparison of two plans.
ghost use Rattle.std.specs.Prelude.{◌≡◌};
ghost use Rattle.plan_zones.specs.declared.compare_fault.CompareFault.TheVariants.{OutOfMemory};

use faults::RoleKey;
use std::alloc::AllocError;
use thiserror::Error;

/// One of the two plans that are compared.
#[derive(Clone, Copy, Debug, PartialEq, Eq)]
pub enum Side {
    Old,
    New,
}

/// The reason why two plans cannot be compared.
#[derive(Clone, Copy, Debug, PartialEq, Eq, Error)]
pub enum CompareFault {
    /// The plan has no roles, so it settles no claims.
    #[error("no roles")]
    NoRoles(Side),
    /// The source of this role of the plan is a name, so that claims in one zone differ by its value.
    #[error("a role has the value of a name")]
    InputRole(Side, RoleKey),
    /// Only one of the plans keeps accumulators for families.
    #[error("one plan alone keeps families")]
    Families,
    /// The text in the old plan of the rename at this index is no name of the old plan.
    #[error("rename {0} is of no name of the old plan")]
    NoOldName(usize),
    /// The text in the new plan of the rename at this index is no name of the new plan.
    #[error("rename {0} is to no name of the new plan")]
    NoNewName(usize),
    /// The name at this index of the old plan would be a name of the new plan that another name of the
    /// old plan is already.
    #[error("two names of the old plan are one name of the new plan")]
    Merged(usize),
    /// The values of the name at this index of the new plan have another kind in the old plan.
    #[error("name {0} of the new plan has two kinds")]
    TwoKinds(usize),
    /// The narrowing at this index is of no name of either plan.
    #[error("narrowing {0} is of no name")]
    NoNarrowed(usize),
    /// The plans have more zones than the limit: this many, or `usize::MAX` if there are more.
    #[error("{0} zones")]
    TooWide(usize),
    /// Memory ran out.
    #[error("out of memory")]
    OutOfMemory,
}

impl From<AllocError> for CompareFault {
    ghost from_gives = { λ _ fault. fault ≡ OutOfMemory };

    fn from(_refusal: AllocError) -> CompareFault {
        CompareFault::OutOfMemory
    }
}
