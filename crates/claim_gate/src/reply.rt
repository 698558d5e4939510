//! The results of a gate's calls that are not refused.

use crate::job::Job;
use journal::BoxedClaim;

/// The result of an accepted claim.
#[derive(Clone, Copy, PartialEq, Eq, Drop)]
pub struct Accepted {
    /// The claim's position, which is the number of claims that were accepted before it.
    pub position: usize,
}

/// The result of an ended provider.
#[derive(Clone, Copy, PartialEq, Eq, Drop)]
pub struct Ended;

/// What a worker has to do.
#[derive(Drop)]
pub enum Taken {
    /// The gate is stopped.
    Stopped,
    /// The journal is finished, so nothing is left to do.
    Over,
    /// No claim can be taken now.
    NothingReady,
    /// A claim to be decided.
    Work(Job),
}

/// The result of a recorded decision.
#[derive(Drop)]
pub struct Recorded {
    /// The decided claim. The caller drops it after the critical section.
    pub claim: BoxedClaim,
}
