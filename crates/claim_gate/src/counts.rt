//! The progress of a gate.

/// The progress of a gate: the numbers of accepted claims, ended providers and decided claims, and whether it is closed or
/// stopped.
#[derive(Clone, Copy, PartialEq, Eq, Drop)]
pub struct Counts {
    /// The number of accepted claims.
    pub accepted: usize,
    /// The number of providers that have ended.
    pub ended: usize,
    /// The number of decided claims.
    pub decided: usize,
    /// Whether the journal is closed, so that no more claims are accepted.
    pub closed: bool,
    /// Whether the gate is stopped.
    pub stopped: bool,
}
