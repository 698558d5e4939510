//! The phases of a claim.
ghost use Rattle.std.specs.Prelude.{◌≡◌};
ghost use Rattle.journal.specs.Places.{is_decided, is_ready, left_of};
ghost use Rattle.journal.specs.Calls.{phase_after};

use crate::boxed_claim::BoxedClaim;
use settlement::Acc;

/// The phase of a claim on its way to a decision. A claim that is not taken yet is in a box, so
/// that the phase of a decided claim takes little memory.
#[derive(Drop)]
pub enum Phase {
    /// An earlier claim of its family is not decided yet.
    Waiting(BoxedClaim),
    /// The claim can be taken.
    Ready(BoxedClaim),
    /// The claim is taken and not decided yet.
    InWork,
    /// The claim is decided, and these are its account's accumulators after it.
    Decided(Acc),
}

impl Phase {
    /// Returns the phase of the next claim of the family, when that claim is added.
    pub fn next_phase(&self, claim: BoxedClaim) -> Phase
        ensures { result ≡ phase_after self.now claim }
    {
        match self {
            Phase::Decided(_) => Phase::Ready(claim),
            _ => Phase::Waiting(claim),
        }
    }

    /// Returns whether the claim can be taken.
    pub fn is_ready(&self) -> bool
        ensures { result ≡ is_ready self.now }
    {
        matches!(self, Phase::Ready(_))
    }

    /// Returns the accumulators after the claim, if it is decided.
    pub fn left_acc(&self) -> Option<Acc>
        ensures { result ≡ left_of self.now }
    {
        match self {
            Phase::Decided(left) => Some(*left),
            _ => None,
        }
    }

    /// Returns whether the claim is decided.
    pub fn is_decided(&self) -> bool
        ensures { result ≡ is_decided self.now }
    {
        matches!(self, Phase::Decided(_))
    }
}
