//! The slots of claims.
ghost use Rattle.std.specs.Prelude.{◌≡◌, true, Option};
ghost use Rattle.journal.specs.Places.{Ready, InWork, Decided, is_ready};
ghost use Rattle.journal.specs.Calls.{ready_at};
ghost use Rattle.journal.specs.FamilyQueues.{left_at};

use crate::accumulator_key::AccumulatorKey;
use crate::boxed_claim::BoxedClaim;
use crate::link::Link;
use crate::phase::Phase;
use settlement::Acc;
use std::mem::replace;

/// The slot of a claim.
pub struct Slot {
    /// The key of its account. The number of the family is the number of the lane.
    pub key: AccumulatorKey,
    /// The position of the next claim of the lane.
    pub next: Link,
    /// The position of the last earlier claim of its account.
    pub own: Link,
    /// The position of the last earlier claim of its family and year.
    pub family_year: Link,
    /// The phase of the claim.
    pub phase: Phase,
}

impl Drop for Slot {
    fn drop(self) {
        let Slot {
            key: _,
            next: _,
            own: _,
            family_year: _,
            phase: _,
        } = self;
    }
}

impl Slot {
    /// Takes the claim, which must be ready.
    pub fn pick(&mut self) -> BoxedClaim
        requires { is_ready self.old.phase ≡ true }
        ensures ready { self.old.phase ≡ Ready result }
        ensures taken { self.new ≡ record self.old { phase = InWork } }
    {
        match replace(&mut self.phase, Phase::InWork) {
            Phase::Ready(claim) => claim,
            _ => unreachable!(),
        }
    }

    /// Makes the claim decided, with the accumulators after it.
    pub fn decide(&mut self, left: &Acc)
        ensures { self.new ≡ record self.old { phase = Decided left.now } }
    {
        self.phase = Phase::Decided(*left);
    }

    /// Makes the claim ready if it waits.
    pub fn release(&mut self)
        ensures { self.new ≡ record self.old { phase = ready_at self.old.phase } }
    {
        self.phase = match replace(&mut self.phase, Phase::InWork) {
            Phase::Waiting(claim) => Phase::Ready(claim),
            phase => phase,
        };
    }
}

/// Returns the accumulators after the claim at a position, if there is a claim and it is decided.
pub fn left_at(slots: &[Slot], place: Link) -> Option<Acc>
    ensures { result ≡ left_at slots.now place }
{
    match place.position() {
        Some(position) => match slots.get(position as usize) {
            Some(slot) => slot.phase.left_acc(),
            None => None,
        },
        None => None,
    }
}
