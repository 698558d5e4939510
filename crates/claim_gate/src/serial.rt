//! The calls of a sequential gate, for code that is generic over the gate that a lock protects.

use crate::answer::{FinishResult, OfferResult};
use crate::counts::Counts;
use crate::fault::{EndFault, TakeFault};
use crate::job::Job;
use crate::offer::Offer;
use crate::prefetching::SerialPrefetching;
use crate::reply::{Ended, Taken};
use crate::state::GateState;
use journal::{BoxedClaim, BoxedOutcome, Event};
use turn_lock::Growing;

impl<'t> Growing for GateState<'t> {
    ghost use Rattle.journal.specs.Gate.{LeadsTo};
    ghost use Rattle.journal.specs.Leading.{leads_either, leads_further, leads_itself};

    ghost leads = { LeadsTo };

    ghost reflexive = { leads_itself };

    ghost transitive = { leads_further };

    ghost ordered = { leads_either };
}

/// A sequential gate, such as `GateState`. Generic code uses this trait because a `GateState` borrows its terms, and a type
/// that borrows can't be named there.
pub trait SerialGate: Growing {
    ghost use Rattle.std.specs.Prelude.{◌≡◌, true, IfOk, IfErr};
    ghost use Rattle.journal.specs.Terms.{Terms as AnyTerms};
    ghost use Rattle.journal.specs.Events.{has_take, IsJob};
    ghost use Rattle.journal.specs.Gate.{Offers, Ends, Takes, Finishes, Counts as AreCounts};
    ghost use Rattle.journal.specs.Settled.{outcome_of};
    ghost use Rattle.claim_gate.specs.Terms.{ForTerms};
    ghost use Rattle.claim_gate.specs.Parts.{GateParts, at};
    ghost use Rattle.claim_gate.specs.Replies.{offer_reply, end_reply, take_reply, finish_reply, IsFiled, HasClaims, IsWorkOf};
    ghost use Rattle.journal.specs.Gate.{LeadsTo};
    ghost use Rattle.claim_gate.specs.Shared.{IsDueAt, IsLawful, IsOrdered};

    // The gate as contracts see it: its terms, its journal, and whether it is stopped.
    ghost shown: { Self → GateParts };

    /// Returns the journal, as `GateState::journal` does.
    fn journal(&self) -> &[Event]
        ensures journal { result.now ≡ (shown self.now).journal }
        ensures lawful { IsLawful (shown self.now) }
        ensures ordered { IsOrdered (shown self.now) };

    /// Offers a claim, as `GateState::offer` does.
    fn offer(&mut self, offer: Offer) -> OfferResult
        requires filed { ForTerms (shown self.old).terms (λ T. IsFiled T offer) }
        requires due { IsDueAt (shown self.old) offer.provider offer.place }
        ensures grown { Self.leads self.old self.new }
        ensures reply { ForTerms (shown self.old).terms
            (λ T. Offers (at T (shown self.old)) offer.provider offer.place (offer_reply result)
            (at T (shown self.new))) }
        ensures lawful { IsLawful (shown self.new) }
        ensures back { IfErr result (λ refused. refused.value ≡ offer) };

    /// Ends a provider, as `GateState::end` does.
    fn end(&mut self, provider: usize, count: usize) -> Result<Ended, EndFault>
        requires { ForTerms (shown self.old).terms (λ T. HasClaims T provider count) }
        ensures grown { Self.leads self.old self.new }
        ensures reply { ForTerms (shown self.old).terms
            (λ T. Ends (at T (shown self.old)) provider count (end_reply result)
            (at T (shown self.new))) }
        ensures lawful { IsLawful (shown self.new) };

    /// Takes a claim, as `GateState::take` does.
    fn take(&mut self) -> Result<Taken, TakeFault>
        ensures grown { Self.leads self.old self.new }
        ensures reply { ForTerms (shown self.old).terms
            (λ T. Takes (at T (shown self.old)) (take_reply result) (at T (shown self.new))) }
        ensures work { IfOk result (IsWorkOf (shown self.old) (shown self.new)) }
        ensures lawful { IsLawful (shown self.new) };

    /// Records an outcome, as `GateState::finish` does.
    fn finish(&mut self, job: Job, outcome: BoxedOutcome) -> FinishResult
        requires in_work { has_take (shown self.old).journal job.position ≡ true }
        requires job { ForTerms (shown self.old).terms
            (λ T. IsJob T (shown self.old).journal job.position job.claim job.acc) }
        requires settled { outcome ≡ outcome_of (shown self.old).terms.plan job.claim job.acc }
        ensures grown { Self.leads self.old self.new }
        ensures reply { ForTerms (shown self.old).terms
            (λ T. Finishes (at T (shown self.old)) job.position outcome (finish_reply result)
            (at T (shown self.new))) }
        ensures lawful { IsLawful (shown self.new) }
        ensures claim { IfOk result (λ recorded. recorded.claim ≡ job.claim) }
        ensures back { IfErr result
            (λ refused. (refused.value.job ≡ job) × (refused.value.outcome ≡ outcome)) };

    /// Stops the gate, as `GateState::stop` does.
    fn stop(&mut self)
        ensures grown { Self.leads self.old self.new }
        ensures stopped { shown self.new ≡ record (shown self.old) { stopped = true } }
        ensures lawful { IsLawful (shown self.new) };

    /// Returns the progress of the gate, as `GateState::counts` does.
    fn counts(&self) -> Counts
        ensures { (T : AnyTerms) → AreCounts (at T (shown self.now)) result.accepted result.ended
            result.decided result.closed result.stopped };

    // A state that leads to another one also does so as contracts see the two.
    ghost shows: { (earlier later : Self) → Self.leads earlier later → LeadsTo (shown earlier) (shown later) };
}

impl<'t> SerialGate for GateState<'t> {
    ghost shown = { λ gate. gate };

    ghost shows = { λ earlier later leads. leads };

    fn journal(&self) -> &[Event] {
        self.journal()
    }

    fn offer(&mut self, offer: Offer) -> OfferResult {
        self.offer(offer)
    }

    fn end(&mut self, provider: usize, count: usize) -> Result<Ended, EndFault> {
        self.end(provider, count)
    }

    fn take(&mut self) -> Result<Taken, TakeFault> {
        self.take()
    }

    fn finish(&mut self, job: Job, outcome: BoxedOutcome) -> FinishResult {
        self.finish(job, outcome)
    }

    fn stop(&mut self) {
        self.stop();
    }

    fn counts(&self) -> Counts {
        self.counts()
    }
}

// A lock moves a gate on the heap as one pointer.
impl<V: SerialGate> SerialGate for Box<V> {
    ghost shown = { λ gate. V.shown gate.value };

    ghost shows = { λ earlier later leads. V.shows earlier.value later.value leads };

    fn journal(&self) -> &[Event] {
        (**self).journal()
    }

    fn offer(&mut self, offer: Offer) -> OfferResult {
        (**self).offer(offer)
    }

    fn end(&mut self, provider: usize, count: usize) -> Result<Ended, EndFault> {
        (**self).end(provider, count)
    }

    fn take(&mut self) -> Result<Taken, TakeFault> {
        (**self).take()
    }

    fn finish(&mut self, job: Job, outcome: BoxedOutcome) -> FinishResult {
        (**self).finish(job, outcome)
    }

    fn stop(&mut self) {
        (**self).stop();
    }

    fn counts(&self) -> Counts {
        (**self).counts()
    }
}

impl<'t> SerialPrefetching for GateState<'t> {
    fn prefetch(&mut self, claims: &[BoxedClaim]) {
        self.prefetch(claims);
    }
}

impl<V: SerialPrefetching> SerialPrefetching for Box<V> {
    fn prefetch(&mut self, claims: &[BoxedClaim]) {
        (**self).prefetch(claims);
    }
}
