//! A gate that several callers share, each of them with its own pass.

use crate::answer::{FinishResult, OfferResult, Served, WornOut};
use crate::counts::Counts;
use crate::fault::{EndFault, TakeFault};
use crate::job::{DecidedJob, Job};
use crate::offer::Offer;
use crate::reply::{Ended, Taken};
use journal::BoxedOutcome;
use std::sync::Wait;

/// A gate that several callers share. `split` only gives another caller a pass of its own. Each other call is exactly one
/// critical section of the caller's pass, in which it behaves as the call of the sequential gate does. `WornOut` says that
/// the lock has no ticket left; it changes nothing and takes precedence over all other results.
///
/// Each call returns the pass, which still knows all that it has seen. Calls may wait, and their contracts hold where they
/// return.
pub trait Gate {
    ghost use Rattle.std.specs.Prelude.{◌≡◌, true, IfOk, IfErr, IsErr};
    ghost use Rattle.journal.specs.Events.{has_take, IsJob};
    ghost use Rattle.journal.specs.Gate.{Offers, Ends, Takes, Finishes, Stops, Counts as AreCounts};
    ghost use Rattle.journal.specs.Settled.{outcome_of};
    ghost use Rattle.claim_gate.specs.Terms.{ForTerms};
    ghost use Rattle.claim_gate.specs.Parts.{at};
    ghost use Rattle.claim_gate.specs.Replies.{offer_reply, end_reply, take_reply, finish_reply, IsFiled, HasClaims, IsWorkOf};
    ghost use Rattle.claim_gate.specs.Shared.{IsDueAt, Known, IsServed, IsWornOut, Went};

    type Pass: Send + Drop;

    // The pass belongs to this gate.
    ghost has_pass: { Self → Self.Pass → Type 0 };

    // What the pass has seen of the gate.
    ghost known: { Self.Pass → Known };

    // The pass has seen that no ticket is left.
    ghost is_worn: { Self.Pass → Type 0 };

    /// Splits a pass into two, which both know what the given pass knew.
    fn split(&self, pass: Self::Pass) -> (Self::Pass, Self::Pass)
        requires { has_pass self.now pass }
        ensures own { has_pass self.now result.0 × has_pass self.now result.1 }
        ensures known { (known result.0 ≡ known pass) × (known result.1 ≡ known pass) }
        ensures worn { is_worn pass → is_worn result.0 × is_worn result.1 };

    /// Offers a claim, which is accepted if it is its provider's next one. Returns the offer where it is refused.
    fn offer<R: Wait>(
        &self,
        rt: &R,
        pass: Self::Pass,
        offer: Offer,
    ) -> Result<Served<OfferResult, Self::Pass>, WornOut<Self::Pass, Offer>>
        requires own { has_pass self.now pass }
        requires filed { ForTerms (known pass).seen.terms (λ T. IsFiled T offer) }
        requires due { IsDueAt (known pass).seen offer.provider offer.place }
        ensures served { IfOk result (λ r. IsServed (has_pass self.now) known (known pass) r.pass) }
        ensures reply { IfOk result
            (λ r. Went (λ old new. Offers old offer.provider offer.place (offer_reply r.reply) new)
            (known r.pass)) }
        ensures back { IfOk result (λ r. IfErr r.reply (λ refused. refused.value ≡ offer)) }
        ensures worn { IfErr result
            (λ e. IsWornOut (has_pass self.now) is_worn known (known pass) e.pass) }
        ensures worn_back { IfErr result (λ e. e.value ≡ offer) }
        ensures late { is_worn pass → IsErr result };

    /// Ends a provider of which all `count` claims are accepted.
    fn end<R: Wait>(
        &self,
        rt: &R,
        pass: Self::Pass,
        provider: usize,
        count: usize,
    ) -> Result<Served<Result<Ended, EndFault>, Self::Pass>, WornOut<Self::Pass>>
        requires own { has_pass self.now pass }
        requires claims { ForTerms (known pass).seen.terms (λ T. HasClaims T provider count) }
        ensures served { IfOk result (λ r. IsServed (has_pass self.now) known (known pass) r.pass) }
        ensures reply { IfOk result
            (λ r. Went (λ old new. Ends old provider count (end_reply r.reply) new)
            (known r.pass)) }
        ensures worn { IfErr result
            (λ e. IsWornOut (has_pass self.now) is_worn known (known pass) e.pass) }
        ensures late { is_worn pass → IsErr result };

    /// Takes a claim for which all earlier claims of its family are decided.
    fn take<R: Wait>(
        &self,
        rt: &R,
        pass: Self::Pass,
    ) -> Result<Served<Result<Taken, TakeFault>, Self::Pass>, WornOut<Self::Pass>>
        requires { has_pass self.now pass }
        ensures served { IfOk result (λ r. IsServed (has_pass self.now) known (known pass) r.pass) }
        ensures reply { IfOk result
            (λ r. Went (λ old new. Takes old (take_reply r.reply) new) (known r.pass)) }
        ensures work { IfOk result
            (λ r. IfOk r.reply (IsWorkOf (known r.pass).found (known r.pass).seen)) }
        ensures worn { IfErr result
            (λ e. IsWornOut (has_pass self.now) is_worn known (known pass) e.pass) }
        ensures late { is_worn pass → IsErr result };

    /// Records the outcome of a job and returns the job's claim. Returns the job and the outcome where they are refused.
    fn finish<R: Wait>(
        &self,
        rt: &R,
        pass: Self::Pass,
        job: Job,
        outcome: BoxedOutcome,
    ) -> Result<Served<FinishResult, Self::Pass>, WornOut<Self::Pass, DecidedJob>>
        requires own { has_pass self.now pass }
        requires in_work { has_take (known pass).seen.journal job.position ≡ true }
        requires job { ForTerms (known pass).seen.terms
            (λ T. IsJob T (known pass).seen.journal job.position job.claim job.acc) }
        requires settled { outcome ≡ outcome_of (known pass).seen.terms.plan job.claim job.acc }
        ensures served { IfOk result (λ r. IsServed (has_pass self.now) known (known pass) r.pass) }
        ensures reply { IfOk result
            (λ r. Went (λ old new. Finishes old job.position outcome (finish_reply r.reply) new)
            (known r.pass)) }
        ensures claim { IfOk result (λ r. IfOk r.reply (λ recorded. recorded.claim ≡ job.claim)) }
        ensures back { IfOk result
            (λ r. IfErr r.reply (λ refused. (refused.value.job ≡ job)
            × (refused.value.outcome ≡ outcome))) }
        ensures worn { IfErr result
            (λ e. IsWornOut (has_pass self.now) is_worn known (known pass) e.pass) }
        ensures worn_back { IfErr result (λ e. (e.value.job ≡ job) × (e.value.outcome ≡ outcome)) }
        ensures late { is_worn pass → IsErr result };

    /// Stops the gate. From then on `offer`, `end`, `take` and `finish` report that it is stopped and change nothing. The
    /// journal is not changed.
    fn stop<R: Wait>(&self, rt: &R, pass: Self::Pass) -> Result<Self::Pass, WornOut<Self::Pass>>
        requires { has_pass self.now pass }
        ensures served { IfOk result (IsServed (has_pass self.now) known (known pass)) }
        ensures stopped { IfOk result (λ p. Went Stops (known p)) }
        ensures worn { IfErr result
            (λ e. IsWornOut (has_pass self.now) is_worn known (known pass) e.pass) }
        ensures late { is_worn pass → IsErr result };

    /// Returns the progress of the gate.
    fn counts<R: Wait>(
        &self,
        rt: &R,
        pass: Self::Pass,
    ) -> Result<Served<Counts, Self::Pass>, WornOut<Self::Pass>>
        requires { has_pass self.now pass }
        ensures served { IfOk result (λ r. IsServed (has_pass self.now) known (known pass) r.pass) }
        ensures reply { IfOk result
            (λ r. Went (λ old new. (new ≡ old) × AreCounts old r.reply.accepted r.reply.ended
            r.reply.decided r.reply.closed r.reply.stopped) (known r.pass)) }
        ensures worn { IfErr result
            (λ e. IsWornOut (has_pass self.now) is_worn known (known pass) e.pass) }
        ensures late { is_worn pass → IsErr result };
}
