//! The gate that a lock protects.
ghost use Rattle.std.specs.Prelude.{◌≡◌, ◌⊎◌, IfOk, IfErr, IsErr};
ghost use Rattle.journal.specs.Gate.{LeadsTo};
ghost use Rattle.claim_gate.specs.Shared.{IsLawful};
ghost use Rattle.claim_gate.specs.Locked.{lock_of, known_by};

use crate::answer::{FinishResult, OfferResult, Served, WornOut};
use crate::counts::Counts;
use crate::fault::{EndFault, TakeFault};
use crate::gate::Gate;
use crate::job::{DecidedJob, Job};
use crate::offer::Offer;
use crate::prefetching::{Prefetching, SerialPrefetching};
use crate::reply::{Ended, Taken};
use crate::serial::SerialGate;
use journal::{BoxedClaim, BoxedOutcome, jobs_are_stable};
use std::sync::Wait;
use turn_lock::{Pass, Section, TicketLock};

/// A sequential gate that is protected by a lock. Its passes are those of the lock, and each call of the sequential gate is
/// one critical section.
#[derive(Drop)]
pub struct LockedGate<S: Section> {
    lock: S,
}

impl<S: Section> LockedGate<S>
where
    S::Value: SerialGate,
{
    /// Creates the gate over a lock.
    pub fn over(lock: S) -> LockedGate<S>
        ensures { lock_of result ≡ lock }
    {
        LockedGate { lock }
    }

    /// Takes the sequential gate out of the lock, in the state that the pass's next section finds. No later call of any pass is
    /// served. `WornOut` changes nothing, and the pass still knows what it knew.
    pub fn retire<R: Wait>(&self, rt: &R, pass: S::Pass) -> Result<S::Value, WornOut<S::Pass>>
        requires { S.has_pass (lock_of self.now) pass }
        ensures fresh { IfOk result
            (λ gate. LeadsTo (S.Value.shown (S.seen pass)) (S.Value.shown gate)) }
        ensures lawful { IfOk result (λ gate. IsLawful (S.Value.shown gate)) }
        ensures found { IfOk result
            (λ gate. (holder : S.Holder) × S.has_holder (lock_of self.now) holder
            × (S.found holder ≡ gate) × (S.tally_before holder ≡ S.tally pass)) }
        ensures worn { IfErr result (λ e. S.is_worn e.pass) }
        ensures back { IfErr result
            (λ e. S.has_pass (lock_of self.now) e.pass × (S.seen e.pass ≡ S.seen pass)
            × (S.tally e.pass ≡ S.tally pass) × (S.last_found e.pass ≡ S.last_found pass)) }
        ensures late { S.is_worn pass → IsErr result }
    {
        match self.lock.lock(rt, pass) {
            Ok((state, holder)) => {
                // proof: the journal that the section found is valid.
                let _lawful = state.journal();
                Ok(self.lock.retire(holder, state))
            }
            Err((_, pass)) => Err(WornOut { pass, value: () }),
        }
    }
}

impl<V: SerialGate> LockedGate<TicketLock<V>> {
    ghost use Rattle.turn_lock.specs.TicketShown.{IsPassOf, IsWornPass, pass_knows};
    ghost use Rattle.claim_gate.specs.Shared.{HaveMet};

    /// Combines what two passes have seen. Afterwards both have seen the later of the two states, whose journal continues that
    /// of the other. Both have the first pass's tally and the state that its last section found. Both are worn where one was.
    ///
    /// The call is no section, waits for no one and allocates no memory. The state that both have seen need not be the newest.
    pub fn meet(&self, one: Pass<V>, other: Pass<V>) -> (Pass<V>, Pass<V>)
        requires { IsPassOf (lock_of self.now) one × IsPassOf (lock_of self.now) other }
        ensures own { IsPassOf (lock_of self.now) result.0 × IsPassOf (lock_of self.now) result.1 }
        ensures met { HaveMet (known_by V.shown (pass_knows one))
            (known_by V.shown (pass_knows other)) (known_by V.shown (pass_knows result.0)) }
        ensures same { pass_knows result.1 ≡ pass_knows result.0 }
        ensures worn { IsWornPass one ⊎ IsWornPass other → IsWornPass result.0
            × IsWornPass result.1 }
    {
        self.lock.meet(one, other)
    }
}

impl<S: Section> Gate for LockedGate<S>
where
    S::Value: SerialGate,
    S::Pass: Send + Drop,
{
    type Pass = S::Pass;

    ghost has_pass = { λ gate pass. S.has_pass gate.lock pass };

    ghost known = { λ pass. record { seen = S.Value.shown (S.seen pass); found = S.Value.shown (S.last_found pass); tally = S.tally pass } };

    ghost is_worn = { λ pass. S.is_worn pass };

    fn split(&self, pass: S::Pass) -> (S::Pass, S::Pass) {
        self.lock.split(pass)
    }

    fn offer<R: Wait>(
        &self,
        rt: &R,
        pass: S::Pass,
        offer: Offer,
    ) -> Result<Served<OfferResult, S::Pass>, WornOut<S::Pass, Offer>> {
        match self.lock.lock(rt, pass) {
            Ok((mut state, holder)) => {
                // proof: the journal that the section found is valid.
                let _lawful = state.journal();
                let reply = state.offer(offer);
                Ok(Served {
                    reply,
                    pass: self.lock.leave(holder, state),
                })
            }
            Err((_, pass)) => Err(WornOut { pass, value: offer }),
        }
    }

    fn end<R: Wait>(
        &self,
        rt: &R,
        pass: S::Pass,
        provider: usize,
        count: usize,
    ) -> Result<Served<Result<Ended, EndFault>, S::Pass>, WornOut<S::Pass>> {
        match self.lock.lock(rt, pass) {
            Ok((mut state, holder)) => {
                // proof: the journal that the section found is valid.
                let _lawful = state.journal();
                let reply = state.end(provider, count);
                Ok(Served {
                    reply,
                    pass: self.lock.leave(holder, state),
                })
            }
            Err((_, pass)) => Err(WornOut { pass, value: () }),
        }
    }

    fn take<R: Wait>(
        &self,
        rt: &R,
        pass: S::Pass,
    ) -> Result<Served<Result<Taken, TakeFault>, S::Pass>, WornOut<S::Pass>> {
        match self.lock.lock(rt, pass) {
            Ok((mut state, holder)) => {
                // proof: the journal that the section found is valid.
                let _lawful = state.journal();
                let reply = state.take();
                Ok(Served {
                    reply,
                    pass: self.lock.leave(holder, state),
                })
            }
            Err((_, pass)) => Err(WornOut { pass, value: () }),
        }
    }

    fn finish<R: Wait>(
        &self,
        rt: &R,
        pass: S::Pass,
        job: Job,
        outcome: BoxedOutcome,
    ) -> Result<Served<FinishResult, S::Pass>, WornOut<S::Pass, DecidedJob>> {
        // proof: a job is a job in every later state of the gate.
        jobs_are_stable();
        match self.lock.lock(rt, pass) {
            Ok((mut state, holder)) => {
                // proof: the journal that the section found is valid.
                let _lawful = state.journal();
                let reply = state.finish(job, outcome);
                Ok(Served {
                    reply,
                    pass: self.lock.leave(holder, state),
                })
            }
            Err((_, pass)) => Err(WornOut {
                pass,
                value: DecidedJob { job, outcome },
            }),
        }
    }

    fn stop<R: Wait>(&self, rt: &R, pass: S::Pass) -> Result<S::Pass, WornOut<S::Pass>> {
        match self.lock.lock(rt, pass) {
            Ok((mut state, holder)) => {
                // proof: the journal that the section found is valid.
                let _lawful = state.journal();
                state.stop();
                Ok(self.lock.leave(holder, state))
            }
            Err((_, pass)) => Err(WornOut { pass, value: () }),
        }
    }

    fn counts<R: Wait>(
        &self,
        rt: &R,
        pass: S::Pass,
    ) -> Result<Served<Counts, S::Pass>, WornOut<S::Pass>> {
        match self.lock.lock(rt, pass) {
            Ok((state, holder)) => {
                // proof: the journal that the section found is valid.
                let _lawful = state.journal();
                let reply = state.counts();
                Ok(Served {
                    reply,
                    pass: self.lock.leave(holder, state),
                })
            }
            Err((_, pass)) => Err(WornOut { pass, value: () }),
        }
    }
}

impl<S: Section> Prefetching for LockedGate<S>
where
    S::Value: SerialPrefetching,
    S::Pass: Send + Drop,
{
    fn prefetch<R: Wait>(
        &self,
        rt: &R,
        pass: S::Pass,
        claims: &[BoxedClaim],
    ) -> Result<S::Pass, WornOut<S::Pass>> {
        match self.lock.lock(rt, pass) {
            Ok((mut state, holder)) => {
                // proof: the journal that the section found is valid.
                let _lawful = state.journal();
                state.prefetch(claims);
                Ok(self.lock.leave(holder, state))
            }
            Err((_, pass)) => Err(WornOut { pass, value: () }),
        }
    }
}
