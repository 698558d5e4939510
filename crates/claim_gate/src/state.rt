//! The sequential gate.
ghost use Rattle.std.specs.Prelude.{◌≡◌, ◌+◌, ◌<◌, ◌≤◌, ◌≢◌, ◌↔◌, ◌++◌, ◌∷◌, [], true, false, cond, IsTrue, length, vec_len, vec_capacity, IfOk, IfErr, OnOk, OnErr};
ghost use Rattle.settlement.specs.Opening.{opening};
ghost use Rattle.journal.specs.Terms.{Terms as AnyTerms};
ghost use Rattle.journal.specs.Events.{places, has_end, closed, has_take, has_decision, reached, IsJob};
ghost use Rattle.journal.specs.Gate.{LeadsTo, Offers, Ends, Takes, Finishes, Stops, Counts as AreCounts};
ghost use Rattle.journal.specs.Settled.{outcome_of};
ghost use Rattle.journal.specs.declared.event.Event.TheVariants as events;
ghost use Rattle.journal.specs.Places.{started};
ghost use Rattle.settlement.specs.Accounts.{account_of};
ghost use Rattle.intake_csv.specs.Balances.{accounts_of};
ghost use Rattle.claim_gate.specs.GateIndex.{is_due};
ghost use Rattle.claim_gate.specs.Terms.{ForTerms};
ghost use Rattle.claim_gate.specs.Parts.{at};
ghost use Rattle.claim_gate.specs.Replies.{offer_reply, end_reply, take_reply, finish_reply, IsFiled, HasClaims, IsOver, IsWorkOf, first_journal};
ghost use Rattle.claim_gate.specs.Shared.{IsDueAt, IsLawful, IsOrdered};

use crate::answer::{FinishResult, OfferResult, Refused};
use crate::counts::Counts;
use crate::fault::{EndFault, FinishFault, OfferFault, TakeFault};
use crate::intakes::Intakes;
use crate::job::{DecidedJob, Job};
use crate::offer::Offer;
use crate::reply::{Accepted, Ended, Recorded, Taken};
use crate::terms::Terms;
use journal::{
    BoxedClaim, BoxedOutcome, Event, Lanes, ReadyClaim, due_claim_stays_in_order,
    empty_journal_is_lawful, gate_keeps_lawful,
};
use settlement::{Acc, account_year, after};
use std::alloc::{AllocError, Global};
use std::marker::Model;

/// The sequential gate: its terms, its journal, which is always valid, and whether it is stopped.
///
/// Each call makes all its allocations before its first change, so that a refused call changes nothing. No call walks the
/// journal, the claims or the families.
pub struct GateState<'t> {
    terms: &'t Terms<'t>,
    journal: Vec<Event>,
    stopped: bool,
    closed: bool,
    lanes: Lanes,
    intakes: Intakes,
    decisions: usize,
}

impl Drop for GateState<'_> {
    fn drop(self) {
        let GateState {
            terms: _,
            journal: _,
            stopped: _,
            closed: _,
            lanes: _,
            intakes: _,
            decisions: _,
        } = self;
    }
}

impl<'t> Model for GateState<'t> {
    ghost use Rattle.claim_gate.specs.GateIndex.{IsKept};
    ghost use Rattle.claim_gate.specs.Parts.{GateParts};

    ghost Value = { GateParts };

    ghost view = { λ g. record { terms = g.terms.now; journal = g.journal.items; stopped = g.stopped } };

    ghost invariant = { λ g. IsKept g.terms.now g.journal.items g.lanes g.intakes g.closed g.decisions };
}

impl<'t> GateState<'t> {
    /// Creates a gate without claims. With cutoff 0 it is closed from the start.
    pub fn new(alloc: Global, terms: &'t Terms) -> Result<GateState<'t>, AllocError>
        ensures { IfOk result (λ made. made ≡ record {
          terms = terms.now;
          journal = first_journal terms.now.cutoff;
          stopped = false;
        }) }
    {
        // proof: the empty journal is valid.
        empty_journal_is_lawful();
        let mut journal = Vec::new(alloc);
        journal.reserve(1)?;
        let intakes = Intakes::new(alloc, terms.files().len())?;
        let closed = close_if_due(&mut journal, terms, 0, &intakes);
        Ok(GateState {
            terms,
            journal,
            stopped: false,
            closed,
            lanes: Lanes::new(alloc),
            intakes,
            decisions: 0,
        })
    }

    /// Returns the journal.
    pub fn journal(&self) -> &[Event]
        ensures journal { result.now ≡ self.now.journal }
        ensures lawful { IsLawful self.now }
        ensures ordered { IsOrdered self.now }
    {
        &self.journal
    }

    /// Returns the journal and drops the rest of the gate.
    pub fn into_journal(self) -> Vec<Event>
        ensures journal { result.items ≡ self.entry.journal }
        ensures lawful { IsLawful self.entry }
    {
        let GateState {
            terms: _,
            journal,
            stopped: _,
            closed: _,
            lanes: _,
            intakes: _,
            decisions: _,
        } = self;
        journal
    }

    /// Offers a claim, which is accepted if it is its provider's next one. Returns the offer where it is refused.
    pub fn offer(&mut self, offer: Offer) -> OfferResult
        requires filed { ForTerms self.old.terms (λ T. IsFiled T offer) }
        requires due { IsDueAt self.old offer.provider offer.place }
        ensures reply { ForTerms self.old.terms
            (λ T. Offers (at T self.old) offer.provider offer.place (offer_reply result)
            (at T self.new)) }
        ensures lawful { IsLawful self.new }
        ensures leads { LeadsTo self.old self.new }
        ensures back { IfErr result (λ refused. refused.value ≡ offer) }
        ensures refused { OnErr result (self.new ≡ self.old) }
    {
        if self.stopped {
            return Err(Refused {
                fault: OfferFault::Stopped,
                value: offer,
            });
        }
        if self.closed {
            return Err(Refused {
                fault: OfferFault::Closed,
                value: offer,
            });
        }
        let expected = self.intakes.accepted_count(offer.provider);
        if offer.place != expected {
            return Err(Refused {
                fault: OfferFault::OutOfTurn { expected },
                value: offer,
            });
        }
        self.accept(offer)
    }

    fn accept(&mut self, offer: Offer) -> OfferResult
        requires runs { self.old.stopped ≡ false }
        requires open_yet { closed self.old.journal ≡ false }
        requires filed { ForTerms self.old.terms (λ T. IsFiled T offer) }
        requires in_turn { ForTerms self.old.terms
            (λ T. offer.place ≡ length (places self.old.journal offer.provider)) }
        requires due { IsDueAt self.old offer.provider offer.place }
        ensures reply { ForTerms self.old.terms
            (λ T. Offers (at T self.old) offer.provider offer.place (offer_reply result)
            (at T self.new)) }
        ensures lawful { IsLawful self.new }
        ensures leads { LeadsTo self.old self.new }
        ensures back { IfErr result (λ refused. refused.value ≡ offer) }
        ensures refused { OnErr result (self.new ≡ self.old) }
    {
        // proof: each call keeps the journal valid, and the acceptance of a claim that is due keeps the order.
        gate_keeps_lawful();
        due_claim_stays_in_order();
        if self.journal.reserve(2).is_err() {
            return Err(Refused {
                fault: OfferFault::OutOfMemory,
                value: offer,
            });
        }
        let Offer {
            provider,
            place,
            claim,
        } = offer;
        let position = self.lanes.len();
        let year = account_year(self.terms.plan(), claim.as_claim());
        if let Err(failed) = self.lanes.add(claim, year) {
            let claim = failed.value;
            let offer = Offer {
                provider,
                place,
                claim,
            };
            return Err(Refused {
                fault: OfferFault::OutOfMemory,
                value: offer,
            });
        }
        self.intakes.accept(provider);
        append(&mut self.journal, Event::Accept { provider, place });
        let accepted = self.lanes.len();
        self.closed = close_if_due(&mut self.journal, self.terms, accepted, &self.intakes);
        Ok(Accepted { position })
    }

    /// Prefetches into the cache what the offers of these claims will read. The gate doesn't change.
    pub fn prefetch(&mut self, claims: &[BoxedClaim])
        ensures same { self.new ≡ self.old }
        ensures lawful { IsLawful self.new }
    {
        self.lanes.prefetch(claims);
    }

    /// Ends a provider of which all `count` claims are accepted.
    pub fn end(&mut self, provider: usize, count: usize) -> Result<Ended, EndFault>
        requires { ForTerms self.old.terms (λ T. HasClaims T provider count) }
        ensures reply { ForTerms self.old.terms
            (λ T. Ends (at T self.old) provider count (end_reply result) (at T self.new)) }
        ensures lawful { IsLawful self.new }
        ensures leads { LeadsTo self.old self.new }
        ensures refused { OnErr result (self.new ≡ self.old) }
    {
        // proof: each call keeps the journal valid.
        gate_keeps_lawful();
        if self.stopped {
            return Err(EndFault::Stopped);
        }
        if self.closed {
            return Err(EndFault::Closed);
        }
        let expected = self.intakes.accepted_count(provider);
        if expected < count {
            return Err(EndFault::OutOfTurn { expected });
        }
        if self.intakes.is_ended(provider) {
            return Err(EndFault::AlreadyEnded);
        }
        if self.journal.reserve(2).is_err() {
            return Err(EndFault::OutOfMemory);
        }
        self.intakes.end(provider);
        append(&mut self.journal, Event::End { provider });
        let accepted = self.lanes.len();
        self.closed = close_if_due(&mut self.journal, self.terms, accepted, &self.intakes);
        Ok(Ended)
    }

    /// Takes a claim for which all earlier claims of its family are decided.
    pub fn take(&mut self) -> Result<Taken, TakeFault>
        ensures reply { ForTerms self.old.terms
            (λ T. Takes (at T self.old) (take_reply result) (at T self.new)) }
        ensures work { IfOk result (IsWorkOf self.old self.new) }
        ensures lawful { IsLawful self.new }
        ensures leads { LeadsTo self.old self.new }
        ensures refused { OnErr result (self.new ≡ self.old) }
    {
        // proof: each call keeps the journal valid.
        gate_keeps_lawful();
        if self.stopped {
            return Ok(Taken::Stopped);
        }
        if self.is_over() {
            return Ok(Taken::Over);
        }
        if self.journal.reserve(1).is_err() {
            return Err(TakeFault::OutOfMemory);
        }
        let Some(picked) = self.lanes.take() else {
            return Ok(Taken::NothingReady);
        };
        let position = picked.position;
        let acc = start_of(self.terms, &picked);
        append(&mut self.journal, Event::Take { position });
        Ok(Taken::Work(Job {
            position,
            claim: picked.claim,
            acc,
        }))
    }

    /// Records the outcome of a job and returns the job's claim. Returns the job and the outcome where they are refused.
    pub fn finish(&mut self, job: Job, outcome: BoxedOutcome) -> FinishResult
        requires in_work { has_take self.old.journal job.position ≡ true }
        requires job { ForTerms self.old.terms
            (λ T. IsJob T self.old.journal job.position job.claim job.acc) }
        requires settled { outcome ≡ outcome_of self.old.terms.plan job.claim job.acc }
        ensures reply { ForTerms self.old.terms
            (λ T. Finishes (at T self.old) job.position outcome (finish_reply result)
            (at T self.new)) }
        ensures lawful { IsLawful self.new }
        ensures leads { LeadsTo self.old self.new }
        ensures recorded { OnOk result (self.new ≡ record self.old {
          journal = self.old.journal ++ events.Decide job.position outcome ∷ [];
        }) }
        ensures claim { IfOk result (λ recorded. recorded.claim ≡ job.claim) }
        ensures back { IfErr result
            (λ refused. (refused.value.job ≡ job) × (refused.value.outcome ≡ outcome)) }
        ensures refused { OnErr result (self.new ≡ self.old) }
    {
        if self.stopped {
            return Err(Refused {
                fault: FinishFault::Stopped,
                value: DecidedJob { job, outcome },
            });
        }
        if self.lanes.is_decided(job.position) {
            return Err(Refused {
                fault: FinishFault::AlreadyDecided,
                value: DecidedJob { job, outcome },
            });
        }
        self.record(job, outcome)
    }

    fn record(&mut self, job: Job, outcome: BoxedOutcome) -> FinishResult
        requires runs { self.old.stopped ≡ false }
        requires once { has_decision self.old.journal job.position ≡ false }
        requires in_work { has_take self.old.journal job.position ≡ true }
        requires job { ForTerms self.old.terms
            (λ T. IsJob T self.old.journal job.position job.claim job.acc) }
        requires settled { outcome ≡ outcome_of self.old.terms.plan job.claim job.acc }
        ensures reply { ForTerms self.old.terms
            (λ T. Finishes (at T self.old) job.position outcome (finish_reply result)
            (at T self.new)) }
        ensures lawful { IsLawful self.new }
        ensures leads { LeadsTo self.old self.new }
        ensures recorded { OnOk result (self.new ≡ record self.old {
          journal = self.old.journal ++ events.Decide job.position outcome ∷ [];
        }) }
        ensures claim { IfOk result (λ recorded. recorded.claim ≡ job.claim) }
        ensures back { IfErr result
            (λ refused. (refused.value.job ≡ job) × (refused.value.outcome ≡ outcome)) }
        ensures refused { OnErr result (self.new ≡ self.old) }
    {
        // proof: each call keeps the journal valid.
        gate_keeps_lawful();
        let left = after(job.acc, outcome.outcome()).unwrap();
        if self.journal.reserve(1).is_err() {
            return Err(Refused {
                fault: FinishFault::OutOfMemory,
                value: DecidedJob { job, outcome },
            });
        }
        let position = job.position;
        if self.lanes.decide(position, left).is_err() {
            return Err(Refused {
                fault: FinishFault::OutOfMemory,
                value: DecidedJob { job, outcome },
            });
        }
        self.decisions += 1;
        append(&mut self.journal, Event::Decide { position, outcome });
        Ok(Recorded { claim: job.claim })
    }

    /// Stops the gate. From then on `offer`, `end`, `take` and `finish` report that it is stopped and change nothing. The
    /// journal is not changed.
    pub fn stop(&mut self)
        ensures stopped { self.new ≡ record self.old { stopped = true } }
        ensures lawful { IsLawful self.new }
    {
        self.stopped = true;
    }

    /// Returns the progress of the gate.
    pub fn counts(&self) -> Counts
        ensures { (T : AnyTerms) → AreCounts (at T self.now) result.accepted result.ended
            result.decided result.closed result.stopped }
    {
        Counts {
            accepted: self.lanes.len(),
            ended: self.intakes.ended_count(),
            decided: self.decisions,
            closed: self.closed,
            stopped: self.stopped,
        }
    }

    /// Returns whether the journal is closed and each accepted claim is decided.
    pub(crate) fn is_over(&self) -> bool
        ensures { IsTrue result ↔ IsOver self.now.journal }
    {
        self.closed && self.decisions == self.lanes.len()
    }
}

// Returns the accumulators at which a ready claim is decided. The opening balance is looked up only where the member or the
// family has no earlier claim in the year.
fn start_of(terms: &Terms, picked: &ReadyClaim) -> Acc
    ensures { result ≡ started
        (opening (accounts_of terms.now.balances) (account_of terms.now.plan picked.now.claim))
        picked.now.own picked.now.family_year }
{
    if picked.has_begun() {
        return picked.start(Acc::zero());
    }
    let opening = terms.opening(picked.claim.as_claim());
    picked.start(opening)
}

// Appends the close to the journal where it is due. Returns whether it is due.
fn close_if_due(journal: &mut Vec<Event>, terms: &Terms, accepted: usize, intakes: &Intakes) -> bool
    requires { vec_len journal.old < vec_capacity journal.old }
    ensures due { result ≡ is_due terms.now accepted intakes.now }
    ensures journal { journal.new.items ≡ cond result
        (journal.old.items ++ events.Close ∷ []) journal.old.items }
{
    let due = is_reached(terms.cutoff(), accepted) || intakes.all_ended();
    if due {
        append(journal, Event::Close);
    }
    due
}

// Returns whether the number of accepted claims is the cutoff.
fn is_reached(cutoff: Option<u64>, accepted: usize) -> bool
    ensures { result ≡ reached cutoff accepted }
{
    cutoff == Some(accepted as u64)
}

// Appends an event to the journal, which has room for it.
fn append(journal: &mut Vec<Event>, event: Event)
    requires { vec_len journal.old < vec_capacity journal.old }
    ensures items { journal.new.items ≡ journal.old.items ++ event ∷ [] }
    ensures len { vec_len journal.new ≡ vec_len journal.old + 1 }
    ensures capacity { vec_capacity journal.old ≤ vec_capacity journal.new }
{
    match journal.push(event) {
        Ok(()) => {}
        Err(_) => unreachable!(),
    }
}
