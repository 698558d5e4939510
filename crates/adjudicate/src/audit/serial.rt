//! A run of one thread, which decides each claim before it offers the next one.
ghost use Rattle.std.specs.Prelude.{◌≡◌, ◌≢◌, ◌+◌, ◌<◌, ◌≤◌, ◌^◌, true, IfOk, IsSome, OnOk, length};
ghost use Rattle.tables.specs.Plan.{IsPlan};
ghost use Rattle.settlement.specs.Claim.{IsClaimOf};
ghost use Rattle.journal.specs.Events.{accepts, closed, places};
ghost use Rattle.journal.specs.Gate.{LeadsTo};
ghost use Rattle.journal.specs.InOrder.{AreFirstInOrder};
ghost use Rattle.journal.specs.Lawful.{Finished};
ghost use Rattle.journal.specs.Settled.{outcome_of as settled_outcome};
ghost use Rattle.journal.specs.declared.order.Order.TheVariants.{Any};
ghost use Rattle.claim_gate.specs.Replies.{HasClaims, IsFiled};
ghost use Rattle.claim_gate.specs.Shared.{IsDueAt};
ghost use Rattle.claim_gate.specs.Terms.{ForTerms};
ghost use Rattle.adjudicate.specs.Settling.{AcceptsNone, AreAccepted, AreAllGiven, HasOffered, HasTaken, IsIdle, OffersNext, SettlesNext, is_past};

use claim_gate::{
    Batch, EndFault, FinishFault, GateState, Job, Offer, OfferFault, Taken, Terms,
    claim_lists_exist,
};
use cutplan::CutPlan;
use intake_csv::claims_have_the_plan_s_fields;
use journal::{BoxedOutcome, jobs_are_stable};
use ordered_claims::OrderedClaims;
use settlement::Adjudicator;
use std::alloc::{AllocError, Global};

/// Settles the claims of the files in the order of the terms, and returns the finished run. The plan
/// is that of the terms, compiled. The caller's thread does all the work, and decides each claim
/// before it offers the next one, so that it never holds more than one claim of each file and the one
/// that it decides. The only error is that memory runs out.
pub fn decide_all<'t>(
    alloc: Global,
    terms: &'t Terms,
    plan: &CutPlan,
) -> Result<Batch<'t>, AllocError>
    requires plan { plan.now ≡ terms.now.plan }
    ensures terms { IfOk result (λ batch. batch.terms ≡ terms.now) }
    ensures finished { IfOk result (λ batch. ForTerms terms.now (λ T. Finished T batch.journal)) }
    ensures ordered { IfOk result (λ batch. terms.now.order ≢ Any → ForTerms terms.now
        (λ T. AreFirstInOrder terms.now.order T.files (accepts batch.journal))) }
{
    // proof: the claim files have lists of claims, so a statement about all such lists is not empty
    claim_lists_exist(terms);
    let mut gate = GateState::new(alloc, terms)?;
    // proof: the journal of a new gate is lawful
    let _new = gate.journal();
    let mut claims = OrderedClaims::new(alloc, terms)?;
    let mut adjudicator = Adjudicator::new(alloc, plan)?;
    settle_all(alloc, terms, &mut claims, &mut gate, &mut adjudicator)?;
    // proof: claims are accepted in the order that the terms ask for
    let _ordered = gate.journal();
    match Batch::from_state(gate, terms) {
        Ok(batch) => Ok(batch),
        Err(_) => unreachable!(),
    }
}

// Offers and decides claim after claim until no more are accepted. After the last claim of the files
// it ends the providers.
fn settle_all<'v, 'p>(
    alloc: Global,
    terms: &Terms,
    claims: &mut OrderedClaims<'_>,
    gate: &mut GateState<'_>,
    adjudicator: &mut Adjudicator<'v, CutPlan<'p>>,
) -> Result<(), AllocError>
    requires idle { IsIdle gate.old }
    requires terms { gate.old.terms ≡ terms.now }
    requires of_terms { claims.old.terms ≡ terms.now }
    requires accepted { AreAccepted claims.old gate.old.journal }
    requires plan { adjudicator.old ≡ terms.now.plan }
    ensures idle { OnOk result (IsIdle gate.new) }
    ensures terms { OnOk result (gate.new.terms ≡ terms.now) }
    ensures over { OnOk result (closed gate.new.journal ≡ true) }
{
    'offers: loop {
        let Some(offer) = claims.next()? else {
            return end_all(terms, claims, gate);
        };
        if !settle_next(alloc, terms, gate, adjudicator, offer)? {
            return Ok(());
        }
    }
}

// Offers the next claim of a provider, and decides it if it is accepted. Returns whether it is. It is
// not if the journal is closed.
fn settle_next<'v, 'p>(
    alloc: Global,
    terms: &Terms,
    gate: &mut GateState<'_>,
    adjudicator: &mut Adjudicator<'v, CutPlan<'p>>,
    offer: Offer,
) -> Result<bool, AllocError>
    requires idle { IsIdle gate.old }
    requires terms { gate.old.terms ≡ terms.now }
    requires plan { adjudicator.old ≡ terms.now.plan }
    requires filed { ForTerms terms.now (λ T. IsFiled T offer) }
    requires next { offer.place ≡ length (places gate.old.journal offer.provider) }
    requires due { IsDueAt gate.old offer.provider offer.place }
    ensures settled { IfOk result (SettlesNext gate.old gate.new offer.provider) }
    ensures plan { adjudicator.new ≡ adjudicator.old }
{
    if !offer_next(gate, offer)? {
        return Ok(false);
    }
    let job = take_next(terms, gate)?;
    let outcome = outcome_of(alloc, terms, adjudicator, &job)?;
    record(gate, job, outcome)?;
    Ok(true)
}

// Offers the next claim of a provider. Returns whether it is accepted. It is not if the journal is
// closed.
fn offer_next(gate: &mut GateState<'_>, offer: Offer) -> Result<bool, AllocError>
    requires idle { IsIdle gate.old }
    requires filed { ForTerms gate.old.terms (λ T. IsFiled T offer) }
    requires next { offer.place ≡ length (places gate.old.journal offer.provider) }
    requires due { IsDueAt gate.old offer.provider offer.place }
    ensures { IfOk result (OffersNext gate.old gate.new offer.provider) }
{
    let refused = match gate.offer(offer) {
        Ok(_) => return Ok(true),
        Err(refused) => refused,
    };
    match refused.fault {
        OfferFault::Closed => Ok(false),
        OfferFault::OutOfMemory => Err(AllocError),
        OfferFault::OutOfTurn { .. } => unreachable!(),
        OfferFault::Stopped => unreachable!(),
    }
}

// Takes the last accepted claim.
fn take_next(terms: &Terms, gate: &mut GateState<'_>) -> Result<Job, AllocError>
    requires terms { gate.old.terms ≡ terms.now }
    requires offered { HasOffered gate.old }
    ensures taken { IfOk result (HasTaken gate.new) }
    ensures none { OnOk result (AcceptsNone gate.old gate.new) }
{
    // proof: a job stays one, and the claims of a valid plan's files have the plan's fields
    jobs_are_stable();
    claims_have_the_plan_s_fields();
    let _names = terms.plan().names();
    match gate.take() {
        Ok(Taken::Work(job)) => Ok(job),
        Ok(Taken::Over) => unreachable!(),
        Ok(Taken::NothingReady) => unreachable!(),
        Ok(Taken::Stopped) => unreachable!(),
        Err(_) => Err(AllocError),
    }
}

// Decides a claim.
fn outcome_of<'v, 'p>(
    alloc: Global,
    terms: &Terms,
    adjudicator: &mut Adjudicator<'v, CutPlan<'p>>,
    job: &Job,
) -> Result<BoxedOutcome, AllocError>
    requires plan { adjudicator.old ≡ terms.now.plan }
    requires fields { IsClaimOf terms.now.plan job.now.claim }
    ensures outcome { IfOk result
        (λ decided. decided ≡ settled_outcome terms.now.plan job.now.claim job.now.acc) }
    ensures plan { adjudicator.new ≡ adjudicator.old }
{
    // proof: the plan has roles
    let _plan = terms.plan();
    let decided = adjudicator.decide(alloc, job.claim.as_claim(), job.acc)?;
    Ok(BoxedOutcome::new(alloc, decided)?)
}

// Records the outcome of the claim in work.
fn record(gate: &mut GateState<'_>, job: Job, decided: BoxedOutcome) -> Result<(), AllocError>
    requires taken { HasTaken gate.old job }
    requires settled { decided ≡ settled_outcome gate.old.terms.plan job.claim job.acc }
    ensures idle { OnOk result (IsIdle gate.new) }
    ensures none { OnOk result (AcceptsNone gate.old gate.new) }
{
    let refused = match gate.finish(job, decided) {
        Ok(_) => return Ok(()),
        Err(refused) => refused,
    };
    match refused.fault {
        FinishFault::OutOfMemory => Err(AllocError),
        FinishFault::AlreadyDecided => unreachable!(),
        FinishFault::Stopped => unreachable!(),
    }
}

// Ends each provider, after which the journal is closed.
fn end_all(
    terms: &Terms,
    claims: &OrderedClaims<'_>,
    gate: &mut GateState<'_>,
) -> Result<(), AllocError>
    requires idle { IsIdle gate.old }
    requires terms { gate.old.terms ≡ terms.now }
    requires of_terms { claims.now.terms ≡ terms.now }
    requires accepted { AreAccepted claims.now gate.old.journal }
    requires all { AreAllGiven claims.now }
    ensures idle { OnOk result (IsIdle gate.new) }
    ensures terms { OnOk result (gate.new.terms ≡ terms.now) }
    ensures over { OnOk result (closed gate.new.journal ≡ true) }
{
    let files = terms.files().len();
    for place in 0..files {
        let provider = place + 1;
        end(gate, provider, claims.given_count(provider))?;
    }
    Ok(())
}

// Ends a provider of which all `count` claims are accepted, unless the journal is closed.
fn end(gate: &mut GateState<'_>, provider: usize, count: usize) -> Result<(), AllocError>
    requires idle { IsIdle gate.old }
    requires claims { ForTerms gate.old.terms (λ T. HasClaims T provider count) }
    requires accepted { count ≡ length (places gate.old.journal provider) }
    ensures idle { OnOk result (IsIdle gate.new) }
    ensures none { OnOk result (AcceptsNone gate.old gate.new) }
    ensures past { OnOk result (is_past gate.new provider ≡ true) }
    ensures leads { LeadsTo gate.old gate.new }
{
    match gate.end(provider, count) {
        Ok(_) => Ok(()),
        Err(EndFault::Closed) => Ok(()),
        Err(EndFault::AlreadyEnded) => Ok(()),
        Err(EndFault::OutOfMemory) => Err(AllocError),
        Err(EndFault::OutOfTurn { .. }) => unreachable!(),
        Err(EndFault::Stopped) => unreachable!(),
    }
}
