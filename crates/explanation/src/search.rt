//! The walk through the claims of all files in the order of acceptance: only the claims of one family
//! are settled.
ghost use Rattle.std.specs.Prelude.{◌≡◌, ◌≢◌, ◌≤◌, ◌==◌, ◌&&◌, [], Some, length, IfOk, OnOk};
ghost use Rattle.settlement.specs.Claim.{IsClaimOf};
ghost use Rattle.journal.specs.Events.{claim_filed};
ghost use Rattle.journal.specs.declared.order.Order.TheVariants.{Any};
ghost use Rattle.claim_gate.specs.Terms.{ForTerms};
ghost use Rattle.ordered_claims.specs.OrderedParts.{BeginsUnder};
ghost use Rattle.explanation.specs.Cases.{IsCase, filed_of};
ghost use Rattle.explanation.specs.Walking.{AreReaders, ClaimsFit, IsSettledAs, IsStep};

use crate::family::{LastClaim, Standing, settle};
use crate::numbers::{number_of, readers_of};
use crate::row::Place;
use claim_gate::{Offer, Terms, claim_lists_exist};
use cutplan::CutPlan;
use intake_csv::Rows;
use journal::due_claim_stays_in_order;
use ordered_claims::OrderedClaims;
use settlement::{Adjudicator, Claim};
use std::alloc::{AllocError, Global};

/// The claim that is explained: its provider, from 1, its place among the claims of the provider's
/// file, from 0, and the claim.
#[derive(Clone, Copy)]
pub(crate) struct Wanted<'c> {
    pub(crate) provider: usize,
    pub(crate) place: usize,
    pub(crate) claim: &'c Claim,
}

/// Whether a claim is accepted.
#[derive(Clone, Copy)]
pub(crate) enum Case {
    /// The claim is accepted at a position, from 0, and its account has this before it.
    Accepted { position: usize, before: Standing },
    /// The cutoff admits only claims that come before it.
    Late { cutoff: u64 },
}

/// A claim of the family that the walk has come to: its offer, the number of its record, and whether it
/// is accepted.
pub(crate) struct Reached {
    pub(crate) offer: Offer,
    pub(crate) number: usize,
    pub(crate) case: Case,
}

impl Drop for Reached {
    fn drop(self) {
        let Reached {
            offer: _,
            number: _,
            case: _,
        } = self;
    }
}

/// A step of the walk.
#[derive(Drop)]
pub(crate) enum Step {
    /// All claims of all files are passed.
    NoneLeft,
    /// A claim of another family is passed.
    Other,
    /// A claim of the family is passed, and settled unless it is late.
    OfFamily(Reached),
}

/// The walk: the claims that are not passed yet, the number of those that are passed, readers of the
/// files for the numbers of records, and the last claim of each account of the family.
pub(crate) struct Walk<'t> {
    pub(crate) claims: OrderedClaims<'t>,
    pub(crate) position: usize,
    pub(crate) readers: Vec<Rows<'t>>,
    pub(crate) lasts: Vec<LastClaim>,
}

impl Drop for Walk<'_> {
    fn drop(self) {
        let Walk {
            claims: _,
            position: _,
            readers: _,
            lasts: _,
        } = self;
    }
}

impl<'t> Walk<'t> {
    /// Begins before the first claim of the order.
    pub(crate) fn new(alloc: Global, terms: &'t Terms) -> Result<Walk<'t>, AllocError>
        ensures start { IfOk result (λ walk. BeginsUnder terms.now walk.claims) }
        ensures position { IfOk result (λ walk. walk.position ≡ 0) }
        ensures lasts { IfOk result (λ walk. walk.lasts.items ≡ []) }
        ensures readers { IfOk result (λ walk. AreReaders terms.now walk.readers.items) }
    {
        let readers = readers_of(alloc, terms)?;
        let claims = OrderedClaims::new(alloc, terms)?;
        Ok(Walk {
            claims,
            position: 0,
            readers,
            lasts: Vec::new(alloc),
        })
    }

    /// Passes the next claim of the order, and settles it if it is one of the family and the cutoff
    /// admits it.
    pub(crate) fn step<'v, 'p>(
        &mut self,
        alloc: Global,
        terms: &Terms,
        adjudicator: &mut Adjudicator<'v, CutPlan<'p>>,
        family: &str,
    ) -> Result<Step, AllocError>
        requires plan { adjudicator.old ≡ terms.now.plan }
        requires terms { self.old.claims.terms ≡ terms.now }
        requires readers { AreReaders terms.now self.old.readers.items }
        requires fit { ClaimsFit terms.now }
        ensures step { IfOk result (IsStep terms.now family.now self.old self.new) }
        ensures readers { OnOk result (AreReaders terms.now self.new.readers.items) }
        ensures plan { OnOk result (adjudicator.new ≡ adjudicator.old) }
    {
        let Some(offer) = self.claims.next()? else {
            return Ok(Step::NoneLeft);
        };
        let position = self.position;
        // No memory has room for as many claims.
        self.position = position.checked_add(1).ok_or(AllocError)?;
        let claim = offer.claim.as_claim();
        if claim.family().as_str() != family {
            return Ok(Step::Other);
        }
        let provider = offer.provider;
        let number = number_of(alloc, terms, &mut self.readers, provider, offer.place)?;
        let place = Place { provider, number };
        let lasts = &mut self.lasts;
        let case = case_of(alloc, terms, adjudicator, lasts, position, place, claim)?;
        Ok(Step::OfFamily(Reached {
            offer,
            number,
            case,
        }))
    }
}

// Settles a claim of the family at a position, unless it is late.
fn case_of<'v, 'p>(
    alloc: Global,
    terms: &Terms,
    adjudicator: &mut Adjudicator<'v, CutPlan<'p>>,
    lasts: &mut Vec<LastClaim>,
    position: usize,
    place: Place,
    claim: &Claim,
) -> Result<Case, AllocError>
    requires plan { adjudicator.old ≡ terms.now.plan }
    requires likely { ¬ ¬ IsClaimOf terms.now.plan claim.now }
    ensures case { IfOk result
        (IsSettledAs terms.now position place claim.now lasts.old.items lasts.new.items) }
    ensures plan { OnOk result (adjudicator.new ≡ adjudicator.old) }
{
    if let Some(cutoff) = terms.cutoff() {
        if cutoff <= position as u64 {
            return Ok(Case::Late { cutoff });
        }
    }
    let before = settle(alloc, terms, adjudicator, lasts, place, claim)?;
    Ok(Case::Accepted { position, before })
}

/// Settles the claims of the family that come before a claim in the order of the terms, and this claim.
pub(crate) fn find_case<'v, 'p>(
    alloc: Global,
    terms: &Terms,
    adjudicator: &mut Adjudicator<'v, CutPlan<'p>>,
    wanted: &Wanted<'_>,
) -> Result<Case, AllocError>
    requires plan { adjudicator.old ≡ terms.now.plan }
    requires ordered { terms.now.order ≢ Any }
    requires fit { ClaimsFit terms.now }
    requires least { 1 ≤ wanted.now.provider }
    requires most { wanted.now.provider ≤ length terms.now.files }
    requires there { ForTerms terms.now
        (λ T. claim_filed T (filed_of wanted.now) ≡ Some wanted.now.claim.now) }
    ensures case { IfOk result (λ case. ForTerms terms.now
        (λ T. IsCase terms.now T (filed_of wanted.now) wanted.now.claim.now case)) }
    ensures plan { OnOk result (adjudicator.new ≡ adjudicator.old) }
{
    // proof: a claim that is due stays in the order, and the claim files have lists of claims
    due_claim_stays_in_order();
    claim_lists_exist(terms);
    let family = wanted.claim.family().as_str();
    let mut walk = Walk::new(alloc, terms)?;
    'claims: loop {
        let step = walk.step(alloc, terms, adjudicator, family)?;
        match step {
            Step::NoneLeft => unreachable!(),
            Step::Other => {}
            Step::OfFamily(reached) => {
                if is_at(&reached.offer, wanted) {
                    return Ok(reached.case);
                }
            }
        }
    }
}

fn is_at(offer: &Offer, wanted: &Wanted<'_>) -> bool
    ensures { result ≡ ((offer.now.provider == wanted.now.provider)
        && (offer.now.place == wanted.now.place)) }
{
    offer.provider == wanted.provider && offer.place == wanted.place
}
