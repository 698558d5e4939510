//! The explanation of all claims of a family.
ghost use Rattle.std.specs.Prelude.{◌≡◌, ◌≢◌, ◌++◌, flat_map, IfOk, OnOk, option_map};
ghost use Rattle.settlement.specs.Claim.{IsClaimOf};
ghost use Rattle.journal.specs.declared.order.Order.TheVariants.{Any};
ghost use Rattle.explanation.specs.FamilyExplanation.{IsFamilyTextOver};
ghost use Rattle.explanation.specs.Explanation.{facts_of_case};
ghost use Rattle.explanation.specs.Facts.{fact_text};

use crate::claim_facts::{claims_fit, facts_of_case};
use crate::format::{Format, append_facts, head_of};
use crate::search::{Reached, Step, Walk};
use claim_gate::{Terms, claim_lists_exist};
use cutplan::{CutPlan, compile};
use journal::due_claim_stays_in_order;
use settlement::Adjudicator;
use std::alloc::{AllocError, Global};

/// Returns the text of the explanation, or `None` if no file has a claim of the family.
pub(crate) fn family_text(
    alloc: Global,
    terms: &Terms,
    family: &str,
    format: Format,
) -> Result<Option<Vec<u8>>, AllocError>
    requires { terms.now.order ≢ Any }
    ensures { IfOk result (λ text. IsFamilyTextOver terms.now family.now format
        (option_map (λ t. t.items) text)) }
{
    // proof: a claim that is due stays in the order, and the claim files have lists of claims
    due_claim_stays_in_order();
    claim_lists_exist(terms);
    claims_fit(terms);
    let plan = compile(alloc, terms.plan())?;
    let mut adjudicator = Adjudicator::new(alloc, &plan)?;
    let mut walk = Walk::new(alloc, terms)?;
    let mut text = Vec::from_slice(alloc, head_of(format))?;
    let mut is_found = false;
    'claims: loop {
        let step = walk.step(alloc, terms, &mut adjudicator, family)?;
        match step {
            Step::NoneLeft => {
                if !is_found {
                    return Ok(None);
                }
                return Ok(Some(text));
            }
            Step::Other => {}
            Step::OfFamily(reached) => {
                append_reached(alloc, &mut text, terms, &mut adjudicator, &reached, format)?;
                is_found = true;
            }
        }
    }
}

fn append_reached<'v, 'p>(
    alloc: Global,
    text: &mut Vec<u8>,
    terms: &Terms,
    adjudicator: &mut Adjudicator<'v, CutPlan<'p>>,
    reached: &Reached,
    format: Format,
) -> Result<(), AllocError>
    requires plan { adjudicator.old ≡ terms.now.plan }
    requires likely { ¬ ¬ IsClaimOf terms.now.plan reached.now.offer.claim }
    ensures text { OnOk result (text.new.items ≡ text.old.items ++ flat_map (fact_text format)
        (facts_of_case terms.now reached.now.offer.provider reached.now.number
        reached.now.offer.claim reached.now.case)) }
    ensures plan { OnOk result (adjudicator.new ≡ adjudicator.old) }
{
    let provider = reached.offer.provider;
    let claim = reached.offer.claim.as_claim();
    let number = reached.number;
    let facts = facts_of_case(
        alloc,
        terms,
        adjudicator,
        provider,
        number,
        claim,
        reached.case,
    )?;
    append_facts(alloc, text, format, facts.as_slice())
}
