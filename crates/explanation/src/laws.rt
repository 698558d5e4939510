//! Laws of explanations. The calls have no effect.
ghost use Rattle.explanation.specs.Laws.{ExplanationEndsWithItsRecord, FoundClaimHasRecord};

use dtable::text_spells_at_most_one_plan;
use feel_tests::field_spells_at_most_one_value;
use intake_csv::files_have_rows;
use journal::{finished_takes_all, order_leaves_no_choice};

/// The explanation of a record in an order ends with the record of the remittance of the same texts in
/// this order.
pub fn explanation_ends_with_its_record()
    ensures { ExplanationEndsWithItsRecord }
{
    // proof: a text denotes at most one plan, and a field at most one value; the number of claims that a
    // finished journal accepts; an order leaves no choice
    text_spells_at_most_one_plan();
    field_spells_at_most_one_value();
    finished_takes_all();
    order_leaves_no_choice();
}

/// The record of a claim that is found is not missing in an explanation of texts with the same plan and
/// files.
pub fn found_claim_has_a_record()
    ensures { FoundClaimHasRecord }
{
    // proof: a text denotes at most one plan, and each file has its rows
    text_spells_at_most_one_plan();
    files_have_rows();
}
