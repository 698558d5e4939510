//! Laws of terms, which proofs cite. Each function does nothing when it runs.
ghost use Rattle.claim_gate.specs.Families.{FamiliesOfTexts};
ghost use Rattle.claim_gate.specs.Terms.{ForTerms};

use crate::terms::Terms;
use intake_csv::files_have_rows;
use journal::families_are_their_members;

/// For all terms there are lists of claims that the files contain: each record of a file is a claim or is refused.
pub fn claim_lists_exist(terms: &Terms)
    ensures { ¬ ForTerms terms.now (λ _. ⊥) }
{
    // proof: each file has its rows.
    files_have_rows();
    let _plan = terms.plan();
}

/// Under the terms of given texts the accumulators of a family, before each position of each journal, are the sums over its
/// members. So they are in the journal of each remittance of the texts.
pub fn families_of_texts_are_their_members()
    ensures { FamiliesOfTexts }
{
    // proof: this holds of terms in which no two balances are those of one account.
    families_are_their_members();
}
