//! Laws of closing balances, to be cited by other proofs. The calls have no effect.
ghost use Rattle.run_lists.specs.CarryingOn.{CarriesOn, ClosesAlike};
ghost use Rattle.run_lists.specs.ReadingBack.{ClosingTextReadsBack};

use fixpoint::{money_text_denotes, text_denotes_at_most_one};

/// Take a run whose claims are accepted in two parts. A run over the second part that begins with
/// the closing balances of a run over the first part decides each claim as the whole run does, and
/// has the closing balances of the whole run.
pub fn closing_balances_carry_on()
    ensures decides { CarriesOn }
    ensures closes { ClosesAlike }
{}

/// The text of closing balances is a file of balances: a run under the same plan that opens with it
/// begins with what the accounts have after the last claim.
pub fn closing_text_reads_back()
    ensures { ClosingTextReadsBack }
{
    // proof: a text of money denotes its amount, and no other one
    money_text_denotes();
    text_denotes_at_most_one();
}
