//! The sums of the amounts over a journal's paid claims.
ghost use Rattle.std.specs.Prelude.{◌≡◌, ◌≤◌, ◌<◌, ◌+◌, ◌^◌, pos, ◌+ℤ◌, ℕ, List, [], ◌∷◌, length};
ghost use Rattle.fixpoint.specs.Number.{greatest_units};
ghost use Rattle.remit_records.specs.Decided.{paid_by, paid_in, paid_outcomes, sum_of};
ghost use Rattle.journal.specs.declared.event.Event.{Event as AnyEvent};
ghost use Rattle.remit_records.specs.Amounts.{amount_of};
ghost use Rattle.remit_records.specs.declared.amount.Amount.TheVariants.{Paid};
ghost use Rattle.remit_records.specs.Looked.{AreGrown, AreSums, HaveRoom};

use crate::amount::AMOUNTS;
use journal::Event;
use settlement::{Money, Outcome, Verdict};

/// The sums of the amounts over paid claims, in units and in the order of the amounts. The sums of
/// the longest possible journal fit 128 bits.
#[derive(Clone, Copy)]
pub struct Sums {
    units: [u128; AMOUNTS.len()],
}

impl Sums {
    /// Returns the sums over the paid claims of a journal.
    pub fn over(journal: &[Event]) -> Sums
        ensures { AreSums journal.now (length journal.now) result }
    {
        let mut sums = Sums {
            units: [0; AMOUNTS.len()],
        };
        for event in journal {
            sums = sums.with(event);
        }
        sums
    }

    /// Returns the sums in the order of the amounts.
    pub fn as_slice(&self) -> &[u128]
        ensures { result.now ≡ self.now.units }
    {
        &self.units
    }

    /// Returns the sum of the amounts that the plan pays, in units.
    pub fn paid(&self) -> u128
        ensures { (J : List AnyEvent) (count : ℕ) → AreSums J count self.now
            → pos result ≡ sum_of (amount_of Paid) (paid_outcomes J) }
    {
        self.units[AMOUNTS.len() - 1]
    }

    // Adds the amounts of the event's outcome if the event decides a claim and the claim is paid.
    fn with(self, event: &Event) -> Sums
        requires { HaveRoom self }
        ensures { AreGrown (paid_in event.now) self result }
    {
        let Event::Decide { outcome, .. } = event else {
            return self;
        };
        self.with_outcome(outcome.outcome())
    }

    fn with_outcome(self, decision: &Outcome) -> Sums
        requires { HaveRoom self }
        ensures { AreGrown (paid_by decision.now.verdict decision.now) self result }
    {
        let Verdict::Paid = decision.verdict else {
            return self;
        };
        self.with_paid(decision)
    }

    fn with_paid(self, decision: &Outcome) -> Sums
        requires { HaveRoom self }
        ensures { AreGrown (decision.now ∷ []) self result }
    {
        let mut units = self.units;
        for (place, amount) in AMOUNTS.iter().enumerate() {
            units[place] = plus(units[place], amount.of(decision));
        }
        Sums { units }
    }
}

fn plus(sum: u128, amount: Money) -> u128
    requires { sum + greatest_units < 2 ^ 128 }
    ensures value { pos result ≡ pos sum +ℤ amount }
    ensures bound { result ≤ sum + greatest_units }
{
    sum + u128::from(amount.amount().units().unsigned_abs())
}
