//! The determination of a claim: the part of its outcome that depends neither on the billed amount
//! nor on the accumulators.
ghost use Rattle.std.specs.Prelude.{◌≡◌, IfOk};
ghost use Rattle.settlement.specs.Settlement.{amounts, outcome_from, paid_outcome, within_range};

use crate::acc::Acc;
use crate::amounts::amounts_of;
use crate::cost_sharing::CostSharing;
use crate::money::Money;
use crate::outcome::Outcome;
use crate::remarks::Remarks;
use faults::Reason;
use std::alloc::AllocError;

/// The coverage decision that a plan's tables and roles make for a claim.
pub enum Determination {
    /// The claim is pended for review by a person.
    Pended(Reason),
    /// The claim is not covered, and has these remarks.
    Denied(Remarks),
    /// The claim is covered with this cost sharing, and has these remarks.
    Covered(CostSharing, Remarks),
}

impl Drop for Determination {
    #[inline]
    fn drop(self) {
        match self {
            Determination::Pended(_) => {}
            Determination::Denied(_) => {}
            Determination::Covered(_, _) => {}
        }
    }
}

impl Determination {
    /// Returns the outcome of a claim from its billed amount and the accumulators before it.
    pub fn outcome(&self, billed: Money, acc: &Acc) -> Result<Outcome, AllocError>
        ensures { IfOk result (λ decided. decided ≡ outcome_from billed acc.now self.now) }
    {
        match self {
            Determination::Pended(reason) => Ok(Outcome::pended_outcome(*reason)),
            Determination::Denied(remarks) => Ok(Outcome::denied_outcome(remarks.share()?)),
            Determination::Covered(terms, remarks) => covered_outcome(billed, acc, terms, remarks),
        }
    }
}

fn covered_outcome(
    billed: Money,
    acc: &Acc,
    terms: &CostSharing,
    remarks: &Remarks,
) -> Result<Outcome, AllocError>
    ensures { IfOk result (λ decided.
        decided ≡ within_range acc.now
        (paid_outcome (amounts billed terms.now acc.now) remarks.now)) }
{
    let amounts = amounts_of(billed, *terms, *acc);
    let acc = *acc;
    if acc.plus(amounts.ded, amounts.share, amounts.paid).is_none() {
        return Ok(Outcome::pended_outcome(Reason::Range { table: 0 }));
    }
    Ok(Outcome::paid_outcome(amounts, remarks.share()?))
}
