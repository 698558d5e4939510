//! The outcomes of claims.
ghost use Rattle.std.specs.Prelude.{◌≡◌, []};
ghost use Rattle.settlement.specs.Settlement.{paid_outcome, unpaid_outcome, pended_outcome, denied_outcome};

use crate::amounts::Amounts;
use crate::money::Money;
use crate::remarks::Remarks;
use faults::Reason;

/// The decision on a claim.
#[derive(Clone, Copy, Debug, Drop)]
pub enum Verdict {
    /// The claim is covered, and its amounts state who pays what.
    Paid,
    /// The claim is not covered.
    Denied,
    /// The claim needs review by a person, for this reason.
    Pended(Reason),
}

/// The outcome of a claim: its verdict, its amounts, which are all zero unless the claim is paid,
/// and its remarks.
pub struct Outcome {
    pub verdict: Verdict,
    /// The allowed amount: at most the billed amount.
    pub allowed: Money,
    /// The part of the allowed amount that counts against the deductible.
    pub ded: Money,
    /// The copay.
    pub copay: Money,
    /// The coinsurance.
    pub coins: Money,
    /// The member's cost share: deductible, copay and coinsurance, at most what remains of the
    /// out-of-pocket maximum.
    pub share: Money,
    /// The amount that the plan pays: the rest of the allowed amount.
    pub paid: Money,
    /// The remarks of the plan's tables. A pended claim has none.
    pub remarks: Remarks,
}

impl Drop for Outcome {
    #[inline]
    fn drop(self) {
        let Outcome {
            verdict: _,
            allowed: _,
            ded: _,
            copay: _,
            coins: _,
            share: _,
            paid: _,
            remarks: _,
        } = self;
    }
}

impl Outcome {
    /// Returns the outcome of a paid claim.
    pub(crate) fn paid_outcome(amounts: Amounts, remarks: Remarks) -> Outcome
        ensures { result ≡ paid_outcome amounts remarks }
    {
        Outcome {
            verdict: Verdict::Paid,
            allowed: amounts.allowed,
            ded: amounts.ded,
            copay: amounts.copay,
            coins: amounts.coins,
            share: amounts.share,
            paid: amounts.paid,
            remarks,
        }
    }

    /// Returns the outcome of a denied claim.
    pub(crate) fn denied_outcome(remarks: Remarks) -> Outcome
        ensures { result ≡ denied_outcome remarks }
    {
        unpaid_outcome(Verdict::Denied, remarks)
    }

    /// Returns the outcome of a pended claim.
    pub(crate) fn pended_outcome(reason: Reason) -> Outcome
        ensures { result ≡ pended_outcome reason }
    {
        unpaid_outcome(Verdict::Pended(reason), Remarks::none())
    }
}

fn unpaid_outcome(verdict: Verdict, remarks: Remarks) -> Outcome
    ensures { result ≡ unpaid_outcome verdict remarks }
{
    Outcome {
        verdict,
        allowed: Money::zero(),
        ded: Money::zero(),
        copay: Money::zero(),
        coins: Money::zero(),
        share: Money::zero(),
        paid: Money::zero(),
        remarks,
    }
}
