//! The opening balances of members, and the benefit year of a claim.
ghost use Rattle.std.specs.Prelude.{◌≡◌};
ghost use Rattle.settlement.specs.Accounts.{account_year};

use crate::acc::Acc;
use crate::claim::Claim;
use crate::money::Money;
use feel_tests::day_year;
use tables::Plan;

/// The opening balance of a member in a benefit year.
#[derive(Clone, Copy)]
pub struct Balance {
    /// The amount that the member has met of its deductible.
    pub met: Money,
    /// The amount that the member has paid out of pocket.
    pub oop: Money,
    /// The amount that the plan has paid.
    pub paid: Money,
}

impl Balance {
    ghost use Rattle.settlement.specs.Opening.{begun_beside, no_balance};

    /// Returns the balance whose amounts are all zero.
    pub fn zero() -> Balance
        ensures { result ≡ no_balance }
    {
        Balance {
            met: Money::zero(),
            oop: Money::zero(),
            paid: Money::zero(),
        }
    }

    /// Returns the accumulators of a member with this balance. `fmet` and `foop` are the sums of
    /// its family.
    pub fn with_family(self, fmet: Money, foop: Money) -> Acc
        ensures { result ≡ begun_beside fmet foop self }
    {
        Acc {
            met: self.met,
            oop: self.oop,
            paid: self.paid,
            fmet,
            foop,
        }
    }
}

/// Returns the benefit year whose accumulators apply to a claim: the calendar year of its service,
/// or 0 if the plan does not keep accumulators by benefit year.
pub fn account_year(plan: &Plan, claim: &Claim) -> u16
    ensures { result ≡ account_year plan.now claim.now }
{
    if plan.keeps_years() {
        day_year(claim.service.epoch_day())
    } else {
        0
    }
}
