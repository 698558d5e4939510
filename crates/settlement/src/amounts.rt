//! The amounts of a covered claim.
ghost use Rattle.std.specs.Prelude.{◌≡◌, ◌+ℤ◌, ◌≤ℤ◌};
ghost use Rattle.settlement.specs.Settlement.{amounts, family_deductible, family_oop_max, within_limit};

use crate::acc::Acc;
use crate::cost_sharing::CostSharing;
use crate::money::Money;

/// The allowed amount of a covered claim, and how the member and the plan share it.
#[derive(Clone, Copy)]
pub struct Amounts {
    pub allowed: Money,
    pub ded: Money,
    pub copay: Money,
    pub coins: Money,
    pub share: Money,
    pub paid: Money,
}

/// Returns the amounts of a covered claim from its billed amount, its cost sharing and the
/// accumulators before it.
pub fn amounts_of(billed: Money, terms: CostSharing, acc: Acc) -> Amounts
    ensures { result ≡ amounts billed terms acc }
{
    let allowed = billed.min(terms.fee);
    let open_deductible = allowed.min(terms.deductible.remaining(acc.met));
    let ded = within_limit(open_deductible, family_deductible(&terms), acc.fmet);
    let after_deductible = allowed.minus(ded);
    let copay = after_deductible.min(terms.copay);
    let after_copay = after_deductible.minus(copay);
    let coins = after_copay.part(terms.rate);
    let cost_share = cost_share(allowed, ded, copay, coins);
    let capped_share = cost_share.min(terms.oop_max.remaining(acc.oop));
    let share = within_limit(capped_share, family_oop_max(&terms), acc.foop);
    Amounts {
        allowed,
        ded,
        copay,
        coins,
        share,
        paid: allowed.minus(share),
    }
}

// Returns the amount, but at most what remains of the family's limit after the `used` part of it.
fn within_limit(amount: Money, limit: Option<Money>, used: Money) -> Money
    ensures value { result ≡ within_limit limit used amount }
    ensures within { result ≤ℤ amount }
{
    match limit {
        Some(limit) => amount.min(limit.remaining(used)),
        None => amount,
    }
}

fn family_deductible(terms: &CostSharing) -> Option<Money>
    ensures { result ≡ family_deductible terms.now }
{
    match &terms.family {
        Some(family) => Some(family.deductible),
        None => None,
    }
}

fn family_oop_max(terms: &CostSharing) -> Option<Money>
    ensures { result ≡ family_oop_max terms.now }
{
    match &terms.family {
        Some(family) => Some(family.oop_max),
        None => None,
    }
}

// Returns the member's cost share before the out-of-pocket maximum. It is computed by subtraction
// from the allowed amount, since the addition of amounts may fail.
fn cost_share(allowed: Money, ded: Money, copay: Money, coins: Money) -> Money
    requires { (ded +ℤ copay +ℤ coins) ≤ℤ allowed }
    ensures value { result ≡ ded +ℤ copay +ℤ coins }
    ensures within { result ≤ℤ allowed }
{
    let rest = allowed.minus(ded).minus(copay).minus(coins);
    allowed.minus(rest)
}
