//! The accounts of a family, as far as its claims are settled.
ghost use Rattle.std.specs.Prelude.{◌≡◌, ◌==◌, ◌&&◌, IfOk, IfSome, OnOk};
ghost use Rattle.std.specs.Str.{bytes_eq};
ghost use Rattle.settlement.specs.Claim.{IsClaimOf};
ghost use Rattle.settlement.specs.Settlement.{outcome};
ghost use Rattle.journal.specs.Places.{merge_acc};
ghost use Rattle.explanation.specs.Families.{Adds, IsOfAccountAt, left_after, merged, opened, present_for};

use crate::row::Place;
use claim_gate::Terms;
use cutplan::CutPlan;
use feel_tests::Text;
use settlement::{Acc, Adjudicator, Claim, Outcome, account_year, after};
use std::alloc::{AllocError, Global};

/// What an account has before a claim: its accumulators, and the record of its last claim, if there is
/// one.
#[derive(Clone, Copy)]
pub(crate) struct Standing {
    pub(crate) acc: Acc,
    pub(crate) last: Option<Place>,
}

/// The last claim of an account of the family: whose it is, the accumulators that it leaves, and its
/// record.
pub(crate) struct LastClaim {
    pub(crate) member: Text,
    pub(crate) year: u16,
    pub(crate) acc: Acc,
    pub(crate) place: Place,
}

impl Drop for LastClaim {
    fn drop(self) {
        let LastClaim {
            member: _,
            year: _,
            acc: _,
            place: _,
        } = self;
    }
}

/// Returns what the account of a claim of the family has before the claim. The accumulators are those
/// that the family's earlier claims have left.
pub(crate) fn standing_before(terms: &Terms, lasts: &[LastClaim], claim: &Claim) -> Standing
    ensures { result
        ≡ present_for terms.now.plan (opened terms.now) lasts.now claim.now }
{
    let year = account_year(terms.plan(), claim);
    let member = claim.member.as_str();
    let mut standing = Standing {
        acc: terms.opening(claim),
        last: None,
    };
    for last in lasts {
        let is_shared = last.year == year;
        let is_own = is_shared && last.member.as_str() == member;
        standing = merge(is_own, is_shared, last, standing);
    }
    standing
}

fn merge(is_own: bool, is_shared: bool, last: &LastClaim, standing: Standing) -> Standing
    ensures { result ≡ merged is_own is_shared last.now standing }
{
    Standing {
        acc: merge_acc(is_own, is_shared, last.acc, standing.acc),
        last: if is_own {
            Some(last.place)
        } else {
            standing.last
        },
    }
}

fn merge_acc(is_own: bool, is_shared: bool, left: Acc, acc: Acc) -> Acc
    ensures { result ≡ merge_acc is_own is_shared left acc }
{
    let own = if is_own { left } else { acc };
    let shared = if is_shared { left } else { acc };
    Acc {
        met: own.met,
        oop: own.oop,
        paid: own.paid,
        fmet: shared.fmet,
        foop: shared.foop,
    }
}

/// Settles a claim of the family, and keeps what it leaves.
pub(crate) fn settle<'v, 'p>(
    alloc: Global,
    terms: &Terms,
    adjudicator: &mut Adjudicator<'v, CutPlan<'p>>,
    lasts: &mut Vec<LastClaim>,
    place: Place,
    claim: &Claim,
) -> Result<Standing, AllocError>
    requires plan { adjudicator.old ≡ terms.now.plan }
    requires likely { ¬ ¬ IsClaimOf terms.now.plan claim.now }
    ensures before { IfOk result (λ before. before
        ≡ present_for terms.now.plan (opened terms.now) lasts.old.items claim.now) }
    ensures lasts { OnOk result (Adds lasts.old.items lasts.new.items
        (left_after terms.now.plan (opened terms.now) lasts.old.items place claim.now)) }
    ensures plan { adjudicator.new ≡ adjudicator.old }
{
    let before = standing_before(terms, lasts.as_slice(), claim);
    let decided = outcome_of(alloc, terms, adjudicator, claim, before.acc)?;
    let Some(acc) = after(before.acc, &decided) else {
        unreachable!();
    };
    let last = LastClaim {
        member: Text::new(alloc, claim.member.as_str())?,
        year: account_year(terms.plan(), claim),
        acc,
        place,
    };
    keep_last(lasts, last)?;
    Ok(before)
}

// Keeps the last claim of an account, in place of an earlier one of the same account.
#[tactic(auto, using(crate::proofs::Keeping::adds_again, crate::proofs::Keeping::adds_first))]
fn keep_last(lasts: &mut Vec<LastClaim>, last: LastClaim) -> Result<(), AllocError>
    ensures { OnOk result (Adds lasts.old.items lasts.new.items last) }
{
    let Some(index) = index_of(lasts.as_slice(), &last) else {
        lasts.push(last)?;
        return Ok(());
    };
    drop(lasts.remove(index));
    lasts.push(last)?;
    Ok(())
}

// Returns the index of the last claim of the same account, if there is one.
#[tactic(auto, using(crate::proofs::Keeping::found_account))]
fn index_of(lasts: &[LastClaim], last: &LastClaim) -> Option<usize>
    ensures { IfSome result (λ index. IsOfAccountAt lasts.now index last.now) }
{
    for index in 0..lasts.len() {
        if is_of_account(&lasts[index], last) {
            return Some(index);
        }
    }
    None
}

fn is_of_account(one: &LastClaim, other: &LastClaim) -> bool
    ensures { result ≡ ((one.now.year == other.now.year)
        && bytes_eq one.now.member other.now.member) }
{
    one.year == other.year && one.member.as_str() == other.member.as_str()
}

/// Decides a claim.
pub(crate) fn outcome_of<'v, 'p>(
    alloc: Global,
    terms: &Terms,
    adjudicator: &mut Adjudicator<'v, CutPlan<'p>>,
    claim: &Claim,
    acc: Acc,
) -> Result<Outcome, AllocError>
    requires plan { adjudicator.old ≡ terms.now.plan }
    requires likely { ¬ ¬ IsClaimOf terms.now.plan claim.now }
    ensures outcome { IfOk result (λ decided. decided ≡ outcome terms.now.plan claim.now acc) }
    ensures fits { OnOk result (IsClaimOf terms.now.plan claim.now) }
    ensures plan { adjudicator.new ≡ adjudicator.old }
{
    if !claim.is_of(terms.plan()) {
        unreachable!();
    }
    adjudicator.decide(alloc, claim, acc)
}
