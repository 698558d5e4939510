//! What two plans say of the claims in some zones, without what both of them say.
ghost use Rattle.std.specs.Prelude.{◌≡◌, [], if◌then◌else◌, option_map};
ghost use Rattle.plan_zones.specs.Changes.{IsPart, but_same, determination_by, family_apart, terms_apart};
ghost use Rattle.plan_zones.specs.Terms.{cost_sharing_by, limits_by};
ghost use Rattle.plan_zones.specs.declared.benefit.Benefit.TheVariants.{Covered};

use crate::benefit::{Benefit, are_same_texts};
use crate::survey::Outcome;
use crate::terms::{FamilyTerms, Terms};
use feel_tests::{Sequence, Text};
use fixpoint::Fixed;
use settlement::Money;
use std::alloc::Global;

/// What two plans say of the claims in some zones, where that differs. If both cover the claims, an
/// amount that is the same in both is 0 in both, and remarks that are the same are left out.
pub struct Change {
    pub old: Benefit,
    pub new: Benefit,
}

impl Drop for Change {
    fn drop(self) {
        let Change { old: _, new: _ } = self;
    }
}

impl Outcome for Change {
    fn is_same(&self, other: &Change) -> bool {
        self.old.is_same(&other.old) && self.new.is_same(&other.new)
    }
}

/// Returns the change from the benefit of a covered claim to that of another one.
pub fn covered_change(
    alloc: Global,
    terms: Terms,
    remarks: Sequence<Text>,
    others: Terms,
    theirs: Sequence<Text>,
) -> Change
    ensures old { IsPart (determination_by (Covered terms remarks))
        (determination_by (Covered others theirs)) result.old }
    ensures new { IsPart (determination_by (Covered others theirs))
        (determination_by (Covered terms remarks)) result.new }
{
    let same = are_same_texts(remarks.as_slice(), theirs.as_slice());
    let part = terms_apart(&terms, &others);
    let other_part = terms_apart(&others, &terms);
    let kept = unless(alloc, same, remarks);
    let other_kept = unless(alloc, same, theirs);
    Change {
        old: Benefit::Covered {
            terms: part,
            remarks: kept,
        },
        new: Benefit::Covered {
            terms: other_part,
            remarks: other_kept,
        },
    }
}

// Returns the remarks, or none if they are the same in both benefits.
fn unless(alloc: Global, same: bool, remarks: Sequence<Text>) -> Sequence<Text>
    ensures { result ≡ (if same then [] else remarks) }
{
    if same {
        return Sequence::new(alloc);
    }
    remarks
}

// Returns the terms, where an amount that is the same in the other ones is 0.
fn terms_apart(one: &Terms, other: &Terms) -> Terms
    ensures { cost_sharing_by result
        ≡ terms_apart (cost_sharing_by one.now) (cost_sharing_by other.now) }
{
    let fee = money_apart(one.fee, other.fee);
    let deductible = money_apart(one.deductible, other.deductible);
    let copay = money_apart(one.copay, other.copay);
    let rate = rate_apart(one.rate, other.rate);
    let oop_max = money_apart(one.oop_max, other.oop_max);
    let family = family_apart(&one.family, &other.family);
    Terms {
        fee,
        deductible,
        copay,
        rate,
        oop_max,
        family,
    }
}

fn family_apart(one: &Option<FamilyTerms>, other: &Option<FamilyTerms>) -> Option<FamilyTerms>
    ensures { option_map limits_by result
        ≡ family_apart (option_map limits_by one.now) (option_map limits_by other.now) }
{
    match one {
        Some(limits) => match other {
            Some(others) => {
                let deductible = money_apart(limits.deductible, others.deductible);
                let oop_max = money_apart(limits.oop_max, others.oop_max);
                Some(FamilyTerms {
                    deductible,
                    oop_max,
                })
            }
            None => Some(*limits),
        },
        None => None,
    }
}

fn money_apart(one: Money, other: Money) -> Money
    ensures { result ≡ but_same one other }
{
    if one == other { Money::zero() } else { one }
}

fn rate_apart(one: Fixed, other: Fixed) -> Fixed
    ensures { result ≡ but_same one other }
{
    if one == other {
        Money::zero().amount()
    } else {
        one
    }
}
