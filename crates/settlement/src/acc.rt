//! The accumulators of a member and of its family.

use crate::money::Money;

/// The accumulators of a member, and the sums over all members of its family.
#[derive(Clone, Copy)]
pub struct Acc {
    /// The amount that the member has met of its deductible.
    pub met: Money,
    /// The amount that the member has paid out of pocket.
    pub oop: Money,
    /// The amount that the plan has paid for the member.
    pub paid: Money,
    /// The amount that the family has met of its deductible: the sum over its members.
    pub fmet: Money,
    /// The amount that the family has paid out of pocket: the sum over its members.
    pub foop: Money,
}

impl Acc {
    ghost use Rattle.std.specs.Prelude.{◌≡◌};
    ghost use Rattle.std.specs.Option.{SomeIff};
    ghost use Rattle.settlement.specs.Accumulators.{add_amounts, AreInRange};
    ghost use Rattle.settlement.specs.Claim.{nothing_yet};

    /// Returns the accumulators of a member without claims.
    pub fn zero() -> Acc
        ensures { result ≡ nothing_yet }
    {
        Acc {
            met: Money::zero(),
            oop: Money::zero(),
            paid: Money::zero(),
            fmet: Money::zero(),
            foop: Money::zero(),
        }
    }

    /// Adds to the member's accumulators and to the family's. The result is `None` if a sum is out
    /// of range.
    pub(crate) fn plus(self, met: Money, oop: Money, paid: Money) -> Option<Acc>
        ensures more { SomeIff result
            (AreInRange (add_amounts self met oop paid)) (add_amounts self met oop paid) }
        ensures before { AreInRange self }
    {
        let fmet = self.fmet.plus(met);
        let foop = self.foop.plus(oop);
        let met = self.met.plus(met);
        let oop = self.oop.plus(oop);
        let paid = self.paid.plus(paid);
        Some(Acc {
            met: met?,
            oop: oop?,
            paid: paid?,
            fmet: fmet?,
            foop: foop?,
        })
    }
}
