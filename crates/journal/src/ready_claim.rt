//! A claim that is taken to be decided.
ghost use Rattle.std.specs.Prelude.{◌≡◌, ◌&&◌, is_some};
ghost use Rattle.journal.specs.Places.{started};

use crate::boxed_claim::BoxedClaim;
use settlement::Acc;

/// A claim that is ready to be decided, with the accumulators after earlier claims.
#[derive(Drop)]
pub struct ReadyClaim {
    /// The number of claims that were added before it.
    pub position: usize,
    /// The claim.
    pub claim: BoxedClaim,
    /// The accumulators after the last earlier claim of its account.
    pub own: Option<Acc>,
    /// The accumulators after the last earlier claim of its family and year.
    pub family_year: Option<Acc>,
}

impl ReadyClaim {
    /// Returns whether earlier claims determine all of its accumulators, so that the opening
    /// accumulators of its account do not matter.
    pub fn has_begun(&self) -> bool
        ensures { result ≡ is_some self.now.own && is_some self.now.family_year }
    {
        self.own.is_some() && self.family_year.is_some()
    }

    /// Returns the accumulators before the claim, from the opening accumulators of its account.
    pub fn start(&self, opening: Acc) -> Acc
        ensures { result ≡ started opening self.now.own self.now.family_year }
    {
        let own = match &self.own {
            Some(left) => left,
            None => &opening,
        };
        let family_year = match &self.family_year {
            Some(left) => left,
            None => &opening,
        };
        Acc {
            met: own.met,
            oop: own.oop,
            paid: own.paid,
            fmet: family_year.fmet,
            foop: family_year.foop,
        }
    }
}
