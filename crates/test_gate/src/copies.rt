//! A type that is not a lock although it satisfies the contract of `Section`: each pass works on
//! its own copy of the initial value. The contract speaks of one pass at a time, so only the value
//! that a second pass finds distinguishes this type from a lock.

ghost use Rattle.std.specs.Prelude.{◌≡◌, ◌≤◌, ◌<◌, ℕ};
ghost use Rattle.test_gate.specs.Counts.{same_count, later_count, either_count};

use std::sync::Wait;
use turn_lock::{Growing, Section, Worn};

/// The number of visitors so far. It never decreases.
#[derive(Clone, Copy, PartialEq, Eq, Debug, Drop)]
pub struct Visitors {
    pub count: u64,
}

impl Growing for Visitors {
    ghost leads = { λ old new. old.count ≤ new.count };

    ghost reflexive = { λ x. same_count x.count };

    ghost transitive = { λ x y z. later_count x.count y.count z.count };

    ghost ordered = { λ x y z. either_count x.count y.count z.count };
}

/// A value that counts visitors.
pub trait Counted: Growing {
    /// Adds this number of visitors.
    fn come(&mut self, visitors: u64)
        ensures { Self.leads self.old self.new };

    /// Returns the number of visitors.
    fn count(&self) -> u64;
}

impl Counted for Visitors {
    fn come(&mut self, visitors: u64) {
        self.count = self.count.saturating_add(visitors);
    }

    fn count(&self) -> u64 {
        self.count
    }
}

/// The type in place of a lock. Its passes share nothing.
#[derive(Drop)]
pub struct Copies;

/// A pass with its copy of the value.
#[derive(Drop)]
pub struct CopyPass {
    value: Visitors,
    found: Visitors,
    ended: u64,
}

/// A pass in its critical section.
#[derive(Drop)]
pub struct CopyHolder {
    found: Visitors,
    ended: u64,
}

impl CopyPass {
    /// Returns the first pass, with this value as its copy.
    pub fn new(value: Visitors) -> CopyPass
        ensures { (result.value ≡ value) × (result.found ≡ value) × (result.ended ≡ 0) }
    {
        CopyPass {
            value,
            found: value,
            ended: 0,
        }
    }
}

impl Section for Copies {
    type Value = Visitors;

    type Pass = CopyPass;

    type Holder = CopyHolder;

    ghost has_pass = { λ _ _. Unit {0} };

    ghost has_holder = { λ _ holder. holder.ended < 18446744073709551615 };

    ghost seen = { λ pass. pass.value };

    ghost tally = { λ pass. pass.ended };

    ghost last_found = { λ pass. pass.found };

    ghost is_worn = { λ pass. pass.ended ≡ 18446744073709551615 };

    ghost found = { λ holder. holder.found };

    ghost tally_before = { λ holder. holder.ended };

    fn split(&self, pass: CopyPass) -> (CopyPass, CopyPass) {
        let CopyPass {
            value,
            found,
            ended,
        } = pass;
        let other = CopyPass {
            value,
            found,
            ended,
        };
        (
            CopyPass {
                value,
                found,
                ended,
            },
            other,
        )
    }

    fn lock<R: Wait>(
        &self,
        _rt: &R,
        pass: CopyPass,
    ) -> Result<(Visitors, CopyHolder), (Worn, CopyPass)> {
        if pass.ended == u64::MAX {
            return Err((Worn, pass));
        }
        let found = pass.value;
        Ok((
            found,
            CopyHolder {
                found,
                ended: pass.ended,
            },
        ))
    }

    fn leave(&self, holder: CopyHolder, value: Visitors) -> CopyPass {
        let left = value;
        CopyPass {
            value: left,
            found: holder.found,
            ended: holder.ended + 1,
        }
    }

    fn retire(&self, _holder: CopyHolder, value: Visitors) -> Visitors {
        value
    }
}

/// Splits a pass. One of the two passes changes the value in a critical section, and then the other
/// one locks. Returns whether the other one finds the value that the first one left.
pub fn second_finds_what_the_first_left<S: Section, R: Wait>(
    rt: &R,
    lock: &S,
    pass: S::Pass,
) -> bool
where
    S::Value: Counted + Drop,
    S::Pass: Drop,
    requires { S.has_pass lock.now pass }
{
    let (a, b) = lock.split(pass);
    let Ok((mut value, holder)) = lock.lock(rt, b) else {
        return false;
    };
    value.come(7);
    let left = value.count();
    drop(lock.leave(holder, value));
    let Ok((value, holder)) = lock.lock(rt, a) else {
        return false;
    };
    let found = value.count();
    drop(lock.retire(holder, value));
    found == left
}
