//! The interface of the locks.

ghost use Rattle.std.specs.Prelude.{◌≡◌, ℕ, ◌+◌, IfOk, IfErr, IsErr};

use crate::growing::Growing;
use std::sync::Wait;
use thiserror::Error;

/// The lock has no ticket left.
#[derive(Debug, Drop, Error)]
#[error("the last ticket was drawn")]
pub struct Worn;

/// A lock with critical sections. A pass locks and becomes a holder, and the holder ends its
/// critical section with `leave` or `retire`.
pub trait Section {
    type Value: Growing;

    type Pass;

    type Holder;

    // The pass belongs to this lock.
    ghost has_pass: { Self → Self.Pass → Type 0 };

    // The holder is in a critical section of this lock.
    ghost has_holder: { Self → Self.Holder → Type 0 };

    // The last value that the pass has seen.
    ghost seen: { Self.Pass → Self.Value };

    // The number of critical sections that the pass has ended.
    ghost tally: { Self.Pass → ℕ };

    // The value that the last critical section of the pass found, or the initial value of the lock
    // if there was none.
    ghost last_found: { Self.Pass → Self.Value };

    // The pass has seen that no ticket is left.
    ghost is_worn: { Self.Pass → Type 0 };

    // The value that the critical section found.
    ghost found: { Self.Holder → Self.Value };

    // The number of critical sections that the pass had ended before this one.
    ghost tally_before: { Self.Holder → ℕ };

    /// Splits a pass in two. Each of them has seen what the given pass has seen.
    fn split(&self, pass: Self::Pass) -> (Self::Pass, Self::Pass)
        requires { has_pass self.now pass }
        ensures own { has_pass self.now result.0 × has_pass self.now result.1 }
        ensures seen { (seen result.0 ≡ seen pass) × (seen result.1 ≡ seen pass) }
        ensures tally { (tally result.0 ≡ tally pass) × (tally result.1 ≡ tally pass) }
        ensures last { (last_found result.0 ≡ last_found pass)
            × (last_found result.1 ≡ last_found pass) }
        ensures worn { is_worn pass → is_worn result.0 × is_worn result.1 };

    /// Waits for the critical section and returns the value with the holder.
    ///
    /// # Errors
    ///
    /// Returns `Worn` with the pass if the lock has no ticket left.
    fn lock<R: Wait>(
        &self,
        rt: &R,
        pass: Self::Pass,
    ) -> Result<(Self::Value, Self::Holder), (Worn, Self::Pass)>
        requires { has_pass self.now pass }
        ensures own { IfOk result (λ r. has_holder self.now r.1) }
        ensures found { IfOk result (λ r. found r.1 ≡ r.0) }
        ensures fresh { IfOk result (λ r. Self.Value.leads (seen pass) r.0) }
        ensures tally { IfOk result (λ r. tally_before r.1 ≡ tally pass) }
        ensures worn { IfErr result (λ e. is_worn e.1) }
        ensures back { IfErr result (λ e. has_pass self.now e.1 × (seen e.1 ≡ seen pass)
            × (tally e.1 ≡ tally pass) × (last_found e.1 ≡ last_found pass)) }
        ensures late { is_worn pass → IsErr result };

    /// Ends the critical section and leaves the value for the next pass.
    fn leave(&self, holder: Self::Holder, value: Self::Value) -> Self::Pass
        requires own { has_holder self.now holder }
        requires grown { Self.Value.leads (found holder) value }
        ensures own { has_pass self.now result }
        ensures seen { seen result ≡ value }
        ensures tally { tally result ≡ tally_before holder + 1 }
        ensures last { last_found result ≡ found holder };

    /// Retires the lock: returns the value and never ends the critical section, so that no other
    /// pass is served afterwards.
    fn retire(&self, holder: Self::Holder, value: Self::Value) -> Self::Value
        requires { has_holder self.now holder }
        ensures { result ≡ value };
}
