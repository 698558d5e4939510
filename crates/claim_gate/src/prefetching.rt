//! Gates that prefetch what the next offers need.

use crate::answer::WornOut;
use crate::gate::Gate;
use crate::serial::SerialGate;
use journal::BoxedClaim;
use std::sync::Wait;

/// A shared gate that prefetches. Prefetching saves time and changes no result.
pub trait Prefetching: Gate {
    ghost use Rattle.std.specs.Prelude.{◌≡◌, IfOk, IfErr, IsErr};
    ghost use Rattle.claim_gate.specs.Shared.{IsServed, IsWornOut, Went};

    /// Prefetches into the cache, in one critical section, what the offers of these claims will read. The gate doesn't change.
    fn prefetch<R: Wait>(
        &self,
        rt: &R,
        pass: Self::Pass,
        claims: &[BoxedClaim],
    ) -> Result<Self::Pass, WornOut<Self::Pass>>
        requires { Self.has_pass self.now pass }
        ensures served { IfOk result
            (IsServed (Self.has_pass self.now) Self.known (Self.known pass)) }
        ensures same { IfOk result (λ p. Went (λ old new. new ≡ old) (Self.known p)) }
        ensures worn { IfErr result
            (λ e. IsWornOut (Self.has_pass self.now) Self.is_worn Self.known
            (Self.known pass) e.pass) }
        ensures late { Self.is_worn pass → IsErr result };
}

/// A sequential gate that prefetches.
pub trait SerialPrefetching: SerialGate {
    ghost use Rattle.std.specs.Prelude.{◌≡◌};
    ghost use Rattle.claim_gate.specs.Shared.{IsLawful};

    /// Prefetches what the offers of these claims will read, as `GateState::prefetch` does.
    fn prefetch(&mut self, claims: &[BoxedClaim])
        ensures grown { Self.leads self.old self.new }
        ensures same { Self.shown self.new ≡ Self.shown self.old }
        ensures lawful { IsLawful (Self.shown self.new) };
}
