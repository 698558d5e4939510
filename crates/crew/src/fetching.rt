//! Whether the acceptor has the gate prefetch what its next offers need.

use claim_gate::{BoxedClaim, Gate, Prefetching};
use faults::RunFault;
use gate_calls::Exit;
use std::sync::Wait;

/// How a run prefetches for the next offers to its gate. This is a parameter of a run, since a gate of the caller's has the
/// calls of `Gate` alone.
pub(crate) trait Fetching<G: Gate> {
    ghost use Rattle.std.specs.Prelude.{IfOk, IfErr};
    ghost use Rattle.gate_calls.specs.Passes.{GoesOn, LeavesWith};

    /// Prefetches what the offers of these claims need. Other claims may be offered all the same.
    fn fetch<R: Wait>(
        &self,
        rt: &R,
        gate: &G,
        pass: G::Pass,
        claims: &[BoxedClaim],
    ) -> Result<G::Pass, Exit<G::Pass>>
        requires { G.has_pass gate.now pass }
        ensures goes_on { IfOk result (GoesOn (G.has_pass gate.now) G.known pass) }
        ensures leaves { IfErr result
            (LeavesWith (G.has_pass gate.now) G.is_worn G.known pass) };
}

/// Nothing is prefetched.
pub(crate) struct NoFetching;

impl<G: Gate> Fetching<G> for NoFetching {
    fn fetch<R: Wait>(
        &self,
        rt: &R,
        gate: &G,
        pass: G::Pass,
        claims: &[BoxedClaim],
    ) -> Result<G::Pass, Exit<G::Pass>> {
        Ok(pass)
    }
}

/// The gate prefetches.
pub(crate) struct GateFetching;

impl<G: Prefetching> Fetching<G> for GateFetching {
    fn fetch<R: Wait>(
        &self,
        rt: &R,
        gate: &G,
        pass: G::Pass,
        claims: &[BoxedClaim],
    ) -> Result<G::Pass, Exit<G::Pass>> {
        match gate.prefetch(rt, pass, claims) {
            Ok(pass) => Ok(pass),
            Err(worn) => Err(Exit {
                fault: RunFault::Worn,
                pass: worn.pass,
            }),
        }
    }
}
