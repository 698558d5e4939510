//! How a thread that can't continue ends the run.
ghost use Rattle.std.specs.Prelude.{◌≡◌, ◌⊎◌, true};
ghost use Rattle.journal.specs.Gate.{LeadsTo};

use claim_gate::{Gate, Terms, claim_lists_exist};
use std::sync::Wait;

/// The number of times that a call of the gate is made while it runs out of memory, with the values that it returned. After
/// the last one the thread stops the gate and leaves.
pub(crate) const ATTEMPTS: u32 = 2;

/// Stops the gate, so that all threads leave. Where the lock is worn, they leave because no call can be made.
pub fn stop<R: Wait, G: Gate>(rt: &R, terms: &Terms, gate: &G, pass: G::Pass) -> G::Pass
    requires own { G.has_pass gate.now pass }
    requires terms { (G.known pass).seen.terms ≡ terms.now }
    ensures own { G.has_pass gate.now result }
    ensures seen { LeadsTo (G.known pass).seen (G.known result).seen }
    ensures stopped { ((G.known result).seen.stopped ≡ true) ⊎ G.is_worn result }
{
    // proof: the claim files have lists of claims, so a statement about all such lists is not empty.
    claim_lists_exist(terms);
    match gate.stop(rt, pass) {
        Ok(pass) => pass,
        Err(worn) => worn.pass,
    }
}
