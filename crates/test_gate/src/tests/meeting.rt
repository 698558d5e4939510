//! Two passes of a gate with a ticket lock meet: afterwards each has seen what either of them had
//! seen.

ghost use Rattle.std.specs.Prelude.{◌≡◌};
ghost use Rattle.turn_lock.specs.TicketShown.{IsPassOf, pass_knows};
ghost use Rattle.test_gate.specs.Words.{IsAnyOrder};

use super::locks::by_tickets;
use super::play::play;
use super::runs::{Calls, run};
use super::scripts::{first_offer, other_stop, then_stopped};
use claim_gate::{Gate, LockedGate, SerialGate, Terms};
use std::alloc::Global;
use std::process::Abort;
use std::sync::Wait;
use test_fixtures::{both_files, health_plan};
use turn_lock::{Pass, TicketLock};

// The calls of two passes that meet twice: after one has offered a claim, and after the other has
// stopped the gate.
#[tactic(auto, using(crate::proofs::Meeting::met_terms))]
fn met_calls<V: SerialGate + Send + Drop>(
    rt: &(impl Abort + Wait),
    alloc: Global,
    terms: &Terms,
    lock: TicketLock<V>,
    pass: Pass<V>,
)
    requires any_order { IsAnyOrder terms.now }
    requires own { IsPassOf lock pass }
    requires terms { (V.shown (pass_knows pass).seen).terms ≡ terms.now }
{
    let gate = LockedGate::over(lock);
    let passes = gate.split(pass);
    let (one, other) = play(rt, alloc, terms, &gate, passes, first_offer());
    let passes = gate.meet(one, other);
    let (one, other) = play(rt, alloc, terms, &gate, passes, other_stop());
    let passes = gate.meet(one, other);
    let _passes = play(rt, alloc, terms, &gate, passes, then_stopped());
}

pub fn meet_once(rt: &(impl Abort + Wait), alloc: Global, terms: &Terms)
    requires { IsAnyOrder terms.now }
{
    let (lock, pass) = by_tickets(rt, alloc, terms, 0);
    met_calls(rt, alloc, terms, lock, pass)
}

#[test]
fn two_passes_meet_at_a_gate(rt: HostRuntime) {
    run(
        &rt,
        rt.alloc(),
        health_plan(),
        both_files(),
        None,
        Calls::Meet,
    );
}
