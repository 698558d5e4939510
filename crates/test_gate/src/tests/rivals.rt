//! Two threads offer the same file, each with a pass of its own. A thread whose claim the other one
//! has offered before goes on at the expected place.
ghost use Rattle.std.specs.Prelude.{◌≡◌, IfSome};
ghost use Rattle.claim_gate.specs.Terms.{ForTerms};
ghost use Rattle.claim_gate.specs.Replies.{IsFiled};
ghost use Rattle.test_gate.specs.Words.{IsAnyOrder, IsCaller};

use super::filing::offer_at;
use super::locks::{Ending, by_tickets, check_ending, retire_gate};
use super::runs::{Calls, run};
use super::{expects, fail};
use claim_gate::{Gate, LockedGate, Offer, OfferFault, SerialGate, Served, Terms};
use std::alloc::Global;
use std::process::Abort;
use std::sync::Wait;
use std::sync::atomic::{AtomicU64, Ordering};
use std::thread;
use std::thread::Threads;
use test_fixtures::{both_files, health_plan};
use turn_lock::Section;

// The number that stands for a claim of the first file that was accepted for a caller. A sum of
// these has a digit for each place, which counts how often the claim there was accepted.
fn unit_of(place: usize) -> u64 {
    match place {
        0 => 1,
        1 => 10,
        2 => 100,
        _ => 1000,
    }
}

// Returns the place of the fault.
fn place_expected(rt: &impl Abort, fault: OfferFault) -> usize {
    match fault {
        OfferFault::OutOfTurn { expected } => expected,
        _ => fail(rt, "an accepted claim, or a later place"),
    }
}

// Offers a claim. Returns the place of the next claim to offer.
#[tactic(auto, using(crate::proofs::Order::any_order))]
fn offer_next<R: Wait + Abort, G: Gate>(
    rt: &R,
    terms: &Terms,
    gate: &G,
    pass: G::Pass,
    offer: Offer,
    accepted: &AtomicU64,
) -> (usize, G::Pass)
    requires caller { IsCaller (G.has_pass gate.now) G.known terms.now pass }
    requires filed { ForTerms terms.now (λ T. IsFiled T offer) }
    ensures caller { IsCaller (G.has_pass gate.now) G.known terms.now result.1 }
{
    let _plan = terms.plan();
    let place = offer.place;
    let Ok(Served { reply, pass }) = gate.offer(rt, pass, offer) else {
        fail(rt, "a reply")
    };
    match reply {
        Ok(reply) => {
            expects(rt, reply.position == place, "the position of the place");
            accepted.fetch_add(unit_of(place), Ordering::SeqCst);
            (place.saturating_add(1), pass)
        }
        Err(refused) => (place_expected(rt, refused.fault), pass),
    }
}

// Offers the claim at the place of the first file, if there is one.
fn offer_from<R: Wait + Abort, G: Gate>(
    rt: &R,
    alloc: Global,
    terms: &Terms,
    gate: &G,
    place: usize,
    pass: G::Pass,
    accepted: &AtomicU64,
) -> (usize, G::Pass)
    requires caller { IsCaller (G.has_pass gate.now) G.known terms.now pass }
    ensures caller { IsCaller (G.has_pass gate.now) G.known terms.now result.1 }
{
    if place >= 4 {
        return (place, pass);
    }
    let offer = offer_at(rt, alloc, terms, 1, place);
    offer_next(rt, terms, gate, pass, offer, accepted)
}

// Offers the four claims of the first file.
fn offer_all<R: Wait + Abort, G: Gate>(
    rt: &R,
    alloc: Global,
    terms: &Terms,
    gate: &G,
    pass: G::Pass,
    accepted: &AtomicU64,
)
    requires caller { IsCaller (G.has_pass gate.now) G.known terms.now pass }
{
    let next = offer_from(rt, alloc, terms, gate, 0, pass, accepted);
    let next = offer_from(rt, alloc, terms, gate, next.0, next.1, accepted);
    let next = offer_from(rt, alloc, terms, gate, next.0, next.1, accepted);
    let next = offer_from(rt, alloc, terms, gate, next.0, next.1, accepted);
    expects(rt, next.0 == 4, "all four");
}

// Offers the file by two threads, one of which is the caller.
fn offer_by_two<R: Threads + Wait + Abort + Sync, G: Gate + Sync>(
    rt: &R,
    alloc: Global,
    terms: &Terms,
    gate: &G,
    pass: G::Pass,
    accepted: &AtomicU64,
)
    requires caller { IsCaller (G.has_pass gate.now) G.known terms.now pass }
{
    let (mine, theirs) = gate.split(pass);
    thread::scope(
        thread::scope_env(),
        rt,
        |scope|
            requires { IsCaller (G.has_pass gate.now) G.known terms.now mine
                × IsCaller (G.has_pass gate.now) G.known terms.now theirs }
        {
            let job = move ||
                requires { IsCaller (G.has_pass gate.now) G.known terms.now theirs }
            { offer_all(rt, alloc, terms, gate, theirs, accepted) };
            let started = scope.spawn(job).is_ok();
            offer_all(rt, alloc, terms, gate, mine, accepted);
            expects(rt, started, "a thread");
        },
    )
}

// Offers the file by two threads, to a gate with a lock. Returns the sequential gate.
fn rivals_over<S: Section + Drop + Sync, R: Threads + Wait + Abort + Sync>(
    rt: &R,
    alloc: Global,
    terms: &Terms,
    lock: S,
    pass: S::Pass,
) -> Option<S::Value>
where
    S::Value: SerialGate + Drop + Send + Sync,
    S::Pass: Send + Drop,
    requires any_order { IsAnyOrder terms.now }
    requires own { S.has_pass lock pass }
    requires terms { (S.Value.shown (S.seen pass)).terms ≡ terms.now }
    ensures { IfSome result (λ state. (S.Value.shown state).terms ≡ terms.now) }
{
    let accepted = AtomicU64::new(0);
    let gate = LockedGate::over(lock);
    let (pass, mine) = gate.split(pass);
    offer_by_two(rt, alloc, terms, &gate, mine, &accepted);
    expects(
        rt,
        accepted.load(Ordering::SeqCst) == 1111,
        "each claim once",
    );
    let state = retire_gate(rt, terms, &gate, pass);
    drop(gate);
    state
}

pub fn rivals<R: Threads + Wait + Abort + Sync>(rt: &R, alloc: Global, terms: &Terms)
    requires { IsAnyOrder terms.now }
{
    let (lock, pass) = by_tickets(rt, alloc, terms, 0);
    let state = rivals_over(rt, alloc, terms, lock, pass);
    check_ending(rt, terms, state, Ending::Unfinished(b"A10A11A12A13"))
}

#[test]
fn two_threads_offer_the_same_file(rt: HostRuntime) {
    for _ in 0..10 {
        let calls = Calls::OfferByTwoThreads;
        run(&rt, rt.alloc(), health_plan(), both_files(), None, calls);
    }
}
