//! Tests of the queues of claims by worked examples. Amounts are in cents. `./check` runs each test
//! once for each of its allocations, with that allocation refused, so calls that run out of memory
//! are repeated.
ghost use Rattle.std.specs.Prelude.{ℕ, IfSome};
ghost use Rattle.journal.specs.Calls.{IsInWork};

use crate::ending::{expects, fail};
use crate::settling::{acc, money, text};
use feel_tests::Day;
use journal::{BoxedClaim, Lanes, ReadyClaim};
use settlement::{Acc, Claim, Money};
use std::alloc::{AllocFailed, Global};
use std::process::Abort;
use tables::Sequence;

// Returns a claim of a member. The member is its own family unless `of` names one.
fn claim(rt: &impl Abort, alloc: Global, id: &str, of: Option<&str>, member: &str) -> BoxedClaim {
    let family = match of {
        Some(family) => Some(text(rt, alloc, family)),
        None => None,
    };
    let claim = Claim {
        id: text(rt, alloc, id),
        family,
        member: text(rt, alloc, member),
        service: Day::from_epoch_day(19_727).expect(rt, "a day"),
        billed: money(rt, 12_000),
        fields: Sequence::new(alloc),
    };
    match BoxedClaim::new(alloc, claim) {
        Ok(stored) => stored,
        Err(refused) => BoxedClaim::new(alloc, refused.value).expect(rt, "memory for a claim"),
    }
}

// Adds a claim of a member who is its own family, in year 0.
fn add(rt: &impl Abort, alloc: Global, lanes: &mut Lanes, id: &str, member: &str) {
    add_of(rt, alloc, lanes, id, (None, member, 0));
}

// Adds a claim of a family's member in the given year. If memory runs out, the claim must be
// returned and not added, and the call is repeated.
fn add_of(
    rt: &impl Abort,
    alloc: Global,
    lanes: &mut Lanes,
    id: &str,
    account: (Option<&str>, &str, u16),
) {
    let (family, member, year) = account;
    let claim = claim(rt, alloc, id, family, member);
    let before = lanes.len();
    if let Err(refused) = add_once(lanes, claim, year) {
        expects(rt, lanes.len() == before, "no claim more");
        add_again(rt, lanes, refused.value, year, id);
    }
    expects(rt, before < lanes.len(), "one claim more");
}

// This call may be repeated. A function without a contract keeps the proofs of its callers small.
fn add_once(
    lanes: &mut Lanes,
    claim: BoxedClaim,
    year: u16,
) -> Result<(), AllocFailed<BoxedClaim>> {
    lanes.add(claim, year)
}

fn add_again(rt: &impl Abort, lanes: &mut Lanes, refused: BoxedClaim, year: u16, id: &str) {
    expects(rt, refused.as_claim().id.as_str() == id, id);
    let Ok(()) = add_once(lanes, refused, year) else {
        fail(rt, "memory for a claim")
    };
}

// Takes a claim. Earlier taken claims stay taken.
fn take(lanes: &mut Lanes) -> Option<ReadyClaim>
    ensures work { IfSome result (λ picked. IsInWork lanes.new picked.position) }
    ensures others { (position : ℕ) → IsInWork lanes.old position → IsInWork lanes.new position }
{
    lanes.take()
}

// Requires that this is the claim with the identifier at the position, and that `met` has the
// amounts met before it by the member and by the family. The account's opening balance has 1.00
// met. The claim is passed by value, since each function that drops a claim costs seconds of proof.
fn check_claim(rt: &impl Abort, picked: ReadyClaim, position: usize, id: &str, met: (i64, i64)) {
    expects(rt, is_claim(&picked, position, id), id);
    let before = picked.start(acc(rt, (100, 0, 0, 100, 0)));
    let begun = picked.has_begun();
    drop(picked);
    expects(rt, before.met == money(rt, met.0), "the amount met");
    expects(rt, before.fmet == money(rt, met.1), "the family's sum met");
    expects(rt, begun == (met.0 != 100), "an earlier claim");
}

fn is_claim(picked: &ReadyClaim, position: usize, id: &str) -> bool {
    picked.position == position && picked.claim.as_claim().id.as_str() == id
}

fn is_none_ready(lanes: &mut Lanes) -> bool {
    lanes.take().is_none()
}

// Takes the ready claim, which must have this identifier, and decides it. Afterwards, `left` is the
// amount met.
fn decide_next(rt: &impl Abort, lanes: &mut Lanes, position: usize, id: &str, met: i64, left: i64) {
    let picked = take(lanes).expect(rt, "a claim");
    let place = picked.position;
    check_claim(rt, picked, position, id, (met, met));
    match lanes.decide(place, acc(rt, (left, 0, 0, left, 0))) {
        Ok(()) => {}
        Err(_) => lanes
            .decide(place, acc(rt, (left, 0, 0, left, 0)))
            .expect(rt, "memory for a decision"),
    }
    expects(rt, lanes.is_decided(position), id);
}

// Prefetches a claim of a member who has a claim already, and one of a new member.
fn prefetch(rt: &impl Abort, alloc: Global, lanes: &mut Lanes) {
    lanes.prefetch(&[
        claim(rt, alloc, "x", None, "M1"),
        claim(rt, alloc, "y", None, "M3"),
    ]);
}

// A member's next claim begins with the accumulators after the last one, even if it is added after
// that decision. A prefetch changes nothing, even if other claims are added than those that were
// prefetched.
fn go_on(rt: &impl Abort, alloc: Global) {
    let mut lanes = Lanes::new(alloc);
    add(rt, alloc, &mut lanes, "a", "M1");
    add(rt, alloc, &mut lanes, "b", "M1");
    prefetch(rt, alloc, &mut lanes);
    add(rt, alloc, &mut lanes, "c", "M2");
    decide_next(rt, &mut lanes, 0, "a", 100, 700);
    decide_next(rt, &mut lanes, 2, "c", 100, 300);
    decide_next(rt, &mut lanes, 1, "b", 700, 900);
    expects(rt, is_none_ready(&mut lanes), "no claim that is ready");
    add(rt, alloc, &mut lanes, "d", "M1");
    decide_next(rt, &mut lanes, 3, "d", 900, 950);
}

// A member begins with its own opening balance, and with the family's sums after the claims of the
// other members.
fn go_on_as_a_family(rt: &impl Abort, alloc: Global) {
    let mut lanes = Lanes::new(alloc);
    add_of(rt, alloc, &mut lanes, "a", (Some("F1"), "M1", 2024));
    add_of(rt, alloc, &mut lanes, "b", (Some("F1"), "M2", 2024));
    decide_next(rt, &mut lanes, 0, "a", 100, 700);
    let picked = take(&mut lanes).expect(rt, "a claim");
    check_claim(rt, picked, 1, "b", (100, 700));
}

#[test]
fn claims_take_turns_though_memory_is_refused(rt: HostRuntime) {
    go_on(&rt, rt.alloc());
    go_on_as_a_family(&rt, rt.alloc());
}
