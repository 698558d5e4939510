//! Turns of a single thread: a turn is held until it is dropped, and every wait ends.

use super::{FREE, GateBatching, HELD, TAKES_LIMIT, shared_limit};
use std::sync::atomic::Ordering;
use std::test::Fail;

fn is(turns: &GateBatching, state: u32) -> bool {
    turns.word.load(Ordering::SeqCst) == u64::from(state)
}

#[test]
fn a_turn_is_given_back(rt: HostRuntime) -> Result<(), Fail> {
    let turns = GateBatching::new();
    let first = turns.begin(&rt);
    assert!(rt; first.has);
    assert!(rt; is(&turns, HELD));
    drop(first);
    assert!(rt; is(&turns, FREE));
    assert!(rt; turns.begin(&rt).has);
    Ok(())
}

#[test]
fn who_waits_for_long_goes_without(rt: HostRuntime) -> Result<(), Fail> {
    let turns = GateBatching::new();
    let first = turns.begin(&rt);
    let second = turns.begin(&rt);
    assert!(rt; !second.has);
    drop(second);
    assert!(rt; is(&turns, HELD));
    drop(first);
    assert!(rt; is(&turns, FREE));
    Ok(())
}

#[test]
fn offers_begin_where_few_claims_wait(rt: HostRuntime) -> Result<(), Fail> {
    let turns = GateBatching::new();
    let first = turns.begin_offers(&rt);
    first.count_offer();
    first.count_taken();
    drop(first);
    assert!(rt; turns.begin_offers(&rt).has);
    Ok(())
}

#[test]
fn offers_begin_though_a_sleeper_does_not_wake(rt: HostRuntime) -> Result<(), Fail> {
    let turns = GateBatching::new();
    turns.sleepers.fetch_add(1, Ordering::SeqCst);
    let turn = turns.begin_offers(&rt);
    assert!(rt; turn.has);
    Ok(())
}

#[test]
fn a_worker_leaves_others_their_share(rt: HostRuntime) -> Result<(), Fail> {
    let turns = GateBatching::new();
    // No worker rests: the limit stays, or grows up to the greatest one.
    assert!(rt; turns.next_limit(100, 99) == 100);
    assert!(rt; turns.next_limit(100, 100) == 200);
    assert!(rt; turns.next_limit(TAKES_LIMIT, TAKES_LIMIT) == TAKES_LIMIT);
    // One or three workers rest.
    assert!(rt; shared_limit(TAKES_LIMIT, 100, 1) == 50);
    assert!(rt; shared_limit(TAKES_LIMIT, 100, 3) == 25);
    assert!(rt; shared_limit(TAKES_LIMIT, 10, 1) == 5);
    assert!(rt; shared_limit(TAKES_LIMIT, 3, 3) == 2);
    assert!(rt; shared_limit(TAKES_LIMIT, 255, 1) == 127);
    assert!(rt; shared_limit(TAKES_LIMIT, 256, 1) == TAKES_LIMIT);
    // Nobody rests after a rest.
    assert!(rt; turns.rest(&rt, 0) == 1);
    assert!(rt; turns.next_limit(100, 99) == 100);
    Ok(())
}
