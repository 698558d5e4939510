//! The counts of claims, the sleep of an intake thread and its wake-up.

use super::{Backlog, CLAIMS_ENOUGH, CLAIMS_LIMIT, SLEEPS_LIMIT};
use std::sync::Wait;
use std::sync::atomic::Ordering;
use std::test::Fail;
use std::thread;
use std::time::{Clock, Duration, Instant};

/// This is far longer than the sleep of an intake thread, and than a wake-up on a busy machine.
const LONG_SECONDS: u64 = 20;

fn with_claims(count: u64) -> Backlog {
    let backlog = Backlog::new();
    for _ in 0..count {
        backlog.add_one();
    }
    backlog
}

fn count_a_sleeper(backlog: &Backlog) {
    backlog.sleepers.fetch_add(1, Ordering::SeqCst);
}

fn wakes(backlog: &Backlog) -> u64 {
    backlog.wakes.load(Ordering::SeqCst)
}

#[test]
fn more_claims_taken_than_counted(rt: HostRuntime) -> Result<(), Fail> {
    let backlog = Backlog::new();
    backlog.remove_one();
    assert!(rt; backlog.length() == 0);
    backlog.add_one();
    backlog.add_one();
    assert!(rt; backlog.length() == 1);
    Ok(())
}

#[test]
fn an_intake_far_ahead_goes_on_after_a_while(rt: HostRuntime) -> Result<(), Fail> {
    let backlog = with_claims(CLAIMS_LIMIT);
    assert!(rt; backlog.await_shorter(&rt) == 0);
    backlog.add_one();
    assert!(rt; backlog.await_shorter(&rt) == SLEEPS_LIMIT);
    assert!(rt; !backlog.has_sleepers());
    // The next turn begins at once.
    assert!(rt; backlog.await_shorter(&rt) == 0);
    Ok(())
}

// Begins a turn of an intake thread that offers these claims. Another caller takes half of them,
// and nobody counts those.
fn offer_half_for_another<R: Wait>(rt: &R, backlog: &Backlog, claims: u64) -> u32 {
    let sleeps = backlog.await_shorter(rt);
    for _ in 0..claims / 2 {
        backlog.add_one();
        backlog.add_one();
        backlog.remove_one();
    }
    sleeps
}

#[test]
fn an_intake_seldom_sleeps_where_others_take_claims(rt: HostRuntime) -> Result<(), Fail> {
    let backlog = Backlog::new();
    let mut sleeps = 0u32;
    for _ in 0..64 {
        sleeps = sleeps.saturating_add(offer_half_for_another(&rt, &backlog, CLAIMS_LIMIT / 8));
    }
    // Half of the claims of 64 turns are four times the limit.
    assert!(rt; sleeps <= 4 * SLEEPS_LIMIT);
    Ok(())
}

#[test]
fn nobody_is_woken_where_nobody_sleeps_or_many_claims_wait(rt: HostRuntime) -> Result<(), Fail> {
    let backlog = with_claims(CLAIMS_ENOUGH + 1);
    count_a_sleeper(&backlog);
    backlog.wake_where_short();
    assert!(rt; wakes(&backlog) == 0);
    backlog.remove_one();
    backlog.wake_where_short();
    assert!(rt; wakes(&backlog) == 1);
    let no_sleeper = Backlog::new();
    no_sleeper.wake_where_short();
    assert!(rt; wakes(&no_sleeper) == 0);
    Ok(())
}

// Sleeps as an intake thread does, but for longer.
fn sleep_for_long<R: Wait>(rt: &R, backlog: &Backlog) {
    count_a_sleeper(backlog);
    backlog
        .wakes
        .park_timeout(rt, 0, Duration::from_secs(LONG_SECONDS));
}

// Waits until a thread sleeps or is about to sleep, and a little longer.
fn wake_who_sleeps<R: Wait + Clock>(rt: &R, backlog: &Backlog) {
    for _ in rt.forever() {
        if backlog.has_sleepers() {
            break;
        }
        thread::yield_now();
    }
    thread::sleep(rt, Duration::from_millis(20));
    backlog.wake_where_short();
}

#[test]
fn a_wake_ends_a_sleep(rt: HostRuntime) -> Result<(), Fail> {
    let backlog = Backlog::new();
    let begun = Instant::now(&rt)?;
    thread::join(
        &rt,
        || sleep_for_long(&rt, &backlog),
        || wake_who_sleeps(&rt, &backlog),
    );
    assert!(rt; begun.elapsed(&rt)? < Duration::from_secs(LONG_SECONDS / 2));
    Ok(())
}
