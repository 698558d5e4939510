//! Turns at the gate: a hint that prevents the threads of a run from contending for the lock of the
//! gate.
//!
//! A lock that serves its threads strictly in order changes to another thread at every critical
//! section while several threads request it, and then waits until that thread is scheduled. So a
//! thread with a turn makes many calls in a row, and the other threads sleep instead of competing
//! for the processors.
//!
//! A turn is only a hint. Each call of the gate is a critical section of its own, with a turn or
//! without one. Nothing is proved about the words here, and no proof depends on them, so a wrong
//! word costs only time. For the same reason each wait is bounded: a gate that the caller supplies
//! may block one call until another thread makes a call, so a thread that has waited for too long
//! goes on without a turn.

use crate::backlog::Backlog;
use crossbeam_utils::Backoff;
use std::sync::Wait;
use std::sync::atomic::{AtomicU64, Ordering};
use std::time::Duration;

#[cfg(test)]
mod tests;

/// The maximum number of claims that an intake thread offers in one turn. A turn should be long
/// compared with the time in which a sleeping thread wakes up, and short compared with the time in
/// which the other threads run out of work.
pub const OFFERS_LIMIT: u32 = 1_024;

/// The maximum number of claims that a worker takes in one turn. It is twice `OFFERS_LIMIT`, since
/// longer turns mean fewer changes of turn.
pub const TAKES_LIMIT: usize = 2_048;

/// No thread has the turn.
const FREE: u32 = 0;

/// A thread has the turn.
const HELD: u32 = 1;

/// The number of attempts before a thread sleeps. They take some microseconds, less than to fall
/// asleep and wake up again.
const LOOKS_LIMIT: u32 = 12;

/// The number of looks at the turn in which an intake thread leaves it to a thread that sleeps: about
/// as long as that thread needs to wake up.
const SLEEPER_LOOKS: u32 = 100;

/// The maximum length of one sleep. A sleep normally ends when the turn is given back; the bound
/// serves the case that the thread that is woken is not scheduled for a while.
const SLEEP_MICROS: u64 = 500;

/// The number of sleeps, half a second in all, after which a thread goes on without a turn. This is
/// far longer than a turn takes on a busy machine.
const SLEEPS_LIMIT: u32 = 1_000;

/// The length of the first rest of a worker that found no claim. Each further rest in a row is
/// twice as long, so that many idle workers do not keep the turn from the intake threads.
const REST_MICROS: u64 = 100;

/// The maximum number of times that a rest is doubled. The longest rest takes about three
/// milliseconds, and it can delay the end of a run by as much.
const DOUBLINGS_LIMIT: u32 = 5;

/// The maximum number of resting workers that a worker leaves claims to.
const SHARERS_LIMIT: u64 = 3;

/// The number of ready claims from which on a worker takes them all. To decide 256 claims takes longer
/// than to wake another worker, while the intake threads offer more.
const MANY_CLAIMS: usize = 256;

/// The least limit of a worker while others rest.
const SHARE_LEAST: usize = 2;

/// The shared state of the turns: one thread at a time has the turn and calls the gate, while the
/// others wait for a bounded time.
#[derive(Drop)]
pub struct GateBatching {
    word: AtomicU64,
    // The number of threads that sleep until the turn is given back.
    sleepers: AtomicU64,
    // Idle workers sleep on this word, which never changes.
    resting: AtomicU64,
    // The number of workers that rest.
    idle: AtomicU64,
    backlog: Backlog,
}

impl GateBatching {
    /// Creates the state in which no thread has the turn and no claim waits.
    pub fn new() -> GateBatching {
        GateBatching {
            word: AtomicU64::new(u64::from(FREE)),
            sleepers: AtomicU64::new(0),
            resting: AtomicU64::new(0),
            idle: AtomicU64::new(0),
            backlog: Backlog::new(),
        }
    }

    /// Waits for the turn for a bounded time, and begins a row of calls with or without it.
    /// Dropping the result ends the turn.
    pub fn begin<R: Wait>(&self, rt: &R) -> BatchTurn<'_> {
        BatchTurn {
            turns: self,
            has: self.obtain(rt),
        }
    }

    /// Begins a turn of an intake thread, which sleeps first, for a bounded time, if it is far
    /// ahead of the workers. It leaves the turn to a thread that sleeps, if there is one.
    pub fn begin_offers<R: Wait>(&self, rt: &R) -> BatchTurn<'_> {
        self.backlog.await_shorter(rt);
        self.let_sleeper_in();
        self.begin(rt)
    }

    /// Rests after a worker has found no claim. `rests` is the number of rests so far in a row, and
    /// each rest is longer than the one before, up to a limit, unless another worker ends it. Returns
    /// the new number of rests.
    pub fn rest<R: Wait>(&self, rt: &R, rests: u32) -> u32 {
        let micros = REST_MICROS << rests.min(DOUBLINGS_LIMIT);
        self.idle.fetch_add(1, Ordering::SeqCst);
        self.resting
            .park_timeout(rt, 0, Duration::from_micros(micros));
        self.idle.fetch_sub(1, Ordering::SeqCst);
        rests.saturating_add(1)
    }

    /// Returns the greatest number of claims that a worker should take in its next turn. In the last
    /// one it took `taken` of at most `limit` claims.
    ///
    /// While few members have many claims, few claims are ready at a time, and one worker could take
    /// them all. So while others rest, it takes only its share of them, and wakes one of the others
    /// when some are left.
    pub fn next_limit(&self, limit: usize, taken: usize) -> usize {
        let idle = self.idle.load(Ordering::SeqCst).min(SHARERS_LIMIT) as usize;
        if taken < limit {
            return shared_limit(limit, taken, idle);
        }
        if idle == 0 {
            return limit.saturating_mul(2).min(TAKES_LIMIT);
        }
        self.resting.wake_one();
        limit
    }

    // Returns false if other threads had the turn for too long.
    fn obtain<R: Wait>(&self, rt: &R) -> bool {
        let backoff = Backoff::new();
        for _ in 0..LOOKS_LIMIT {
            if self.exchange(FREE, HELD) {
                return true;
            }
            backoff.snooze();
        }
        self.sleepers.fetch_add(1, Ordering::SeqCst);
        let has = self.obtain_by_sleeping(rt);
        self.sleepers.fetch_sub(1, Ordering::SeqCst);
        has
    }

    fn obtain_by_sleeping<R: Wait>(&self, rt: &R) -> bool {
        if self.exchange(FREE, HELD) {
            return true;
        }
        for _ in 0..SLEEPS_LIMIT {
            self.sleep(rt);
            if self.exchange(FREE, HELD) {
                return true;
            }
        }
        false
    }

    // Lets a thread that was woken obtain the turn. An intake thread that has given the turn back would
    // take it again before that thread is scheduled, and the workers would wait until it is far ahead.
    fn let_sleeper_in(&self) {
        let backoff = Backoff::new();
        for _ in 0..SLEEPER_LOOKS {
            if !self.has_sleepers() || self.is_held() {
                return;
            }
            backoff.snooze();
        }
    }

    fn is_held(&self) -> bool {
        self.word.load(Ordering::SeqCst) == u64::from(HELD)
    }

    fn sleep<R: Wait>(&self, rt: &R) {
        self.word
            .park_timeout(rt, HELD, Duration::from_micros(SLEEP_MICROS));
    }

    // A thread that is about to sleep either finds the word changed or is already counted as a
    // sleeper, so no wake-up is lost.
    fn give_back(&self) {
        self.word.store(u64::from(FREE), Ordering::SeqCst);
        if self.has_sleepers() {
            self.word.wake_one();
        }
    }

    fn has_sleepers(&self) -> bool {
        self.sleepers.load(Ordering::SeqCst) > 0
    }

    fn exchange(&self, from: u32, to: u32) -> bool {
        let (from, to) = (u64::from(from), u64::from(to));
        self.word
            .compare_exchange(from, to, Ordering::SeqCst, Ordering::SeqCst)
            .is_ok()
    }
}

// Returns the limit after a turn that took all ready claims, while `idle` workers rest.
fn shared_limit(limit: usize, taken: usize, idle: usize) -> usize {
    if idle == 0 || taken >= MANY_CLAIMS {
        limit
    } else {
        (taken / idle.saturating_add(1)).max(SHARE_LEAST)
    }
}

/// A row of calls of the gate, with the turn or without it. Dropping it ends the turn.
pub struct BatchTurn<'t> {
    turns: &'t GateBatching,
    has: bool,
}

impl BatchTurn<'_> {
    /// Counts a claim that was offered.
    pub fn count_offer(&self) {
        self.turns.backlog.add_one();
    }

    /// Counts a claim that was taken.
    pub fn count_taken(&self) {
        self.turns.backlog.remove_one();
    }
}

impl Drop for BatchTurn<'_> {
    // The turn is given back first, so that an intake thread that is woken here finds it free.
    fn drop(self) {
        let BatchTurn { turns, has } = self;
        if has {
            turns.give_back();
        }
        turns.backlog.wake_where_short();
    }
}
