//! The backlog of a run: the number of claims by which the intake threads are ahead of the workers.
//! Like the turns it is only a hint.
//!
//! Reading a file is faster than deciding its claims, and a waiting claim takes several times the
//! memory of a decided one. So an intake thread that is far ahead sleeps. The proofs do not depend
//! on the counts: they are wrong if other callers of the same gate take claims, which nobody counts.
//! Every wait is bounded, and after one that ended by its bound all claims so far count as taken, so
//! that wrong counts make an intake thread sleep once in thousands of claims.

use std::sync::Wait;
use std::sync::atomic::{AtomicU64, Ordering};
use std::time::Duration;

#[cfg(test)]
mod tests;

/// The number of waiting claims above which an intake thread sleeps: a few turns of several
/// workers, and a few megabytes.
const CLAIMS_LIMIT: u64 = 8_192;

/// The number of waiting claims at which a sleeping intake thread is woken. It keeps the workers
/// busy until the thread has woken up.
const CLAIMS_ENOUGH: u64 = 4_096;

/// The maximum length of one sleep, in case no thread wakes the sleeper.
const SLEEP_MICROS: u64 = 5_000;

/// The number of sleeps, a tenth of a second in all, after which an intake thread goes on whatever
/// the backlog is: the thread that should take the claims may be waiting for this one, or another
/// caller may have taken them.
const SLEEPS_LIMIT: u32 = 20;

/// The number of waiting claims: those that were offered less those that were taken.
#[derive(Drop)]
pub(crate) struct Backlog {
    offered: AtomicU64,
    taken: AtomicU64,
    // The number of intake threads that sleep or are checking whether to sleep.
    sleepers: AtomicU64,
    // The number of wake-ups. The intake threads sleep on this word, since it does not change while
    // claims are taken.
    wakes: AtomicU64,
}

impl Backlog {
    pub(crate) fn new() -> Backlog {
        Backlog {
            offered: AtomicU64::new(0),
            taken: AtomicU64::new(0),
            sleepers: AtomicU64::new(0),
            wakes: AtomicU64::new(0),
        }
    }

    pub(crate) fn add_one(&self) {
        self.offered.fetch_add(1, Ordering::SeqCst);
    }

    pub(crate) fn remove_one(&self) {
        self.taken.fetch_add(1, Ordering::SeqCst);
    }

    /// Wakes the sleeping intake threads if at most `CLAIMS_ENOUGH` claims wait. If no thread
    /// sleeps, it only reads the number of sleepers.
    ///
    /// A thread that has taken claims calls this afterwards, and no wake-up is lost. An intake
    /// thread first counts itself as a sleeper, then reads `wakes`, then checks the length, and
    /// sleeps only while `wakes` still has the value that it read. If the caller finds no sleeper,
    /// it has looked before the intake thread counted itself, so the intake thread sees that the
    /// claims are taken. If the caller finds one and changes `wakes`, then the intake thread checks
    /// the length after that change, or does not fall asleep, or is woken. (A lost wake-up would
    /// only cost the bound of a sleep.)
    pub(crate) fn wake_where_short(&self) {
        if self.has_sleepers() && self.length() <= CLAIMS_ENOUGH {
            self.wakes.fetch_add(1, Ordering::SeqCst);
            self.wakes.wake_all();
        }
    }

    /// Sleeps for a bounded time if more than `CLAIMS_LIMIT` claims wait. Returns the number of
    /// sleeps.
    pub(crate) fn await_shorter<R: Wait>(&self, rt: &R) -> u32 {
        if self.length() <= CLAIMS_LIMIT {
            return 0;
        }
        self.sleepers.fetch_add(1, Ordering::SeqCst);
        let sleeps = self.sleep_until_short(rt);
        self.sleepers.fetch_sub(1, Ordering::SeqCst);
        if sleeps == SLEEPS_LIMIT {
            self.forget();
        }
        sleeps
    }

    // Counts all claims so far as taken.
    fn forget(&self) {
        self.taken
            .store(self.offered.load(Ordering::SeqCst), Ordering::SeqCst);
    }

    fn sleep_until_short<R: Wait>(&self, rt: &R) -> u32 {
        for sleeps in 0..SLEEPS_LIMIT {
            let wakes = self.wakes.load(Ordering::SeqCst);
            if self.length() <= CLAIMS_ENOUGH {
                return sleeps;
            }
            let low_half = (wakes & u64::from(u32::MAX)) as u32;
            self.wakes
                .park_timeout(rt, low_half, Duration::from_micros(SLEEP_MICROS));
        }
        SLEEPS_LIMIT
    }

    fn has_sleepers(&self) -> bool {
        self.sleepers.load(Ordering::SeqCst) > 0
    }

    /// Saturates, since other callers of the gate may take claims that were not counted.
    fn length(&self) -> u64 {
        let taken = self.taken.load(Ordering::SeqCst);
        self.offered.load(Ordering::SeqCst).saturating_sub(taken)
    }
}
