//! Progress lines on standard error while a run takes long.

use std::alloc::Global;
use std::sync::Arc;
use std::sync::atomic::{AtomicU64, Ordering};
use std::thread;
use std::thread::{JoinHandle, Threads};
use std::time::{Clock, Duration};

/// The interval at which the thread checks whether the work is done. The end of the work waits at most this long for the thread.
const STEP_MILLISECONDS: u64 = 20;

/// The number of steps between two lines.
const STEPS_OF_A_LINE: u64 = 100;

/// The number of seconds between two lines.
const SECONDS_OF_A_LINE: u64 = 2;

/// A thread that prints a line every two seconds until the work is done.
#[derive(Drop)]
pub struct Heartbeat {
    /// 1 once the work is done.
    done: Arc<AtomicU64, Global>,
    /// The number of claims that are decided so far.
    decided: Arc<AtomicU64, Global>,
    thread: JoinHandle<()>,
}

impl Heartbeat {
    /// Starts the thread for work on this number of records. If the system has no memory or no thread for it, the work goes on without progress
    /// lines.
    pub fn start<R: AllocGlobal + Clock + Clone + Drop + Eprint + Threads + Send + 'static>(
        rt: &R,
        records: u64,
    ) -> Option<Heartbeat> {
        let done = Arc::new(rt.alloc(), AtomicU64::new(0)).ok()?;
        let decided = Arc::new(rt.alloc(), AtomicU64::new(0)).ok()?;
        let seen = Arc::try_clone(&done).ok()?;
        let counted = Arc::try_clone(&decided).ok()?;
        let theirs: R = rt.clone().ok()?;
        let thread = thread::spawn(rt, move || {
            print_until_done(&theirs, &seen, &counted, records)
        })
        .ok()?;
        Some(Heartbeat {
            done,
            decided,
            thread,
        })
    }

    /// The counter of the claims that are decided so far, to which the work adds; none if memory runs out.
    pub fn decided_count(&self) -> Option<Arc<AtomicU64, Global>> {
        Arc::try_clone(&self.decided).ok()
    }

    /// Ends the thread.
    pub fn end<R: Threads>(self, rt: &R) {
        self.done.store(1, Ordering::SeqCst);
        self.thread.join(rt);
    }
}

fn print_until_done<R: Clock + Eprint>(
    rt: &R,
    done: &AtomicU64,
    decided: &AtomicU64,
    records: u64,
) {
    for step in 1..u64::MAX {
        thread::sleep(rt, Duration::from_millis(STEP_MILLISECONDS));
        if done.load(Ordering::SeqCst) == 1 {
            return;
        }
        if step % STEPS_OF_A_LINE == 0 {
            let seconds = step / STEPS_OF_A_LINE * SECONDS_OF_A_LINE;
            print_progress(rt, seconds, decided.load(Ordering::Relaxed), records);
        }
    }
}

fn print_progress<R: Eprint>(rt: &R, seconds: u64, decided: u64, records: u64) {
    // The work goes on even if the line cannot be printed.
    let _ = eprintln!(rt; "still running after {seconds} s: {decided} of {records} records");
}
