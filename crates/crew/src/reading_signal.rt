//! The signal from the threads that read claims ahead to the acceptor.

use claim_gate::Order;
use std::sync::atomic::{AtomicU64, Ordering};

/// The number of turns in which the acceptor offers as many claims as a reader reads ahead at once. A shorter round is not long
/// compared with the time in which the readers' threads start.
const TURNS_A_ROUND: usize = 4;

/// The readers are at work.
const READING: u64 = 0;

/// The readers have read what they were asked for.
const DONE: u64 = 1;

/// Whether the readers have read what they were asked for in a round of the acceptor. It is a hint: a wrong one costs only time.
#[derive(Drop)]
pub(crate) struct ReadingSignal {
    word: AtomicU64,
    // One file is given at a time, so that its reader should never wait long for the next round.
    ends_rounds: bool,
}

impl ReadingSignal {
    /// Creates the signal of readers that are at work.
    pub(crate) fn new(order: Order) -> ReadingSignal {
        ReadingSignal {
            word: AtomicU64::new(READING),
            ends_rounds: order == Order::Files,
        }
    }

    /// Notes that the readers have read what they were asked for.
    pub(crate) fn note_done(&self) {
        self.word.store(DONE, Ordering::SeqCst);
    }

    /// Returns whether a round ends after this number of turns, so that the readers go on in the next one.
    pub(crate) fn ends_round(&self, turns: usize) -> bool {
        self.ends_rounds && turns >= TURNS_A_ROUND && self.word.load(Ordering::SeqCst) == DONE
    }
}
