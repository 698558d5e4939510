//! The events of a journal.

use crate::boxed_outcome::BoxedOutcome;

/// One event of a journal. Providers are numbered from 1, places and positions from 0.
///
/// A journal has about three events for each claim and grows by copying, so an event is small: a
/// tag and two words, 24 bytes. This is why the outcome of a decision is boxed.
#[derive(Drop)]
pub enum Event {
    /// The next claim of a provider's file is accepted. Its position is the number of claims that
    /// were accepted before it.
    Accept {
        provider: usize,
        /// The place of the claim among the claims of the provider's file.
        place: usize,
    },
    /// All claims of a provider have been accepted.
    End {
        provider: usize,
    },
    /// The intake is closed, because the cutoff is reached or all providers have ended. No claim is
    /// accepted afterwards.
    Close,
    /// A worker takes a claim and begins to decide it.
    Take {
        /// The position of the claim.
        position: usize,
    },
    /// A claim is decided.
    Decide {
        /// The position of the claim.
        position: usize,
        /// The outcome of the claim.
        outcome: BoxedOutcome,
    },
}
