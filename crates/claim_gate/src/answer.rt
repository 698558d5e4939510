//! How a call of a gate comes back.

use crate::fault::{FinishFault, OfferFault};
use crate::job::DecidedJob;
use crate::offer::Offer;
use crate::reply::{Accepted, Recorded};

/// The result of `offer`: the position of the accepted claim, or the refused offer.
pub type OfferResult = Result<Accepted, Refused<OfferFault, Offer>>;

/// The result of `finish`: the claim of the recorded outcome, or the refused job with its outcome.
pub type FinishResult = Result<Recorded, Refused<FinishFault, DecidedJob>>;

/// A call that the gate has served: its reply, and the caller's pass.
#[derive(Drop)]
pub struct Served<T, P> {
    /// The reply.
    pub reply: T,
    /// The pass, which has seen the state that the call left.
    pub pass: P,
}

/// A refused call: why it is refused, and the value that was given to it.
#[derive(Drop)]
pub struct Refused<F, V> {
    /// Why the call is refused.
    pub fault: F,
    /// The value that was given to the call, unchanged.
    pub value: V,
}

/// A call that the gate has not served because its lock has no ticket left. The call has changed nothing.
#[derive(Drop)]
pub struct WornOut<P, V = ()> {
    /// The pass, which knows what it knew.
    pub pass: P,
    /// The value that was given to the call, unchanged.
    pub value: V,
}
