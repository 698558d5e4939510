//! Scheduling hints for the threads of a run: which thread calls the gate next, and how far the
//! intake threads may be ahead of the workers. Correctness does not depend on these hints.
//!
//! The threads of a run share one `GateBatching`. A thread that has begun a `BatchTurn` makes many
//! calls of the gate in a row while the other threads sleep, and ends its turn by dropping it. A
//! worker that finds no claim to decide rests.
//!
//! The crate knows neither gates nor claims: its callers count the claims that they offer and take.
//! So it uses no other crate of the repository, only the pauses of `crossbeam_utils`, and it is
//! built and proved in parallel with the crates below `crew`.
//!
//! Begin with `batching.rt`, which explains why a wrong hint costs only time. `backlog.rt` counts
//! the waiting claims.
#![tactic(auto)]

mod backlog;
mod batching;

pub use batching::{BatchTurn, GateBatching, OFFERS_LIMIT, TAKES_LIMIT};
