//! The calls of the gate by the threads of a run, and the work of a worker thread.
//!
//! `shared.rt` has what the threads of a run share. `offering.rt` has the calls by which claims are accepted and providers end, and `worker.rt` those by
//! which claims are taken and their outcomes recorded. `stopping.rt` ends a run that can't continue, and `least_fault.rt` has its fault. A caller keeps
//! the threads: `crew`.
//!
//! Each function takes the thread's pass of the gate and returns it, also with a fault (`Exit`). What it promises of the pass is the same for all of
//! them: it has seen what it had seen before, and with each fault but that of memory no caller of the gate is kept waiting.
#![tactic(auto)]

mod least_fault;
mod offering;
mod shared;
mod spare_claims;
mod stopping;
mod worker;

pub use least_fault::LeastFault;
pub use offering::{end, offer};
pub use shared::{Exit, Onward, Shared};
pub use spare_claims::SpareClaims;
pub use stopping::stop;
pub use worker::run_worker;
