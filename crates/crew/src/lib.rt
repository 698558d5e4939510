//! A run reads the providers' files, and accepts and decides their claims, until the journal is finished.
//!
//! `run` starts an intake thread for each provider's file and the given number of workers. They share a gate from
//! `claim_gate`, which a lock from `turn_lock` protects. The terms come from `claim_gate`, the readers of the files from
//! `intake_csv`, the calls of the gate and the work of a worker from `gate_calls`, and the hints about which thread calls the
//! gate next from `gate_batching`.
//! Where the terms ask for an order, the first intake thread alone offers the claims of all files, as `ordered_claims` gives
//! them. `run_with` uses a gate of the caller's.
//!
//! Begin with `threads.rt`, which has the contracts of `run`, `run_watched` and `run_with`; `intake.rt` and `acceptor.rt` have
//! the work of the threads that accept claims, and `fetching.rt` says which runs prefetch.
#![tactic(auto)]

mod acceptor;
mod fetching;
mod intake;
mod reading_signal;
mod threads;

pub use faults::RunFault;
pub use threads::{WORKERS_LIMIT, run, run_watched, run_with};
