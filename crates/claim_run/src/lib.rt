//! The command `run` as a function of texts and a writer, so that a host can embed it and tests can
//! call it: it settles claims and writes their remittance.
//!
//! A run goes from the texts to their terms (`claim_gate`), to a finished journal (`crew`), and to its
//! remittance (`remit`). `counting` keeps what a run reports beside the remittance, which `run_lists`
//! makes. Begin with `do_run` in `run.rt`, whose contract is the promise of the command, and then read
//! `specs/RunText.antt`.
#![tactic(auto)]

mod counting;
mod run;

pub use counting::Counting;
pub use run::{RunInput, do_counted_run, do_run};
