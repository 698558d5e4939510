//! The command `run`: it settles the claims of the files that the command line names, and reports errors by a line and an exit status.
//!
//! `command.rt` is for the program that has only this command, `run.rt` runs it, and `noted.rt` writes the notes of a run. What it shares with the
//! other commands over claims is in `claim_console`.
#![tactic(auto)]

mod command;
mod noted;
mod run;

pub use command::{matched_status, status};
pub use run::run_of;
