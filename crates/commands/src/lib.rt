//! The commands of the program: each runs a command of the library over the texts that the command line names, prints the line of an error, and
//! returns an exit status. `run` is in `run_command`, what the commands over claims share is in `claim_console`, the commands over a plan without claims are in
//! `plan_commands`, and what all share is in `value_command`.
//!
//! Begin with `commands.rt`, which chooses the command; `check.rt`, `auditing.rt`, `explained.rt` and `compared_claims.rt` run it. `words.rt` and
//! `asked.rt` read the options, and `comparison_lines.rt` has the sums of a comparison.
#![tactic(auto)]

mod asked;
mod auditing;
mod check;
mod commands;
mod compared_claims;
mod comparison_lines;
mod explained;
mod words;

pub use commands::{matched_status, status};
