//! The command `check` as functions of a plan's text and a writer: the gaps and the overlaps of a
//! plan's tables.
//!
//! The check of a plan and the violations of its hit policies come from `cutplan`; `check/` writes
//! a line for each gap and overlap, and for each error that the command reports. Begin with
//! `check.rt`: the contracts of `do_check` and `do_errors_check` are the promises of the command.
//! Then read `specs/CheckText.antt` and `specs/ErrorsText.antt`, which define its output.
#![tactic(auto)]

mod check;

pub use check::report::Findings;
pub use check::{do_check, do_errors_check, do_findings_check};
