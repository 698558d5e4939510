//! The settlement of a health plan's claims: the outcome of a claim, in exact money, and its effect
//! on the accumulators of its member and of the member's family.
//!
//! A provider files a `Claim`. An `Acc` has the accumulators of a member and of its family.
//! `decide` evaluates the plan's tables for both by any `Valuer` of `tables`, takes the plan's
//! roles from their answers and returns the `Outcome`: paid with its amounts, denied, or pended
//! with a `Reason`. An `Adjudicator` decides many claims by a valuer with `InputClasses`, and reuses
//! what the claims of a class have in common. `after` returns the accumulators after the outcome.
//! Numbers come from `fixpoint`, values from `feel_tests`, and reasons from `faults`.
//!
//! Begin with `specs/Settlement.antt`, which has the rules, one per line; then read `deciding.rt`.
#![tactic(auto)]

mod acc;
mod account;
mod amounts;
mod bindings;
mod claim;
mod cost_sharing;
mod deciding;
mod determination;
mod determination_cache;
mod money;
mod outcome;
mod rate;
mod remark_table;
mod remarks;
mod role_bindings;
mod workspace;

pub use acc::Acc;
pub use account::{Balance, account_year};
pub use claim::{Claim, fields_of};
pub use deciding::{Adjudicator, after, decide};
pub use faults::{Reason, Role};
pub use money::Money;
pub use outcome::{Outcome, Verdict};
pub use remarks::Remarks;
