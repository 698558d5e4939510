//! Explains what the commands over claims find: faults of files of claims and balances, records that were
//! refused, and what the writer of a valid plan cannot have meant. It also finds the unknown keys of a
//! plan.
//!
//! `claim_file.rt` explains a fault of a file by its header (`header_reasons.rt`), `refused_record.rt`
//! why records were refused, and `file_texts.rt` has the texts; `scripts/faults` prints the list of all
//! faults from them. `checked_plan.rt` explains entries of a valid plan that pend each claim that gets
//! them, which `role_entries.rt` finds. `unread.rt` compares the keys of a plan with those that are
//! known. Messages and the places in a plan come from `diagnostics`.
#![tactic(auto)]

mod checked_plan;
mod claim_file;
mod file_texts;
mod header_reasons;
mod refused_record;
mod role_entries;
mod unread;

pub use checked_plan::{CellPlace, explain_checked_plan};
pub use claim_file::{FileKind, explain_file, explain_record};
pub use file_texts::terms_explanation;
pub use refused_record::explain_refused_record;
pub use unread::unknown_keys;
