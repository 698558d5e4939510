//! The faults of cells, plans, tables, files, terms, runs and reports, and the number of each in the
//! program's messages; the reason for which a fault of the tables pends a claim, with its words; and
//! what each refusal of a command has. Also the words that several crates share: the keys and
//! numbers of a plan's roles, the built-in names, numbers that count from 1, and the characters that
//! no message shows (`printable`).
//!
//! These types need nothing of the crates that find the faults, so that the explanations of faults
//! need nothing of those crates either. Each crate that finds faults hands their types on by its own
//! root.
#![tactic(auto)]

mod cell_fault;
mod fault;
mod file_fault;
pub mod names;
mod ordinal;
mod plan_fault;
mod printable;
mod reason;
mod refusal;
mod role;
mod role_key;
mod run_fault;
mod terms_fault;
mod write_fault;

pub use cell_fault::{CellCause, CellFault};
pub use fault::Fault;
pub use file_fault::{BalanceFault, FileFault, RowCause, RowFault};
pub use ordinal::Ordinal;
pub use plan_fault::{PlanCause, PlanFault};
pub use printable::push_printable;
pub use reason::Reason;
pub use refusal::{LINE_LIMIT_BYTES, Refusal};
pub use role::Role;
pub use role_key::{FAMILY_ROLE_KEYS, ROLE_KEYS, RoleKey};
pub use run_fault::RunFault;
pub use terms_fault::TermsFault;
pub use write_fault::{WriteCause, WriteFault};
