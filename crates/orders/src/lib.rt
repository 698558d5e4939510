//! The texts of a run, the remittance that they have in an order of acceptance, and the errors that
//! stop a command which reads them.
//!
//! `laws` says what an order determines: each outcome, each total, and the remittance. `stop` has
//! the errors of all commands, each with its line and its exit status. The crate adds to `journal`
//! and `remit_records` definitions and laws, without threads or state.
//!
//! Begin with `specs/Order.antt`, `specs/Remittance.antt` and `specs/RunTexts.antt`, which define
//! the remittance of terms and of texts in an order; then read `laws.rt` and `specs/Stop.antt`.
#![tactic(auto)]

mod laws;
mod stop;

pub use laws::{
    decided_by_order, order_has_a_journal, order_takes_all_claims, ordered_journals_accept_alike,
    ordered_remittance_is_one, report_is_of_its_order, texts_have_one_ordered_remittance,
    texts_have_one_remittance, totals_by_order,
};
pub use stop::Stop;
