//! What each account has met, paid and been paid after the last claim of a run: the closing
//! balances, with which a later run begins.
//!
//! `closing_balances` adds the outcomes of a finished run to its opening balances, account by
//! account. `closing_text` writes them as the file of balances that a run reads. The rows come from
//! `intake_csv`, the finished run from `claim_gate`, and the outcomes from `remit_records`.
//!
//! Begin with `specs/Closing.antt`, which defines closing balances, and `specs/ClosingText.antt`,
//! which defines their text; then read `posting.rt`. `specs/Charges.antt` says what a row adds to which
//! account. `laws.rt` says that a run from the closing balances carries on.
mod account_key;
mod accounts;
mod laws;
mod posting;
mod text;

pub use account_key::AccountKey;
pub use accounts::ClosingBalances;
pub use laws::{closing_balances_carry_on, closing_text_reads_back};
pub use posting::closing_balances;
pub use text::closing_text;
