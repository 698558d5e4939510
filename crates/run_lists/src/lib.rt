//! What a run reports beside its remittance: the closing balances, the records that need a person,
//! the sums of each file, and the records in which two remittances differ.
//!
//! `closing` finds what each account has after the last claim, `notes` the records that need a
//! person, and `file_sums` the sums of each file. `comparison` lists the records in which two
//! remittances differ; `sheet` writes such lists.
//!
//! Begin with `specs/Closing.antt`, `specs/ClosingText.antt` and `specs/Notes.antt`, which define
//! the closing balances and the notes; then read `closing.rt` and `notes.rt`.
#![tactic(auto)]

mod closing;
mod comparison;
mod file_sums;
mod notes;
mod sheet;

pub use closing::{
    AccountKey, ClosingBalances, closing_balances, closing_balances_carry_on, closing_text,
    closing_text_reads_back,
};
pub use comparison::{ComparedTexts, Comparison, ReasonCount, comparison_of};
pub use file_sums::{FileSums, sums_of_files};
pub use notes::{Note, NoteCause, NotedTexts, notes_of, notes_text};
