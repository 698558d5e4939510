//! The records of the remittance: what is written for each record of the providers' files, and how
//! many records have each status.
//!
//! `record.rt` pushes the fields of a record, and `record_writer.rt` writes finished records (RFC
//! 4180) by the `csv` crate. `field_texts.rt` has the texts of reasons, faults and remarks,
//! `amount.rt` the columns of money, and `sums.rt` their totals. `Decisions` finds the outcome of
//! each claim in the journal of a finished run (`claim_gate`). `count_run` counts the records of a
//! run by their status.
//!
//! Begin with `specs/Records.antt` and `specs/Report.antt`, which define the remittance, and
//! `specs/Writing.antt`, which defines how much of it a writer has received; then read `record.rt`.
#![tactic(auto)]

mod amount;
mod counts;
mod decisions;
mod field_texts;
mod fields;
mod record;
mod record_writer;
mod sums;

pub use counts::{FileCounts, RecordCounts, RecordStatus, RefusalCount, RunCounts, count_run};
pub use decisions::Decisions;
pub use field_texts::{fault_text, reason_text};
pub use fields::{end_record, push_field, writer_into};
pub use record::{
    push_claim, push_family, push_header, push_money, push_number, push_refused, push_row,
    push_total, push_whose, push_year,
};
pub use record_writer::RecordWriter;
pub use sums::Sums;
