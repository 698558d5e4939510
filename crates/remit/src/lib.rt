//! The remittance of a run: a CSV report (RFC 4180) with the decision on each record of the
//! providers' files.
//!
//! `write_report` writes the remittance of a finished run, and `write_report_by_threads` writes the
//! same bytes by several threads, each of which writes some sections of it (`sections.rt`). The rows
//! come from `intake_csv`, the finished run and its journal come from `claim_gate`, and
//! `remit_records` has the records.
//!
//! Begin with `specs/Records.antt` and `specs/Report.antt` of `remit_records`, which define the
//! remittance; then read `report.rt`.
#![tactic(auto)]

mod by_threads;
mod report;
mod sections;

pub use faults::{WriteCause, WriteFault};
pub use remit_records::{
    Decisions, FileCounts, RecordCounts, RecordStatus, RefusalCount, RunCounts, count_run,
    end_record, fault_text, push_claim, push_family, push_field, push_money, push_number,
    push_refused, push_whose, push_year, reason_text, writer_into,
};
pub use report::{write_report, write_report_by_threads};
