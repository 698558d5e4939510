//! A batch adjudicator for health-plan claims, as a library. The commands of the program are
//! functions of texts and a writer, so that a host can embed them and tests can call them.
//!
//! `value` has the command `value`, which `evaluation` implements, and `check_report` has the
//! command `check`. `claim_run` has the command `run`, which settles claims and writes their
//! remittance, and `run_lists` makes what a run reports beside it. `audit` has the command `audit`,
//! which says whether given bytes are the remittance of the texts in an order, and `ordered` returns
//! that remittance.
//!
//! Plans and their evaluation come from `tables` and `cutplan`, cells and values come from
//! `feel_tests`, and numbers and the writer come from `fixpoint`. `orders` defines what an order of
//! acceptance determines, and has the errors of the commands (`Stop`).
//!
//! Begin with `value.rt` and `audit.rt`, with `run.rt` of `claim_run`, and with `check.rt` of
//! `check_report`: the contracts of `do_value`, `do_check`, `do_errors_check`, `do_run` and `do_audit`
//! are the promises of the commands. Then read `specs/RunText.antt` of `claim_run`, and
//! `specs/ValueText.antt` of `evaluation`, which define the output of the commands, and
//! `specs/Audits.antt`, `specs/Differing.antt` and `specs/RecordEnds.antt`, which define what an audit
//! says of the bytes.
#![tactic(auto)]

mod audit;
mod ordered;
mod value;

pub use audit::{Audit, AuditInput, Difference, decide_all, do_audit, record_count};
pub use check_report::{Findings, do_check, do_errors_check, do_findings_check};
pub use claim_gate::Order;
pub use claim_run::{Counting, RunInput, do_counted_run, do_run};
pub use crew::WORKERS_LIMIT;
pub use dtable::PLAN_LIMIT_BYTES;
pub use evaluation::{ArgumentFault, LINE_LIMIT_BYTES, ValueStop};
pub use intake_csv::FILE_LIMIT_BYTES;
pub use ordered::{OrderedInput, do_ordered_remittance};
pub use orders::{Stop, texts_have_one_remittance};
pub use remit::{FileCounts, RecordCounts, RefusalCount, RunCounts};
pub use run_lists::{
    AccountKey, ClosingBalances, ComparedTexts, Comparison, FileSums, Note, NoteCause, NotedTexts,
    ReasonCount, closing_balances, closing_balances_carry_on, closing_text,
    closing_text_reads_back, comparison_of, notes_of, notes_text,
};
pub use tables::Name;
pub use value::do_value;
