//! The command `value`: it evaluates the plan that the command line names, and reports errors by a line and an exit status.
//!
//! `command.rt` is for the program that has only this command, and `value.rt` runs it. `files.rt` reads the plan, and `explaining.rt` explains
//! errors.
//!
//! The other commands use these parts as well: `source_text.rt` reads a text, `output.rt` writes results to a file, `error_line.rt` prints the
//! line of an error, and `explanation.rt` its explanation.
#![tactic(auto)]

mod command;
mod error_line;
mod explaining;
mod explanation;
mod files;
mod output;
mod source_text;
mod value;

pub use command::{matched_status, status};
pub use error_line::exit_status_of;
pub use explaining::{explain_refusal, value_message};
pub use explanation::{About, print_lines, print_message};
pub use files::plan_of;
pub use output::{commit_output, output_of, report_unwritable};
pub use source_text::{read_or_report, report_unread};
pub use value::value_of;
