//! What the commands over claims share: their options, the texts that the command line names, the explanations of errors, and the lines about a run.
//!
//! `texts.rt` reads the texts, and `remarking.rt` and `strict.rt` report what they show before claims are read. `words.rt` reads the options, and
//! `explaining.rt` explains errors. `counted.rt` reports what a run did, by the lines of `summary.rt` and `detail.rt`. `further.rt` opens and ends the
//! outputs beside the remittance, and `listed.rt` writes the notes.
#![tactic(auto)]

mod counted;
mod detail;
mod explaining;
mod further;
mod listed;
mod remarking;
mod strict;
mod summary;
mod texts;
mod words;

pub use counted::{Counted, report_counts};
pub use explaining::{AboutFiles, explain_refusal, refuse};
pub use further::{about_without_explanation, further_place, put_further};
pub use listed::work_list;
pub use remarking::print_unknown_keys;
pub use strict::refuse_unused;
pub use summary::has_refused_file;
pub use texts::{Texts, records_in, slices_of, texts_of};
pub use words::{cutoff_of, is_strict, order_of, workers_of};
