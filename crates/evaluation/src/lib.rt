//! The evaluation of a plan's tables for given arguments, as a library. The command `value` is a
//! function of texts and a writer, so that a host can embed it and tests can call it.
//!
//! `value` reads the arguments, evaluates the tables and writes a line for each output. `stop` has
//! every error of the command, with its line and its exit status.
//!
//! Plans and their evaluation come from `tables`, cells and values come from `feel_tests`, and
//! numbers and the writer come from `fixpoint`. `faults` has the texts for faults of the tables and
//! the trait that the errors of all commands implement.
//!
//! Begin with `value.rt`: the contract of `do_value` is the promise of the command. Then read
//! `specs/ValueText.antt` and `specs/Stop.antt`, which define its output and its errors.
#![tactic(auto)]

mod output;
mod stop;
mod value;

pub use faults::{LINE_LIMIT_BYTES, Refusal};
pub use stop::line::ErrorLine;
pub use stop::{ArgumentFault, ValueStop};
pub use value::do_value;
