//! What the plan gives for the values of a row.

use settlement::Outcome;
use tables::{Env, Fault};

/// The value of the plan's tables or their fault, and the outcome of a claim with the row's values
/// if the rows are settled.
#[derive(Drop)]
pub struct Finding<'p> {
    pub tables: Result<Env<'p>, Fault>,
    pub settled: Option<Outcome>,
}
