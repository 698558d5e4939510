//! What the texts of a run show before it begins: records that may be lost because a quote is wrong, files and claim numbers that come twice, and
//! opening balances of accounts without a claim.
//!
//! Begin with `specs/Quotes.antt`, which defines quoted fields by the states in which `csv` reads a text. `scan.rt` finds the quoted fields that are
//! never closed and the records that run over several lines, and `lines.rt` reports them. `records.rt` reads the claims of all files, and `accounts.rt`
//! has the accounts of the balances. `cell_search.rt` is for a check: it finds cells of a plan that no allowed value satisfies.
#![tactic(auto)]

mod accounts;
mod cell_search;
mod lines;
mod records;
mod scan;

pub use cell_search::empty_cells;
pub use lines::{Remarks, ends_in_quotes};
pub use scan::{Quotes, quotes_of};
