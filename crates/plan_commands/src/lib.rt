//! The commands over a plan without claims: each runs a command of the library over the texts that the command line names, prints the line of an error,
//! and returns an exit status. `value` and the parts that all commands share are in `value_command`.
//!
//! Begin with `commands.rt`, which chooses the command. `rows.rt` evaluates the rows of a file, and `testing.rt` tests a plan with them;
//! `rows_explaining.rt` and `test_explaining.rt` explain the errors.
//! `whole_check.rt` checks all tables of a plan together; `zone_lines.rt`, `zone_cells.rt` and `dead_lines.rt` have its lines. `names.rt` lists a plan's
//! names, and `show.rt` shows its tables; `pages.rt` makes and writes what these two show. `words.rt` reads the options, and `lines.rt` prints lines that
//! are no errors.
//!
//! `compare.rt` compares two plans. `compare_words.rt` reads its options, `compare_report.rt` makes the report, and `compare_refusal.rt` has the errors.
//! `change_parts.rt` takes changes apart, `zone_sets.rt` joins sets of zones, `change_lines.rt` makes lines of both, and `change_text.rt` writes them.
//! `near_names.rt` finds names that were meant.
#![tactic(auto)]

mod change_lines;
mod change_parts;
mod change_text;
mod commands;
mod compare;
mod compare_refusal;
mod compare_report;
mod compare_words;
mod dead_lines;
mod lines;
mod names;
mod near_names;
mod pages;
mod rows;
mod rows_explaining;
mod show;
mod test_explaining;
mod testing;
mod whole_check;
mod words;
mod zone_cells;
mod zone_lines;
mod zone_sets;

pub use commands::plan_command;
pub use whole_check::check_whole_plan;
pub use words::fails;
