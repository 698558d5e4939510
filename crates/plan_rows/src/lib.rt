//! What a plan's author tests with files: whether the plan gives the answers that the rows of a file
//! expect, and what it gives for the values of each row.
//!
//! A file of tests is a CSV file with a row for each test, with the values that are given and the
//! outputs that are expected. `records.rt` reads its records, `columns.rt` finds what each column is
//! for, and `given.rt` reads the values of a row. `filing.rt` makes a claim of these values, if a column
//! expects a part (`part.rt`) of its settlement. `readable.rt` finds expectations that cannot be read,
//! `expected.rt` compares a field with an answer, and `lines.rt` writes a line for each difference.
//! `judging.rt` tests a row, `report.rt` all rows, and `testing.rt` is the command. `stop.rt` has every
//! error of the command, with its line and its exit status. Begin with `testing.rt`: the contract of
//! `do_test` is the promise of the command.
//! Then read `specs/Columns.antt`, `specs/Given.antt` and `specs/Expected.antt`, which define when a row
//! is right, and `specs/Report.antt`, which defines the output.
//!
//! The rows of a file can also be written with the values that a plan gives them. `row_columns.rt` finds
//! what each column is for, `valued_row.rt` makes the record of a row by the compiled plan, `sheet.rt`
//! writes records, `valued_rows.rt` writes all rows, and `valuing.rt` is the command. `rows_stop.rt` has
//! every error of the command. Begin with `valuing.rt`, and then read `specs/ValuedRows.antt`, which
//! defines the output.
#![tactic(auto)]

mod columns;
mod expected;
mod filing;
mod finding;
mod given;
mod judging;
mod lines;
mod part;
mod plain;
mod readable;
mod records;
mod report;
mod row_columns;
mod rows_stop;
mod sheet;
mod stop;
mod testing;
mod valued_row;
mod valued_rows;
mod valuing;

pub use columns::FAULT;
pub use records::name_of_column;
pub use rows_stop::{RowsFault, RowsStop};
pub use stop::{CasesFault, TestStop};
pub use testing::{CASES_LIMIT_BYTES, Tested, do_test};
pub use valuing::do_rows;
