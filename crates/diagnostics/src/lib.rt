//! Explains faults to a person at a terminal, by their cause and their fix: those of a plan, of arguments, of the tables, and of the system. It also
//! has what other explanations are made of; `claim_diagnostics` explains the files of claims with it.
//!
//! Begin with `texts.rt` and `system_texts.rt`, which have the texts as functions over the enums of the faults; `scripts/faults` prints the list of all
//! faults from them. `message.rt` composes the lines. `plan.rt`, `table.rt` and `argument.rt` explain a fault of a plan, of the tables and of an
//! argument, and `missing_values.rt` the names without an argument. `plan_node.rt` finds the value of the plan's document at a fault's place by its
//! path (`value_path.rt`), `hints.rt` says what is wrong there, and `input_name.rt` what the name of an input is. `shape.rt` has the keys of a plan
//! and the types of their values.
//!
//! `forms.rt` compares a text with a form, as people write cells. `cell_rows.rt`, `cause_rows.rt` and `words.rt` are lists of sentences, each with such
//! forms below it; `row.rt` finds the first one that fits a cell, and `cell_hints.rt` makes the advice from it, by the kind of the cell's column
//! (`kind.rt`). To mend one more mistake, add a row there, and a line to `tests/program/cells.tsv`.
//!
//! `scanner.rt` finds the offset of each key and value of a TOML text with the tokens of `toml_parser`, `places.rt` has the offsets, and `position.rt`
//! counts lines and columns. `edits.rt` finds misspellings.
#![tactic(auto)]

mod advice;
mod argument;
mod cause_rows;
mod cell_hints;
mod cell_rows;
mod edits;
mod forms;
mod hints;
mod input_name;
mod kind;
mod message;
mod missing_values;
mod places;
mod plan;
mod plan_node;
mod position;
mod row;
mod scanner;
mod shape;
mod system_texts;
mod table;
mod texts;
mod value_path;
mod words;

pub use advice::Advice;
pub use argument::{explain_argument, explain_literal};
pub use edits::is_one_edit;
pub use faults::push_printable;
pub use forms::{Subject, values_of};
pub use input_name::FAMILIES_SINCE;
pub use kind::{Kind, kind_of_built_in, kind_of_name};
pub use message::{
    Message, Part, dots_if, explain, explain_at, explain_unusable_file, shown_front,
};
pub use missing_values::explain_missing;
pub use places::{Node, Places, Step};
pub use plan::explain_plan;
pub use plan_node::{
    add_name_in_table, document_of, items_after, path_in_table, tables, text_after, text_at,
    value_at, version_of,
};
pub use position::{Position, Positions, position_of};
pub use scanner::places_of;
pub use shape::Shape;
pub use system_texts::{
    argument_given_twice, argument_of_unknown_name, argument_without_equals, memory,
    run_explanation, unreadable_file, unwritable_output, write_explanation,
};
pub use table::explain_tables;
pub use texts::{Explanation, money_explanation};
