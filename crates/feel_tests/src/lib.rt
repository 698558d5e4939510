//! The unary tests of a decision table's cells, and the literals in them (DMN 1.4, S-FEEL).
//!
//! A `Value` is a number, a text, a flag or a day. A `Cell` is the condition that one entry of a
//! table puts on a value: none, a list of tests of which one must hold, or a list of tests of which
//! none may hold. `read_cell` and `read_value` read their texts, `Cell::holds` applies a cell to a
//! value, and `Value::write_text` writes a value as a literal. Numbers come from `fixpoint`, faults
//! from `faults`, the calendar from `jiff`, and the list of a cell's tests from `smallvec`.
//!
//! Begin with `specs/Words.antt` and `specs/Grammar.antt`, which define what a text denotes, and
//! `specs/Holds.antt`, which defines when a cell holds; then read `cell.rt` and `reading.rt`.
#![tactic(auto)]

mod cell;
mod dates;
mod day;
mod joined;
mod kind;
mod law;
mod literal;
mod literals;
mod plain;
mod reading;
mod refusal;
mod sequence;
mod strings;
mod symbol;
mod text;
mod unary;
mod value;
mod word;

pub use cell::{Cell, Op, TEST_LIMIT, Test, Tests};
pub use dates::{day_year, year_in, year_text};
pub use day::{Day, FIRST_DAY};
pub use faults::{CellCause, CellFault};
pub use joined::{Bytes, Literals, Spelling, append_joined};
pub use kind::Kind;
pub use law::{
    field_spells_at_most_one_value, literal_spells_its_value, text_spells_at_most_one_cell,
    text_spells_at_most_one_value,
};
pub use plain::{PlainFault, read_plain};
pub use reading::{read_cell, read_value};
pub use sequence::{Sequence, duplicates};
pub use text::{TEXT_LIMIT_BYTES, Text};
pub use value::Value;
pub use word::{is_name_byte, is_name_start};
