//! Fixed-point decimals with four places, money, and writers that remember a failure.
//!
//! A `Fixed` is a whole count of ten-thousandths, called its units, of at most fifteen digits.
//! Contracts see a `Fixed` as that count. `Fixed::parse` reads a number text, `write_into` writes
//! the shortest text and `write_money` the text with two decimals. Sums are exact, and products are
//! rounded once to whole cents. `Out` passes bytes to a writer, one write a call, `put_all` passes
//! a whole text, and `BufferedOut` a text that is put in small pieces; `BoundedBuffer` is a writer
//! into memory with a limit on its length. The digits come from `itoa` and the messages of the
//! errors from `thiserror`. Only `BufferedOut` and `BoundedBuffer` allocate.
//!
//! Begin with `specs/Number.antt`, `specs/NumberText.antt` and `specs/Money.antt`, which define
//! numbers, their texts and money; then read `fixed.rt`, `out.rt` with `specs/Out.antt`, and
//! `buffered_out.rt` with `specs/BufferedOut.antt`.
#![tactic(auto)]

mod bounded_buffer;
mod buffered_out;
mod fault;
mod fixed;
mod laws;
mod out;
mod reading;
mod rounding;
mod whole_write;
mod writing;

pub use bounded_buffer::BoundedBuffer;
pub use buffered_out::{BufferedOut, PIECE_BYTES};
pub use fault::NumFault;
pub use fixed::{Fixed, MAX_UNITS, UNITS_PER_ONE};
pub use laws::{
    money_text_denotes, products_are_rounded, shortest_text_denotes, text_denotes_at_most_one,
};
pub use out::{Failed, Out};
pub use whole_write::{ShortWrite, put_all};
