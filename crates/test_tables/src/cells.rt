//! Tests of the texts of cells with their results, of values with their literals, and of the limits
//! of a cell. A call that runs out of memory is repeated, so a refused allocation must not lead to
//! any other result.
//!
//! Small functions return the result of one text each, so that the loops over the tables own no
//! values. This keeps the proofs of the loops small.
mod examples;
mod limits;
mod table;

use crate::ending::{expects, fail};
use feel_tests::{CellCause, CellFault, Kind, Value, read_cell, read_plain, read_value};
use std::alloc::Global;
use std::process::Abort;

// Reads the cell once, and returns its fault.
fn reported_of(alloc: Global, kind: Kind, text: &str) -> Option<CellFault> {
    read_cell(alloc, kind, text).err()
}

// Returns the fault of a text that is not a cell of the kind, even if one allocation is refused.
fn fault_of(alloc: Global, kind: Kind, text: &str) -> Option<CellFault> {
    match reported_of(alloc, kind, text) {
        Some(fault) if fault.cause == CellCause::OutOfMemory => reported_of(alloc, kind, text),
        fault => fault,
    }
}

// Reads a literal, even if one allocation is refused.
fn value_of(rt: &impl Abort, alloc: Global, kind: Kind, literal: &str) -> Value {
    if let Ok(value) = read_value(alloc, kind, literal) {
        return value;
    }
    let Ok(value) = read_value(alloc, kind, literal) else {
        fail(rt, literal)
    };
    value
}

// Reads a plain field, even if one allocation is refused.
fn plain_of(rt: &impl Abort, alloc: Global, kind: Kind, field: &str) -> Value {
    if let Ok(value) = read_plain(alloc, kind, field) {
        return value;
    }
    let Ok(value) = read_plain(alloc, kind, field) else {
        fail(rt, field)
    };
    value
}

// Returns `times` copies of a piece between a front and a back.
fn repeat_test(
    rt: &impl Abort,
    alloc: Global,
    front: &str,
    piece: &str,
    times: usize,
    back: &str,
) -> String {
    let mut text = String::from_str(alloc, front).expect(rt, "memory");
    for _ in 0..times {
        text.push_str(piece).expect(rt, "memory");
    }
    text.push_str(back).expect(rt, "memory");
    text
}
