//! Each prefix of the longest cell, which is `not(`, 64 strings of 256 bytes with commas between
//! them, and `)`. The end-to-end cases have the longest cell and other long ones, and the prefixes
//! shorter than `not(`.
use super::{fault_of, repeat_test};
use crate::ending::expects_at;
use feel_tests::CellCause::Token;
use feel_tests::{CellFault, Kind, TEST_LIMIT, TEXT_LIMIT_BYTES};
use std::alloc::Global;
use std::process::Abort;

// The length of a string of the longest cell with the byte after it: two quotes, and a comma or the
// parenthesis.
const STEP_BYTES: usize = TEXT_LIMIT_BYTES + 3;

fn longest_cell(rt: &impl Abort, alloc: Global) -> String {
    let last = repeat_test(rt, alloc, "\"", "x", TEXT_LIMIT_BYTES, "\")");
    let string = repeat_test(rt, alloc, "\"", "x", TEXT_LIMIT_BYTES, "\",");
    repeat_test(
        rt,
        alloc,
        "not(",
        string.as_str(),
        TEST_LIMIT - 1,
        last.as_str(),
    )
}

// A prefix of the longest cell ends too early at the quote of the string that it cuts, or at its
// own end.
fn early_end(len: usize) -> usize {
    let after_open = len.saturating_sub(4);
    let inside = after_open % STEP_BYTES;
    if 0 < inside && inside < STEP_BYTES - 1 {
        len.saturating_sub(inside)
    } else {
        len
    }
}

#[test]
fn every_front_of_the_longest_cell_is_answered(rt: HostRuntime) {
    let text = longest_cell(&rt, rt.alloc());
    let bytes = text.as_bytes();
    for len in 4..bytes.len() {
        let front = str::from_utf8(&bytes[..len]).expect(&rt, "text");
        let fault = fault_of(rt.alloc(), Kind::Text, front);
        let at = early_end(len);
        expects_at(&rt, fault == Some(CellFault { at, cause: Token }), len);
    }
}
