//! The lines of a comparison of remittances: its sums, and the records by status and reason.

use adjudicate::{Comparison, ReasonCount};
use diagnostics::push_printable;
use std::alloc::{AllocError, Global};

/// The number of records that differ, what both plans pay, and the number of records with each status and reason.
pub fn lines_of(alloc: Global, comparison: &Comparison) -> Result<String, AllocError> {
    let mut lines = String::new(alloc);
    add_number(alloc, &mut lines, "", comparison.differing, " of ")?;
    add_number(
        alloc,
        &mut lines,
        "",
        comparison.records,
        " records differ.\n",
    )?;
    add_amounts(
        alloc,
        &mut lines,
        "The plan pays ",
        comparison.old_paid.as_slice(),
        comparison.new_paid.as_slice(),
    )?;
    add_amounts(
        alloc,
        &mut lines,
        "Members pay ",
        comparison.old_share.as_slice(),
        comparison.new_share.as_slice(),
    )?;
    for count in comparison.reasons.as_slice() {
        add_reason(alloc, &mut lines, count)?;
    }
    Ok(lines)
}

fn add_amounts(
    alloc: Global,
    lines: &mut String,
    start: &str,
    old: &[u8],
    new: &[u8],
) -> Result<(), AllocError> {
    lines.push_str(start)?;
    push_field(alloc, lines, old)?;
    lines.push_str(" before and ")?;
    push_field(alloc, lines, new)?;
    lines.push_str(" after.\n")
}

fn add_reason(alloc: Global, lines: &mut String, count: &ReasonCount) -> Result<(), AllocError> {
    push_field(alloc, lines, count.status.as_slice())?;
    if !count.reason.is_empty() {
        lines.push(' ')?;
        push_field(alloc, lines, count.reason.as_slice())?;
    }
    add_number(alloc, lines, ": ", count.old, " before and ")?;
    add_number(alloc, lines, "", count.new, " after\n")
}

fn add_number(
    alloc: Global,
    lines: &mut String,
    before: &str,
    number: u64,
    after: &str,
) -> Result<(), AllocError> {
    let digits = number.to_string(alloc)?;
    lines.push_str(before)?;
    lines.push_str(digits.as_str())?;
    lines.push_str(after)
}

fn push_field(alloc: Global, lines: &mut String, field: &[u8]) -> Result<(), AllocError> {
    let words = String::from_utf8_lossy(alloc, field)?;
    push_printable(lines, words.as_str())
}
