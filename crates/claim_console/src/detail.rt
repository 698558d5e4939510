//! The lines of a summary for each file, and for each reason why records are pended or refused.

use crate::counted::Counted;
use faults::{Reason, RowFault};
use remit_records::{FileCounts, RefusalCount};
use run_lists::{FileSums, Note, NoteCause};
use std::alloc::{AllocError, Global};

/// A cause of notes, and the number of records that have it.
#[derive(Clone, Copy)]
struct CauseCount {
    cause: NoteCause,
    count: u64,
}

/// A line for each file, with its records by status and its amounts, and a line for each reason, with the number of its records. The reasons are in
/// the order in which they come first.
pub fn detail_of(alloc: Global, counted: Counted) -> Result<String, AllocError> {
    let mut lines = String::new(alloc);
    if let Some(sums) = counted.sums {
        add_files(alloc, &mut lines, counted.counts.files.as_slice(), sums)?;
    }
    if let Some(notes) = counted.notes {
        add_reasons(alloc, &mut lines, notes)?;
    }
    Ok(lines)
}

fn add_files(
    alloc: Global,
    lines: &mut String,
    files: &[FileCounts],
    sums: &[FileSums],
) -> Result<(), AllocError> {
    for place in 0..files.len() {
        if let Some(amounts) = sums.get(place) {
            add_file(alloc, lines, place + 1, &files[place], *amounts)?;
        }
    }
    Ok(())
}

fn add_file(
    alloc: Global,
    lines: &mut String,
    provider: usize,
    file: &FileCounts,
    sums: FileSums,
) -> Result<(), AllocError> {
    let counts = file.counts;
    add_number(alloc, lines, "File ", provider as u64, "")?;
    add_number(alloc, lines, ": ", counts.paid, " paid")?;
    add_number(alloc, lines, ", ", counts.denied, " denied")?;
    add_number(alloc, lines, ", ", counts.pended, " pended")?;
    add_number(alloc, lines, ", ", counts.refused, " refused")?;
    add_number(alloc, lines, ", ", counts.late, " late")?;
    add_number(alloc, lines, ", ", counts.records(), " in all")?;
    add_amount(alloc, lines, "; allowed ", sums.allowed)?;
    add_amount(alloc, lines, ", share ", sums.share)?;
    add_amount(alloc, lines, ", paid ", sums.paid)?;
    lines.push_str("\n")
}

fn add_number(
    alloc: Global,
    lines: &mut String,
    before: &str,
    number: u64,
    after: &str,
) -> Result<(), AllocError> {
    let digits = number.to_string(alloc)?;
    lines.push_str(before)?;
    lines.push_str(digits.as_str())?;
    lines.push_str(after)
}

// Amounts are whole cents, in ten-thousandths.
fn add_amount(
    alloc: Global,
    lines: &mut String,
    before: &str,
    units: u128,
) -> Result<(), AllocError> {
    let whole = (units / 10_000).to_string(alloc)?;
    let cents = units % 10_000 / 100;
    let tens = (cents / 10).to_string(alloc)?;
    let ones = (cents % 10).to_string(alloc)?;
    lines.push_str(before)?;
    lines.push_str(whole.as_str())?;
    lines.push('.')?;
    lines.push_str(tens.as_str())?;
    lines.push_str(ones.as_str())
}

fn add_reasons(alloc: Global, lines: &mut String, notes: &[Note]) -> Result<(), AllocError> {
    let mut counts = Vec::new(alloc);
    for note in notes {
        count(&mut counts, note.cause)?;
    }
    for counted in counts.as_slice() {
        add_reason(alloc, lines, *counted)?;
    }
    Ok(())
}

fn count(counts: &mut Vec<CauseCount>, cause: NoteCause) -> Result<(), AllocError> {
    for known in counts.iter_mut() {
        if known.cause == cause {
            known.count = known.count.saturating_add(1);
            return Ok(());
        }
    }
    counts.push(CauseCount { cause, count: 1 })?;
    Ok(())
}

fn add_reason(alloc: Global, lines: &mut String, counted: CauseCount) -> Result<(), AllocError> {
    let count = counted.count;
    match counted.cause {
        NoteCause::Pended(reason) => {
            lines.push_str("Pended for ")?;
            push_reason(alloc, lines, reason)?;
        }
        NoteCause::Refused(fault) => {
            lines.push_str("Refused for ")?;
            push_fault(alloc, lines, fault)?;
        }
    }
    add_number(alloc, lines, ": ", count, "\n")
}

fn push_reason(alloc: Global, lines: &mut String, reason: Reason) -> Result<(), AllocError> {
    lines.push_str(reason.word())?;
    add_number(alloc, lines, ":", reason.place() as u64, "")?;
    match reason.column() {
        Some(column) => add_number(alloc, lines, ":", column as u64, ""),
        None => Ok(()),
    }
}

fn push_fault(alloc: Global, lines: &mut String, fault: RowFault) -> Result<(), AllocError> {
    let words = RefusalCount { fault, count: 1 }.reason(alloc)?;
    lines.push_str(words.as_str())
}
