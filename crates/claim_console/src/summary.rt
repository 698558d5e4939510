//! What a run did with its records, in lines for a person.

use crate::explaining::AboutFiles;
use claim_diagnostics::explain_refused_record;
use remit_records::{FileCounts, RecordCounts, RefusalCount, RunCounts};
use std::alloc::{AllocError, Global};

/// A line with the counts of all records and the amount that the plan pays, and two lines for each file with refused records: their number and the reason
/// that most of them have, and this reason in words.
pub fn summary_of(
    alloc: Global,
    run: &RunCounts,
    about: &AboutFiles,
) -> Result<String, AllocError> {
    let mut counts = RecordCounts::new();
    for file in run.files.as_slice() {
        counts = counts.plus(file.counts);
    }
    let amount = run.paid_text(alloc)?;
    let mut lines = counts_line(alloc, counts, amount.as_str())?;
    add_refused_files(alloc, &mut lines, run, about)?;
    Ok(lines)
}

fn counts_line(alloc: Global, counts: RecordCounts, amount: &str) -> Result<String, AllocError> {
    let records = counts.records();
    let RecordCounts {
        paid,
        denied,
        pended,
        refused,
        late,
    } = counts;
    format!(in alloc;
        "The files have these records: {paid} paid, {denied} denied, {pended} pended, {refused} refused, {late} late, {records} in all. The plan pays {amount}.\n"
    )
}

/// Two lines for each file whose records were all refused, as in the summary.
pub fn refused_files_of(
    alloc: Global,
    run: &RunCounts,
    about: &AboutFiles,
) -> Result<String, AllocError> {
    let mut lines = String::new(alloc);
    let files = run.files.as_slice();
    for place in 0..files.len() {
        if is_all_refused(&files[place]) {
            add_refused_file(alloc, &mut lines, place + 1, &files[place], about)?;
        }
    }
    Ok(lines)
}

/// Whether all records of some file were refused.
pub fn has_refused_file(run: &RunCounts) -> bool {
    for file in run.files.as_slice() {
        if is_all_refused(file) {
            return true;
        }
    }
    false
}

fn is_all_refused(file: &FileCounts) -> bool {
    let refused = file.counts.refused;
    refused > 0 && refused == file.counts.records()
}

fn add_refused_files(
    alloc: Global,
    lines: &mut String,
    run: &RunCounts,
    about: &AboutFiles,
) -> Result<(), AllocError> {
    let files = run.files.as_slice();
    for place in 0..files.len() {
        add_refused_file(alloc, lines, place + 1, &files[place], about)?;
    }
    Ok(())
}

fn add_refused_file(
    alloc: Global,
    lines: &mut String,
    provider: usize,
    file: &FileCounts,
    about: &AboutFiles,
) -> Result<(), AllocError> {
    let Some(most) = file.most_frequent_refusal() else {
        return Ok(());
    };
    let line = refusals_line(alloc, provider, file.counts, &most)?;
    lines.push_str(line.as_str())?;
    let text = about.file(provider);
    let words = explain_refused_record(alloc, text, about.plan.plan, &most.fault)?;
    lines.push_str(words.as_str())
}

fn refusals_line(
    alloc: Global,
    provider: usize,
    counts: RecordCounts,
    most: &RefusalCount,
) -> Result<String, AllocError> {
    let (refused, records) = (counts.refused, counts.records());
    let reason = most.reason(alloc)?;
    let count = most.count;
    if refused == records {
        return format!(in alloc;
            "File {provider}: all records were refused ({records}); the most frequent reason is {reason} ({count}).\n"
        );
    }
    format!(in alloc;
        "File {provider}: {refused} of {records} records were refused; the most frequent reason is {reason} ({count}).\n"
    )
}
