//! The command `audit`: reads the texts of a run and a remittance, and says whether the remittance is that of the texts in an order.

ghost use Rattle.std.specs.Prelude.{◌≡◌, ◌≢◌, IfErr, IfOk};
ghost use Rattle.console.specs.declared.exit_status.ExitStatus.TheVariants.{Done, Refused};
ghost use Rattle.console.specs.ExitStatus.{IsUnjudged};
ghost use Rattle.commands.specs.Ends.{AuditIsDone, AuditIsRefused, IsAudited, IsRefusedAudit};
ghost use Rattle.commands.specs.Texts.{IsNamedRemittance};

use adjudicate::{Audit, AuditInput, Difference, Order, do_audit, record_count};
use claim_console::{Texts, cutoff_of, order_of, refuse, slices_of, texts_of};
use clap::ArgMatches;
use console::names::REMITTANCE;
use console::{ExitStatus, Sources, no_memory};
use diagnostics::push_printable;
use evaluation::ValueStop;
use fixpoint::{Out, put_all};
use std::alloc::{AllocError, Global};
use std::io;
use std::thread::Threads;
use value_command::{exit_status_of, read_or_report};

/// Runs the command `audit`, and returns its exit status: `Done` if the remittance is that of the texts, and `Refused` if it is not.
pub fn audit_of<R: Print + Eprint + AllocGlobal + Threads + Sync, S: Sources>(
    rt: &R,
    sources: &S,
    matches: &ArgMatches<'_>,
    explains: bool,
) -> ExitStatus
    ensures done { result ≡ Done → AuditIsDone (S.whole sources.now) matches.now }
    ensures refused { result ≡ Refused → AuditIsRefused (S.whole sources.now) matches.now result }
{
    let texts = match texts_of(rt, sources, matches, explains) {
        Ok(texts) => texts,
        Err(status) => return status,
    };
    match remittance_of(rt, sources, matches, explains) {
        Ok(remittance) => audit_texts(rt, matches, &texts, remittance.as_slice(), explains),
        Err(status) => status,
    }
}

/// Reads the remittance, which may have any length. If it cannot be read, an error line is printed, and its status is returned.
fn remittance_of<R: Eprint + AllocGlobal, S: Sources>(
    rt: &R,
    sources: &S,
    matches: &ArgMatches<'_>,
    explains: bool,
) -> Result<Vec<u8>, ExitStatus>
    ensures named { IfOk result (λ remittance.
        IsNamedRemittance (S.whole sources.now) matches.now remittance.items) }
    ensures failed { IfErr result IsUnjudged }
{
    match matches.get_str(REMITTANCE) {
        Some(name) => {
            let line = "cannot read remittance";
            read_or_report(rt, sources, name, usize::MAX, line, explains)
        }
        None => Err(ExitStatus::Usage),
    }
}

fn audit_texts<'x, R: Print + Eprint + AllocGlobal>(
    rt: &R,
    matches: &ArgMatches<'_>,
    texts: &'x Texts,
    remittance: &'x [u8],
    explains: bool,
) -> ExitStatus
    ensures done { result ≡ Done → IsAudited matches.now texts.now remittance.now }
    ensures refused { result ≡ Refused
        → IsRefusedAudit matches.now texts.now remittance.now result }
{
    let order = order_of(matches);
    if order == Order::Any {
        return ExitStatus::Usage;
    }
    let Ok(files) = slices_of(rt.alloc(), &texts.files) else {
        return no_memory(rt);
    };
    let input = AuditInput {
        plan: texts.plan.as_slice(),
        balances: texts.balances_slice(),
        files: files.as_slice(),
        cutoff: cutoff_of(matches),
        order,
        remittance,
    };
    match do_audit(rt.alloc(), input) {
        Ok(audit) => report(rt, order, remittance, &audit),
        Err(stop) => refuse(rt, &texts.about(explains, matches), stop),
    }
}

/// Prints the result of an audit, and returns its status.
fn report<R: Print + Eprint + AllocGlobal>(
    rt: &R,
    order: Order,
    remittance: &[u8],
    audit: &Audit,
) -> ExitStatus
    ensures done { result ≡ Done → audit.now ≡ Audit.Same }
    ensures refused { result ≡ Refused → audit.now ≢ Audit.Same }
{
    let Ok(lines) = lines_of(rt.alloc(), order, remittance, audit) else {
        return no_memory(rt);
    };
    if let Err(cut) = put_all(lines.as_bytes(), &mut Out::new(io::writer(rt))) {
        let written = cut.written;
        let _ = exit_status_of(rt, &Err(ValueStop::Write { written }));
        return ExitStatus::Resource;
    }
    match audit {
        Audit::Same => ExitStatus::Done,
        Audit::Differs { .. } => ExitStatus::Refused,
    }
}

fn lines_of(
    alloc: Global,
    order: Order,
    remittance: &[u8],
    audit: &Audit,
) -> Result<String, AllocError> {
    match audit {
        Audit::Same => same_line(alloc, order, remittance),
        Audit::Differs { difference, due } => {
            difference_lines(alloc, remittance, due.as_slice(), difference)
        }
    }
}

// The header and the totals are not counted.
fn same_line(alloc: Global, order: Order, remittance: &[u8]) -> Result<String, AllocError> {
    let records = record_count(remittance).saturating_sub(2);
    let words = match order {
        Order::Service => "the days of service",
        _ => "the files",
    };
    format!(in alloc;
        "the remittance is the one of these texts in the order of {words}: {records} records\n"
    )
}

fn difference_lines(
    alloc: Global,
    remittance: &[u8],
    due: &[u8],
    difference: &Difference,
) -> Result<String, AllocError> {
    let number = difference.number;
    let start = difference.start;
    let mut lines = format!(in alloc; "record {number} differs: ")?;
    push_record(
        alloc,
        &mut lines,
        part_of(remittance, start, difference.found_bytes),
    )?;
    lines.push_str("\nit should be: ")?;
    push_record(
        alloc,
        &mut lines,
        part_of(due, start, difference.expected_bytes),
    )?;
    lines.push('\n')?;
    Ok(lines)
}

fn part_of(text: &[u8], start: usize, size: usize) -> &[u8] {
    text.get(start..start.saturating_add(size)).unwrap_or(&[])
}

/// Appends a record without its line end, with U+FFFD in place of each control character.
fn push_record(alloc: Global, lines: &mut String, record: &[u8]) -> Result<(), AllocError> {
    if record.is_empty() {
        return lines.push_str("<no record>");
    }
    let (bytes, end) = match record.strip_suffix(b"\r\n".as_slice()) {
        Some(bytes) => (bytes, ""),
        None => (record, "<no line end>"),
    };
    let words = String::from_utf8_lossy(alloc, bytes)?;
    push_printable(lines, words.as_str())?;
    lines.push_str(end)
}
