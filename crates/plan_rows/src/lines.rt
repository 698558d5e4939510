//! The lines of a row: one for each expectation that the plan does not meet.

ghost use Rattle.std.specs.Prelude.{◌≡◌, ◌<◌, ◌++◌, ◌↔◌, ◌⊎◌, ℕ, List, [], Some, IfOk, IsSomeAnd, IsTrue, OnOk, codes, decimal, length};
ghost use Rattle.std.specs.Option.{option_copied, option_map_or};
ghost use Rattle.csv.specs.Records.{field_at, fields_of};
ghost use Rattle.evaluation.specs.Stop.{fault_text};
ghost use Rattle.faults.specs.ReasonText.{reason_text};
ghost use Rattle.plan_rows.specs.declared.columns.Use.TheVariants.{Expected, Settled};
ghost use Rattle.plan_rows.specs.Expected.{HasAnswer, plain_answer};
ghost use Rattle.plan_rows.specs.Lines.{HasPart, IsFieldText, IsFound, IsMet, IsOptional, IsRowText, answered, absent_word, difference_line, expected_words, expects_faults, fault_line, found_fault, found_text, found_words, is_for_faults, part_text, printed, row_start, shown, tables_fault, unexpected_line};
ghost use Rattle.plan_rows.specs.Parts.{pending_text, status_word};

use crate::columns::{Column, FAULT, Use};
use crate::expected::{denotes_number, has_answer};
use crate::finding::Finding;
use crate::part::Part;
use crate::plain::append_plain;
use csv::ByteRecord;
use faults::{Reason, push_printable};
use feel_tests::Value;
use itoa::Buffer;
use settlement::{Outcome, Verdict};
use std::alloc::{AllocError, Global};
use tables::{Answer, Env, Fault};

/// The word for a text that is absent.
const ABSENT: &[u8] = b"none";

/// Returns the lines of the row with this number, which has a field for each column, and for whose
/// values the plan gives this.
pub fn row_text(
    alloc: Global,
    number: usize,
    columns: &[Column<'_>],
    row: &ByteRecord,
    finding: &Finding<'_>,
) -> Result<Vec<u8>, AllocError>
    requires { length (fields_of row.now) ≡ length columns.now }
    ensures { IfOk result (λ text.
        IsRowText number finding.now columns.now (fields_of row.now) text.items) }
{
    let mut text = Vec::new(alloc);
    append_unexpected(&mut text, number, columns, row, finding)?;
    for (place, column) in columns.iter().enumerate() {
        append_field(&mut text, number, *column, field_of(row, place), finding)?;
    }
    Ok(text)
}

/// Returns the field at an index.
pub fn field_of(row: &ByteRecord, place: usize) -> &[u8]
    requires { place < length (fields_of row.now) }
    ensures { field_at (fields_of row.now) place ≡ Some result.now }
{
    match row.get(place) {
        Some(field) => field,
        None => unreachable!(),
    }
}

fn expects_faults(columns: &[Column<'_>], row: &ByteRecord) -> bool
    requires { length (fields_of row.now) ≡ length columns.now }
    ensures { result ≡ expects_faults columns.now (fields_of row.now) }
{
    for (place, column) in columns.iter().enumerate() {
        if column.used.is_for_faults(field_of(row, place)) {
            return true;
        }
    }
    false
}

impl Use {
    fn is_for_faults(self, field: &[u8]) -> bool
        ensures { result ≡ is_for_faults self field.now }
    {
        match self {
            Use::Settled(Part::Status) => !field.is_empty(),
            Use::Settled(Part::Reason) => !field.is_empty(),
            Use::Settled(Part::Amount(_)) => false,
            Use::Fault => true,
            Use::Given(_) => false,
            Use::Expected => false,
            Use::Carried => false,
        }
    }
}

// Appends the line of a fault if no field of the row says anything of faults.
fn append_unexpected(
    text: &mut Vec<u8>,
    number: usize,
    columns: &[Column<'_>],
    row: &ByteRecord,
    finding: &Finding<'_>,
) -> Result<(), AllocError>
    requires { length (fields_of row.now) ≡ length columns.now }
    ensures { OnOk result (text.new.items ≡ text.old.items
        ++ unexpected_line number columns.now (fields_of row.now) finding.now) }
{
    if expects_faults(columns, row) {
        return Ok(());
    }
    let found = found_fault(*text.allocator(), finding)?;
    append_fault_line(text, number, found.as_slice())
}

// Appends the line of a fault that is not expected; nothing if there is none.
fn append_fault_line(text: &mut Vec<u8>, number: usize, found: &[u8]) -> Result<(), AllocError>
    ensures { OnOk result (text.new.items ≡ text.old.items ++ fault_line number found.now) }
{
    if found.is_empty() {
        return Ok(());
    }
    append_difference(text, number, FAULT, ABSENT, found)
}

// Appends the line of a difference if the field's expectation is not met.
fn append_field(
    text: &mut Vec<u8>,
    number: usize,
    column: Column<'_>,
    field: &[u8],
    finding: &Finding<'_>,
) -> Result<(), AllocError>
    ensures { OnOk result ((line : List ℕ)
        × (text.new.items ≡ text.old.items ++ line)
        × IsFieldText number finding.now column.entry field.now line) }
{
    let alloc = *text.allocator();
    if is_met(alloc, column, field, finding)? {
        return Ok(());
    }
    let found = found_text(alloc, column, finding)?;
    append_difference(
        text,
        number,
        column.name,
        text_or_absent(field),
        found.as_slice(),
    )
}

fn is_met(
    alloc: Global,
    column: Column<'_>,
    field: &[u8],
    finding: &Finding<'_>,
) -> Result<bool, AllocError>
    ensures { IfOk result (λ met. IsTrue met ↔ IsMet finding.now column.entry field.now) }
{
    match column.used {
        Use::Given(_) => Ok(true),
        Use::Carried => Ok(true),
        Use::Expected => meets_answer(alloc, column.name, field, finding),
        Use::Settled(part) => meets_part(alloc, part, field, finding),
        Use::Fault => is_fault(alloc, field, finding),
    }
}

// An empty field expects no answer.
fn meets_answer(
    alloc: Global,
    name: &str,
    field: &[u8],
    finding: &Finding<'_>,
) -> Result<bool, AllocError>
    ensures { IfOk result (λ met. IsTrue met ↔ (((field.now ≡ []) × IsOptional Expected)
        ⊎ IsFound Expected finding.now name.now field.now)) }
{
    if field.is_empty() {
        return Ok(true);
    }
    is_answered(alloc, name, field, &finding.tables)
}

// An empty field expects no part of the settlement. The name of its column does not matter.
fn meets_part(
    alloc: Global,
    part: Part,
    field: &[u8],
    finding: &Finding<'_>,
) -> Result<bool, AllocError>
    ensures { IfOk result (λ met. (name : List ℕ) → IsTrue met
        ↔ (((field.now ≡ []) × IsOptional (Settled part))
        ⊎ IsFound (Settled part) finding.now name field.now)) }
{
    if field.is_empty() {
        return Ok(true);
    }
    is_settled_so(alloc, part, field, &finding.settled)
}

fn is_answered(
    alloc: Global,
    name: &str,
    field: &[u8],
    tables: &Result<Env<'_>, Fault>,
) -> Result<bool, AllocError>
    ensures { IfOk result (λ met. IsTrue met
        ↔ IsSomeAnd (answered tables.now name.now) (HasAnswer field.now)) }
{
    match answer_named(tables, name) {
        Some(answer) => has_answer(alloc, field, answer),
        None => Ok(false),
    }
}

fn answer_named<'o>(tables: &'o Result<Env<'_>, Fault>, name: &str) -> Option<&'o Answer>
    ensures { option_copied result ≡ answered tables.now name.now }
{
    match tables {
        Ok(values) => values.get(name),
        Err(_) => None,
    }
}

fn is_settled_so(
    alloc: Global,
    part: Part,
    field: &[u8],
    settled: &Option<Outcome>,
) -> Result<bool, AllocError>
    ensures { IfOk result (λ met. IsTrue met
        ↔ IsSomeAnd settled.now (HasPart part field.now)) }
{
    match settled {
        Some(outcome) => has_part(alloc, part, field, outcome),
        None => Ok(false),
    }
}

fn has_part(alloc: Global, part: Part, field: &[u8], outcome: &Outcome) -> Result<bool, AllocError>
    ensures { IfOk result (λ same. IsTrue same ↔ HasPart part field.now outcome.now) }
{
    match part {
        Part::Status => Ok(field == status_word(outcome.verdict).as_bytes()),
        Part::Reason => {
            let reason = pending_text(alloc, outcome.verdict)?;
            Ok(reason.as_slice() == field)
        }
        Part::Amount(amount) => denotes_number(alloc, field, amount.of(outcome).amount()),
    }
}

fn is_fault(alloc: Global, field: &[u8], finding: &Finding<'_>) -> Result<bool, AllocError>
    ensures { IfOk result (λ met. IsTrue met ↔ field.now ≡ found_fault finding.now) }
{
    let found = found_fault(alloc, finding)?;
    Ok(found.as_slice() == field)
}

// Returns the reason why the claim pends, or the fault of the tables; empty if there is none.
fn found_fault(alloc: Global, finding: &Finding<'_>) -> Result<Vec<u8>, AllocError>
    ensures { IfOk result (λ text. text.items ≡ found_fault finding.now) }
{
    match &finding.settled {
        Some(outcome) => pending_text(alloc, outcome.verdict),
        None => tables_fault(alloc, &finding.tables),
    }
}

fn tables_fault(alloc: Global, tables: &Result<Env<'_>, Fault>) -> Result<Vec<u8>, AllocError>
    ensures { IfOk result (λ text. text.items ≡ tables_fault tables.now) }
{
    let mut text = Vec::new(alloc);
    if let Err(fault) = tables {
        append_fault(&mut text, *fault)?;
    }
    Ok(text)
}

/// Returns the word for a verdict, as the remittance has it.
pub fn status_word(verdict: Verdict) -> &'static str
    ensures { result.now ≡ status_word verdict }
{
    match verdict {
        Verdict::Paid => "paid",
        Verdict::Denied => "denied",
        Verdict::Pended(_) => "pended",
    }
}

fn pending_text(alloc: Global, verdict: Verdict) -> Result<Vec<u8>, AllocError>
    ensures { IfOk result (λ text. text.items ≡ pending_text verdict) }
{
    let mut text = Vec::new(alloc);
    if let Verdict::Pended(reason) = verdict {
        append_reason(&mut text, reason)?;
    }
    Ok(text)
}

// Returns what is found in place of the expectation of a column.
fn found_text(
    alloc: Global,
    column: Column<'_>,
    finding: &Finding<'_>,
) -> Result<Vec<u8>, AllocError>
    ensures { IfOk result (λ text. text.items ≡ found_text finding.now column.entry) }
{
    match column.used {
        Use::Given(_) => Ok(Vec::new(alloc)),
        Use::Carried => Ok(Vec::new(alloc)),
        Use::Expected => answer_text(alloc, answer_named(&finding.tables, column.name)),
        Use::Settled(part) => match &finding.settled {
            Some(outcome) => part_text(alloc, part, outcome),
            None => Vec::from_slice(alloc, ABSENT),
        },
        Use::Fault => {
            let found = found_fault(alloc, finding)?;
            Vec::from_slice(alloc, text_or_absent(found.as_slice()))
        }
    }
}

fn answer_text(alloc: Global, answer: Option<&Answer>) -> Result<Vec<u8>, AllocError>
    ensures { IfOk result (λ text. text.items
        ≡ option_map_or plain_answer (option_copied answer.entry) absent_word) }
{
    let mut text = Vec::new(alloc);
    match answer {
        Some(answer) => append_plain(&mut text, answer)?,
        None => text.extend_from_slice(ABSENT)?,
    }
    Ok(text)
}

fn part_text(alloc: Global, part: Part, outcome: &Outcome) -> Result<Vec<u8>, AllocError>
    ensures { IfOk result (λ text. text.items ≡ part_text part outcome.now) }
{
    match part {
        Part::Status => Vec::from_slice(alloc, status_word(outcome.verdict).as_bytes()),
        Part::Reason => {
            let reason = pending_text(alloc, outcome.verdict)?;
            Vec::from_slice(alloc, text_or_absent(reason.as_slice()))
        }
        Part::Amount(amount) => {
            let mut text = Vec::new(alloc);
            Value::Number(amount.of(outcome).amount()).write_text(&mut text)?;
            Ok(text)
        }
    }
}

// Returns the text, or the word for an absent one if it is empty.
fn text_or_absent(text: &[u8]) -> &[u8]
    ensures { result.now ≡ shown text.now }
{
    if text.is_empty() { ABSENT } else { text }
}

// Appends `row N: expected NAME EXPECTED, found FOUND` and the end of the line.
fn append_difference(
    text: &mut Vec<u8>,
    number: usize,
    name: &str,
    expected: &[u8],
    found: &[u8],
) -> Result<(), AllocError>
    ensures { OnOk result (text.new.items ≡ text.old.items
        ++ difference_line number name.now expected.now found.now) }
{
    append_row_start(text, number)?;
    append_expected(text, name, expected)?;
    append_found(text, found)
}

fn append_expected(text: &mut Vec<u8>, name: &str, expected: &[u8]) -> Result<(), AllocError>
    ensures { OnOk result (text.new.items
        ≡ text.old.items ++ expected_words name.now expected.now) }
{
    text.extend_from_slice(b"expected ")?;
    append_printed(text, name.as_bytes())?;
    text.extend_from_slice(b" ")?;
    append_printed(text, expected)
}

fn append_found(text: &mut Vec<u8>, found: &[u8]) -> Result<(), AllocError>
    ensures { OnOk result (text.new.items ≡ text.old.items ++ found_words found.now) }
{
    text.extend_from_slice(b", found ")?;
    append_printed(text, found)?;
    text.extend_from_slice(b"\n")
}

/// Appends `row N: `.
pub fn append_row_start(text: &mut Vec<u8>, number: usize) -> Result<(), AllocError>
    ensures { OnOk result (text.new.items ≡ text.old.items ++ row_start number) }
{
    text.extend_from_slice(b"row ")?;
    append_number(text, number)?;
    text.extend_from_slice(b": ")
}

/// Appends a text as a line shows it: U+FFFD replaces what a terminal would obey or not show.
pub fn append_printed(text: &mut Vec<u8>, bytes: &[u8]) -> Result<(), AllocError>
    ensures { OnOk result (text.new.items ≡ text.old.items ++ printed bytes.now) }
{
    let alloc = *text.allocator();
    let words = String::from_utf8_lossy(alloc, bytes)?;
    let mut shown = String::new(alloc);
    push_printable(&mut shown, words.as_str())?;
    text.extend_from_slice(shown.as_bytes())
}

/// Appends the decimal digits of a number.
pub fn append_number(text: &mut Vec<u8>, number: usize) -> Result<(), AllocError>
    ensures { OnOk result (text.new.items ≡ text.old.items ++ decimal number) }
{
    text.extend_from_slice(Buffer::new().format(number).as_bytes())
}

/// Appends the reason of a fault, as the remittance has it.
pub fn append_fault(text: &mut Vec<u8>, fault: Fault) -> Result<(), AllocError>
    ensures { OnOk result (text.new.items ≡ text.old.items ++ fault_text fault) }
{
    match Reason::of(fault) {
        Some(reason) => append_reason(text, reason),
        None => text.extend_from_slice(b"memory"),
    }
}

fn append_reason(text: &mut Vec<u8>, reason: Reason) -> Result<(), AllocError>
    ensures { OnOk result (text.new.items ≡ text.old.items ++ reason_text reason) }
{
    text.extend_from_slice(reason.word().as_bytes())?;
    append_place(text, reason.place())?;
    if let Some(column) = reason.column() {
        append_place(text, column)?;
    }
    Ok(())
}

/// Appends a colon and a number.
pub fn append_place(text: &mut Vec<u8>, number: usize) -> Result<(), AllocError>
    ensures { OnOk result (text.new.items ≡ text.old.items ++ (codes ":" ++ decimal number)) }
{
    text.push(b':')?;
    append_number(text, number)
}
