//! The facts of a refused record.
ghost use Rattle.std.specs.Prelude.{◌≡◌, ◌≤◌, ◌-◌, ◌++◌, [], get_or, length, take, IfOk, OnOk};
ghost use Rattle.csv.specs.Records.{fields_of};
ghost use Rattle.faults.specs.declared.file_fault.RowCause.TheVariants.{TooLong, Utf8};
ghost use Rattle.explanation.specs.Refusals.{column_facts, count_facts, field_facts, is_field_count, refusal_facts, shown_bytes};
ghost use Rattle.explanation.specs.Steps.{refused_facts};

use crate::claim_facts::add_record;
use crate::fact::Facts;
use crate::file_record::{field_in, record_at};
use crate::record::refused_record;
use crate::settlement_steps::add_place;
use crate::shown_field::{escaped_bytes, first_characters};
use claim_gate::Terms;
use csv::ByteRecord;
use intake_csv::{RowCause, RowFault};
use remit_records::fault_text;
use std::alloc::{AllocError, Global};

const RECORD: &[u8] = b"this record";

/// The greatest number of characters that are shown of a text that is too long.
const SHOWN_CHARACTERS: usize = 64;

/// The greatest number of bytes that are shown of a field that is not UTF-8.
const SHOWN_BYTES: usize = 256;

/// Returns the facts of a refused record.
pub(crate) fn facts_of_refused(
    alloc: Global,
    terms: &Terms,
    provider: usize,
    number: usize,
    fault: RowFault,
) -> Result<Facts, AllocError>
    requires least { 1 ≤ provider }
    requires most { provider ≤ length terms.now.files }
    ensures { IfOk result (λ facts. facts ≡ refused_facts terms.now.plan.version
        provider number (get_or terms.now.files (provider - 1) []) fault) }
{
    let text = text_of(terms, provider);
    let version = terms.plan().version();
    let mut facts = Facts::new(alloc);
    add_place(&mut facts, provider, number)?;
    let header = record_at(alloc, text, 0)?;
    let fields = record_at(alloc, text, number)?;
    add_refusal(alloc, &mut facts, &header, &fields, fault)?;
    let reason = fault_text(alloc, fault)?;
    facts.add(RECORD, b"refused by", reason.as_bytes())?;
    let line = refused_record(alloc, version, provider, number, fault)?;
    add_record(&mut facts, line.as_slice())?;
    Ok(facts)
}

// Returns the text of a provider's file.
fn text_of<'t>(terms: &Terms<'t>, provider: usize) -> &'t [u8]
    requires least { 1 ≤ provider }
    requires most { provider ≤ length terms.now.files }
    ensures { result.now ≡ get_or terms.now.files (provider - 1) [] }
{
    terms.files()[provider - 1]
}

// Adds where a record with this header is refused.
fn add_refusal(
    alloc: Global,
    facts: &mut Facts,
    header: &ByteRecord,
    fields: &ByteRecord,
    fault: RowFault,
) -> Result<(), AllocError>
    ensures { OnOk result (facts.new ≡ facts.old
        ++ refusal_facts (fields_of header.now) (fields_of fields.now) fault) }
{
    if is_field_count(fault.cause) {
        add_counts(facts, header, fields)
    } else {
        add_column(alloc, facts, header, fields, fault)
    }
}

fn is_field_count(cause: RowCause) -> bool
    ensures { result ≡ is_field_count cause }
{
    matches!(cause, RowCause::FieldCount)
}

// Adds the numbers of fields of a record and of the header.
fn add_counts(facts: &mut Facts, header: &ByteRecord, fields: &ByteRecord) -> Result<(), AllocError>
    ensures { OnOk result (facts.new
        ≡ facts.old ++ count_facts (fields_of header.now) (fields_of fields.now)) }
{
    facts.add_number(RECORD, b"number of fields", fields.len() as u128)?;
    let wanted = header.len() as u128;
    facts.add_number(RECORD, b"number of fields in the header", wanted)
}

// Adds the column of a fault, with its name, and the field in it.
fn add_column(
    alloc: Global,
    facts: &mut Facts,
    header: &ByteRecord,
    fields: &ByteRecord,
    fault: RowFault,
) -> Result<(), AllocError>
    ensures { OnOk result (facts.new ≡ facts.old
        ++ column_facts (fields_of header.now) (fields_of fields.now) fault) }
{
    let RowFault { column, cause } = fault;
    facts.add_number(RECORD, b"refused in column", column as u128)?;
    facts.add(RECORD, b"name of the column", field_in(header, column))?;
    add_field(alloc, facts, cause, field_in(fields, column))
}

// Adds a field with this fault. A field that is not a text of the permitted length is shown in part.
fn add_field(
    alloc: Global,
    facts: &mut Facts,
    cause: RowCause,
    field: &[u8],
) -> Result<(), AllocError>
    ensures { OnOk result (facts.new ≡ facts.old ++ field_facts cause field.now) }
{
    match cause {
        RowCause::Utf8 => add_bytes(alloc, facts, field),
        RowCause::TooLong => add_beginning(alloc, facts, field),
        _ => facts.add(RECORD, b"text of the field", field),
    }
}

// Adds the length of a field that is not UTF-8, and its first bytes.
fn add_bytes(alloc: Global, facts: &mut Facts, field: &[u8]) -> Result<(), AllocError>
    ensures { OnOk result (facts.new ≡ facts.old ++ field_facts Utf8 field.now) }
{
    let first = escaped_bytes(alloc, first_bytes(field))?;
    facts.add_number(RECORD, b"length of the field in bytes", field.len() as u128)?;
    facts.add(RECORD, b"first bytes of the field", first.as_slice())
}

fn first_bytes(field: &[u8]) -> &[u8]
    ensures { result.now ≡ take shown_bytes field.now }
{
    &field[..SHOWN_BYTES.min(field.len())]
}

// Adds the length of a text that is too long, and its first characters.
fn add_beginning(alloc: Global, facts: &mut Facts, field: &[u8]) -> Result<(), AllocError>
    ensures { OnOk result (facts.new ≡ facts.old ++ field_facts TooLong field.now) }
{
    let first = first_characters(alloc, SHOWN_CHARACTERS, field)?;
    facts.add_number(RECORD, b"length of the field in bytes", field.len() as u128)?;
    facts.add(RECORD, b"first characters of the field", first.as_bytes())
}
