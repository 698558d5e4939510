//! The texts of facts: lines for a reader, or records for a program.
ghost use Rattle.std.specs.Prelude.{◌≡◌, ◌++◌, flat_map, IfOk, OnOk};
ghost use Rattle.explanation.specs.Facts.{fact_line, fact_record, fact_text, facts_text, head_text, shown};

use crate::fact::Fact;
use crate::record::record_of;
use faults::push_printable;
use std::alloc::{AllocError, Global};

/// The form of an explanation's text.
#[derive(Clone, Copy)]
pub enum Format {
    /// A line for each fact, with U+FFFD in place of each control character and each hidden one, and of
    /// bytes that are not UTF-8.
    Text,
    /// A CSV record (RFC 4180) for each fact, after a header: its step, its name and its value.
    Csv,
}

/// Returns the text of facts.
pub(crate) fn facts_text(
    alloc: Global,
    format: Format,
    facts: &[Fact],
) -> Result<Vec<u8>, AllocError>
    ensures { IfOk result (λ text. text.items ≡ facts_text format facts.now) }
{
    let mut text = Vec::from_slice(alloc, head_of(format))?;
    append_facts(alloc, &mut text, format, facts)?;
    Ok(text)
}

/// Appends the facts, without a header.
pub(crate) fn append_facts(
    alloc: Global,
    text: &mut Vec<u8>,
    format: Format,
    facts: &[Fact],
) -> Result<(), AllocError>
    ensures { OnOk result (text.new.items
        ≡ text.old.items ++ flat_map (fact_text format) facts.now) }
{
    for fact in facts {
        append_fact(alloc, text, format, fact)?;
    }
    Ok(())
}

/// Returns the header of the records, with its line end.
pub(crate) fn head_of(format: Format) -> &'static [u8]
    ensures { result.now ≡ head_text format }
{
    match format {
        Format::Text => b"",
        Format::Csv => b"step,name,value\r\n",
    }
}

fn append_fact(
    alloc: Global,
    text: &mut Vec<u8>,
    format: Format,
    fact: &Fact,
) -> Result<(), AllocError>
    ensures { OnOk result (text.new.items ≡ text.old.items ++ fact_text format fact.now) }
{
    match format {
        Format::Text => append_line(alloc, text, fact),
        Format::Csv => append_record(alloc, text, fact),
    }
}

fn append_line(alloc: Global, text: &mut Vec<u8>, fact: &Fact) -> Result<(), AllocError>
    ensures { OnOk result (text.new.items ≡ text.old.items ++ fact_line fact.now) }
{
    text.extend_from_slice(fact.step())?;
    text.extend_from_slice(b", ")?;
    append_shown(alloc, text, fact.name())?;
    text.extend_from_slice(b": ")?;
    append_shown(alloc, text, fact.value())?;
    text.push(b'\n')?;
    Ok(())
}

// Appends a text as a terminal may show it.
fn append_shown(alloc: Global, text: &mut Vec<u8>, bytes: &[u8]) -> Result<(), AllocError>
    ensures { OnOk result (text.new.items ≡ text.old.items ++ shown bytes.now) }
{
    let words = String::from_utf8_lossy(alloc, bytes)?;
    let mut shown = String::new(alloc);
    push_printable(&mut shown, words.as_str())?;
    text.extend_from_slice(shown.as_bytes())
}

fn append_record(alloc: Global, text: &mut Vec<u8>, fact: &Fact) -> Result<(), AllocError>
    ensures { OnOk result (text.new.items ≡ text.old.items ++ fact_record fact.now) }
{
    let line = record_of(alloc, fact.step(), fact.name(), fact.value())?;
    text.extend_from_slice(line.as_slice())
}
