//! CSV texts (RFC 4180) that grow by records.

ghost use Rattle.std.specs.Prelude.{◌≡◌, ◌++◌, ◌∷◌, [], IfOk, List, OnOk, ℕ};
ghost use Rattle.csv.specs.Records.{fields_of, partial_of};
ghost use Rattle.plan_rows.specs.Expected.{plain_answer};
ghost use Rattle.plan_rows.specs.Sheet.{HasText, record_text};

use crate::plain::append_plain;
use csv::{ByteRecord, Terminator, Writer, WriterBuilder};
use std::alloc::{AllocError, Global};
use std::marker::Model;
use tables::Answer;

/// The fields of a record that grows. Records that are filled one after another use the same memory.
pub struct Line {
    fields: ByteRecord,
    // The text of the last answer that was pushed.
    answer: Vec<u8>,
}

impl Drop for Line {
    fn drop(self) {
        let Line {
            fields: _,
            answer: _,
        } = self;
    }
}

impl Model for Line {
    ghost use Rattle.std.specs.Prelude.{◌≡◌, [], List, ℕ};
    ghost use Rattle.csv.specs.Records.{fields_of, partial_of};

    ghost Value = { List (List ℕ) };

    ghost view = { λ l. fields_of l.fields };

    ghost invariant = { λ l. partial_of l.fields ≡ [] };
}

impl Line {
    /// Returns a record without fields.
    pub fn new(alloc: Global) -> Line
        ensures { result ≡ [] }
    {
        Line {
            fields: ByteRecord::new(alloc),
            answer: Vec::new(alloc),
        }
    }

    /// Removes all fields.
    pub fn clear(&mut self)
        ensures { self.new ≡ [] }
    {
        self.fields.clear();
    }

    /// Appends a field.
    pub fn push(&mut self, field: &[u8]) -> Result<(), AllocError>
        ensures { OnOk result (self.new ≡ self.old ++ field.now ∷ []) }
    {
        push_or_clear(&mut self.fields, field)
    }

    /// Appends a field with the text of an answer.
    pub fn push_answer(&mut self, answer: &Answer) -> Result<(), AllocError>
        ensures { OnOk result (self.new ≡ self.old ++ plain_answer answer.now ∷ []) }
    {
        self.answer.clear();
        append_plain(&mut self.answer, answer)?;
        push_or_clear(&mut self.fields, self.answer.as_slice())
    }
}

// Appends a field, or leaves no field if memory runs out.
fn push_or_clear(fields: &mut ByteRecord, field: &[u8]) -> Result<(), AllocError>
    requires { partial_of fields.old ≡ [] }
    ensures pushed { OnOk result (fields_of fields.new ≡ fields_of fields.old ++ field.now ∷ []) }
    ensures whole { partial_of fields.new ≡ [] }
{
    if fields.push_field(field).is_err() {
        fields.clear();
        return Err(AllocError);
    }
    Ok(())
}

/// Returns a writer of an empty text.
pub fn sheet_writer(alloc: Global) -> Writer<Vec<u8>>
    ensures { HasText result [] }
{
    WriterBuilder::new()
        .terminator(Terminator::CRLF)
        .from_writer(Vec::new(alloc))
}

/// Appends the record to the text.
pub fn write_line(writer: &mut Writer<Vec<u8>>, line: &Line) -> Result<(), AllocError>
    ensures { OnOk result ((text : List ℕ) → HasText writer.old text
        → HasText writer.new (text ++ record_text line.now)) }
{
    let Ok(()) = writer.write_byte_record(&line.fields) else {
        return Err(AllocError);
    };
    Ok(())
}

/// Returns the text.
pub fn into_text(writer: Writer<Vec<u8>>) -> Result<Vec<u8>, AllocError>
    ensures { IfOk result (λ bytes. (text : List ℕ) → HasText writer text → bytes.items ≡ text) }
{
    match writer.into_inner() {
        Ok(text) => Ok(text),
        Err(_) => Err(AllocError),
    }
}
