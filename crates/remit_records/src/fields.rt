//! The fields of a record, which the CSV writer renders one by one.
ghost use Rattle.std.specs.Prelude.{◌≡◌, [], ◌∷◌, false, OnOk};
ghost use Rattle.csv.specs.Writing.{fields_written, has_written, writer_pending, writer_setup, writer_under};
ghost use Rattle.remit_records.specs.Fields.{Ends, Pushes};
ghost use Rattle.remit_records.specs.Report.{report_style};

use csv::{Terminator, Writer, WriterBuilder};
use std::alloc::AllocError;

/// Returns a writer that appends records to a text, in the style of the remittance.
pub fn writer_into(text: Vec<u8>) -> Writer<Vec<u8>>
    ensures under { writer_under result ≡ text }
    ensures pending { writer_pending result ≡ [] }
    ensures setup { writer_setup result ≡ report_style }
    ensures fields { fields_written result ≡ 0 }
    ensures clean { has_written result ≡ false }
{
    WriterBuilder::new()
        .terminator(Terminator::CRLF)
        .from_writer(text)
}

/// Appends a field to the record that is being written.
pub fn push_field(line: &mut Writer<Vec<u8>>, field: &[u8]) -> Result<(), AllocError>
    ensures { OnOk result (Pushes line.old line.new (field.now ∷ [])) }
{
    if line.write_field(field).is_err() {
        return Err(AllocError);
    }
    Ok(())
}

/// Ends the record that is being written.
pub fn end_record(line: &mut Writer<Vec<u8>>) -> Result<(), AllocError>
    ensures { OnOk result (Ends line.old line.new) }
{
    if line.end_record().is_err() {
        return Err(AllocError);
    }
    Ok(())
}
