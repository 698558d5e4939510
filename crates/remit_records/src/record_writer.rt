//! Records of the remittance: their CSV text (RFC 4180) is rendered into memory and passed on to a
//! writer in large pieces.
ghost use Rattle.std.specs.Prelude.{◌≡◌, [], List, ℕ, IfErr, OnOk, false};
ghost use Rattle.fixpoint.specs.BufferedOut.{is_cut};
ghost use Rattle.fixpoint.specs.Out.{has_failed, writer_of};
ghost use Rattle.remit_records.specs.RecordWriter.{HasPushed, IsCutFault, IsNoMemory, IsUnused, Writes, at, gathered_of, rendered_of};
ghost use Rattle.remit_records.specs.Report.{record_text, report_style};
ghost use Rattle.remit_records.specs.declared.record_writer.RecordWriter.{RecordWriter as AnyWriter};

use crate::fields::{end_record, writer_into};
use csv::Writer;
use faults::{WriteCause, WriteFault};
use fixpoint::{BufferedOut, Out, PIECE_BYTES};
use std::alloc::Global;
use std::io::Write;
use std::mem;

/// The text of a remittance, and the records after it.
///
/// The CSV writer renders records into memory of its own. Once this has the size of a buffer, it is
/// put after the text, which passes it on without a copy.
pub struct RecordWriter {
    alloc: Global,
    /// The rendered records, and then the fields of a record that is not ended yet.
    pub rendered: Writer<Vec<u8>>,
    text: BufferedOut,
}

impl Drop for RecordWriter {
    fn drop(self) {
        let RecordWriter {
            alloc: _,
            rendered: _,
            text: _,
        } = self;
    }
}

impl RecordWriter {
    /// Returns an empty text.
    pub fn new(alloc: Global) -> RecordWriter
        ensures { IsUnused result }
    {
        RecordWriter {
            alloc,
            rendered: writer_into(Vec::new(alloc)),
            text: BufferedOut::new(alloc),
        }
    }

    /// Returns the fault for a refused allocation, after the bytes that were passed on.
    pub fn no_memory(&self) -> WriteFault
        ensures { IsNoMemory self.now result }
    {
        WriteFault {
            written: self.text.bytes_written(),
            cause: WriteCause::OutOfMemory,
        }
    }

    /// Ends the record with the fields that are rendered, and puts the rendered records once they
    /// have the size of a buffer.
    pub fn end_record<W: Write>(&mut self, out: &mut Out<W>) -> Result<(), WriteFault>
        ensures { (start : AnyWriter) (fields : List (List ℕ)) → HasPushed start self.old fields
            → Writes (at (W.contents (writer_of out.old)) (has_failed out.old) start)
            (at (W.contents (writer_of out.new)) (has_failed out.new) self.new)
            (record_text fields) result }
    {
        if end_record(&mut self.rendered).is_err() {
            return Err(self.no_memory());
        }
        if self.rendered.get_ref().len() < PIECE_BYTES {
            return Ok(());
        }
        self.put_rendered(out)
    }

    /// Puts the rendered records and then this text.
    pub fn write_text<W: Write>(&mut self, text: &[u8], out: &mut Out<W>) -> Result<(), WriteFault>
        ensures { Writes (at (W.contents (writer_of out.old)) (has_failed out.old) self.old)
            (at (W.contents (writer_of out.new)) (has_failed out.new) self.new) text.now result }
    {
        self.put_rendered(out)?;
        self.text.put(text, out);
        self.progress(out)
    }

    /// Passes on all that was written.
    pub fn hand_over<W: Write>(&mut self, out: &mut Out<W>) -> Result<(), WriteFault>
        ensures writes { Writes (at (W.contents (writer_of out.old)) (has_failed out.old) self.old)
            (at (W.contents (writer_of out.new)) (has_failed out.new) self.new) [] result }
        ensures all { OnOk result (gathered_of self.new ≡ []) }
    {
        self.put_rendered(out)?;
        self.text.hand_over(out);
        self.progress(out)
    }

    // Puts the rendered records, and reuses their memory.
    fn put_rendered<W: Write>(&mut self, out: &mut Out<W>) -> Result<(), WriteFault>
        ensures writes { Writes (at (W.contents (writer_of out.old)) (has_failed out.old) self.old)
            (at (W.contents (writer_of out.new)) (has_failed out.new) self.new) [] result }
        ensures all { OnOk result (rendered_of self.new ≡ []) }
    {
        let empty = writer_into(Vec::new(self.alloc));
        let full = mem::replace(&mut self.rendered, empty);
        let Ok(mut records) = full.into_inner() else {
            return Err(self.no_memory());
        };
        self.text.put(records.as_slice(), out);
        records.clear();
        self.rendered = writer_into(records);
        self.progress(out)
    }

    // Returns the fault of a text that is cut. If the writer has not failed, then the text is longer
    // than any count, and no memory has room for the next one.
    fn progress<W: Write>(&self, out: &Out<W>) -> Result<(), WriteFault>
        ensures whole { OnOk result (is_cut self.now.text ≡ false) }
        ensures cut { IfErr result (IsCutFault self.now (has_failed out.now)) }
    {
        if !self.text.is_cut() {
            return Ok(());
        }
        let written = self.text.bytes_written();
        if out.failed() {
            return Err(WriteFault {
                written,
                cause: WriteCause::Device,
            });
        }
        Err(WriteFault {
            written,
            cause: WriteCause::OutOfMemory,
        })
    }
}
