//! The remittance of a run: a header, one record for each record of the providers' files, and a
//! record of totals.
ghost use Rattle.std.specs.Prelude.{◌≡◌, ◌≢◌, ◌≤◌, ◌-◌, [], Some, get_or, length, option_map, IfErr, OnOk, true};
ghost use Rattle.std.specs.Bool.{OnFalse, OnTrue};
ghost use Rattle.tables.specs.Plan.{PlanParts};
ghost use Rattle.fixpoint.specs.Out.{has_failed, writer_of};
ghost use Rattle.journal.specs.Events.{accepted_count};
ghost use Rattle.intake_csv.specs.RowSummary.{IsSummaryOf};
ghost use Rattle.intake_csv.specs.declared.rows.Row.{Row as AnyRow};
ghost use Rattle.remit_records.specs.RecordWriter.{IsUnused, Writes, at, gathered_of};
ghost use Rattle.remit_records.specs.Looked.{looked_up};
ghost use Rattle.remit.specs.Sections.{MayBePart, WritesSection};
ghost use Rattle.remit_records.specs.Records.{header_fields, record_of, total_fields};
ghost use Rattle.remit_records.specs.Report.{record_text};
ghost use Rattle.remit_records.specs.Rows.{WritesFile, WritesLeft};
ghost use Rattle.remit_records.specs.Writing.{WritesFront, WritesReport};
ghost use Rattle.faults.specs.declared.write_fault.WriteCause.TheVariants.{Device, OutOfMemory};

use crate::by_threads::write_files_by_threads;
use crate::sections::{Section, SectionTooLarge, skip_rows};
use claim_gate::{Batch, Terms};
use faults::{WriteCause, WriteFault};
use fixpoint::Out;
use intake_csv::{CsvRecord, RowSummary, Rows};
use journal::Event;
use remit_records::{Decisions, RecordWriter, Sums, push_header, push_row, push_total};
use std::alloc::{AllocError, Global};
use std::io::Write;
use std::thread::Threads;

/// Writes the remittance of a finished run as CSV (RFC 4180): a header, a record for each record of
/// the providers' files, in the order of the files and of their records, and a record of totals.
/// Commas separate the fields, and CRLF ends each record. Amounts are money, with two decimals. The
/// writer receives the bytes in large pieces.
///
/// # Errors
///
/// Returns a fault with the cause `Device` if the writer fails, or with the cause `OutOfMemory` if
/// memory runs out. The writer has then received exactly the first bytes of the remittance, and the
/// fault has their number.
pub fn write_report<W: Write>(
    alloc: Global,
    terms: &Terms,
    batch: &Batch,
    out: &mut Out<W>,
) -> Result<(), WriteFault>
    requires same_terms { batch.now.terms ≡ terms.now }
    ensures written { OnOk result (WritesReport terms.now batch.now.journal
        (W.contents (writer_of out.old)) (W.contents (writer_of out.new))) }
    ensures refused { IfErr result (λ fault.
        WritesFront terms.now batch.now.journal fault.written
        (W.contents (writer_of out.old)) (W.contents (writer_of out.new))) }
    ensures device { IfErr result (λ fault. fault.cause ≡ Device → has_failed out.new ≡ true) }
    ensures memory { IfErr result (λ fault.
        fault.cause ≡ OutOfMemory → has_failed out.new ≡ has_failed out.old) }
    ensures ok_failed { OnOk result (has_failed out.new ≡ has_failed out.old) }
{
    write_by(&InTurn, alloc, terms, batch, out)
}

/// Writes the remittance of a finished run, one group of consecutive files after another, with one
/// more thread for each file of a group after the first. A group ends when it has 65,536 claims and
/// four times as many as its longest file, or with the last file. If the first file of a group is
/// long and has nearly all claims of the group, and if there are several processors, two more
/// threads help with it.
///
/// The caller's thread writes the records of the first file in pieces, while for each other file of
/// the group a thread renders its section into memory. The caller's thread then writes the sections
/// in the order of the files. The first file is cut into three sections where more threads help
/// with it. If a section is much longer than its file, as with long remarks, or if memory runs out
/// for it, the section is dropped, and the caller's thread writes its records in pieces when their
/// turn comes.
///
/// The bytes and the errors are those of `write_report`.
pub fn write_report_by_threads<R: Threads + Sync, W: Write>(
    rt: &R,
    alloc: Global,
    terms: &Terms,
    batch: &Batch,
    out: &mut Out<W>,
) -> Result<(), WriteFault>
    requires same_terms { batch.now.terms ≡ terms.now }
    ensures written { OnOk result (WritesReport terms.now batch.now.journal
        (W.contents (writer_of out.old)) (W.contents (writer_of out.new))) }
    ensures refused { IfErr result (λ fault.
        WritesFront terms.now batch.now.journal fault.written
        (W.contents (writer_of out.old)) (W.contents (writer_of out.new))) }
    ensures device { IfErr result (λ fault. fault.cause ≡ Device → has_failed out.new ≡ true) }
    ensures memory { IfErr result (λ fault.
        fault.cause ≡ OutOfMemory → has_failed out.new ≡ has_failed out.old) }
    ensures ok_failed { OnOk result (has_failed out.new ≡ has_failed out.old) }
{
    write_by(&ByThreads { rt }, alloc, terms, batch, out)
}

fn write_by<H: Rendering, W: Write>(
    how: &H,
    alloc: Global,
    terms: &Terms,
    batch: &Batch,
    out: &mut Out<W>,
) -> Result<(), WriteFault>
    requires ready { H.is_ready how.now }
    requires same_terms { batch.now.terms ≡ terms.now }
    ensures written { OnOk result (WritesReport terms.now batch.now.journal
        (W.contents (writer_of out.old)) (W.contents (writer_of out.new))) }
    ensures refused { IfErr result (λ fault.
        WritesFront terms.now batch.now.journal fault.written
        (W.contents (writer_of out.old)) (W.contents (writer_of out.new))) }
    ensures device { IfErr result (λ fault. fault.cause ≡ Device → has_failed out.new ≡ true) }
    ensures memory { IfErr result (λ fault.
        fault.cause ≡ OutOfMemory → has_failed out.new ≡ has_failed out.old) }
    ensures ok_failed { OnOk result (has_failed out.new ≡ has_failed out.old) }
{
    let journal = batch.journal();
    let files = terms.files();
    let Ok(decisions) = Decisions::new(alloc, terms, files.len(), journal) else {
        return Err(WriteFault {
            written: 0,
            cause: WriteCause::OutOfMemory,
        });
    };
    let mut report = Report::new(alloc, &decisions);
    report.write_header(terms, out)?;
    how.write_files(terms, files.len(), &mut report, out)?;
    report.write_total(terms, journal, out)?;
    report.finish(out)
}

// How the rows of the files are rendered and written.
trait Rendering {
    ghost use Rattle.std.specs.Prelude.{◌≡◌, ◌≤◌, length};
    ghost use Rattle.fixpoint.specs.Out.{has_failed, writer_of};
    ghost use Rattle.remit_records.specs.RecordWriter.{at};
    ghost use Rattle.remit_records.specs.Looked.{looked_up};
    ghost use Rattle.remit_records.specs.Rows.{WritesFiles};

    // What the writing requires of the type parameters of an implementation.
    ghost is_ready: { Self → Type 0 };

    fn write_files<W: Write>(
        &self,
        terms: &Terms,
        providers: usize,
        report: &mut Report,
        out: &mut Out<W>,
    ) -> Result<(), WriteFault>
        requires ready { is_ready self.now }
        requires least { 1 ≤ providers }
        requires all { providers ≡ length terms.now.files }
        ensures writes { WritesFiles (looked_up report.old.decisions.now) terms.now.plan.names
            terms.now.files
            (at (W.contents (writer_of out.old)) (has_failed out.old) report.old.writer)
            (at (W.contents (writer_of out.new)) (has_failed out.new) report.new.writer) result }
        ensures decisions { report.new.decisions ≡ report.old.decisions };
}

// One file after another, by the caller's thread.
#[derive(Clone, Copy)]
struct InTurn;

impl Rendering for InTurn {
    ghost use Rattle.std.specs.Prelude.{◌≡◌};

    ghost is_ready = { λ how. how ≡ how };

    fn write_files<W: Write>(
        &self,
        terms: &Terms,
        providers: usize,
        report: &mut Report,
        out: &mut Out<W>,
    ) -> Result<(), WriteFault> {
        for place in 0..providers {
            report.write_file(terms, place + 1, out)?;
        }
        Ok(())
    }
}

// Other threads render sections of the files.
#[derive(Drop)]
struct ByThreads<'r, R> {
    rt: &'r R,
}

impl<R: Threads + Sync> Rendering for ByThreads<'_, R> {
    ghost use Rattle.std.specs.Thread.{IsSync};

    ghost is_ready = { λ how. IsSync R.row };

    fn write_files<W: Write>(
        &self,
        terms: &Terms,
        providers: usize,
        report: &mut Report,
        out: &mut Out<W>,
    ) -> Result<(), WriteFault> {
        write_files_by_threads(self.rt, terms, providers, report, out)
    }
}

/// A remittance that is being written.
pub struct Report<'d, 'j> {
    /// The allocator of its buffers.
    pub alloc: Global,
    /// The decisions on the claims.
    pub decisions: &'d Decisions<'j>,
    // The joined remarks of a record. All records use the same memory.
    joined: Vec<u8>,
    writer: RecordWriter,
}

impl Drop for Report<'_, '_> {
    fn drop(self) {
        let Report {
            alloc: _,
            decisions: _,
            joined: _,
            writer: _,
        } = self;
    }
}

impl<'d, 'j> Report<'d, 'j> {
    /// Starts a remittance with these decisions. Nothing is written yet.
    pub fn new(alloc: Global, decisions: &'d Decisions<'j>) -> Report<'d, 'j>
        ensures decisions { result.decisions.now ≡ decisions.now }
        ensures unused { IsUnused result.writer }
    {
        Report {
            alloc,
            decisions,
            joined: Vec::new(alloc),
            writer: RecordWriter::new(alloc),
        }
    }

    fn write_header<W: Write>(&mut self, terms: &Terms, out: &mut Out<W>) -> Result<(), WriteFault>
        ensures writes { Writes
            (at (W.contents (writer_of out.old)) (has_failed out.old) self.old.writer)
            (at (W.contents (writer_of out.new)) (has_failed out.new) self.new.writer)
            (record_text (header_fields terms.now.plan.version)) result }
        ensures decisions { self.new.decisions ≡ self.old.decisions }
    {
        if push_header(&mut self.writer.rendered, terms.plan().version()).is_err() {
            return Err(self.writer.no_memory());
        }
        self.writer.end_record(out)
    }

    /// Writes the rows of a section from their text, and frees its memory. Without a text, the rows
    /// are rendered and written one by one.
    pub fn write_part<W: Write>(
        &mut self,
        terms: &Terms,
        section: Section,
        part: Result<Vec<u8>, SectionTooLarge>,
        out: &mut Out<W>,
    ) -> Result<(), WriteFault>
        requires least { 1 ≤ section.provider }
        requires most { section.provider ≤ length terms.now.files }
        requires part { MayBePart (looked_up self.old.decisions.now) section
            terms.now.plan.names (get_or terms.now.files (section.provider - 1) []) part }
        ensures writes { WritesSection (looked_up self.old.decisions.now) section
            terms.now.plan.names (get_or terms.now.files (section.provider - 1) [])
            (at (W.contents (writer_of out.old)) (has_failed out.old) self.old.writer)
            (at (W.contents (writer_of out.new)) (has_failed out.new) self.new.writer) result }
        ensures decisions { self.new.decisions ≡ self.old.decisions }
    {
        match part {
            Ok(text) => self.writer.write_text(text.as_slice(), out),
            Err(SectionTooLarge) => self.write_section(terms, section, out),
        }
    }

    /// Writes the rows of a provider's file, row by row.
    pub fn write_file<W: Write>(
        &mut self,
        terms: &Terms,
        provider: usize,
        out: &mut Out<W>,
    ) -> Result<(), WriteFault>
        requires least { 1 ≤ provider }
        requires most { provider ≤ length terms.now.files }
        ensures writes { WritesFile (looked_up self.old.decisions.now) provider
            terms.now.plan.names (get_or terms.now.files (provider - 1) [])
            (at (W.contents (writer_of out.old)) (has_failed out.old) self.old.writer)
            (at (W.contents (writer_of out.new)) (has_failed out.new) self.new.writer) result }
        ensures decisions { self.new.decisions ≡ self.old.decisions }
    {
        self.write_section(terms, Section::whole_file(provider), out)
    }

    /// Writes the rows of a section, row by row.
    pub fn write_section<W: Write>(
        &mut self,
        terms: &Terms,
        section: Section,
        out: &mut Out<W>,
    ) -> Result<(), WriteFault>
        requires least { 1 ≤ section.provider }
        requires most { section.provider ≤ length terms.now.files }
        ensures writes { WritesSection (looked_up self.old.decisions.now) section
            terms.now.plan.names (get_or terms.now.files (section.provider - 1) [])
            (at (W.contents (writer_of out.old)) (has_failed out.old) self.old.writer)
            (at (W.contents (writer_of out.new)) (has_failed out.new) self.new.writer) result }
        ensures decisions { self.new.decisions ≡ self.old.decisions }
    {
        // proof: the remaining rows of a new reader are all rows of the file
        intake_csv::reader_begins_with_all_rows();
        let Ok(mut rows) = terms.rows(self.alloc, section.provider) else {
            return Err(self.writer.no_memory());
        };
        if skip_rows(self.alloc, &mut rows, section.start).is_err() {
            return Err(self.writer.no_memory());
        }
        self.write_rows(section.provider, rows, section.row_limit(), out)
    }

    // Writes the remaining rows of a reader, but no more than a limit if there is one.
    fn write_rows<W: Write>(
        &mut self,
        provider: usize,
        rows: Rows,
        limit: Option<usize>,
        out: &mut Out<W>,
    ) -> Result<(), WriteFault>
        requires { 1 ≤ provider }
        ensures writes { WritesLeft (looked_up self.old.decisions.now) provider limit rows.entry
            (at (W.contents (writer_of out.old)) (has_failed out.old) self.old.writer)
            (at (W.contents (writer_of out.new)) (has_failed out.new) self.new.writer) result }
        ensures decisions { self.new.decisions ≡ self.old.decisions }
    {
        // proof: a reader returns the first of its remaining rows, and no row after the last one
        intake_csv::given_row_is_the_first();
        intake_csv::no_records_give_no_rows();
        let (mut rows, mut left) = (rows, limit);
        let mut source = CsvRecord::new(self.alloc);
        loop {
            if is_zero(left) {
                return Ok(());
            }
            let Ok(next) = rows.next_summary(&mut source) else {
                return Err(self.writer.no_memory());
            };
            let Some(summary) = next else {
                return Ok(());
            };
            self.write_row(provider, &summary, &source, out)?;
            left = one_less(left);
        }
    }

    // Writes the row with this summary, where `source` is the CSV record of the row.
    fn write_row<W: Write>(
        &mut self,
        provider: usize,
        summary: &RowSummary,
        source: &CsvRecord,
        out: &mut Out<W>,
    ) -> Result<(), WriteFault>
        requires { 1 ≤ provider }
        ensures writes { (row : AnyRow) → IsSummaryOf source.now summary.now row
            → Writes (at (W.contents (writer_of out.old)) (has_failed out.old) self.old.writer)
            (at (W.contents (writer_of out.new)) (has_failed out.new) self.new.writer)
            (record_text (record_of (looked_up self.old.decisions.now) provider row)) result }
        ensures decisions { self.new.decisions ≡ self.old.decisions }
    {
        let (line, joined) = (&mut self.writer.rendered, &mut self.joined);
        if push_row(
            self.alloc,
            line,
            joined,
            self.decisions,
            provider,
            summary,
            source,
        )
        .is_err()
        {
            return Err(self.writer.no_memory());
        }
        self.writer.end_record(out)
    }

    /// Passes the buffered bytes on to the writer.
    pub fn finish<W: Write>(&mut self, out: &mut Out<W>) -> Result<(), WriteFault>
        ensures writes { Writes
            (at (W.contents (writer_of out.old)) (has_failed out.old) self.old.writer)
            (at (W.contents (writer_of out.new)) (has_failed out.new) self.new.writer) [] result }
        ensures all { OnOk result (gathered_of self.new.writer ≡ []) }
    {
        self.writer.hand_over(out)
    }

    fn write_total<W: Write>(
        &mut self,
        terms: &Terms,
        journal: &[Event],
        out: &mut Out<W>,
    ) -> Result<(), WriteFault>
        requires { self.old.decisions.now.accepted ≡ accepted_count journal.now }
        ensures { Writes (at (W.contents (writer_of out.old)) (has_failed out.old) self.old.writer)
            (at (W.contents (writer_of out.new)) (has_failed out.new) self.new.writer)
            (record_text (total_fields terms.now.plan.version journal.now)) result }
    {
        let accepted = self.decisions.accepted_count();
        let sums = Sums::over(journal);
        let version = terms.plan().version();
        let line = &mut self.writer.rendered;
        if push_total(self.alloc, line, version, accepted, sums).is_err() {
            return Err(self.writer.no_memory());
        }
        self.writer.end_record(out)
    }
}

fn is_zero(limit: Option<usize>) -> bool
    ensures yes { OnTrue result (limit ≡ Some 0) }
    ensures no { OnFalse result (limit ≢ Some 0) }
{
    match limit {
        Some(rows) => rows == 0,
        None => false,
    }
}

fn one_less(limit: Option<usize>) -> Option<usize>
    ensures { result ≡ option_map (λ rows. rows - 1) limit }
{
    match limit {
        Some(rows) => Some(rows.saturating_sub(1)),
        None => None,
    }
}
