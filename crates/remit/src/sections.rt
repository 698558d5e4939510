//! The sections of the providers' files in the remittance, which threads render into memory while
//! another thread writes the sections before them.
ghost use Rattle.std.specs.Prelude.{◌≡◌, ◌≤◌, ◌+◌, ◌-◌, ◌*◌, ◌^◌, [], get_or, length, min, option_map, OnOk};
ghost use Rattle.remit_records.specs.Looked.{looked_up};
ghost use Rattle.remit_records.specs.Rows.{Skips};
ghost use Rattle.remit.specs.Sections.{AreCut, MayBePart, whole_file};

use crate::report::Report;
use claim_gate::Terms;
use fixpoint::{BoundedBuffer, Out};
use intake_csv::{CsvRecord, Rows};
use remit_records::Decisions;
use std::alloc::{AllocError, Global};

/// Consecutive rows of a provider's file.
#[derive(Clone, Copy, Drop)]
pub struct Section {
    /// The provider's number, from 1.
    pub provider: usize,
    /// The number of rows of the file before the section.
    pub start: usize,
    /// The number of rows of the file before the end of the section, or `None` if the section ends
    /// with the file.
    pub end: Option<usize>,
}

impl Section {
    /// Returns the section of all rows of a provider's file.
    pub fn whole_file(provider: usize) -> Section
        ensures { result ≡ whole_file provider }
    {
        Section {
            provider,
            start: 0,
            end: None,
        }
    }

    /// Cuts the section after the first `rows` rows of the file, or at its end if it ends earlier.
    pub fn cut_after(self, rows: usize) -> (Section, Section)
        ensures { AreCut self result.0 result.1 }
    {
        let cut = match self.end {
            Some(end) if end < rows => end,
            _ => rows,
        };
        let front = Section {
            provider: self.provider,
            start: self.start,
            end: Some(cut),
        };
        let back = Section {
            provider: self.provider,
            start: cut,
            end: self.end,
        };
        (front, back)
    }

    /// Returns the greatest number of rows of the section, or `None` if it ends with the file.
    pub fn row_limit(self) -> Option<usize>
        ensures { result ≡ option_map (λ end. end - self.start) self.end }
    {
        match self.end {
            Some(end) => Some(end.saturating_sub(self.start)),
            None => None,
        }
    }
}

/// Passes over the next `count` rows of a reader, or over all that remain if they are fewer.
pub fn skip_rows(alloc: Global, rows: &mut Rows, count: usize) -> Result<(), AllocError>
    ensures { OnOk result (Skips rows.old rows.new count) }
{
    // proof: a reader returns the first of its remaining rows, and no row after the last one
    intake_csv::given_row_is_the_first();
    intake_csv::no_records_give_no_rows();
    let mut source = CsvRecord::new(alloc);
    for _ in 0..count {
        let next = rows.next_summary(&mut source)?;
        let Some(_) = next else {
            return Ok(());
        };
    }
    Ok(())
}

/// A section could not be kept in memory: it would exceed its limit, or memory ran out.
#[derive(Clone, Copy, Drop)]
pub struct SectionTooLarge;

/// The number of bytes of a section that are buffered for each byte of its file. Without remarks,
/// even the shortest claims need only about three.
const HELD_PER_BYTE: usize = 4;

/// The number of bytes that are buffered for a section in addition, so that a small file may have
/// long remarks.
const HELD_BESIDES: usize = 1 << 20;

/// Renders the rows of a section into memory, unless their text exceeds the limit for its file or
/// memory runs out.
pub fn render_section(
    alloc: Global,
    terms: &Terms,
    decisions: &Decisions,
    section: Section,
) -> Result<Vec<u8>, SectionTooLarge>
    requires least { 1 ≤ section.provider }
    requires most { section.provider ≤ length terms.now.files }
    ensures { MayBePart (looked_up decisions.now) section terms.now.plan.names
        (get_or terms.now.files (section.provider - 1) []) result }
{
    let mut out = Out::new(BoundedBuffer::new(alloc, held_bytes(terms, section.provider)));
    let mut report = Report::new(alloc, decisions);
    if report.write_section(terms, section, &mut out).is_err() {
        return Err(SectionTooLarge);
    }
    if report.finish(&mut out).is_err() {
        return Err(SectionTooLarge);
    }
    Ok(out.into_inner().into_text())
}

// Returns the greatest length of a buffered section. It depends on the file alone, so the memory
// for all sections is bounded by the sizes of the files, whatever the length of the remittance.
fn held_bytes(terms: &Terms, provider: usize) -> usize
    requires { 1 ≤ provider }
    ensures { result ≡ min (length (get_or terms.now.files (provider - 1) []) * HELD_PER_BYTE
        + HELD_BESIDES) (2 ^ 64 - 1) }
{
    let length = match terms.files().get(provider - 1) {
        Some(file) => file.len(),
        None => 0,
    };
    length
        .saturating_mul(HELD_PER_BYTE)
        .saturating_add(HELD_BESIDES)
}
