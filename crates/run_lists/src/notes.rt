//! The records of a run that need a person: claims that are pended, and records that are refused.
//!
//! `notes_of` lists them for a finished run, in the order of the remittance. `text` writes them as a
//! work list, a CSV file; for this purpose `lines` finds the lines on which records begin, and `fields`
//! the values that a table reads.
//!
//! Begin with `specs/Notes.antt`, which says which records have a note.
ghost use Rattle.std.specs.Prelude.{◌≡◌, ◌≤◌, ◌-◌, ◌++◌, [], get_or, length, IfOk, OnOk};
ghost use Rattle.remit_records.specs.Looked.{looked_up, outcome_in};
ghost use Rattle.run_lists.specs.Notes.{AreNotes, AreNotesBy, FileIsNoted, LeftIsNoted, outcome_notes, row_notes};

mod fields;
mod file;
mod lines;
mod text;

use claim_gate::{Batch, Terms};
use intake_csv::{Row, RowFault, Rows};
use remit_records::Decisions;
use settlement::{Outcome, Reason, Verdict};
use std::alloc::{AllocError, Global};
pub use text::{NotedTexts, notes_text};

/// A record that needs a person.
#[derive(Clone, Copy)]
pub struct Note {
    /// The number of the provider's file, from 1.
    pub provider: usize,
    /// The number of the record in the file, from 1.
    pub number: usize,
    /// Why the record needs a person.
    pub cause: NoteCause,
}

/// Why a record needs a person.
#[derive(Clone, Copy, PartialEq, Eq)]
pub enum NoteCause {
    /// The claim is pended.
    Pended(Reason),
    /// The record is not a valid claim.
    Refused(RowFault),
}

/// Returns a note for each record of a finished run that is pended or refused, in the order of the
/// remittance. The files are read once more for this purpose.
pub fn notes_of(alloc: Global, terms: &Terms, batch: &Batch) -> Result<Vec<Note>, AllocError>
    requires same_terms { batch.now.terms ≡ terms.now }
    ensures { IfOk result (λ notes. AreNotes terms.now batch.now.journal notes.items) }
{
    let journal = batch.journal();
    let providers = terms.files().len();
    let decisions = Decisions::new(alloc, terms, providers, journal)?;
    let mut notes = Vec::new(alloc);
    note_files(alloc, terms, &decisions, providers, &mut notes)?;
    Ok(notes)
}

fn note_files(
    alloc: Global,
    terms: &Terms,
    decisions: &Decisions,
    providers: usize,
    notes: &mut Vec<Note>,
) -> Result<(), AllocError>
    requires all { providers ≡ length terms.now.files }
    requires empty { notes.old.items ≡ [] }
    ensures { OnOk result (AreNotesBy terms.now (looked_up decisions.now) notes.new.items) }
{
    for place in 0..providers {
        note_file(alloc, terms, decisions, place + 1, notes)?;
    }
    Ok(())
}

fn note_file(
    alloc: Global,
    terms: &Terms,
    decisions: &Decisions,
    provider: usize,
    notes: &mut Vec<Note>,
) -> Result<(), AllocError>
    requires least { 1 ≤ provider }
    requires most { provider ≤ length terms.now.files }
    ensures { OnOk result (FileIsNoted terms.now (looked_up decisions.now) provider
        (get_or terms.now.files (provider - 1) []) notes.old.items notes.new.items) }
{
    // proof: the remaining rows of a new reader are all rows of the file
    intake_csv::reader_begins_with_all_rows();
    let rows = terms.rows(alloc, provider)?;
    note_rows(decisions, provider, rows, notes)
}

// Notes the remaining rows of a reader.
fn note_rows(
    decisions: &Decisions,
    provider: usize,
    rows: Rows,
    notes: &mut Vec<Note>,
) -> Result<(), AllocError>
    requires { 1 ≤ provider }
    ensures { OnOk result (LeftIsNoted (looked_up decisions.now) provider rows.entry
        notes.old.items notes.new.items) }
{
    // proof: a reader returns the first of its remaining rows, and no row after the last one
    intake_csv::given_row_is_the_first();
    intake_csv::no_records_give_no_rows();
    let mut rows = rows;
    loop {
        let Ok(next) = rows.next() else {
            return Err(AllocError);
        };
        let Some(row) = next else {
            return Ok(());
        };
        note_row(decisions, provider, &row, notes)?;
    }
}

fn note_row(
    decisions: &Decisions,
    provider: usize,
    row: &Row,
    notes: &mut Vec<Note>,
) -> Result<(), AllocError>
    requires { 1 ≤ provider }
    ensures { OnOk result (notes.new.items
        ≡ notes.old.items ++ row_notes (looked_up decisions.now) provider row.now) }
{
    match row {
        Row::Good { number, place, .. } => {
            let outcome = decisions.outcome(provider, *place);
            note_outcome(provider, *number, outcome, notes)
        }
        Row::Bad { number, fault } => {
            notes.push(Note {
                provider,
                number: *number,
                cause: NoteCause::Refused(*fault),
            })?;
            Ok(())
        }
    }
}

// Notes a claim that is pended. A claim that is paid, denied or late needs nobody.
fn note_outcome(
    provider: usize,
    number: usize,
    outcome: Option<&Outcome>,
    notes: &mut Vec<Note>,
) -> Result<(), AllocError>
    ensures { OnOk result (notes.new.items
        ≡ notes.old.items ++ outcome_notes provider number (outcome_in outcome.entry)) }
{
    let Some(outcome) = outcome else {
        return Ok(());
    };
    match &outcome.verdict {
        Verdict::Pended(reason) => {
            notes.push(Note {
                provider,
                number,
                cause: NoteCause::Pended(*reason),
            })?;
            Ok(())
        }
        Verdict::Paid => Ok(()),
        Verdict::Denied => Ok(()),
    }
}
