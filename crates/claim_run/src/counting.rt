//! What a run is asked for beside its remittance: the counts of its records, its closing balances,
//! and the notes of the records that need a person.
ghost use Rattle.std.specs.Prelude.{◌≡◌, IfSome, option_map};
ghost use Rattle.run_lists.specs.ClosingText.{IsClosingText};
ghost use Rattle.run_lists.specs.Notes.{AreNotes};
ghost use Rattle.remit_records.specs.Counts.{AreRunCounts};

use claim_gate::{Batch, Terms};
use remit::{RunCounts, count_run};
use run_lists::{FileSums, Note, closing_text, notes_of, sums_of_files};
use std::alloc::Global;
use std::mem::forget;
use std::sync::Arc;
use std::sync::atomic::AtomicU64;

/// A request to count the records of a run's remittance or not, to add up its closing balances or
/// not, to note the records that need a person or not, and to free its memory or not, and what the
/// last run yields of the first three.
pub struct Counting {
    is_requested: bool,
    counts: Option<RunCounts>,
    closes: bool,
    closing: Option<Vec<u8>>,
    lists_notes: bool,
    notes: Option<Vec<Note>>,
    adds_sums: bool,
    sums: Option<Vec<FileSums>>,
    leaves_memory: bool,
    decided: Option<Arc<AtomicU64, Global>>,
}

impl Drop for Counting {
    fn drop(self) {
        let Counting {
            is_requested: _,
            counts: _,
            closes: _,
            closing: _,
            lists_notes: _,
            notes: _,
            adds_sums: _,
            sums: _,
            leaves_memory: _,
            decided: _,
        } = self;
    }
}

impl Counting {
    /// Requests no counts, which saves one more pass over the files.
    pub fn nothing() -> Counting {
        Counting {
            is_requested: false,
            counts: None,
            closes: false,
            closing: None,
            lists_notes: false,
            notes: None,
            adds_sums: false,
            sums: None,
            leaves_memory: false,
            decided: None,
        }
    }

    /// Requests the counts of the next run.
    pub fn of_records() -> Counting {
        Counting {
            is_requested: true,
            counts: None,
            closes: false,
            closing: None,
            lists_notes: false,
            notes: None,
            adds_sums: false,
            sums: None,
            leaves_memory: false,
            decided: None,
        }
    }

    /// Requests also the closing balances of the next run, which takes one more pass over the files.
    pub fn request_closing(&mut self) {
        self.closes = true;
    }

    /// Requests also the notes of the next run, which takes one more pass over the files.
    pub fn request_notes(&mut self) {
        self.lists_notes = true;
    }

    /// Requests also the sums of each file of the next run, which takes one more pass over the files.
    pub fn request_sums(&mut self) {
        self.adds_sums = true;
    }

    /// Requests also that the next run does not free the memory of its batch and terms, which takes
    /// time. It is for a program that ends soon after the run.
    pub fn leave_memory(&mut self) {
        self.leaves_memory = true;
    }

    /// Lets the next run add the number of decided claims to a counter, which another thread may watch.
    pub fn count_decided(&mut self, decided: Arc<AtomicU64, Global>) {
        self.decided = Some(decided);
    }

    pub(crate) fn decided_count(&self) -> Option<&AtomicU64> {
        match &self.decided {
            Some(decided) => Some(decided),
            None => None,
        }
    }

    /// Returns the counts of the last run, if they were requested and memory sufficed for them.
    pub fn counts(&self) -> Option<&RunCounts> {
        self.counts.as_ref()
    }

    /// Returns the closing balances of the last run as a file of balances, if they were requested
    /// and memory sufficed for them.
    pub fn closing(&self) -> Option<&[u8]>
        ensures { option_map (λ text. text.now) result
            ≡ option_map (λ text. text.items) self.now.closing }
    {
        match &self.closing {
            Some(text) => Some(text.as_slice()),
            None => None,
        }
    }

    /// Returns a note for each record of the last run that is pended or refused, in the order of the
    /// remittance, if they were requested and memory sufficed for them.
    pub fn notes(&self) -> Option<&[Note]>
        ensures { option_map (λ notes. notes.now) result
            ≡ option_map (λ notes. notes.items) self.now.notes }
    {
        match &self.notes {
            Some(notes) => Some(notes.as_slice()),
            None => None,
        }
    }

    /// Returns the sums of each file of the last run, in the order of the files, if they were requested
    /// and memory sufficed for them.
    pub fn sums(&self) -> Option<&[FileSums]> {
        match &self.sums {
            Some(sums) => Some(sums.as_slice()),
            None => None,
        }
    }

    // Drops a value of this run unless its memory is to be left.
    pub(crate) fn release<T: Drop>(&self, value: T) {
        if self.leaves_memory {
            forget(value);
        } else {
            drop(value);
        }
    }

    // Adds up the amounts of each file of this run if they are requested.
    pub(crate) fn add_up(&mut self, alloc: Global, terms: &Terms, batch: &Batch) {
        self.sums = if self.adds_sums {
            sums_of_files(alloc, terms, batch).ok()
        } else {
            None
        };
    }

    // Counts the records of this run if counts are requested.
    pub(crate) fn count(&mut self, alloc: Global, terms: &Terms, batch: &Batch)
        requires same_terms { batch.now.terms ≡ terms.now }
        ensures { IfSome self.new.counts (AreRunCounts terms.now batch.now.journal) }
    {
        self.counts = if self.is_requested {
            count_run(alloc, terms, batch).ok()
        } else {
            None
        };
    }

    // Adds up the closing balances of this run if they are requested.
    pub(crate) fn close(&mut self, alloc: Global, terms: &Terms, batch: &Batch)
        requires same_terms { batch.now.terms ≡ terms.now }
        ensures closing { IfSome self.new.closing
            (λ text. IsClosingText terms.now batch.now.journal text.items) }
        ensures counts { self.new.counts ≡ self.old.counts }
    {
        self.closing = if self.closes {
            closing_text(alloc, terms, batch).ok()
        } else {
            None
        };
    }

    // Lists the notes of this run if they are requested.
    pub(crate) fn note(&mut self, alloc: Global, terms: &Terms, batch: &Batch)
        requires same_terms { batch.now.terms ≡ terms.now }
        ensures notes { IfSome self.new.notes
            (λ notes. AreNotes terms.now batch.now.journal notes.items) }
        ensures counts { self.new.counts ≡ self.old.counts }
        ensures closing { self.new.closing ≡ self.old.closing }
    {
        self.notes = if self.lists_notes {
            notes_of(alloc, terms, batch).ok()
        } else {
            None
        };
    }
}
