//! The readers of all files.
ghost use Rattle.std.specs.Prelude.{◌≡◌, ◌<◌, ◌≤◌, ℕ, false, length, replicate, slice_index_or, IfOk, OnOk};
ghost use Rattle.std.specs.List.{All};
ghost use Rattle.ordered_claims.specs.ReadAhead.{IsPlaced, ReadsAhead};
ghost use Rattle.ordered_claims.specs.declared.file_reader.FileReader.{FileReader as AnyReader};

use crate::file_reader::FileReader;
use claim_gate::{BoxedClaim, Terms};
use std::alloc::{AllocError, Global};
use std::marker::Model;
use std::thread::{Threads, for_each_mut};

/// The readers of all files. They borrow the terms.
pub struct ClaimReaders<'t> {
    alloc: Global,
    terms: &'t Terms<'t>,
    pub(crate) files: Vec<FileReader<'t>>,
}

impl Drop for ClaimReaders<'_> {
    fn drop(self) {
        let ClaimReaders {
            alloc: _,
            terms: _,
            files: _,
        } = self;
    }
}

impl<'t> Model for ClaimReaders<'t> {
    ghost use Rattle.ordered_claims.specs.Kept.{IsReading, records_left, taken_in};
    ghost use Rattle.ordered_claims.specs.OrderedParts.{ReaderParts};

    ghost Value = { ReaderParts };

    ghost view = { λ r. record {
      terms = r.terms.now;
      taken = taken_in r.files.items;
      left = records_left r.files.items;
    } };

    ghost invariant = { λ r. IsReading r.terms.now r.files.items };
}

impl<'t> ClaimReaders<'t> {
    /// Opens all files of the terms and reads the first claim of each.
    pub(crate) fn open(alloc: Global, terms: &'t Terms) -> Result<ClaimReaders<'t>, AllocError>
        ensures terms { IfOk result (λ readers. readers.terms ≡ terms.now) }
        ensures none { IfOk result
            (λ readers. readers.taken ≡ replicate (length terms.now.files) 0) }
    {
        let mut files = Vec::new(alloc);
        'files: for place in 0..terms.files().len() {
            files.push(FileReader::open(alloc, terms, place + 1)?)?;
        }
        Ok(ClaimReaders {
            alloc,
            terms,
            files,
        })
    }

    /// Reads claims of all files ahead, in at most `threads` threads, and returns the readers. It reads
    /// at most 4,096 claims of a file, 1,024 of one that has given none, and fewer where enough are in
    /// memory. If memory runs out, no more claims can be taken.
    pub fn read_ahead<R: Threads + Sync>(mut self, rt: &R, threads: usize) -> ClaimReaders<'t>
        requires { 0 < threads }
        ensures terms { result.terms ≡ self.entry.terms }
        ensures taken { result.taken ≡ self.entry.taken }
    {
        let useful = self.useful_threads(threads);
        read_each(rt, self.alloc, useful, self.files.as_mut_slice());
        self
    }

    /// Returns the number of claims that `read_ahead` reads at most. It is a hint.
    pub fn wanted_count(&self) -> usize {
        let mut count = 0_usize;
        for file in self.files.as_slice() {
            count = count.saturating_add(file.wanted_count());
        }
        count
    }

    // Returns how many of these threads have claims to read, since each thread reads adjacent files. Where
    // files are given one after another, this is mostly one.
    fn useful_threads(&self, threads: usize) -> usize
        ensures { 0 < result }
    {
        let files_a_thread = self.files.len().div_ceil(threads.max(1));
        let mut count = 0_usize;
        let mut others = 0;
        for (index, file) in self.files.as_slice().iter().enumerate() {
            if index >= others && file.wanted_count() > 0 {
                count = count.saturating_add(1);
                others = index.saturating_add(files_a_thread);
            }
        }
        count.min(threads).max(1)
    }

    /// Gives the readers boxes of decided claims, which the next claims take. Lists of boxes that no
    /// reader needs remain.
    pub fn reuse(&mut self, lists: &mut Vec<Vec<BoxedClaim>>)
        ensures terms { self.new.terms ≡ self.old.terms }
        ensures taken { self.new.taken ≡ self.old.taken }
    {
        'files: for index in 0..self.files.len() {
            self.files[index].add_spare(self.alloc, lists);
        }
    }

    /// Reads the next claim of the file at an index, unless a claim is read and not taken yet.
    pub(crate) fn read_next_of(&mut self, index: usize) -> Result<(), AllocError>
        requires { index < length self.old.terms.files }
        ensures terms { self.new.terms ≡ self.old.terms }
        ensures taken { self.new.taken ≡ self.old.taken }
        ensures fewer { OnOk result (self.new.left ≤ self.old.left) }
    {
        self.files[index].read_ahead(self.alloc, 1);
        if self.files[index].has_failed {
            return Err(AllocError);
        }
        Ok(())
    }
}

// Reads claims of each file ahead, in at most `threads` threads.
fn read_each<R: Threads + Sync>(rt: &R, alloc: Global, threads: usize, files: &mut [FileReader<'_>])
    requires threads { 0 < threads }
    requires placed { All (λ reader. reader.has_failed ≡ false → IsPlaced reader) files.old }
    ensures as_many { length files.new ≡ length files.old }
    ensures each { (i : ℕ) (d : AnyReader) → i < length files.old
        → ReadsAhead (slice_index_or files.old i d) (slice_index_or files.new i d) }
{
    for_each_mut(
        rt,
        files,
        threads,
        &|_, reader| {
            let wanted = reader.wanted;
            reader.read_ahead(alloc, wanted)
        },
    );
}
