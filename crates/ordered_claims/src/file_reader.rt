//! The reader of a provider's file, which reads claims ahead of those that are taken from it.
ghost use Rattle.std.specs.Prelude.{◌≡◌, ◌<◌, ◌≤◌, ◌^◌, false, IfOk, OnOk, length};
ghost use Rattle.ordered_claims.specs.ReadAhead.{IsPlaced, IsSound, Reads, ReadsAhead, ReadsClaim};

use claim_gate::{BoxedClaim, Terms};
use intake_csv::{
    Row, Rows, given_row_has_the_claim, no_records_give_no_rows, reader_begins_with_all_rows,
};
use std::alloc::{AllocError, Global};
use std::collections::VecDeque;
use std::mem::replace;

/// The reader of a provider's file.
pub(crate) struct FileReader<'t> {
    pub(crate) rows: Rows<'t>,
    /// The claims that are read and not taken yet.
    pub(crate) ahead: VecDeque<BoxedClaim>,
    /// The number of claims that were taken.
    pub(crate) taken: usize,
    /// The number of claims to be read ahead.
    pub(crate) wanted: usize,
    /// No claim is left after those that are read.
    pub(crate) is_over: bool,
    /// Memory ran out while a claim was read, so that a claim may be missing.
    pub(crate) has_failed: bool,
    /// Boxes of decided claims, whose memory the next claims take.
    pub(crate) spare: Vec<BoxedClaim>,
}

impl Drop for FileReader<'_> {
    fn drop(self) {
        let FileReader {
            rows: _,
            ahead: _,
            taken: _,
            wanted: _,
            is_over: _,
            has_failed: _,
            spare: _,
        } = self;
    }
}

impl<'t> FileReader<'t> {
    /// Opens a provider's file and reads its first claim. Providers count from 1.
    pub(crate) fn open(
        alloc: Global,
        terms: &Terms<'t>,
        provider: usize,
    ) -> Result<FileReader<'t>, AllocError>
        requires least { 1 ≤ provider }
        requires most { provider ≤ length terms.now.files }
        ensures none { IfOk result (λ reader. reader.taken ≡ 0) }
        ensures sound { IfOk result
            (λ reader. reader.has_failed ≡ false → IsSound terms.now provider reader) }
    {
        // proof: the remaining rows of a new reader are all rows of the file
        reader_begins_with_all_rows();
        let rows = terms.rows(alloc, provider)?;
        let mut reader = FileReader {
            rows,
            ahead: VecDeque::new(alloc),
            taken: 0,
            wanted: 1,
            is_over: false,
            has_failed: false,
            spare: Vec::new(alloc),
        };
        reader.read_ahead(alloc, 1);
        Ok(reader)
    }

    /// Returns the number of claims that are to be read ahead.
    pub(crate) fn wanted_count(&self) -> usize {
        if self.is_over {
            return 0;
        }
        self.wanted.saturating_sub(self.ahead.len())
    }

    /// Takes lists of boxes until there are enough for the claims to be read ahead. A reader that has read
    /// its last claim gives its boxes to the others.
    pub(crate) fn add_spare(&mut self, alloc: Global, lists: &mut Vec<Vec<BoxedClaim>>)
        ensures { self.new ≡ record self.old { spare = self.new.spare } }
    {
        if !self.is_over {
            refill(&mut self.spare, self.wanted, lists);
        } else if !self.spare.is_empty() {
            let _ = lists.push(replace(&mut self.spare, Vec::new(alloc)));
        }
    }

    /// Reads claims until `limit` claims are read and not taken yet, or no claim is left. If memory
    /// runs out, the reader has failed, and reads no more.
    pub(crate) fn read_ahead(&mut self, alloc: Global, limit: usize)
        requires { self.old.has_failed ≡ false → IsPlaced self.old }
        ensures { ReadsAhead self.old self.new }
    {
        'claims: for _ in self.ahead.len()..limit {
            if self.has_failed || self.is_over {
                return;
            }
            let Ok(()) = self.read_next(alloc) else {
                self.has_failed = true;
                return;
            };
        }
    }

    // Reads the next claim, or finds that no claim is left.
    fn read_next(&mut self, alloc: Global) -> Result<(), AllocError>
        requires works { self.old.has_failed ≡ false }
        requires more { self.old.is_over ≡ false }
        requires placed { IsPlaced self.old }
        ensures reads { OnOk result (Reads self.old self.new) }
        ensures taken { self.new.taken ≡ self.old.taken }
    {
        let Some(claim) = read_claim(alloc, &mut self.rows, &mut self.spare)? else {
            self.is_over = true;
            return Ok(());
        };
        self.ahead.push_back(claim)?;
        Ok(())
    }
}

// Reads the next claim. Refused records are skipped. Returns `None` if no claim is left.
fn read_claim(
    alloc: Global,
    rows: &mut Rows<'_>,
    spare: &mut Vec<BoxedClaim>,
) -> Result<Option<BoxedClaim>, AllocError>
    requires within { rows.old.place < rows.old.number }
    requires fits { rows.old.place < 2 ^ 64 }
    ensures { IfOk result (ReadsClaim rows.old rows.new) }
{
    // proof: a reader returns the first of its remaining rows, and no row after the last one
    given_row_has_the_claim();
    no_records_give_no_rows();
    'records: loop {
        let fields = BoxedClaim::spare_fields(alloc, spare);
        let Some(row) = rows.next_in_spare(fields)? else {
            return Ok(None);
        };
        if let Row::Good { claim, .. } = row {
            let claim = BoxedClaim::in_spare(alloc, spare, claim)?;
            return Ok(Some(claim));
        }
    }
}

// Moves the boxes of the last lists until there are at least `wanted` spare boxes. If memory runs out,
// the boxes of a list are dropped.
fn refill(spare: &mut Vec<BoxedClaim>, wanted: usize, lists: &mut Vec<Vec<BoxedClaim>>) {
    for _ in 0..lists.len() {
        if spare.len() >= wanted {
            return;
        }
        let Some(mut list) = lists.pop() else {
            return;
        };
        let _ = spare.append(&mut list);
    }
}
