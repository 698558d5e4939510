//! The queue of the claims of a provider's file that are read and not given yet.
ghost use Rattle.std.specs.Prelude.{◌≡◌, ◌<◌, ◌^◌, true, false, [], length, option_map, slice_get, IfOk};
ghost use Rattle.ordered_claims.specs.ReadAhead.{IsPlaced};
ghost use Rattle.ordered_claims.specs.Queued.{GivesClaim, IsStocked, TakesAhead, read_of};

use crate::file_reader::FileReader;
use claim_gate::BoxedClaim;
use feel_tests::Day;
use std::alloc::{AllocError, Global};
use std::collections::VecDeque;

/// The maximum number of claims of a file that are read ahead at once. To read them takes some
/// milliseconds, far longer than to start a thread.
const AHEAD_LIMIT: usize = 4_096;

/// The maximum number of claims that are read ahead at once of a file that has given none. Such a
/// file must not delay those whose claims come next.
const AHEAD_UNGIVEN_LIMIT: usize = 1_024;

/// The claims of a provider's file that are read and not given yet.
pub(crate) struct FileQueue {
    pub(crate) claims: VecDeque<BoxedClaim>,
    /// The number of claims that are given.
    pub(crate) given: usize,
    /// No claim of the file is left after those in the queue.
    pub(crate) is_last: bool,
}

impl Drop for FileQueue {
    fn drop(self) {
        let FileQueue {
            claims: _,
            given: _,
            is_last: _,
        } = self;
    }
}

impl FileQueue {
    /// Creates the queue of a file of which no claim is read.
    pub(crate) fn new(alloc: Global) -> FileQueue
        ensures empty { result.claims.items ≡ [] }
        ensures none { result.given ≡ 0 }
        ensures more { result.is_last ≡ false }
    {
        FileQueue {
            claims: VecDeque::new(alloc),
            given: 0,
            is_last: false,
        }
    }

    /// Returns whether the next claim of the file is in the queue, or no claim of the file is left.
    pub(crate) fn is_stocked(&self) -> bool
        ensures { result ≡ true → IsStocked self.now }
    {
        if self.claims.is_empty() {
            return self.is_last;
        }
        true
    }

    /// Returns the day of service of the first claim in the queue, or `None` if the queue is empty.
    pub(crate) fn first_day(&self) -> Option<Day>
        ensures { result ≡ option_map (λ claim. claim.service) (slice_get self.now.claims.items 0) }
    {
        let Some(claim) = self.claims.front() else {
            return None;
        };
        Some(claim.as_claim().service)
    }

    /// Returns the first claims in the queue, at most `limit` of them.
    pub(crate) fn front_claims(&self, limit: usize) -> &[BoxedClaim] {
        let (front, _) = self.claims.as_slices();
        &front[..front.len().min(limit)]
    }

    /// Gives the first claim in the queue.
    pub(crate) fn give(&mut self) -> BoxedClaim
        requires there { 0 < length self.old.claims.items }
        requires fits { read_of self.old < 2 ^ 64 }
        ensures { GivesClaim self.old self.new result }
    {
        self.given += 1;
        let Some(claim) = self.claims.pop_front() else {
            unreachable!();
        };
        claim
    }

    /// Takes the claims that the reader of the file has read ahead. From then on it reads ahead until
    /// `limit` claims of the file are in memory. Returns whether the next claim of the file is in the
    /// queue, or no claim of the file is left. The only error is that memory runs out.
    pub(crate) fn take_from(
        &mut self,
        reader: &mut FileReader<'_>,
        limit: usize,
    ) -> Result<bool, AllocError>
        requires joined { reader.old.taken ≡ read_of self.old }
        requires placed { IsPlaced reader.old }
        requires fits { read_of self.old < 2 ^ 64 }
        ensures takes { TakesAhead self.old self.new reader.old reader.new }
        ensures stocked { IfOk result (λ stocked. stocked ≡ true → IsStocked self.new) }
    {
        let count = reader.ahead.len();
        self.claims.append(&mut reader.ahead)?;
        reader.taken += count;
        reader.wanted = self.count_to_read(limit);
        self.is_last = reader.is_over;
        Ok(self.is_stocked())
    }

    // Returns the number of claims to be read ahead at once, so that at most `limit` are in memory.
    fn count_to_read(&self, limit: usize) -> usize {
        let piece = if self.given == 0 {
            AHEAD_UNGIVEN_LIMIT
        } else {
            AHEAD_LIMIT
        };
        limit.saturating_sub(self.claims.len()).min(piece)
    }
}
