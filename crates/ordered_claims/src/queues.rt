//! The claims of all files that are read and not given yet.
ghost use Rattle.std.specs.Prelude.{◌≡◌, ◌≤◌, ◌+◌, true, false, length, replicate, IfOk};
ghost use Rattle.ordered_claims.specs.OrderedParts.{BeginsUnder, GivesRead, MovesRead, given_of};
ghost use Rattle.ordered_claims.specs.Kept.{AreStocked, IsQueued, IsReading, Moves, read_in, taken_in};

use crate::file_queue::FileQueue;
use crate::file_reader::FileReader;
use crate::heads::{claims_before_others, first_head};
use crate::limits::claims_limit;
use crate::next_claim::NextClaim;
use crate::readers::ClaimReaders;
use claim_gate::{BoxedClaim, Offer, Terms};
use std::alloc::{AllocError, Global};
use std::marker::Model;

/// The claims of all files that are read and not given yet. It gives them in the order of the terms,
/// up to the first claim that may follow one that is not read.
pub struct ClaimQueues<'t> {
    terms: &'t Terms<'t>,
    files: Vec<FileQueue>,
    /// The next claim of each file is in its queue, or no claim of the file is left.
    is_stocked: bool,
}

impl Drop for ClaimQueues<'_> {
    fn drop(self) {
        let ClaimQueues {
            terms: _,
            files: _,
            is_stocked: _,
        } = self;
    }
}

impl<'t> Model for ClaimQueues<'t> {
    ghost use Rattle.ordered_claims.specs.Kept.{IsQueued, given_in, queued_in, read_in};
    ghost use Rattle.ordered_claims.specs.OrderedParts.{OrderedParts};

    ghost Value = { OrderedParts };

    ghost view = { λ q. record {
      terms = q.terms.now;
      given = given_in q.files.items;
      read = read_in q.files.items;
      left = queued_in q.files.items;
    } };

    ghost invariant = { λ q. IsQueued q.terms.now q.files.items q.is_stocked };
}

impl<'t> ClaimQueues<'t> {
    /// Creates the queues of the files of the terms, of which no claim is read.
    pub(crate) fn new(alloc: Global, terms: &'t Terms) -> Result<ClaimQueues<'t>, AllocError>
        ensures start { IfOk result (BeginsUnder terms.now) }
        ensures read { IfOk result
            (λ queues. queues.read ≡ replicate (length terms.now.files) 0) }
    {
        let mut files = Vec::new(alloc);
        'files: for place in 0..terms.files().len() {
            files.push(FileQueue::new(alloc))?;
        }
        Ok(ClaimQueues {
            terms,
            files,
            is_stocked: false,
        })
    }

    /// Returns an offer of the next claim in the order, if it is read.
    pub fn next(&mut self) -> NextClaim
        ensures { GivesRead self.old self.new result }
    {
        if !self.is_stocked {
            return NextClaim::Unread;
        }
        let Some(head) = first_head(self.terms.order(), &self.files) else {
            return NextClaim::NoneLeft;
        };
        let index = head.index;
        let place = self.files[index].given;
        let claim = self.files[index].give();
        self.is_stocked = self.files[index].is_stocked();
        NextClaim::Given(Offer {
            provider: index + 1,
            place,
            claim,
        })
    }

    /// Returns the claims that `next` gives next, up to the next claim of another file and at most `limit`
    /// of them.
    pub fn upcoming(&self, limit: usize) -> &[BoxedClaim] {
        if !self.is_stocked {
            return &[];
        }
        let order = self.terms.order();
        let Some(head) = first_head(order, &self.files) else {
            return &[];
        };
        let claims = self.files[head.index].front_claims(limit);
        claims_before_others(order, &self.files, head.index, claims)
    }

    /// Takes the claims that the readers have read ahead. The only error is that memory ran out, here or
    /// in a reader.
    pub fn take_from(&mut self, readers: &mut ClaimReaders<'_>) -> Result<(), AllocError>
        requires terms { readers.old.terms ≡ self.old.terms }
        requires joined { readers.old.taken ≡ self.old.read }
        ensures { MovesRead self.old self.new readers.old readers.new }
    {
        self.is_stocked = false;
        let all = take_each(self.terms, &mut self.files, &mut readers.files)?;
        self.is_stocked = all;
        Ok(())
    }

    /// Returns the number of a provider's claims that are given. Providers count from 1.
    pub fn given_count(&self, provider: usize) -> usize
        requires least { 1 ≤ provider }
        requires most { provider ≤ length self.now.terms.files }
        ensures { result ≡ given_of self.now provider }
    {
        self.files[provider - 1].given
    }
}

// Takes the claims that are read ahead of each file. Returns whether the next claim of each file is in its
// queue, or no claim of the file is left.
fn take_each(
    terms: &Terms,
    queues: &mut Vec<FileQueue>,
    readers: &mut Vec<FileReader<'_>>,
) -> Result<bool, AllocError>
    requires queued { IsQueued terms.now queues.old.items false }
    requires reading { IsReading terms.now readers.old.items }
    requires joined { taken_in readers.old.items ≡ read_in queues.old.items }
    ensures moves { Moves terms.now queues.old.items queues.new.items
        readers.old.items readers.new.items }
    ensures stocked { IfOk result (λ all. all ≡ true → AreStocked queues.new.items) }
{
    let mut all = true;
    'files: for index in 0..queues.len() {
        if readers[index].has_failed {
            return Err(AllocError);
        }
        let limit = claims_limit(terms, queues.as_slice(), readers.as_slice(), index);
        let stocked = queues[index].take_from(&mut readers[index], limit)?;
        if !stocked {
            all = false;
        }
    }
    Ok(all)
}
