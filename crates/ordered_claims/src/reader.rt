//! The reader of the claims of all files.
ghost use Rattle.std.specs.Prelude.{◌≡◌, ◌≤◌, length, IfOk, OnErr};
ghost use Rattle.ordered_claims.specs.OrderedParts.{AreJoined, BeginsUnder, GivesNext, given_of};

use crate::next_claim::NextClaim;
use crate::queues::ClaimQueues;
use crate::readers::ClaimReaders;
use claim_gate::{Offer, Terms};
use std::alloc::{AllocError, Global};
use std::marker::Model;

/// A reader of the claims of all files, which gives them in the order of the terms. It borrows the
/// terms, and has one claim of each file in memory.
pub struct OrderedClaims<'t> {
    queues: ClaimQueues<'t>,
    readers: ClaimReaders<'t>,
}

impl Drop for OrderedClaims<'_> {
    fn drop(self) {
        let OrderedClaims {
            queues: _,
            readers: _,
        } = self;
    }
}

impl<'t> Model for OrderedClaims<'t> {
    ghost use Rattle.std.specs.Prelude.{◌+◌};
    ghost use Rattle.ordered_claims.specs.OrderedParts.{AreJoined, OrderedParts};

    ghost Value = { OrderedParts };

    ghost view = { λ c. record {
      terms = c.queues.terms;
      given = c.queues.given;
      read = c.queues.read;
      left = c.queues.left + c.readers.left;
    } };

    ghost invariant = { λ c. AreJoined c.queues c.readers };
}

impl<'t> OrderedClaims<'t> {
    /// Opens all files of the terms and reads the first claim of each.
    pub fn new(alloc: Global, terms: &'t Terms) -> Result<OrderedClaims<'t>, AllocError>
        ensures start { IfOk result (BeginsUnder terms.now) }
    {
        let mut readers = ClaimReaders::open(alloc, terms)?;
        let mut queues = ClaimQueues::new(alloc, terms)?;
        queues.take_from(&mut readers)?;
        Ok(OrderedClaims { queues, readers })
    }

    /// Returns an offer of the next claim in the order, or `None` once all claims are given. If
    /// memory runs out, every later call returns the error again.
    pub fn next(&mut self) -> Result<Option<Offer>, AllocError>
        ensures gives { IfOk result (GivesNext self.old self.new) }
        ensures refused { OnErr result (self.new.terms ≡ self.old.terms) }
    {
        let offer = match self.queues.next() {
            NextClaim::Given(offer) => offer,
            NextClaim::NoneLeft => return Ok(None),
            NextClaim::Unread => return Err(AllocError),
        };
        self.readers.read_next_of(offer.provider - 1)?;
        self.queues.take_from(&mut self.readers)?;
        Ok(Some(offer))
    }

    /// Returns the number of a provider's claims that are given. Providers count from 1.
    pub fn given_count(&self, provider: usize) -> usize
        requires least { 1 ≤ provider }
        requires most { provider ≤ length self.now.terms.files }
        ensures { result ≡ given_of self.now provider }
    {
        self.queues.given_count(provider)
    }

    /// Returns the claims that are read and the readers of the others. So a thread can give the claims
    /// that are read while others read more.
    pub fn split(self) -> (ClaimQueues<'t>, ClaimReaders<'t>)
        ensures terms { result.0.terms ≡ self.entry.terms }
        ensures given { result.0.given ≡ self.entry.given }
        ensures joined { AreJoined result.0 result.1 }
    {
        let OrderedClaims { queues, readers } = self;
        (queues, readers)
    }
}
