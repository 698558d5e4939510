//! The places of all claims, and the calls that add, take and decide them.
ghost use Rattle.std.specs.Prelude.{◌≡◌, ◌++◌, ◌∷◌, [], length, IfOk, IfErr, IfSome, IfNone};
ghost use Rattle.settlement.specs.Accounts.{account_in};
ghost use Rattle.journal.specs.Names.{AreDistinct, Grows};
ghost use Rattle.journal.specs.Places.{InTurn, InWork};
ghost use Rattle.journal.specs.Calls.{next_place, with_phase, with_decision, IsPicked, IsInWork, NothingReady, is_decided_at};
ghost use Rattle.journal.specs.FamilyQueues.{IsKeyOf};

use crate::accumulator_key::AccumulatorKey;
use crate::boxed_claim::BoxedClaim;
use crate::family_queues::FamilyQueues;
use crate::hints::ClaimLookup;
use crate::names::Names;
use crate::prefetcher::Prefetcher;
use crate::ready_claim::ReadyClaim;
use settlement::{Acc, Claim};
use std::alloc::{AllocError, AllocFailed, Global};
use std::marker::Model;

/// The places of all claims, by position. Contracts see the list of places.
pub struct Lanes {
    names: Names,
    queues: FamilyQueues,
    ahead: Prefetcher,
}

impl Drop for Lanes {
    fn drop(self) {
        let Lanes {
            names: _,
            queues: _,
            ahead: _,
        } = self;
    }
}

impl Model for Lanes {
    ghost use Rattle.std.specs.Prelude.{List};
    ghost use Rattle.journal.specs.Places.{Place};
    ghost use Rattle.journal.specs.FamilyQueues.{places_of, AreKept};

    ghost Value = { List Place };

    ghost view = { λ lanes. places_of lanes.names lanes.queues.slots.items };

    ghost invariant = { λ lanes. AreKept lanes.names lanes.queues };
}

impl Lanes {
    /// Returns lanes without claims.
    pub fn new(alloc: Global) -> Lanes
        ensures { result ≡ [] }
    {
        Lanes {
            names: Names::new(alloc),
            queues: FamilyQueues::new(alloc),
            ahead: Prefetcher::new(alloc),
        }
    }

    /// Returns the number of claims that were added.
    pub fn len(&self) -> usize
        ensures value { result ≡ length self.now }
        ensures in_turn { InTurn self.now }
    {
        self.queues.slots.len()
    }

    /// Appends a claim of its member's account in a benefit year, which is 0 if the plan does not
    /// keep accumulators by benefit year. If memory runs out, or if there are 2^32 - 1 claims
    /// already, the claim is returned and the lanes are unchanged.
    pub fn add(&mut self, claim: BoxedClaim, year: u16) -> Result<(), AllocFailed<BoxedClaim>>
        ensures added { IfOk result (λ _.
            self.new ≡ self.old ++ next_place self.old claim year ∷ []) }
        ensures back { IfErr result (λ failed. failed.value ≡ claim) }
        ensures refused { IfErr result (λ _. self.new ≡ self.old) }
        ensures in_turn { InTurn self.new }
    {
        let prefetched = self.ahead.fetch_added(&self.names, &self.queues);
        let Ok(key) = key_of(&mut self.names, claim.as_claim(), year, prefetched) else {
            return Err(AllocFailed { value: claim });
        };
        let Ok(()) = self.queues.prepare(key.family) else {
            return Err(AllocFailed { value: claim });
        };
        self.queues.add(key, claim)
    }

    /// Prefetches the memory that is needed when these claims are added. Contracts see no change.
    pub fn prefetch(&mut self, claims: &[BoxedClaim])
        ensures same { self.new ≡ self.old }
        ensures in_turn { InTurn self.new }
    {
        self.ahead.prefetch(&self.names, claims);
    }

    /// Takes a ready claim, if there is one.
    pub fn take(&mut self) -> Option<ReadyClaim>
        ensures picked { IfSome result (IsPicked self.old) }
        ensures taken { IfSome result (λ picked.
            self.new ≡ with_phase self.old picked.position InWork) }
        ensures nothing { IfNone result (NothingReady self.old) }
        ensures unchanged { IfNone result (self.new ≡ self.old) }
        ensures was_in_turn { InTurn self.old }
        ensures in_turn { InTurn self.new }
    {
        self.ahead.fetch_ready(&self.queues);
        self.queues.take()
    }

    /// Decides a taken claim, with the accumulators after it. The next claim of its family, if
    /// there is one, becomes ready. If memory runs out, the lanes are unchanged.
    pub fn decide(&mut self, position: usize, left: Acc) -> Result<(), AllocError>
        requires { IsInWork self.old position }
        ensures decided { IfOk result (λ _. self.new ≡ with_decision self.old position left) }
        ensures refused { IfErr result (λ _. self.new ≡ self.old) }
        ensures in_turn { InTurn self.new }
    {
        self.queues.decide(position, &left)
    }

    /// Returns whether there is a claim at this position and it is decided.
    pub fn is_decided(&self, position: usize) -> bool
        ensures value { result ≡ is_decided_at self.now position }
        ensures in_turn { InTurn self.now }
    {
        match self.queues.slots.get(position) {
            Some(slot) => slot.phase.is_decided(),
            None => false,
        }
    }
}

// Returns the key of a claim's account in a year. New names get a number. The lookup of the names
// is the prefetched one, if there is one.
#[tactic(auto, using(crate::proofs::Growing::grows_on, crate::proofs::Growing::key_alone, crate::proofs::Growing::key_apart))]
fn key_of(
    names: &mut Names,
    claim: &Claim,
    year: u16,
    prefetched: Option<ClaimLookup>,
) -> Result<AccumulatorKey, AllocError>
    ensures key { IfOk result (λ key. IsKeyOf names.new key (account_in year claim.now)) }
    ensures grows { Grows names.old names.new }
    ensures distinct { AreDistinct names.new }
{
    let family = claim.family();
    let lookup = lookup_of(claim, prefetched);
    let lane = names.number(family, lookup.family)?;
    let member = &claim.member;
    if member.as_str() == family.as_str() {
        return Ok(AccumulatorKey {
            family: lane,
            member: lane,
            year,
        });
    }
    let number = names.number(member, lookup.member)?;
    Ok(AccumulatorKey {
        family: lane,
        member: number,
        year,
    })
}

fn lookup_of(claim: &Claim, prefetched: Option<ClaimLookup>) -> ClaimLookup {
    match prefetched {
        Some(lookup) => lookup,
        None => ClaimLookup::new(claim),
    }
}
