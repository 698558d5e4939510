//! The slots of all claims. Each slot has links to the next claim of its family and back to the
//! last claims of its account and family, and a queue has the positions of the ready claims.
ghost use Rattle.std.specs.Prelude.{◌≡◌, ◌<◌, ◌+◌, ◌^◌, ◌++◌, ◌∷◌, [], ℕ, Some, None, cond, vec_len, vec_capacity, OnOk, OnErr, IfErr, MatchOption, if◌then◌else◌};
ghost use Rattle.std.specs.VecDeque.{deque_len, deque_capacity};
ghost use Rattle.journal.specs.LastByKey.{AccumulatorKey as AnyKey, last_of_number, last_of_key, family_year_in};
ghost use Rattle.journal.specs.Places.{is_ready};
ghost use Rattle.journal.specs.Calls.{phase_after};
ghost use Rattle.journal.specs.FamilyQueues.{AreAs, AddsSlot, DecidesSlot, FirstIsReady, Follows, HasRoom, IsIdle, NextIsAnother, SlotAt, TakesFirst, LinksBack};
ghost use Rattle.journal.specs.declared.slot.Slot.{Slot as AnySlot};

use crate::accumulator_key::AccumulatorKey;
use crate::boxed_claim::BoxedClaim;
use crate::index32::to_u32;
use crate::last_by_number::LastByNumber;
use crate::last_claim_index::LastClaimIndex;
use crate::link::Link;
use crate::phase::Phase;
use crate::ready_claim::ReadyClaim;
use crate::slot::{Slot, left_at};
use settlement::Acc;
use std::alloc::{AllocError, AllocFailed, Global};
use std::collections::VecDeque;

/// The slots of all claims, by position. The claims of a family form a lane, which is a linked list
/// of slots. The number of a lane is the number of the family's name.
pub struct FamilyQueues {
    pub slots: Vec<Slot>,
    /// The position of the last claim in each lane.
    pub ends: LastByNumber,
    /// The position of the last claim of each account, and of each family and year.
    pub lasts: LastClaimIndex,
    /// The positions of the ready claims, in the order in which they became ready.
    pub ready: VecDeque<usize>,
}

impl Drop for FamilyQueues {
    fn drop(self) {
        let FamilyQueues {
            slots: _,
            ends: _,
            lasts: _,
            ready: _,
        } = self;
    }
}

impl FamilyQueues {
    /// Makes empty queues.
    pub fn new(alloc: Global) -> FamilyQueues
        ensures slots { result.slots.items ≡ [] }
        ensures ends { (lane : ℕ) → last_of_number result.ends lane ≡ None }
        ensures accounts { (q : AnyKey) → last_of_key result.lasts.accounts q ≡ None }
        ensures family_years { (q : AnyKey) → family_year_in result.lasts q ≡ None }
        ensures ready { result.ready.items ≡ [] }
    {
        FamilyQueues {
            slots: Vec::new(alloc),
            ends: LastByNumber::new(alloc),
            lasts: LastClaimIndex::new(alloc),
            ready: VecDeque::new(alloc),
        }
    }

    /// Reserves memory for one more claim in this lane.
    pub fn prepare(&mut self, lane: u32) -> Result<(), AllocError>
        ensures same { AreAs self.old self.new }
        ensures room { OnOk result (HasRoom self.new lane) }
    {
        // A link stores one more than the position.
        let _stored = to_u32(self.slots.len() + 1)?;
        self.slots.reserve(1)?;
        self.ready.reserve(1)?;
        self.ends.prepare(lane)
    }

    /// Appends a claim of an account. If memory runs out, the claim is returned and the queues are
    /// unchanged.
    pub fn add(
        &mut self,
        key: AccumulatorKey,
        claim: BoxedClaim,
    ) -> Result<(), AllocFailed<BoxedClaim>>
        requires room { HasRoom self.old key.family }
        requires within { (last : ℕ) → last_of_number self.old.ends key.family ≡ Some last
            → last < vec_len self.old.slots }
        ensures slots { OnOk result
            (AddsSlot self.old self.new key claim (last_of_number self.old.ends key.family)) }
        ensures back { OnOk result (LinksBack self.old self.new key (vec_len self.old.slots)) }
        ensures returned { IfErr result (λ failed. failed.value ≡ claim) }
        ensures refused { OnErr result (AreAs self.old self.new) }
    {
        let position = self.slots.len() as u32;
        let Ok(following) = self.lasts.put(key, position) else {
            return Err(AllocFailed { value: claim });
        };
        let phase = match self.ends.put(key.family, Link::to(position)).position() {
            Some(last) => self.follow(last, position, claim),
            None => Phase::Ready(claim),
        };
        self.put(Slot {
            key,
            next: Link::none(),
            own: following.own,
            family_year: following.family_year,
            phase,
        });
        Ok(())
    }

    // Links the last slot of a lane to the next one, and returns the phase of the claim there.
    fn follow(&mut self, last: u32, next: u32, claim: BoxedClaim) -> Phase
        requires within { last < vec_len self.old.slots }
        requires fits { next + 1 < 2 ^ 32 }
        ensures { Follows self.old self.new last next claim result }
    {
        let before = &mut self.slots[last as usize];
        before.next = Link::to(next);
        before.phase.next_phase(claim)
    }

    /// Takes the first ready claim, if there is one.
    pub fn take(&mut self) -> Option<ReadyClaim>
        requires { FirstIsReady self.old }
        ensures { MatchOption result (IsIdle self.old self.new) (TakesFirst self.old self.new) }
    {
        let position = self.ready.pop_front()?;
        let own = left_at(&self.slots, self.slots[position].own);
        let family_year = left_at(&self.slots, self.slots[position].family_year);
        let claim = self.slots[position].pick();
        Some(ReadyClaim {
            position,
            claim,
            own,
            family_year,
        })
    }

    /// Decides the claim at a position, with the accumulators after it. The next claim of its lane
    /// becomes ready.
    pub fn decide(&mut self, position: usize, left: &Acc) -> Result<(), AllocError>
        requires within { position < vec_len self.old.slots }
        requires next { NextIsAnother self.old position }
        ensures decided { OnOk result ((slot : AnySlot) → SlotAt self.old position slot
            → DecidesSlot self.old self.new position slot left.now slot.next) }
        ensures ends { self.new.ends ≡ self.old.ends }
        ensures lasts { self.new.lasts ≡ self.old.lasts }
        ensures refused { OnErr result (AreAs self.old self.new) }
    {
        match self.slots[position].next.position() {
            Some(next) => {
                let next = next as usize;
                self.ready.push_back(next)?;
                self.slots[position].decide(left);
                self.slots[next].release();
            }
            None => self.slots[position].decide(left),
        }
        Ok(())
    }

    // Appends a slot, and its position to the queue if its claim is ready.
    fn put(&mut self, slot: Slot)
        requires slots { vec_len self.old.slots < vec_capacity self.old.slots }
        requires ready { deque_len self.old.ready < deque_capacity self.old.ready }
        ensures slots { self.new.slots.items ≡ self.old.slots.items ++ slot ∷ [] }
        ensures ends { self.new.ends ≡ self.old.ends }
        ensures lasts { self.new.lasts ≡ self.old.lasts }
        ensures ready { self.new.ready.items ≡ (if is_ready slot.phase
            then self.old.ready.items ++ vec_len self.old.slots ∷ []
            else self.old.ready.items) }
    {
        if slot.phase.is_ready() {
            self.ready.push_back_reserved(self.slots.len());
        }
        self.slots.push_reserved(slot);
    }
}
