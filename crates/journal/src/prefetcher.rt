//! The prefetcher: it reads the memory that the next calls need, for several claims at once.
//!
//! To take a claim, a call reads places that are not in the processor's cache: the claim's slot and
//! the slots of the last claims of its account and family. To add a claim, a call reads the names of
//! its family and member, the last claims of its account and family, and their slots. The reads for
//! one claim depend on each other, so the processor waits for each of them. The reads for several
//! claims are independent, and the processor makes them in parallel. The prefetcher has no contract,
//! and no result depends on it.

use crate::boxed_claim::BoxedClaim;
use crate::family_queues::FamilyQueues;
use crate::hints::ClaimLookup;
use crate::last_by_key::LastByKey;
use crate::last_by_member::ENTRIES_A_MEMBER;
use crate::link::Link;
use crate::names::Names;
use crate::slot::Slot;
use std::alloc::Global;

/// The number of claims that are prefetched together: about the number of reads that a processor
/// makes in parallel.
const CLAIMS_AT_ONCE: usize = 12;

/// The state of the prefetcher: the number of claims in the queue that are already prefetched, the
/// lookups of the names of the next claims to be added, and the number of these that were added.
/// `read` is computed from the memory that was read; without it, the compiler could leave out the
/// reads.
#[derive(Drop)]
pub struct Prefetcher {
    fetched: usize,
    coming: Vec<ClaimLookup>,
    added: usize,
    read: usize,
}

impl Prefetcher {
    /// Returns a prefetcher that has not read any memory yet.
    pub fn new(alloc: Global) -> Prefetcher {
        Prefetcher {
            fetched: 0,
            coming: Vec::new(alloc),
            added: 0,
            read: 0,
        }
    }

    /// Prefetches the memory for the next claim to be taken and for some after it, unless that is
    /// done. It is called before a claim is taken.
    pub fn fetch_ready(&mut self, queues: &FamilyQueues) {
        if self.fetched > 0 {
            self.fetched -= 1;
            return;
        }
        self.fetched = CLAIMS_AT_ONCE;
        let mut read = self.read;
        for place in 0..CLAIMS_AT_ONCE {
            read = read.wrapping_add(before(slot_of(queues, place)));
        }
        for place in 0..CLAIMS_AT_ONCE {
            read = read.wrapping_add(left_before(queues, slot_of(queues, place)));
        }
        self.read = read;
    }

    /// Prepares the lookups of the names of these claims, before they are added.
    pub fn prefetch(&mut self, names: &Names, claims: &[BoxedClaim]) {
        self.coming.clear();
        self.added = 0;
        for claim in claims {
            // If memory runs out, the remaining names are looked up without a prefetch.
            let Ok(()) = self.coming.push(ClaimLookup::new(claim.as_claim())) else {
                break;
            };
        }
        for lookup in self.coming.iter_mut() {
            lookup.family.candidate = names.hint_of(lookup.family.bits);
            lookup.member.candidate = names.hint_of(lookup.member.bits);
        }
    }

    /// Prefetches the memory for the next claim to be added and for some after it, unless that is
    /// done, and returns the lookup of its names. It is called before a claim is added.
    pub fn fetch_added(&mut self, names: &Names, queues: &FamilyQueues) -> Option<ClaimLookup> {
        let lookup = self.coming.get(self.added).copied()?;
        if self.added % CLAIMS_AT_ONCE == 0 {
            let read = self.read_of_coming(names, queues);
            self.read = self.read.wrapping_add(read);
        }
        self.added = self.added.saturating_add(1);
        Some(lookup)
    }

    // Reads the memory for the next claims to be added, and returns a number computed from it.
    fn read_of_coming(&self, names: &Names, queues: &FamilyQueues) -> usize {
        let mut lasts = [Link::none(); CLAIMS_AT_ONCE];
        let mut read = 0usize;
        for (place, last) in lasts.iter_mut().enumerate() {
            if let Some(coming) = self.coming.get(self.added.saturating_add(place)) {
                read = read.wrapping_add(names_of(coming, names, queues));
                *last = end_of(coming, queues);
            }
        }
        for last in &lasts {
            read = read.wrapping_add(left_by(queues, *last));
        }
        read
    }
}

// Reads the names of a claim and the places of its last positions, and returns a number computed
// from them.
fn names_of(coming: &ClaimLookup, names: &Names, queues: &FamilyQueues) -> usize {
    let mut read = 0usize;
    if let Some(family) = coming.family.candidate {
        read = read.wrapping_add(names.bytes_of(family));
        read = read.wrapping_add(position_in(&queues.lasts.family_years, family));
    }
    if let Some(member) = coming.member.candidate {
        read = read.wrapping_add(names.bytes_of(member));
        read = read.wrapping_add(position_in(&queues.lasts.accounts, member));
    }
    read
}

// The last claim of a claim's family.
fn end_of(coming: &ClaimLookup, queues: &FamilyQueues) -> Link {
    match coming.family.candidate {
        Some(family) => queues.ends.last_of(family),
        None => Link::none(),
    }
}

fn slot_of(queues: &FamilyQueues, place: usize) -> Option<&Slot> {
    let position = queues.ready.get(place)?;
    queues.slots.get(*position)
}

// Reads a slot, and returns a number computed from it.
fn before(slot: Option<&Slot>) -> usize {
    match slot {
        Some(slot) => index_of(slot.own)
            .wrapping_add(index_of(slot.family_year))
            .wrapping_add(usize::from(slot.phase.is_ready())),
        None => 0,
    }
}

// Reads the slots of the last claims of the slot's account and of its family and year, and returns
// a number computed from them.
fn left_before(queues: &FamilyQueues, slot: Option<&Slot>) -> usize {
    match slot {
        Some(slot) => left_by(queues, slot.own).wrapping_add(left_by(queues, slot.family_year)),
        None => 0,
    }
}

fn slot_at(queues: &FamilyQueues, last: Link) -> Option<&Slot> {
    queues.slots.get(last.position()? as usize)
}

// Reads the slot at a position and its accumulators, and returns a number computed from them.
fn left_by(queues: &FamilyQueues, last: Link) -> usize {
    match slot_at(queues, last) {
        Some(slot) => match slot.phase.left_acc() {
            Some(left) => usize::from(left.foop == left.met),
            None => 1,
        },
        None => 0,
    }
}

// Reads the places of the last positions of a number, and returns a number computed from them.
fn position_in(lasts: &LastByKey, number: u32) -> usize {
    let plain = index_of(lasts.plain.last_of(number));
    let first = (number as usize).saturating_mul(ENTRIES_A_MEMBER);
    let last = first.saturating_add(ENTRIES_A_MEMBER - 1);
    match (
        lasts.others.entries.get(first),
        lasts.others.entries.get(last),
    ) {
        (Some(first), Some(last)) => plain
            .wrapping_add(index_of(first.last))
            .wrapping_add(index_of(last.last)),
        _ => plain,
    }
}

fn index_of(last: Link) -> usize {
    last.position().map_or(0, |position| position as usize)
}
