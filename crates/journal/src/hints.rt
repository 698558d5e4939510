//! Hints to the numbers of names. They have no contract.
//!
//! A search in a tree of many names reads a dozen places in memory that are not in the processor's
//! cache, and it runs within a critical section. Hints are found by a hash of the name's bytes, and
//! give two numbers to try first. The caller compares the name with this number, so a wrong hint
//! costs only time: if all names of a provider have one hash, lookups are as fast as the tree.

use feel_tests::Text;
use settlement::Claim;
use std::alloc::Global;
use std::mem::replace;

/// The least number of hints for each name, so that few names share a place.
const HINTS_A_NAME: usize = 4;

/// The number of hints that are tried for a name, so that two names with one place are both found.
const HINTS_A_PLACE: usize = 2;

/// The number of hints at first. It doubles as names are added.
const FIRST_HINTS: usize = 64;

/// The offset basis of the hash FNV-1a in 64 bits.
const MIXED_FIRST: u64 = 0xcbf2_9ce4_8422_2325;

/// The prime of the hash FNV-1a in 64 bits.
const MIXED_PRIME: u64 = 0x0000_0100_0000_01b3;

/// The key of a name's lookup: its hash, and a number that it may have.
#[derive(Clone, Copy)]
pub struct NameLookup {
    /// The hash of the name's bytes.
    pub bits: u64,
    /// A number that the name may have, which is tried first.
    pub candidate: Option<u32>,
}

impl NameLookup {
    /// Hashes a name, without a number to try first.
    pub fn new(name: &Text) -> NameLookup {
        NameLookup {
            bits: hash_of(name),
            candidate: None,
        }
    }
}

/// The lookups of the names of a claim.
#[derive(Clone, Copy)]
pub struct ClaimLookup {
    /// The lookup of the family's name.
    pub family: NameLookup,
    /// The lookup of the member's name.
    pub member: NameLookup,
}

impl ClaimLookup {
    /// Hashes the names of a claim. A claim without a family has one name.
    pub fn new(claim: &Claim) -> ClaimLookup {
        let member = NameLookup::new(&claim.member);
        let family = match &claim.family {
            Some(family) => NameLookup::new(family),
            None => member,
        };
        ClaimLookup { family, member }
    }
}

/// The numbers of names by their hashes, with the latest number for each hash first. Their count is
/// a power of two, or zero.
#[derive(Drop)]
pub struct Hints {
    numbers: Vec<u32>,
}

impl Hints {
    /// Returns an empty list of hints.
    pub fn new(alloc: Global) -> Hints {
        Hints {
            numbers: Vec::new(alloc),
        }
    }

    /// Returns the number to try first for a name with this hash.
    pub fn first_of(&self, bits: u64) -> Option<u32> {
        self.numbers.get(self.place_of(bits)).copied()
    }

    /// Returns the number to try second for a name with this hash.
    pub fn second_of(&self, bits: u64) -> Option<u32> {
        let place = self.place_of(bits).wrapping_add(1);
        self.numbers.get(place).copied()
    }

    /// Records the number of a name with this hash.
    pub fn note(&mut self, bits: u64, number: u32) {
        let place = self.place_of(bits);
        if let Some(first) = self.numbers.get_mut(place) {
            let before = replace(first, number);
            if let Some(second) = self.numbers.get_mut(place.wrapping_add(1)) {
                *second = before;
            }
        }
    }

    // The result is at most the second last place, and the place after it has the second hint. In this
    // hash the last bytes of a name hardly change the high half, so both halves select the place.
    fn place_of(&self, bits: u64) -> usize {
        (bits ^ (bits >> 32)) as usize & self.numbers.len().wrapping_sub(HINTS_A_PLACE)
    }

    /// Makes more hints if there are too few for the number of names. Earlier hints may get lost.
    /// If memory runs out, the hints are unchanged.
    pub fn grow_for(&mut self, names: usize) {
        let length = self.numbers.len();
        if length / HINTS_A_NAME <= names {
            let more = length.saturating_mul(2).max(FIRST_HINTS);
            let _ = self.numbers.resize(more, 0);
        }
    }
}

fn hash_of(name: &Text) -> u64 {
    let mut mixed = MIXED_FIRST;
    for byte in name.as_bytes() {
        mixed = (mixed ^ u64::from(*byte)).wrapping_mul(MIXED_PRIME);
    }
    mixed
}
