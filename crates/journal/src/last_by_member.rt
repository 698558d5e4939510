//! The position of the last claim of each key, kept by member.
ghost use Rattle.std.specs.Prelude.{◌≡◌, ◌<◌, ◌+◌, ◌^◌, Some, None, true, false, cond, length, IfOk, OnOk, OnErr, IsSome};
ghost use Rattle.std.specs.BTreeMap.{get};
ghost use Rattle.journal.specs.LastByKey.{AccumulatorKey as AnyKey, HasRoomAmong, last_among, last_in_map, is_held, is_entry_of, entry_place, is_key, key_cmp, replaced};

use crate::accumulator_key::AccumulatorKey;
use crate::last_by_number::replace_if_set;
use crate::link::Link;
use std::alloc::{AllocError, Global};
use std::collections::BTreeMap;
use std::mem::replace;

/// The number of entries of each member. This many years in a row have entries of their own.
pub const ENTRIES_A_MEMBER: usize = 4;

/// The last position of one key of a member.
#[derive(Clone, Copy)]
pub struct MemberLast {
    /// The number of the family in the key.
    pub family: u32,
    /// The last position of the key.
    pub last: Link,
    /// The year of the key.
    pub year: u16,
    /// Whether the entry is of a key at all.
    pub is_used: bool,
}

impl MemberLast {
    fn vacant() -> MemberLast
        ensures { result.is_used ≡ false }
    {
        MemberLast {
            family: 0,
            last: Link::none(),
            year: 0,
            is_used: false,
        }
    }

    fn is_of(&self, key: AccumulatorKey) -> bool
        ensures { result ≡ is_entry_of self.now key }
    {
        self.is_used && self.family == key.family && self.year == key.year
    }

    // Whether the entry is better used for this key. Claims mostly come in the order of their days,
    // so the next ones are of the latest year. An entry changes at most once for each later year.
    fn gives_way_to(&self, key: AccumulatorKey) -> bool {
        !self.is_used || self.year < key.year
    }
}

/// The last position of each key that has one.
///
/// Most members have claims of one family and of a few years. Each member has four entries, which
/// the years take in turn, and an entry is found without a search. All other keys are in the map.
/// If the map has a position for the key of an entry, it is an earlier one and does not count.
pub struct LastByMember {
    pub entries: Vec<MemberLast>,
    pub others: BTreeMap<AccumulatorKey, Link>,
}

impl Drop for LastByMember {
    fn drop(self) {
        let LastByMember {
            entries: _,
            others: _,
        } = self;
    }
}

impl LastByMember {
    /// Returns an index without positions.
    pub fn new(alloc: Global) -> LastByMember
        ensures { (key : AnyKey) → last_among result key ≡ None }
    {
        LastByMember {
            entries: Vec::new(alloc),
            others: BTreeMap::new(alloc),
        }
    }

    /// Returns the last position of a key.
    pub fn last_position(&self, key: AccumulatorKey) -> Link
        ensures { result ≡ last_among self.now key }
    {
        if self.holds(key) {
            self.entries[place_of(key)].last
        } else {
            find(&self.others, key)
        }
    }

    /// Sets the last position of a key and returns the previous one. If memory runs out, all
    /// positions are unchanged.
    pub fn put(&mut self, key: AccumulatorKey, position: u32) -> Result<Link, AllocError>
        requires { position + 1 < 2 ^ 32 }
        ensures before { IfOk result (λ before. before ≡ last_among self.old key) }
        ensures found { OnOk result ((q : AnyKey) → last_among self.new q
            ≡ cond (is_key key q) (Some position) (last_among self.old q)) }
        ensures room { OnOk result (HasRoomAmong self.new key) }
        ensures refused { OnErr result
            ((q : AnyKey) → last_among self.new q ≡ last_among self.old q) }
    {
        self.bring(key)?;
        if self.holds(key) {
            Ok(self.put_in_entry(key, Link::to(position)))
        } else {
            self.put_in_map(key, position)
        }
    }

    /// Replaces the last position of a key, if it has one, and returns the previous one.
    pub fn replace_existing(&mut self, key: AccumulatorKey, position: u32) -> Link
        requires { position + 1 < 2 ^ 32 }
        ensures before { result ≡ last_among self.old key }
        ensures found { (q : AnyKey) → last_among self.new q
            ≡ cond (is_key key q) (replaced (last_among self.old key) position)
            (last_among self.old q) }
    {
        if self.holds(key) {
            let before = self.entries[place_of(key)].last;
            let mut after = before;
            let _before = replace_if_set(&mut after, position);
            self.put_in_entry(key, after)
        } else {
            replace_existing(&mut self.others, key, position)
        }
    }

    /// Sets or clears the last position of a key that has room in the index.
    pub fn set(&mut self, key: AccumulatorKey, position: Link)
        requires { HasRoomAmong self.old key }
        ensures { (q : AnyKey) → last_among self.new q
            ≡ cond (is_key key q) position (last_among self.old q) }
    {
        if self.holds(key) {
            let _before = self.put_in_entry(key, position);
        } else {
            set(&mut self.others, key, position);
        }
    }

    // Whether the entry at the key's place is of the key.
    fn holds(&self, key: AccumulatorKey) -> bool
        ensures { result ≡ is_held self.now key }
    {
        match self.entries.get(place_of(key)) {
            Some(entry) => entry.is_of(key),
            None => false,
        }
    }

    fn put_in_entry(&mut self, key: AccumulatorKey, position: Link) -> Link
        requires { is_held self.old key ≡ true }
        ensures before { result ≡ last_among self.old key }
        ensures found { (q : AnyKey) → last_among self.new q
            ≡ cond (is_key key q) position (last_among self.old q) }
        ensures held { is_held self.new key ≡ true }
    {
        let entry = &mut self.entries[place_of(key)];
        replace(&mut entry.last, position)
    }

    fn put_in_map(&mut self, key: AccumulatorKey, position: u32) -> Result<Link, AllocError>
        requires fits { position + 1 < 2 ^ 32 }
        requires apart { is_held self.old key ≡ false }
        ensures before { IfOk result (λ before. before ≡ last_among self.old key) }
        ensures found { OnOk result ((q : AnyKey) → last_among self.new q
            ≡ cond (is_key key q) (Some position) (last_among self.old q)) }
        ensures room { OnOk result (HasRoomAmong self.new key) }
        ensures refused { OnErr result
            ((q : AnyKey) → last_among self.new q ≡ last_among self.old q) }
    {
        let before = insert(&mut self.others, key, Link::to(position))?;
        Ok(before)
    }

    // Prepares the entry at the key's place for the key, if this saves searches. All positions are
    // unchanged.
    fn bring(&mut self, key: AccumulatorKey) -> Result<(), AllocError>
        ensures { (q : AnyKey) → last_among self.new q ≡ last_among self.old q }
    {
        let place = place_of(key);
        if place >= self.entries.len() {
            self.entries.resize(place + 1, MemberLast::vacant())?;
        }
        if self.entries[place].gives_way_to(key) {
            self.exchange(key)
        } else {
            Ok(())
        }
    }

    // Moves the key of the entry at the key's place to the map, and this key to the entry.
    fn exchange(&mut self, key: AccumulatorKey) -> Result<(), AllocError>
        requires { entry_place key < length self.old.entries.items }
        ensures { (q : AnyKey) → last_among self.new q ≡ last_among self.old q }
    {
        self.move_to_map(key)?;
        self.entries[place_of(key)] = MemberLast {
            family: key.family,
            last: find(&self.others, key),
            year: key.year,
            is_used: true,
        };
        Ok(())
    }

    // Copies the position of the entry at the key's place to the map, which then has the last
    // positions of all keys with this place.
    fn move_to_map(&mut self, key: AccumulatorKey) -> Result<(), AllocError>
        requires { entry_place key < length self.old.entries.items }
        ensures moved { OnOk result ((q : AnyKey) → entry_place q ≡ entry_place key
            → last_in_map self.new.others q ≡ last_among self.old q) }
        ensures others { OnOk result ((q : AnyKey) → ¬ (entry_place q ≡ entry_place key)
            → last_in_map self.new.others q ≡ last_in_map self.old.others q) }
        ensures entries { self.new.entries ≡ self.old.entries }
        ensures refused { OnErr result
            ((q : AnyKey) → last_among self.new q ≡ last_among self.old q) }
    {
        let place = place_of(key);
        let entry = self.entries[place];
        if !entry.is_used {
            return Ok(());
        }
        let moved = AccumulatorKey {
            family: entry.family,
            member: key.member,
            year: entry.year,
        };
        // An entry is always of a key with its place, but no invariant says so.
        if place_of(moved) != place {
            return Ok(());
        }
        let _before = insert(&mut self.others, moved, entry.last)?;
        Ok(())
    }
}

// Returns the place of the entry for a key.
fn place_of(key: AccumulatorKey) -> usize
    ensures { result ≡ entry_place key }
{
    key.member as usize * ENTRIES_A_MEMBER + usize::from(key.year) % ENTRIES_A_MEMBER
}

fn insert(
    others: &mut BTreeMap<AccumulatorKey, Link>,
    key: AccumulatorKey,
    position: Link,
) -> Result<Link, AllocError>
    ensures before { IfOk result (λ before. before ≡ last_in_map others.old key) }
    ensures found { OnOk result ((q : AnyKey) → last_in_map others.new q
        ≡ cond (is_key key q) position (last_in_map others.old q)) }
    ensures room { OnOk result (IsSome (get key_cmp others.new key)) }
    ensures refused { OnErr result
        ((q : AnyKey) → last_in_map others.new q ≡ last_in_map others.old q) }
{
    match others.insert(key, position)? {
        Some(before) => Ok(before),
        None => Ok(Link::none()),
    }
}

fn find(others: &BTreeMap<AccumulatorKey, Link>, key: AccumulatorKey) -> Link
    ensures { result ≡ last_in_map others.now key }
{
    match others.get(&key) {
        Some(last) => *last,
        None => Link::none(),
    }
}

fn replace_existing(
    others: &mut BTreeMap<AccumulatorKey, Link>,
    key: AccumulatorKey,
    position: u32,
) -> Link
    requires { position + 1 < 2 ^ 32 }
    ensures before { result ≡ last_in_map others.old key }
    ensures found { (q : AnyKey) → last_in_map others.new q
        ≡ cond (is_key key q)
        (replaced (last_in_map others.old key) position)
        (last_in_map others.old q) }
{
    match others.get_mut(&key) {
        Some(last) => replace_if_set(last, position),
        None => Link::none(),
    }
}

fn set(others: &mut BTreeMap<AccumulatorKey, Link>, key: AccumulatorKey, position: Link)
    requires { IsSome (get key_cmp others.old key) }
    ensures { (q : AnyKey) → last_in_map others.new q
        ≡ cond (is_key key q) position (last_in_map others.old q) }
{
    match others.get_mut(&key) {
        Some(last) => *last = position,
        None => unreachable!(),
    }
}
