//! The position of the last claim of each accumulator key.
ghost use Rattle.std.specs.Prelude.{◌≡◌, ◌<◌, ◌+◌, ◌^◌, Some, None, cond, IfOk, OnOk, OnErr};
ghost use Rattle.journal.specs.LastByKey.{AccumulatorKey as AnyKey, HasRoomFor, last_of_key, is_key, replaced};

use crate::accumulator_key::AccumulatorKey;
use crate::last_by_member::LastByMember;
use crate::last_by_number::LastByNumber;
use crate::link::Link;
use std::alloc::{AllocError, Global};

/// The last position of each key that has one.
///
/// A member who is its own family, in year 0, is found by its number alone, which takes the least
/// memory: under a plan without families and years, all keys are of this kind.
pub struct LastByKey {
    pub plain: LastByNumber,
    pub others: LastByMember,
}

impl Drop for LastByKey {
    fn drop(self) {
        let LastByKey {
            plain: _,
            others: _,
        } = self;
    }
}

impl LastByKey {
    /// Returns an index without positions.
    pub fn new(alloc: Global) -> LastByKey
        ensures { (key : AnyKey) → last_of_key result key ≡ None }
    {
        LastByKey {
            plain: LastByNumber::new(alloc),
            others: LastByMember::new(alloc),
        }
    }

    /// Returns the last position of a key.
    pub fn last_position(&self, key: AccumulatorKey) -> Link
        ensures { result ≡ last_of_key self.now key }
    {
        if key.is_own_family() {
            self.plain.last_of(key.family)
        } else {
            self.others.last_position(key)
        }
    }

    /// Sets the last position of a key and returns the previous one. If memory runs out, all
    /// positions are unchanged.
    pub fn put(&mut self, key: AccumulatorKey, position: u32) -> Result<Link, AllocError>
        requires { position + 1 < 2 ^ 32 }
        ensures before { IfOk result (λ before. before ≡ last_of_key self.old key) }
        ensures found { OnOk result ((q : AnyKey) → last_of_key self.new q
            ≡ cond (is_key key q) (Some position) (last_of_key self.old q)) }
        ensures room { OnOk result (HasRoomFor self.new key) }
        ensures refused { OnErr result
            ((q : AnyKey) → last_of_key self.new q ≡ last_of_key self.old q) }
    {
        if key.is_own_family() {
            self.plain.prepare(key.family)?;
            Ok(self.plain.put(key.family, Link::to(position)))
        } else {
            self.others.put(key, position)
        }
    }

    /// Replaces the last position of a key, if it has one, and returns the previous one.
    pub fn replace_existing(&mut self, key: AccumulatorKey, position: u32) -> Link
        requires { position + 1 < 2 ^ 32 }
        ensures before { result ≡ last_of_key self.old key }
        ensures found { (q : AnyKey) → last_of_key self.new q
            ≡ cond (is_key key q) (replaced (last_of_key self.old key) position)
            (last_of_key self.old q) }
    {
        if key.is_own_family() {
            self.plain.replace_existing(key.family, position)
        } else {
            self.others.replace_existing(key, position)
        }
    }

    /// Sets or clears the last position of a key that has room in the index.
    pub fn set(&mut self, key: AccumulatorKey, position: Link)
        requires { HasRoomFor self.old key }
        ensures { (q : AnyKey) → last_of_key self.new q
            ≡ cond (is_key key q) position (last_of_key self.old q) }
    {
        if key.is_own_family() {
            let _before = self.plain.put(key.family, position);
        } else {
            self.others.set(key, position);
        }
    }
}
