//! The position of the last claim of each number of a name.
ghost use Rattle.std.specs.Prelude.{◌≡◌, ◌<◌, ◌==◌, ◌+◌, ◌^◌, ℕ, None, [], cond, length, OnOk};
ghost use Rattle.journal.specs.LastByKey.{last_of_number, replaced};

use crate::link::Link;
use std::alloc::{AllocError, Global};
use std::mem::replace;

/// The last position of each number that has one.
#[derive(Drop)]
pub struct LastByNumber {
    pub positions: Vec<Link>,
}

impl LastByNumber {
    /// Returns an index without positions.
    pub fn new(alloc: Global) -> LastByNumber
        ensures { result.positions.items ≡ [] }
    {
        LastByNumber {
            positions: Vec::new(alloc),
        }
    }

    /// Returns the last position of a number.
    pub fn last_of(&self, number: u32) -> Link
        ensures { result ≡ last_of_number self.now number }
    {
        match self.positions.get(number as usize) {
            Some(last) => *last,
            None => Link::none(),
        }
    }

    /// Makes room for a number. All positions are unchanged.
    pub fn prepare(&mut self, number: u32) -> Result<(), AllocError>
        ensures same { (n : ℕ) → last_of_number self.new n ≡ last_of_number self.old n }
        ensures room { OnOk result (number < length self.new.positions.items) }
    {
        let number = number as usize;
        if number < self.positions.len() {
            return Ok(());
        }
        self.positions.resize(number + 1, Link::none())
    }

    /// Sets or clears the last position of a number that has room, and returns the previous one.
    pub fn put(&mut self, number: u32, position: Link) -> Link
        requires { number < length self.old.positions.items }
        ensures before { result ≡ last_of_number self.old number }
        ensures found { (n : ℕ) → last_of_number self.new n
            ≡ cond (number == n) position (last_of_number self.old n) }
    {
        replace(&mut self.positions[number as usize], position)
    }

    /// Replaces the last position of a number, if it has one, and returns the previous one.
    pub fn replace_existing(&mut self, number: u32, position: u32) -> Link
        requires { position + 1 < 2 ^ 32 }
        ensures before { result ≡ last_of_number self.old number }
        ensures found { (n : ℕ) → last_of_number self.new n
            ≡ cond (number == n)
            (replaced (last_of_number self.old number) position)
            (last_of_number self.old n) }
    {
        match self.positions.get_mut(number as usize) {
            Some(last) => replace_if_set(last, position),
            None => Link::none(),
        }
    }
}

/// Replaces a position, if there is one, and returns the previous one.
pub fn replace_if_set(last: &mut Link, position: u32) -> Link
    requires { position + 1 < 2 ^ 32 }
    ensures before { result ≡ last.old }
    ensures after { last.new ≡ replaced last.old position }
{
    let before = *last;
    if before.position().is_some() {
        *last = Link::to(position);
    }
    before
}
