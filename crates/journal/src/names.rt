//! The distinct names of families and members, with a number for each.
ghost use Rattle.std.specs.Prelude.{◌≡◌, ◌++◌, ◌∷◌, [], Some, OnOk, OnErr, IfOk, IfSome, IfNone};
ghost use Rattle.std.specs.List.{slice_get};
ghost use Rattle.journal.specs.Names.{AreDistinct, Grows, IsAbsent};

use crate::hints::{Hints, NameLookup};
use crate::index32::to_u32;
use feel_tests::Text;
use std::alloc::{AllocError, Global};
use std::collections::BTreeMap;
use std::marker::Model;

/// The names of families and members, numbered from 0 in the order of their addition. Contracts see
/// the list of names.
#[derive(Drop)]
pub struct Names {
    alloc: Global,
    names: Vec<Text>,
    numbers: BTreeMap<Text, u32>,
    hints: Hints,
}

impl Model for Names {
    ghost use Rattle.std.specs.Prelude.{List, ℕ};
    ghost use Rattle.journal.specs.Names.{AreNumbered};

    ghost Value = { List (List ℕ) };

    ghost view = { λ names. names.names.items };

    ghost invariant = { λ names. AreNumbered names.names.items names.numbers };
}

impl Names {
    /// Returns an empty list of names.
    pub fn new(alloc: Global) -> Names
        ensures { result ≡ [] }
    {
        Names {
            alloc,
            names: Vec::new(alloc),
            numbers: BTreeMap::new(alloc),
            hints: Hints::new(alloc),
        }
    }

    /// Returns the number of a name, and adds the name if it is new. The number in the lookup is
    /// tried first, and then the numbers of the hints.
    #[tactic(auto, using(crate::proofs::Growing::grows_same, crate::proofs::Growing::grows_added))]
    pub fn number(&mut self, name: &Text, lookup: NameLookup) -> Result<u32, AllocError>
        ensures number { IfOk result (λ number. slice_get self.new number ≡ Some name.now) }
        ensures grows { Grows self.old self.new }
        ensures distinct { AreDistinct self.new }
    {
        if let Some(number) = self.check_candidate(name, lookup.candidate) {
            return Ok(number);
        }
        if let Some(number) = self.check_candidate(name, self.hints.first_of(lookup.bits)) {
            return Ok(number);
        }
        if let Some(number) = self.check_candidate(name, self.hints.second_of(lookup.bits)) {
            return Ok(number);
        }
        match self.find(name) {
            Some(number) => {
                self.hints.note(lookup.bits, number);
                Ok(number)
            }
            None => self.add(name, lookup.bits),
        }
    }

    /// Returns a number that a name with this hash may have.
    pub fn hint_of(&self, bits: u64) -> Option<u32> {
        self.hints.first_of(bits)
    }

    /// Returns the length in bytes of the name with this number, or 0 if there is none.
    pub fn bytes_of(&self, number: u32) -> usize {
        self.names
            .get(number as usize)
            .map_or(0, |name| name.as_bytes().len())
    }

    // Returns the candidate if it is the number of the name.
    fn check_candidate(&self, name: &Text, candidate: Option<u32>) -> Option<u32>
        ensures found { IfSome result (λ number. slice_get self.now number ≡ Some name.now) }
        ensures distinct { AreDistinct self.now }
    {
        let names = self.names.as_slice();
        let hint = candidate?;
        let there = names.get(hint as usize)?;
        if there.as_str() == name.as_str() {
            Some(hint)
        } else {
            None
        }
    }

    fn find(&self, name: &Text) -> Option<u32>
        ensures found { IfSome result (λ number. slice_get self.now number ≡ Some name.now) }
        ensures absent { IfNone result (IsAbsent self.now name.now) }
        ensures distinct { AreDistinct self.now }
    {
        self.numbers.get(name).copied()
    }

    // Adds a new name. Its number is the number of names before it.
    fn add(&mut self, name: &Text, bits: u64) -> Result<u32, AllocError>
        requires { IsAbsent self.old name.now }
        ensures number { IfOk result (λ number. slice_get self.new number ≡ Some name.now) }
        ensures added { OnOk result (self.new ≡ self.old ++ name.now ∷ []) }
        ensures refused { OnErr result (self.new ≡ self.old) }
        ensures distinct { AreDistinct self.new }
    {
        let key = Text::new(self.alloc, name.as_str())?;
        let entry = Text::new(self.alloc, name.as_str())?;
        let number = to_u32(self.names.as_slice().len())?;
        self.names.reserve(1)?;
        let _before = self.numbers.insert(key, number)?;
        self.names.push_reserved(entry);
        self.hints.grow_for(self.names.len());
        self.hints.note(bits, number);
        Ok(number)
    }
}
