//! The cache of determinations by input class. A claim whose class is in the cache needs no
//! evaluation of the tables.
ghost use Rattle.std.specs.Prelude.{◌≡◌, ◌⊎◌, ℕ, IfOk, IfSome};
ghost use Rattle.settlement.specs.declared.determination.Determination.{Determination};
ghost use Rattle.settlement.specs.Determinations.{IsCached};

use crate::determination::Determination;
use std::alloc::{AllocError, Global};
use std::marker::Model;

/// The number of slots of the cache.
const SLOTS: usize = 1024;

/// The number of misses in a row after which the cache is disabled.
const MISS_BUDGET: u32 = 1024;

/// The number of misses that a hit makes up for: a hit saves several times the cost of a lookup.
const HIT_CREDIT: u32 = 4;

/// The determination of the claims of one input class.
pub struct CacheEntry {
    pub input_class: u64,
    pub determination: Determination,
}

impl Drop for CacheEntry {
    #[inline]
    fn drop(self) {
        let CacheEntry {
            input_class: _,
            determination: _,
        } = self;
    }
}

/// A direct-mapped cache: each input class has one slot, which it shares with other classes, and
/// the class that was stored last replaces the others. Contracts see its slots.
pub struct DeterminationCache {
    slots: Vec<Option<CacheEntry>>,
    /// The number of misses until the cache is disabled. If a plan has very many input classes,
    /// hardly any of them comes twice, and lookups do not pay.
    miss_budget: u32,
}

impl Drop for DeterminationCache {
    fn drop(self) {
        let DeterminationCache {
            slots: _,
            miss_budget: _,
        } = self;
    }
}

impl Model for DeterminationCache {
    ghost use Rattle.std.specs.Prelude.{List, Option};
    ghost use Rattle.settlement.specs.declared.determination_cache.CacheEntry.{CacheEntry};

    ghost Value = { List (Option CacheEntry) };

    ghost view = { λ m. m.slots.items };
}

impl DeterminationCache {
    /// Returns an empty cache.
    pub fn new(alloc: Global) -> Result<DeterminationCache, AllocError>
        ensures { IfOk result (λ cache.
            (input_class : ℕ) (determination : Determination)
            → IsCached cache input_class determination → ⊥) }
    {
        let mut slots = Vec::with_capacity(alloc, SLOTS)?;
        for _ in 0..SLOTS {
            slots.push(None)?;
        }
        Ok(DeterminationCache {
            slots,
            miss_budget: MISS_BUDGET,
        })
    }

    /// Returns whether the cache is enabled.
    pub fn is_of_use(&self) -> bool {
        self.miss_budget > 0
    }

    /// Records a hit.
    pub fn record_hit(&mut self)
        ensures { self.new ≡ self.old }
    {
        self.miss_budget = self.miss_budget.saturating_add(HIT_CREDIT).min(MISS_BUDGET);
    }

    /// Records a miss: the input class is unknown or not in the cache.
    pub fn record_miss(&mut self)
        ensures { self.new ≡ self.old }
    {
        self.miss_budget = self.miss_budget.saturating_sub(1);
    }

    /// Disables the cache.
    pub fn disable(&mut self)
        ensures { self.new ≡ self.old }
    {
        self.miss_budget = 0;
    }

    /// Returns the determination of the input class, if it is in the cache.
    pub fn get(&self, input_class: u64) -> Option<&Determination>
        ensures { IfSome result (λ determination. IsCached self.now input_class determination.now) }
    {
        match self.slots.as_slice().get(slot_of_class(input_class)) {
            Some(Some(entry)) if entry.input_class == input_class => Some(&entry.determination),
            _ => None,
        }
    }

    /// Stores the determination of the input class in its slot and records a miss.
    pub fn keep(&mut self, input_class: u64, determination: Determination)
        ensures { (other : ℕ) (found : Determination) → IsCached self.new other found
            → IsCached self.old other found ⊎ ((other ≡ input_class) × (found ≡ determination)) }
    {
        self.miss_budget = self.miss_budget.saturating_sub(1);
        let room = slot_of_class(input_class);
        if room < self.slots.len() {
            self.slots[room] = Some(CacheEntry {
                input_class,
                determination,
            });
        }
    }
}

fn slot_of_class(input_class: u64) -> usize {
    (input_class % SLOTS as u64) as usize
}
