//! Sets of the rules of a table, as 256 bits in four words.
ghost use Rattle.std.specs.Prelude.{◌≡◌, ◌<◌, ◌≤◌, ◌==◌, ◌&&◌, ◌||◌, ◌++◌, ℕ, [], false, length, nat_lt, OnOk};
ghost use Rattle.std.specs.Int.{bit_at};
ghost use Rattle.cutplan.specs.Matching.{places_set};
ghost use Rattle.cutplan.specs.Masks.{has_rule, rules_in, HasOnlyFirst, Marks};
ghost use Rattle.cutplan.specs.declared.mask.TheConstants.{MASK_CAPACITY};

use smallvec::SmallVec;
use std::alloc::AllocError;
use std::marker::Model;

/// The number of rules that a mask has bits for. No table has more rules.
pub const MASK_CAPACITY: usize = 256;

/// The number of rules that are listed without an allocation.
pub const INLINE_RULES: usize = 8;

/// A set of rules of a table. Contracts see it as four words of 64 bits. A rule is in the set if
/// its bit is set; `specs/Masks.antt` says which bit that is.
#[derive(Clone, Copy)]
pub struct RuleMask {
    words: [u64; 4],
}

impl Model for RuleMask {
    ghost use Rattle.std.specs.Prelude.{◌≡◌, ℕ, List, length};

    ghost Value = { List ℕ };

    ghost view = { λ m. m.words };

    ghost invariant = { λ m. length m.words ≡ 4 };

    ghost inverse = { λ words. record { words = words } };
}

impl RuleMask {
    /// Returns the words of the mask. Rules are numbered from 1: bit `(rule - 1) % 64` of word
    /// `(rule - 1) / 64` is that of the rule.
    pub fn words(&self) -> &[u64; 4]
        ensures words { result.now ≡ self.now }
        ensures four { length self.now ≡ 4 }
    {
        &self.words
    }

    /// Returns the mask without rules.
    #[tactic(auto, using(crate::proofs::FirstRules::none_marked))]
    pub(crate) fn none() -> RuleMask
        ensures { Marks (λ place. false) result }
    {
        RuleMask { words: [0; 4] }
    }

    /// Returns the mask of the first `count` rules.
    pub(crate) fn first_rules(count: usize) -> RuleMask
        requires { count ≤ MASK_CAPACITY }
        ensures { Marks (λ place. nat_lt place count) result }
    {
        if count <= 64 {
            return RuleMask {
                words: [low_bits(count), 0, 0, 0],
            };
        }
        RuleMask {
            words: [
                low_bits(count),
                low_bits(count.saturating_sub(64)),
                low_bits(count.saturating_sub(128)),
                low_bits(count.saturating_sub(192)),
            ],
        }
    }

    /// Adds the rule at this index if it is wanted.
    pub(crate) fn insert_if(&mut self, place: usize, is_wanted: bool)
        requires { place < MASK_CAPACITY }
        ensures words { length self.new ≡ 4 }
        ensures has { (other : ℕ) → other < 256 → has_rule self.new other
            ≡ (has_rule self.old other || (is_wanted && (other == place))) }
    {
        // proof: the mask has four words
        let _ = &self.words;
        if is_wanted {
            self.insert(place);
        }
    }

    fn insert(&mut self, place: usize)
        requires { place < MASK_CAPACITY }
        ensures words { length self.new ≡ 4 }
        ensures has { (other : ℕ) → other < 256 → has_rule self.new other
            ≡ (has_rule self.old other || (other == place)) }
    {
        self.words[place / 64] |= 1u64 << (place % 64);
    }

    /// Returns the rules that are in both masks.
    pub(crate) fn meet(&self, other: &RuleMask) -> RuleMask
        ensures words { length result ≡ 4 }
        ensures has { (place : ℕ) → place < 256 → has_rule result place
            ≡ (has_rule self.now place && has_rule other.now place) }
    {
        RuleMask {
            words: [
                self.words[0] & other.words[0],
                self.words[1] & other.words[1],
                self.words[2] & other.words[2],
                self.words[3] & other.words[3],
            ],
        }
    }

    /// Returns the rules that are in one of the masks or in both.
    pub(crate) fn join(&self, other: &RuleMask) -> RuleMask
        ensures words { length result ≡ 4 }
        ensures has { (place : ℕ) → place < 256 → has_rule result place
            ≡ (has_rule self.now place || has_rule other.now place) }
    {
        RuleMask {
            words: [
                self.words[0] | other.words[0],
                self.words[1] | other.words[1],
                self.words[2] | other.words[2],
                self.words[3] | other.words[3],
            ],
        }
    }

    /// Returns whether the mask has the rule at this index.
    pub(crate) fn has(&self, place: usize) -> bool
        requires { place < MASK_CAPACITY }
        ensures { result ≡ has_rule self.now place }
    {
        (self.words[place / 64] >> (place % 64)) & 1 == 1
    }

    /// Returns whether the mask is empty. It has only rules among the first `count`.
    pub(crate) fn is_none(&self, count: usize) -> bool
        requires few { count ≤ MASK_CAPACITY }
        requires within { HasOnlyFirst count self.now }
        ensures { result ≡ (length (rules_in count self.now) == 0) }
    {
        (self.words[0] == 0) & (self.words[1] == 0) & (self.words[2] == 0) & (self.words[3] == 0)
    }

    /// Appends the rules of the mask to the empty list `found`, in order. The mask has only rules
    /// among the first `count`.
    pub(crate) fn list_rules(
        &self,
        count: usize,
        found: &mut SmallVec<usize, INLINE_RULES>,
    ) -> Result<(), AllocError>
        requires few { count ≤ MASK_CAPACITY }
        requires within { HasOnlyFirst count self.now }
        requires none { found.old.items ≡ [] }
        ensures { OnOk result (found.new.items ≡ rules_in count self.now) }
    {
        'words: for word in 0..4 {
            push_places(self.words[word], 64 * word, found)?;
        }
        Ok(())
    }
}

// Returns a word with the lowest `count` bits set, or all bits if `count` is at least 64.
#[tactic(auto, using(crate::proofs::FirstRules::all_set, crate::proofs::FirstRules::low_set, crate::proofs::FirstRules::no_bits))]
fn low_bits(count: usize) -> u64
    ensures { (bit : ℕ) → bit < 64 → (bit_at result bit == 1) ≡ nat_lt bit count }
{
    if count >= 64 {
        u64::MAX
    } else if count == 0 {
        0
    } else {
        u64::MAX >> (64 - count)
    }
}

// Appends the indices of the bits that are set in the word. The lowest bit has the index `first`.
fn push_places(
    word: u64,
    first: usize,
    found: &mut SmallVec<usize, INLINE_RULES>,
) -> Result<(), AllocError>
    requires { first < MASK_CAPACITY }
    ensures { OnOk result ((width : ℕ) → width ≡ 64 → found.new.items
        ≡ found.old.items ++ places_set word first width) }
{
    let mut left = word;
    'bits: while left != 0 {
        let bit = left.trailing_zeros();
        left &= !(1u64 << bit);
        found.push(first + bit as usize)?;
    }
    Ok(())
}
