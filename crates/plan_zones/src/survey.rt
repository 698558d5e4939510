//! What is asked of each zone, and the list of the different answers.
ghost use Rattle.std.specs.Prelude.{◌≡◌, ℕ, List, Option, Some, IfOk, IfSome, IsTrue, OnOk, slice_get};
ghost use Rattle.plan_zones.specs.Boxes.{Extends};

use faults::Reason;
use feel_tests::Sequence;
use std::alloc::{AllocError, Global};

/// What a survey may find in a zone.
pub trait Outcome: Drop {
    /// Returns whether the outcomes are equal. Equal outcomes for which this is false are listed twice.
    fn is_same(&self, other: &Self) -> bool
        ensures { IsTrue result → self.now ≡ other.now };
}

impl Outcome for Reason {
    fn is_same(&self, other: &Reason) -> bool {
        *self == *other
    }
}

/// A question that has one answer for all values in a zone.
pub trait Survey<X> {
    /// The zone has this outcome, or there is nothing to list for it.
    ghost has_outcome: { Self → List ℕ → Option X → Type 0 };

    /// Returns the outcome of the zone that has the regions at these indices, if there is anything
    /// to list for it.
    fn outcome(&self, alloc: Global, places: &[usize]) -> Result<Option<X>, AllocError>
        ensures { IfOk result (has_outcome self.now places.now) };
}

/// Returns the index of the outcome in the list, to which it is appended if it is new.
pub fn index_of<X: Outcome>(outcomes: &mut Sequence<X>, outcome: X) -> Result<usize, AllocError>
    ensures at { IfOk result (λ index. slice_get outcomes.new index ≡ Some outcome) }
    ensures kept { OnOk result (Extends outcomes.old outcomes.new) }
{
    if let Some(index) = place_of(outcomes.as_slice(), &outcome) {
        return Ok(index);
    }
    let index = outcomes.len();
    outcomes.push(outcome)?;
    Ok(index)
}

fn place_of<X: Outcome>(outcomes: &[X], outcome: &X) -> Option<usize>
    ensures { IfSome result (λ index. slice_get outcomes.now index ≡ Some outcome.now) }
{
    for (index, known) in outcomes.iter().enumerate() {
        if known.is_same(outcome) {
            return Some(index);
        }
    }
    None
}
