//! The walk over all zones of a plan, name by name.
ghost use Rattle.std.specs.Prelude.{◌≡◌, ◌++◌, ◌∷◌, [], IfOk, OnOk};
ghost use Rattle.plan_zones.specs.Boxes.{AreBoxesOf, Extends};

use crate::survey::{Outcome, Survey, index_of};
use crate::zone_box::{ZoneBox, boxes_of_groups, join};
use cutplan::Region;
use feel_tests::Sequence;
use std::alloc::{AllocError, Global};

/// Returns the boxes of the zones with an outcome that begin with these regions, and lists the
/// outcomes that are new: `first` has the indices of the regions of the first names, and `left` the
/// regions of all other names.
pub fn boxes<X: Outcome, S: Survey<X>>(
    alloc: Global,
    survey: &S,
    outcomes: &mut Sequence<X>,
    first: &[usize],
    left: &[Sequence<Region>],
) -> Result<Sequence<ZoneBox>, AllocError>
    ensures boxes { IfOk result (AreBoxesOf outcomes.new
        (λ rest. S.has_outcome survey.now (first.now ++ rest)) left.now) }
    ensures kept { OnOk result (Extends outcomes.old outcomes.new) }
{
    match left.split_first() {
        Some((choices, more)) => {
            let mut groups = Vec::new(alloc);
            for region in 0..choices.len() {
                let next = append_region(alloc, first, region)?;
                let boxes = boxes(alloc, survey, outcomes, next.as_slice(), more)?;
                join(alloc, &mut groups, region, boxes)?;
            }
            boxes_of_groups(alloc, groups.as_slice())
        }
        None => boxes_of_zone(alloc, survey, outcomes, first),
    }
}

// Returns a box for this zone if it has an outcome.
fn boxes_of_zone<X: Outcome, S: Survey<X>>(
    alloc: Global,
    survey: &S,
    outcomes: &mut Sequence<X>,
    places: &[usize],
) -> Result<Sequence<ZoneBox>, AllocError>
    ensures boxes { IfOk result (AreBoxesOf outcomes.new
        (λ rest. S.has_outcome survey.now (places.now ++ rest)) []) }
    ensures kept { OnOk result (Extends outcomes.old outcomes.new) }
{
    match survey.outcome(alloc, places)? {
        Some(outcome) => {
            let index = index_of(outcomes, outcome)?;
            one_box(alloc, index)
        }
        None => Ok(Sequence::new(alloc)),
    }
}

// Returns a box that has no names left.
fn one_box(alloc: Global, outcome: usize) -> Result<Sequence<ZoneBox>, AllocError>
    ensures { IfOk result (λ boxes. boxes ≡ record { outcome = outcome; sides = [] } ∷ []) }
{
    let mut boxes = Sequence::new(alloc);
    boxes.push(ZoneBox {
        outcome,
        sides: Sequence::new(alloc),
    })?;
    Ok(boxes)
}

pub fn append_region(
    alloc: Global,
    first: &[usize],
    region: usize,
) -> Result<Sequence<usize>, AllocError>
    ensures { IfOk result (λ next. next ≡ first.now ++ region ∷ []) }
{
    let mut next = Sequence::with_capacity(alloc, first.len().saturating_add(1))?;
    for place in first {
        next.push(*place)?;
    }
    next.push(region)?;
    Ok(next)
}
