//! The survey of two plans: what each says of the claims in a zone.
ghost use Rattle.std.specs.Prelude.{◌≡◌, IfOk, slice_get};
ghost use Rattle.std.specs.Option.{option_copied};
ghost use Rattle.plan_zones.specs.Boxes.{AreBoxesOf};
ghost use Rattle.plan_zones.specs.Changes.{ChangesIn, determination_by, says_by};
ghost use Rattle.plan_zones.specs.Joint.{by_places};

use cutplan::Region;
use feel_tests::Sequence;
use plan_zones::{
    Benefit, Change, Comparing, JointNames, Survey, Zone, ZoneBox, benefit_in, boxes,
};
use std::alloc::{AllocError, Global};
use tables::{Inputs, Plan};

/// A plan, the places of its names among the joint names, and the regions of its names. `blank` has no
/// value for any name.
#[derive(Clone, Copy)]
struct PlacedPlan<'p> {
    plan: &'p Plan,
    places: &'p [usize],
    regions: &'p [Sequence<Region>],
    blank: &'p Inputs,
}

impl<'p> PlacedPlan<'p> {
    // Returns what the plan says of the claims in a zone of the joint names.
    fn benefit(
        &self,
        alloc: Global,
        terms_only: bool,
        zone: &[usize],
    ) -> Result<Benefit, AllocError>
        ensures { IfOk result (λ found. determination_by found ≡ says_by terms_only
            self.now.plan.now self.now.places.now self.now.regions.now zone.now) }
    {
        let own = items_at(alloc, self.places, zone)?;
        let zone = Zone {
            regions: self.regions,
            places: own.as_slice(),
            blank: self.blank,
        };
        benefit_in(alloc, self.plan, &zone, terms_only)
    }
}

/// The question how the plans differ in a zone.
#[derive(Clone, Copy)]
struct ChangeSurvey<'p> {
    old: PlacedPlan<'p>,
    new: PlacedPlan<'p>,
    terms_only: bool,
}

impl<'p> Survey<Change> for ChangeSurvey<'p> {
    ghost use Rattle.plan_zones.specs.Changes.{HasChange, says_by};

    ghost has_outcome = { λ s zone outcome. HasChange
        (says_by s.terms_only s.old.plan.now s.old.places.now s.old.regions.now zone)
        (says_by s.terms_only s.new.plan.now s.new.places.now s.new.regions.now zone) outcome };

    #[tactic(auto, using(crate::proofs::Benefits::unchanged, crate::proofs::Benefits::changed))]
    fn outcome(&self, alloc: Global, zone: &[usize]) -> Result<Option<Change>, AllocError> {
        let old = self.old.benefit(alloc, self.terms_only, zone)?;
        let new = self.new.benefit(alloc, self.terms_only, zone)?;
        if old.is_same(&new) {
            return Ok(None);
        }
        Ok(Some(old.change_to(alloc, new)))
    }
}

/// Returns the boxes of the zones in which the plans differ, and lists the differences.
pub fn boxes_of_changes(
    alloc: Global,
    old: &Plan,
    new: &Plan,
    comparing: &Comparing<'_>,
    joint: &JointNames,
    regions: &[Sequence<Region>],
    changes: &mut Sequence<Change>,
) -> Result<Sequence<ZoneBox>, AllocError>
    ensures { IfOk result (AreBoxesOf changes.new
        (ChangesIn comparing.now.terms_only old.now new.now joint.now regions.now) regions.now) }
{
    let old_places = joint.old.as_slice();
    let new_places = joint.new.as_slice();
    let old_regions = regions_at(alloc, old_places, regions)?;
    let new_regions = regions_at(alloc, new_places, regions)?;
    let old_blank = Inputs::new(alloc, old)?;
    let new_blank = Inputs::new(alloc, new)?;
    let old_choices = old_regions.as_slice();
    let new_choices = new_regions.as_slice();
    let survey = ChangeSurvey {
        old: PlacedPlan {
            plan: old,
            places: old_places,
            regions: old_choices,
            blank: &old_blank,
        },
        new: PlacedPlan {
            plan: new,
            places: new_places,
            regions: new_choices,
            blank: &new_blank,
        },
        terms_only: comparing.terms_only,
    };
    boxes(alloc, &survey, changes, &[], regions)
}

// Returns the items at these places.
fn items_at(alloc: Global, places: &[usize], items: &[usize]) -> Result<Sequence<usize>, AllocError>
    ensures { IfOk result (λ found. found ≡ by_places places.now items.now) }
{
    let mut found = Sequence::with_capacity(alloc, places.len())?;
    for place in places {
        if let Some(item) = item_at(items, *place) {
            found.push(item)?;
        }
    }
    Ok(found)
}

fn item_at(items: &[usize], place: usize) -> Option<usize>
    ensures { result ≡ slice_get items.now place }
{
    items.get(place).copied()
}

// Returns copies of the regions of the names at these places.
fn regions_at(
    alloc: Global,
    places: &[usize],
    regions: &[Sequence<Region>],
) -> Result<Sequence<Sequence<Region>>, AllocError>
    ensures { IfOk result (λ found. found ≡ by_places places.now regions.now) }
{
    let mut found = Sequence::with_capacity(alloc, places.len())?;
    for place in places {
        if let Some(choices) = choices_at(regions, *place) {
            found.push(copies_of(alloc, choices.as_slice())?)?;
        }
    }
    Ok(found)
}

fn choices_at(regions: &[Sequence<Region>], place: usize) -> Option<&Sequence<Region>>
    ensures { option_copied result ≡ slice_get regions.now place }
{
    regions.get(place)
}

fn copies_of(alloc: Global, choices: &[Region]) -> Result<Sequence<Region>, AllocError>
    ensures { IfOk result (λ copies. copies ≡ choices.now) }
{
    let mut copies = Sequence::with_capacity(alloc, choices.len())?;
    for region in choices {
        copies.push(region.duplicate(alloc)?)?;
    }
    Ok(copies)
}
