//! The regions of the names of a plan.
ghost use Rattle.std.specs.Prelude.{◌≡◌, ◌-◌, ◌^◌, IfOk, filter, length, min};
ghost use Rattle.tables.specs.Plan.{IsPlan};
ghost use Rattle.cutplan.specs.Check.{cells};
ghost use Rattle.plan_zones.specs.Amounts.{is_possible_region};
ghost use Rattle.plan_zones.specs.Zones.{plan_regions, regions_at};

use crate::amounts::{is_amount_name, is_possible_region};
use cutplan::{Partition, Region};
use feel_tests::{Kind, Sequence};
use std::alloc::{AllocError, Global};
use tables::Plan;

/// Returns the regions of all names of the plan.
pub fn plan_regions(alloc: Global, plan: &Plan) -> Result<Sequence<Sequence<Region>>, AllocError>
    ensures regions { IfOk result (λ regions. regions ≡ plan_regions plan.now) }
    ensures sound { IsPlan plan.now }
{
    let mut regions = Sequence::new(alloc);
    for name in 0..plan.names().len() {
        regions.push(regions_at(alloc, plan, name)?)?;
    }
    Ok(regions)
}

// Returns the regions of a name that contain a value that a claim can give it.
fn regions_at(alloc: Global, plan: &Plan, name: usize) -> Result<Sequence<Region>, AllocError>
    ensures { IfOk result (λ regions. regions ≡ regions_at plan.now name) }
{
    if plan.needs(name) {
        let partition = Partition::of_name(alloc, plan, name)?;
        let amount = matches!(partition.kind, Kind::Number) && is_amount_name(plan, name);
        return possible(alloc, amount, partition.regions.as_slice());
    }
    let mut regions = Sequence::new(alloc);
    regions.push(Region::Every)?;
    Ok(regions)
}

fn possible(alloc: Global, amount: bool, all: &[Region]) -> Result<Sequence<Region>, AllocError>
    ensures { IfOk result (λ regions. regions ≡ filter (is_possible_region amount) all.now) }
{
    let mut regions = Sequence::new(alloc);
    for region in all {
        if is_possible_region(amount, region) {
            regions.push(region.duplicate(alloc)?)?;
        }
    }
    Ok(regions)
}

/// Returns the number of zones, or the greatest number of a `usize` if there are more.
pub fn zone_count(regions: &[Sequence<Region>]) -> usize
    ensures { result ≡ min (length (cells regions.now)) (2 ^ 64 - 1) }
{
    let mut count: usize = 1;
    for choices in regions {
        count = count.saturating_mul(choices.len());
    }
    count
}
