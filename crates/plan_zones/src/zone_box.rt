//! Boxes of zones with the same outcome, and how they are joined name by name.
ghost use Rattle.std.specs.Prelude.{◌≡◌, ◌++◌, IfOk, IfSome, IsTrue, OnOk, Some, flat_map, map, slice_get};
ghost use Rattle.plan_zones.specs.declared.zone_box.RegionGroup.{RegionGroup};
ghost use Rattle.plan_zones.specs.Boxes.{IsJoined, group_boxes, with_side};

use feel_tests::Sequence;
use std::alloc::{AllocError, Global};

/// Zones with the same outcome: all zones that have, for each name of the plan, one of these regions.
pub struct ZoneBox {
    /// The index of the outcome, from 0, in the list that comes with the boxes.
    pub outcome: usize,
    /// For each name, the indices of its regions, from 0.
    pub sides: Sequence<Sequence<usize>>,
}

impl Drop for ZoneBox {
    fn drop(self) {
        let ZoneBox {
            outcome: _,
            sides: _,
        } = self;
    }
}

/// Regions of a name that have the same boxes of the names after it.
pub struct RegionGroup {
    pub side: Sequence<usize>,
    pub boxes: Sequence<ZoneBox>,
}

impl Drop for RegionGroup {
    fn drop(self) {
        let RegionGroup { side: _, boxes: _ } = self;
    }
}

/// Adds a region with its boxes to the group that has equal boxes, or to a new group.
pub fn join(
    alloc: Global,
    groups: &mut Vec<RegionGroup>,
    region: usize,
    boxes: Sequence<ZoneBox>,
) -> Result<(), AllocError>
    ensures { OnOk result (IsJoined groups.old.items region boxes groups.new.items) }
{
    match group_with(groups.as_slice(), boxes.as_slice()) {
        Some(place) => groups[place].side.push(region),
        None => {
            let mut side = Sequence::new(alloc);
            side.push(region)?;
            groups.push(RegionGroup { side, boxes })?;
            Ok(())
        }
    }
}

// Returns the index of a group that has these boxes.
fn group_with(groups: &[RegionGroup], boxes: &[ZoneBox]) -> Option<usize>
    ensures { IfSome result (λ place. (group : RegionGroup)
        × (slice_get groups.now place ≡ Some group) × (group.boxes ≡ boxes.now)) }
{
    for (place, group) in groups.iter().enumerate() {
        if are_same_boxes(group.boxes.as_slice(), boxes) {
            return Some(place);
        }
    }
    None
}

fn are_same_boxes(one: &[ZoneBox], other: &[ZoneBox]) -> bool
    ensures { IsTrue result → one.now ≡ other.now }
{
    match (one.split_first(), other.split_first()) {
        (Some((first, more)), Some((second, others))) => {
            is_same_box(first, second) && are_same_boxes(more, others)
        }
        (None, None) => true,
        _ => false,
    }
}

fn is_same_box(one: &ZoneBox, other: &ZoneBox) -> bool
    ensures { IsTrue result → one.now ≡ other.now }
{
    one.outcome == other.outcome && are_same_sides(one.sides.as_slice(), other.sides.as_slice())
}

fn are_same_sides(one: &[Sequence<usize>], other: &[Sequence<usize>]) -> bool
    ensures { IsTrue result → one.now ≡ other.now }
{
    match (one.split_first(), other.split_first()) {
        (Some((first, more)), Some((second, others))) => {
            first.as_slice() == second.as_slice() && are_same_sides(more, others)
        }
        (None, None) => true,
        _ => false,
    }
}

/// Returns the boxes of the groups, over their name and the names after it.
pub fn boxes_of_groups(
    alloc: Global,
    groups: &[RegionGroup],
) -> Result<Sequence<ZoneBox>, AllocError>
    ensures { IfOk result (λ boxes. boxes ≡ flat_map group_boxes groups.now) }
{
    let mut found = Sequence::new(alloc);
    for group in groups {
        push_group(alloc, group, &mut found)?;
    }
    Ok(found)
}

fn push_group(
    alloc: Global,
    group: &RegionGroup,
    found: &mut Sequence<ZoneBox>,
) -> Result<(), AllocError>
    ensures { OnOk result (found.new ≡ found.old ++ group_boxes group.now) }
{
    for inner in group.boxes.as_slice() {
        found.push(box_with_side(alloc, group.side.as_slice(), inner)?)?;
    }
    Ok(())
}

fn box_with_side(alloc: Global, side: &[usize], inner: &ZoneBox) -> Result<ZoneBox, AllocError>
    ensures { IfOk result (λ made. made ≡ with_side side.now inner.now) }
{
    let mut sides = Sequence::new(alloc);
    sides.push(copy_of(alloc, side)?)?;
    for other in inner.sides.as_slice() {
        sides.push(copy_of(alloc, other.as_slice())?)?;
    }
    Ok(ZoneBox {
        outcome: inner.outcome,
        sides,
    })
}

fn copy_of(alloc: Global, side: &[usize]) -> Result<Sequence<usize>, AllocError>
    ensures { IfOk result (λ copy. copy ≡ side.now) }
{
    let mut copy = Sequence::with_capacity(alloc, side.len())?;
    for region in side {
        copy.push(*region)?;
    }
    Ok(copy)
}
