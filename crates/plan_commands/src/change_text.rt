//! The text of a comparison of two plans.

use crate::change_lines::{Line, lines_of};
use crate::change_parts::{ChangeParts, parts_of};
use crate::zone_lines::{append_count, append_side};
use cutplan::Region;
use feel_tests::Sequence;
use plan_checks::{JointName, PlanChanges, ZoneBox, joint_text, zone_count};
use std::alloc::{AllocError, Global};
use tables::Plan;

/// Returns a line for each set of zones in which the plans differ, and a line with the numbers of zones, of zones in which they differ, and of lines.
pub fn change_text(
    alloc: Global,
    old: &Plan,
    new: &Plan,
    found: &PlanChanges,
) -> Result<Vec<u8>, AllocError> {
    let names = joint_texts(alloc, old, new, found.joint.names.as_slice())?;
    let parts = parts_of(alloc, found.changes.as_slice())?;
    let lines = lines_of(
        alloc,
        found.boxes.as_slice(),
        parts.of_change.as_slice(),
        parts.texts.len(),
    )?;
    let mut text = Vec::new(alloc);
    for line in lines.as_slice() {
        append_line(
            alloc,
            &mut text,
            names.as_slice(),
            found.regions.as_slice(),
            &parts,
            line,
        )?;
    }
    let zones = zone_count(found.regions.as_slice());
    let differing = zones_of(found.boxes.as_slice());
    let changes = lines.len();
    let counts = format!(in alloc; "zones {zones} differ {differing} changes {changes}\n")?;
    text.extend_from_slice(counts.as_bytes())?;
    Ok(text)
}

fn joint_texts<'p>(
    alloc: Global,
    old: &'p Plan,
    new: &'p Plan,
    names: &[JointName],
) -> Result<Vec<&'p str>, AllocError> {
    let mut texts = Vec::new(alloc);
    for name in names {
        texts.push(joint_text(old.names(), new.names(), *name))?;
    }
    Ok(texts)
}

// Returns the number of zones in the boxes.
fn zones_of(boxes: &[ZoneBox]) -> usize {
    let mut count = 0_usize;
    for zones in boxes {
        let mut own = 1_usize;
        for side in zones.sides.as_slice() {
            own = own.saturating_mul(side.len());
        }
        count = count.saturating_add(own);
    }
    count
}

fn append_line(
    alloc: Global,
    text: &mut Vec<u8>,
    names: &[&str],
    regions: &[Sequence<Region>],
    parts: &ChangeParts,
    line: &Line,
) -> Result<(), AllocError> {
    let mut mark = "";
    for part in line.parts.as_slice() {
        text.extend_from_slice(mark.as_bytes())?;
        if let Some(own) = parts.texts.get(*part) {
            text.extend_from_slice(own.as_slice())?;
        }
        mark = ", ";
    }
    text.extend_from_slice(b": ")?;
    append_zones(alloc, text, names, regions, line.zones.sides.as_slice())?;
    text.extend_from_slice(b"\n")
}

// Appends `name = cell` for each name of which not all regions are in the zones.
fn append_zones(
    alloc: Global,
    text: &mut Vec<u8>,
    names: &[&str],
    regions: &[Sequence<Region>],
    sides: &[Sequence<usize>],
) -> Result<(), AllocError> {
    let mut mark = "";
    for (place, name) in names.iter().enumerate() {
        let (Some(all), Some(side)) = (regions.get(place), sides.get(place)) else {
            continue;
        };
        if side.len() < all.len() {
            text.extend_from_slice(mark.as_bytes())?;
            append_side(alloc, text, *name, all.as_slice(), side.as_slice())?;
            mark = "; ";
        }
    }
    if mark.is_empty() {
        text.extend_from_slice(b"any values")?;
    }
    Ok(())
}

/// Returns the line of plans with too many zones: their number, the number of regions of each name that has several, and what to do about it.
pub fn wide_text(
    alloc: Global,
    old: &Plan,
    new: &Plan,
    names: &[JointName],
    regions: &[Sequence<Region>],
    zones: usize,
) -> Result<Vec<u8>, AllocError> {
    let words = format!(in alloc; "wide: {zones} zones (")?;
    let mut text = Vec::from_slice(alloc, words.as_bytes())?;
    let mut mark = "";
    for (place, name) in names.iter().enumerate() {
        let Some(all) = regions.get(place) else {
            continue;
        };
        if all.len() > 1 {
            text.extend_from_slice(mark.as_bytes())?;
            let own = joint_text(old.names(), new.names(), *name);
            text.extend_from_slice(own.as_bytes())?;
            append_count(alloc, &mut text, all.len())?;
            mark = ", ";
        }
    }
    text.extend_from_slice(b"); give some of these names fewer values by --where NAME=CELL\n")?;
    Ok(text)
}
