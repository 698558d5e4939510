//! The lines of a check of a whole plan: boxes of zones, as cells of the names that are given to the plan.

use crate::dead_lines::append_dead;
use crate::zone_cells::append_cell;
use cutplan::Region;
use feel_tests::Sequence;
use plan_checks::{DeadParts, PendingZones, ZoneBox, zone_count};
use settlement::Reason;
use std::alloc::{AllocError, Global};
use tables::{InputData, Plan};

/// Returns a line for each box of zones in which claims pend, for each rule and each test that is of no use, and a line with the numbers of zones, of boxes,
/// and of rules and tests. A plan without roles settles no claims: there the zones are those in which the tables have a fault.
pub fn report_lines(
    alloc: Global,
    plan: &Plan,
    found: &PendingZones,
    dead: &DeadParts,
) -> Result<Vec<u8>, AllocError> {
    let mut text = Vec::new(alloc);
    for zones in found.boxes.as_slice() {
        append_failing(alloc, &mut text, plan, found, zones)?;
    }
    append_dead(alloc, &mut text, plan.tables(), dead)?;
    let zones = zone_count(found.regions.as_slice());
    let boxes = found.boxes.len();
    let unused = dead.rules.len().saturating_add(dead.tests.len());
    let word = if has_roles(plan) { "pends" } else { "faults" };
    let counts = format!(in alloc; "zones {zones} {word} {boxes} dead {unused}\n")?;
    text.extend_from_slice(counts.as_bytes())?;
    Ok(text)
}

fn has_roles(plan: &Plan) -> bool {
    plan.roles().is_some()
}

/// Appends the line `pends REASON: ` with the values of the box, or `fault REASON: ` for a plan without roles.
fn append_failing(
    alloc: Global,
    text: &mut Vec<u8>,
    plan: &Plan,
    found: &PendingZones,
    zones: &ZoneBox,
) -> Result<(), AllocError> {
    let word: &str = if has_roles(plan) { "pends " } else { "fault " };
    text.extend_from_slice(word.as_bytes())?;
    if let Some(reason) = found.reasons.as_slice().get(zones.outcome) {
        append_reason(alloc, text, *reason)?;
    }
    text.extend_from_slice(b": ")?;
    append_box(
        alloc,
        text,
        plan.names(),
        found.regions.as_slice(),
        zones.sides.as_slice(),
    )?;
    text.extend_from_slice(b"\n")
}

/// Appends a reason as the remittance has it, such as `norule:4`.
pub fn append_reason(alloc: Global, text: &mut Vec<u8>, reason: Reason) -> Result<(), AllocError> {
    let word = reason.word();
    let place = reason.place();
    let words = match reason.column() {
        Some(column) => format!(in alloc; "{word}:{place}:{column}")?,
        None => format!(in alloc; "{word}:{place}")?,
    };
    text.extend_from_slice(words.as_bytes())
}

/// Appends the values of a box: `name = cell` for each name of which not all regions are in the box.
pub fn append_box(
    alloc: Global,
    text: &mut Vec<u8>,
    names: &[InputData],
    regions: &[Sequence<Region>],
    sides: &[Sequence<usize>],
) -> Result<(), AllocError> {
    let mut mark = "";
    for (place, data) in names.iter().enumerate() {
        let (Some(all), Some(side)) = (regions.get(place), sides.get(place)) else {
            continue;
        };
        if side.len() < all.len() {
            text.extend_from_slice(mark.as_bytes())?;
            append_side(
                alloc,
                text,
                data.name.as_str(),
                all.as_slice(),
                side.as_slice(),
            )?;
            mark = "; ";
        }
    }
    if mark.is_empty() {
        text.extend_from_slice(b"any values")?;
    }
    Ok(())
}

/// Appends `name = cell` for some of the regions of a name.
pub fn append_side(
    alloc: Global,
    text: &mut Vec<u8>,
    name: &str,
    all: &[Region],
    side: &[usize],
) -> Result<(), AllocError> {
    text.extend_from_slice(name.as_bytes())?;
    text.extend_from_slice(b" = ")?;
    append_cell(alloc, text, all, side)
}

/// Returns the line of a plan with too many zones: their number, and the number of regions of each name that has several.
pub fn wide_line(
    alloc: Global,
    names: &[InputData],
    regions: &[Sequence<Region>],
    zones: usize,
) -> Result<Vec<u8>, AllocError> {
    let words = format!(in alloc; "wide: {zones} zones (")?;
    let mut text = Vec::from_slice(alloc, words.as_bytes())?;
    let mut mark = "";
    for (place, data) in names.iter().enumerate() {
        let Some(all) = regions.get(place) else {
            continue;
        };
        if all.len() > 1 {
            text.extend_from_slice(mark.as_bytes())?;
            text.extend_from_slice(data.name.as_str().as_bytes())?;
            append_count(alloc, &mut text, all.len())?;
            mark = ", ";
        }
    }
    text.extend_from_slice(b")\n")?;
    Ok(text)
}

/// Appends a space and a number.
pub fn append_count(alloc: Global, text: &mut Vec<u8>, count: usize) -> Result<(), AllocError> {
    let words = format!(in alloc; " {count}")?;
    text.extend_from_slice(words.as_bytes())
}
