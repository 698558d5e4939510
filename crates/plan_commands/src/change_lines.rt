//! The lines of a comparison: parts of changes, and the zones in which the plans differ in them.

ghost use Rattle.std.specs.Prelude.{◌≡◌, ◌↔◌, ◌⊎◌, IfOk, IsTrue, List, OnOk, ℕ};
ghost use Rattle.plan_zones.specs.Boxes.{IsInside};
ghost use Rattle.plan_commands.specs.ChangeLines.{AreLinesOf, DifferIn, HasPart, HavePart, HaveZonesWith};
ghost use Rattle.plan_commands.specs.ZoneSets.{AreIn, HaveAlso, IsOn};

use crate::zone_sets::{ZoneSet, are_same_sides, join_sets, set_with};
use feel_tests::Sequence;
use plan_checks::ZoneBox;
use std::alloc::{AllocError, Global};

/// The zones in which two plans differ in some parts.
pub struct Line {
    /// The indices of the parts, in their order.
    pub parts: Sequence<usize>,
    pub zones: ZoneSet,
}

impl Drop for Line {
    fn drop(self) {
        let Line { parts: _, zones: _ } = self;
    }
}

/// Returns lines for parts of changes, in the order of the parts. The outcome of a box is the index of its change, and `of_change` has the indices of the
/// parts of each change.
#[tactic(auto, using(crate::proofs::Parts::lines_begun))]
pub fn lines_of(
    alloc: Global,
    boxes: &[ZoneBox],
    of_change: &[Sequence<usize>],
    count: usize,
) -> Result<Vec<Line>, AllocError>
    ensures { IfOk result (λ lines. AreLinesOf of_change.now boxes.now count lines.items) }
{
    let mut lines = Vec::new(alloc);
    for part in 0..count {
        add_part(alloc, &mut lines, boxes, of_change, part)?;
    }
    Ok(lines)
}

// Adds the part to lines with its zones.
#[tactic(auto, using(crate::proofs::Parts::part_added))]
fn add_part(
    alloc: Global,
    lines: &mut Vec<Line>,
    boxes: &[ZoneBox],
    of_change: &[Sequence<usize>],
    part: usize,
) -> Result<(), AllocError>
    ensures { OnOk result (HavePart lines.old.items part
        (DifferIn of_change.now boxes.now part) lines.new.items) }
{
    let zones = zones_with(alloc, boxes, of_change, part)?;
    let joined = join_sets(alloc, zones)?;
    add_sets(alloc, lines, part, joined.as_slice())
}

#[tactic(auto, using(crate::proofs::Parts::sets_begun))]
fn add_sets(
    alloc: Global,
    lines: &mut Vec<Line>,
    part: usize,
    sets: &[ZoneSet],
) -> Result<(), AllocError>
    ensures { OnOk result (HavePart lines.old.items part (AreIn sets.now) lines.new.items) }
{
    for set in sets {
        add_line(alloc, lines, part, set)?;
    }
    Ok(())
}

// Adds the part to the line with these zones, or to a line of its own.
#[tactic(auto, using(crate::proofs::Parts::line_added, crate::proofs::Parts::line_extended))]
fn add_line(
    alloc: Global,
    lines: &mut Vec<Line>,
    part: usize,
    set: &ZoneSet,
) -> Result<(), AllocError>
    ensures { OnOk result (HavePart lines.old.items part
        (IsInside set.now.sides) lines.new.items) }
{
    for place in 0..lines.len() {
        if are_same_sides(lines[place].zones.sides.as_slice(), set.sides.as_slice()) {
            return lines[place].parts.push(part);
        }
    }
    let zones = set_with(alloc, set.sides.as_slice())?;
    let mut parts = Sequence::new(alloc);
    parts.push(part)?;
    lines.push(Line { parts, zones })?;
    Ok(())
}

// Returns the zones of the boxes whose change has the part.
fn zones_with(
    alloc: Global,
    boxes: &[ZoneBox],
    of_change: &[Sequence<usize>],
    part: usize,
) -> Result<Vec<ZoneSet>, AllocError>
    ensures { IfOk result (λ sets. HaveZonesWith of_change.now boxes.now part sets.items) }
{
    let mut sets = Vec::new(alloc);
    for own in boxes {
        let is_with = has_part(of_change, own.outcome, part);
        add_box(alloc, &mut sets, own, is_with)?;
    }
    Ok(sets)
}

// Adds the zones of the box if they are wanted.
#[tactic(auto, using(crate::proofs::Parts::box_left_out, crate::proofs::Parts::box_added))]
fn add_box(
    alloc: Global,
    sets: &mut Vec<ZoneSet>,
    own: &ZoneBox,
    is_with: bool,
) -> Result<(), AllocError>
    ensures { OnOk result ((zone : List ℕ) → AreIn sets.new.items zone
        ↔ (AreIn sets.old.items zone ⊎ (IsTrue is_with × IsInside own.now.sides zone))) }
{
    if !is_with {
        return Ok(());
    }
    let set = set_with(alloc, own.sides.as_slice())?;
    sets.push(set)?;
    Ok(())
}

#[tactic(auto, using(crate::proofs::Parts::part_by, crate::proofs::Parts::no_part))]
fn has_part(of_change: &[Sequence<usize>], change: usize, part: usize) -> bool
    ensures { IsTrue result ↔ HasPart of_change.now change part }
{
    match of_change.get(change) {
        Some(parts) => is_on(parts.as_slice(), part),
        None => false,
    }
}

fn is_on(parts: &[usize], part: usize) -> bool
    ensures { IsTrue result ↔ IsOn parts.now part }
{
    match parts.split_first() {
        Some((first, more)) => *first == part || is_on(more, part),
        None => false,
    }
}
