//! The regions of the joint names of two plans: the literals of both plans cut the values of a name.
ghost use Rattle.std.specs.Prelude.{◌≡◌, ◌&&◌, [], IfOk, OnOk, false, filter, flat_map, fold};
ghost use Rattle.std.specs.Option.{option_map_or};
ghost use Rattle.tables.specs.Inputs.{needs};
ghost use Rattle.cutplan.specs.CheckSteps.{with_literal};
ghost use Rattle.cutplan.specs.InputClasses.{name_kind, name_literals};
ghost use Rattle.plan_zones.specs.Amounts.{is_amount_name, is_possible_region};
ghost use Rattle.plan_zones.specs.Joint.{is_joint_amount, is_joint_read, is_narrowed, is_needed, joint_kind, joint_regions, joint_text, literals_by, meets_in, narrowing_literals, regions_of, regions_of_kind, regions_read, two_plans};

use crate::amounts::{is_amount_name, is_possible_region};
use crate::joint::{JointName, text_at};
use cutplan::{Region, add_cell, add_tables, holds_in, regions_between, sort_cuts};
use feel_tests::{Cell, Kind, Sequence, Value};
use std::alloc::{AllocError, Global};
use tables::{InputData, Plan};

/// A cell that the values of a name have to meet.
pub struct Narrowing<'a> {
    /// The text of a joint name.
    pub name: &'a str,
    pub cell: Cell,
}

impl<'a> Drop for Narrowing<'a> {
    fn drop(self) {
        let Narrowing { name: _, cell: _ } = self;
    }
}

/// Returns the text of a joint name: the one in the new plan, if it has the name.
pub fn joint_text<'p>(old: &'p [InputData], new: &'p [InputData], name: JointName) -> &'p str
    ensures { result.now ≡ joint_text old.now new.now name }
{
    match name.new {
        Some(place) => text_at(new, place),
        None => match name.old {
            Some(place) => text_at(old, place),
            None => "",
        },
    }
}

/// Returns the kind of the values of a joint name: the one in the new plan, if it has the name.
pub fn joint_kind(old: &Plan, new: &Plan, name: JointName) -> Kind
    ensures { result ≡ joint_kind old.now new.now name }
{
    match name.new {
        Some(place) => kind_at(new, place),
        None => match name.old {
            Some(place) => kind_at(old, place),
            None => Kind::Number,
        },
    }
}

/// Returns the kind of the values of the name at the index, and `Kind::Number` if there is none.
pub fn kind_at(plan: &Plan, place: usize) -> Kind
    ensures { result ≡ name_kind plan.now place }
{
    match plan.names().get(place) {
        Some(data) => data.kind,
        None => Kind::Number,
    }
}

/// Returns the regions of all joint names.
pub fn regions_of_names(
    alloc: Global,
    old: &Plan,
    new: &Plan,
    names: &[JointName],
    narrowed: &[Narrowing<'_>],
) -> Result<Sequence<Sequence<Region>>, AllocError>
    ensures { IfOk result (λ regions. regions
        ≡ joint_regions (two_plans old.now new.now narrowed.now) names.now) }
{
    let mut regions = Sequence::new(alloc);
    for name in names {
        regions.push(regions_of(alloc, old, new, *name, narrowed)?)?;
    }
    Ok(regions)
}

// Returns the regions of a name; all values of a name that is not read are one region.
#[tactic(auto, using(crate::proofs::JointLists::read_regions, crate::proofs::JointLists::unread_regions))]
fn regions_of(
    alloc: Global,
    old: &Plan,
    new: &Plan,
    name: JointName,
    narrowed: &[Narrowing<'_>],
) -> Result<Sequence<Region>, AllocError>
    ensures { IfOk result (λ regions. regions
        ≡ regions_of (two_plans old.now new.now narrowed.now) name) }
{
    if is_joint_read(old, new, name, narrowed) {
        return regions_read(alloc, old, new, name, narrowed);
    }
    let mut regions = Sequence::new(alloc);
    regions.push(Region::Every)?;
    Ok(regions)
}

fn is_joint_read(old: &Plan, new: &Plan, name: JointName, narrowed: &[Narrowing<'_>]) -> bool
    ensures { result ≡ is_joint_read (two_plans old.now new.now narrowed.now) name }
{
    let text = joint_text(old.names(), new.names(), name);
    is_needed(old, new, name) || is_narrowed(narrowed, text)
}

// Returns the regions of a name that contain a value that a claim can give it and that meets the cells.
fn regions_read(
    alloc: Global,
    old: &Plan,
    new: &Plan,
    name: JointName,
    narrowed: &[Narrowing<'_>],
) -> Result<Sequence<Region>, AllocError>
    ensures { IfOk result (λ regions. regions
        ≡ regions_read (two_plans old.now new.now narrowed.now) name) }
{
    let old_names = old.names();
    let new_names = new.names();
    let text = joint_text(old_names, new_names, name);
    let kind = joint_kind(old, new, name);
    let amount = is_joint_amount(old, new, name);
    let all = all_regions(alloc, kind, old, new, name, narrowed, text)?;
    possible_regions(alloc, amount, narrowed, text, all.as_slice())
}

fn is_needed(old: &Plan, new: &Plan, name: JointName) -> bool
    ensures { result ≡ is_needed old.now new.now name }
{
    needs(old, name.old) || needs(new, name.new)
}

fn needs(plan: &Plan, place: Option<usize>) -> bool
    ensures { result ≡ option_map_or (needs plan.now.tables) place false }
{
    match place {
        Some(place) => plan.needs(place),
        None => false,
    }
}

fn is_joint_amount(old: &Plan, new: &Plan, name: JointName) -> bool
    ensures { result ≡ is_joint_amount old.now new.now name }
{
    matches!(joint_kind(old, new, name), Kind::Number)
        && (is_amount(old, name.old) || is_amount(new, name.new))
}

fn is_amount(plan: &Plan, place: Option<usize>) -> bool
    ensures { result ≡ option_map_or (is_amount_name plan.now) place false }
{
    match place {
        Some(place) => is_amount_name(plan, place),
        None => false,
    }
}

// Returns all regions of a name, including regions that contain no value.
fn all_regions(
    alloc: Global,
    kind: Kind,
    old: &Plan,
    new: &Plan,
    name: JointName,
    narrowed: &[Narrowing<'_>],
    text: &str,
) -> Result<Vec<Region>, AllocError>
    ensures { IfOk result (λ regions. regions.items ≡ regions_of_kind kind
        (literals_by (two_plans old.now new.now narrowed.now) text.now name)) }
{
    let mut literals = Vec::new(alloc);
    add_plan(alloc, kind, old, name.old, &mut literals)?;
    add_plan(alloc, kind, new, name.new, &mut literals)?;
    add_cells(alloc, kind, narrowed, text, &mut literals)?;
    let cuts = sort_cuts(alloc, kind, literals)?;
    regions_between(alloc, kind, cuts)
}

fn is_narrowed(narrowed: &[Narrowing<'_>], text: &str) -> bool
    ensures { result ≡ is_narrowed narrowed.now text.now }
{
    narrowed.iter().any(|narrowing| narrowing.name == text)
}

// Appends the literals of the kind in all columns of the plan that read its name at the index.
fn add_plan(
    alloc: Global,
    kind: Kind,
    plan: &Plan,
    place: Option<usize>,
    found: &mut Vec<Value>,
) -> Result<(), AllocError>
    ensures { OnOk result (found.new.items ≡ fold (with_literal kind) found.old.items
        (option_map_or (name_literals plan.now.tables) place [])) }
{
    match place {
        Some(place) => add_tables(alloc, kind, plan.tables(), place, found),
        None => Ok(()),
    }
}

// Appends the literals of the kind in the cells that narrow the name with this text.
fn add_cells(
    alloc: Global,
    kind: Kind,
    narrowed: &[Narrowing<'_>],
    text: &str,
    found: &mut Vec<Value>,
) -> Result<(), AllocError>
    ensures { OnOk result (found.new.items ≡ fold (with_literal kind) found.old.items
        (flat_map (narrowing_literals text.now) narrowed.now)) }
{
    for narrowing in narrowed {
        add_narrowing(alloc, kind, narrowing, text, found)?;
    }
    Ok(())
}

fn add_narrowing(
    alloc: Global,
    kind: Kind,
    narrowing: &Narrowing<'_>,
    text: &str,
    found: &mut Vec<Value>,
) -> Result<(), AllocError>
    ensures { OnOk result (found.new.items ≡ fold (with_literal kind) found.old.items
        (narrowing_literals text.now narrowing.now)) }
{
    if narrowing.name == text {
        return add_cell(alloc, kind, &narrowing.cell, found);
    }
    Ok(())
}

fn possible_regions(
    alloc: Global,
    amount: bool,
    narrowed: &[Narrowing<'_>],
    text: &str,
    all: &[Region],
) -> Result<Sequence<Region>, AllocError>
    ensures { IfOk result (λ regions. regions
        ≡ filter (λ r. is_possible_region amount r && meets_in narrowed.now text.now r) all.now) }
{
    let mut regions = Sequence::new(alloc);
    for region in all {
        if is_listed(amount, narrowed, text, region) {
            regions.push(region.duplicate(alloc)?)?;
        }
    }
    Ok(regions)
}

fn is_listed(amount: bool, narrowed: &[Narrowing<'_>], text: &str, region: &Region) -> bool
    ensures { result ≡ is_possible_region amount region.now
        && meets_in narrowed.now text.now region.now }
{
    is_possible_region(amount, region) && meets_in(narrowed, text, region)
}

// Returns whether the cells that narrow the name hold in the region.
fn meets_in(narrowed: &[Narrowing<'_>], text: &str, region: &Region) -> bool
    ensures { result ≡ meets_in narrowed.now text.now region.now }
{
    narrowed.iter().all(|narrowing| narrowing.name != text || holds_in(&narrowing.cell, region))
}
