//! The names of two plans, joined: a name of the old plan and a name of the new plan with the same
//! text are one name.
ghost use Rattle.std.specs.Prelude.{◌≡◌, ◌++◌, IfErr, IfOk, OnOk, filter, length, map};
ghost use Rattle.std.specs.List.{range_with_len};
ghost use Rattle.plan_zones.specs.Joint.{ArePlaced, is_at, is_old_alone, joint_names, name_of_new, name_of_old, place_named, place_of_new, place_of_old, place_renamed, text_in_new, text_at};
ghost use Rattle.plan_zones.specs.Changes.{IsMerged};

use crate::compare_fault::CompareFault;
use feel_tests::Sequence;
use std::alloc::{AllocError, Global};
use tables::InputData;

/// A name of the zones of two plans: its index among the names of each plan that has it.
#[derive(Clone, Copy)]
pub struct JointName {
    pub old: Option<usize>,
    pub new: Option<usize>,
}

/// A name of the old plan that has another text in the new plan.
#[derive(Clone, Copy)]
pub struct Rename<'a> {
    pub old: &'a str,
    pub new: &'a str,
}

/// The joint names of two plans: those of the new plan in order, and then those that only the old plan
/// has. `old` has the place among them of each name of the old plan, and `new` that of each name of the
/// new plan.
pub struct JointNames {
    pub names: Sequence<JointName>,
    pub old: Sequence<usize>,
    pub new: Sequence<usize>,
}

impl Drop for JointNames {
    fn drop(self) {
        let JointNames {
            names: _,
            old: _,
            new: _,
        } = self;
    }
}

/// Joins the names of two plans. Fails with `Merged` if two names of the old plan would be one name of
/// the new plan.
pub fn joint_names(
    alloc: Global,
    old: &[InputData],
    new: &[InputData],
    renames: &[Rename<'_>],
) -> Result<JointNames, CompareFault>
    ensures names { IfOk result (λ joint. joint.names
        ≡ joint_names old.now new.now renames.now) }
    ensures old { IfOk result (λ joint.
        ArePlaced (place_of_old joint.names) (length old.now) joint.old) }
    ensures new { IfOk result (λ joint.
        ArePlaced (place_of_new joint.names) (length new.now) joint.new) }
    ensures merged { IfErr result (IsMerged (joint_names old.now new.now renames.now)) }
{
    let mut names = names_of_new(alloc, old, new, renames)?;
    add_names_of_old(alloc, old, new, renames, &mut names)?;
    let old_places = places_of_old(alloc, names.as_slice(), old.len())?;
    let new_places = places_of_new(alloc, names.as_slice(), new.len())?;
    Ok(JointNames {
        names,
        old: old_places,
        new: new_places,
    })
}

// Returns the joint names of the names of the new plan.
fn names_of_new(
    alloc: Global,
    old: &[InputData],
    new: &[InputData],
    renames: &[Rename<'_>],
) -> Result<Sequence<JointName>, AllocError>
    ensures { IfOk result (λ names. names
        ≡ map (name_of_new old.now new.now renames.now) (range_with_len 0 (length new.now))) }
{
    let mut names = Sequence::with_capacity(alloc, new.len())?;
    for place in 0..new.len() {
        names.push(JointName {
            old: place_renamed(old, renames, text_at(new, place)),
            new: Some(place),
        })?;
    }
    Ok(names)
}

// Appends the joint names of the names that only the old plan has.
fn add_names_of_old(
    alloc: Global,
    old: &[InputData],
    new: &[InputData],
    renames: &[Rename<'_>],
    names: &mut Sequence<JointName>,
) -> Result<(), AllocError>
    ensures { OnOk result (names.new ≡ names.old
        ++ map name_of_old (filter (is_old_alone old.now new.now renames.now)
        (range_with_len 0 (length old.now)))) }
{
    let alone = old_alone(alloc, old, new, renames)?;
    for place in alone.as_slice() {
        names.push(JointName {
            old: Some(*place),
            new: None,
        })?;
    }
    Ok(())
}

fn old_alone(
    alloc: Global,
    old: &[InputData],
    new: &[InputData],
    renames: &[Rename<'_>],
) -> Result<Sequence<usize>, AllocError>
    ensures { IfOk result (λ places. places
        ≡ filter (is_old_alone old.now new.now renames.now) (range_with_len 0 (length old.now))) }
{
    let mut places = Sequence::new(alloc);
    for place in 0..old.len() {
        if is_old_alone(old, new, renames, place) {
            places.push(place)?;
        }
    }
    Ok(places)
}

fn is_old_alone(old: &[InputData], new: &[InputData], renames: &[Rename<'_>], place: usize) -> bool
    ensures { result ≡ is_old_alone old.now new.now renames.now place }
{
    place_named(new, text_in_new(renames, text_at(old, place))).is_none()
}

/// Returns the text of the name at the index, or an empty text if there is none.
pub fn text_at(names: &[InputData], place: usize) -> &str
    ensures { result.now ≡ text_at names.now place }
{
    match names.get(place) {
        Some(data) => data.name.as_str(),
        None => "",
    }
}

/// Returns the index of the name with this text.
pub fn place_named(names: &[InputData], text: &str) -> Option<usize>
    ensures { result ≡ place_named names.now text.now }
{
    names.iter().position(|data| data.name.as_str() == text)
}

// Returns the index of the first name of the old plan that has this text in the new plan.
fn place_renamed(names: &[InputData], renames: &[Rename<'_>], text: &str) -> Option<usize>
    ensures { result ≡ place_renamed names.now renames.now text.now }
{
    names
        .iter()
        .position(|data| text_in_new(renames, data.name.as_str()) == text)
}

// Returns the text in the new plan of a name of the old plan.
fn text_in_new<'a>(renames: &'a [Rename<'_>], text: &'a str) -> &'a str
    ensures { result.now ≡ text_in_new renames.now text.now }
{
    match renames.split_first() {
        Some((rename, more)) => {
            if rename.old == text {
                rename.new
            } else {
                text_in_new(more, text)
            }
        }
        None => text,
    }
}

#[tactic(auto, using(crate::proofs::JointLists::placed_more))]
fn places_of_old(
    alloc: Global,
    names: &[JointName],
    count: usize,
) -> Result<Sequence<usize>, CompareFault>
    ensures placed { IfOk result (ArePlaced (place_of_old names.now) count) }
    ensures merged { IfErr result (IsMerged names.now) }
{
    let mut places = Sequence::with_capacity(alloc, count)?;
    for own in 0..count {
        let Some(place) = place_of_old(names, own) else {
            return Err(CompareFault::Merged(own));
        };
        places.push(place)?;
    }
    Ok(places)
}

#[tactic(auto, using(crate::proofs::JointLists::placed_more))]
fn places_of_new(
    alloc: Global,
    names: &[JointName],
    count: usize,
) -> Result<Sequence<usize>, AllocError>
    ensures { IfOk result (ArePlaced (place_of_new names.now) count) }
{
    let mut places = Sequence::with_capacity(alloc, count)?;
    for own in 0..count {
        let Some(place) = place_of_new(names, own) else {
            return Err(AllocError);
        };
        places.push(place)?;
    }
    Ok(places)
}

fn place_of_old(names: &[JointName], own: usize) -> Option<usize>
    ensures { result ≡ place_of_old names.now own }
{
    names.iter().position(|name| is_at(name.old, own))
}

fn place_of_new(names: &[JointName], own: usize) -> Option<usize>
    ensures { result ≡ place_of_new names.now own }
{
    names.iter().position(|name| is_at(name.new, own))
}

fn is_at(found: Option<usize>, own: usize) -> bool
    ensures { result ≡ is_at found own }
{
    match found {
        Some(place) => place == own,
        None => false,
    }
}
