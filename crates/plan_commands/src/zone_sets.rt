//! Sets of zones, and how sets that differ in the regions of one name are joined.

ghost use Rattle.std.specs.Prelude.{◌≡◌, ◌≤◌, ◌∷◌, length, IfOk, IfSome, IsTrue, OnOk};
ghost use Rattle.plan_commands.specs.ZoneSets.{HasBoth, HaveAlso, HaveSameZones, IsUnion};

use feel_tests::Sequence;
use std::alloc::{AllocError, Global};

/// The number of sets up to which each one is compared with the others. More of them stay as they are, since nobody reads as many lines.
const JOIN_LIMIT: usize = 2_048;

/// The number of times that the sets are gone through. Each time may make sets that can be joined the next time.
const ROUND_LIMIT: usize = 8;

/// The zones that have, for each name, one of these regions.
pub struct ZoneSet {
    /// For each name, the indices of its regions, from 0, in their order.
    pub sides: Sequence<Sequence<usize>>,
}

impl Drop for ZoneSet {
    fn drop(self) {
        let ZoneSet { sides: _ } = self;
    }
}

/// Joins sets that are equal but for the regions of one name, as long as there are any.
#[tactic(auto, using(crate::proofs::Unions::same_itself, crate::proofs::Unions::same_twice))]
pub fn join_sets(alloc: Global, sets: Vec<ZoneSet>) -> Result<Vec<ZoneSet>, AllocError>
    ensures { IfOk result (λ joined. HaveSameZones sets.items joined.items) }
{
    let mut joined = sets;
    for _ in 0..ROUND_LIMIT {
        let before = joined.len();
        joined = join_once(alloc, joined.as_slice())?;
        if joined.len() == before {
            return Ok(joined);
        }
    }
    Ok(joined)
}

fn join_once(alloc: Global, sets: &[ZoneSet]) -> Result<Vec<ZoneSet>, AllocError>
    ensures { IfOk result (λ joined. HaveSameZones sets.now joined.items) }
{
    let mut joined = Vec::new(alloc);
    for set in sets {
        add_set(alloc, &mut joined, set)?;
    }
    Ok(joined)
}

// Joins the set with one of the sets, or adds it to them.
fn add_set(alloc: Global, sets: &mut Vec<ZoneSet>, set: &ZoneSet) -> Result<(), AllocError>
    ensures { OnOk result (HaveAlso sets.old.items set.now sets.new.items) }
{
    if sets.len() > JOIN_LIMIT {
        return push_set(alloc, sets, set);
    }
    for place in 0..sets.len() {
        if let Some(sides) = both_of(alloc, sets[place].sides.as_slice(), set.sides.as_slice())? {
            sets[place] = ZoneSet { sides };
            return Ok(());
        }
    }
    push_set(alloc, sets, set)
}

fn push_set(alloc: Global, sets: &mut Vec<ZoneSet>, set: &ZoneSet) -> Result<(), AllocError>
    ensures { OnOk result (HaveAlso sets.old.items set.now sets.new.items) }
{
    let own = set_with(alloc, set.sides.as_slice())?;
    sets.push(own)?;
    Ok(())
}

/// Returns the zones with these sides.
pub fn set_with(alloc: Global, sides: &[Sequence<usize>]) -> Result<ZoneSet, AllocError>
    ensures { IfOk result (λ set. set.sides ≡ sides.now) }
{
    let mut own = Sequence::with_capacity(alloc, sides.len())?;
    for side in sides {
        own.push(copy_of(alloc, side.as_slice())?)?;
    }
    Ok(ZoneSet { sides: own })
}

// Returns the sides with the zones of both, if the two differ in one side at most.
fn both_of(
    alloc: Global,
    one: &[Sequence<usize>],
    other: &[Sequence<usize>],
) -> Result<Option<Sequence<Sequence<usize>>>, AllocError>
    ensures { IfOk result (λ found. IfSome found (λ both. HasBoth one.now other.now both)) }
{
    match (one.split_first(), other.split_first()) {
        (Some((first, more)), Some((second, others))) => {
            if first.as_slice() == second.as_slice() {
                match both_of(alloc, more, others)? {
                    Some(rest) => {
                        let both = with_first(alloc, first.as_slice(), rest.as_slice())?;
                        Ok(Some(both))
                    }
                    None => Ok(None),
                }
            } else if are_same_sides(more, others) {
                let side = union_of(alloc, first.as_slice(), second.as_slice())?;
                let both = with_first(alloc, side.as_slice(), more)?;
                Ok(Some(both))
            } else {
                Ok(None)
            }
        }
        (None, None) => Ok(Some(Sequence::new(alloc))),
        _ => Ok(None),
    }
}

fn with_first(
    alloc: Global,
    first: &[usize],
    rest: &[Sequence<usize>],
) -> Result<Sequence<Sequence<usize>>, AllocError>
    ensures { IfOk result (λ sides. sides ≡ first.now ∷ rest.now) }
{
    let mut sides = Sequence::new(alloc);
    sides.push(copy_of(alloc, first)?)?;
    for side in rest {
        sides.push(copy_of(alloc, side.as_slice())?)?;
    }
    Ok(sides)
}

// Returns the regions of both sides. They are in order if those of the first side are.
fn union_of(alloc: Global, one: &[usize], other: &[usize]) -> Result<Sequence<usize>, AllocError>
    ensures { IfOk result (IsUnion one.now other.now) }
{
    let mut both = copy_of(alloc, one)?;
    for region in other {
        let place = place_for(both.as_slice(), *region);
        both.insert(place, *region)?;
    }
    Ok(both)
}

// Returns the number of regions that are not greater, after which the region is in order.
fn place_for(side: &[usize], region: usize) -> usize
    ensures { result ≤ length side.now }
{
    let mut place = 0;
    for known in side {
        if *known <= region {
            place += 1;
        }
    }
    place
}

/// Returns whether the sides are equal.
pub fn are_same_sides(one: &[Sequence<usize>], other: &[Sequence<usize>]) -> bool
    ensures { IsTrue result → one.now ≡ other.now }
{
    match (one.split_first(), other.split_first()) {
        (Some((first, more)), Some((second, others))) => {
            first.as_slice() == second.as_slice() && are_same_sides(more, others)
        }
        (None, None) => true,
        _ => false,
    }
}

fn copy_of(alloc: Global, side: &[usize]) -> Result<Sequence<usize>, AllocError>
    ensures { IfOk result (λ copy. copy ≡ side.now) }
{
    let mut copy = Sequence::with_capacity(alloc, side.len())?;
    for region in side {
        copy.push(*region)?;
    }
    Ok(copy)
}
