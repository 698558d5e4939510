//! The regions between the cuts of a column, and the selection of those that are listed.
ghost use Rattle.std.specs.Prelude.{◌≡◌, ◌++◌, [], ◌∷◌, IfOk, OnOk, take, map, filter};
ghost use Rattle.regions.specs.Regions.{stretches, regions_of_order, regions_of_names, from_cut, has_value, is_listed};
ghost use Rattle.regions.specs.declared.region.Region.TheVariants.{At, Other};
ghost use Rattle.std.specs.Prelude.{false, true};
ghost use Rattle.std.specs.Option.{option_map_or};
ghost use Rattle.feel_tests.specs.Holds.{is_less};
ghost use Rattle.feel_tests.specs.declared.value.Value.TheVariants.{Flag};
ghost use Rattle.regions.specs.Regions.{holds_in};

use crate::region::{Region, holds_in, is_in_range, is_less, least_like, next};
use feel_tests::{Cell, Kind, Value, duplicates};
use std::alloc::{AllocError, Global};
use tables::Sequence;

/// Returns all regions of the kind for these cuts, including regions that contain no value.
pub fn regions_between(
    alloc: Global,
    kind: Kind,
    cuts: Sequence<Value>,
) -> Result<Vec<Region>, AllocError>
    ensures { IfOk result (λ found. found.items ≡ stretches kind cuts) }
{
    match kind {
        Kind::Number | Kind::Day => regions_of_order(alloc, cuts.as_slice()),
        Kind::Text => regions_of_names(alloc, cuts.as_slice()),
        Kind::Flag => flags(alloc),
    }
}

fn flags(alloc: Global) -> Result<Vec<Region>, AllocError>
    ensures { IfOk result (λ found. found.items ≡ At (Flag false) ∷ At (Flag true) ∷ []) }
{
    let mut found = Vec::new(alloc);
    found.push(Region::At(Value::Flag(false)))?;
    found.push(Region::At(Value::Flag(true)))?;
    Ok(found)
}

// The regions are the values below the first cut, each cut, the values between two adjacent cuts,
// and the values above the last cut.
fn regions_of_order(alloc: Global, cuts: &[Value]) -> Result<Vec<Region>, AllocError>
    ensures { IfOk result (λ found. found.items ≡ regions_of_order cuts.now) }
{
    let mut found = Vec::new(alloc);
    match cuts.split_first() {
        Some((first, more)) => {
            found.push(Region::Below(first.duplicate(alloc)?))?;
            from_cut(alloc, first, more, &mut found)?;
        }
        None => found.push(Region::Every)?,
    }
    Ok(found)
}

// Appends the regions from the cut `first` upwards.
fn from_cut(
    alloc: Global,
    first: &Value,
    more: &[Value],
    found: &mut Vec<Region>,
) -> Result<(), AllocError>
    ensures { OnOk result (found.new.items ≡ found.old.items ++ from_cut first.now more.now) }
{
    let mut low = first;
    for high in more {
        found.push(Region::At(low.duplicate(alloc)?))?;
        found.push(Region::Between(low.duplicate(alloc)?, high.duplicate(alloc)?))?;
        low = high;
    }
    found.push(Region::At(low.duplicate(alloc)?))?;
    found.push(Region::Above(low.duplicate(alloc)?))?;
    Ok(())
}

// Each named text is a region, and all other texts together are the last region.
fn regions_of_names(alloc: Global, names: &[Value]) -> Result<Vec<Region>, AllocError>
    ensures { IfOk result (λ found. found.items ≡ regions_of_names names.now) }
{
    let mut found = Vec::new(alloc);
    if names.is_empty() {
        found.push(Region::Every)?;
        return Ok(found);
    }
    for name in names {
        found.push(Region::At(name.duplicate(alloc)?))?;
    }
    found.push(Region::Other(duplicates(alloc, names)?))?;
    Ok(found)
}

/// Returns the regions that contain an allowed value.
pub fn allowed_regions(values: &Option<Cell>, all: Vec<Region>) -> Vec<Region>
    ensures { result.items ≡ filter (is_listed values.now) all.items }
{
    let mut found = all;
    found.retain(|region| is_listed(values, region));
    found
}

fn is_listed(values: &Option<Cell>, region: &Region) -> bool
    ensures { result ≡ is_listed values.now region.now }
{
    has_value(region) && is_allowed(values, region)
}

fn is_allowed(values: &Option<Cell>, region: &Region) -> bool
    ensures { result ≡ option_map_or (λ cell. holds_in cell region.now) values.now true }
{
    match values {
        Some(cell) => holds_in(cell, region),
        None => true,
    }
}

/// Returns whether the region contains a value.
pub fn has_value(region: &Region) -> bool
    ensures { result ≡ has_value region.now }
{
    match region {
        Region::Below(cut) => is_below(&least_like(cut), cut),
        Region::Between(low, high) => is_below(&next(low), high),
        Region::Above(cut) => next(cut).is_some(),
        Region::At(value) => is_in_range(value),
        Region::Other(_) | Region::Every => true,
    }
}

// Returns whether there is a value and it is a number or day less than `other`.
fn is_below(one: &Option<Value>, other: &Value) -> bool
    ensures { result ≡ option_map_or (λ v. is_less v other.now) one.now false }
{
    match one {
        Some(value) => is_less(value, other),
        None => false,
    }
}
