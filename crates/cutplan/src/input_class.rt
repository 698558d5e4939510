//! The input class of the inputs: the regions that contain the values of all names that tables
//! read.
ghost use Rattle.std.specs.Prelude.{◌≡◌, IfOk, IfSome};
ghost use Rattle.cutplan.specs.Matching.{OthersRise};
ghost use Rattle.cutplan.specs.InputClasses.{AreCompiledNames, IsKeptName, IsPlaceIn, IsInputClass, names_read, with_place};

use crate::partition::Partition;
use std::alloc::{AllocError, Global};
use tables::{Inputs, Plan, Sequence};

/// A compiled name that tables read: its index among the plan's names, and the partition of its
/// values by all columns that read it.
pub struct CompiledName {
    pub place: usize,
    pub partition: Partition,
}

impl Drop for CompiledName {
    fn drop(self) {
        let CompiledName {
            place: _,
            partition: _,
        } = self;
    }
}

/// Compiles the names that the plan's tables read, in order.
pub fn compiled_names(alloc: Global, plan: &Plan) -> Result<Sequence<CompiledName>, AllocError>
    ensures { IfOk result (λ kept. AreCompiledNames plan.now kept) }
{
    let places = names_read(alloc, plan)?;
    let mut kept = Sequence::new(alloc);
    for place in places.as_slice() {
        kept.push(compiled_name(alloc, plan, *place)?)?;
    }
    Ok(kept)
}

fn names_read(alloc: Global, plan: &Plan) -> Result<Sequence<usize>, AllocError>
    ensures { IfOk result (λ places. places ≡ names_read plan.now) }
{
    let mut places = Sequence::new(alloc);
    for place in 0..plan.names().len() {
        if plan.needs(place) {
            places.push(place)?;
        }
    }
    Ok(places)
}

fn compiled_name(alloc: Global, plan: &Plan, place: usize) -> Result<CompiledName, AllocError>
    ensures { IfOk result (λ kept. IsKeptName plan.now place kept) }
{
    let partition = Partition::of_name(alloc, plan, place)?;
    Ok(CompiledName { place, partition })
}

/// Returns the number of the input class of the inputs. There is none if a name has no value of its
/// kind, or if the number does not fit in a `u64`. `names` are the compiled names of the plan.
pub fn class_of(plan: &Plan, names: &[CompiledName], given: &Inputs) -> Option<u64>
    requires { AreCompiledNames plan.now names.now }
    ensures { IfSome result (IsInputClass plan.now given.now) }
{
    let mut input_class: u64 = 0;
    for name in names {
        let place = place_in(name, given)?;
        input_class = with_place(input_class, name.partition.regions.as_slice().len(), place)?;
    }
    Some(input_class)
}

// Appends a digit to a number in mixed radix. The digit is `place`, and its radix is `count`.
fn with_place(number: u64, count: usize, place: usize) -> Option<u64>
    ensures { IfSome result (λ next. next ≡ with_place number (count, place)) }
{
    number.checked_mul(count as u64)?.checked_add(place as u64)
}

// Returns the index of the region that contains the value of the name.
fn place_in(name: &CompiledName, given: &Inputs) -> Option<usize>
    requires { OthersRise name.now.partition.regions.items }
    ensures { IfSome result (IsPlaceIn name.now given.now) }
{
    let value = given.get(name.place)?;
    name.partition.place_of(value)
}
