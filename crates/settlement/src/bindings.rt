//! The values that a claim and the accumulators give the names of a plan.
ghost use Rattle.std.specs.Prelude.{◌≡◌, ◌<◌, ℕ, length, map, slice_get, Some, IsTrue, IfOk, OnOk};
ghost use Rattle.std.specs.List.{All};
ghost use Rattle.tables.specs.Plan.{IsPlan};
ghost use Rattle.feel_tests.specs.Value.{kind_of};
ghost use Rattle.feel_tests.specs.declared.value.Value.TheVariants as values;
ghost use Rattle.settlement.specs.Bindings.{accumulator_values, after_family, slot_kinds, value_bound, values_after, values_from_member, values_given};
ghost use Rattle.settlement.specs.Reads.{any_role_reads, is_read, limits_read, places_read, roles_read, source_reads, HasItsValue};

use crate::acc::Acc;
use crate::claim::Claim;
use feel_tests::{Day, Text, Value};
use fixpoint::Fixed;
use std::alloc::{AllocError, Global};
use tables::{FamilyRoles, Inputs, Plan, Roles, Sequence, Source};

/// The place of a claim's identifier among a plan's names. The family follows it, if the claim has
/// one.
const ID: usize = 0;

/// The places of a claim's other values, and of its first field, relative to the place of the
/// member.
const MEMBER: usize = 0;

const SERVICE: usize = 1;

const BILLED: usize = 2;

const FIRST_FIELD: usize = 3;

/// Returns the places of the names that some table or role of the plan reads, in order.
pub fn places_read(alloc: Global, plan: &Plan) -> Result<Sequence<usize>, AllocError>
    ensures places { IfOk result (λ places. places ≡ places_read plan.now) }
    ensures sound { IsPlan plan.now }
{
    let mut places = Sequence::new(alloc);
    for place in 0..plan.names().len() {
        if is_read(plan, place) {
            places.push(place)?;
        }
    }
    Ok(places)
}

fn is_read(plan: &Plan, place: usize) -> bool
    ensures { result ≡ is_read plan.now place }
{
    plan.needs(place) || any_role_reads(Some(place), plan)
}

/// Returns whether some role of the plan has the value of the name at the place. Without a place,
/// every name is meant: then the result is whether some role has the value of an input.
pub fn any_role_reads(place: Option<usize>, plan: &Plan) -> bool
    ensures { result ≡ any_role_reads place plan.now.roles }
{
    match plan.roles() {
        Some(roles) => roles_read(place, roles),
        None => false,
    }
}

fn roles_read(place: Option<usize>, roles: &Roles) -> bool
    ensures { result ≡ roles_read place roles.now }
{
    source_reads(place, &roles.cover)
        || source_reads(place, &roles.fee)
        || source_reads(place, &roles.deductible)
        || source_reads(place, &roles.copay)
        || source_reads(place, &roles.rate)
        || source_reads(place, &roles.oop_max)
        || limits_read(place, &roles.family)
}

fn limits_read(place: Option<usize>, limits: &Option<FamilyRoles>) -> bool
    ensures { result ≡ limits_read place limits.now }
{
    match limits {
        Some(limits) => {
            source_reads(place, &limits.deductible) || source_reads(place, &limits.oop_max)
        }
        None => false,
    }
}

fn source_reads(place: Option<usize>, source: &Source) -> bool
    ensures { result ≡ source_reads place source.now }
{
    match source {
        Source::Literal(_) => false,
        Source::Input(name) => match place {
            Some(place) => *name == place,
            None => true,
        },
        Source::Output(_) => false,
    }
}

/// Sets each of these places to its value of the claim and the accumulators. Earlier values are
/// replaced. If memory runs out, some of these places have no value.
pub fn bind_inputs(
    alloc: Global,
    inputs: &mut Inputs,
    places: &[usize],
    claim: &Claim,
    acc: &Acc,
) -> Result<(), AllocError>
    requires kinds { slot_kinds inputs.old ≡ map kind_of (values_given claim.now acc.now) }
    requires within { All (λ place. place < length (values_given claim.now acc.now)) places.now }
    ensures kinds { slot_kinds inputs.new ≡ slot_kinds inputs.old }
    ensures given { OnOk result (All (HasItsValue claim.now acc.now inputs.new) places.now) }
{
    for place in places {
        bind_input(alloc, inputs, *place, claim, acc)?;
    }
    Ok(())
}

// Sets one place to its value. A text reuses the memory of an earlier text.
#[inline(always)]
fn bind_input(
    alloc: Global,
    inputs: &mut Inputs,
    place: usize,
    claim: &Claim,
    acc: &Acc,
) -> Result<(), AllocError>
    requires kinds { slot_kinds inputs.old ≡ map kind_of (values_given claim.now acc.now) }
    requires within { place < length (values_given claim.now acc.now) }
    ensures kinds { slot_kinds inputs.new ≡ slot_kinds inputs.old }
    ensures given { OnOk result (HasItsValue claim.now acc.now inputs.new place) }
    ensures others { OnOk result ((other : ℕ) → HasItsValue claim.now acc.now inputs.old other
        → HasItsValue claim.now acc.now inputs.new other) }
{
    match bound_value(claim, acc, place) {
        BoundValue::Text(text) => inputs.set_text(alloc, place, text)?,
        BoundValue::Field(value) => inputs.set_copy(alloc, place, value)?,
        BoundValue::Amount(number) => inputs.set_number(place, number),
        BoundValue::Day(day) => inputs.set(place, Value::Day(day)),
    }
    Ok(())
}

/// A value of a claim or of the accumulators. A text and a field are borrowed from the claim, and
/// are copied only into their slot.
#[derive(Drop)]
enum BoundValue<'c> {
    Text(&'c Text),
    Field(&'c Value),
    Amount(Fixed),
    Day(Day),
}

// Returns the value of the name at a place, from 0.
#[inline(always)]
fn bound_value<'c>(claim: &'c Claim, acc: &Acc, place: usize) -> BoundValue<'c>
    requires { place < length (values_given claim.now acc.now) }
    ensures { slice_get (values_given claim.now acc.now) place ≡ Some (value_bound result) }
{
    match place {
        ID => BoundValue::Text(&claim.id),
        _ => bound_after_id(claim, acc, place - 1),
    }
}

// The place is relative to the name after the claim's identifier.
#[inline(always)]
fn bound_after_id<'c>(claim: &'c Claim, acc: &Acc, place: usize) -> BoundValue<'c>
    requires { place < length
        (after_family claim.now.family (values_from_member claim.now acc.now)) }
    ensures { slice_get
        (after_family claim.now.family (values_from_member claim.now acc.now)) place
        ≡ Some (value_bound result) }
{
    match &claim.family {
        None => bound_from_member(claim, acc, place),
        Some(family) => match place {
            0 => BoundValue::Text(family),
            _ => bound_from_member(claim, acc, place - 1),
        },
    }
}

// The place is relative to that of the member.
#[inline(always)]
fn bound_from_member<'c>(claim: &'c Claim, acc: &Acc, place: usize) -> BoundValue<'c>
    requires { place < length (values_from_member claim.now acc.now) }
    ensures { slice_get (values_from_member claim.now acc.now) place ≡ Some (value_bound result) }
{
    match place {
        MEMBER => BoundValue::Text(&claim.member),
        SERVICE => BoundValue::Day(claim.service),
        BILLED => BoundValue::Amount(claim.billed.amount()),
        _ => bound_after_member(claim, acc, place - FIRST_FIELD),
    }
}

// The place is relative to that of the first field.
#[inline(always)]
fn bound_after_member<'c>(claim: &'c Claim, acc: &Acc, place: usize) -> BoundValue<'c>
    requires { place < length (values_after claim.now acc.now) }
    ensures { slice_get (values_after claim.now acc.now) place ≡ Some (value_bound result) }
{
    let fields = claim.fields.as_slice();
    match fields.get(place) {
        Some(value) => BoundValue::Field(value),
        None => BoundValue::Amount(accumulator(claim, acc, place - fields.len())),
    }
}

// The place is relative to that of the first accumulator. Only a claim with a family has the
// accumulators of the family.
fn accumulator(claim: &Claim, acc: &Acc, place: usize) -> Fixed
    requires { place < length (accumulator_values claim.now.family acc.now) }
    ensures { slice_get (accumulator_values claim.now.family acc.now) place
        ≡ Some (values.Number result) }
{
    match place {
        0 => acc.met.amount(),
        1 => acc.oop.amount(),
        2 => acc.paid.amount(),
        3 => acc.fmet.amount(),
        _ => acc.foop.amount(),
    }
}
