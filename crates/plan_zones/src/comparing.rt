//! How two plans are compared, and the faults for which they cannot be.
ghost use Rattle.std.specs.Prelude.{◌≡◌, ℕ, IfErr, IfOk, IfSome, OnOk, None, length};
ghost use Rattle.std.specs.List.{list_any};
ghost use Rattle.std.specs.Str.{bytes_eq};
ghost use Rattle.tables.specs.Plan.{IsPlan, same_kind};
ghost use Rattle.plan_zones.specs.Changes.{IsCompareRefusal, IsPlanRefusal, on_side, first_of_two_kinds, first_unknown_narrowing, first_unknown_new, first_unknown_old, names_of};
ghost use Rattle.plan_zones.specs.Determined.{role_fault};
ghost use Rattle.plan_zones.specs.Joint.{ArePlaced, has_one_kind, joint_text, place_of_new, place_of_old};

use crate::compare_fault::{CompareFault, Side};
use crate::fault::WholeFault;
use crate::input_role::role_fault;
use crate::joint::{JointName, JointNames, Rename, joint_names, place_named};
use crate::joint_regions::{Narrowing, joint_text, kind_at};
use feel_tests::Kind;
use std::alloc::Global;
use tables::{InputData, Plan};

/// How two plans are compared.
#[derive(Clone, Copy)]
pub struct Comparing<'a> {
    /// Names of the old plan that have another text in the new plan.
    pub renames: &'a [Rename<'a>],
    /// Cells that the values of names have to meet.
    pub narrowed: &'a [Narrowing<'a>],
    /// Whether remarks are left out.
    pub terms_only: bool,
}

/// Returns the joint names, or the fault for which the plans cannot be compared.
#[tactic(auto, using(crate::proofs::Joined::plans_refused, crate::proofs::Joined::merged_refused))]
pub fn join_plans(
    alloc: Global,
    old: &Plan,
    new: &Plan,
    comparing: &Comparing<'_>,
) -> Result<JointNames, CompareFault>
    ensures names { IfOk result (λ joint. joint.names
        ≡ names_of old.now new.now comparing.now) }
    ensures old { IfOk result (λ joint.
        ArePlaced (place_of_old joint.names) (length old.now.names) joint.old) }
    ensures new { IfOk result (λ joint.
        ArePlaced (place_of_new joint.names) (length new.now.names) joint.new) }
    ensures old_sound { OnOk result (IsPlan old.now) }
    ensures new_sound { OnOk result (IsPlan new.now) }
    ensures old_roles { OnOk result (role_fault old.now ≡ None) }
    ensures new_roles { OnOk result (role_fault new.now ≡ None) }
    ensures kinds { IfOk result (λ joint. first_of_two_kinds old.now new.now joint.names ≡ None) }
    ensures refused { (limit : ℕ) →
        IfErr result (IsCompareRefusal old.now new.now comparing.now limit) }
{
    if let Some(fault) = plans_fault(old, new) {
        return Err(fault);
    }
    if let Some(index) = first_unknown_old(old.names(), comparing.renames) {
        return Err(CompareFault::NoOldName(index));
    }
    if let Some(index) = first_unknown_new(new.names(), comparing.renames) {
        return Err(CompareFault::NoNewName(index));
    }
    let old_names = old.names();
    let new_names = new.names();
    let joint = joint_names(alloc, old_names, new_names, comparing.renames)?;
    let names = joint.names.as_slice();
    if let Some(place) = first_of_two_kinds(old, new, names) {
        return Err(CompareFault::TwoKinds(place));
    }
    let unknown = first_unknown_narrowing(old_names, new_names, names, comparing.narrowed);
    if let Some(index) = unknown {
        return Err(CompareFault::NoNarrowed(index));
    }
    Ok(joint)
}

// Returns the fault of one of the plans, or that only one of them keeps families.
#[tactic(auto, using(crate::proofs::Joined::side_refused, crate::proofs::Joined::families_refused))]
fn plans_fault(old: &Plan, new: &Plan) -> Option<CompareFault>
    ensures some { IfSome result (IsPlanRefusal old.now new.now) }
    ensures old { result ≡ None → role_fault old.now ≡ None }
    ensures new { result ≡ None → role_fault new.now ≡ None }
{
    if let Some(fault) = role_fault(old) {
        return Some(on_side(Side::Old, fault));
    }
    if let Some(fault) = role_fault(new) {
        return Some(on_side(Side::New, fault));
    }
    if old.keeps_families() != new.keeps_families() {
        return Some(CompareFault::Families);
    }
    None
}

// Returns the fault of a plan's roles, which is one of the first two.
fn on_side(side: Side, fault: WholeFault) -> CompareFault
    ensures { result ≡ on_side side fault }
{
    match fault {
        WholeFault::NoRoles => CompareFault::NoRoles(side),
        WholeFault::InputRole(role) => CompareFault::InputRole(side, role),
        WholeFault::TooWide(_) => CompareFault::OutOfMemory,
        WholeFault::OutOfMemory => CompareFault::OutOfMemory,
    }
}

// Returns the index of the first rename of a text that is no name of the old plan.
fn first_unknown_old(names: &[InputData], renames: &[Rename<'_>]) -> Option<usize>
    ensures { result ≡ first_unknown_old names.now renames.now }
{
    renames
        .iter()
        .position(|rename| place_named(names, rename.old).is_none())
}

// Returns the index of the first rename to a text that is no name of the new plan.
fn first_unknown_new(names: &[InputData], renames: &[Rename<'_>]) -> Option<usize>
    ensures { result ≡ first_unknown_new names.now renames.now }
{
    renames
        .iter()
        .position(|rename| place_named(names, rename.new).is_none())
}

// Returns the index of the first joint name whose values have two kinds.
fn first_of_two_kinds(old: &Plan, new: &Plan, names: &[JointName]) -> Option<usize>
    ensures { result ≡ first_of_two_kinds old.now new.now names.now }
{
    names.iter().position(|name| !has_one_kind(old, new, *name))
}

fn has_one_kind(old: &Plan, new: &Plan, name: JointName) -> bool
    ensures { result ≡ has_one_kind old.now new.now name }
{
    match name.old {
        Some(one) => match name.new {
            Some(other) => is_same_kind(kind_at(old, one), kind_at(new, other)),
            None => true,
        },
        None => true,
    }
}

fn is_same_kind(one: Kind, other: Kind) -> bool
    ensures { result ≡ same_kind one other }
{
    one == other
}

// Returns the index of the first narrowing of a text that is no joint name.
fn first_unknown_narrowing(
    old: &[InputData],
    new: &[InputData],
    names: &[JointName],
    narrowed: &[Narrowing<'_>],
) -> Option<usize>
    ensures { result ≡ first_unknown_narrowing old.now new.now names.now narrowed.now }
{
    narrowed.iter().position(|narrowing| !is_joint_text(old, new, names, narrowing.name))
}

fn is_joint_text(old: &[InputData], new: &[InputData], names: &[JointName], text: &str) -> bool
    ensures { result ≡ list_any (λ n. bytes_eq (joint_text old.now new.now n) text.now) names.now }
{
    names.iter().any(|name| joint_text(old, new, *name) == text)
}
