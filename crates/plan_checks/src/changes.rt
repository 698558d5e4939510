//! The zones in which two plans differ in what they say of a claim before its amounts.
ghost use Rattle.std.specs.Prelude.{◌≡◌, ◌≤◌, IfErr, IfOk, OnOk, None, length};
ghost use Rattle.plan_zones.specs.Changes.{HaveChanges, DifferExactlyIn, HoldJointValues, IsCompareRefusal, counted_joint_zones, names_of, plans_of};
ghost use Rattle.plan_zones.specs.Determined.{role_fault};
ghost use Rattle.plan_zones.specs.Joint.{ArePlaced, joint_regions, place_of_new, place_of_old};

use crate::change_survey::boxes_of_changes;
use cutplan::Region;
use feel_tests::Sequence;
use plan_zones::{
    Change, CompareFault, Comparing, JointNames, ZoneBox, join_plans, regions_of_names, zone_count,
};
use std::alloc::Global;
use tables::Plan;

/// The zones in which two plans differ.
pub struct PlanChanges {
    /// The joint names of the plans.
    pub joint: JointNames,
    /// The regions of each joint name that contain a value.
    pub regions: Sequence<Sequence<Region>>,
    /// The differences.
    pub changes: Sequence<Change>,
    /// The zones in which the plans differ. Each box has the index of its change among `changes`, and
    /// the indices of its regions among `regions`.
    pub boxes: Sequence<ZoneBox>,
}

impl Drop for PlanChanges {
    fn drop(self) {
        let PlanChanges {
            joint: _,
            regions: _,
            changes: _,
            boxes: _,
        } = self;
    }
}

/// Finds the zones in which two plans differ in what they say of a claim before its amounts, and joins
/// them into boxes. Fails if one of the plans has no roles or a role with the value of a name, if only
/// one of them keeps families, if their names cannot be joined or narrowed, with `TooWide` if
/// there are more than `limit` zones, and otherwise only if memory runs out.
pub fn plan_changes(
    alloc: Global,
    old: &Plan,
    new: &Plan,
    comparing: &Comparing<'_>,
    limit: usize,
) -> Result<PlanChanges, CompareFault>
    ensures names { IfOk result (λ found. found.joint.names
        ≡ names_of old.now new.now comparing.now) }
    ensures old_places { IfOk result (λ found. ArePlaced
        (place_of_old found.joint.names) (length old.now.names) found.joint.old) }
    ensures new_places { IfOk result (λ found. ArePlaced
        (place_of_new found.joint.names) (length new.now.names) found.joint.new) }
    ensures regions { IfOk result (λ found. found.regions
        ≡ joint_regions (plans_of old.now new.now comparing.now) found.joint.names) }
    ensures exact { IfOk result (λ found. DifferExactlyIn comparing.now.terms_only
        (plans_of old.now new.now comparing.now) found.joint found.boxes) }
    ensures known { IfOk result (λ found. HaveChanges comparing.now.terms_only
        (plans_of old.now new.now comparing.now) found.joint found.changes found.boxes) }
    ensures held { IfOk result (λ found. HoldJointValues
        (plans_of old.now new.now comparing.now) found.joint.names found.boxes) }
    ensures common { OnOk result ((role_fault old.now ≡ None) × (role_fault new.now ≡ None)) }
    ensures narrow { IfOk result (λ found. counted_joint_zones
        (plans_of old.now new.now comparing.now) found.joint.names ≤ limit) }
    ensures refused { IfErr result (IsCompareRefusal old.now new.now comparing.now limit) }
{
    let joint = join_plans(alloc, old, new, comparing)?;
    let regions = regions_of_names(alloc, old, new, joint.names.as_slice(), comparing.narrowed)?;
    let choices = regions.as_slice();
    let zones = zone_count(choices);
    if zones > limit {
        return Err(CompareFault::TooWide(zones));
    }
    let mut changes = Sequence::new(alloc);
    let boxes = boxes_of_changes(alloc, old, new, comparing, &joint, choices, &mut changes)?;
    Ok(PlanChanges {
        joint,
        regions,
        changes,
        boxes,
    })
}
