//! The zones of a plan at which its tables have faults, whatever its roles are, and the zones of any
//! plan for which `check --whole` writes a line.
ghost use Rattle.std.specs.Prelude.{◌≡◌, ◌≤◌, IfErr, IfOk, OnOk};
ghost use Rattle.plan_checks.specs.Dead.{IsTooWide};
ghost use Rattle.plan_checks.specs.Pending.{HaveReasons, HoldValues, counted_zones};
ghost use Rattle.plan_checks.specs.TableFaults.{FailExactlyIn, HaveFaultsExactlyIn, IsUnlisted};
ghost use Rattle.plan_zones.specs.Zones.{plan_regions};

use crate::pending::{PendingZones, pending_zones};
use cutplan::Region;
use faults::Reason;
use feel_tests::Sequence;
use plan_zones::{Survey, WholeFault, Zone, boxes, plan_regions, zone_count};
use std::alloc::{AllocError, Global};
use tables::{Inputs, Plan, Table};

/// The question which fault the tables have in a zone.
#[derive(Clone, Copy)]
struct FaultSurvey<'p> {
    tables: &'p [Table],
    regions: &'p [Sequence<Region>],
    blank: &'p Inputs,
}

impl<'p> Survey<Reason> for FaultSurvey<'p> {
    ghost use Rattle.std.specs.Prelude.{◌≡◌};
    ghost use Rattle.plan_checks.specs.TableFaults.{fault_reason_in};

    ghost has_outcome = { λ s places outcome.
        outcome ≡ fault_reason_in s.tables.now s.regions.now places };

    #[tactic(auto, using(crate::proofs::FaultListing::reason_by_fault, crate::proofs::FaultListing::reason_by_answers))]
    fn outcome(&self, alloc: Global, places: &[usize]) -> Result<Option<Reason>, AllocError> {
        let zone = Zone {
            regions: self.regions,
            places,
            blank: self.blank,
        };
        match zone.value(alloc, self.tables) {
            Ok(_) => Ok(None),
            Err(fault) => match Reason::of(fault) {
                Some(reason) => Ok(Some(reason)),
                None => Err(AllocError),
            },
        }
    }
}

/// Finds the zones of the plan in which its tables have a fault, and joins them into boxes. Fails with
/// `TooWide` if the plan has more than `limit` zones, and otherwise only if memory runs out.
pub fn faulty_zones(alloc: Global, plan: &Plan, limit: usize) -> Result<PendingZones, WholeFault>
    ensures regions { IfOk result (λ found. found.regions ≡ plan_regions plan.now) }
    ensures exact { IfOk result (λ found.
        HaveFaultsExactlyIn plan.now found.reasons found.boxes) }
    ensures known { IfOk result (λ found. HaveReasons found.reasons found.boxes) }
    ensures held { IfOk result (λ found. HoldValues plan.now found.boxes) }
    ensures narrow { OnOk result (counted_zones plan.now ≤ limit) }
    ensures refused { IfErr result (IsTooWide plan.now limit) }
{
    let regions = plan_regions(alloc, plan)?;
    let zones = zone_count(regions.as_slice());
    if zones > limit {
        return Err(WholeFault::TooWide(zones));
    }
    let blank = Inputs::new(alloc, plan)?;
    let survey = FaultSurvey {
        tables: plan.tables(),
        regions: regions.as_slice(),
        blank: &blank,
    };
    let mut reasons = Sequence::new(alloc);
    let boxes = boxes(alloc, &survey, &mut reasons, &[], regions.as_slice())?;
    Ok(PendingZones {
        regions,
        reasons,
        boxes,
    })
}

/// Finds the zones of the plan in which claims pend; if the plan has no roles, those in which its
/// tables have a fault. Fails if a role has the value of a name, with `TooWide` if the plan has more
/// than `limit` zones, and otherwise only if memory runs out.
#[tactic(auto, using(crate::proofs::FaultListing::fails_without_roles, crate::proofs::FaultListing::unlisted_without_roles))]
pub fn failing_zones(alloc: Global, plan: &Plan, limit: usize) -> Result<PendingZones, WholeFault>
    ensures regions { IfOk result (λ found. found.regions ≡ plan_regions plan.now) }
    ensures exact { IfOk result (λ found. FailExactlyIn plan.now found.reasons found.boxes) }
    ensures known { IfOk result (λ found. HaveReasons found.reasons found.boxes) }
    ensures held { IfOk result (λ found. HoldValues plan.now found.boxes) }
    ensures narrow { OnOk result (counted_zones plan.now ≤ limit) }
    ensures refused { IfErr result (IsUnlisted plan.now limit) }
{
    let Some(_roles) = plan.roles() else {
        return faulty_zones(alloc, plan, limit);
    };
    pending_zones(alloc, plan, limit)
}
