//! The zones of a plan in which claims pend.
ghost use Rattle.std.specs.Prelude.{◌≡◌, ◌≤◌, [], None, IfErr, IfOk, OnOk};
ghost use Rattle.settlement.specs.Settlement.{by_roles};
ghost use Rattle.plan_zones.specs.Determined.{reason_for, role_fault};
ghost use Rattle.plan_checks.specs.Pending.{HaveReasons, HoldValues, IsRefusal, PendExactlyIn, counted_zones};
ghost use Rattle.plan_zones.specs.Zones.{plan_regions};

use cutplan::Region;
use faults::Reason;
use feel_tests::Sequence;
use plan_zones::{
    Survey, WholeFault, Zone, ZoneBox, boxes, is_covered, plan_regions, role_fault, terms_of,
    zone_count,
};
use std::alloc::{AllocError, Global};
use tables::{Env, Inputs, Plan, Roles};

/// The number of zones up to which commands check a whole plan.
pub const ZONE_LIMIT: usize = 1_048_576;

/// The zones of a plan in which claims pend, for faults of the tables or for invalid values of roles.
#[derive(Drop)]
pub struct PendingZones {
    /// The regions of each name of the plan that contain a value.
    pub regions: Sequence<Sequence<Region>>,
    /// The reasons for which claims pend.
    pub reasons: Sequence<Reason>,
    /// The zones in which claims pend. Each box has the index of its reason among `reasons`, and the
    /// indices of its regions among `regions`.
    pub boxes: Sequence<ZoneBox>,
}

/// The question for which reason the claims in a zone pend.
#[derive(Clone, Copy)]
struct PendingSurvey<'p> {
    plan: &'p Plan,
    regions: &'p [Sequence<Region>],
    blank: &'p Inputs,
}

impl<'p> Survey<Reason> for PendingSurvey<'p> {
    ghost use Rattle.std.specs.Prelude.{◌≡◌};
    ghost use Rattle.plan_zones.specs.Determined.{reason_in};

    ghost has_outcome = { λ s places outcome. outcome ≡ reason_in s.plan.now s.regions.now places };

    #[tactic(auto, using(crate::proofs::Listing::reason_without, crate::proofs::Listing::reason_by_fault, crate::proofs::Listing::reason_by_answers))]
    fn outcome(&self, alloc: Global, places: &[usize]) -> Result<Option<Reason>, AllocError> {
        let Some(roles) = self.plan.roles() else {
            return Ok(None);
        };
        let zone = Zone {
            regions: self.regions,
            places,
            blank: self.blank,
        };
        match zone.value(alloc, self.plan.tables()) {
            Ok(answers) => Ok(role_reason(&Env::new(self.plan.tables(), answers), roles)),
            Err(fault) => match Reason::of(fault) {
                Some(reason) => Ok(Some(reason)),
                None => Err(AllocError),
            },
        }
    }
}

// Returns the reason for which a role pends the claims that have these answers of the tables.
#[tactic(auto, using(crate::proofs::Listing::role_uncovered, crate::proofs::Listing::role_valid, crate::proofs::Listing::role_invalid))]
fn role_reason(env: &Env, roles: &Roles) -> Option<Reason>
    ensures { result ≡ reason_for (by_roles roles.now [] env.now) }
{
    if !is_covered(env, roles) {
        return None;
    }
    match terms_of(env, roles) {
        Ok(_) => None,
        Err(role) => Some(Reason::Term(role)),
    }
}

/// Finds the zones of the plan in which claims pend, and joins them into boxes. Fails if the plan has
/// no roles, if a role has the value of a name, with `TooWide` if the plan has more than `limit`
/// zones, and otherwise only if memory runs out.
pub fn pending_zones(alloc: Global, plan: &Plan, limit: usize) -> Result<PendingZones, WholeFault>
    ensures regions { IfOk result (λ found. found.regions ≡ plan_regions plan.now) }
    ensures exact { IfOk result (λ found. PendExactlyIn plan.now found.reasons found.boxes) }
    ensures known { IfOk result (λ found. HaveReasons found.reasons found.boxes) }
    ensures held { IfOk result (λ found. HoldValues plan.now found.boxes) }
    ensures common { OnOk result (role_fault plan.now ≡ None) }
    ensures narrow { OnOk result (counted_zones plan.now ≤ limit) }
    ensures refused { IfErr result (IsRefusal plan.now limit) }
{
    if let Some(fault) = role_fault(plan) {
        return Err(fault);
    }
    let regions = plan_regions(alloc, plan)?;
    let zones = zone_count(regions.as_slice());
    if zones > limit {
        return Err(WholeFault::TooWide(zones));
    }
    let blank = Inputs::new(alloc, plan)?;
    let survey = PendingSurvey {
        plan,
        regions: regions.as_slice(),
        blank: &blank,
    };
    let mut reasons = Sequence::new(alloc);
    let boxes = boxes(alloc, &survey, &mut reasons, &[], regions.as_slice())?;
    Ok(PendingZones {
        regions,
        reasons,
        boxes,
    })
}
