//! The outputs that give a plan's roles their values. They are looked up by name once, and not for
//! each claim.
ghost use Rattle.settlement.specs.RoleBindings.{IsPlaced, AreFamilyPlaced, AreRemarksPlaced, ArePlacedFor};

use tables::{FamilyRoles, Name, OutputPlace, Plan, Source};

/// For each limit of the family, the place of the output that gives its value, if one does.
#[derive(Drop)]
pub struct FamilyBindings {
    pub deductible: Option<OutputPlace>,
    pub oop_max: Option<OutputPlace>,
}

/// For each role, the place of the output that gives its value, if one does.
#[derive(Drop)]
pub struct RoleBindings {
    pub cover: Option<OutputPlace>,
    pub fee: Option<OutputPlace>,
    pub deductible: Option<OutputPlace>,
    pub copay: Option<OutputPlace>,
    pub rate: Option<OutputPlace>,
    pub oop_max: Option<OutputPlace>,
    pub remarks: Option<OutputPlace>,
    pub family: FamilyBindings,
}

/// Returns the places of the outputs that give the plan's roles their values.
pub fn role_places(plan: &Plan) -> RoleBindings
    ensures { ArePlacedFor plan.now result }
{
    match plan.roles() {
        Some(roles) => RoleBindings {
            cover: place_of(plan, &roles.cover),
            fee: place_of(plan, &roles.fee),
            deductible: place_of(plan, &roles.deductible),
            copay: place_of(plan, &roles.copay),
            rate: place_of(plan, &roles.rate),
            oop_max: place_of(plan, &roles.oop_max),
            remarks: remarks_place(plan, &roles.remarks),
            family: family_places(plan, &roles.family),
        },
        None => RoleBindings {
            cover: None,
            fee: None,
            deductible: None,
            copay: None,
            rate: None,
            oop_max: None,
            remarks: None,
            family: no_places(),
        },
    }
}

fn family_places(plan: &Plan, limits: &Option<FamilyRoles>) -> FamilyBindings
    ensures { AreFamilyPlaced plan.now.tables limits.now result }
{
    match limits {
        Some(limits) => FamilyBindings {
            deductible: place_of(plan, &limits.deductible),
            oop_max: place_of(plan, &limits.oop_max),
        },
        None => no_places(),
    }
}

fn no_places() -> FamilyBindings {
    FamilyBindings {
        deductible: None,
        oop_max: None,
    }
}

// A role whose value is a literal or an input has no place.
fn place_of(plan: &Plan, source: &Source) -> Option<OutputPlace>
    ensures { IsPlaced plan.now.tables source.now result }
{
    match source {
        Source::Literal(_) => None,
        Source::Input(_) => None,
        Source::Output(name) => plan.output_place(name.as_str()),
    }
}

fn remarks_place(plan: &Plan, remarks: &Option<Name>) -> Option<OutputPlace>
    ensures { AreRemarksPlaced plan.now.tables remarks.now result }
{
    match remarks {
        Some(name) => plan.output_place(name.as_str()),
        None => None,
    }
}
