//! Roles whose source is a name of the plan.
ghost use Rattle.std.specs.Prelude.{◌≡◌};
ghost use Rattle.plan_zones.specs.Determined.{family_input_role, if_input, input_role, role_fault};

use crate::fault::WholeFault;
use faults::RoleKey;
use tables::{FamilyRoles, Plan, Roles, Source};

/// Returns the reason why the claims in a zone of the plan have no common determination, if there is
/// one: the plan has no roles, or one of them has the value of a name.
pub fn role_fault(plan: &Plan) -> Option<WholeFault>
    ensures { result ≡ role_fault plan.now }
{
    match plan.roles() {
        Some(roles) => match input_role(roles) {
            Some(role) => Some(WholeFault::InputRole(role)),
            None => None,
        },
        None => Some(WholeFault::NoRoles),
    }
}

// Returns the first role whose source is a name of the plan.
fn input_role(roles: &Roles) -> Option<RoleKey>
    ensures { result ≡ input_role roles.now }
{
    if_input(RoleKey::Cover, &roles.cover)
        .or(if_input(RoleKey::Fee, &roles.fee))
        .or(if_input(RoleKey::Deductible, &roles.deductible))
        .or(if_input(RoleKey::Copay, &roles.copay))
        .or(if_input(RoleKey::Rate, &roles.rate))
        .or(if_input(RoleKey::OopMax, &roles.oop_max))
        .or(family_input_role(&roles.family))
}

fn family_input_role(limits: &Option<FamilyRoles>) -> Option<RoleKey>
    ensures { result ≡ family_input_role limits.now }
{
    match limits {
        Some(limits) => if_input(RoleKey::FamilyDeductible, &limits.deductible).or(if_input(
            RoleKey::FamilyOopMax,
            &limits.oop_max,
        )),
        None => None,
    }
}

fn if_input(role: RoleKey, source: &Source) -> Option<RoleKey>
    ensures { result ≡ if_input role source.now }
{
    match source {
        Source::Input(_) => Some(role),
        Source::Literal(_) | Source::Output(_) => None,
    }
}
