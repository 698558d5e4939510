//! What a plan's author checks of a whole plan: in which zones of the values that the plan is given a
//! claim pends, which rules are of no use, and in which zones two plans differ.
//!
//! Zones, boxes of zones, and what a plan determines in a zone come from `plan_zones`.
//! `pending_zones` lists the zones in which claims pend: `specs/Pending.antt` defines what is
//! promised of them, and `pending.rt` finds them. `table_faults.rt` finds the zones in which the
//! tables have faults, for a plan without roles.
//!
//! `dead_parts` walks over the same zones, and leaves the rules that give the answer of their table, or
//! a part of it, in none of them, and the tests of cells that hold in none. Begin with
//! `specs/Dead.antt`, and then read `dead.rt`.
//!
//! `plan_changes` finds the zones in which two plans differ in what they say of a claim before its
//! amounts. Begin with `specs/Changes.antt` of `plan_zones`; then read `changes.rt`, whose contract is
//! the promise, and `change_survey.rt`.
#![tactic(auto)]

mod change_law;
mod change_survey;
mod changes;
mod dead;
mod pending;
mod table_faults;

pub use change_law::unlisted_settle_alike;
pub use changes::{PlanChanges, plan_changes};
pub use dead::{DeadParts, dead_parts};
pub use pending::{PendingZones, ZONE_LIMIT, pending_zones};
pub use plan_zones::{
    Benefit, Change, CompareFault, Comparing, FamilyTerms, JointName, JointNames, Narrowing,
    Rename, RulePlace, Side, Terms, TestPlace, WholeFault, ZoneBox, join_plans, joint_kind,
    joint_text, plan_regions, regions_of_names, tests_at, zone_count,
};
pub use table_faults::{failing_zones, faulty_zones};
