//! The zones of a plan and of two plans: the values that a plan is given, cut into regions, and what
//! a plan determines in each of them.
//!
//! The literals of all tables cut the values of each name that the plan is given into regions, as
//! `regions` defines them. A zone has a region for each name, and all values in a zone have the same
//! answers of all tables (`zone_value.rt`). `terms.rt` and `benefit.rt` find what a plan determines
//! for the claims in a zone, before their amounts. `zone_run.rt` evaluates the tables in a zone up
//! to their first fault, `giving.rt` finds the rules that give a table's answers, and
//! `zone_tests.rt` the tests of cells that hold.
//!
//! `walk.rt` asks a question (`survey.rt`) of each zone, and joins the zones with one answer into
//! boxes (`zone_box.rt`), each of which has some regions for each name.
//!
//! The names of two plans are joined (`joint.rt`), the literals of both cut the values of a name
//! (`joint_regions.rt`), and each plan's zone is the projection of a joint zone. `change.rt` says in
//! what two plans differ in a zone.
//!
//! Begin with `specs/Zones.antt`, `specs/Boxes.antt` and `specs/Determined.antt`, and for two plans
//! with `specs/Joint.antt` and `specs/Changes.antt`.
#![tactic(auto)]

mod amounts;
mod benefit;
mod change;
mod compare_fault;
mod comparing;
mod fault;
mod giving;
mod input_role;
mod joint;
mod joint_regions;
mod rule_place;
mod survey;
mod terms;
mod test_values;
mod walk;
mod zone_box;
mod zone_regions;
mod zone_run;
mod zone_tests;
mod zone_value;

pub use benefit::{Benefit, benefit_in};
pub use change::Change;
pub use compare_fault::{CompareFault, Side};
pub use comparing::{Comparing, join_plans};
pub use fault::WholeFault;
pub use input_role::role_fault;
pub use joint::{JointName, JointNames, Rename};
pub use joint_regions::{Narrowing, joint_kind, joint_text, regions_of_names};
pub use rule_place::{RulePlace, TestPlace, all_rules, tests_at, tests_of_rules};
pub use survey::{Outcome, Survey};
pub use terms::{FamilyTerms, Terms, is_covered, terms_of};
pub use walk::{append_region, boxes};
pub use zone_box::ZoneBox;
pub use zone_regions::{plan_regions, zone_count};
pub use zone_tests::is_giving;
pub use zone_value::Zone;
