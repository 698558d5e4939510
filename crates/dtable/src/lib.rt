//! The reader of plans: the plan that a text denotes, or the first fault of the text.
//!
//! `read_plan` answers a `Plan` of `tables`, whose other names this crate passes on. Cells and
//! literals come from `feel_tests`, faults and the names of roles and columns from `faults`, and
//! the reader of TOML from `toml`.
//!
//! Begin with `specs/PlanFile.antt`, which defines the plan of a text key by key, and with
//! `specs/Scope.antt` and `specs/RoleFile.antt`. Then read `reading.rt`, which has the order of the
//! faults and says what each file of `reading/` reads.
#![tactic(auto)]

mod reading;

pub use faults::{Fault, PlanCause, PlanFault};
pub use feel_tests::Sequence;
pub use reading::{PLAN_LIMIT_BYTES, read_plan, text_spells_at_most_one_plan};
pub use tables::{
    Answer, Answers, AnswersByTable, Env, FamilyRoles, Hit, Input, InputClasses, InputData, Inputs,
    NAME_LIMIT_BYTES, Name, Origin, Output, OutputPlace, Plan, Roles, Rule, Slot, Source, Table,
    Valuer, all_names, answers_by_hit, has_families, has_kind, has_years, in_priority_order,
    lists_of, rules_agree, rules_are_ranked_once, rules_have_one_priority_order, table_value,
    value_read,
};
