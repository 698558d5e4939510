//! Decision tables of DMN 1.4: what a plan is, the eleven hit policies, and chains of tables.
//!
//! A `Plan` names the input data of a claim and has `Table`s in order of evaluation. `Inputs` takes
//! a value for each name that a table reads. `Plan::value` evaluates the tables and returns an
//! `Env`, which has the answer of each output by its name, or the first `Fault`. `Valuer` is the
//! contract of every evaluator of a plan, and `InputClasses` that of an evaluator with classes of
//! inputs. Cells and values come from `feel_tests`, faults and the names of columns from `faults`,
//! numbers from `fixpoint`, and the list of the tables' answers from `smallvec`. `dtable` reads
//! plans from texts.
//!
//! Begin with `specs/Plan.antt`, which states what holds for every plan, and go on with
//! `specs/Matching.antt`, `specs/HitPolicy.antt` and `specs/Environment.antt`, which define the
//! value of the tables. Then read `valuer.rt`, which has the contract of `value`, and the files of
//! `evaluation/`, one for each group of hit policies.
#![tactic(auto)]

mod answers;
mod environment;
mod evaluation;
mod hit;
mod input_classes;
mod inputs;
mod kinds;
mod name;
mod output_place;
mod plan;
mod roles;
mod table;
mod valuer;

pub use answers::{Answers, AnswersByTable};
pub use environment::{Answer, Env};
pub use evaluation::matching::value_read;
pub use evaluation::{
    answers_by_hit, in_priority_order, lists_of, rules_agree, rules_are_ranked_once,
    rules_have_one_priority_order, table_value,
};
pub use faults::Fault;
pub use feel_tests::Sequence;
pub use hit::Hit;
pub use input_classes::InputClasses;
pub use inputs::{Inputs, Slot};
pub use kinds::has_kind;
pub use name::{NAME_LIMIT_BYTES, Name};
pub use output_place::OutputPlace;
pub use plan::{Plan, all_names, has_families, has_years};
pub use roles::{FamilyRoles, Roles, Source};
pub use table::{Input, InputData, Origin, Output, Rule, Table};
pub use valuer::Valuer;
