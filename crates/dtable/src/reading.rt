//! The reader of a plan's text. Faults are searched for in a fixed order, and the first is
//! returned: the length of the text, its document, `version`, `fields`, then each table with its
//! hit policy, inputs, outputs and rules, then `roles`.
//!
//! `document` looks up keys in the TOML, `place` has the location of a fault, `limits` has the
//! limits of a plan, `constraints` has those of a hit policy, and `scope` finds the meaning of a
//! name. `names`, `table_list`, `inputs`, `outputs`, `rules` and `roles` read the keys, and
//! `literals` reads the strings that are cells or literals.
ghost use Rattle.std.specs.Prelude.{◌≡◌, ◌≢◌, ◌≤◌, length, IfOk, IfErr};
ghost use Rattle.toml.specs.View.{view};
ghost use Rattle.tables.specs.Plan.{PlanParts};
ghost use Rattle.dtable.specs.PlanFile.{IsPlanText, IsPlanDocument, IsVersionOf, SpellsOnePlan};
ghost use Rattle.dtable.specs.Reading.{Reads};

mod constraints;
mod document;
mod inputs;
mod limits;
mod literals;
mod names;
mod outputs;
mod place;
mod roles;
mod rules;
mod scope;
mod table_list;

use document::{read_document, required_value};
use faults::{PlanCause, PlanFault};
use feel_tests::{text_spells_at_most_one_cell, text_spells_at_most_one_value};
pub use limits::PLAN_LIMIT_BYTES;
use names::read_names;
use place::FaultLocation;
use roles::read_roles;
use std::alloc::Global;
use table_list::read_tables;
use tables::{Plan, has_families};
use toml::Value;

/// Reads a plan's text: TOML in UTF-8, of at most `PLAN_LIMIT_BYTES` bytes, with the keys of a
/// plan.
///
/// # Errors
///
/// Returns the first fault in the order of the plan's keys, with its table, rule and column. If
/// memory runs out, the cause is `OutOfMemory`.
pub fn read_plan(alloc: Global, text: &[u8]) -> Result<Plan, PlanFault>
    ensures plan { IfOk result (λ plan. IsPlanText text.now plan) }
    ensures refused { IfErr result (λ fault. fault.cause ≢ PlanCause.OutOfMemory
        → (plan : PlanParts) → ¬ IsPlanText text.now plan) }
{
    if text.len() > PLAN_LIMIT_BYTES {
        return Err(FaultLocation::TEXT.fault(PlanCause::Limit));
    }
    let document = read_document(alloc, text)?;
    plan_of(alloc, &document)
}

/// A text denotes at most one plan.
pub fn text_spells_at_most_one_plan()
    ensures { SpellsOnePlan }
{
    // proof: a text denotes at most one cell and at most one value, so it denotes at most one plan
    text_spells_at_most_one_cell();
    text_spells_at_most_one_value();
}

fn plan_of(alloc: Global, document: &Value) -> Result<Plan, PlanFault>
    ensures { Reads (IsPlanDocument (view document.now)) result }
{
    let version = read_version(document)?;
    // proof: a text denotes at most one value, so a refused text denotes none
    text_spells_at_most_one_value();
    let families = has_families(version);
    let names = read_names(alloc, document, families)?;
    let tables = read_tables(alloc, document, names.as_slice())?;
    let roles = read_roles(
        alloc,
        document,
        families,
        names.as_slice(),
        tables.as_slice(),
    )?;
    Ok(Plan::new(version, names, tables, roles))
}

fn read_version(document: &Value) -> Result<u8, PlanFault>
    ensures { Reads (IsVersionOf (view document.now)) result }
{
    let version = required_value(document, "version", FaultLocation::TEXT)?;
    match version.as_integer() {
        Some(1) => Ok(1),
        Some(2) => Ok(2),
        Some(3) => Ok(3),
        Some(_) => Err(FaultLocation::TEXT.fault(PlanCause::Unknown)),
        None => Err(FaultLocation::TEXT.fault(PlanCause::Kind)),
    }
}
