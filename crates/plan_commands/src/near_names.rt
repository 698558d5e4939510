//! Names of a plan that are near to a given one.

use diagnostics::is_one_edit;
use dtable::{PlanCause, read_plan};
use plan_rows::FAULT;
use std::alloc::{AllocError, Global};
use tables::Plan;

/// Reads a plan again, for a report on it; `None` if its text is no plan.
pub fn plan_again(alloc: Global, text: &[u8]) -> Result<Option<Plan>, AllocError> {
    match read_plan(alloc, text) {
        Ok(plan) => Ok(Some(plan)),
        Err(fault) => match fault.cause {
            PlanCause::OutOfMemory => Err(AllocError),
            _ => Ok(None),
        },
    }
}

/// Asks whether a similar name of the plan was meant, of those that a column of tests can have, if there is one.
pub fn push_near(
    alloc: Global,
    line: &mut String,
    plan: &[u8],
    name: &str,
) -> Result<(), AllocError> {
    match plan_again(alloc, plan)? {
        Some(plan) => {
            let done = push_question(line, near_name(&plan, name));
            drop(plan);
            done
        }
        None => Ok(()),
    }
}

/// Asks whether a similar name was meant, of those that the plan is given, if there is one.
pub fn push_near_input(
    alloc: Global,
    line: &mut String,
    plan: &[u8],
    name: &str,
) -> Result<(), AllocError> {
    match plan_again(alloc, plan)? {
        Some(plan) => {
            let done = push_question(line, near_input(&plan, name));
            drop(plan);
            done
        }
        None => Ok(()),
    }
}

fn push_question(line: &mut String, near: Option<&str>) -> Result<(), AllocError> {
    match near {
        Some(name) => {
            line.push_str("; did you mean `")?;
            line.push_str(name)?;
            line.push_str("`?")
        }
        None => Ok(()),
    }
}

// The first name of a column that is near to the given one.
fn near_name<'p>(plan: &'p Plan, name: &str) -> Option<&'p str> {
    if let Some(near) = near_input(plan, name) {
        return Some(near);
    }
    for table in plan.tables() {
        for output in table.outputs.as_slice() {
            if is_near(output.name.as_str(), name) {
                return Some(output.name.as_str());
            }
        }
    }
    if is_near(FAULT, name) {
        return Some(FAULT);
    }
    None
}

// The first name that the plan is given and that is near to the given one.
fn near_input<'p>(plan: &'p Plan, name: &str) -> Option<&'p str> {
    for input in plan.names() {
        if is_near(input.name.as_str(), name) {
            return Some(input.name.as_str());
        }
    }
    None
}

// Whether two names differ in case, in spaces round the second, or by one edit. Any two names of one byte are one edit apart.
fn is_near(known: &str, name: &str) -> bool {
    let is_longer = known.len() > 1 || name.len() > 1;
    name.trim().eq_ignore_ascii_case(known)
        || (is_longer && is_one_edit(known.as_bytes(), name.as_bytes()))
}
