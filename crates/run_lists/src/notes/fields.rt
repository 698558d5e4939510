//! What a note shows of a pended claim: the column that is at fault, and the values that a table reads.

use faults::{Reason, Role};
use std::alloc::{AllocError, Global};
use tables::{InputData, Name, Origin, Plan, Roles, Source, Table};

/// The accumulators of a member, and those of its family, which are the last of a plan's names.
const MEMBER_ACCUMULATORS: usize = 3;

const FAMILY_ACCUMULATORS: usize = 2;

/// Returns the names that are columns of a claim file: all but the accumulators.
pub fn columns_of(plan: &Plan) -> &[InputData] {
    let names = plan.names();
    let accumulators = if plan.keeps_families() {
        MEMBER_ACCUMULATORS + FAMILY_ACCUMULATORS
    } else {
        MEMBER_ACCUMULATORS
    };
    let count = names.len().saturating_sub(accumulators);
    names.get(..count).unwrap_or(&[])
}

/// Returns the name of the input or of the role's output for which a claim is pended; it is empty if
/// the reason is in no column.
pub fn column_at_fault(plan: &Plan, reason: Reason) -> &str {
    match reason {
        Reason::Outside { table, column } => match table_at(plan, table) {
            Some(table) => input_name(table, column),
            None => "",
        },
        Reason::Term(role) => match source_of(plan, role) {
            Some(source) => source_name(plan, source),
            None => "",
        },
        Reason::NoRule { .. } | Reason::Clash { .. } | Reason::Range { .. } => "",
    }
}

// Returns the table with this number, from 1. The number 0 means the accumulators.
fn table_at(plan: &Plan, number: usize) -> Option<&Table> {
    plan.tables().get(number.checked_sub(1)?)
}

fn input_name(table: &Table, number: usize) -> &str {
    match table.inputs.as_slice().get(number.saturating_sub(1)) {
        Some(input) => input.name.as_str(),
        None => "",
    }
}

fn source_of(plan: &Plan, role: Role) -> Option<&Source> {
    let roles = plan.roles()?;
    match role {
        Role::Fee => Some(&roles.fee),
        Role::Deductible => Some(&roles.deductible),
        Role::Copay => Some(&roles.copay),
        Role::Rate => Some(&roles.rate),
        Role::OopMax => Some(&roles.oop_max),
        Role::FamilyDeductible => family_source(roles, true),
        Role::FamilyOopMax => family_source(roles, false),
    }
}

fn family_source(roles: &Roles, is_deductible: bool) -> Option<&Source> {
    let family = roles.family.as_ref()?;
    if is_deductible {
        Some(&family.deductible)
    } else {
        Some(&family.oop_max)
    }
}

fn source_name<'p>(plan: &'p Plan, source: &'p Source) -> &'p str {
    match source {
        Source::Literal(_) => "",
        Source::Input(place) => match plan.names().get(*place) {
            Some(named) => named.name.as_str(),
            None => "",
        },
        Source::Output(name) => name.as_str(),
    }
}

/// Says of each column of a claim file whether the value depends on it for which a claim is pended: the
/// table reads it, or an earlier table whose output the table reads.
pub fn columns_read(alloc: Global, plan: &Plan, reason: Reason) -> Result<Vec<bool>, AllocError> {
    let mut read = all_false(alloc, columns_of(plan).len())?;
    mark_reason(alloc, plan, reason, &mut read)?;
    Ok(read)
}

fn mark_reason(
    alloc: Global,
    plan: &Plan,
    reason: Reason,
    read: &mut Vec<bool>,
) -> Result<(), AllocError> {
    match reason {
        Reason::Outside { table, .. } => mark_table(alloc, plan, table, read),
        Reason::NoRule { table } => mark_table(alloc, plan, table, read),
        Reason::Clash { table } => mark_table(alloc, plan, table, read),
        Reason::Range { table } => mark_table(alloc, plan, table, read),
        Reason::Term(role) => mark_role(alloc, plan, role, read),
    }
}

fn all_false(alloc: Global, count: usize) -> Result<Vec<bool>, AllocError> {
    let mut flags = Vec::with_capacity(alloc, count)?;
    for _ in 0..count {
        flags.push(false)?;
    }
    Ok(flags)
}

fn mark_role(
    alloc: Global,
    plan: &Plan,
    role: Role,
    read: &mut Vec<bool>,
) -> Result<(), AllocError> {
    match source_of(plan, role) {
        Some(Source::Input(place)) => {
            mark(read, *place);
            Ok(())
        }
        Some(Source::Output(name)) => mark_output(alloc, plan, name, read),
        Some(Source::Literal(_)) | None => Ok(()),
    }
}

fn mark_output(
    alloc: Global,
    plan: &Plan,
    name: &Name,
    read: &mut Vec<bool>,
) -> Result<(), AllocError> {
    match plan.output_place(name.as_str()) {
        Some(place) => mark_table(alloc, plan, place.table.saturating_add(1), read),
        None => Ok(()),
    }
}

// Marks what the table with this number reads, and the earlier tables that it reads. A table reads
// earlier tables alone, so one walk from the last one to the first one finds all of them.
fn mark_table(
    alloc: Global,
    plan: &Plan,
    number: usize,
    read: &mut Vec<bool>,
) -> Result<(), AllocError> {
    let mut wanted = all_false(alloc, number)?;
    if let Some(last) = number.checked_sub(1) {
        mark(&mut wanted, last);
    }
    for step in 0..number {
        let place = number - 1 - step;
        if wanted.get(place) == Some(&true)
            && let Some(table) = plan.tables().get(place)
        {
            mark_inputs(table, &mut wanted, read);
        }
    }
    Ok(())
}

fn mark_inputs(table: &Table, wanted: &mut Vec<bool>, read: &mut Vec<bool>) {
    for input in table.inputs.as_slice() {
        match input.origin {
            Origin::Given(place) => mark(read, place),
            Origin::Earlier { table, .. } => mark(wanted, table),
        }
    }
}

// An accumulator is no column, and has no place in the list.
fn mark(flags: &mut Vec<bool>, place: usize) {
    if place < flags.len() {
        flags[place] = true;
    }
}
