//! The names and the roles of a plan: where each comes from, and what uses it.

use crate::page::Page;
use crate::sheet::Sheet;
use crate::words::{kind_word, role_meaning};
use faults::RoleKey;
use feel_tests::Kind;
use std::alloc::Global;
use tables::{InputData, Plan, Roles, Source, Table};

/// The number of roles that a plan may have.
const ROLES: usize = 9;

/// Returns the names that a claim file gives: all but the accumulators, which come last.
pub fn claim_names(plan: &Plan) -> &[InputData] {
    let accumulators = if plan.keeps_families() { 5 } else { 3 };
    let names = plan.names();
    let count = names.len().saturating_sub(accumulators);
    names.get(..count).unwrap_or(&[])
}

/// Returns the names of a plan with their kinds, where they come from, and what uses them.
pub fn names_sheet(alloc: Global, plan: &Plan) -> Sheet {
    let mut sheet = Sheet::new(alloc, 4, 1, 0);
    sheet.add("name");
    sheet.add("kind");
    sheet.add("comes from");
    sheet.add("used by");
    for data in plan.names() {
        add_name(&mut sheet, plan, data.name.as_str(), kind_word(data.kind));
    }
    for table in plan.tables() {
        add_outputs(&mut sheet, plan, table);
    }
    sheet
}

fn add_outputs(sheet: &mut Sheet, plan: &Plan, table: &Table) {
    for output in table.outputs.as_slice() {
        let kind = kind_words(table, output.kind);
        add_name(sheet, plan, output.name.as_str(), kind);
    }
}

/// Returns the words for the kind of an output: a table whose hit policy lists its matches has a list.
pub fn kind_words(table: &Table, kind: Kind) -> &'static str {
    if table.hit.gives_one() {
        return kind_word(table.hit.read_kind_of(kind));
    }
    match kind {
        Kind::Number => "list of numbers",
        Kind::Text => "list of texts",
        Kind::Flag => "list of flags",
        Kind::Day => "list of days",
    }
}

fn add_name(sheet: &mut Sheet, plan: &Plan, name: &str, kind: &str) {
    sheet.add(name);
    sheet.add(kind);
    put_origin(sheet.next(), plan, name);
    sheet.close();
    put_uses(sheet.next(), plan, name);
    sheet.close();
}

/// Writes where the value of a name comes from.
fn put_origin(page: &mut Page, plan: &Plan, name: &str) {
    if has_name(claim_names(plan), name) {
        return page.put("claim file");
    }
    if has_name(plan.names(), name) {
        return page.put("balances");
    }
    for (place, table) in plan.tables().iter().enumerate() {
        let inputs = table.inputs.len();
        for (column, output) in table.outputs.iter().enumerate() {
            if output.name.as_str() == name {
                put_column(page, place, inputs.saturating_add(column));
            }
        }
    }
}

fn has_name(names: &[InputData], name: &str) -> bool {
    for data in names {
        if data.name.as_str() == name {
            return true;
        }
    }
    false
}

/// Writes the place of a column of a table, by indices from 0.
fn put_column(page: &mut Page, table: usize, column: usize) {
    page.put("table ");
    page.put_number(table.saturating_add(1));
    page.put(" column ");
    page.put_number(column.saturating_add(1));
}

/// Writes the columns and roles that use a name.
fn put_uses(page: &mut Page, plan: &Plan, name: &str) {
    let mut count = 0usize;
    for (place, table) in plan.tables().iter().enumerate() {
        count = put_table_uses(page, place, table, name, count);
    }
    if let Some(roles) = plan.roles() {
        count = put_role_uses(page, plan, roles, name, count);
    }
    if count == 0 {
        page.put("-");
    }
}

/// Writes the inputs of a table that read a name, after this number of uses, and returns the number of uses then.
fn put_table_uses(
    page: &mut Page,
    place: usize,
    table: &Table,
    name: &str,
    before: usize,
) -> usize {
    let mut count = before;
    for (column, input) in table.inputs.iter().enumerate() {
        if input.name.as_str() == name {
            page.put(mark_after(count));
            put_column(page, place, column);
            count = count.saturating_add(1);
        }
    }
    count
}

/// Writes the roles that are a name, after this number of uses, and returns the number of uses then.
fn put_role_uses(page: &mut Page, plan: &Plan, roles: &Roles, name: &str, before: usize) -> usize {
    let mut count = before;
    for number in 1..=ROLES {
        if let Some(role) = RoleKey::with_number(number)
            && role_name(plan, roles, role) == Some(name)
        {
            page.put(mark_after(count));
            page.put("role ");
            page.put(role.key());
            count = count.saturating_add(1);
        }
    }
    count
}

/// Returns what parts a use from those before it.
fn mark_after(count: usize) -> &'static str {
    if count > 0 { ", " } else { "" }
}

/// Returns the name whose value a role has, unless the role is a literal.
pub fn role_name<'p>(plan: &'p Plan, roles: &'p Roles, role: RoleKey) -> Option<&'p str> {
    match role_source(roles, role) {
        Some(Source::Literal(_)) => None,
        Some(Source::Input(place)) => match plan.names().get(*place) {
            Some(data) => Some(data.name.as_str()),
            None => None,
        },
        Some(Source::Output(name)) => Some(name.as_str()),
        None => remarks_name(roles, role),
    }
}

fn remarks_name(roles: &Roles, role: RoleKey) -> Option<&str> {
    match (&roles.remarks, role) {
        (Some(name), RoleKey::Remarks) => Some(name.as_str()),
        _ => None,
    }
}

/// Returns the source of a role. The remarks are a name without one.
pub fn role_source(roles: &Roles, role: RoleKey) -> Option<&Source> {
    match role {
        RoleKey::Cover => Some(&roles.cover),
        RoleKey::Fee => Some(&roles.fee),
        RoleKey::Deductible => Some(&roles.deductible),
        RoleKey::Copay => Some(&roles.copay),
        RoleKey::Rate => Some(&roles.rate),
        RoleKey::OopMax => Some(&roles.oop_max),
        RoleKey::Remarks => None,
        RoleKey::FamilyDeductible => match &roles.family {
            Some(family) => Some(&family.deductible),
            None => None,
        },
        RoleKey::FamilyOopMax => match &roles.family {
            Some(family) => Some(&family.oop_max),
            None => None,
        },
    }
}

/// Returns the roles of a plan with their values. It has no rows but the heading if the plan has no roles.
pub fn roles_sheet(alloc: Global, plan: &Plan) -> Sheet {
    let mut sheet = Sheet::new(alloc, 4, 1, 0);
    sheet.add("role");
    sheet.add("value");
    sheet.add("comes from");
    sheet.add("what it is");
    if let Some(roles) = plan.roles() {
        for number in 1..=ROLES {
            if let Some(role) = RoleKey::with_number(number) {
                add_role(&mut sheet, plan, roles, role);
            }
        }
    }
    sheet
}

fn add_role(sheet: &mut Sheet, plan: &Plan, roles: &Roles, role: RoleKey) {
    if let Some(name) = role_name(plan, roles, role) {
        sheet.add(role.key());
        sheet.add(name);
        put_origin(sheet.next(), plan, name);
        sheet.close();
        sheet.add(role_meaning(role));
    } else if let Some(Source::Literal(value)) = role_source(roles, role) {
        sheet.add(role.key());
        sheet.next().put_value(value);
        sheet.close();
        sheet.add("literal");
        sheet.add(role_meaning(role));
    }
}
