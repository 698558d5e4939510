//! The gaps and overlaps of a table that violate its hit policy.
ghost use Rattle.std.specs.Prelude.{◌≡◌, ℕ, is_some};
ghost use Rattle.std.specs.List.{list_all};
ghost use Rattle.cutplan.specs.Numbered.{IsTableNumber};
ghost use Rattle.cutplan.specs.Violations.{clash, gap_is_error, overlap_is_error, needs_match};

use tables::{Hit, Output, Plan, Table, rules_agree};

/// Returns whether the gaps of a table are errors: if no rule matches, the table has a `NoRule`
/// fault. This is so if its hit policy lists no matches and some output has no default. Tables are
/// numbered from 1.
pub fn gap_is_error(plan: &Plan, table: usize) -> bool
    requires { IsTableNumber plan.now table }
    ensures { result ≡ gap_is_error plan.now table }
{
    needs_match(&plan.tables()[table - 1])
}

/// Returns whether an overlap of two rules of a table is an error: if both rules match, the table
/// has a `Clash` fault. Under hit policy `U` every overlap is an error, under `A` an overlap of
/// rules with different output entries, and under all others none. Tables and rules are numbered
/// from 1.
pub fn overlap_is_error(plan: &Plan, table: usize, first: usize, second: usize) -> bool
    requires { IsTableNumber plan.now table }
    ensures { result ≡ overlap_is_error plan.now table first second }
{
    let table = &plan.tables()[table - 1];
    clash(table, first.saturating_sub(1), second.saturating_sub(1))
}

// Returns whether the table has a `NoRule` fault if no rule matches.
fn needs_match(table: &Table) -> bool
    ensures { (number : ℕ) → result ≡ needs_match number table.now }
{
    table.hit.gives_one() && !have_defaults(table.outputs.as_slice())
}

fn have_defaults(outputs: &[Output]) -> bool
    ensures { result ≡ list_all (λ o. is_some o.fallback) outputs.now }
{
    outputs.iter().all(|output| output.fallback.is_some())
}

// Returns whether the hit policy forbids that both rules match. Rules are numbered from 0.
fn clash(table: &Table, rule: usize, other: usize) -> bool
    ensures { result ≡ clash table.now.hit table.now rule other }
{
    match table.hit {
        Hit::U => true,
        Hit::A => !rules_agree(table, rule, &[other]),
        _ => false,
    }
}
