//! The constraints of a hit policy on a table's outputs, and of a priority list on the entries of
//! rules.
ghost use Rattle.std.specs.Prelude.{◌≡◌, is_some};
ghost use Rattle.std.specs.List.{list_all, list_any};
ghost use Rattle.feel_tests.specs.Holds.{is_equal};
ghost use Rattle.feel_tests.specs.declared.kind.Kind.TheVariants as kinds;
ghost use Rattle.tables.specs.Plan.{same_kind, is_ranked, satisfies_constraints};

use feel_tests::{Kind, Sequence, Value};
use tables::{Hit, Output};

/// Returns whether the outputs satisfy the constraints of the hit policy.
pub fn satisfies_constraints(hit: Hit, outputs: &[Output]) -> bool
    ensures { result ≡ satisfies_constraints hit outputs.now }
{
    match hit {
        Hit::P | Hit::O => are_ranked(outputs),
        Hit::Sum | Hit::Min | Hit::Max => outputs.len() == 1 && are_numbers(outputs),
        Hit::Count => outputs.len() == 1,
        _ => true,
    }
}

fn are_ranked(outputs: &[Output]) -> bool
    ensures { result ≡ list_any (λ o. is_some o.priority) outputs.now }
{
    for output in outputs {
        if output.priority.is_some() {
            return true;
        }
    }
    false
}

fn are_numbers(outputs: &[Output]) -> bool
    ensures { result ≡ list_all (λ o. same_kind o.kind kinds.Number) outputs.now }
{
    for output in outputs {
        if !is_number(output.kind) {
            return false;
        }
    }
    true
}

fn is_number(kind: Kind) -> bool
    ensures { result ≡ same_kind kind kinds.Number }
{
    matches!(kind, Kind::Number)
}

/// Returns whether the entry is in the priority list; without a list, every entry is.
pub fn is_ranked(priority: &Option<Sequence<Value>>, entry: &Value) -> bool
    ensures { result ≡ is_ranked priority.now entry.now }
{
    match priority {
        Some(list) => is_listed(list.as_slice(), entry),
        None => true,
    }
}

/// Returns whether the entry is in the list.
pub fn is_listed(list: &[Value], entry: &Value) -> bool
    ensures { result ≡ list_any (λ listed. is_equal listed entry.now) list.now }
{
    list.contains(entry)
}
