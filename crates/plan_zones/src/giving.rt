//! The rules that give the answers of a table, by its hit policy.
ghost use Rattle.std.specs.Prelude.{◌≡◌, IfOk, filter, take};
ghost use Rattle.std.specs.Option.{option_copied};
ghost use Rattle.plan_zones.specs.Giving.{answer_value, gives_number, giving};

use feel_tests::{Sequence, Value};
use std::alloc::{AllocError, Global};
use tables::{Answer, Hit, Table, in_priority_order};

/// Returns the rules among the matching ones that give the table's answers, or a part of them.
pub fn giving_rules(
    alloc: Global,
    table: &Table,
    rules: &[usize],
    answers: &[Answer],
) -> Result<Sequence<usize>, AllocError>
    ensures { IfOk result (λ given. given ≡ giving table.now.hit table.now rules.now answers.now) }
{
    match table.hit {
        Hit::P => {
            let ordered = in_priority_order(alloc, table, rules)?;
            first_of(alloc, ordered.as_slice())
        }
        Hit::F => first_of(alloc, rules),
        Hit::Min | Hit::Max => rules_with_number(alloc, table, rules, answers),
        _ => copy_of(alloc, rules),
    }
}

fn first_of(alloc: Global, rules: &[usize]) -> Result<Sequence<usize>, AllocError>
    ensures { IfOk result (λ first. first ≡ take 1 rules.now) }
{
    let mut first = Sequence::new(alloc);
    if let Some(rule) = rules.first() {
        first.push(*rule)?;
    }
    Ok(first)
}

fn copy_of(alloc: Global, rules: &[usize]) -> Result<Sequence<usize>, AllocError>
    ensures { IfOk result (λ copy. copy ≡ rules.now) }
{
    let mut copy = Sequence::with_capacity(alloc, rules.len())?;
    for rule in rules {
        copy.push(*rule)?;
    }
    Ok(copy)
}

// Returns the rules whose number is the answer of the table.
fn rules_with_number(
    alloc: Global,
    table: &Table,
    rules: &[usize],
    answers: &[Answer],
) -> Result<Sequence<usize>, AllocError>
    ensures { IfOk result (λ given. given
        ≡ filter (gives_number table.now answers.now) rules.now) }
{
    let mut given = Sequence::new(alloc);
    for rule in rules {
        if gives_number(table, answers, *rule) {
            given.push(*rule)?;
        }
    }
    Ok(given)
}

fn gives_number(table: &Table, answers: &[Answer], rule: usize) -> bool
    ensures { result ≡ gives_number table.now answers.now rule }
{
    match (table.entries(rule).first(), answer_value(answers)) {
        (Some(entry), Some(answer)) => entry == answer,
        _ => false,
    }
}

fn answer_value(answers: &[Answer]) -> Option<&Value>
    ensures { option_copied result ≡ answer_value answers.now }
{
    match answers.first()? {
        Answer::One(value) => Some(value),
        Answer::Many(_) => None,
    }
}
