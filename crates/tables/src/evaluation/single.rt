//! Hit policies that give each output one value (DMN 1.4, hit policies Unique, Any, Priority and
//! First).
ghost use Rattle.std.specs.Prelude.{◌≡◌, ◌++◌, IfOk, OnOk, is_some};
ghost use Rattle.std.specs.List.{list_all};
ghost use Rattle.std.specs.Option.{option_to_list};
ghost use Rattle.tables.specs.HitPolicy.{Gives, ones, no_match_value, unique, agree, any, of_rule};

use crate::environment::Answer;
use crate::table::{Output, Table};
use faults::Fault;
use feel_tests::{Sequence, Value};
use std::alloc::{AllocError, Global};

/// Returns the answers if no rule matches: the defaults, or a `NoRule` fault if an output has no
/// default.
pub fn no_match_value(
    alloc: Global,
    number: usize,
    table: &Table,
) -> Result<Sequence<Answer>, Fault>
    ensures { Gives (no_match_value number table.now) result }
{
    let outputs = table.outputs.as_slice();
    if !have_defaults(outputs) {
        return Err(Fault::NoRule { table: number });
    }
    let mut answers = Sequence::new(alloc);
    for output in outputs {
        push_default(alloc, output, &mut answers)?;
    }
    Ok(answers)
}

fn push_default(
    alloc: Global,
    output: &Output,
    answers: &mut Sequence<Answer>,
) -> Result<(), AllocError>
    ensures { OnOk result (answers.new ≡ answers.old ++ ones (option_to_list output.now.fallback)) }
{
    match &output.fallback {
        Some(value) => answers.push(Answer::One(value.duplicate(alloc)?)),
        None => Ok(()),
    }
}

fn have_defaults(outputs: &[Output]) -> bool
    ensures { result ≡ list_all (λ o. is_some o.fallback) outputs.now }
{
    for output in outputs {
        if output.fallback.is_none() {
            return false;
        }
    }
    true
}

/// Applies Unique: the entries of the only match.
pub fn unique(
    alloc: Global,
    number: usize,
    table: &Table,
    rules: &[usize],
) -> Result<Sequence<Answer>, Fault>
    ensures { Gives (unique number table.now rules.now) result }
{
    match rules {
        [] => no_match_value(alloc, number, table),
        [rule] => Ok(ones(alloc, table.entries(*rule))?),
        _ => Err(Fault::Clash { table: number }),
    }
}

/// Applies Any: the entries of the matches if they all agree.
pub fn any(
    alloc: Global,
    number: usize,
    table: &Table,
    rules: &[usize],
) -> Result<Sequence<Answer>, Fault>
    ensures { Gives (any number table.now rules.now) result }
{
    match rules {
        [] => no_match_value(alloc, number, table),
        [rule, others @ ..] => {
            if rules_agree(table, *rule, others) {
                Ok(ones(alloc, table.entries(*rule))?)
            } else {
                Err(Fault::Clash { table: number })
            }
        }
    }
}

/// Returns whether the other rules have the same entries as `rule`.
pub fn rules_agree(table: &Table, rule: usize, others: &[usize]) -> bool
    ensures { result ≡ list_all (agree table.now rule) others.now }
{
    for other in others {
        if !agree(table, rule, *other) {
            return false;
        }
    }
    true
}

fn agree(table: &Table, rule: usize, other: usize) -> bool
    ensures { result ≡ agree table.now rule other }
{
    table.entries(rule) == table.entries(other)
}

/// Returns the entries of one rule. `None` means that no rule matches.
pub fn of_rule(
    alloc: Global,
    number: usize,
    table: &Table,
    rule: Option<usize>,
) -> Result<Sequence<Answer>, Fault>
    ensures { Gives (of_rule number table.now rule) result }
{
    match rule {
        Some(rule) => Ok(ones(alloc, table.entries(rule))?),
        None => no_match_value(alloc, number, table),
    }
}

fn ones(alloc: Global, values: &[Value]) -> Result<Sequence<Answer>, AllocError>
    ensures { IfOk result (λ answers. answers ≡ ones values.now) }
{
    let mut answers = Sequence::new(alloc);
    for value in values {
        answers.push(Answer::One(value.duplicate(alloc)?))?;
    }
    Ok(answers)
}
