//! The precomputed answers of a plan's tables. An evaluation borrows them and makes none of its
//! own.
ghost use Rattle.std.specs.Prelude.{◌≡◌, ◌≤◌, ◌∷◌, [], ℕ, Ok, IfOk, IfSome, find, length, map};
ghost use Rattle.std.specs.List.{range_with_len};
ghost use Rattle.tables.specs.HitPolicy.{by_hit};
ghost use Rattle.tables.specs.Priority.{all_ranked, in_priority_order};
ghost use Rattle.cutplan.specs.CompiledAnswers.{answers_of_rules, is_in_mask, compiled_answers, ranked_rules};
ghost use Rattle.cutplan.specs.Masks.{has_rule, rules_in};
ghost use Rattle.cutplan.specs.declared.mask.TheConstants.{MASK_CAPACITY};

use crate::mask::{MASK_CAPACITY, RuleMask};
use std::alloc::{AllocError, Global};
use tables::{
    Answer, Fault, Hit, Sequence, Table, answers_by_hit, in_priority_order, rules_agree,
    rules_are_ranked_once,
};

/// The precomputed answers of a table. An entry is `None` if the table has a fault instead of
/// answers.
pub struct CompiledAnswers {
    /// The answers if no rule matches.
    pub unmatched: Option<Sequence<Answer>>,
    /// For each rule, the answers if it is the only match.
    pub alone: Sequence<Option<Sequence<Answer>>>,
    /// All rules in decreasing priority if the hit policy ranks rules, and no rules otherwise.
    pub order: Sequence<usize>,
}

impl Drop for CompiledAnswers {
    fn drop(self) {
        let CompiledAnswers {
            unmatched: _,
            alone: _,
            order: _,
        } = self;
    }
}

/// Computes the answers of these tables, in order.
pub fn answers_of_tables(
    alloc: Global,
    tables: &[Table],
) -> Result<Sequence<CompiledAnswers>, AllocError>
    ensures { IfOk result (λ kept. kept ≡ map compiled_answers tables.now) }
{
    let mut all = Sequence::new(alloc);
    for table in tables {
        all.push(compiled_answers(alloc, table)?)?;
    }
    Ok(all)
}

fn compiled_answers(alloc: Global, table: &Table) -> Result<CompiledAnswers, AllocError>
    ensures { IfOk result (λ kept. kept ≡ compiled_answers table.now) }
{
    Ok(CompiledAnswers {
        unmatched: answers_of_rules(alloc, table, &[])?,
        alone: answers_alone(alloc, table)?,
        order: ranked_rules(alloc, table)?,
    })
}

// Returns, for each rule, the answers if it is the only match.
fn answers_alone(
    alloc: Global,
    table: &Table,
) -> Result<Sequence<Option<Sequence<Answer>>>, AllocError>
    ensures { IfOk result (λ alone. alone ≡ map (λ rule. answers_of_rules table.now (rule ∷ []))
        (range_with_len 0 (length table.now.rules))) }
{
    let mut alone = Sequence::new(alloc);
    for rule in 0..table.rules.len() {
        alone.push(answers_of_rules(alloc, table, &[rule])?)?;
    }
    Ok(alone)
}

// Returns the answers of the table for these matching rules, or `None` if it has a fault. Only
// faults contain the number of a table, so the call passes an arbitrary one.
fn answers_of_rules(
    alloc: Global,
    table: &Table,
    rules: &[usize],
) -> Result<Option<Sequence<Answer>>, AllocError>
    ensures { IfOk result (λ found. found ≡ answers_of_rules table.now rules.now) }
{
    match answers_by_hit(alloc, 1, table, rules) {
        Ok(answers) => Ok(Some(answers)),
        Err(Fault::OutOfMemory) => Err(AllocError),
        Err(Fault::Outside { .. }) => Ok(None),
        Err(Fault::NoRule { .. }) => Ok(None),
        Err(Fault::Clash { .. }) => Ok(None),
        Err(Fault::Range { .. }) => Ok(None),
    }
}

// Returns all rules in decreasing priority, or no rules if the hit policy does not rank them.
fn ranked_rules(alloc: Global, table: &Table) -> Result<Sequence<usize>, AllocError>
    ensures { IfOk result (λ order. order ≡ ranked_rules table.now) }
{
    match table.hit {
        Hit::P => all_ranked(alloc, table),
        Hit::O => all_ranked(alloc, table),
        _ => Ok(Sequence::new(alloc)),
    }
}

fn all_ranked(alloc: Global, table: &Table) -> Result<Sequence<usize>, AllocError>
    ensures { IfOk result (λ order. order ≡ all_ranked table.now) }
{
    let mut all = Sequence::new(alloc);
    for rule in 0..table.rules.len() {
        all.push(rule)?;
    }
    in_priority_order(alloc, table, all.as_slice())
}

/// Returns the precomputed answers of the table for the matching rules, if there are such answers.
/// `rules` are the rules of the mask. The answers do not depend on the number of the table, because
/// only faults contain it.
pub fn find_answers<'k>(
    table: &Table,
    kept: &'k CompiledAnswers,
    mask: &RuleMask,
    rules: &[usize],
) -> Option<&'k [Answer]>
    requires kept { kept.now ≡ compiled_answers table.now }
    requires few { length table.now.rules ≤ MASK_CAPACITY }
    requires rules { rules.now ≡ rules_in (length table.now.rules) mask.now }
    ensures { IfSome result (λ answers. (number : ℕ)
        → by_hit table.now.hit number table.now rules.now ≡ Ok answers.now) }
{
    let found = if rules.is_empty() {
        &kept.unmatched
    } else {
        let rule = deciding_rule(table, kept.order.as_slice(), mask, rules)?;
        kept.alone.as_slice().get(rule)?
    };
    match found {
        Some(answers) => Some(answers.as_slice()),
        None => None,
    }
}

// Returns a rule that alone gives the same answers as all the matching rules, if there is one: the
// only match, the first match under First, the highest match under Priority, or any match under Any
// if all matches agree. `order` is the ranking of all rules of the table.
fn deciding_rule(table: &Table, order: &[usize], mask: &RuleMask, rules: &[usize]) -> Option<usize>
    requires order { order.now ≡ ranked_rules table.now }
    requires few { length table.now.rules ≤ MASK_CAPACITY }
    requires rules { rules.now ≡ rules_in (length table.now.rules) mask.now }
    ensures { IfSome result (λ rule. (number : ℕ)
        → by_hit table.now.hit number table.now rules.now
        ≡ by_hit table.now.hit number table.now (rule ∷ [])) }
{
    // proof: the ranking of all rules, restricted to the mask, is the ranking of the mask's rules
    rules_are_ranked_once();
    match rules {
        [] => None,
        [rule] => Some(*rule),
        [rule, others @ ..] => match table.hit {
            Hit::F => Some(*rule),
            Hit::P => first_in(order, mask),
            Hit::A => {
                if rules_agree(table, *rule, others) {
                    Some(*rule)
                } else {
                    None
                }
            }
            _ => None,
        },
    }
}

// Returns the first rule in `order` that is in the mask.
fn first_in(order: &[usize], mask: &RuleMask) -> Option<usize>
    ensures { result ≡ find (is_in_mask mask.now) order.now }
{
    for rule in order {
        if is_in_mask(mask, *rule) {
            return Some(*rule);
        }
    }
    None
}

/// Returns the rules of the mask in decreasing priority. `order` is the ranking of all rules of the
/// table.
pub fn ranked_in(
    alloc: Global,
    table: &Table,
    order: &[usize],
    mask: &RuleMask,
) -> Result<Sequence<usize>, AllocError>
    requires ranked { order.now ≡ all_ranked table.now }
    requires few { length table.now.rules ≤ MASK_CAPACITY }
    ensures { IfOk result (λ ranked. ranked
        ≡ in_priority_order table.now (rules_in (length table.now.rules) mask.now)) }
{
    // proof: the ranking of all rules, restricted to the mask, is the ranking of the mask's rules
    rules_are_ranked_once();
    let mut ranked = Sequence::new(alloc);
    for rule in order {
        if is_in_mask(mask, *rule) {
            ranked.push(*rule)?;
        }
    }
    Ok(ranked)
}

fn is_in_mask(mask: &RuleMask, rule: usize) -> bool
    ensures { result ≡ is_in_mask mask.now rule }
{
    rule < MASK_CAPACITY && mask.has(rule)
}
