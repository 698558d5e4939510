//! Hit policies that aggregate the matches into one number (DMN 1.4, hit policy Collect with an
//! aggregator).
ghost use Rattle.std.specs.Prelude.{◌≡◌, IfSome};
ghost use Rattle.std.specs.List.{reduce};
ghost use Rattle.std.specs.Option.{SomeIff, ForSome};
ghost use Rattle.fixpoint.specs.Number.{IsInRange};
ghost use Rattle.tables.specs.HitPolicy.{Gives, combine, join_of, IsFarFromOverflow, aggregate_value, number_answer, number_in, numbers_of, match_count, units_of};

use super::single;
use crate::environment::Answer;
use crate::table::Table;
use faults::Fault;
use feel_tests::{Sequence, Value};
use fixpoint::{Fixed, UNITS_PER_ONE};
use std::alloc::Global;

/// An aggregator of several numbers.
#[derive(Clone, Copy)]
pub enum Aggregator {
    Sum,
    Min,
    Max,
}

/// Applies `C+`, `C<` or `C>`: the sum, the least or the greatest number. Partial sums may exceed
/// the range of numbers; only the final sum must be in range.
pub fn aggregate(
    alloc: Global,
    number: usize,
    table: &Table,
    rules: &[usize],
    aggregator: Aggregator,
) -> Result<Sequence<Answer>, Fault>
    ensures { Gives (aggregate_value number table.now
        (reduce (join_of aggregator) (numbers_of table.now rules.now))) result }
{
    match aggregate_of(table, rules, aggregator) {
        Some(units) => number_answer(alloc, number, units),
        None => single::no_match_value(alloc, number, table),
    }
}

/// Applies `C#`: the number of matching rules.
pub fn match_count(
    alloc: Global,
    number: usize,
    table: &Table,
    rules: &[usize],
) -> Result<Sequence<Answer>, Fault>
    ensures { Gives (match_count number table.now rules.now) result }
{
    if rules.is_empty() {
        return single::no_match_value(alloc, number, table);
    }
    number_answer(alloc, number, rules.len() as i128 * UNITS_PER_ONE as i128)
}

// Returns the number with these units as the only answer, or a `Range` fault if it is out of range.
fn number_answer(alloc: Global, number: usize, units: i128) -> Result<Sequence<Answer>, Fault>
    ensures { Gives (number_answer number units) result }
{
    match fixed_of_units(units) {
        Some(value) => {
            let mut answers = Sequence::new(alloc);
            answers.push(Answer::One(Value::Number(value)))?;
            Ok(answers)
        }
        None => Err(Fault::Range { table: number }),
    }
}

fn fixed_of_units(units: i128) -> Option<Fixed>
    ensures { SomeIff result (IsInRange units) units }
{
    match i64::try_from(units) {
        Ok(units) => Fixed::from_units(units),
        Err(_) => None,
    }
}

fn aggregate_of(table: &Table, rules: &[usize], aggregator: Aggregator) -> Option<i128>
    ensures { result ≡ reduce (join_of aggregator) (numbers_of table.now rules.now) }
{
    let mut so_far = None;
    for rule in rules {
        so_far = combine(so_far, number_in(table, *rule), aggregator);
    }
    so_far
}

fn combine(so_far: Option<i128>, units: Option<i64>, aggregator: Aggregator) -> Option<i128>
    requires { ForSome so_far IsFarFromOverflow }
    ensures { result ≡ combine (join_of aggregator) so_far units }
{
    match (so_far, units) {
        (Some(so_far), Some(units)) => Some(join(so_far, units, aggregator)),
        (None, Some(units)) => Some(i128::from(units)),
        (so_far, None) => so_far,
    }
}

fn join(so_far: i128, units: i64, aggregator: Aggregator) -> i128
    requires { IsFarFromOverflow so_far }
    ensures { result ≡ join_of aggregator so_far units }
{
    match aggregator {
        Aggregator::Sum => so_far + i128::from(units),
        Aggregator::Min => so_far.min(i128::from(units)),
        Aggregator::Max => so_far.max(i128::from(units)),
    }
}

fn number_in(table: &Table, rule: usize) -> Option<i64>
    ensures value { result ≡ number_in table.now rule }
    ensures in_range { IfSome result IsInRange }
{
    match table.entry(rule, 0)? {
        Value::Number(number) => Some(number.units()),
        _ => None,
    }
}
