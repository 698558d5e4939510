//! The rules of a plan and the tests of their cells, by where they are.
ghost use Rattle.std.specs.Prelude.{◌≡◌, ◌++◌, IfOk, OnOk, flat_map, length, map};
ghost use Rattle.std.specs.List.{range_with_len};
ghost use Rattle.std.specs.Option.{option_copied};
ghost use Rattle.plan_zones.specs.RulePlaces.{all_rules, cell_count, rule_at, rule_count, rule_in, rule_tests, test_in, tests_at, tests_of};

use feel_tests::{Cell, Sequence, Test};
use std::alloc::{AllocError, Global};
use tables::{Rule, Table};

/// A rule of a plan. Tables and rules are numbered from 0.
#[derive(Clone, Copy)]
pub struct RulePlace {
    pub table: usize,
    pub rule: usize,
}

/// A test of a rule's cell. Tables, rules, columns and the tests of a cell are numbered from 0.
#[derive(Clone, Copy)]
pub struct TestPlace {
    pub rule: RulePlace,
    pub column: usize,
    pub test: usize,
}

/// Returns all rules of these tables, in order.
pub fn all_rules(alloc: Global, tables: &[Table]) -> Result<Sequence<RulePlace>, AllocError>
    ensures { IfOk result (λ rules. rules ≡ all_rules tables.now) }
{
    let mut rules = Sequence::new(alloc);
    for table in 0..tables.len() {
        push_rules(&mut rules, table, rule_count(tables, table))?;
    }
    Ok(rules)
}

fn push_rules(rules: &mut Sequence<RulePlace>, table: usize, count: usize) -> Result<(), AllocError>
    ensures { OnOk result (rules.new ≡ rules.old ++ map (rule_at table) (range_with_len 0 count)) }
{
    for rule in 0..count {
        rules.push(RulePlace { table, rule })?;
    }
    Ok(())
}

fn rule_count(tables: &[Table], table: usize) -> usize
    ensures { result ≡ rule_count tables.now table }
{
    match tables.get(table) {
        Some(table) => table.rules.len(),
        None => 0,
    }
}

/// Returns the tests of the cells of these rules, in order.
pub fn tests_of_rules(
    alloc: Global,
    tables: &[Table],
    rules: &[RulePlace],
) -> Result<Sequence<TestPlace>, AllocError>
    ensures { IfOk result (λ tests. tests ≡ flat_map (rule_tests tables.now) rules.now) }
{
    let mut tests = Sequence::new(alloc);
    for rule in rules {
        push_rule_tests(&mut tests, tables, *rule)?;
    }
    Ok(tests)
}

fn push_rule_tests(
    tests: &mut Sequence<TestPlace>,
    tables: &[Table],
    rule: RulePlace,
) -> Result<(), AllocError>
    ensures { OnOk result (tests.new ≡ tests.old ++ rule_tests tables.now rule) }
{
    for column in 0..cell_count(tables, rule) {
        push_cell_tests(tests, rule, column, test_count(tables, rule, column))?;
    }
    Ok(())
}

fn push_cell_tests(
    tests: &mut Sequence<TestPlace>,
    rule: RulePlace,
    column: usize,
    count: usize,
) -> Result<(), AllocError>
    ensures { OnOk result (tests.new
        ≡ tests.old ++ map (test_in rule column) (range_with_len 0 count)) }
{
    for test in 0..count {
        tests.push(TestPlace { rule, column, test })?;
    }
    Ok(())
}

fn test_count(tables: &[Table], rule: RulePlace, column: usize) -> usize
    ensures { result ≡ length (tests_at tables.now rule column) }
{
    tests_at(tables, rule, column).len()
}

fn cell_count(tables: &[Table], place: RulePlace) -> usize
    ensures { result ≡ cell_count tables.now place }
{
    match rule_in(tables, place) {
        Some(rule) => rule.cells.len(),
        None => 0,
    }
}

/// Returns the tests of a rule's cell in a column, in the order of its text.
pub fn tests_at(tables: &[Table], place: RulePlace, column: usize) -> &[Test]
    ensures { result.now ≡ tests_at tables.now place column }
{
    match rule_in(tables, place) {
        Some(rule) => match rule.cells.as_slice().get(column) {
            Some(cell) => tests_of(cell),
            None => &[],
        },
        None => &[],
    }
}

fn rule_in(tables: &[Table], place: RulePlace) -> Option<&Rule>
    ensures { option_copied result ≡ rule_in tables.now place }
{
    let table = tables.get(place.table)?;
    table.rules.as_slice().get(place.rule)
}

fn tests_of(cell: &Cell) -> &[Test]
    ensures { result.now ≡ tests_of cell.now }
{
    match cell {
        Cell::Dash => &[],
        Cell::OneOf(tests) => tests.as_slice(),
        Cell::NoneOf(tests) => tests.as_slice(),
    }
}
