//! The names of a plan that are amounts of money, and the regions that contain one.
ghost use Rattle.std.specs.Prelude.{◌≡◌, ℤ, Some};
ghost use Rattle.std.specs.Option.{option_copied};
ghost use Rattle.fixpoint.specs.Number.{IsInRange};
ghost use Rattle.plan_zones.specs.Amounts.{has_money, has_money_above, is_amount_name, is_below, is_money_value, is_possible_region, is_within, money_above};

use cutplan::{Region, has_value};
use feel_tests::Value;
use fixpoint::MAX_UNITS;
use tables::Plan;

/// Returns whether the name at this index is the billed amount or an accumulator.
pub fn is_amount_name(plan: &Plan, name: usize) -> bool
    ensures { result ≡ is_amount_name plan.now name }
{
    let left = plan.names().len().saturating_sub(name);
    if plan.keeps_families() {
        name == 4 || left <= 5
    } else {
        name == 3 || left <= 3
    }
}

/// Returns whether the region contains a value that a claim can give the name: an amount of money
/// if the name is an amount.
pub fn is_possible_region(amount: bool, region: &Region) -> bool
    ensures { result ≡ is_possible_region amount region.now }
{
    has_value(region) && (!amount || has_money(region))
}

fn has_money(region: &Region) -> bool
    ensures { result ≡ has_money region.now }
{
    match region {
        Region::Below(high) => is_below(0, high),
        Region::At(value) => is_money(value),
        Region::Between(low, high) => has_money_above(low, Some(high)),
        Region::Above(low) => has_money_above(low, None),
        Region::Other(_) => false,
        Region::Every => true,
    }
}

fn is_money(value: &Value) -> bool
    ensures { result ≡ is_money_value value.now }
{
    match value {
        Value::Number(number) => number.is_money(),
        Value::Text(_) | Value::Flag(_) | Value::Day(_) => false,
    }
}

fn is_below(units: i64, high: &Value) -> bool
    ensures { result ≡ is_below units high.now }
{
    match high {
        Value::Number(high) => units < high.units(),
        Value::Text(_) | Value::Flag(_) | Value::Day(_) => false,
    }
}

// Returns whether there is an amount of money above the number and below the limit, if there is one.
fn has_money_above(low: &Value, high: Option<&Value>) -> bool
    ensures { result ≡ has_money_above low.now (option_copied high.entry) }
{
    match low {
        Value::Number(low) => {
            let units = money_above(low.units());
            units <= MAX_UNITS && is_within(units, high)
        }
        Value::Text(_) | Value::Flag(_) | Value::Day(_) => false,
    }
}

fn is_within(units: i64, high: Option<&Value>) -> bool
    ensures { result ≡ is_within (option_copied high.entry) units }
{
    match high {
        Some(high) => is_below(units, high),
        None => true,
    }
}

// Returns the least amount of money above these units, which are in the range of numbers.
fn money_above(units: i64) -> i64
    requires { IsInRange units }
    ensures { result ≡ money_above units }
{
    if units < 0 {
        0
    } else {
        (units.unsigned_abs() as i64 / 100 + 1) * 100
    }
}
