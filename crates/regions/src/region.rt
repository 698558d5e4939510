//! Regions: the parts into which the literals of a column cut its values.
ghost use Rattle.std.specs.Prelude.{◌≡◌, IfOk};
ghost use Rattle.std.specs.List.{list_any};
ghost use Rattle.feel_tests.specs.Holds.{is_equal, is_less};
ghost use Rattle.feel_tests.specs.Value.{kind_of};
ghost use Rattle.feel_tests.specs.declared.kind.Kind.TheVariants as kinds;
ghost use Rattle.feel_tests.specs.declared.value.Value.TheVariants as values;
ghost use Rattle.regions.specs.Values.{is_value};
ghost use Rattle.regions.specs.Regions.{holds_in, holds_of, is_in, is_open, least_like, next};

use feel_tests::{Cell, Day, FIRST_DAY, Kind, Sequence, Value, duplicates};
use fixpoint::{Fixed, MAX_UNITS};
use std::alloc::{AllocError, Global};

/// A set of values of a column. Within it, each cell of the column holds for all values or for
/// none.
pub enum Region {
    /// The numbers or days below the first cut.
    Below(Value),
    /// The value of a cut, a named text, or a flag.
    At(Value),
    /// The numbers or days between two adjacent cuts.
    Between(Value, Value),
    /// The numbers or days above the last cut.
    Above(Value),
    /// All texts other than these, which are the texts that the column names, in byte order.
    Other(Sequence<Value>),
    /// All values of a column of numbers, days or texts without cuts.
    Every,
}

impl Drop for Region {
    fn drop(self) {
        match self {
            Region::Below(_) => {}
            Region::At(_) => {}
            Region::Between(_, _) => {}
            Region::Above(_) => {}
            Region::Other(_) => {}
            Region::Every => {}
        }
    }
}

impl Region {
    /// Copies the region, including its texts.
    pub fn duplicate(&self, alloc: Global) -> Result<Region, AllocError>
        ensures { IfOk result (λ copy. copy ≡ self.now) }
    {
        match self {
            Region::Below(cut) => Ok(Region::Below(cut.duplicate(alloc)?)),
            Region::At(value) => Ok(Region::At(value.duplicate(alloc)?)),
            Region::Between(low, high) => {
                let low = low.duplicate(alloc)?;
                Ok(Region::Between(low, high.duplicate(alloc)?))
            }
            Region::Above(cut) => Ok(Region::Above(cut.duplicate(alloc)?)),
            Region::Other(names) => Ok(Region::Other(duplicates(alloc, names.as_slice())?)),
            Region::Every => Ok(Region::Every),
        }
    }
}

/// Returns whether the value lies in the region.
#[inline(always)]
pub fn is_in(region: &Region, value: &Value) -> bool
    ensures { result ≡ is_in region.now value.now }
{
    match region {
        Region::Below(cut) => is_less(value, cut),
        Region::At(cut) => value == cut,
        Region::Between(low, high) => is_less(low, value) && is_less(value, high),
        Region::Above(cut) => is_less(cut, value),
        Region::Other(names) => !is_among(names.as_slice(), value),
        Region::Every => true,
    }
}

/// Returns whether the value is among these.
pub fn is_among(names: &[Value], value: &Value) -> bool
    ensures { result ≡ list_any (λ name. is_equal value.now name) names.now }
{
    names.iter().any(|name| value == name)
}

/// Returns whether the first number or day is less than the second.
#[inline(always)]
pub fn is_less(one: &Value, other: &Value) -> bool
    ensures { result ≡ is_less one.now other.now }
{
    match (one, other) {
        (Value::Number(one), Value::Number(other)) => one < other,
        (Value::Day(one), Value::Day(other)) => one < other,
        _ => false,
    }
}

// Returns whether the cell holds for the values of a region that contains a value.
pub fn holds_in(cell: &Cell, region: &Region) -> bool
    ensures { result ≡ holds_in cell.now region.now }
{
    match region {
        Region::At(value) => cell.holds(value),
        Region::Below(cut) => holds_of(cell, &least_like(cut)),
        Region::Between(low, _) => holds_of(cell, &next(low)),
        Region::Above(cut) => holds_of(cell, &next(cut)),
        Region::Other(_) | Region::Every => is_open(cell),
    }
}

fn holds_of(cell: &Cell, value: &Option<Value>) -> bool
    ensures { result ≡ holds_of cell.now value.now }
{
    match value {
        Some(value) => cell.holds(value),
        None => false,
    }
}

// Returns whether the cell holds for a value that none of its tests names.
pub fn is_open(cell: &Cell) -> bool
    ensures { result ≡ is_open cell.now }
{
    match cell {
        Cell::OneOf(_) => false,
        Cell::Dash | Cell::NoneOf(_) => true,
    }
}

// Returns the least number or day in the range of its kind.
pub fn least_like(value: &Value) -> Option<Value>
    ensures { result ≡ least_like value.now }
{
    match value {
        Value::Number(_) => Some(Value::Number(Fixed::from_units(-MAX_UNITS)?)),
        Value::Day(_) => Some(Value::Day(Day::from_epoch_day(FIRST_DAY)?)),
        Value::Text(_) | Value::Flag(_) => None,
    }
}

// Returns the next number or day, if it is still in the range of its kind.
pub fn next(value: &Value) -> Option<Value>
    ensures { result ≡ next value.now }
{
    match value {
        Value::Number(number) => next_number(*number),
        Value::Day(day) => next_day(*day),
        Value::Text(_) | Value::Flag(_) => None,
    }
}

#[tactic(auto, using(crate::proofs::Ranges::number_after, crate::proofs::Ranges::no_number_after))]
fn next_number(number: Fixed) -> Option<Value>
    ensures { result ≡ next (values.Number number) }
{
    match Fixed::from_units(number.units() + 1) {
        Some(next) => Some(Value::Number(next)),
        None => None,
    }
}

#[tactic(auto, using(crate::proofs::Ranges::day_after, crate::proofs::Ranges::no_day_after))]
fn next_day(day: Day) -> Option<Value>
    ensures { result ≡ next (values.Day day) }
{
    match Day::from_epoch_day(day.epoch_day() + 1) {
        Some(next) => Some(Value::Day(next)),
        None => None,
    }
}

/// Returns whether the value is of the kind.
#[inline(always)]
pub fn is_value(kind: Kind, value: &Value) -> bool
    ensures { result ≡ is_value kind value.now }
{
    match (kind, value) {
        (Kind::Number, Value::Number(number)) => is_number(*number),
        (Kind::Text, Value::Text(_)) => true,
        (Kind::Flag, Value::Flag(_)) => true,
        (Kind::Day, Value::Day(day)) => is_day(*day),
        _ => false,
    }
}

// This is true of every value. The result is computed so that its contract can say it.
pub fn is_in_range(value: &Value) -> bool
    ensures { result ≡ is_value (kind_of value.now) value.now }
{
    match value {
        Value::Number(number) => is_number(*number),
        Value::Day(day) => is_day(*day),
        Value::Text(_) | Value::Flag(_) => true,
    }
}

fn is_number(number: Fixed) -> bool
    ensures { result ≡ is_value kinds.Number (values.Number number) }
{
    // proof: the number is in its range
    let _units = number.units();
    true
}

fn is_day(day: Day) -> bool
    ensures { result ≡ is_value kinds.Day (values.Day day) }
{
    // proof: the day is in its range
    let _number = day.epoch_day();
    true
}
