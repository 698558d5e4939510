//! Whether a single test of a cell holds, for a value or for the values of a region.
ghost use Rattle.std.specs.Prelude.{◌≡◌, [], ◌∷◌};
ghost use Rattle.feel_tests.specs.Holds.{holds, is_below, passes};
ghost use Rattle.feel_tests.specs.declared.cell.Cell.TheVariants.{OneOf};
ghost use Rattle.regions.specs.Regions.{holds_in, holds_of};

use cutplan::{Region, least_like, next};
use feel_tests::{Op, Test, Value};

/// Returns whether the test holds for the value.
pub fn passes(test: &Test, value: &Value) -> bool
    ensures { result ≡ passes test.now value.now }
{
    match test {
        Test::Equal(literal) => value == literal,
        Test::Compare(Op::Less, literal) => is_below(false, value, literal),
        Test::Compare(Op::AtMost, literal) => is_below(true, value, literal),
        Test::Compare(Op::More, literal) => is_below(false, literal, value),
        Test::Compare(Op::AtLeast, literal) => is_below(true, literal, value),
        Test::Between {
            low,
            low_in,
            high,
            high_in,
        } => is_below(*low_in, low, value) && is_below(*high_in, value, high),
    }
}

fn is_below(end_in: bool, one: &Value, other: &Value) -> bool
    ensures { result ≡ is_below end_in one.now other.now }
{
    match (one, other) {
        (Value::Number(one), Value::Number(two)) => { if end_in { one <= two } else { one < two } }
        (Value::Day(one), Value::Day(two)) => { if end_in { one <= two } else { one < two } }
        _ => false,
    }
}

/// Returns whether the test holds for the values of a region that contains a value.
pub fn passes_in(test: &Test, region: &Region) -> bool
    ensures { result ≡ holds_in (OneOf (test.now ∷ [])) region.now }
{
    match region {
        Region::At(value) => passes_alone(test, value),
        Region::Below(cut) => passes_first(test, &least_like(cut)),
        Region::Between(low, _) => passes_first(test, &next(low)),
        Region::Above(cut) => passes_first(test, &next(cut)),
        Region::Other(_) => false,
        Region::Every => false,
    }
}

fn passes_first(test: &Test, first: &Option<Value>) -> bool
    ensures { result ≡ holds_of (OneOf (test.now ∷ [])) first.now }
{
    match first {
        Some(value) => passes_alone(test, value),
        None => false,
    }
}

/// Returns whether a cell that has this test alone holds for the value.
#[tactic(auto, using(crate::proofs::Asking::alone))]
pub fn passes_alone(test: &Test, value: &Value) -> bool
    ensures { result ≡ holds (OneOf (test.now ∷ [])) value.now }
{
    passes(test, value)
}
