//! Cells: the unary tests that one entry of a decision table applies to a value.
ghost use Rattle.std.specs.Prelude.{◌≡◌, [], ◌∷◌, ◌++◌, OnOk};
ghost use Rattle.feel_tests.specs.Holds.{holds, passes, is_below, one_passes};

use crate::value::Value;
use smallvec::SmallVec;
use std::alloc::{AllocError, Global};
use std::marker::Model;

/// The greatest number of tests in a cell.
pub const TEST_LIMIT: usize = 64;

/// A comparison operator between a value and a literal.
#[derive(Clone, Copy)]
pub enum Op {
    /// `<`
    Less,
    /// `<=`
    AtMost,
    /// `>`
    More,
    /// `>=`
    AtLeast,
}

/// A unary test of a value.
pub enum Test {
    /// The value equals this literal.
    Equal(Value),
    /// The comparison of the value with this literal is true.
    Compare(Op, Value),
    /// The value lies in this interval. The flags say whether each end belongs to the interval.
    Between {
        low: Value,
        low_in: bool,
        high: Value,
        high_in: bool,
    },
}

impl Drop for Test {
    fn drop(self) {
        match self {
            Test::Equal(_) => {}
            Test::Compare(_, _) => {}
            Test::Between {
                low: _,
                low_in: _,
                high: _,
                high_in: _,
            } => {}
        }
    }
}

/// The default is an arbitrary test that allocates no memory.
impl Default for Test {
    fn default() -> Test {
        Test::Equal(Value::Flag(false))
    }
}

/// The tests of a cell, in the order of its text.
pub struct Tests {
    items: SmallVec<Test, 2>,
}

impl Drop for Tests {
    fn drop(self) {
        let Tests { items: _ } = self;
    }
}

impl Model for Tests {
    ghost use Rattle.std.specs.Prelude.{List};
    ghost use Rattle.feel_tests.specs.declared.cell.Test.{Test};

    ghost Value = { List Test };

    ghost view = { λ t. t.items.items };
}

impl Tests {
    // Makes a list of one test. It allocates no memory, since the list has room for two tests
    // inline.
    pub(crate) fn one(alloc: Global, test: Test) -> Tests
        ensures { result ≡ test ∷ [] }
    {
        let mut items = SmallVec::new(alloc);
        items.push_reserved(test);
        Tests { items }
    }

    pub(crate) fn push(&mut self, test: Test) -> Result<(), AllocError>
        ensures ok { OnOk result (self.new ≡ self.old ++ test ∷ []) }
    {
        self.items.push(test)?;
        Ok(())
    }

    /// Returns the tests as a slice.
    pub fn as_slice(&self) -> &[Test]
        ensures { result.now ≡ self.now }
    {
        self.items.as_slice()
    }
}

/// The condition that one entry of a table puts on a value.
pub enum Cell {
    /// The entry accepts every value.
    Dash,
    /// The entry accepts a value if at least one of the tests holds.
    OneOf(Tests),
    /// The entry accepts a value if none of the tests holds.
    NoneOf(Tests),
}

impl Drop for Cell {
    fn drop(self) {
        match self {
            Cell::Dash => {}
            Cell::OneOf(_) => {}
            Cell::NoneOf(_) => {}
        }
    }
}

impl Cell {
    /// Returns whether the cell accepts the value (DMN 1.4, S-FEEL, unary tests). Values of
    /// different kinds are neither equal nor ordered.
    pub fn holds(&self, value: &Value) -> bool
        ensures { result ≡ holds self.now value.now }
    {
        match self {
            Cell::Dash => true,
            Cell::OneOf(tests) => one_passes(tests.as_slice(), value),
            Cell::NoneOf(tests) => !one_passes(tests.as_slice(), value),
        }
    }
}

fn one_passes(tests: &[Test], value: &Value) -> bool
    ensures { result ≡ one_passes tests.now value.now }
{
    for test in tests {
        if test.passes(value) {
            return true;
        }
    }
    false
}

impl Test {
    fn passes(&self, value: &Value) -> bool
        ensures { result ≡ passes self.now value.now }
    {
        match self {
            Test::Equal(literal) => value == literal,
            Test::Compare(Op::Less, literal) => value.is_below(false, literal),
            Test::Compare(Op::AtMost, literal) => value.is_below(true, literal),
            Test::Compare(Op::More, literal) => literal.is_below(false, value),
            Test::Compare(Op::AtLeast, literal) => literal.is_below(true, value),
            Test::Between {
                low,
                low_in,
                high,
                high_in,
            } => low.is_below(*low_in, value) && value.is_below(*high_in, high),
        }
    }
}

impl Value {
    // Compares two numbers or two days. With `end_in`, a value is below an equal one.
    fn is_below(&self, end_in: bool, other: &Value) -> bool
        ensures { result ≡ is_below end_in self.now other.now }
    {
        match (self, other) {
            (Value::Number(one), Value::Number(two)) => {
                if end_in { one <= two } else { one < two }
            }
            (Value::Day(one), Value::Day(two)) => { if end_in { one <= two } else { one < two } }
            _ => false,
        }
    }
}
