//! Values of the four kinds: a literal denotes one, and a test is applied to one.
ghost use Rattle.std.specs.Prelude.{◌≡◌, IfOk};
ghost use Rattle.feel_tests.specs.Value.{kind_of};

use crate::day::Day;
use crate::kind::Kind;
use crate::text::Text;
use fixpoint::Fixed;
use std::alloc::{AllocError, Global};

/// A value of one of the four kinds.
#[derive(Drop, PartialEq)]
pub enum Value {
    /// A decimal number with four places.
    Number(Fixed),
    /// A text of at most 256 bytes.
    Text(Text),
    /// True or false.
    Flag(bool),
    /// A day of the Gregorian calendar.
    Day(Day),
}

impl Value {
    /// Returns the kind of the value.
    pub fn kind(&self) -> Kind
        ensures { result ≡ kind_of self.now }
    {
        match self {
            Value::Number(_) => Kind::Number,
            Value::Text(_) => Kind::Text,
            Value::Flag(_) => Kind::Flag,
            Value::Day(_) => Kind::Day,
        }
    }

    /// Returns a copy of the value, with its own memory for a text.
    pub fn duplicate(&self, alloc: Global) -> Result<Value, AllocError>
        ensures { IfOk result (λ copy. copy ≡ self.now) }
    {
        match self {
            Value::Number(number) => Ok(Value::Number(*number)),
            Value::Text(text) => Ok(Value::Text(Text::new(alloc, text.as_str())?)),
            Value::Flag(flag) => Ok(Value::Flag(*flag)),
            Value::Day(day) => Ok(Value::Day(*day)),
        }
    }
}
