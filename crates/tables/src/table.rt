//! The parts of a decision table with rules as rows (DMN 1.4, decision tables).

ghost use Rattle.std.specs.Prelude.{◌≡◌, slice_get};
ghost use Rattle.std.specs.List.{list_any};
ghost use Rattle.std.specs.Option.{option_copied};
ghost use Rattle.tables.specs.Inputs.{reads, has_value, is_served};
ghost use Rattle.tables.specs.Priority.{entries_of};

use crate::hit::Hit;
use crate::inputs::Inputs;
use crate::name::Name;
use feel_tests::{Cell, Kind, Sequence, Value};

/// Input data (DMN 1.4): a name that tables may read from outside, and the kind of its value.
pub struct InputData {
    pub name: Name,
    pub kind: Kind,
}

impl Drop for InputData {
    fn drop(self) {
        let InputData { name: _, kind: _ } = self;
    }
}

/// The origin of an input's value, by indices from 0 (DMN 1.4, input expression).
#[derive(Clone, Copy)]
pub enum Origin {
    /// The value is the input data at this index in the plan's names.
    Given(usize),
    /// The value is the single value of an output of an earlier table: the table's index in the
    /// plan, and the output's index in the table.
    Earlier { table: usize, column: usize },
}

/// An input of a table (DMN 1.4, input clause), with its allowed values if they are restricted.
pub struct Input {
    pub name: Name,
    pub origin: Origin,
    pub values: Option<Cell>,
}

impl Drop for Input {
    fn drop(self) {
        let Input {
            name: _,
            origin: _,
            values: _,
        } = self;
    }
}

/// An output of a table (DMN 1.4, output clause), with its priority list, highest value first, and
/// its default, if it has them.
pub struct Output {
    pub name: Name,
    pub kind: Kind,
    pub priority: Option<Sequence<Value>>,
    pub fallback: Option<Value>,
}

impl Drop for Output {
    fn drop(self) {
        let Output {
            name: _,
            kind: _,
            priority: _,
            fallback: _,
        } = self;
    }
}

/// A rule of a table (DMN 1.4, decision rule): a cell for each input, and an entry for each output.
pub struct Rule {
    pub cells: Sequence<Cell>,
    pub entries: Sequence<Value>,
}

impl Drop for Rule {
    fn drop(self) {
        let Rule {
            cells: _,
            entries: _,
        } = self;
    }
}

/// A decision table.
pub struct Table {
    pub hit: Hit,
    pub inputs: Sequence<Input>,
    pub outputs: Sequence<Output>,
    pub rules: Sequence<Rule>,
}

impl Drop for Table {
    fn drop(self) {
        let Table {
            hit: _,
            inputs: _,
            outputs: _,
            rules: _,
        } = self;
    }
}

impl Table {
    /// Returns whether an input reads the input data at this index.
    pub fn reads(&self, place: usize) -> bool
        ensures { result ≡ list_any (λ i. reads place i.origin) self.now.inputs }
    {
        let inputs = self.inputs.as_slice();
        for input in inputs {
            if input.origin.reads(place) {
                return true;
            }
        }
        false
    }

    /// Returns whether all input data that the table reads have a value.
    pub fn is_served(&self, inputs: &Inputs) -> bool
        ensures { result ≡ is_served inputs.now self.now }
    {
        let read = self.inputs.as_slice();
        for input in read {
            if !input.origin.is_served(inputs) {
                return false;
            }
        }
        true
    }

    /// Returns the entries of the rule at an index from 0, or an empty slice if there is no such
    /// rule.
    pub fn entries(&self, rule: usize) -> &[Value]
        ensures { result.now ≡ entries_of self.now rule }
    {
        match self.rules.as_slice().get(rule) {
            Some(rule) => rule.entries.as_slice(),
            None => &[],
        }
    }

    /// Returns the rule's entry for an output, if there is one. Rules and outputs are counted from
    /// 0.
    pub fn entry(&self, rule: usize, column: usize) -> Option<&Value>
        ensures { option_copied result ≡ slice_get (entries_of self.now rule) column }
    {
        self.entries(rule).get(column)
    }
}

impl Origin {
    /// Returns whether the origin is the input data at this index.
    pub fn reads(self, place: usize) -> bool
        ensures { result ≡ reads place self }
    {
        match self {
            Origin::Given(given) => given == place,
            Origin::Earlier { .. } => false,
        }
    }

    fn is_served(self, inputs: &Inputs) -> bool
        ensures { result ≡ has_value inputs.now self }
    {
        match self {
            Origin::Given(place) => inputs.get(place).is_some(),
            Origin::Earlier { .. } => true,
        }
    }
}
