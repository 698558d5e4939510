//! The facts of an explanation.
ghost use Rattle.std.specs.Prelude.{◌≡◌, ◌++◌, ◌∷◌, [], IfOk, OnOk, decimal};
ghost use Rattle.std.specs.Option.{option_copied};
ghost use Rattle.fixpoint.specs.Money.{money_text};
ghost use Rattle.explanation.specs.Facts.{fact, value_facts};

use feel_tests::Value;
use itoa::Buffer;
use settlement::Money;
use std::alloc::{AllocError, Global};
use std::marker::Model;

/// A fact: the step of the explanation that it belongs to, its name, and its value. Contracts see a
/// record of these texts.
pub struct Fact {
    step: Vec<u8>,
    name: Vec<u8>,
    value: Vec<u8>,
}

impl Drop for Fact {
    fn drop(self) {
        let Fact {
            step: _,
            name: _,
            value: _,
        } = self;
    }
}

impl Model for Fact {
    ghost use Rattle.explanation.specs.Facts.{FactParts};

    ghost Value = { FactParts };

    ghost view = { λ f. record {
      step = f.step.items;
      name = f.name.items;
      value = f.value.items;
    } };
}

impl Fact {
    /// Returns the step.
    pub fn step(&self) -> &[u8]
        ensures { result.now ≡ self.now.step }
    {
        self.step.as_slice()
    }

    /// Returns the name.
    pub fn name(&self) -> &[u8]
        ensures { result.now ≡ self.now.name }
    {
        self.name.as_slice()
    }

    /// Returns the value.
    pub fn value(&self) -> &[u8]
        ensures { result.now ≡ self.now.value }
    {
        self.value.as_slice()
    }
}

/// A list of facts, which grows at its end. Contracts see the list.
pub struct Facts {
    alloc: Global,
    list: Vec<Fact>,
}

impl Drop for Facts {
    fn drop(self) {
        let Facts { alloc: _, list: _ } = self;
    }
}

impl Model for Facts {
    ghost use Rattle.std.specs.Prelude.{List};
    ghost use Rattle.explanation.specs.Facts.{FactParts};

    ghost Value = { List FactParts };

    ghost view = { λ f. f.list.items };
}

impl Facts {
    /// Returns an empty list.
    pub fn new(alloc: Global) -> Facts
        ensures { result ≡ [] }
    {
        Facts {
            alloc,
            list: Vec::new(alloc),
        }
    }

    /// Returns the facts.
    pub fn as_slice(&self) -> &[Fact]
        ensures { result.now ≡ self.now }
    {
        self.list.as_slice()
    }

    /// Adds a fact.
    pub fn add(&mut self, step: &[u8], name: &[u8], value: &[u8]) -> Result<(), AllocError>
        ensures { OnOk result (self.new ≡ self.old ++ fact step.now name.now value.now ∷ []) }
    {
        let fact = Fact {
            step: Vec::from_slice(self.alloc, step)?,
            name: Vec::from_slice(self.alloc, name)?,
            value: Vec::from_slice(self.alloc, value)?,
        };
        self.list.push(fact)?;
        Ok(())
    }

    /// Adds an amount of money.
    pub fn add_money(&mut self, step: &[u8], name: &[u8], amount: Money) -> Result<(), AllocError>
        ensures { OnOk result (self.new
            ≡ self.old ++ fact step.now name.now (money_text amount) ∷ []) }
    {
        let mut buffer = [0; 24];
        let length = amount.amount().write_money(&mut buffer);
        self.add(step, name, &buffer[..length])
    }

    /// Adds a number.
    pub fn add_number(&mut self, step: &[u8], name: &[u8], number: u128) -> Result<(), AllocError>
        ensures { OnOk result (self.new
            ≡ self.old ++ fact step.now name.now (decimal number) ∷ []) }
    {
        self.add(step, name, Buffer::new().format(number).as_bytes())
    }

    /// Adds a value as a literal, if there is one.
    pub fn add_value(
        &mut self,
        step: &[u8],
        name: &[u8],
        value: Option<&Value>,
    ) -> Result<(), AllocError>
        ensures { OnOk result (self.new
            ≡ self.old ++ value_facts step.now name.now (option_copied value.entry)) }
    {
        let Some(value) = value else {
            return Ok(());
        };
        let mut text = Vec::new(self.alloc);
        value.write_text(&mut text)?;
        self.add(step, name, text.as_slice())
    }
}
