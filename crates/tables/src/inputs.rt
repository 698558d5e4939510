//! The values of the names that tables read.
ghost use Rattle.std.specs.Prelude.{◌≡◌, map, Some, None, IfOk, OnErr, OnOk};
ghost use Rattle.std.specs.Option.{option_copied};
ghost use Rattle.feel_tests.specs.declared.kind.Kind.TheVariants as kinds;
ghost use Rattle.feel_tests.specs.declared.value.Value.TheVariants as values;
ghost use Rattle.feel_tests.specs.Value.{kind_of};
ghost use Rattle.tables.specs.Inputs.{empty_slot, empty_slots, fill_slot, kind_at, value_at, Takes};

use crate::plan::Plan;
use feel_tests::{Kind, Text, Value};
use fixpoint::Fixed;
use std::alloc::{AllocError, Global};
use std::marker::Model;

/// A name's slot: the kind of its values, and its value once it is set.
pub struct Slot {
    pub kind: Kind,
    pub value: Option<Value>,
}

impl Drop for Slot {
    fn drop(self) {
        let Slot { kind: _, value: _ } = self;
    }
}

impl Slot {
    // Sets the value to this text and reuses the memory of an earlier text. If memory runs out, the
    // slot has no value.
    fn set_text(&mut self, alloc: Global, text: &Text) -> Result<(), AllocError>
        ensures set { OnOk result (self.new.value ≡ Some (values.Text text.now)) }
        ensures refused { OnErr result (self.new.value ≡ None) }
        ensures kind { self.new.kind ≡ self.old.kind }
    {
        let copied = self.copy_text(alloc, text);
        if copied.is_err() {
            self.value = None;
        }
        copied
    }

    // Does the same as `set_text`, but leaves an unspecified value if memory runs out.
    fn copy_text(&mut self, alloc: Global, text: &Text) -> Result<(), AllocError>
        ensures set { OnOk result (self.new.value ≡ Some (values.Text text.now)) }
        ensures kind { self.new.kind ≡ self.old.kind }
    {
        match &mut self.value {
            Some(Value::Text(present)) => present.copy_from(text)?,
            _ => self.value = Some(Value::Text(Text::new(alloc, text.as_str())?)),
        }
        Ok(())
    }

    // Sets the value to a copy of this one. A text reuses the memory of an earlier text.
    fn set_copy(&mut self, alloc: Global, value: &Value) -> Result<(), AllocError>
        ensures set { OnOk result (self.new.value ≡ Some value.now) }
        ensures kind { self.new.kind ≡ self.old.kind }
    {
        match value {
            Value::Text(text) => self.set_text(alloc, text)?,
            Value::Number(number) => self.value = Some(Value::Number(*number)),
            Value::Flag(flag) => self.value = Some(Value::Flag(*flag)),
            Value::Day(day) => self.value = Some(Value::Day(*day)),
        }
        Ok(())
    }
}

/// A slot for each name of a plan, in order.
pub struct Inputs {
    slots: Vec<Slot>,
}

impl Drop for Inputs {
    fn drop(self) {
        let Inputs { slots: _ } = self;
    }
}

impl Model for Inputs {
    ghost use Rattle.std.specs.Prelude.{List};
    ghost use Rattle.tables.specs.declared.inputs.Slot.{Slot};

    ghost Value = { List Slot };

    ghost view = { λ i. i.slots.items };
}

impl Inputs {
    /// Makes an empty slot for each name of the plan.
    pub fn new(alloc: Global, plan: &Plan) -> Result<Inputs, AllocError>
        ensures { IfOk result (λ inputs. inputs ≡ empty_slots plan.now.names) }
    {
        let names = plan.names();
        let mut slots = Vec::with_capacity(alloc, names.len())?;
        for data in names {
            slots.push(Slot {
                kind: data.kind,
                value: None,
            })?;
        }
        Ok(Inputs { slots })
    }

    /// Returns the kind of the name at an index from 0, or `None` if there is no such name.
    pub fn kind_at(&self, place: usize) -> Option<Kind>
        ensures { result ≡ kind_at self.now place }
    {
        match self.slots.get(place) {
            Some(slot) => Some(slot.kind),
            None => None,
        }
    }

    /// Sets the value of the name at an index from 0. An earlier value is replaced.
    pub fn set(&mut self, place: usize, value: Value)
        requires { Takes self.old place (kind_of value) }
        ensures { self.new ≡ fill_slot self.old place value }
    {
        let kind = value.kind();
        self.slots[place] = Slot {
            kind,
            value: Some(value),
        };
    }

    /// Sets the value of the name at an index from 0 to this text, and reuses the memory of an
    /// earlier text. If memory runs out, that name has no value afterwards, and the others are
    /// unchanged.
    pub fn set_text(&mut self, alloc: Global, place: usize, text: &Text) -> Result<(), AllocError>
        requires { Takes self.old place kinds.Text }
        ensures set { OnOk result (self.new ≡ fill_slot self.old place (values.Text text.now)) }
        ensures refused { OnErr result (self.new ≡ empty_slot self.old place kinds.Text) }
        ensures kinds { map (λ s. s.kind) self.new ≡ map (λ s. s.kind) self.old }
    {
        self.slots[place].set_text(alloc, text)
    }

    /// Sets the value of the name at an index from 0 to this number. An earlier value is replaced.
    pub fn set_number(&mut self, place: usize, number: Fixed)
        requires { Takes self.old place kinds.Number }
        ensures { self.new ≡ fill_slot self.old place (values.Number number) }
    {
        self.slots[place].value = Some(Value::Number(number));
    }

    /// Sets the value of the name at an index from 0 to a copy of this value. A text reuses the
    /// memory of an earlier text. If memory runs out, that name has no value afterwards.
    pub fn set_copy(&mut self, alloc: Global, place: usize, value: &Value) -> Result<(), AllocError>
        requires { Takes self.old place (kind_of value.now) }
        ensures set { OnOk result (self.new ≡ fill_slot self.old place value.now) }
        ensures kinds { map (λ s. s.kind) self.new ≡ map (λ s. s.kind) self.old }
    {
        self.slots[place].set_copy(alloc, value)
    }

    /// Returns the value of the name at an index from 0, if it is set.
    pub fn get(&self, place: usize) -> Option<&Value>
        ensures { option_copied result ≡ value_at self.now place }
    {
        match self.slots.get(place) {
            Some(slot) => slot.value.as_ref(),
            None => None,
        }
    }
}
