//! Evaluators of a plan that know classes of inputs with the same value.
ghost use Rattle.std.specs.Prelude.{◌≡◌, ℕ, List, IfSome};
ghost use Rattle.tables.specs.Environment.{env};
ghost use Rattle.tables.specs.declared.inputs.Slot.{Slot};

use crate::inputs::Inputs;
use crate::valuer::Valuer;

/// An evaluator that may know the input class of inputs, so that its callers can keep what they
/// have computed for a class.
pub trait InputClasses: Valuer {
    /// The inputs lie in the input class with this number.
    ghost in_class: { Self → List Slot → ℕ → Type 0 };

    /// Returns the number of the input class that contains the inputs, if it is known. The tables
    /// have the same value for all inputs of a class.
    fn input_class(&self, inputs: &Inputs) -> Option<u64>
        ensures inside { IfSome result (in_class self.now inputs.now) }
        ensures alike { IfSome result (λ input_class. (other : List Slot)
            → in_class self.now other input_class
            → env (Self.plan_of self.now) other ≡ env (Self.plan_of self.now) inputs.now) };
}
