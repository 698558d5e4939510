//! The arguments `NAME=LITERAL`: the values that they give, and the first value that is missing.

ghost use Rattle.std.specs.Prelude.{◌≡◌, Some, None, IfOk, IfErr, IfSome, IfNone, slice_get, Contains};
ghost use Rattle.tables.specs.Inputs.{IsReady, value_at};
ghost use Rattle.dtable.specs.Scope.{data_names};
ghost use Rattle.evaluation.specs.Arguments.{argument_texts, equals_sign, IsSplit, Gives, IsArgument, IsFirstMissing};
ghost use Rattle.evaluation.specs.Stop.{IsArgumentFault, IsMemoryFault, RefusesArguments};

use crate::stop::{ArgumentFault, ValueStop};
use feel_tests::{Value, read_value};
use std::alloc::Global;
use tables::{InputData, Inputs, Plan};

/// Reads the arguments in order, and returns their values. The first argument that gives no value
/// is the error.
pub fn read_arguments(alloc: Global, plan: &Plan, arguments: &[&str]) -> Result<Inputs, ValueStop>
    ensures given { IfOk result (Gives plan.now.names (argument_texts arguments.now)) }
    ensures refused { IfErr result
        (RefusesArguments plan.now.names (argument_texts arguments.now)) }
{
    let mut inputs = Inputs::new(alloc, plan)?;
    for (index, argument) in arguments.iter().enumerate() {
        match read_argument(alloc, plan.names(), &inputs, argument) {
            Ok(assignment) => inputs.set(assignment.place, assignment.value),
            Err(fault) => return Err(ValueStop::from_argument(index + 1, fault)),
        }
    }
    Ok(inputs)
}

/// The value that an argument gives to the name at an index, from 0.
#[derive(Drop)]
pub struct Assignment {
    pub place: usize,
    pub value: Value,
}

// `inputs` has the values of the earlier arguments, none of which may have the same name.
fn read_argument(
    alloc: Global,
    names: &[InputData],
    inputs: &Inputs,
    argument: &str,
) -> Result<Assignment, ArgumentFault>
    ensures assigned { IfOk result (λ a.
        IsArgument names.now argument.now (record { place = a.place; value = a.value })) }
    ensures fresh { IfOk result (λ a. value_at inputs.now a.place ≡ None) }
    ensures refused { IfErr result (λ fault. ¬ IsMemoryFault fault
        → IsArgumentFault names.now inputs.now argument.now fault) }
{
    let Some((name, literal)) = split_argument(argument) else {
        return Err(ArgumentFault::NoEquals);
    };
    let Some((place, input)) = data_named(names, name) else {
        return Err(ArgumentFault::UnknownName);
    };
    if inputs.get(place).is_some() {
        return Err(ArgumentFault::RepeatedName);
    }
    match read_value(alloc, input.kind, literal) {
        Ok(value) => Ok(Assignment { place, value }),
        Err(fault) => Err(ArgumentFault::Literal(fault)),
    }
}

// Names have no `=`, so the first one ends the name. The literal may have more of them.
fn split_argument(argument: &str) -> Option<(&str, &str)>
    ensures split { IfSome result (λ parts. IsSplit argument.now parts.0.now parts.1.now) }
    ensures none { IfNone result (¬ Contains argument.now equals_sign) }
{
    argument.split_once('=')
}

fn data_named<'a>(names: &'a [InputData], name: &str) -> Option<(usize, &'a InputData)>
    ensures present { IfSome result (λ found. slice_get names.now found.0 ≡ Some found.1.now) }
    ensures named { IfSome result (λ found. found.1.now.name ≡ name.now) }
    ensures unknown { IfNone result (¬ Contains (data_names names.now) name.now) }
{
    for (place, input) in names.iter().enumerate() {
        if input.name.as_str() == name {
            return Some((place, input));
        }
    }
    None
}

/// Returns the first name that a table reads and that has no value.
pub fn first_missing<'a>(plan: &'a Plan, inputs: &Inputs) -> Option<&'a InputData>
    ensures missing { IfSome result (λ input.
        IsFirstMissing plan.now.names plan.now.tables inputs.now input.now.name) }
    ensures ready { IfNone result (IsReady plan.now.tables inputs.now) }
{
    for (place, input) in plan.names().iter().enumerate() {
        if plan.needs(place) && inputs.get(place).is_none() {
            return Some(input);
        }
    }
    None
}
