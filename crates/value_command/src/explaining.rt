//! Explanations of the errors of `value`.

use crate::explanation::{About, print_message};
use console::names::{ASSIGNMENT, PLAN};
use diagnostics::{
    Message, argument_given_twice, argument_of_unknown_name, argument_without_equals, explain,
    explain_argument, explain_literal, explain_missing, explain_plan, explain_tables, memory,
    write_explanation,
};
use evaluation::{ArgumentFault, ValueStop};
use faults::WriteCause;
use std::alloc::{AllocError, Global};

/// Prints the explanation of an error of `value`, if there is one and the caller wants it.
pub fn explain_refusal<R: Eprint + AllocGlobal>(
    rt: &R,
    about: &About,
    answer: &Result<(), ValueStop>,
) {
    if let Err(stop) = answer
        && about.explains
    {
        print_message(rt, value_message(rt.alloc(), about, stop));
    }
}

/// The explanation of an error of `value`.
pub fn value_message(
    alloc: Global,
    about: &About,
    stop: &ValueStop,
) -> Result<Message, AllocError> {
    match stop {
        ValueStop::Plan(fault) => explain_plan(alloc, about.word(PLAN), about.plan, fault),
        ValueStop::Argument { number, fault } => argument_message(alloc, about, *number, fault),
        ValueStop::Tables(fault) => explain_tables(alloc, about.word(PLAN), about.plan, fault),
        ValueStop::Missing(_) => {
            let arguments = about.words.get_strs(ASSIGNMENT).unwrap_or(&[]);
            explain_missing(alloc, about.plan, arguments)
        }
        ValueStop::Write { .. } => explain(alloc, write_explanation(WriteCause::Device)),
        ValueStop::NoMemory => explain(alloc, memory()),
    }
}

fn argument_message(
    alloc: Global,
    about: &About,
    number: usize,
    fault: &ArgumentFault,
) -> Result<Message, AllocError> {
    let argument = about.word_at(ASSIGNMENT, number);
    match fault {
        ArgumentFault::NoEquals => explain_argument(alloc, argument, argument_without_equals()),
        ArgumentFault::UnknownName => explain_argument(alloc, argument, argument_of_unknown_name()),
        ArgumentFault::RepeatedName => explain_argument(alloc, argument, argument_given_twice()),
        ArgumentFault::Literal(cell) => explain_literal(alloc, about.plan, argument, cell),
    }
}
