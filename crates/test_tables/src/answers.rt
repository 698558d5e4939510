//! The values that a test begins with, and the answers of a plan's tables as text. A call that runs
//! out of memory for a plan, its inputs, its values or their text is repeated once.
//!
//! A test calls `drop` for each plan, input or answer that it owns. This is one call for the
//! prover, whereas the end of a scope drops each of their parts.
use crate::ending::expects;
use dtable::{PlanFault, read_plan};
use feel_tests::{Value, read_value};
use std::alloc::{AllocError, Global};
use std::process::Abort;
use tables::{Answer, Env, Fault, Inputs, Plan, Valuer};

/// Reads the plan of a text.
pub fn plan_of(rt: &impl Abort, alloc: Global, text: &[u8]) -> Plan {
    match read_plan(alloc, text) {
        Ok(plan) => plan,
        Err(fault) => {
            expects(rt, fault == PlanFault::from(AllocError), "a plan");
            read_plan(alloc, text).expect(rt, "a plan")
        }
    }
}

/// Returns the inputs of a plan, all without a value.
pub fn inputs_of(rt: &impl Abort, alloc: Global, plan: &Plan) -> Inputs {
    match Inputs::new(alloc, plan) {
        Ok(inputs) => inputs,
        Err(_) => Inputs::new(alloc, plan).expect(rt, "memory for inputs"),
    }
}

/// Sets the name at the index `place` to the value of the literal.
pub fn give(rt: &impl Abort, alloc: Global, inputs: &mut Inputs, place: usize, literal: &str) {
    let kind = inputs.kind_at(place).expect(rt, "a name");
    let value = read_value(alloc, kind, literal).expect(rt, "a literal");
    inputs.set(place, value);
}

/// Evaluates the plan's tables for these inputs.
pub fn value_of<'a>(rt: &impl Abort, alloc: Global, plan: &'a Plan, inputs: &Inputs) -> Env<'a> {
    assert!(rt; plan.ready(inputs));
    match plan.value(alloc, inputs) {
        Ok(values) => values,
        Err(fault) => {
            expects(rt, fault == Fault::OutOfMemory, "a value");
            plan.value(alloc, inputs).expect(rt, "a value")
        }
    }
}

/// Returns the answers of these outputs, one line for each.
pub fn printed_text(rt: &impl Abort, alloc: Global, values: &Env, outputs: &[&str]) -> Vec<u8> {
    let mut text = Vec::new(alloc);
    if write_shown(&mut text, values, outputs).is_err() {
        text.clear();
        let written = write_shown(&mut text, values, outputs);
        expects(rt, written.is_ok(), "memory for a text");
    }
    text
}

fn write_shown(text: &mut Vec<u8>, values: &Env, outputs: &[&str]) -> Result<(), AllocError> {
    for output in outputs {
        write_line(text, values.get(output))?;
    }
    Ok(())
}

pub fn is_text(text: Vec<u8>, wanted: &str) -> bool {
    text.as_slice() == wanted.as_bytes()
}

/// Writes an answer and a line end.
pub fn write_line(text: &mut Vec<u8>, answer: Option<&Answer>) -> Result<(), AllocError> {
    write_answer(text, answer)?;
    text.push(b'\n')?;
    Ok(())
}

// Writes a literal, or the word `list` and the literals of a list.
fn write_answer(text: &mut Vec<u8>, answer: Option<&Answer>) -> Result<(), AllocError> {
    match answer {
        Some(Answer::One(value)) => value.write_text(text),
        Some(Answer::Many(list)) => write_list(text, list.as_slice()),
        None => text.extend_from_slice(b"no answer"),
    }
}

fn write_list(text: &mut Vec<u8>, list: &[Value]) -> Result<(), AllocError> {
    text.extend_from_slice(b"list")?;
    for value in list {
        text.push(b' ')?;
        value.write_text(text)?;
    }
    Ok(())
}
