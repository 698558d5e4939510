//! Explains a plan's fault, and where it is in the plan's text.

use crate::hints::{add_explanation, key_of_fault};
use crate::message::{Message, Part, explain_at};
use crate::plan_node::{add_part_name, path_to_fault, value_at};
use crate::texts::{Explanation, Level, level_of, plan_explanation};
use faults::{PlanCause, PlanFault};
use std::alloc::{AllocError, Global};
use toml::Value;

/// The fix of a single quote within a string in single quotes.
const APOSTROPHE: &str =
    "Put a string that has an apostrophe between three single quotes: '''\"member's\"'''.";

/// Explains the fault of a plan's text, for a file of this name: where it is, the text of the cell, the cause and the fix.
pub fn explain_plan(
    alloc: Global,
    name: &str,
    text: &[u8],
    fault: &PlanFault,
) -> Result<Message, AllocError> {
    if matches!(fault.cause, PlanCause::Limit) && matches!(level_of(fault), Level::Plan) {
        // A text over its limit is read no further than to the limit, so no place in it can be right.
        return explain_at(alloc, "{}", &[Part::Word(name)], plan_explanation(fault));
    }
    let mut message = Message::new(alloc);
    let done = add_text(alloc, &mut message, name, text, fault);
    message.after(done)
}

fn add_text(
    alloc: Global,
    message: &mut Message,
    name: &str,
    text: &[u8],
    fault: &PlanFault,
) -> Result<(), AllocError> {
    match toml::table_from_slice(alloc, text) {
        Ok(members) => add_place(message, name, text, &Value::Table(members), fault),
        Err(refusal) if refusal.is_memory() => Err(AllocError),
        Err(refusal) => add_refusal(message, name, text, &refusal, fault),
    }
}

// The place and the message of the TOML reader, with the cause and the fix.
fn add_refusal(
    message: &mut Message,
    name: &str,
    text: &[u8],
    refusal: &toml::de::Error,
    fault: &PlanFault,
) -> Result<(), AllocError> {
    let at = match refusal.span() {
        Some(span) => span.start,
        None => 0,
    };
    message.place(name, text, at)?;
    message.sentence("{}", &[Part::Word(refusal.message())])?;
    let words = plan_explanation(fault);
    let fix = toml_fix(text, at, refusal.message(), words.fix);
    message.words(Explanation::new(words.cause, fix))
}

// A single quote within a word ends the string, and a table in single brackets occurs once. Only a key that occurs twice has the general fix.
fn toml_fix(text: &[u8], at: usize, reason: &str, general: &'static str) -> &'static str {
    let near = text
        .get(at.saturating_sub(2)..at.saturating_add(1))
        .unwrap_or(&[]);
    if let [letter, b'\'', next] = near
        && letter.is_ascii_alphabetic()
        && next.is_ascii_alphabetic()
    {
        return APOSTROPHE;
    }
    if text.get(at..).unwrap_or(&[]).starts_with(b"[tables]") {
        return "Write [[tables]], with two brackets on each side.";
    }
    if reason == "duplicate key" {
        return general;
    }
    "Correct the text at this line and column."
}

fn add_place(
    message: &mut Message,
    name: &str,
    text: &[u8],
    document: &Value,
    fault: &PlanFault,
) -> Result<(), AllocError> {
    let path = path_to_fault(document, fault);
    let value = value_at(document, path.as_slice());
    let place = match key_of_fault(document, value, fault) {
        Some(key) => path.key(key),
        None => path,
    };
    message.place_of(name, text, place.as_slice())?;
    add_part_name(message, document, fault)?;
    add_explanation(message, document, value, fault)
}
