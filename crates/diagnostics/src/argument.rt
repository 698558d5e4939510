//! Explains the faults of arguments.

use crate::advice::Advice;
use crate::cause_rows::fixes_of_argument;
use crate::cell_hints::cell_advice;
use crate::kind::kind_of_name;
use crate::message::{Message, Part, dots_if, explain_at, shown_front};
use crate::plan_node::document_of;
use crate::row::BadCell;
use crate::system_texts::argument_with_bad_literal;
use crate::texts::{Explanation, cell_explanation};
use faults::{CellCause, CellFault};
use std::alloc::{AllocError, Global};
use toml::Value;

/// Explains the fault of an argument by its cause and its fix.
pub fn explain_argument(
    alloc: Global,
    argument: &str,
    words: Explanation,
) -> Result<Message, AllocError> {
    let shown = shown_front(argument);
    let dots = dots_if(shown.len() < argument.len());
    explain_at(alloc, "{}{}", &[Part::Word(shown), Part::Word(dots)], words)
}

/// Explains an argument whose literal cannot be read, with a mark below the byte of the fault. The text of the plan shows the kind of the literal.
pub fn explain_literal(
    alloc: Global,
    plan: &[u8],
    argument: &str,
    fault: &CellFault,
) -> Result<Message, AllocError> {
    let document = document_of(alloc, plan)?;
    let mut message = Message::new(alloc);
    let done = add_literal(&mut message, &document, argument, fault);
    message.after(done)
}

fn add_literal(
    message: &mut Message,
    document: &Option<Value>,
    argument: &str,
    fault: &CellFault,
) -> Result<(), AllocError> {
    let (name, literal) = argument.split_once('=').unwrap_or(("", argument));
    let begin = argument.len().saturating_sub(literal.len());
    message.mark(argument, begin.saturating_add(fault.at))?;
    message.advice(&literal_advice(document, name, literal, *fault))
}

fn literal_advice<'a>(
    document: &Option<Value>,
    name: &'a str,
    literal: &'a str,
    fault: CellFault,
) -> Advice<'a> {
    if let Some(document) = document
        && let Some(kind) = kind_of_name(document, name)
    {
        let cell = BadCell {
            text: literal.as_bytes(),
            kind,
            is_literal: true,
            fault,
        };
        let advice = cell_advice(document, &cell);
        let is_unquoted = matches!(fault.cause, CellCause::Token | CellCause::WrongKind);
        // The shell removes quotes, so texts and days need another pair of them.
        if is_unquoted && let Some(found) = cell.first_row(fixes_of_argument(kind)) {
            let (name, word) = (Part::Word(name), Part::Word(found.values.texts[0]));
            return Advice::new(advice.words.cause, found.sentence, name, word);
        }
        return advice;
    }
    let cause = cell_explanation(fault.cause).cause;
    Advice::about(cause, argument_with_bad_literal().fix, "")
}
