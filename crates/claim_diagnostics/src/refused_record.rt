//! Says in words why records of a claim file were refused.

use crate::claim_file::{column_name, header_of};
use crate::file_texts::record_explanation;
use diagnostics::{Kind, Message, Part, document_of, kind_of_built_in, kind_of_name};
use faults::{RowCause, RowFault};
use std::alloc::{AllocError, Global};

/// A line with the column and the cause of this fault of a record of a claim file.
pub fn explain_refused_record(
    alloc: Global,
    text: &[u8],
    plan: &[u8],
    fault: &RowFault,
) -> Result<Message, AllocError> {
    let header = header_of(alloc, text)?;
    let column = column_name(&header, fault.column);
    let cause = cause_of(alloc, plan, column, fault.cause)?;
    let sentence = if column.is_empty() {
        "{}{}"
    } else {
        "Column `{}`: {}"
    };
    let mut message = Message::new(alloc);
    let done = message.sentence(sentence, &[Part::Word(column), Part::Word(cause)]);
    message.after(done)
}

fn cause_of(
    alloc: Global,
    plan: &[u8],
    column: &str,
    cause: RowCause,
) -> Result<&'static str, AllocError> {
    match cause {
        RowCause::Value => Ok(value_cause(kind_in_plan(alloc, plan, column)?)),
        RowCause::EmptyId => Ok("The field is empty."),
        cause => Ok(record_explanation(cause).cause),
    }
}

fn kind_in_plan(alloc: Global, plan: &[u8], column: &str) -> Result<Option<Kind>, AllocError> {
    match document_of(alloc, plan)? {
        Some(document) => Ok(kind_of_name(&document, column)),
        None => Ok(kind_of_built_in(column)),
    }
}

fn value_cause(kind: Option<Kind>) -> &'static str {
    match kind {
        Some(Kind::Number) => "The field is not a number, such as 1234.50.",
        Some(Kind::Day) => "The field is not a day, such as 2024-02-29.",
        Some(Kind::Flag) => "The field is neither true nor false.",
        Some(Kind::Text) | None => "The field is not a value of its column.",
    }
}
