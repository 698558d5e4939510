//! Explains a fault of the tables, with the place of the table and the input in the plan's text.

use crate::message::{Message, explain};
use crate::plan_node::{add_name_in_table, document_of, path_in_table};
use crate::texts::{Explanation, tables_explanation};
use faults::Fault;
use std::alloc::{AllocError, Global};
use toml::Value;

/// Explains a fault of the tables, for a plan in a file of this name.
pub fn explain_tables(
    alloc: Global,
    name: &str,
    text: &[u8],
    fault: &Fault,
) -> Result<Message, AllocError> {
    let words = tables_explanation(fault);
    let (table, input) = match fault {
        Fault::Outside { table, column } => (*table, *column),
        Fault::NoRule { table } | Fault::Clash { table } | Fault::Range { table } => (*table, 0),
        Fault::OutOfMemory => return explain(alloc, words),
    };
    let document = document_of(alloc, text)?;
    let mut message = Message::new(alloc);
    let done = add_input(&mut message, name, text, &document, table, input, words);
    message.after(done)
}

// Input 0 is the table itself. Without a document no place is known.
fn add_input(
    message: &mut Message,
    name: &str,
    text: &[u8],
    document: &Option<Value>,
    table: usize,
    input: usize,
    words: Explanation,
) -> Result<(), AllocError> {
    if let Some(document) = document {
        let path = path_in_table(document, table, 0, input);
        message.place_of(name, text, path.as_slice())?;
        add_name_in_table(message, document, table, 0, input)?;
    }
    message.words(words)
}
