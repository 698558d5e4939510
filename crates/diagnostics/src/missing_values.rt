//! Explains that the tables read names without a value, and how the argument of each is written.

use crate::input_name::is_of_families;
use crate::kind::{Kind, kind_of_name};
use crate::message::{Message, Part};
use crate::plan_node::{document_of, entry_of_name, items_after, tables, text_at};
use crate::system_texts::missing_value;
use faults::names;
use std::alloc::{AllocError, Global};
use toml::Value;

/// The built-in names before the fields, in the order in which missing names are reported.
static NAMES_BEFORE_FIELDS: [&str; 5] = [
    names::CLAIM,
    names::FAMILY,
    names::MEMBER,
    names::SERVICE,
    names::BILLED,
];

/// The built-in names after the fields.
static NAMES_AFTER_FIELDS: [&str; 5] = [
    names::MET,
    names::OOP,
    names::PAID,
    names::FAMILY_MET,
    names::FAMILY_OOP,
];

/// Explains that no argument gives a value for a name. A line for each such name that a table reads shows how its argument is written.
pub fn explain_missing(
    alloc: Global,
    plan: &[u8],
    arguments: &[&str],
) -> Result<Message, AllocError> {
    let document = document_of(alloc, plan)?;
    let mut message = Message::new(alloc);
    let done = add_missing(&mut message, &document, arguments);
    message.after(done)
}

fn add_missing(
    message: &mut Message,
    document: &Option<Value>,
    arguments: &[&str],
) -> Result<(), AllocError> {
    if let Some(document) = document {
        add_built_in(message, document, &NAMES_BEFORE_FIELDS, arguments)?;
        for field in items_after(Some(document), "fields") {
            add_name(message, document, text_at(field, &[], "name"), arguments)?;
        }
        add_built_in(message, document, &NAMES_AFTER_FIELDS, arguments)?;
    }
    message.words(missing_value())
}

// A plan without families may have a field with a name that other plans have built in.
fn add_built_in(
    message: &mut Message,
    document: &Value,
    names: &[&'static str],
    arguments: &[&str],
) -> Result<(), AllocError> {
    for name in names {
        if !is_of_families(document, *name) {
            add_name(message, document, *name, arguments)?;
        }
    }
    Ok(())
}

fn add_name(
    message: &mut Message,
    document: &Value,
    name: &str,
    arguments: &[&str],
) -> Result<(), AllocError> {
    if let Some(kind) = kind_of_name(document, name)
        && is_read(document, name)
        && !is_given(arguments, name)
    {
        let sentence = match kind {
            Kind::Number => "`{}` needs a number, such as {}=12.5",
            Kind::Text => "`{}` needs a text, such as '{}=\"A\"'",
            Kind::Flag => "`{}` needs a flag, such as {}=true",
            Kind::Day => "`{}` needs a day, such as '{}=date(\"2024-02-29\")'",
        };
        let word = Part::Word(name);
        return message.sentence(sentence, &[word, word]);
    }
    Ok(())
}

fn is_read(document: &Value, name: &str) -> bool {
    for table in tables(document) {
        if entry_of_name(items_after(Some(table), "inputs"), name).is_some() {
            return true;
        }
    }
    false
}

fn is_given(arguments: &[&str], name: &str) -> bool {
    for argument in arguments {
        if let Some((front, _)) = argument.split_once('=')
            && front == name
        {
            return true;
        }
    }
    false
}
