//! Finds the unknown keys of a plan's text.

use diagnostics::{
    Message, Node, Part, Position, Positions, Shape, document_of, dots_if, places_of, shown_front,
    version_of,
};
use std::alloc::{AllocError, Global};

/// A line for each unknown key of a plan's text, in the order of the text, without the keys inside the value of an unknown key.
pub fn unknown_keys(alloc: Global, text: &str) -> Result<Message, AllocError> {
    let families = keeps_families(alloc, text)?;
    let places = places_of(alloc, text)?;
    let mut message = Message::new(alloc);
    let done = add_unknown_keys(alloc, &mut message, text, places.nodes(), families);
    message.after(done)
}

// A node is after the node that contains it, so that the shape of that one is known.
fn add_unknown_keys(
    alloc: Global,
    message: &mut Message,
    text: &str,
    nodes: &[Node],
    families: bool,
) -> Result<(), AllocError> {
    let mut positions = Positions::new(text.as_bytes());
    let mut shapes: Vec<Shape> = Vec::new(alloc);
    for node in nodes {
        let within = shapes.get(node.parent).copied();
        let shape = shape_of(node, within, families);
        shapes.push(shape)?;
        if shape == Shape::UnusedKey
            && let Some(within) = within
            && within.has_keys()
            && let Some(key) = &node.key
        {
            let near = within.near_key(key.as_str(), families);
            add_unknown_key(message, key.as_str(), positions.next(node.at), near)?;
        }
    }
    Ok(())
}

fn add_unknown_key(
    message: &mut Message,
    key: &str,
    position: Position,
    near: Option<&'static str>,
) -> Result<(), AllocError> {
    let sentence = match near {
        Some(_) => "unknown key `{}{}` at line {} column {}; did you mean `{}`?\n",
        None => "unknown key `{}{}` at line {} column {}\n",
    };
    let shown = shown_front(key);
    let values = [
        Part::Word(shown),
        Part::Word(dots_if(shown.len() < key.len())),
        Part::Number(position.line),
        Part::Number(position.column),
        Part::Word(near.unwrap_or("")),
    ];
    message.add(sentence, &values)
}

// The document itself is in no table.
fn shape_of(node: &Node, within: Option<Shape>, families: bool) -> Shape {
    match (within, &node.key) {
        (None, _) => Shape::Plan,
        (Some(within), None) => within.item(),
        (Some(within), Some(key)) => within.key_shape(key.as_str(), families),
    }
}

// Only version 3 of a plan has the keys of the family's limits. A text that is no TOML has no version.
fn keeps_families(alloc: Global, text: &str) -> Result<bool, AllocError> {
    match document_of(alloc, text.as_bytes())? {
        Some(document) => Ok(version_of(&document) == Some(3)),
        None => Ok(false),
    }
}
