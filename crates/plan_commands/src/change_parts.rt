//! What differs between two benefits, in parts: each term, the status, and the remarks.

use crate::zone_lines::append_reason;
use faults::RoleKey;
use feel_tests::{Sequence, Text, Value};
use fixpoint::Fixed;
use plan_checks::{Benefit, Change, Terms};
use std::alloc::{AllocError, Global};

/// The terms of a covered claim, in the order in which they are listed.
const TERMS: [RoleKey; 7] = [
    RoleKey::Fee,
    RoleKey::Deductible,
    RoleKey::Copay,
    RoleKey::Rate,
    RoleKey::OopMax,
    RoleKey::FamilyDeductible,
    RoleKey::FamilyOopMax,
];

/// Something that can differ between two benefits.
#[derive(Clone, Copy)]
enum Aspect {
    Term(RoleKey),
    Status,
    Remarks,
}

/// The different parts of some changes: terms first, then statuses, then remarks.
pub struct ChangeParts {
    /// The texts of the parts, such as `fee 220 -> 240`.
    pub texts: Vec<Vec<u8>>,
    /// For each change the indices of its parts, in their order.
    pub of_change: Vec<Sequence<usize>>,
}

impl Drop for ChangeParts {
    fn drop(self) {
        let ChangeParts {
            texts: _,
            of_change: _,
        } = self;
    }
}

/// Returns the different parts of the changes.
pub fn parts_of(alloc: Global, changes: &[Change]) -> Result<ChangeParts, AllocError> {
    let mut of_change = Vec::new(alloc);
    for _ in changes {
        of_change.push(Sequence::new(alloc))?;
    }
    let mut parts = ChangeParts {
        texts: Vec::new(alloc),
        of_change,
    };
    for key in TERMS {
        add_parts(alloc, &mut parts, changes, Aspect::Term(key))?;
    }
    add_parts(alloc, &mut parts, changes, Aspect::Status)?;
    add_parts(alloc, &mut parts, changes, Aspect::Remarks)?;
    Ok(parts)
}

fn add_parts(
    alloc: Global,
    parts: &mut ChangeParts,
    changes: &[Change],
    aspect: Aspect,
) -> Result<(), AllocError> {
    let first = parts.texts.len();
    for (place, change) in changes.iter().enumerate() {
        let text = part_text(alloc, change, aspect)?;
        if !text.is_empty() {
            let part = index_of(&mut parts.texts, first, text)?;
            if let Some(own) = parts.of_change.get_mut(place) {
                own.push(part)?;
            }
        }
    }
    Ok(())
}

// Returns the index of the text, to which it is appended if it is none of those from the index `first` on.
fn index_of(texts: &mut Vec<Vec<u8>>, first: usize, text: Vec<u8>) -> Result<usize, AllocError> {
    for (place, known) in texts.iter().enumerate() {
        if place >= first && known.as_slice() == text.as_slice() {
            return Ok(place);
        }
    }
    let place = texts.len();
    texts.push(text)?;
    Ok(place)
}

// Returns the text of the aspect of a change; empty if the benefits do not differ in it.
fn part_text(alloc: Global, change: &Change, aspect: Aspect) -> Result<Vec<u8>, AllocError> {
    match aspect {
        Aspect::Term(key) => term_text(alloc, change, key),
        Aspect::Status => status_text(alloc, change),
        Aspect::Remarks => remarks_text(alloc, change),
    }
}

fn term_text(alloc: Global, change: &Change, key: RoleKey) -> Result<Vec<u8>, AllocError> {
    let mut text = Vec::new(alloc);
    if let Some(old) = term_of(&change.old, key)
        && let Some(new) = term_of(&change.new, key)
        && old != new
    {
        text.extend_from_slice(key.key().as_bytes())?;
        text.extend_from_slice(b" ")?;
        append_number(&mut text, old)?;
        text.extend_from_slice(b" -> ")?;
        append_number(&mut text, new)?;
    }
    Ok(text)
}

fn append_number(text: &mut Vec<u8>, number: Fixed) -> Result<(), AllocError> {
    Value::Number(number).write_text(text)
}

// Returns the term with this key, if the benefit has it.
fn term_of(benefit: &Benefit, key: RoleKey) -> Option<Fixed> {
    match benefit {
        Benefit::Covered { terms, .. } => own_term_of(terms, key),
        _ => None,
    }
}

fn own_term_of(terms: &Terms, key: RoleKey) -> Option<Fixed> {
    match key {
        RoleKey::Fee => Some(terms.fee.amount()),
        RoleKey::Deductible => Some(terms.deductible.amount()),
        RoleKey::Copay => Some(terms.copay.amount()),
        RoleKey::Rate => Some(terms.rate),
        RoleKey::OopMax => Some(terms.oop_max.amount()),
        RoleKey::FamilyDeductible => Some(terms.family?.deductible.amount()),
        RoleKey::FamilyOopMax => Some(terms.family?.oop_max.amount()),
        _ => None,
    }
}

fn status_text(alloc: Global, change: &Change) -> Result<Vec<u8>, AllocError> {
    let mut text = status_of(alloc, &change.old)?;
    let new = status_of(alloc, &change.new)?;
    if text.as_slice() == new.as_slice() {
        return Ok(Vec::new(alloc));
    }
    text.extend_from_slice(b" -> ")?;
    text.extend_from_slice(new.as_slice())?;
    Ok(text)
}

fn status_of(alloc: Global, benefit: &Benefit) -> Result<Vec<u8>, AllocError> {
    let mut text = Vec::new(alloc);
    match benefit {
        Benefit::Pends(reason) => {
            text.extend_from_slice(b"pends ")?;
            append_reason(alloc, &mut text, *reason)?;
        }
        Benefit::Denied { .. } => text.extend_from_slice(b"denied")?,
        Benefit::Covered { .. } => text.extend_from_slice(b"covered")?,
    }
    Ok(text)
}

// Remarks are compared only where both plans cover the claim, or both deny it. Another status has other remarks of its own.
fn remarks_text(alloc: Global, change: &Change) -> Result<Vec<u8>, AllocError> {
    match &change.old {
        Benefit::Denied { remarks: old } => match &change.new {
            Benefit::Denied { remarks: new } => changed_remarks(alloc, old, new),
            _ => Ok(Vec::new(alloc)),
        },
        Benefit::Covered { remarks: old, .. } => match &change.new {
            Benefit::Covered { remarks: new, .. } => changed_remarks(alloc, old, new),
            _ => Ok(Vec::new(alloc)),
        },
        Benefit::Pends(_) => Ok(Vec::new(alloc)),
    }
}

fn changed_remarks(
    alloc: Global,
    old: &Sequence<Text>,
    new: &Sequence<Text>,
) -> Result<Vec<u8>, AllocError> {
    let mut text = Vec::new(alloc);
    if are_same_texts(old.as_slice(), new.as_slice()) {
        return Ok(text);
    }
    let removed = texts_without(alloc, old.as_slice(), new.as_slice())?;
    let added = texts_without(alloc, new.as_slice(), old.as_slice())?;
    text.extend_from_slice(b"remarks ")?;
    append_remarks(&mut text, removed.as_slice(), added.as_slice())?;
    Ok(text)
}

fn append_remarks(text: &mut Vec<u8>, removed: &[u8], added: &[u8]) -> Result<(), AllocError> {
    if removed.is_empty() && added.is_empty() {
        return text.extend_from_slice(b"in another order or number");
    }
    let sign: &[u8] = if removed.is_empty() {
        b"+ "
    } else if added.is_empty() {
        b"- "
    } else {
        b""
    };
    text.extend_from_slice(sign)?;
    text.extend_from_slice(removed)?;
    if sign.is_empty() {
        text.extend_from_slice(b" -> ")?;
    }
    text.extend_from_slice(added)
}

// Returns the texts that are none of the others, as literals with commas between them.
fn texts_without(alloc: Global, texts: &[Text], others: &[Text]) -> Result<Vec<u8>, AllocError> {
    let mut found = Vec::new(alloc);
    for text in texts {
        if !has_text(others, text) {
            if !found.is_empty() {
                found.extend_from_slice(b",")?;
            }
            Value::Text(Text::new(alloc, text.as_str())?).write_text(&mut found)?;
        }
    }
    Ok(found)
}

fn has_text(texts: &[Text], text: &Text) -> bool {
    for known in texts {
        if known.as_str() == text.as_str() {
            return true;
        }
    }
    false
}

fn are_same_texts(one: &[Text], other: &[Text]) -> bool {
    if one.len() != other.len() {
        return false;
    }
    for (first, second) in one.iter().zip(other) {
        if first.as_str() != second.as_str() {
            return false;
        }
    }
    true
}
