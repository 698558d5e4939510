//! The explanation of a record.
ghost use Rattle.std.specs.Prelude.{◌≢◌, ◌↔◌, IfOk, IsTrue, option_map};
ghost use Rattle.journal.specs.declared.order.Order.TheVariants.{Any};
ghost use Rattle.explanation.specs.Explanation.{IsPlace, IsTextOver};

use crate::claim_facts::facts_of_row;
use crate::format::{Format, facts_text};
use crate::row::{Place, find_row};
use claim_gate::Terms;
use std::alloc::{AllocError, Global};

/// Returns the text of the explanation of a record, or `None` if there is no record at the place.
pub(crate) fn record_text(
    alloc: Global,
    terms: &Terms,
    place: Place,
    format: Format,
) -> Result<Option<Vec<u8>>, AllocError>
    requires { terms.now.order ≢ Any }
    ensures { IfOk result (λ text.
        IsTextOver terms.now place format (option_map (λ t. t.items) text)) }
{
    if !is_place(terms, place) {
        return Ok(None);
    }
    let Some(row) = find_row(alloc, terms, place)? else {
        return Ok(None);
    };
    let facts = facts_of_row(alloc, terms, place, &row)?;
    Ok(Some(facts_text(alloc, format, facts.as_slice())?))
}

fn is_place(terms: &Terms, place: Place) -> bool
    ensures { IsTrue result ↔ IsPlace terms.now place }
{
    1 <= place.provider && place.provider <= terms.files().len() && 1 <= place.number
}
