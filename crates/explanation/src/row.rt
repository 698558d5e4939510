//! A record of a provider's file, by its number.
ghost use Rattle.std.specs.Prelude.{IfOk};
ghost use Rattle.explanation.specs.Explanation.{IsPlace, IsRowOf};

use claim_gate::Terms;
use intake_csv::{
    Row, given_row_is_the_first, no_records_give_no_rows, reader_begins_with_all_rows,
};
use std::alloc::{AllocError, Global};

/// A record of the remittance, by its first two fields.
#[derive(Clone, Copy)]
pub struct Place {
    /// The number of the provider's file, from 1.
    pub provider: usize,
    /// The number of the record after the file's header, from 1.
    pub number: usize,
}

/// Returns the record at the place, or `None` if the file has fewer records.
pub(crate) fn find_row(
    alloc: Global,
    terms: &Terms,
    place: Place,
) -> Result<Option<Row>, AllocError>
    requires { IsPlace terms.now place }
    ensures { IfOk result (IsRowOf terms.now place) }
{
    // proof: a reader begins with all rows, returns the first of its remaining rows, and no row after
    // the last one
    reader_begins_with_all_rows();
    given_row_is_the_first();
    no_records_give_no_rows();
    let mut rows = terms.rows(alloc, place.provider)?;
    for _ in 0..place.number - 1 {
        let Some(row) = rows.next()? else {
            return Ok(None);
        };
        drop(row);
    }
    rows.next()
}
