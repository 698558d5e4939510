//! The numbers of the records of claims.
ghost use Rattle.std.specs.Prelude.{◌≡◌, ◌≤◌, ◌-◌, [], get_or, length, IfOk, OnOk};
ghost use Rattle.claim_gate.specs.Terms.{ForTerms};
ghost use Rattle.explanation.specs.Cases.{IsNumberOf};
ghost use Rattle.explanation.specs.Walking.{AreReaders, IsReader};

use claim_gate::Terms;
use intake_csv::{
    CsvRecord, RowSummary, Rows, given_row_is_the_first, reader_begins_with_all_rows,
};
use std::alloc::{AllocError, Global};

/// Returns a reader at the first row of each file.
pub(crate) fn readers_of<'t>(alloc: Global, terms: &Terms<'t>) -> Result<Vec<Rows<'t>>, AllocError>
    ensures { IfOk result (λ readers. AreReaders terms.now readers.items) }
{
    // proof: a reader begins with all rows
    reader_begins_with_all_rows();
    let mut readers = Vec::new(alloc);
    'files: for place in 0..terms.files().len() {
        readers.push(terms.rows(alloc, place + 1)?)?;
    }
    Ok(readers)
}

/// Returns the number of the record of a provider's claim. The claims of each file are asked for one
/// after another, so that no record is read twice.
pub(crate) fn number_of(
    alloc: Global,
    terms: &Terms,
    readers: &mut Vec<Rows<'_>>,
    provider: usize,
    place: usize,
) -> Result<usize, AllocError>
    requires readers { AreReaders terms.now readers.old.items }
    requires least { 1 ≤ provider }
    requires most { provider ≤ length terms.now.files }
    ensures number { IfOk result (λ number. ForTerms terms.now (λ T. IsNumberOf terms.now T
        (record { provider = provider; place = place }) number)) }
    ensures readers { OnOk result (AreReaders terms.now readers.new.items) }
{
    let index = provider - 1;
    number_in(alloc, terms, provider, &mut readers[index], place)
}

fn number_in(
    alloc: Global,
    terms: &Terms,
    provider: usize,
    rows: &mut Rows<'_>,
    place: usize,
) -> Result<usize, AllocError>
    requires least { 1 ≤ provider }
    requires most { provider ≤ length terms.now.files }
    requires reader { IsReader terms.now.plan.names
        (get_or terms.now.files (provider - 1) []) rows.old }
    ensures number { IfOk result (λ number. ForTerms terms.now (λ T. IsNumberOf terms.now T
        (record { provider = provider; place = place }) number)) }
    ensures reader { OnOk result (IsReader terms.now.plan.names
        (get_or terms.now.files (provider - 1) []) rows.new) }
{
    // proof: a reader returns the first of its remaining rows
    given_row_is_the_first();
    let mut line = CsvRecord::new(alloc);
    'records: loop {
        let Some(summary) = rows.next_summary(&mut line)? else {
            return Err(AllocError);
        };
        if let RowSummary::Good {
            number,
            place: found,
            ..
        } = summary
        {
            if found == place {
                return Ok(number);
            }
        }
    }
}
