//! The search for a claim by its identifier.
ghost use Rattle.std.specs.Prelude.{◌≡◌, ◌≤◌, ◌-◌, ◌++◌, ◌∷◌, ℕ, List, [], get_or, length, IfErr, IfOk};
ghost use Rattle.dtable.specs.PlanFile.{IsPlanText};
ghost use Rattle.std.specs.Str.{bytes_eq};
ghost use Rattle.intake_csv.specs.RowSummary.{IsLocatedAt, IsSummaryOf};
ghost use Rattle.intake_csv.specs.Rows.{AreRowsOf};
ghost use Rattle.intake_csv.specs.declared.rows.Row.{Row as AnyRow};
ghost use Rattle.explanation.specs.declared.row.Place.{Place as PlaceOfRecord};
ghost use Rattle.explanation.specs.Explained.{IsExplainReason, IsFoundIn, claim_texts};
ghost use Rattle.explanation.specs.Finding.{IsFound, found_in, place_with, places_in};

use crate::row::Place;
use claim_gate::Terms;
use dtable::read_plan;
use intake_csv::{
    CsvRecord, RowSummary, given_row_is_the_first, no_records_give_no_rows,
    reader_begins_with_all_rows,
};
use orders::Stop;
use std::alloc::{AllocError, Global};
use tables::Plan;

/// What is found of an identifier of claims.
#[derive(Clone, Copy)]
pub struct FoundClaim {
    /// The record of the first claim that has it, file by file.
    pub place: Place,
    /// The number of further claims that have it.
    pub others: usize,
}

/// Finds the first claim with an identifier, file by file in the order given, and counts the further
/// claims that have it. Returns `None` if no claim has it.
pub fn find_claim(
    alloc: Global,
    plan: &[u8],
    files: &[&[u8]],
    id: &str,
) -> Result<Option<FoundClaim>, Stop>
    ensures found { IfOk result (IsFoundIn (claim_texts plan.now files.now) id.now) }
    ensures reason { IfErr result (IsExplainReason (claim_texts plan.now files.now)) }
{
    let plan = read_plan(alloc, plan)?;
    let found = find_under(alloc, &plan, files, id);
    drop(plan);
    found
}

// Continues `find_claim` after the plan is read.
fn find_under(
    alloc: Global,
    plan: &Plan,
    files: &[&[u8]],
    id: &str,
) -> Result<Option<FoundClaim>, Stop>
    ensures found { IfOk result (λ found. (text : List ℕ) → IsPlanText text plan.now
        → IsFoundIn (claim_texts text files.now) id.now found) }
    ensures reason { IfErr result (λ stop. (text : List ℕ) → IsPlanText text plan.now
        → IsExplainReason (claim_texts text files.now) stop) }
{
    let terms = Terms::new(alloc, plan, files, None, None)?;
    let found = find_over(alloc, &terms, id);
    drop(terms);
    Ok(found?)
}

fn find_over(alloc: Global, terms: &Terms, id: &str) -> Result<Option<FoundClaim>, AllocError>
    ensures { IfOk result (IsFound terms.now id.now) }
{
    let mut found = None;
    let count = file_count(terms);
    for index in 0..count {
        let more = find_in(alloc, terms, index + 1, id, found)?;
        found = more;
    }
    Ok(found)
}

fn file_count(terms: &Terms) -> usize
    ensures { result ≡ length terms.now.files }
{
    terms.files().len()
}

// Continues a search in a provider's file.
fn find_in(
    alloc: Global,
    terms: &Terms,
    provider: usize,
    id: &str,
    earlier: Option<FoundClaim>,
) -> Result<Option<FoundClaim>, AllocError>
    requires least { 1 ≤ provider }
    requires most { provider ≤ length terms.now.files }
    ensures { IfOk result (λ found. (rows : List AnyRow) (places : List PlaceOfRecord)
        → AreRowsOf terms.now.plan.names (get_or terms.now.files (provider - 1) []) rows
        → earlier ≡ found_in places → found ≡ found_in (places ++ places_in id.now provider rows)) }
{
    // proof: a reader begins with all rows, returns the first of its remaining rows, and no row after
    // the last one
    reader_begins_with_all_rows();
    given_row_is_the_first();
    no_records_give_no_rows();
    let mut rows = terms.rows(alloc, provider)?;
    let mut line = CsvRecord::new(alloc);
    let mut found = earlier;
    'records: loop {
        let Some(summary) = rows.next_summary(&mut line)? else {
            return Ok(found);
        };
        let more = found_with(provider, id, &summary, &line, found)?;
        found = more;
    }
}

// Counts a row, if it is a claim with the identifier.
fn found_with(
    provider: usize,
    id: &str,
    summary: &RowSummary,
    line: &CsvRecord,
    earlier: Option<FoundClaim>,
) -> Result<Option<FoundClaim>, AllocError>
    ensures { IfOk result (λ found. (row : AnyRow) (places : List PlaceOfRecord)
        → IsSummaryOf line.now summary.now row → earlier ≡ found_in places
        → found ≡ found_in (places ++ place_with id.now provider row)) }
{
    let RowSummary::Good {
        number,
        id_columns,
        ..
    } = summary
    else {
        return Ok(earlier);
    };
    if !has_id(line, id_columns.id, id) {
        return Ok(earlier);
    }
    let number = *number;
    with_place(earlier, Place { provider, number })
}

fn has_id(line: &CsvRecord, place: usize, id: &str) -> bool
    ensures { (text : List ℕ) → IsLocatedAt line.now place text → result ≡ bytes_eq text id.now }
{
    match line.bytes(place) {
        Some(text) => text == id.as_bytes(),
        None => false,
    }
}

fn with_place(earlier: Option<FoundClaim>, place: Place) -> Result<Option<FoundClaim>, AllocError>
    ensures { IfOk result (λ found. (places : List PlaceOfRecord) → earlier ≡ found_in places
        → found ≡ found_in (places ++ place ∷ [])) }
{
    let Some(first) = earlier else {
        return Ok(Some(FoundClaim { place, others: 0 }));
    };
    // No memory has room for as many claims.
    let others = first.others.checked_add(1).ok_or(AllocError)?;
    Ok(Some(FoundClaim {
        place: first.place,
        others,
    }))
}
