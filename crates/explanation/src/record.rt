//! The record of the remittance.
ghost use Rattle.std.specs.Prelude.{◌≡◌, List, ℕ, [], ◌∷◌, IfOk, OnOk, option_map};
ghost use Rattle.remit_records.specs.Fields.{HasFields, Pushes};
ghost use Rattle.remit_records.specs.Records.{id_column_fields};
ghost use Rattle.remit_records.specs.Report.{record_text, report_style};
ghost use Rattle.explanation.specs.Steps.{claim_record, refused_record};

use csv::Writer;
use feel_tests::{day_year, year_text};
use intake_csv::RowFault;
use remit_records::{
    end_record, push_claim, push_field, push_number, push_refused, push_whose, writer_into,
};
use settlement::{Claim, Outcome};
use std::alloc::{AllocError, Global};

/// Returns the remittance's record for a claim, with its line end. A claim without an outcome came
/// too late.
pub(crate) fn claim_record(
    alloc: Global,
    version: u8,
    provider: usize,
    number: usize,
    claim: &Claim,
    decided: Option<&Outcome>,
) -> Result<Vec<u8>, AllocError>
    ensures { IfOk result (λ text. text.items ≡ record_text
        (claim_record version provider number claim.now (option_map (λ o. o.now) decided.entry))) }
{
    let mut joined = Vec::new(alloc);
    let mut line = new_record(alloc);
    push_number(&mut line, provider)?;
    push_number(&mut line, number)?;
    push_id_columns(&mut line, version, claim)?;
    push_claim(alloc, &mut line, &mut joined, decided)?;
    text_of(line)
}

/// Returns the remittance's record for a refused record, with its line end.
pub(crate) fn refused_record(
    alloc: Global,
    version: u8,
    provider: usize,
    number: usize,
    fault: RowFault,
) -> Result<Vec<u8>, AllocError>
    ensures { IfOk result (λ text. text.items
        ≡ record_text (refused_record version provider number fault)) }
{
    let mut line = new_record(alloc);
    push_number(&mut line, provider)?;
    push_number(&mut line, number)?;
    push_whose(&mut line, version, b"", b"", b"", b"")?;
    push_refused(alloc, &mut line, fault)?;
    text_of(line)
}

/// Returns a record with these three fields, in the style of the remittance, with its line end.
pub(crate) fn record_of(
    alloc: Global,
    first: &[u8],
    second: &[u8],
    third: &[u8],
) -> Result<Vec<u8>, AllocError>
    ensures { IfOk result (λ text. text.items
        ≡ record_text (first.now ∷ second.now ∷ third.now ∷ [])) }
{
    let mut line = new_record(alloc);
    push_field(&mut line, first)?;
    push_field(&mut line, second)?;
    push_field(&mut line, third)?;
    text_of(line)
}

fn push_id_columns(line: &mut Writer<Vec<u8>>, version: u8, claim: &Claim) -> Result<(), AllocError>
    ensures { OnOk result (Pushes line.old line.new (id_column_fields version claim.now)) }
{
    let year = year_text(day_year(claim.service.epoch_day()));
    push_whose(
        line,
        version,
        claim.id.as_bytes(),
        claim.family().as_bytes(),
        claim.member.as_bytes(),
        year.as_slice(),
    )
}

// Returns a record without fields.
fn new_record(alloc: Global) -> Writer<Vec<u8>>
    ensures { HasFields report_style [] [] result }
{
    writer_into(Vec::new(alloc))
}

// Returns the text of a record that is the first of its writer.
fn text_of(line: Writer<Vec<u8>>) -> Result<Vec<u8>, AllocError>
    ensures { IfOk result (λ text. (fields : List (List ℕ)) → HasFields report_style [] fields line
        → text.items ≡ record_text fields) }
{
    let mut line = line;
    end_record(&mut line)?;
    match line.into_inner() {
        Ok(text) => Ok(text),
        Err(_) => Err(AllocError),
    }
}
