//! The reader of claims, which makes each claim directly from its record.
ghost use Rattle.std.specs.Prelude.{◌≡◌, ◌<◌, ◌++◌, length, map, IfOk, IfErr, IfSome, IfNone, OnOk};
ghost use Rattle.std.specs.List.{All, Any};
ghost use Rattle.intake_csv.specs.Columns.{claim_columns, family_columns, required_column, own_columns};
ghost use Rattle.intake_csv.specs.declared.column.Content.TheVariants as contents;
ghost use Rattle.intake_csv.specs.Validated.{IsRefusedUnder};
ghost use Rattle.intake_csv.specs.Record.{AreFromMember, GoesOnAs, IsClaimLayout};
ghost use Rattle.intake_csv.specs.Rows.{AreValues, HasFault, HasValues, claim_values};
ghost use Rattle.intake_csv.specs.HeaderedFile.{IsWithin};

use crate::column::{Column, Content, Layout, RequiredColumn, push_column};
use crate::column_values::{day_of_column, money_of_column, text_of_column, values_of_columns};
use crate::csv_record::CsvRecord;
use crate::validation::first_fault;
use faults::names::{BILLED, CLAIM, FAMILY, MEMBER, SERVICE};
use faults::{RowCause, RowFault};
use feel_tests::{Kind, Text, Value};
use settlement::{Claim, fields_of};
use std::alloc::{AllocError, Global};
use tables::{InputData, Plan, Sequence};

/// Returns the required columns of a claim file under a plan.
pub fn claim_columns(alloc: Global, plan: &Plan) -> Result<Sequence<RequiredColumn>, AllocError>
    ensures { IfOk result (λ columns. columns ≡ claim_columns plan.now.names) }
{
    let mut needed = own_columns(alloc, plan.keeps_families())?;
    push_fields(alloc, &mut needed, fields_of(plan))?;
    Ok(needed)
}

fn own_columns(alloc: Global, families: bool) -> Result<Sequence<RequiredColumn>, AllocError>
    ensures { IfOk result (λ columns. columns ≡ own_columns families) }
{
    let mut needed = Sequence::new(alloc);
    push_column(alloc, &mut needed, CLAIM, Content::Identifier)?;
    push_family(alloc, &mut needed, families)?;
    push_column(alloc, &mut needed, MEMBER, Content::Identifier)?;
    push_column(alloc, &mut needed, SERVICE, Content::Plain(Kind::Day))?;
    push_column(alloc, &mut needed, BILLED, Content::Money)?;
    Ok(needed)
}

/// Appends the column of the family, if the plan keeps accumulators for families.
pub fn push_family(
    alloc: Global,
    needed: &mut Sequence<RequiredColumn>,
    families: bool,
) -> Result<(), AllocError>
    ensures { OnOk result (needed.new ≡ needed.old ++ family_columns families) }
{
    if families {
        push_column(alloc, needed, FAMILY, Content::Identifier)
    } else {
        Ok(())
    }
}

fn push_fields(
    alloc: Global,
    columns: &mut Sequence<RequiredColumn>,
    fields: &[InputData],
) -> Result<(), AllocError>
    ensures { OnOk result (columns.new
        ≡ columns.old ++ map (λ d. required_column d.name (contents.Plain d.kind)) fields.now) }
{
    for field in fields {
        push_column(
            alloc,
            columns,
            field.name.as_str(),
            Content::Plain(field.kind),
        )?;
    }
    Ok(())
}

/// Reads a record of a claim file, and returns its claim or its first fault. A record without a
/// claim is validated once more, to find the leftmost fault. The claim's fields take the memory of
/// `spare`, whose items are dropped.
pub fn read_claim(
    alloc: Global,
    families: bool,
    layout: &Layout,
    row: &CsvRecord,
    spare: Sequence<Value>,
) -> Result<Result<Claim, RowFault>, AllocError>
    requires within { IsWithin layout.now }
    requires claims { IsClaimLayout families layout.now }
    ensures claim { IfOk result (λ read. IfOk read (λ claim.
        HasValues layout.now row.now (claim_values claim))) }
    ensures fault { IfOk result (λ read. IfErr read (HasFault layout.now row.now)) }
{
    if row.len() != layout.width {
        return Ok(Err(RowFault {
            column: 0,
            cause: RowCause::FieldCount,
        }));
    }
    if let Some(claim) = claim_of_record(alloc, families, layout, row, spare)? {
        return Ok(Ok(claim));
    }
    match first_fault(alloc, layout.columns.as_slice(), row)? {
        Some(fault) => Ok(Err(fault)),
        None => unreachable!(),
    }
}

// Returns the claim of these columns, or `None` if a field is refused.
fn claim_of_record(
    alloc: Global,
    families: bool,
    layout: &Layout,
    row: &CsvRecord,
    spare: Sequence<Value>,
) -> Result<Option<Claim>, AllocError>
    requires within { All (λ c. c.place < length row.now) layout.now.columns }
    requires claims { IsClaimLayout families layout.now }
    ensures claim { IfOk result (λ read. IfSome read (λ claim.
        AreValues row.now layout.now.columns (claim_values claim))) }
    ensures none { IfOk result (λ read. IfNone read
        (Any (IsRefusedUnder row.now) layout.now.columns)) }
{
    let [id, following @ ..] = layout.columns.as_slice() else {
        unreachable!();
    };
    let Some(id) = text_of_column(alloc, *id, row)? else {
        return Ok(None);
    };
    if !families {
        return claim_after_id(alloc, id, None, following, row, spare);
    }
    let [family, following @ ..] = following else {
        unreachable!();
    };
    let Some(family) = text_of_column(alloc, *family, row)? else {
        return Ok(None);
    };
    claim_after_id(alloc, id, Some(family), following, row, spare)
}

// Returns the claim with this identifier and family. The columns are those from the member onwards.
fn claim_after_id(
    alloc: Global,
    id: Text,
    family: Option<Text>,
    columns: &[Column],
    row: &CsvRecord,
    spare: Sequence<Value>,
) -> Result<Option<Claim>, AllocError>
    requires within { All (λ c. c.place < length row.now) columns.now }
    requires columns { AreFromMember columns.now }
    ensures claim { IfOk result (λ read. IfSome read (GoesOnAs row.now columns.now id family)) }
    ensures none { IfOk result (λ read. IfNone read (Any (IsRefusedUnder row.now) columns.now)) }
{
    let [member, service, billed, fields @ ..] = columns else {
        unreachable!();
    };
    let Some(member) = text_of_column(alloc, *member, row)? else {
        return Ok(None);
    };
    let Some(service) = day_of_column(alloc, *service, row)? else {
        return Ok(None);
    };
    let Some(billed) = money_of_column(*billed, row) else {
        return Ok(None);
    };
    let Some(fields) = values_of_columns(alloc, fields, row, spare)? else {
        return Ok(None);
    };
    Ok(Some(Claim {
        id,
        family,
        member,
        service,
        billed,
        fields,
    }))
}
