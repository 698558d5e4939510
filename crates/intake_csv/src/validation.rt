//! The validation of a record. It keeps no values, so that a text needs no memory.
ghost use Rattle.std.specs.Prelude.{◌<◌, ◌^◌, length, IfOk, IfErr};
ghost use Rattle.std.specs.List.{All};
ghost use Rattle.feel_tests.specs.TextBytes.{IsText};
ghost use Rattle.settlement.specs.declared.claim.Claim.{Claim as AnyClaim};
ghost use Rattle.intake_csv.specs.HeaderedFile.{IsWithin};
ghost use Rattle.intake_csv.specs.Record.{IsClaimLayout, IsLeftmost};
ghost use Rattle.intake_csv.specs.RowSummary.{AreIdColumnsOf};
ghost use Rattle.intake_csv.specs.Rows.{HasFault, HasValues, claim_values};
ghost use Rattle.intake_csv.specs.Validated.{AreValidated, IsColumnValidated, IsFieldValidated};

use crate::column::{Column, Content, Layout};
use crate::column_values::field_of_column;
use crate::csv_record::CsvRecord;
use crate::field::{check_identifier, read_money, read_of_kind, read_year};
use crate::row_summary::IdColumns;
use faults::{RowCause, RowFault};
use feel_tests::Kind;
use std::alloc::{AllocError, Global};

/// Validates a record of a claim file, and returns the columns that identify its claim, or its
/// first fault.
pub fn validate_claim(
    alloc: Global,
    families: bool,
    layout: &Layout,
    line: &CsvRecord,
) -> Result<Result<IdColumns, RowFault>, AllocError>
    requires within { IsWithin layout.now }
    requires claims { IsClaimLayout families layout.now }
    ensures claim { IfOk result (λ validated. IfOk validated (λ id_columns.
        (claim : AnyClaim)
        × HasValues layout.now line.now (claim_values claim)
        × AreIdColumnsOf line.now id_columns claim)) }
    ensures fault { IfOk result (λ validated. IfErr validated (HasFault layout.now line.now)) }
{
    if line.len() != layout.width {
        return Ok(Err(RowFault {
            column: 0,
            cause: RowCause::FieldCount,
        }));
    }
    let columns = layout.columns.as_slice();
    if let Some(fault) = first_fault(alloc, columns, line)? {
        return Ok(Err(fault));
    }
    let (family, following) = if families {
        (Some(columns[1].place), 2)
    } else {
        (None, 1)
    };
    Ok(Ok(IdColumns {
        id: columns[0].place,
        family,
        member: columns[following].place,
        service: columns[following + 1].place,
    }))
}

/// Returns the leftmost fault of these columns, if there is one. All columns are validated, since
/// they are not in the order of the header.
pub fn first_fault(
    alloc: Global,
    columns: &[Column],
    line: &CsvRecord,
) -> Result<Option<RowFault>, AllocError>
    requires within { All (λ c. c.place < length line.now) columns.now }
    requires small { length line.now < 2 ^ 64 }
    ensures { IfOk result (AreValidated line.now columns.now) }
{
    let mut first = None;
    for column in columns {
        first = match validate_column(alloc, *column, line)? {
            None => first,
            Some(cause) => Some(leftmost_fault(
                first,
                RowFault {
                    column: column.place + 1,
                    cause,
                },
            )),
        };
    }
    Ok(first)
}

// Returns the fault whose column comes first in the header.
fn leftmost_fault(first: Option<RowFault>, fault: RowFault) -> RowFault
    ensures { IsLeftmost first fault result }
{
    match first {
        Some(other) if other.column <= fault.column => other,
        _ => fault,
    }
}

// Returns the first fault of a column's field, if it has one.
#[inline(always)]
fn validate_column(
    alloc: Global,
    column: Column,
    line: &CsvRecord,
) -> Result<Option<RowCause>, AllocError>
    requires { column.place < length line.now }
    ensures { IfOk result (IsColumnValidated line.now column) }
{
    match field_of_column(column, line) {
        Ok(text) => validate_text(alloc, column.content, text),
        Err(cause) => Ok(Some(cause)),
    }
}

// A text in a column of texts is its own value, and is not copied.
#[inline(always)]
fn validate_text(
    alloc: Global,
    content: Content,
    text: &str,
) -> Result<Option<RowCause>, AllocError>
    requires { IsText text.now }
    ensures { IfOk result (IsFieldValidated content text.now) }
{
    match content {
        Content::Identifier => Ok(check_identifier(text).err()),
        Content::Money => Ok(read_money(text).err()),
        Content::Year => Ok(read_year(text).err()),
        Content::Plain(Kind::Text) => Ok(None),
        Content::Plain(kind) => Ok(read_of_kind(alloc, kind, text)?.err()),
    }
}
