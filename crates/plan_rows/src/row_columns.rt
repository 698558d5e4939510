//! The columns of a file of rows, and what each of them is for.

ghost use Rattle.std.specs.Prelude.{◌≡◌, IfOk, IfErr};
ghost use Rattle.csv.specs.Records.{fields_of};
ghost use Rattle.plan_rows.specs.Columns.{GivesRead};
ghost use Rattle.plan_rows.specs.RowColumns.{AreRowColumns, carried_use, is_taken, row_use};
ghost use Rattle.plan_rows.specs.RowsStop.{RefusesHeader};

use crate::columns::{Column, FAULT, Use, first_ungiven, is_output, is_repeated, place_of};
use crate::lines::field_of;
use crate::rows_stop::{RowsFault, RowsStop};
use csv::ByteRecord;
use evaluation::ValueStop;
use std::alloc::Global;
use tables::{Name, Plan};

/// Finds what each column of the header is for. The columns have no names, since a row needs none.
///
/// # Errors
///
/// The first column that gives a name which an earlier column gives, or that has the name of another
/// column of the result, is the error. If there is none, it is the first name that a table reads and
/// no column gives.
#[tactic(auto, using(crate::proofs::Givens::gives_read, crate::proofs::RowHeader::lacks_name))]
pub fn read_row_columns(
    alloc: Global,
    plan: &Plan,
    header: &ByteRecord,
) -> Result<Vec<Column<'static>>, RowsStop>
    ensures columns { IfOk result (λ columns.
        AreRowColumns plan.now (fields_of header.now) columns.items) }
    ensures needed { IfOk result (λ columns. GivesRead plan.now columns.items) }
    ensures refused { IfErr result (RefusesHeader plan.now (fields_of header.now)) }
{
    let columns = list_columns(alloc, plan, header)?;
    if let Some(input) = first_ungiven(plan, columns.as_slice()) {
        let name = Name::new(alloc, input.name.as_str())?;
        return Err(RowsStop::Value(ValueStop::Missing(name)));
    }
    Ok(columns)
}

fn list_columns(
    alloc: Global,
    plan: &Plan,
    header: &ByteRecord,
) -> Result<Vec<Column<'static>>, RowsStop>
    ensures columns { IfOk result (λ columns.
        AreRowColumns plan.now (fields_of header.now) columns.items) }
    ensures refused { IfErr result (RefusesHeader plan.now (fields_of header.now)) }
{
    let mut columns = Vec::new(alloc);
    for place in 0..header.len() {
        let Some(used) = row_use(plan, field_of(header, place)) else {
            return Err(RowsStop::Rows(RowsFault::Taken { column: place + 1 }));
        };
        if is_repeated(columns.as_slice(), used) {
            return Err(RowsStop::Rows(RowsFault::Repeated { column: place + 1 }));
        }
        columns.push(Column { name: "", used })?;
    }
    Ok(columns)
}

fn row_use(plan: &Plan, name: &[u8]) -> Option<Use>
    ensures { result ≡ row_use plan.now name.now }
{
    match place_of(plan.names(), name) {
        Some(place) => Some(Use::Given(place)),
        None => carried_use(plan, name),
    }
}

fn carried_use(plan: &Plan, name: &[u8]) -> Option<Use>
    ensures { result ≡ carried_use plan.now name.now }
{
    if is_taken(plan, name) {
        None
    } else {
        Some(Use::Carried)
    }
}

fn is_taken(plan: &Plan, name: &[u8]) -> bool
    ensures { result ≡ is_taken plan.now name.now }
{
    is_output(plan.tables(), name) || name == FAULT.as_bytes()
}
