//! The columns of a file of tests, and what each of them is for. `row_columns.rt` has those of a file of
//! rows.

ghost use Rattle.std.specs.Prelude.{◌≡◌, IfOk, IfErr, IfSome, IfNone, position};
ghost use Rattle.std.specs.Str.{bytes_eq};
ghost use Rattle.csv.specs.Records.{fields_of};
ghost use Rattle.plan_rows.specs.Columns.{AreColumns, GivesNeeded, IsColumnAt, IsUngiven, IsUnknownAt, expected_use, expects_settlement, fault_use, gives, gives_place, has_output, is_needed, is_of_claim, is_output, is_repeated, is_settled_use, settled_use, settles, use_of};
ghost use Rattle.plan_rows.specs.Stop.{RefusesHeader};

use crate::filing::{first_accumulator, member_place};
use crate::part::Part;
use crate::stop::{CasesFault, TestStop};
use csv::ByteRecord;
use evaluation::ValueStop;
use std::alloc::Global;
use std::str;
use tables::{InputData, Name, Plan, Table};

/// The name of the column that expects a fault, unless the plan has this name.
pub const FAULT: &str = "fault";

/// What the fields of a column are for.
#[derive(Clone, Copy)]
pub enum Use {
    /// They give the value of the plan's name at this index, from 0.
    Given(usize),
    /// They expect the value of the output with the column's name.
    Expected,
    /// They expect a part of the settlement of a claim with the row's values.
    Settled(Part),
    /// They expect the reason why the row's claim pends, or the fault of the tables.
    Fault,
    /// They are carried over as they are. No column of a file of tests is for this.
    Carried,
}

/// A column: its name, and what its fields are for.
#[derive(Clone, Copy)]
pub struct Column<'h> {
    pub name: &'h str,
    pub used: Use,
}

/// Finds what each column of the header is for.
///
/// # Errors
///
/// The first column whose name is not one of the plan, or that gives a name which an earlier column
/// gives, is the error. If there is none, it is the first name that is needed and no column gives:
/// a table reads it, or a claim has it and a column expects a part of the settlement.
pub fn read_columns<'h>(
    alloc: Global,
    plan: &Plan,
    header: &'h ByteRecord,
) -> Result<Vec<Column<'h>>, TestStop>
    ensures columns { IfOk result (λ columns.
        AreColumns plan.now (fields_of header.now) columns.items) }
    ensures needed { IfOk result (λ columns. GivesNeeded plan.now columns.items) }
    ensures refused { IfErr result (RefusesHeader plan.now (fields_of header.now)) }
{
    let columns = list_columns(alloc, plan, header)?;
    if let Some(input) = first_ungiven(plan, columns.as_slice()) {
        let name = Name::new(alloc, input.name.as_str())?;
        return Err(TestStop::Value(ValueStop::Missing(name)));
    }
    Ok(columns)
}

fn list_columns<'h>(
    alloc: Global,
    plan: &Plan,
    header: &'h ByteRecord,
) -> Result<Vec<Column<'h>>, TestStop>
    ensures columns { IfOk result (λ columns.
        AreColumns plan.now (fields_of header.now) columns.items) }
    ensures refused { IfErr result (RefusesHeader plan.now (fields_of header.now)) }
{
    let mut columns = Vec::new(alloc);
    for place in 0..header.len() {
        let Some(column) = column_at(plan, header, place) else {
            return Err(TestStop::Cases(CasesFault::Unknown { column: place + 1 }));
        };
        if is_repeated(columns.as_slice(), column.used) {
            return Err(TestStop::Cases(CasesFault::Repeated { column: place + 1 }));
        }
        columns.push(column)?;
    }
    Ok(columns)
}

// Returns the column at a place of the header, or `None` if nothing has its name.
fn column_at<'h>(plan: &Plan, header: &'h ByteRecord, place: usize) -> Option<Column<'h>>
    ensures column { IfSome result (IsColumnAt plan.now (fields_of header.now) place) }
    ensures unknown { IfNone result (IsUnknownAt plan.now (fields_of header.now) place) }
{
    let field = header.get(place)?;
    let Ok(name) = str::from_utf8(field) else {
        return None;
    };
    let used = use_of(plan, name)?;
    Some(Column { name, used })
}

fn use_of(plan: &Plan, name: &str) -> Option<Use>
    ensures { result ≡ use_of plan.now name.now }
{
    match place_of(plan.names(), name.as_bytes()) {
        Some(place) => Some(Use::Given(place)),
        None => expected_use(plan, name),
    }
}

fn expected_use(plan: &Plan, name: &str) -> Option<Use>
    ensures { result ≡ expected_use plan.now name.now }
{
    if is_output(plan.tables(), name.as_bytes()) {
        return Some(Use::Expected);
    }
    match settled_use(plan, name) {
        Some(used) => Some(used),
        None => fault_use(name),
    }
}

fn settled_use(plan: &Plan, name: &str) -> Option<Use>
    ensures { result ≡ settled_use plan.now.roles name.now }
{
    match plan.roles() {
        Some(_) => match Part::of_name(name) {
            Some(part) => Some(Use::Settled(part)),
            None => None,
        },
        None => None,
    }
}

fn fault_use(name: &str) -> Option<Use>
    ensures { result ≡ fault_use name.now }
{
    if name == FAULT {
        Some(Use::Fault)
    } else {
        None
    }
}

/// Returns the index of the plan's name with these bytes, from 0.
pub fn place_of(names: &[InputData], name: &[u8]) -> Option<usize>
    ensures { result ≡ position (λ d. bytes_eq d.name name.now) names.now }
{
    names
        .iter()
        .position(|input| input.name.as_str().as_bytes() == name)
}

/// Returns whether an output of one of the tables has the name with these bytes.
pub fn is_output(tables: &[Table], name: &[u8]) -> bool
    ensures { result ≡ is_output tables.now name.now }
{
    tables.iter().any(|table| has_output(table, name))
}

fn has_output(table: &Table, name: &[u8]) -> bool
    ensures { result ≡ has_output table.now name.now }
{
    table
        .outputs
        .as_slice()
        .iter()
        .any(|output| output.name.as_str().as_bytes() == name)
}

/// Returns whether one of the columns gives the name that the use gives.
pub fn is_repeated(columns: &[Column<'_>], used: Use) -> bool
    ensures { result ≡ is_repeated columns.now used }
{
    match used {
        Use::Given(place) => gives(columns, place),
        _ => false,
    }
}

fn gives(columns: &[Column<'_>], place: usize) -> bool
    ensures { result ≡ gives columns.now place }
{
    columns.iter().any(|column| column.used.gives(place))
}

impl Use {
    fn gives(self, place: usize) -> bool
        ensures { result ≡ gives_place place self }
    {
        match self {
            Use::Given(given) => given == place,
            _ => false,
        }
    }

    fn is_settled(self) -> bool
        ensures { result ≡ is_settled_use self }
    {
        matches!(self, Use::Settled(_))
    }
}

/// Returns whether the rows are settled as claims.
pub fn settles(plan: &Plan, columns: &[Column<'_>]) -> bool
    ensures { result ≡ settles plan.now columns.now }
{
    match plan.roles() {
        Some(_) => expects_settlement(columns),
        None => false,
    }
}

fn expects_settlement(columns: &[Column<'_>]) -> bool
    ensures { result ≡ expects_settlement columns.now }
{
    columns.iter().any(|column| column.used.is_settled())
}

fn is_of_claim(plan: &Plan, place: usize) -> bool
    ensures { result ≡ is_of_claim plan.now place }
{
    member_place(plan) < place && place < first_accumulator(plan)
}

fn is_needed(plan: &Plan, columns: &[Column<'_>], place: usize) -> bool
    ensures { result ≡ is_needed plan.now columns.now place }
{
    plan.needs(place) || (settles(plan, columns) && is_of_claim(plan, place))
}

/// Returns the first name that is needed and that no column gives.
pub fn first_ungiven<'p>(plan: &'p Plan, columns: &[Column<'_>]) -> Option<&'p InputData>
    ensures missing { IfSome result (λ input. IsUngiven plan.now columns.now input.now.name) }
    ensures given { IfNone result (GivesNeeded plan.now columns.now) }
{
    for (place, input) in plan.names().iter().enumerate() {
        if is_needed(plan, columns, place) && !gives(columns, place) {
            return Some(input);
        }
    }
    None
}
