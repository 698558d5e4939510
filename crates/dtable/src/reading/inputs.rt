//! The reader of a table's inputs.
ghost use Rattle.std.specs.Prelude.{◌≡◌, codes, map};
ghost use Rattle.toml.specs.Data.{get};
ghost use Rattle.toml.specs.View.{view, items_view};
ghost use Rattle.dtable.specs.Document.{Optionally};
ghost use Rattle.dtable.specs.PlanFile.{IsCell, IsInput, AreInputs};
ghost use Rattle.dtable.specs.Reading.{Reads};
ghost use Rattle.dtable.specs.Scope.{seen_of};

use super::document::{check_count, required_array};
use super::limits::INPUTS_LIMIT;
use super::literals::read_cell_entry;
use super::names::read_name;
use super::place::FaultLocation;
use super::scope::{kind_at, origin_of};
use faults::{Ordinal, PlanCause, PlanFault};
use feel_tests::{Cell, Sequence};
use std::alloc::Global;
use tables::{Input, InputData, Origin, Table};
use toml::Value;

/// Reads the inputs of a table. Each must name a value that is known before the table.
pub fn read_inputs(
    alloc: Global,
    table: &Value,
    names: &[InputData],
    tables: &[Table],
    place: FaultLocation,
) -> Result<Sequence<Input>, PlanFault>
    ensures { Reads (AreInputs names.now (map seen_of tables.now) (view table.now)) result }
{
    let entries = required_array(table, "inputs", place)?;
    if entries.is_empty() {
        return Err(place.fault(PlanCause::Kind));
    }
    check_count(
        entries,
        INPUTS_LIMIT,
        place.in_column(Ordinal::at(INPUTS_LIMIT)),
    )?;
    let mut inputs = Sequence::new(alloc);
    for (index, entry) in entries.iter().enumerate() {
        let input = read_input(
            alloc,
            entry,
            names,
            tables,
            place.in_column(Ordinal::at(index)),
        )?;
        inputs.push(input)?;
    }
    Ok(inputs)
}

fn read_input(
    alloc: Global,
    entry: &Value,
    names: &[InputData],
    tables: &[Table],
    place: FaultLocation,
) -> Result<Input, PlanFault>
    ensures { Reads (IsInput names.now (map seen_of tables.now) (view entry.now)) result }
{
    let name = read_name(alloc, entry, place)?;
    let Some(origin) = origin_of(names, tables, name.as_str()) else {
        return Err(place.fault(PlanCause::Unknown));
    };
    let values = read_values(alloc, entry, names, tables, origin, place)?;
    Ok(Input {
        name,
        origin,
        values,
    })
}

fn read_values(
    alloc: Global,
    entry: &Value,
    names: &[InputData],
    tables: &[Table],
    origin: Origin,
    place: FaultLocation,
) -> Result<Option<Cell>, PlanFault>
    ensures { Reads (Optionally (IsCell names.now (map seen_of tables.now) origin)
        (get (codes "values") (view entry.now))) result }
{
    match entry.get("values") {
        None => Ok(None),
        Some(values) => {
            let cell = read_input_cell(alloc, values, names, tables, origin, place)?;
            Ok(Some(cell))
        }
    }
}

/// Reads a cell for the values that an input reads.
pub fn read_input_cell(
    alloc: Global,
    entry: &Value,
    names: &[InputData],
    tables: &[Table],
    origin: Origin,
    place: FaultLocation,
) -> Result<Cell, PlanFault>
    ensures { Reads (IsCell names.now (map seen_of tables.now) origin (view entry.now)) result }
{
    match kind_at(names, tables, origin) {
        Some(kind) => read_cell_entry(alloc, entry, kind, place),
        None => Err(place.fault(PlanCause::Unknown)),
    }
}
