//! The reader of the strings of a plan that are cells or literals.
ghost use Rattle.std.specs.Prelude.{◌≡◌, Some, None};
ghost use Rattle.toml.specs.View.{view};
ghost use Rattle.dtable.specs.PlanFile.{IsCellOf, IsLiteral};
ghost use Rattle.dtable.specs.Reading.{Reads};

use super::document::text_of;
use super::place::FaultLocation;
use faults::PlanFault;
use feel_tests::{Cell, Kind, Value as Literal, read_cell, read_value};
use std::alloc::Global;
use toml::Value;

/// Reads a string as a cell for values of the kind.
pub fn read_cell_entry(
    alloc: Global,
    entry: &Value,
    kind: Kind,
    place: FaultLocation,
) -> Result<Cell, PlanFault>
    ensures { Reads (IsCellOf kind (view entry.now)) result }
{
    let text = text_of(entry, place)?;
    match read_cell(alloc, kind, text) {
        Ok(cell) => Ok(cell),
        Err(fault) => Err(place.cell_fault(fault)),
    }
}

/// Reads a string as a literal of the kind.
pub fn read_literal_entry(
    alloc: Global,
    entry: &Value,
    kind: Kind,
    place: FaultLocation,
) -> Result<Literal, PlanFault>
    ensures { Reads (IsLiteral kind (view entry.now)) result }
{
    let text = text_of(entry, place)?;
    match read_value(alloc, kind, text) {
        Ok(literal) => Ok(literal),
        Err(fault) => Err(place.cell_fault(fault)),
    }
}
