//! The reader of a table's outputs, with their priority lists and defaults.
ghost use Rattle.std.specs.Prelude.{◌≡◌, ◌++◌, codes, map};
ghost use Rattle.toml.specs.Data.{get};
ghost use Rattle.toml.specs.View.{view, items_view};
ghost use Rattle.dtable.specs.Document.{Optionally};
ghost use Rattle.dtable.specs.PlanFile.{IsLiteral, IsPriority, ArePriorityEntries, ArePriorities, IsOutput, AreOutputs, IsNewlyNamed};
ghost use Rattle.dtable.specs.Reading.{Reads};
ghost use Rattle.dtable.specs.Scope.{seen_of, taken_names, output_names};

use super::constraints::is_listed;
use super::document::{check_count, required_array};
use super::limits::{OUTPUTS_LIMIT, PRIORITY_LIMIT};
use super::literals::read_literal_entry;
use super::names::{read_kind, read_name};
use super::place::FaultLocation;
use super::scope::is_taken_output;
use faults::{Ordinal, PlanCause, PlanFault};
use feel_tests::{Kind, Sequence, Value as Literal, text_spells_at_most_one_value};
use std::alloc::Global;
use tables::{Hit, Input, InputData, Name, Output, Table};
use toml::Value;

/// Reads the outputs of a table. Their column numbers follow those of the inputs.
pub fn read_outputs(
    alloc: Global,
    table: &Value,
    hit: Hit,
    names: &[InputData],
    tables: &[Table],
    inputs: &[Input],
    place: FaultLocation,
) -> Result<Sequence<Output>, PlanFault>
    ensures { Reads (AreOutputs hit (taken_names names.now (map seen_of tables.now))
        (view table.now)) result }
{
    let entries = required_array(table, "outputs", place)?;
    if entries.is_empty() {
        return Err(place.fault(PlanCause::Kind));
    }
    check_count(
        entries,
        OUTPUTS_LIMIT,
        place.in_column(Ordinal::at(inputs.len() + OUTPUTS_LIMIT)),
    )?;
    let mut outputs = Sequence::new(alloc);
    for (index, entry) in entries.iter().enumerate() {
        let column = place.in_column(Ordinal::at(inputs.len() + index));
        let output = read_output(alloc, entry, hit, names, tables, outputs.as_slice(), column)?;
        outputs.push(output)?;
    }
    Ok(outputs)
}

fn read_output(
    alloc: Global,
    entry: &Value,
    hit: Hit,
    names: &[InputData],
    tables: &[Table],
    front: &[Output],
    place: FaultLocation,
) -> Result<Output, PlanFault>
    ensures { Reads (IsOutput hit (taken_names names.now (map seen_of tables.now)
        ++ output_names front.now) (view entry.now)) result }
{
    let name = read_new_name(alloc, entry, names, tables, front, place)?;
    let kind = read_kind(entry, place)?;
    let priority = read_priority(alloc, entry, kind, place)?;
    let fallback = read_fallback(alloc, entry, hit.read_kind_of(kind), place)?;
    Ok(Output {
        name,
        kind,
        priority,
        fallback,
    })
}

fn read_new_name(
    alloc: Global,
    entry: &Value,
    names: &[InputData],
    tables: &[Table],
    front: &[Output],
    place: FaultLocation,
) -> Result<Name, PlanFault>
    ensures { Reads (IsNewlyNamed (taken_names names.now (map seen_of tables.now)
        ++ output_names front.now) (view entry.now)) result }
{
    let name = read_name(alloc, entry, place)?;
    if is_taken_output(names, tables, front, name.as_str()) {
        return Err(place.fault(PlanCause::Duplicate));
    }
    Ok(name)
}

fn read_fallback(
    alloc: Global,
    entry: &Value,
    kind: Kind,
    place: FaultLocation,
) -> Result<Option<Literal>, PlanFault>
    ensures { Reads (Optionally (IsLiteral kind) (get (codes "default") (view entry.now))) result }
{
    match entry.get("default") {
        None => Ok(None),
        Some(literal) => {
            let literal = read_literal_entry(alloc, literal, kind, place)?;
            Ok(Some(literal))
        }
    }
}

fn read_priority(
    alloc: Global,
    entry: &Value,
    kind: Kind,
    place: FaultLocation,
) -> Result<Option<Sequence<Literal>>, PlanFault>
    ensures { Reads (Optionally (ArePriorities kind)
        (get (codes "priority") (view entry.now))) result }
{
    match entry.get("priority") {
        None => Ok(None),
        Some(array) => {
            let list = read_priorities(alloc, array, kind, place)?;
            Ok(Some(list))
        }
    }
}

fn read_priorities(
    alloc: Global,
    array: &Value,
    kind: Kind,
    place: FaultLocation,
) -> Result<Sequence<Literal>, PlanFault>
    ensures { Reads (ArePriorities kind (view array.now)) result }
{
    let Some(entries) = array.as_array() else {
        return Err(place.fault(PlanCause::Kind));
    };
    read_priority_entries(alloc, entries.as_slice(), kind, place)
}

fn read_priority_entries(
    alloc: Global,
    entries: &[Value],
    kind: Kind,
    place: FaultLocation,
) -> Result<Sequence<Literal>, PlanFault>
    ensures { Reads (ArePriorityEntries kind (items_view entries.now)) result }
{
    check_count(entries, PRIORITY_LIMIT, place)?;
    // proof: a text denotes at most one value, so a refused text denotes none
    text_spells_at_most_one_value();
    let mut list = Sequence::new(alloc);
    for entry in entries {
        let value = read_priority_entry(alloc, entry, list.as_slice(), kind, place)?;
        list.push(value)?;
    }
    Ok(list)
}

fn read_priority_entry(
    alloc: Global,
    entry: &Value,
    front: &[Literal],
    kind: Kind,
    place: FaultLocation,
) -> Result<Literal, PlanFault>
    ensures { Reads (IsPriority kind front.now (view entry.now)) result }
{
    // proof: a text denotes at most one value, so a refused text denotes none
    text_spells_at_most_one_value();
    let value = read_literal_entry(alloc, entry, kind, place)?;
    if is_listed(front, &value) {
        return Err(place.fault(PlanCause::Priority));
    }
    Ok(value)
}
