//! The reader of a table's rules: a cell for each input, and a literal for each output.
ghost use Rattle.std.specs.Prelude.{◌≡◌, ◌≢◌, Some, length, codes, map, IfOk, OnErr};
ghost use Rattle.toml.specs.Data.{Items};
ghost use Rattle.toml.specs.View.{view, items_view};
ghost use Rattle.dtable.specs.Document.{array_at, item_count};
ghost use Rattle.dtable.specs.PlanFile.{IsCellUnder, IsEntry, IsRow, IsRule, AreRules};
ghost use Rattle.dtable.specs.Reading.{Reads};
ghost use Rattle.dtable.specs.Scope.{seen_of};

use super::constraints::is_ranked;
use super::document::{check_count, required_array};
use super::inputs::read_input_cell;
use super::limits::RULES_LIMIT;
use super::literals::read_literal_entry;
use super::place::FaultLocation;
use faults::{Ordinal, PlanCause, PlanFault};
use feel_tests::{Cell, Sequence, Value as Literal, text_spells_at_most_one_value};
use std::alloc::Global;
use tables::{Input, InputData, Output, Rule, Table};
use toml::Value;

/// Reads the rules of a table.
pub fn read_rules(
    alloc: Global,
    table: &Value,
    names: &[InputData],
    tables: &[Table],
    inputs: &[Input],
    outputs: &[Output],
    place: FaultLocation,
) -> Result<Sequence<Rule>, PlanFault>
    ensures { Reads (AreRules names.now (map seen_of tables.now) inputs.now outputs.now
        (view table.now)) result }
{
    let entries = required_array(table, "rules", place)?;
    check_count(
        entries,
        RULES_LIMIT,
        place.in_rule(Ordinal::at(RULES_LIMIT)),
    )?;
    let mut rules = Sequence::new(alloc);
    for (index, entry) in entries.iter().enumerate() {
        let rule = read_rule(
            alloc,
            entry,
            names,
            tables,
            inputs,
            outputs,
            place.in_rule(Ordinal::at(index)),
        )?;
        rules.push(rule)?;
    }
    Ok(rules)
}

fn read_rule(
    alloc: Global,
    entry: &Value,
    names: &[InputData],
    tables: &[Table],
    inputs: &[Input],
    outputs: &[Output],
    place: FaultLocation,
) -> Result<Rule, PlanFault>
    ensures { Reads (IsRule names.now (map seen_of tables.now) inputs.now outputs.now
        (view entry.now)) result }
{
    let cells = read_when(alloc, entry, names, tables, inputs, place)?;
    let entries = read_then(alloc, entry, inputs, outputs, place)?;
    Ok(Rule { cells, entries })
}

fn read_when(
    alloc: Global,
    rule: &Value,
    names: &[InputData],
    tables: &[Table],
    inputs: &[Input],
    place: FaultLocation,
) -> Result<Sequence<Cell>, PlanFault>
    ensures { Reads (IsRow (IsCellUnder names.now (map seen_of tables.now)) inputs.now
        (codes "when") (view rule.now)) result }
{
    let entries = required_row(rule, "when", inputs.len(), place)?;
    let mut cells = Sequence::new(alloc);
    for (index, entry) in entries.iter().enumerate() {
        let input = &inputs[index];
        let cell = read_input_cell(
            alloc,
            entry,
            names,
            tables,
            input.origin,
            place.in_column(Ordinal::at(index)),
        )?;
        cells.push(cell)?;
    }
    Ok(cells)
}

/// Reads the literals of a rule, one for each output. Their column numbers follow those of the
/// inputs.
fn read_then(
    alloc: Global,
    rule: &Value,
    inputs: &[Input],
    outputs: &[Output],
    place: FaultLocation,
) -> Result<Sequence<Literal>, PlanFault>
    ensures { Reads (IsRow IsEntry outputs.now (codes "then") (view rule.now)) result }
{
    let entries = required_row(rule, "then", outputs.len(), place)?;
    let mut literals = Sequence::new(alloc);
    for (index, entry) in entries.iter().enumerate() {
        let column = place.in_column(Ordinal::at(inputs.len() + index));
        let literal = read_then_entry(alloc, entry, &outputs[index], column)?;
        literals.push(literal)?;
    }
    Ok(literals)
}

/// Returns the items of the array at a required key, one for each column.
fn required_row<'a>(
    rule: &'a Value,
    key: &str,
    columns: usize,
    place: FaultLocation,
) -> Result<&'a [Value], PlanFault>
    ensures ok { IfOk result (λ items. array_at key.now (view rule.now)
        ≡ Some (items_view items.now)) }
    ensures columns { IfOk result (λ items. length items.now ≡ columns) }
    ensures refused { OnErr result ((items : Items) → array_at key.now (view rule.now) ≡ Some items
        → item_count items ≢ columns) }
{
    let items = required_array(rule, key, place)?;
    if items.len() != columns {
        return Err(place.fault(PlanCause::Kind));
    }
    Ok(items)
}

fn read_then_entry(
    alloc: Global,
    entry: &Value,
    output: &Output,
    place: FaultLocation,
) -> Result<Literal, PlanFault>
    ensures { Reads (IsEntry output.now (view entry.now)) result }
{
    // proof: a text denotes at most one value, so a refused text denotes none
    text_spells_at_most_one_value();
    let value = read_literal_entry(alloc, entry, output.kind, place)?;
    if !is_ranked(&output.priority, &value) {
        return Err(place.fault(PlanCause::Priority));
    }
    Ok(value)
}
