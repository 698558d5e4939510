//! The reader of a plan's tables.
ghost use Rattle.std.specs.Prelude.{◌≡◌, ◌≢◌, codes, map, IfNone, IfSome};
ghost use Rattle.toml.specs.Data.{get};
ghost use Rattle.toml.specs.View.{view, items_view};
ghost use Rattle.dtable.specs.PlanFile.{IsHit, IsHitWord, IsTable, AreTables, AreTablesOf, hit_word};
ghost use Rattle.dtable.specs.Reading.{Reads};
ghost use Rattle.dtable.specs.Scope.{seen_of};

use super::constraints::satisfies_constraints;
use super::document::{check_count, optional_array, text_of};
use super::inputs::read_inputs;
use super::limits::TABLES_LIMIT;
use super::outputs::read_outputs;
use super::place::FaultLocation;
use super::rules::read_rules;
use faults::{Ordinal, PlanCause, PlanFault};
use feel_tests::{Sequence, text_spells_at_most_one_cell, text_spells_at_most_one_value};
use std::alloc::Global;
use tables::{Hit, InputData, Table};
use toml::Value;

/// The hit policies that a plan can name.
const HITS: [Hit; 11] = [
    Hit::U,
    Hit::A,
    Hit::P,
    Hit::F,
    Hit::O,
    Hit::R,
    Hit::C,
    Hit::Sum,
    Hit::Min,
    Hit::Max,
    Hit::Count,
];

/// Reads the tables of a document.
pub fn read_tables(
    alloc: Global,
    document: &Value,
    names: &[InputData],
) -> Result<Sequence<Table>, PlanFault>
    ensures { Reads (AreTablesOf names.now (view document.now)) result }
{
    let entries = optional_array(document, "tables")?;
    read_table_entries(alloc, entries, names)
}

fn read_table_entries(
    alloc: Global,
    entries: &[Value],
    names: &[InputData],
) -> Result<Sequence<Table>, PlanFault>
    ensures { Reads (AreTables names.now (items_view entries.now)) result }
{
    check_count(
        entries,
        TABLES_LIMIT,
        FaultLocation::TEXT.in_table(Ordinal::at(TABLES_LIMIT)),
    )?;
    // proof: a text denotes at most one value, so a refused text denotes none
    text_spells_at_most_one_value();
    let mut tables = Sequence::new(alloc);
    for (index, entry) in entries.iter().enumerate() {
        let table = read_table(
            alloc,
            entry,
            names,
            tables.as_slice(),
            FaultLocation::TEXT.in_table(Ordinal::at(index)),
        )?;
        tables.push(table)?;
    }
    Ok(tables)
}

fn read_table(
    alloc: Global,
    entry: &Value,
    names: &[InputData],
    front: &[Table],
    place: FaultLocation,
) -> Result<Table, PlanFault>
    ensures { Reads (IsTable names.now (map seen_of front.now) (view entry.now)) result }
{
    // proof: a text denotes at most one cell and at most one value, so a refused text denotes none
    text_spells_at_most_one_cell();
    text_spells_at_most_one_value();
    let hit = read_hit(entry, place)?;
    let inputs = read_inputs(alloc, entry, names, front, place)?;
    let outputs = read_outputs(alloc, entry, hit, names, front, inputs.as_slice(), place)?;
    if !satisfies_constraints(hit, outputs.as_slice()) {
        return Err(place.fault(violated_constraint(hit)));
    }
    let rules = read_rules(
        alloc,
        entry,
        names,
        front,
        inputs.as_slice(),
        outputs.as_slice(),
        place,
    )?;
    Ok(Table {
        hit,
        inputs,
        outputs,
        rules,
    })
}

fn read_hit(table: &Value, place: FaultLocation) -> Result<Hit, PlanFault>
    ensures { Reads (IsHit (get (codes "hit") (view table.now))) result }
{
    match table.get("hit") {
        None => Ok(Hit::U),
        Some(word) => read_hit_word(word, place),
    }
}

fn read_hit_word(word: &Value, place: FaultLocation) -> Result<Hit, PlanFault>
    ensures { Reads (IsHitWord (view word.now)) result }
{
    match hit_of(text_of(word, place)?) {
        Some(hit) => Ok(hit),
        None => Err(place.fault(PlanCause::Hit)),
    }
}

fn hit_of(word: &str) -> Option<Hit>
    ensures named { IfSome result (λ hit. word.now ≡ hit_word hit) }
    ensures none { IfNone result ((hit : Hit) → word.now ≢ hit_word hit) }
{
    for hit in &HITS {
        if word_of(*hit) == word {
            return Some(*hit);
        }
    }
    None
}

fn word_of(hit: Hit) -> &'static str
    ensures { result.now ≡ hit_word hit }
{
    match hit {
        Hit::U => "U",
        Hit::A => "A",
        Hit::P => "P",
        Hit::F => "F",
        Hit::O => "O",
        Hit::R => "R",
        Hit::C => "C",
        Hit::Sum => "C+",
        Hit::Min => "C<",
        Hit::Max => "C>",
        Hit::Count => "C#",
    }
}

/// Returns the cause of the fault if the outputs violate the constraints of the hit policy.
fn violated_constraint(hit: Hit) -> PlanCause {
    match hit {
        Hit::P | Hit::O => PlanCause::Priority,
        _ => PlanCause::Hit,
    }
}
