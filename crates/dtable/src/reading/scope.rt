//! The meaning of a name after some names and tables.
ghost use Rattle.std.specs.Prelude.{◌≡◌, ◌++◌, map, position, slice_get, option_map};
ghost use Rattle.std.specs.Str.{bytes_eq};
ghost use Rattle.dtable.specs.NameForm.{is_among, names_taken};
ghost use Rattle.dtable.specs.Scope.{data_names, output_names, seen_names, taken_names, seen_of, is_single_of, origin_of, earlier_origin, kind_at};

use super::names::{is_reserved, is_taken_from_start};
use feel_tests::Kind;
use tables::{InputData, Origin, Output, Table};

/// Returns where the value of a name comes from: from the input data, or otherwise from an output
/// of an earlier table that has a single value.
pub fn origin_of(names: &[InputData], tables: &[Table], name: &str) -> Option<Origin>
    ensures { result ≡ origin_of names.now (map seen_of tables.now) name.now }
{
    match data_place(names, name) {
        Some(place) => Some(Origin::Given(place)),
        None => earlier_origin(tables, name),
    }
}

/// Returns the index of the input data with this name.
fn data_place(names: &[InputData], name: &str) -> Option<usize>
    ensures { result ≡ position (λ d. bytes_eq d.name name.now) names.now }
{
    for (place, data) in names.iter().enumerate() {
        if data.name.as_str() == name {
            return Some(place);
        }
    }
    None
}

fn earlier_origin(tables: &[Table], name: &str) -> Option<Origin>
    ensures { result ≡ earlier_origin 0 (map seen_of tables.now) name.now }
{
    for (table, earlier) in tables.iter().enumerate() {
        if let Some(column) = single_column(earlier, name) {
            return Some(Origin::Earlier { table, column });
        }
    }
    None
}

fn single_column(table: &Table, name: &str) -> Option<usize>
    ensures { result ≡ position (is_single_of name.now) (seen_of table.now) }
{
    if !table.hit.gives_one() {
        return None;
    }
    output_column(table.outputs.as_slice(), name)
}

/// Returns the index of the first output with this name.
fn output_column(outputs: &[Output], name: &str) -> Option<usize>
    ensures { result ≡ position (λ o. bytes_eq o.name name.now) outputs.now }
{
    for (column, output) in outputs.iter().enumerate() {
        if output.name.as_str() == name {
            return Some(column);
        }
    }
    None
}

/// Returns the kind of the value from this origin.
pub fn kind_at(names: &[InputData], tables: &[Table], origin: Origin) -> Option<Kind>
    ensures { result ≡ kind_at names.now (map seen_of tables.now) origin }
{
    match origin {
        Origin::Given(place) => match names.get(place) {
            Some(data) => Some(data.kind),
            None => None,
        },
        Origin::Earlier { table, column } => match tables.get(table) {
            Some(table) => column_kind(table, column),
            None => None,
        },
    }
}

fn column_kind(table: &Table, column: usize) -> Option<Kind>
    ensures { result ≡ option_map (λ o. o.kind) (slice_get (seen_of table.now) column) }
{
    match table.outputs.as_slice().get(column) {
        Some(output) => Some(table.hit.read_kind_of(output.kind)),
        None => None,
    }
}

fn is_taken(names: &[InputData], tables: &[Table], name: &str) -> bool
    ensures { result ≡ is_among name.now (taken_names names.now (map seen_of tables.now)) }
{
    is_reserved(name) || (is_data(names, name) || is_output_of(tables, name))
}

/// Returns whether the name is reserved, or used by the names, the tables or the outputs before.
pub fn is_taken_output(names: &[InputData], tables: &[Table], front: &[Output], name: &str) -> bool
    ensures { result ≡ is_among name.now (taken_names names.now (map seen_of tables.now)
        ++ output_names front.now) }
{
    is_taken(names, tables, name) || is_output(front, name)
}

/// Returns whether the name is reserved, or used by the fields before.
pub fn is_taken_field(families: bool, front: &[InputData], name: &str) -> bool
    ensures { result ≡ is_among name.now (names_taken families ++ data_names front.now) }
{
    is_taken_from_start(families, name) || is_data(front, name)
}

fn is_data(names: &[InputData], name: &str) -> bool
    ensures { result ≡ is_among name.now (data_names names.now) }
{
    data_place(names, name).is_some()
}

fn is_output(outputs: &[Output], name: &str) -> bool
    ensures { result ≡ is_among name.now (output_names outputs.now) }
{
    output_column(outputs, name).is_some()
}

fn is_output_of(tables: &[Table], name: &str) -> bool
    ensures { result ≡ is_among name.now (seen_names (map seen_of tables.now)) }
{
    for table in tables {
        if is_output(table.outputs.as_slice(), name) {
            return true;
        }
    }
    false
}
