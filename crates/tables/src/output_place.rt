//! The place of an output among the tables of a plan.
ghost use Rattle.std.specs.Prelude.{◌≡◌, List, flat_map, map};
ghost use Rattle.std.specs.Option.{option_and_then};
ghost use Rattle.tables.specs.Environment.{answer_of, answer_at};
ghost use Rattle.tables.specs.Plan.{AreDistinct};
ghost use Rattle.tables.specs.declared.environment.Answer.{Answer};

use crate::environment::place_of;
use crate::table::Table;

/// The place of an output: the index of its table in the plan, and its own index among the table's
/// outputs, both from 0.
#[derive(Clone, Copy)]
pub struct OutputPlace {
    pub table: usize,
    pub column: usize,
}

/// Returns the place of the output with this name, among tables whose outputs have distinct names.
pub fn place_named(tables: &[Table], name: &str) -> Option<OutputPlace>
    requires { AreDistinct (flat_map (λ t. map (λ o. o.name) t.outputs) tables.now) }
    ensures { (answers : List (List Answer))
        → answer_of tables.now answers name.now ≡ option_and_then (answer_at answers) result }
{
    for (place, table) in tables.iter().enumerate() {
        let column = place_of(table.outputs.as_slice(), name);
        if let Some(column) = column {
            return Some(OutputPlace {
                table: place,
                column,
            });
        }
    }
    None
}
