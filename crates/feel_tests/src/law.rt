//! Laws of literals and cells, to be cited by other proofs. The calls have no effect.
ghost use Rattle.std.specs.Prelude.{◌≤◌, length};
ghost use Rattle.feel_tests.specs.Words.{quote_text};
ghost use Rattle.feel_tests.specs.Value.{kind_of, literal_text};
ghost use Rattle.feel_tests.specs.Cell.{SpellsValue, SpellsOneCell, SpellsOneValue};
ghost use Rattle.feel_tests.specs.Plain.{SpellsOnePlain};
ghost use Rattle.feel_tests.specs.declared.kind.Kind.TheVariants as kinds;
ghost use Rattle.feel_tests.specs.declared.value.Value.TheVariants as values;
ghost use Rattle.feel_tests.specs.Limits.{text_limit_bytes};

use crate::dates::date_of;
use crate::value::Value;

/// A text denotes at most one cell of a kind.
pub fn text_spells_at_most_one_cell()
    ensures { SpellsOneCell }
{
    fixpoint::text_denotes_at_most_one();
}

/// A text denotes at most one value of a kind.
pub fn text_spells_at_most_one_value()
    ensures { SpellsOneValue }
{
    fixpoint::text_denotes_at_most_one();
}

/// A whole field of a CSV record denotes at most one value of a kind.
pub fn field_spells_at_most_one_value()
    ensures { SpellsOnePlain }
{
    fixpoint::text_denotes_at_most_one();
}

/// The literal of a value denotes that value: `read_value` returns the value from the text that
/// `write_text` writes.
pub fn literal_spells_its_value(value: &Value)
    ensures { SpellsValue (kind_of value.now) (literal_text value.now) value.now }
{
    match value {
        Value::Number(number) => {
            fixpoint::shortest_text_denotes();
            // proof: the number is in its range
            let _units = number.units();
        }
        Value::Text(text) => text_spells(text.as_str()),
        Value::Flag(_) => {}
        Value::Day(day) => {
            let _date = date_of(*day);
        }
    }
}

fn text_spells(text: &str)
    requires { length text.now ≤ text_limit_bytes }
    ensures { SpellsValue kinds.Text (quote_text text.now) (values.Text text.now) }
{
    // proof: the text is UTF-8 within its limit
    let _bytes = text.as_bytes();
}
