//! Values and answers as texts of a CSV field.

ghost use Rattle.std.specs.Prelude.{◌≡◌, ◌++◌, OnOk};
ghost use Rattle.feel_tests.specs.Calendar.{day_text};
ghost use Rattle.plan_rows.specs.Expected.{plain_answer, plain_list, plain_text};

use crate::expected::EMPTY_LIST;
use feel_tests::{Day, Spelling, Value, append_joined};
use std::alloc::AllocError;
use tables::Answer;

/// Writes values without quotes, as the fields of a CSV record have them.
struct Plain;

impl Spelling<Value> for Plain {
    ghost text_of = { plain_text };

    fn append(text: &mut Vec<u8>, item: &Value) -> Result<(), AllocError> {
        match item {
            Value::Text(bytes) => text.extend_from_slice(bytes.as_bytes()),
            Value::Day(day) => append_day(text, *day),
            _ => item.write_text(text),
        }
    }
}

// Appends the date of a day, which is between the quotes of the literal `date("YYYY-MM-DD")`.
fn append_day(text: &mut Vec<u8>, day: Day) -> Result<(), AllocError>
    ensures { OnOk result (text.new.items ≡ text.old.items ++ day_text day) }
{
    let mut literal = Vec::new(*text.allocator());
    Value::Day(day).write_text(&mut literal)?;
    let end = literal.len() - 2;
    text.extend_from_slice(&literal[6..end])
}

/// Appends a single value, or the values of a list with semicolons between them.
pub fn append_plain(text: &mut Vec<u8>, answer: &Answer) -> Result<(), AllocError>
    ensures { OnOk result (text.new.items ≡ text.old.items ++ plain_answer answer.now) }
{
    match answer {
        Answer::One(value) => Plain::append(text, value),
        Answer::Many(values) => append_list(text, values.as_slice()),
    }
}

fn append_list(text: &mut Vec<u8>, values: &[Value]) -> Result<(), AllocError>
    ensures { OnOk result (text.new.items ≡ text.old.items ++ plain_list values.now) }
{
    if values.is_empty() {
        return text.extend_from_slice(EMPTY_LIST.as_bytes());
    }
    append_joined::<Value, Plain>(text, ";", values)
}
