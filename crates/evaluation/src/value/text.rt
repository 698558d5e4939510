//! The output of `value`: one line for each output of each table, with the value of the output.

ghost use Rattle.std.specs.Prelude.{◌≡◌, ◌++◌, IfOk, OnOk};
ghost use Rattle.evaluation.specs.ValueText.{answer_text, output_line, table_lines, value_lines};

use feel_tests::{Literals, Value, append_joined};
use std::alloc::{AllocError, Global};
use tables::{Answer, Env, Output, Table};

/// Returns the lines of these tables, in order.
pub fn value_lines(alloc: Global, tables: &[Table], values: &Env) -> Result<Vec<u8>, AllocError>
    ensures { IfOk result (λ text. text.items ≡ value_lines values.now tables.now) }
{
    let mut text = Vec::new(alloc);
    for table in tables {
        append_table(&mut text, table.outputs.as_slice(), values)?;
    }
    Ok(text)
}

fn append_table(text: &mut Vec<u8>, outputs: &[Output], values: &Env) -> Result<(), AllocError>
    ensures { OnOk result (text.new.items ≡ text.old.items ++ table_lines values.now outputs.now) }
{
    for output in outputs {
        append_output(text, output, values)?;
    }
    Ok(())
}

// Appends the line `NAME = VALUE`.
fn append_output(text: &mut Vec<u8>, output: &Output, values: &Env) -> Result<(), AllocError>
    ensures { OnOk result (text.new.items ≡ text.old.items ++ output_line values.now output.now) }
{
    if let Some(answer) = values.get(output.name.as_str()) {
        text.extend_from_slice(output.name.as_str().as_bytes())?;
        text.extend_from_slice(b" = ")?;
        append_answer(text, answer)?;
        text.push(b'\n')?;
    }
    Ok(())
}

// Appends a literal, or a list of literals in square brackets.
fn append_answer(text: &mut Vec<u8>, answer: &Answer) -> Result<(), AllocError>
    ensures { OnOk result (text.new.items ≡ text.old.items ++ answer_text answer.now) }
{
    match answer {
        Answer::One(value) => value.write_text(text)?,
        Answer::Many(values) => {
            text.push(b'[')?;
            append_joined::<Value, Literals>(text, ", ", values.as_slice())?;
            text.push(b']')?;
        }
    }
    Ok(())
}
