//! Literals of values, as cells have them.
ghost use Rattle.std.specs.Prelude.{◌≡◌, ◌++◌, IfOk, OnOk, OnErr};
ghost use Rattle.feel_tests.specs.Value.{date_literal, literal_text};
ghost use Rattle.feel_tests.specs.Words.{quote_text, escaped_byte};

use crate::dates::date_of;
use crate::day::Day;
use crate::value::Value;
use std::alloc::{AllocError, Global};

impl Value {
    /// Appends the literal of the value (DMN 1.4, S-FEEL). If memory runs out, the vector is
    /// unchanged.
    pub fn write_text(&self, out: &mut Vec<u8>) -> Result<(), AllocError>
        ensures ok { OnOk result (out.new.items ≡ out.old.items ++ literal_text self.now) }
        ensures err { OnErr result (out.new.items ≡ out.old.items) }
    {
        match self {
            Value::Number(number) => {
                let mut buffer = [0; 24];
                let len = number.write_into(&mut buffer);
                out.extend_from_slice(&buffer[..len])
            }
            Value::Text(text) => {
                let literal = quote_text(*out.allocator(), text.as_bytes())?;
                out.extend_from_slice(&literal)
            }
            Value::Flag(true) => out.extend_from_slice(b"true"),
            Value::Flag(false) => out.extend_from_slice(b"false"),
            Value::Day(day) => {
                let literal = date_literal(*out.allocator(), *day)?;
                out.extend_from_slice(&literal)
            }
        }
    }
}

fn quote_text(alloc: Global, bytes: &[u8]) -> Result<Vec<u8>, AllocError>
    ensures { IfOk result (λ literal. literal.items ≡ quote_text bytes.now) }
{
    let mut literal = Vec::new(alloc);
    literal.push(b'"')?;
    for byte in bytes {
        push_escaped(*byte, &mut literal)?;
    }
    literal.push(b'"')?;
    Ok(literal)
}

fn push_escaped(byte: u8, literal: &mut Vec<u8>) -> Result<(), AllocError>
    ensures { OnOk result (literal.new.items ≡ literal.old.items ++ escaped_byte byte) }
{
    if byte == b'"' || byte == b'\\' {
        literal.push(b'\\')?;
    }
    literal.push(byte)?;
    Ok(())
}

fn date_literal(alloc: Global, day: Day) -> Result<Vec<u8>, AllocError>
    ensures { IfOk result (λ literal. literal.items ≡ date_literal day) }
{
    let mut literal = Vec::from_slice(alloc, b"date(\"")?;
    let date = date_of(day);
    let text = date.to_string(alloc)?;
    literal.extend_from_slice(text.as_bytes())?;
    literal.extend_from_slice(b"\")")?;
    Ok(literal)
}
