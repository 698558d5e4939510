//! Replaces characters of a text that a terminal would obey or not show: control characters, those
//! that turn the direction of a line, and those without a width.
ghost use Rattle.std.specs.Prelude.{◌≡◌, ◌++◌, OnOk, string_bytes};
ghost use Rattle.faults.specs.Printable.{is_hidden, shown_as, shown_text};

use std::alloc::AllocError;

const REPLACEMENT: char = '\u{fffd}';

/// Whether a character has no width, or turns the direction of the text after it.
fn is_hidden_character(character: char) -> bool
    ensures { result ≡ is_hidden character }
{
    matches!(
        character,
        '\u{ad}'
            | '\u{61c}'
            | '\u{200b}'..='\u{200f}'
            | '\u{2028}'..='\u{202e}'
            | '\u{2060}'..='\u{206f}'
            | '\u{feff}'
    )
}

/// The character to print: U+FFFD for a control character and for a hidden one, and any other character itself.
fn shown_character(character: char) -> char
    ensures { result ≡ shown_as character }
{
    if character.is_control() || is_hidden_character(character) {
        REPLACEMENT
    } else {
        character
    }
}

/// Appends a text, with U+FFFD in place of each control character and of each hidden one. Fails if memory runs out.
pub fn push_printable(text: &mut String, words: &str) -> Result<(), AllocError>
    ensures { OnOk result (string_bytes text.new ≡ string_bytes text.old ++ shown_text words.now) }
{
    for character in words.chars() {
        text.push(shown_character(character))?;
    }
    Ok(())
}
