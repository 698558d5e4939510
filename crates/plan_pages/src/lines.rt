//! The lines of a text in a column of a terminal.

use unicode_width::UnicodeWidthChar;

/// The columns that a character takes.
fn width_of(character: char) -> usize {
    match character.width() {
        Some(width) => width,
        None => 0,
    }
}

/// Returns the columns that a text takes in one line.
pub fn text_width(text: &str) -> usize {
    let mut width = 0usize;
    for character in text.chars() {
        width = width.saturating_add(width_of(character));
    }
    width
}

/// Returns the number of lines of a text in a column of this width.
pub fn line_count(text: &str, width: usize) -> usize {
    let mut count = 0usize;
    let mut rest = text;
    for _ in 0..text.len() {
        if rest.is_empty() {
            break;
        }
        count = count.saturating_add(1);
        rest = rest.get(line_end(rest, width)..).unwrap_or("");
    }
    count
}

/// Returns a line of a text in a column of this width, counted from 0.
pub fn line_at(text: &str, width: usize, number: usize) -> &str {
    let mut rest = text;
    for _ in 0..number {
        rest = rest.get(line_end(rest, width)..).unwrap_or("");
    }
    rest.get(..line_end(rest, width)).unwrap_or("").trim_end()
}

/// Returns where the first line of a text ends: at a place where a line may end if it has one, and otherwise where the column is full. A space at the end
/// takes no column.
fn line_end(text: &str, width: usize) -> usize {
    let mut used = 0usize;
    let mut place = 0usize;
    let mut last_end = 0usize;
    let mut before = ' ';
    for character in text.chars() {
        used = used.saturating_add(width_of(character));
        if used > width && character != ' ' && place > 0 {
            return if last_end > 0 { last_end } else { place };
        }
        place = place.saturating_add(character.len_utf8());
        if may_end_after(before, character) {
            last_end = place;
        }
        before = character;
    }
    place
}

/// Whether a line may end after a character: after a space, the dots of an interval, or what opens a list or a literal.
fn may_end_after(before: char, character: char) -> bool {
    character == ' ' || character == '(' || (character == '.' && before == '.')
}

/// Returns the width of the widest part of a text in which no line may end.
pub fn word_width(text: &str) -> usize {
    let mut widest = 0usize;
    let mut used = 0usize;
    let mut before = ' ';
    for character in text.chars() {
        if character != ' ' {
            used = used.saturating_add(width_of(character));
            widest = widest.max(used);
        }
        if may_end_after(before, character) {
            used = 0;
        }
        before = character;
    }
    widest
}
