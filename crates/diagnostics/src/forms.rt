//! Compares texts with forms, as people write cells and headers, and finds the values in them.
//!
//! A form is a text in which some characters stand for parts of the other text:
//!
//! | Character | Part |
//! |---|---|
//! | space | white space, or nothing |
//! | `*` | everything up to the next part of the form, or to the end |
//! | `9` | a digit |
//! | `W` | a word that does not begin with a digit |
//! | `X` | an asterisk |
//! | `&` | letters, spaces, `&` and `;`, or nothing |
//! | `F` | the place of the fault, after white space or nothing |
//! | `E` | the end of the text, after white space or nothing |
//! | `U` | the opening quote of a text without a closing one |
//! | `N` | a literal of the column's kind, which is a value |
//! | `O` | one of the operators `<`, `<=`, `>` and `>=`, which is a value |
//! | `A` | a word, which is a value |
//! | `I` | a day without its word `date`, which is a value |
//! | `T`, `Y` | three or four digits alone, which are a value |
//!
//! White space may be before a value. Any other character is itself, in upper or lower case. After a form without `*` at its end, the test must end
//! too: by a comma, a closing parenthesis, or the end of the text.

use crate::kind::Kind;

/// The most values of a form.
pub const VALUES_LIMIT: usize = 4;

/// A text that is compared with forms.
#[derive(Clone, Copy)]
pub struct Subject<'t> {
    pub text: &'t [u8],
    /// The kind of the literals that are values.
    pub kind: Kind,
    /// The offset of the fault in bytes, from 0.
    pub fault: usize,
}

/// The values of a text that has a form, in their order. The first one is also in the places that have no value.
#[derive(Clone, Copy)]
pub struct Values<'t> {
    pub texts: [&'t str; VALUES_LIMIT],
}

/// A text that has been compared up to a place.
#[derive(Clone, Copy)]
struct Comparison<'t> {
    subject: Subject<'t>,
    at: usize,
    /// Whether the next part may be anywhere after the place.
    is_open: bool,
    values: Values<'t>,
    count: usize,
}

/// The values of a text, if it has the form.
pub fn values_of<'t>(subject: Subject<'t>, form: &str) -> Option<Values<'t>> {
    let mut comparison = Comparison {
        subject,
        at: 0,
        is_open: false,
        values: Values {
            texts: [""; VALUES_LIMIT],
        },
        count: 0,
    };
    for part in form.as_bytes() {
        if !comparison.has(*part) {
            return None;
        }
    }
    // A test of a list ends before a comma or a closing parenthesis, or at the end of the text.
    match subject.after(comparison.at).trim_ascii_start().first() {
        Some(byte) if !comparison.is_open && *byte != b',' && *byte != b')' => None,
        _ => Some(comparison.values),
    }
}

impl<'t> Comparison<'t> {
    // Whether the text goes on with this part, and goes to the end of it.
    fn has(&mut self, part: u8) -> bool {
        if part == b'*' {
            self.is_open = true;
            return true;
        }
        let is_value = matches!(part, b'N' | b'O' | b'A' | b'I' | b'T' | b'Y');
        let begin = self.begin_of(part, is_value);
        let Some(end) = self.subject.end_of(part, begin) else {
            return false;
        };
        if is_value {
            self.keep(begin, end);
        }
        self.at = end;
        self.is_open = false;
        true
    }

    fn begin_of(&self, part: u8, is_value: bool) -> usize {
        if !self.is_open && is_value {
            return self.subject.run_end(b' ', self.at);
        }
        if !self.is_open {
            return self.at;
        }
        if part == b'F' {
            return self.subject.fault;
        }
        let mut begin = self.at;
        for byte in self.subject.after(self.at) {
            if is_of(part, *byte) {
                break;
            }
            begin = begin.saturating_add(1);
        }
        begin
    }

    fn keep(&mut self, begin: usize, end: usize) {
        let bytes = self.subject.text.get(begin..end).unwrap_or(&[]);
        let value = str::from_utf8(bytes).unwrap_or("");
        let mut texts = self.values.texts;
        if self.count == 0 {
            texts = [value; VALUES_LIMIT];
        } else if self.count < VALUES_LIMIT {
            texts[self.count] = value;
        }
        self.values = Values { texts };
        self.count = self.count.saturating_add(1);
    }
}

impl<'t> Subject<'t> {
    fn after(self, at: usize) -> &'t [u8] {
        self.text.get(at..).unwrap_or(&[])
    }

    // The end of the part that begins at this place; none if there is no such part.
    fn end_of(self, part: u8, at: usize) -> Option<usize> {
        match part {
            b' ' | b'&' => Some(self.run_end(part, at)),
            b'W' if self.byte_end(b'9', at).is_some() => None,
            b'W' | b'A' => self.run_of(b'W', at, 1, usize::MAX),
            b'T' => self.run_of(b'9', at, 3, 3),
            b'Y' => self.run_of(b'9', at, 4, 4),
            b'F' if at <= self.fault && self.fault <= self.run_end(b' ', at) => Some(self.fault),
            b'F' => None,
            b'E' if self.after(at).trim_ascii().is_empty() => Some(self.text.len()),
            b'E' => None,
            b'U' if self.text_end(at).is_some() => None,
            b'U' => self.byte_end(b'"', at),
            b'N' => self.literal_end(at),
            b'O' => match self.text.get(at) {
                Some(b'<' | b'>') => {
                    let end = at.saturating_add(1);
                    Some(self.byte_end(b'=', end).unwrap_or(end))
                }
                _ => None,
            },
            b'I' => self.pattern_end(b"9999-99-99", at),
            _ => self.byte_end(part, at),
        }
    }

    // The end of the bytes from a place on that are of a part.
    fn run_end(self, part: u8, at: usize) -> usize {
        let mut end = at;
        for byte in self.after(at) {
            if !is_of(part, *byte) {
                break;
            }
            end = end.saturating_add(1);
        }
        end
    }

    fn run_of(self, part: u8, at: usize, least: usize, most: usize) -> Option<usize> {
        let end = self.run_end(part, at);
        let length = end.saturating_sub(at);
        if least <= length && length <= most {
            Some(end)
        } else {
            None
        }
    }

    fn byte_end(self, part: u8, at: usize) -> Option<usize> {
        match self.text.get(at) {
            Some(byte) if is_of(part, *byte) => Some(at.saturating_add(1)),
            _ => None,
        }
    }

    // In a pattern `U` stands for a text.
    fn pattern_end(self, pattern: &[u8], at: usize) -> Option<usize> {
        let mut end = at;
        for part in pattern {
            let next = match part {
                b' ' => Some(self.run_end(b' ', end)),
                b'U' => self.text_end(end),
                _ => self.byte_end(*part, end),
            };
            end = next?;
        }
        Some(end)
    }

    // Literals have words in lower case alone.
    fn word_end(self, word: &[u8], at: usize) -> Option<usize> {
        if self.after(at).starts_with(word) {
            return Some(at.saturating_add(word.len()));
        }
        None
    }

    fn literal_end(self, at: usize) -> Option<usize> {
        match self.kind {
            Kind::Number => self.number_end(at),
            Kind::Text => self.text_end(at),
            Kind::Flag => match self.word_end(b"true", at) {
                Some(end) => Some(end),
                None => self.word_end(b"false", at),
            },
            Kind::Day => self.pattern_end(b" ( U )", self.word_end(b"date", at)?),
        }
    }

    fn number_end(self, at: usize) -> Option<usize> {
        let begin = self.byte_end(b'-', at).unwrap_or(at);
        let whole = self.run_of(b'9', begin, 1, usize::MAX)?;
        let Some(dot) = self.byte_end(b'.', whole) else {
            return Some(whole);
        };
        Some(self.run_of(b'9', dot, 1, usize::MAX).unwrap_or(whole))
    }

    // A quote after a backslash does not end a text.
    fn text_end(self, at: usize) -> Option<usize> {
        let mut end = self.byte_end(b'"', at)?;
        let mut is_escaped = false;
        for byte in self.after(end) {
            end = end.saturating_add(1);
            match byte {
                _ if is_escaped => is_escaped = false,
                b'\\' => is_escaped = true,
                b'"' => return Some(end),
                _ => {}
            }
        }
        None
    }
}

// Whether a byte is of this part of a form. Texts in quotes other than double ones count as words.
fn is_of(part: u8, byte: u8) -> bool {
    match part {
        b' ' => byte.is_ascii_whitespace(),
        b'9' => byte.is_ascii_digit(),
        b'W' => {
            byte.is_ascii_alphanumeric() || byte == b'_' || byte == b'\'' || !byte.is_ascii()
        }
        b'X' => byte == b'*',
        b'&' => {
            byte.is_ascii_alphabetic() || byte.is_ascii_whitespace() || byte == b'&' || byte == b';'
        }
        _ => byte.eq_ignore_ascii_case(&part),
    }
}
