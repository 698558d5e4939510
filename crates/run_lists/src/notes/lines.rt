//! The lines on which the records of a file begin.

/// The place of a reader in a record.
#[derive(Clone, Copy, PartialEq, Eq)]
enum Place {
    FieldStart,
    Unquoted,
    Quoted,
    /// The byte before is a quote in a quoted field, which it closes unless another quote follows.
    AfterQuote,
}

impl Place {
    fn after(self, byte: u8) -> Place {
        if byte == b'"' {
            return self.after_quote();
        }
        if self == Place::Quoted {
            return Place::Quoted;
        }
        if byte == b',' {
            Place::FieldStart
        } else {
            Place::Unquoted
        }
    }

    fn after_quote(self) -> Place {
        match self {
            Place::FieldStart => Place::Quoted,
            Place::Unquoted => Place::Unquoted,
            Place::Quoted => Place::AfterQuote,
            Place::AfterQuote => Place::Quoted,
        }
    }
}

/// Walks through the records of a text, as `csv` reads them: empty lines are no records, and a line
/// end in a quoted field belongs to the field.
#[derive(Drop)]
pub struct RecordLines<'t> {
    text: &'t [u8],
    /// The index of the first byte that is not read yet.
    at: usize,
    /// The line of this byte, from 1.
    line: u64,
}

impl<'t> RecordLines<'t> {
    /// Begins before the first record of a text.
    pub fn new(text: &'t [u8]) -> RecordLines<'t> {
        let at = if text.starts_with(b"\xEF\xBB\xBF") {
            3
        } else {
            0
        };
        RecordLines { text, at, line: 1 }
    }

    /// Passes the next record, and returns the line on which it begins, from 1. Lines end with a line
    /// feed.
    pub fn pass_record(&mut self) -> u64 {
        self.pass_line_ends();
        let first = self.line;
        self.pass_fields();
        first
    }

    fn pass_line_ends(&mut self) {
        let text = self.text;
        for at in self.at..text.len() {
            let byte = text[at];
            if !is_line_end(byte) {
                self.at = at;
                return;
            }
            self.count(byte);
        }
        self.at = text.len();
    }

    fn pass_fields(&mut self) {
        let text = self.text;
        let mut place = Place::FieldStart;
        for at in self.at..text.len() {
            let byte = text[at];
            if is_line_end(byte) && place != Place::Quoted {
                self.at = at;
                return;
            }
            self.count(byte);
            place = place.after(byte);
        }
        self.at = text.len();
    }

    fn count(&mut self, byte: u8) {
        if byte == b'\n' {
            self.line = self.line.saturating_add(1);
        }
    }
}

fn is_line_end(byte: u8) -> bool {
    byte == b'\n' || byte == b'\r'
}
