//! Lines and columns of a text.

ghost use Rattle.std.specs.Prelude.{take};
ghost use Rattle.diagnostics.specs.Position.{IsAfter};

/// A place in a text. Lines and columns count from 1, and columns are in characters.
#[derive(Clone, Copy)]
pub struct Position {
    pub line: usize,
    pub column: usize,
}

/// The place of the byte at this offset, or of the end of the text if the text is shorter.
pub fn position_of(text: &[u8], at: usize) -> Position
    ensures { IsAfter (take at text.now) result }
{
    position_after(&text[..at.min(text.len())])
}

fn position_after(text: &[u8]) -> Position
    ensures { IsAfter text.now result }
{
    let mut line = 1;
    let mut column = 1;
    for byte in text {
        if *byte == b'\n' {
            line += 1;
            column = 1;
        } else if *byte & 0xC0 != 0x80 {
            column += 1;
        }
    }
    Position { line, column }
}

/// Finds the places of bytes in ascending order, so that it reads each byte of the text once.
#[derive(Drop)]
pub struct Positions<'t> {
    rest: &'t [u8],
    /// The offset of the rest; `known` is its place.
    at: usize,
    known: Position,
}

impl<'t> Positions<'t> {
    /// Begins at the first byte of the text.
    pub fn new(text: &'t [u8]) -> Positions<'t> {
        Positions {
            rest: text,
            at: 0,
            known: Position { line: 1, column: 1 },
        }
    }

    /// The place of the byte at this offset, which must not be less than the last one.
    pub fn next(&mut self, at: usize) -> Position {
        let between = at.saturating_sub(self.at).min(self.rest.len());
        let further = position_of(self.rest, between);
        // The further place counts lines and columns from the known one on.
        let column = if further.line == 1 {
            self.known
                .column
                .saturating_add(further.column)
                .saturating_sub(1)
        } else {
            further.column
        };
        let line = self
            .known
            .line
            .saturating_add(further.line)
            .saturating_sub(1);
        self.known = Position { line, column };
        self.rest = &self.rest[between..];
        self.at = at;
        self.known
    }
}
