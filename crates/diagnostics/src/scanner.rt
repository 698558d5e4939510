//! Finds the offsets of a document's keys and values, token by token. A text that is not TOML is scanned up to its first error.

ghost use Rattle.std.specs.Prelude.{◌<◌};

use crate::places::Places;
use std::alloc::{AllocError, Global};
use toml_parser::text::{byte_at, first, skip, skip_blank, skip_ws};
use toml_parser::{ErrorKind, Key, ParseError, dotted_key, quoted, starts_string, unquoted};

/// An array or an inline table that is not closed yet.
#[derive(Clone, Copy)]
struct Open {
    number: usize,
    is_array: bool,
}

#[derive(Drop)]
struct Scanner<'t> {
    alloc: Global,
    length: usize,
    rest: &'t str,
    places: Places,
    open: Vec<Open>,
    /// The table of the last header, to which keys at the beginning of a line belong.
    section: usize,
}

/// The keys and values of a TOML text; those before the first error if it is not TOML.
pub fn places_of(alloc: Global, text: &str) -> Result<Places, AllocError> {
    let mut scanner = Scanner {
        alloc,
        length: text.len(),
        rest: text.strip_prefix('\u{feff}').unwrap_or(text),
        places: Places::new(alloc)?,
        open: Vec::new(alloc),
        section: 0,
    };
    for _ in 0..=text.len() {
        match scanner.step() {
            Ok(true) => {}
            Err(ParseError::OutOfMemory) => return Err(AllocError),
            Ok(false) | Err(_) => break,
        }
    }
    Ok(scanner.places)
}

impl<'t> Scanner<'t> {
    fn at(&self) -> usize {
        self.length.saturating_sub(self.rest.len())
    }

    // Reads the next token. Returns false at the end of the text. The error is that the text is not TOML, or that memory ran out.
    fn step(&mut self) -> Result<bool, ParseError> {
        self.rest = skip_blank(self.rest, true);
        if self.rest.is_empty() {
            return Ok(false);
        }
        match self.open.as_slice().last().copied() {
            Some(open) => self.within(open)?,
            None if first(self.rest) == b'[' => self.header()?,
            None => self.pair(self.section)?,
        }
        Ok(true)
    }

    // Reads a token in an array or an inline table.
    fn within(&mut self, open: Open) -> Result<(), ParseError> {
        match first(self.rest) {
            b',' => self.rest = skip(self.rest, 1),
            b']' | b'}' => {
                self.rest = skip(self.rest, 1);
                let _ = self.open.pop();
            }
            _ if open.is_array => {
                let at = self.at();
                let number = self.places.push(open.number, None, at, at)?;
                self.value(number)?;
            }
            _ => self.pair(open.number)?,
        }
        Ok(())
    }

    fn header(&mut self) -> Result<(), ParseError> {
        let at = self.at();
        let _ = self.skip_if(b'[');
        let is_array = self.skip_if(b'[');
        let (parent, last) = self.path(0)?;
        self.section = self.places.section(parent, last, at, is_array)?;
        let _ = self.skip_if(b']');
        let _ = self.skip_if(b']');
        Ok(())
    }

    // Whether the next byte is this one, which is then skipped.
    fn skip_if(&mut self, byte: u8) -> bool
        requires some { 0 < byte }
        requires ascii { byte < 128 }
    {
        let is_next = first(self.rest) == byte;
        if is_next {
            self.rest = skip(self.rest, 1);
        }
        is_next
    }

    // Reads a dotted key. Returns the table of its last part, and that part.
    fn path(&mut self, table: usize) -> Result<(usize, String), ParseError> {
        let at = self.at();
        let (key, rest) = dotted_key(self.alloc, skip_ws(self.rest))?;
        self.rest = skip_ws(rest);
        let Key { path, last } = key;
        let mut table = table;
        for part in &path {
            table = self.places.table_under(table, part.as_str(), at)?;
        }
        Ok((table, last))
    }

    // Reads a key with its value.
    fn pair(&mut self, table: usize) -> Result<(), ParseError> {
        let at = self.at();
        let (parent, last) = self.path(table)?;
        if first(self.rest) != b'=' {
            return Err(ParseError::at(ErrorKind::MissingEquals, self.rest));
        }
        self.rest = skip_ws(skip(self.rest, 1));
        let value_at = self.at();
        let number = self.places.push(parent, Some(last), at, value_at)?;
        self.value(number)
    }

    // Reads a value; of an array or an inline table only the bracket.
    fn value(&mut self, number: usize) -> Result<(), ParseError> {
        let byte = first(self.rest);
        if byte == b'[' || byte == b'{' {
            self.rest = skip(self.rest, 1);
            let is_array = byte == b'[';
            self.open.push(Open { number, is_array })?;
        } else if starts_string(self.rest) {
            let (_, rest) = quoted(self.alloc, self.rest)?;
            self.rest = rest;
        } else {
            let (_, rest) = unquoted(self.alloc, self.rest)?;
            self.rest = rest;
        }
        Ok(())
    }
}
