//! The lines that report what the texts show, and whether records may be lost by it.

ghost use Rattle.std.specs.Prelude.{◌≡◌, ◌↔◌, IsTrue, false};
ghost use Rattle.csv.specs.Reading.{strip_bom};
ghost use Rattle.remarks.specs.Quotes.{EndsInQuotes};

use crate::scan::quotes_of;
use diagnostics::{position_of, push_printable};
use std::alloc::{AllocError, Global};

/// A part of a sentence.
#[derive(Clone, Copy)]
pub(crate) enum Part<'p> {
    Words(&'static str),
    /// A name, of which control characters are shown as U+FFFD.
    Name(&'p str),
    Number(usize),
}

/// What is reported of the texts of a run.
pub struct Remarks {
    alloc: Global,
    lines: String,
    /// Whether a text that was added has a quoted field that is never closed, or records that run over several lines if
    /// these were requested.
    pub may_lose_records: bool,
}

impl Drop for Remarks {
    fn drop(self) {
        let Remarks {
            alloc: _,
            lines: _,
            may_lose_records: _,
        } = self;
    }
}

impl Remarks {
    pub fn new(alloc: Global) -> Remarks {
        Remarks {
            alloc,
            lines: String::new(alloc),
            may_lose_records: false,
        }
    }

    /// The lines, each with its end.
    pub fn lines(&self) -> &str {
        self.lines.as_str()
    }

    /// Adds a line if a quoted field of this text is never closed. If it has none and `lists_long` is set, it adds a line
    /// if records run over several lines.
    pub fn add_quotes(
        &mut self,
        name: &str,
        text: &[u8],
        lists_long: bool,
    ) -> Result<(), AllocError>
        ensures closed { self.new.may_lose_records ≡ false → ¬ EndsInQuotes text.now }
        ensures kept { self.new.may_lose_records ≡ false → self.old.may_lose_records ≡ false }
    {
        let text = without_mark(text);
        let quotes = quotes_of(text);
        if let Some(at) = quotes.unclosed {
            self.may_lose_records = true;
            return self.add_unclosed(name, position_of(text, at).line);
        }
        match quotes.first_long {
            Some(at) if lists_long => {
                self.may_lose_records = true;
                self.add_long(name, quotes.long, position_of(text, at).line)
            }
            _ => Ok(()),
        }
    }

    fn add_unclosed(&mut self, name: &str, line: usize) -> Result<(), AllocError>
        ensures { self.new.may_lose_records ≡ self.old.may_lose_records }
    {
        self.add(&[
            Part::Words("In "),
            Part::Name(name),
            Part::Words(", the quoted field that begins in line "),
            Part::Number(line),
            Part::Words(" is never closed, so all text after it belongs to this field.\n"),
        ])
    }

    fn add_long(&mut self, name: &str, count: usize, line: usize) -> Result<(), AllocError>
        ensures { self.new.may_lose_records ≡ self.old.may_lose_records }
    {
        self.add(&[
            Part::Words("In "),
            Part::Name(name),
            Part::Words(", the number of records that run over several lines is "),
            Part::Number(count),
            Part::Words("; the first begins in line "),
            Part::Number(line),
            Part::Words(".\n"),
        ])
    }

    /// Adds a line if the file at this index has the same bytes as one before it.
    pub fn add_copy(
        &mut self,
        name: &str,
        files: &[Vec<u8>],
        place: usize,
    ) -> Result<(), AllocError>
        ensures { self.new.may_lose_records ≡ self.old.may_lose_records }
    {
        let Some(earlier) = earlier_copy(files, place) else {
            return Ok(());
        };
        self.add(&[
            Part::Words("File "),
            Part::Number(place.saturating_add(1)),
            Part::Words(", "),
            Part::Name(name),
            Part::Words(", has the same text as file "),
            Part::Number(earlier.saturating_add(1)),
            Part::Words(", so each of its claims is settled again.\n"),
        ])
    }

    pub(crate) fn alloc(&self) -> Global {
        self.alloc
    }

    /// Appends the parts of a sentence.
    pub(crate) fn add(&mut self, parts: &[Part<'_>]) -> Result<(), AllocError>
        ensures { self.new.may_lose_records ≡ self.old.may_lose_records }
    {
        for part in parts {
            match part {
                Part::Words(words) => self.lines.push_str(words)?,
                Part::Name(name) => push_printable(&mut self.lines, name)?,
                Part::Number(number) => {
                    let digits = String::format(self.alloc, *number)?;
                    self.lines.push_str(digits.as_str())?;
                }
            }
        }
        Ok(())
    }
}

/// Returns whether the text of a file ends within a quoted field.
pub fn ends_in_quotes(text: &[u8]) -> bool
    ensures { IsTrue result ↔ EndsInQuotes text.now }
{
    match quotes_of(without_mark(text)).unclosed {
        Some(_) => true,
        None => false,
    }
}

/// The text without a byte order mark (U+FEFF in UTF-8) at its start, as `csv` reads it.
fn without_mark(text: &[u8]) -> &[u8]
    ensures { result.now ≡ strip_bom text.now }
{
    let mark = [0xEF_u8, 0xBB, 0xBF];
    match text.strip_prefix(mark.as_slice()) {
        Some(rest) => rest,
        None => text,
    }
}

/// The index of the first file before this one that has the same bytes, if there is one.
fn earlier_copy(files: &[Vec<u8>], place: usize) -> Option<usize> {
    let text = files.get(place)?.as_slice();
    for earlier in 0..place.min(files.len()) {
        if files[earlier].as_slice() == text {
            return Some(earlier);
        }
    }
    None
}
