//! The lines of an explanation.

use crate::advice::Advice;
use crate::places::Step;
use crate::position::position_of;
use crate::scanner::places_of;
use crate::texts::Explanation;
use faults::push_printable;
use std::alloc::{AllocError, Global};

/// The most bytes that are shown of a word, and of a line before its mark and after it.
const SHOWN_LIMIT_BYTES: usize = 100;

/// What replaces the part of a text that is not shown.
const DOTS: &str = "...";

/// What is before a mark: not fewer spaces than there are bytes of a line before its mark, with the dots.
const BLANKS: &str =
    "                                                                                                              ";

/// A value in a sentence.
#[derive(Clone, Copy)]
pub enum Part<'p> {
    Word(&'p str),
    Number(usize),
}

/// The lines of an explanation.
pub struct Message {
    alloc: Global,
    text: String,
}

impl Drop for Message {
    fn drop(self) {
        let Message { alloc: _, text: _ } = self;
    }
}

/// Explains an error by its cause and its fix alone.
pub fn explain(alloc: Global, words: Explanation) -> Result<Message, AllocError> {
    let mut message = Message::new(alloc);
    let done = message.words(words);
    message.after(done)
}

/// Explains an error by a sentence about its place, its cause and its fix.
pub fn explain_at(
    alloc: Global,
    place: &str,
    values: &[Part<'_>],
    words: Explanation,
) -> Result<Message, AllocError> {
    let mut message = Message::new(alloc);
    let done = message.sentence(place, values);
    let mut message = message.after(done)?;
    let done = message.words(words);
    message.after(done)
}

/// Explains why a file of this name cannot be read or written, with the system's reason.
pub fn explain_unusable_file(
    alloc: Global,
    name: &str,
    reason: &str,
    words: Explanation,
) -> Result<Message, AllocError> {
    explain_at(
        alloc,
        "{}: {}",
        &[Part::Word(name), Part::Word(reason)],
        words,
    )
}

impl Message {
    /// A message without lines.
    pub fn new(alloc: Global) -> Message {
        Message {
            alloc,
            text: String::new(alloc),
        }
    }

    /// The lines, each with its end.
    pub fn as_str(&self) -> &str {
        self.text.as_str()
    }

    /// The message, or the error of the steps that added its lines. With it, those that own a message have one way out.
    pub fn after(self, done: Result<(), AllocError>) -> Result<Message, AllocError> {
        match done {
            Ok(()) => Ok(self),
            Err(fault) => Err(fault),
        }
    }

    /// Adds a line, indented by two spaces: the sentence, with the values in place of its pairs of braces.
    pub fn sentence(&mut self, sentence: &str, values: &[Part<'_>]) -> Result<(), AllocError> {
        self.line("  ", sentence, values)
    }

    fn line(&mut self, front: &str, sentence: &str, values: &[Part<'_>]) -> Result<(), AllocError> {
        self.text.push_str(front)?;
        self.add(sentence, values)?;
        self.text.push_str("\n")
    }

    /// Adds the cause and the fix.
    pub fn words(&mut self, words: Explanation) -> Result<(), AllocError> {
        self.advice(&Advice::about(words.cause, words.fix, ""))
    }

    /// Adds the cause and the fix with their values.
    pub fn advice(&mut self, advice: &Advice<'_>) -> Result<(), AllocError> {
        self.line("  Cause: ", advice.words.cause, &advice.values)?;
        self.line("  Fix: ", advice.words.fix, &advice.values)
    }

    /// Appends a part of a line, with the values in place of its pairs of braces. Values without a pair are left out.
    pub fn add(&mut self, sentence: &str, values: &[Part<'_>]) -> Result<(), AllocError> {
        let mut rest = sentence;
        for value in values {
            if let Some((front, back)) = rest.split_once("{}") {
                self.text.push_str(front)?;
                self.add_value(*value)?;
                rest = back;
            }
        }
        self.text.push_str(rest)
    }

    // U+FFFD replaces each character of a word that a terminal would obey or not show.
    fn add_value(&mut self, value: Part<'_>) -> Result<(), AllocError> {
        match value {
            Part::Word(word) => push_printable(&mut self.text, word),
            Part::Number(number) => {
                let digits = String::format(self.alloc, number)?;
                self.text.push_str(digits.as_str())
            }
        }
    }

    /// Adds the line and the column of a byte of a file.
    pub fn place(&mut self, name: &str, text: &[u8], at: usize) -> Result<(), AllocError> {
        let position = position_of(text, at);
        let values = [
            Part::Word(name),
            Part::Number(position.line),
            Part::Number(position.column),
        ];
        self.sentence("{}, line {}, column {}", &values)
    }

    /// Adds the place in a plan's text of the value at the end of the steps; if that does not exist, of the last one that does.
    pub fn place_of(&mut self, name: &str, text: &[u8], steps: &[Step]) -> Result<(), AllocError> {
        let Ok(words) = str::from_utf8(text) else {
            return Ok(());
        };
        let places = places_of(self.alloc, words)?;
        self.place(name, text, places.nearest_node(steps))
    }

    /// Adds the line of a text that has this byte, and a mark below the byte.
    pub fn mark(&mut self, text: &str, at: usize) -> Result<(), AllocError> {
        let mut begin = 0usize;
        for line in text.split('\n') {
            let end = begin.saturating_add(line.len());
            if at <= end {
                return self.mark_line(line, at.saturating_sub(begin));
            }
            begin = end.saturating_add(1);
        }
        Ok(())
    }

    // A long line is cut on both sides of the byte.
    fn mark_line(&mut self, line: &str, at: usize) -> Result<(), AllocError> {
        let begin = line.floor_char_boundary(at.saturating_sub(SHOWN_LIMIT_BYTES));
        let end = line.floor_char_boundary(at.saturating_add(SHOWN_LIMIT_BYTES));
        let shown = line.get(begin..end).unwrap_or("");
        let front = dots_if(begin > 0);
        let back = dots_if(end < line.len());
        self.sentence(
            "    {}{}{}",
            &[Part::Word(front), Part::Word(shown), Part::Word(back)],
        )?;
        self.mark_below(front, shown, at.saturating_sub(begin))
    }

    // Adds a mark below the character at a byte of what is shown after the front. Columns count characters, so that the mark is below the right one.
    fn mark_below(&mut self, front: &str, shown: &str, at: usize) -> Result<(), AllocError> {
        let before = position_of(shown.as_bytes(), at).column.saturating_sub(1);
        let blanks = BLANKS
            .get(..front.len().saturating_add(before))
            .unwrap_or("");
        self.sentence("    {}^", &[Part::Word(blanks)])
    }
}

/// The part of a word that is shown.
pub fn shown_front(word: &str) -> &str {
    let end = word.floor_char_boundary(SHOWN_LIMIT_BYTES);
    word.get(..end).unwrap_or("")
}

/// What replaces the rest of a text, if it is cut.
pub fn dots_if(is_cut: bool) -> &'static str {
    if is_cut { DOTS } else { "" }
}
