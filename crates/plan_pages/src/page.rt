//! A text that grows piece by piece. It keeps that memory has run out, so that the functions that write to it have nothing to return.

use faults::push_printable;
use feel_tests::Value;
use itoa::Buffer;
use std::alloc::{AllocError, Global};
use std::str;

/// A value in a template of a page in HTML.
#[derive(Clone, Copy)]
pub enum Part<'p> {
    /// Words, which are escaped.
    Words(&'p str),
    Number(usize),
}

/// A text that grows piece by piece.
pub struct Page {
    alloc: Global,
    text: String,
    is_cut: bool,
}

impl Drop for Page {
    fn drop(self) {
        let Page {
            alloc: _,
            text: _,
            is_cut: _,
        } = self;
    }
}

impl Page {
    /// Returns an empty text.
    pub fn new(alloc: Global) -> Page {
        Page {
            alloc,
            text: String::new(alloc),
            is_cut: false,
        }
    }

    /// Returns the bytes of the text. Fails if memory has run out for one of its pieces.
    pub fn finish(self) -> Result<Vec<u8>, AllocError> {
        let Page {
            alloc: _,
            text,
            is_cut,
        } = self;
        if is_cut {
            return Err(AllocError);
        }
        Ok(text.into_bytes())
    }

    pub fn alloc(&self) -> Global {
        self.alloc
    }

    /// Returns the text so far.
    pub fn as_str(&self) -> &str {
        self.text.as_str()
    }

    /// Returns whether memory has run out.
    pub fn is_cut(&self) -> bool {
        self.is_cut
    }

    /// Notes that memory has run out for something that belongs to the text.
    pub fn cut(&mut self) {
        self.is_cut = true;
    }

    /// Appends words of the program.
    pub fn put(&mut self, words: &str) {
        if self.text.push_str(words).is_err() {
            self.is_cut = true;
        }
    }

    pub fn put_number(&mut self, number: usize) {
        self.put(Buffer::new().format(number));
    }

    /// Appends words of a plan, with U+FFFD in place of what is not printed.
    pub fn put_printable(&mut self, words: &str) {
        if push_printable(&mut self.text, words).is_err() {
            self.is_cut = true;
        }
    }

    /// Appends the literal of a value.
    pub fn put_value(&mut self, value: &Value) {
        let mut literal = Vec::new(self.alloc);
        if value.write_text(&mut literal).is_err() {
            self.is_cut = true;
        }
        if let Ok(words) = str::from_utf8(literal.as_slice()) {
            self.put_printable(words);
        }
    }

    /// Appends a template with the values in place of its pairs of braces. Values without a pair are left out.
    pub fn fill(&mut self, template: &str, values: &[Part<'_>]) {
        let mut rest = template;
        for value in values {
            if let Some((front, back)) = rest.split_once("{}") {
                self.put(front);
                self.put_part(*value);
                rest = back;
            }
        }
        self.put(rest);
    }

    fn put_part(&mut self, value: Part<'_>) {
        match value {
            Part::Words(words) => self.put_escaped(words),
            Part::Number(number) => self.put_number(number),
        }
    }

    /// Appends words as text of a page in HTML, with U+FFFD in place of what is not printed.
    pub fn put_escaped(&mut self, words: &str) {
        let mut shown = String::new(self.alloc);
        if push_printable(&mut shown, words).is_err() {
            self.is_cut = true;
        }
        for character in shown.as_str().chars() {
            self.put_escaped_character(character);
        }
    }

    fn put_escaped_character(&mut self, character: char) {
        match character {
            '&' => self.put("&amp;"),
            '<' => self.put("&lt;"),
            '>' => self.put("&gt;"),
            '"' => self.put("&quot;"),
            '\'' => self.put("&#39;"),
            _ => self.put_character(character),
        }
    }

    fn put_character(&mut self, character: char) {
        if self.text.push(character).is_err() {
            self.is_cut = true;
        }
    }
}
