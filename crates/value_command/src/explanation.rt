//! Explanations after the line of an error.

use clap::ArgMatches;
use diagnostics::{Explanation, Message, explain_unusable_file};
use std::alloc::AllocError;
use std::io;

/// What an explanation needs of a command over a plan.
#[derive(Clone, Copy)]
pub struct About<'a, 'w> {
    /// Whether errors are explained.
    pub explains: bool,
    /// The command line.
    pub words: &'a ArgMatches<'w>,
    /// The text of the plan.
    pub plan: &'a [u8],
}

impl<'a, 'w> About<'a, 'w> {
    /// The value of the argument with this name; empty if there is none.
    pub fn word(&self, name: &str) -> &str {
        match self.words.get_str(name) {
            Some(word) => word,
            None => "",
        }
    }

    /// The value with this number, from 1, of the argument with this name; empty if there is none.
    pub fn word_at(&self, name: &str, number: usize) -> &str {
        let Some(words) = self.words.get_strs(name) else {
            return "";
        };
        match words.get(number.saturating_sub(1)) {
            Some(word) => word,
            None => "",
        }
    }
}

/// Prints an explanation. If memory ran out for it, the error line before it is the only report.
pub fn print_message<R: Eprint>(rt: &R, page: Result<Message, AllocError>) {
    if let Ok(page) = page {
        let _ = rt.eprint(page.as_str());
    }
}

/// Explains why a file of this name cannot be read or written, with the system's reason.
pub fn explain_unreadable<R: Eprint + AllocGlobal>(
    rt: &R,
    name: &str,
    fault: &io::Error,
    words: Explanation,
) {
    if let Ok(reason) = format!(in rt.alloc(); "{fault}") {
        print_message(
            rt,
            explain_unusable_file(rt.alloc(), name, reason.as_str(), words),
        );
    }
}

/// Prints these lines, if there are any.
pub fn print_lines<R: Eprint>(rt: &R, lines: &str) {
    if !lines.is_empty() {
        let _ = rt.eprint(lines);
    }
}
