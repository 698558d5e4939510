//! The cause of an error and its fix, with the values that their sentences have.

use crate::forms::VALUES_LIMIT;
use crate::message::Part;
use crate::row::Found;
use crate::texts::Explanation;

/// The cause of an error and its fix. The values replace the pairs of braces of each sentence, in their order.
#[derive(Clone, Copy)]
pub struct Advice<'d> {
    pub words: Explanation,
    pub values: [Part<'d>; VALUES_LIMIT],
}

impl<'d> Advice<'d> {
    /// A cause and a fix that have this word.
    pub fn about(cause: &'static str, fix: &'static str, word: &'d str) -> Advice<'d> {
        Advice {
            words: Explanation::new(cause, fix),
            values: [Part::Word(word); VALUES_LIMIT],
        }
    }

    /// A cause and a fix that have these two values.
    pub fn new(
        cause: &'static str,
        fix: &'static str,
        first: Part<'d>,
        second: Part<'d>,
    ) -> Advice<'d> {
        Advice {
            words: Explanation::new(cause, fix),
            values: [first, second, first, second],
        }
    }

    /// This advice with another fix and its values.
    pub fn with_fix(self, found: Found<'d>) -> Advice<'d> {
        let [first, second, third, fourth] = found.values.texts;
        Advice {
            words: Explanation::new(self.words.cause, found.sentence),
            values: [
                Part::Word(first),
                Part::Word(second),
                Part::Word(third),
                Part::Word(fourth),
            ],
        }
    }
}
