//! The answers of tables, either borrowed from a compiled plan or owned by one evaluation.
ghost use Rattle.std.specs.Prelude.{◌≡◌, ◌++◌, [], ◌∷◌, OnOk, OnErr};

use crate::environment::Answer;
use feel_tests::Sequence;
use smallvec::SmallVec;
use std::alloc::{AllocError, Global};
use std::marker::Model;

/// The number of tables whose answers are listed without an allocation.
const INLINE_TABLES: usize = 5;

/// The answers of a table, one for each output. Contracts see them as a list.
pub struct Answers<'a> {
    held: AnswerList<'a>,
}

impl Drop for Answers<'_> {
    #[inline]
    fn drop(self) {
        let Answers { held: _ } = self;
    }
}

/// The place where a table's answers are stored.
#[derive(Drop)]
enum AnswerList<'a> {
    /// The answers belong to a value that serves many evaluations.
    Lent(&'a [Answer]),
    /// The answers were made for this evaluation.
    Made(Sequence<Answer>),
}

impl<'a> Model for Answers<'a> {
    ghost use Rattle.std.specs.Prelude.{List};
    ghost use Rattle.tables.specs.declared.environment.Answer.{Answer};
    ghost use Rattle.tables.specs.OwnedAnswers.{answers_held};

    ghost Value = { List Answer };

    ghost view = { λ a. answers_held a.held };
}

impl<'a> Default for Answers<'a> {
    /// Returns an empty list of answers.
    fn default() -> Answers<'a> {
        Answers {
            held: AnswerList::Lent(&[]),
        }
    }
}

impl<'a> Answers<'a> {
    /// Wraps answers that another value owns.
    pub fn from_slice(answers: &'a [Answer]) -> Answers<'a>
        ensures { result ≡ answers.now }
    {
        Answers {
            held: AnswerList::Lent(answers),
        }
    }

    /// Wraps answers that were made for this evaluation.
    pub fn from_sequence(answers: Sequence<Answer>) -> Answers<'a>
        ensures { result ≡ answers }
    {
        Answers {
            held: AnswerList::Made(answers),
        }
    }

    /// Returns the answers as a slice.
    pub fn as_slice(&self) -> &[Answer]
        ensures { result.now ≡ self.now }
    {
        match &self.held {
            AnswerList::Lent(answers) => answers,
            AnswerList::Made(answers) => answers.as_slice(),
        }
    }
}

/// The answers of tables in order. Contracts see them as a list of each table's answers.
pub struct AnswersByTable<'a> {
    tables: SmallVec<Answers<'a>, INLINE_TABLES>,
}

impl Drop for AnswersByTable<'_> {
    #[inline]
    fn drop(self) {
        let AnswersByTable { tables: _ } = self;
    }
}

impl<'a> Model for AnswersByTable<'a> {
    ghost use Rattle.std.specs.Prelude.{List};
    ghost use Rattle.tables.specs.declared.environment.Answer.{Answer};

    ghost Value = { List (List Answer) };

    ghost view = { λ a. a.tables.items };
}

impl<'a> AnswersByTable<'a> {
    /// Returns the answers of no table.
    pub fn new(alloc: Global) -> AnswersByTable<'a>
        ensures { result ≡ [] }
    {
        AnswersByTable {
            tables: SmallVec::new(alloc),
        }
    }

    /// Appends the answers of the next table.
    #[inline(always)]
    pub fn push(&mut self, answers: Answers<'a>) -> Result<(), AllocError>
        ensures ok { OnOk result (self.new ≡ self.old ++ answers.entry ∷ []) }
        ensures err { OnErr result (self.new ≡ self.old) }
    {
        self.tables.push(answers)?;
        Ok(())
    }

    /// Returns the answers, table by table.
    pub fn as_slice(&self) -> &[Answers<'a>]
        ensures { result.now ≡ self.now }
    {
        self.tables.as_slice()
    }
}
