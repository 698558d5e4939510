//! The values of tables.
ghost use Rattle.std.specs.Prelude.{◌≡◌, position, slice_get};
ghost use Rattle.std.specs.Str.{bytes_eq};
ghost use Rattle.std.specs.Option.{option_copied, option_and_then};
ghost use Rattle.tables.specs.Environment.{answer_of, answer_in, answer_at};

use crate::answers::{Answers, AnswersByTable};
use crate::output_place::OutputPlace;
use crate::table::{Output, Table};
use feel_tests::{Sequence, Value};
use std::marker::Model;

/// The answer of a table for one output.
pub enum Answer {
    /// The single value of the output.
    One(Value),
    /// The list of its values, under a hit policy that lists all matches.
    Many(Sequence<Value>),
}

impl Drop for Answer {
    #[inline]
    fn drop(self) {
        match self {
            Answer::One(_) => {}
            Answer::Many(_) => {}
        }
    }
}

/// The tables of a plan with their answers.
pub struct Env<'a> {
    tables: &'a [Table],
    answers: AnswersByTable<'a>,
}

impl Drop for Env<'_> {
    #[inline]
    fn drop(self) {
        let Env {
            tables: _,
            answers: _,
        } = self;
    }
}

impl<'a> Model for Env<'a> {
    ghost use Rattle.tables.specs.Environment.{Environment};

    ghost Value = { Environment };

    ghost view = { λ e. record { tables = e.tables.now; answers = e.answers } };
}

impl<'a> Env<'a> {
    /// Combines tables with their answers, table by table and output by output.
    pub fn new(tables: &'a [Table], answers: AnswersByTable<'a>) -> Env<'a>
        ensures { result ≡ record { tables = tables.now; answers = answers.entry } }
    {
        Env { tables, answers }
    }

    /// Returns the answer of the output with this name, or `None` if there is no such output.
    pub fn get(&self, name: &str) -> Option<&Answer>
        ensures { option_copied result ≡ answer_of self.now.tables self.now.answers name.now }
    {
        find_answer(self.tables, self.answers.as_slice(), name)
    }

    /// Returns the answer of the output at this place.
    pub fn at(&self, place: OutputPlace) -> Option<&Answer>
        ensures { option_copied result ≡ answer_at self.now.answers place }
    {
        match self.answers.as_slice().get(place.table) {
            Some(answers) => answers.as_slice().get(place.column),
            None => None,
        }
    }
}

fn find_answer<'a>(tables: &[Table], answers: &'a [Answers<'_>], name: &str) -> Option<&'a Answer>
    ensures { option_copied result ≡ answer_of tables.now answers.now name.now }
{
    for (place, answers) in answers.iter().enumerate() {
        let found = answer_at(tables, place, answers.as_slice(), name);
        if found.is_some() {
            return found;
        }
    }
    None
}

// Returns the answer of the output with this name, if the table at the index has such an output.
fn answer_at<'a>(
    tables: &[Table],
    place: usize,
    answers: &'a [Answer],
    name: &str,
) -> Option<&'a Answer>
    ensures { option_copied result ≡ option_and_then
        (λ t. answer_in t.outputs answers.now name.now) (slice_get tables.now place) }
{
    match tables.get(place) {
        Some(table) => answer_in(table.outputs.as_slice(), answers, name),
        None => None,
    }
}

fn answer_in<'a>(outputs: &[Output], answers: &'a [Answer], name: &str) -> Option<&'a Answer>
    ensures { option_copied result ≡ answer_in outputs.now answers.now name.now }
{
    match place_of(outputs, name) {
        Some(place) => answers.get(place),
        None => None,
    }
}

/// Returns the index of the first output with this name.
pub fn place_of(outputs: &[Output], name: &str) -> Option<usize>
    ensures { result ≡ position (λ o. bytes_eq o.name name.now) outputs.now }
{
    for (place, output) in outputs.iter().enumerate() {
        if output.name.as_str() == name {
            return Some(place);
        }
    }
    None
}
