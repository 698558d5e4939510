//! The options of `compare`: names that the new plan has in place of others, and cells that values meet.

ghost use Rattle.std.specs.Prelude.{◌≡◌, ◌++◌, ◌∷◌, [], Contains, IfErr, IfNone, IfOk, IfSome, OnOk};
ghost use Rattle.std.specs.List.{AllZip};
ghost use Rattle.evaluation.specs.Arguments.{argument_texts, equals_sign, IsSplit};
ghost use Rattle.value_command.specs.Words.{words_at};
ghost use Rattle.plan_commands.specs.Comparing.{IsNarrowing, IsNarrowingStop, IsRefusedWord, IsRename, IsRenameStop, kind_named};

use clap::ArgMatches;
use feel_tests::{CellCause, Kind, read_cell};
use plan_checks::{Narrowing, Rename};
use std::alloc::{AllocError, Global};
use tables::{InputData, Plan};

/// The reason why a word of the command line is refused. Words of an option are counted from 0.
#[derive(Clone, Copy)]
pub enum WordFault {
    /// A word of `--as` has no `=`.
    NoNewName(usize),
    /// A word of `--where` has no `=`.
    NoCell(usize),
    /// Neither plan has the name of a word of `--where`.
    Unknown(usize),
    /// The cell of a word of `--where` cannot be read, from this byte of the cell on.
    Cell { word: usize, at: usize },
    OutOfMemory,
}

impl From<AllocError> for WordFault {
    ghost use Rattle.std.specs.Prelude.{◌≡◌};
    ghost use Rattle.plan_commands.specs.declared.compare_words.WordFault.TheVariants.{OutOfMemory};

    ghost from_gives = { λ _ fault. fault ≡ OutOfMemory };

    fn from(_refusal: AllocError) -> WordFault {
        WordFault::OutOfMemory
    }
}

/// The words of an option that can be given several times.
pub fn words_of<'m>(matches: &'m ArgMatches<'_>, option: &str) -> &'m [&'m str]
    ensures { argument_texts result.now ≡ words_at matches.now option.now }
{
    matches.get_strs(option).unwrap_or(&[])
}

/// Returns the names of `--as OLD=NEW`.
pub fn renames_of<'m>(alloc: Global, words: &[&'m str]) -> Result<Vec<Rename<'m>>, WordFault>
    ensures read { IfOk result (λ renames.
        AllZip IsRename (argument_texts words.now) renames.items) }
    ensures refused { IfErr result (IsRenameStop (argument_texts words.now)) }
{
    let mut renames = Vec::new(alloc);
    for (word, text) in words.iter().enumerate() {
        match split_word(*text) {
            Some((old, new)) => add(&mut renames, Rename { old, new })?,
            None => return Err(WordFault::NoNewName(word)),
        }
    }
    Ok(renames)
}

// Returns the parts on both sides of the first `=`.
fn split_word(word: &str) -> Option<(&str, &str)>
    ensures split { IfSome result (λ parts. IsSplit word.now parts.0.now parts.1.now) }
    ensures none { IfNone result (¬ Contains word.now equals_sign) }
{
    word.split_once('=')
}

/// Returns the cells of `--where NAME=CELL`. The kind of a cell is that of the name in the new plan, or in the old one if the new one does not have it.
pub fn narrowings_of<'m>(
    alloc: Global,
    words: &[&'m str],
    old: &Plan,
    new: &Plan,
) -> Result<Vec<Narrowing<'m>>, WordFault>
    ensures read { IfOk result (λ narrowed.
        AllZip (IsNarrowing old.now new.now) (argument_texts words.now) narrowed.items) }
    ensures refused { IfErr result
        (IsNarrowingStop old.now new.now (argument_texts words.now)) }
{
    let mut narrowed = Vec::new(alloc);
    for (word, text) in words.iter().enumerate() {
        let narrowing = narrowing_of(alloc, word, *text, old, new)?;
        add(&mut narrowed, narrowing)?;
    }
    Ok(narrowed)
}

fn add<T: Drop>(items: &mut Vec<T>, item: T) -> Result<(), AllocError>
    ensures { OnOk result (items.new.items ≡ items.old.items ++ item ∷ []) }
{
    items.push(item)?;
    Ok(())
}

fn narrowing_of<'m>(
    alloc: Global,
    word: usize,
    text: &'m str,
    old: &Plan,
    new: &Plan,
) -> Result<Narrowing<'m>, WordFault>
    ensures read { IfOk result (IsNarrowing old.now new.now text.now) }
    ensures refused { IfErr result (IsRefusedWord old.now new.now word text.now) }
{
    let (name, cell) = match split_word(text) {
        Some(parts) => parts,
        None => return Err(WordFault::NoCell(word)),
    };
    let kind = match kind_of(new.names(), name).or(kind_of(old.names(), name)) {
        Some(kind) => kind,
        None => return Err(WordFault::Unknown(word)),
    };
    match read_cell(alloc, kind, cell) {
        Ok(cell) => Ok(Narrowing { name, cell }),
        Err(fault) => match fault.cause {
            CellCause::OutOfMemory => Err(WordFault::OutOfMemory),
            _ => Err(WordFault::Cell { word, at: fault.at }),
        },
    }
}

// Returns the kind of the values of the first name with this text.
fn kind_of(names: &[InputData], name: &str) -> Option<Kind>
    ensures { result ≡ kind_named names.now name.now }
{
    match names.split_first() {
        Some((data, more)) => {
            if data.name.as_str() == name {
                return Some(data.kind);
            }
            kind_of(more, name)
        }
        None => None,
    }
}
