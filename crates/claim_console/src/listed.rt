//! The text of the notes of a run: a work list of the records that need a person.

use crate::explaining::AboutFiles;
use console::names::FILE;
use dtable::read_plan;
use run_lists::{Note, NotedTexts, notes_text};
use std::alloc::Global;

/// The work list of a run over these files; none if memory ran out for it.
pub fn work_list(
    alloc: Global,
    about: &AboutFiles,
    files: &[&[u8]],
    notes: &[Note],
) -> Option<Vec<u8>> {
    let names = about.plan.words.get_strs(FILE).unwrap_or(&[]);
    list_of(alloc, about.plan.plan, names, files, notes)
}

fn list_of<'x>(
    alloc: Global,
    plan: &[u8],
    names: &'x [&'x str],
    files: &'x [&'x [u8]],
    notes: &[Note],
) -> Option<Vec<u8>> {
    let Ok(plan) = read_plan(alloc, plan) else {
        return None;
    };
    let texts = NotedTexts {
        plan: &plan,
        names,
        files,
    };
    let list = notes_text(alloc, texts, notes).ok();
    drop(plan);
    list
}
