//! Reads whole texts from files and standard input, up to a limit, one text or several side by side.

ghost use Rattle.std.specs.Prelude.{◌≡◌, ◌+◌, ◌<◌, ◌≤◌, ℕ, IfErr, IfOk, length, slice_index_or, take, vec_len};
ghost use Rattle.console.specs.Reading.{AreReadUpTo, IsReadUpTo, names_of, texts_in};

use crate::sources::Sources;
use std::alloc::{AllocError, Global};
use std::io;
use std::io::Read;
use std::thread::{Threads, map_vec};

/// The most texts that are open at one time. The system limits the files that a program has open, and each text after the first one takes a thread.
const TEXTS_AT_ONCE: usize = 16;

/// The error of reading a text.
#[derive(Drop)]
pub enum ReadFault {
    /// The text cannot be opened or read: it is missing, it is a folder, the user may not read it, or its device failed.
    Unreadable(io::Error),
    /// Memory ran out.
    OutOfMemory,
}

/// A text among several that cannot be read.
#[derive(Drop)]
pub struct UnreadText {
    /// The place of its name, from 0.
    pub place: usize,
    pub fault: ReadFault,
}

/// Reads the bytes of the text with this name, at most one more than the limit: from the one more the caller sees that the text is too long.
pub fn read_text<S: Sources>(
    alloc: Global,
    sources: &S,
    name: &str,
    limit_bytes: usize,
) -> Result<Vec<u8>, ReadFault>
    ensures { IfOk result (λ bytes.
        IsReadUpTo limit_bytes (S.whole sources.now name.now) bytes.items) }
{
    match sources.reader_of(name) {
        Ok(source) => read_source(alloc, source, limit_bytes),
        Err(fault) => Err(read_fault(&fault)),
    }
}

/// Reads the bytes of a source, at most one more than the limit.
pub fn read_source<S: Read + Drop>(
    alloc: Global,
    source: S,
    limit_bytes: usize,
) -> Result<Vec<u8>, ReadFault>
    ensures { IfOk result (λ bytes. IsReadUpTo limit_bytes (S.remaining source) bytes.items) }
{
    let mut bytes = Vec::new(alloc);
    match source
        .take((limit_bytes as u64).saturating_add(1))
        .read_to_end(&mut bytes)
    {
        Ok(_) => Ok(bytes),
        Err(fault) => Err(read_fault(&fault)),
    }
}

/// Reads the bytes of the texts with these names, several side by side, each up to one byte more than the limit. In each round, all texts are opened in
/// their order before one of them is read. The error is that of the first text that cannot be opened, or else of the first that cannot be read.
pub fn read_texts<R: Threads + Sync, S: Sources>(
    rt: &R,
    alloc: Global,
    sources: &S,
    names: &[&str],
    limit_bytes: usize,
) -> Result<Vec<Vec<u8>>, UnreadText>
    ensures read { IfOk result (λ texts. AreReadUpTo limit_bytes
        (S.whole sources.now) (names_of names.now) (texts_in texts.items)) }
    ensures place { IfErr result (λ unread. unread.place < length names.now) }
{
    let mut texts = Vec::new(alloc);
    'rounds: while texts.len() < names.len() {
        read_round(rt, alloc, sources, names, limit_bytes, &mut texts)?;
    }
    Ok(texts)
}

/// Reads the texts of a round, whose first one is the first that is not read yet.
fn read_round<R: Threads + Sync, S: Sources>(
    rt: &R,
    alloc: Global,
    sources: &S,
    names: &[&str],
    limit_bytes: usize,
    texts: &mut Vec<Vec<u8>>,
) -> Result<(), UnreadText>
    requires more { vec_len texts.old < length names.now }
    requires read { AreReadUpTo limit_bytes (S.whole sources.now)
        (take (vec_len texts.old) (names_of names.now)) (texts_in texts.old.items) }
    ensures more { IfOk result (λ _. vec_len texts.old < vec_len texts.new) }
    ensures inside { IfOk result (λ _. vec_len texts.new ≤ length names.now) }
    ensures read { IfOk result (λ _. AreReadUpTo limit_bytes (S.whole sources.now)
        (take (vec_len texts.new) (names_of names.now)) (texts_in texts.new.items)) }
    ensures place { IfErr result (λ unread. unread.place < length names.now) }
{
    let first = texts.len();
    let opened = open_from(alloc, sources, names, first)?;
    let Ok(round) = read_sources(rt, alloc, opened, limit_bytes) else {
        return Err(out_of_memory(first));
    };
    'results: for result in round {
        let place = texts.len();
        match result {
            Ok(text) => {
                if texts.push(text).is_err() {
                    return Err(out_of_memory(place));
                }
            }
            Err(fault) => return Err(UnreadText { place, fault }),
        }
    }
    Ok(())
}

/// Opens the text at a place and those after it. A text whose read may wait is the last one: one program may write several pipes in their order, and would
/// wait for the first one to be read while this program waits for the second one to be opened.
fn open_from<S: Sources>(
    alloc: Global,
    sources: &S,
    names: &[&str],
    first: usize,
) -> Result<Vec<S::Source>, UnreadText>
    requires first { first < length names.now }
    ensures some { IfOk result (λ opened. 0 < vec_len opened) }
    ensures inside { IfOk result (λ opened. first + vec_len opened ≤ length names.now) }
    ensures opened { IfOk result (λ opened. (k : ℕ) (d : S.Source) (e : _) → k < vec_len opened
        → S.Source.remaining (slice_index_or opened.items k d)
        ≡ S.whole sources.now (slice_index_or names.now (first + k) e).now) }
    ensures place { IfErr result (λ unread. unread.place < length names.now) }
{
    let mut opened = Vec::new(alloc);
    'names: for place in first..names.len().min(first.saturating_add(TEXTS_AT_ONCE)) {
        match sources.reader_of(names[place]) {
            Ok(source) => {
                let is_last = sources.may_wait(&source);
                if opened.push(source).is_err() {
                    return Err(out_of_memory(place));
                }
                if is_last {
                    return Ok(opened);
                }
            }
            Err(fault) => {
                let fault = read_fault(&fault);
                return Err(UnreadText { place, fault });
            }
        }
    }
    Ok(opened)
}

/// Reads sources side by side, each up to one byte more than the limit.
fn read_sources<R: Threads + Sync, S: Read + Drop + Send>(
    rt: &R,
    alloc: Global,
    sources: Vec<S>,
    limit_bytes: usize,
) -> Result<Vec<Result<Vec<u8>, ReadFault>>, AllocError>
    ensures as_many { IfOk result (λ read. vec_len read ≡ vec_len sources) }
    ensures each { IfOk result (λ read. (k : ℕ) (d e : _) → k < vec_len sources
        → IfOk (slice_index_or read.items k d) (λ bytes.
        IsReadUpTo limit_bytes (S.remaining (slice_index_or sources.items k e)) bytes.items)) }
{
    map_vec(
        rt,
        sources,
        &|source| read_source(alloc, source, limit_bytes),
    )
}

fn out_of_memory(place: usize) -> UnreadText
    ensures { result.place ≡ place }
{
    UnreadText {
        place,
        fault: ReadFault::OutOfMemory,
    }
}

fn read_fault(fault: &io::Error) -> ReadFault {
    if fault.kind() == io::ErrorKind::OutOfMemory {
        ReadFault::OutOfMemory
    } else {
        ReadFault::Unreadable(*fault)
    }
}
