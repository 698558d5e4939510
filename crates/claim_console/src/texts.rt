//! The texts of a command over claims: the plan, the balances and the providers' files.

ghost use Rattle.std.specs.Prelude.{◌≡◌, ◌<◌, IfErr, IfOk, length, map, option_map};
ghost use Rattle.console.specs.declared.exit_status.ExitStatus.TheVariants.{Resource};
ghost use Rattle.claim_gate.specs.Terms.{text_in, texts_of as texts_after};
ghost use Rattle.claim_console.specs.Ends.{IsUnreadStatus};
ghost use Rattle.claim_console.specs.Words.{AsksStrict};
ghost use Rattle.claim_console.specs.Texts.{AreClosed, AreNamedBalances, AreNamedFiles, HasNamedTexts};

use crate::explaining::AboutFiles;
use crate::remarking::remark_on;
use crate::strict::refuse_unused;
use crate::words::is_strict;
use clap::ArgMatches;
use console::names::{BALANCES, FILE};
use console::{ExitStatus, Sources, UnreadText, input_once, no_memory, read_texts};
use intake_csv::FILE_LIMIT_BYTES;
use std::alloc::{AllocError, Global};
use std::thread::Threads;
use value_command::{About, plan_of, read_or_report, report_unread};

/// The texts of a run, in the order in which the program reads them.
pub struct Texts {
    pub plan: Vec<u8>,
    balances: Option<Vec<u8>>,
    pub files: Vec<Vec<u8>>,
}

impl Drop for Texts {
    fn drop(self) {
        let Texts {
            plan: _,
            balances: _,
            files: _,
        } = self;
    }
}

impl Texts {
    pub fn balances_slice(&self) -> Option<&[u8]>
        ensures { text_in result ≡ option_map (λ b. b.items) self.now.balances }
    {
        match &self.balances {
            Some(text) => Some(text.as_slice()),
            None => None,
        }
    }

    /// What an explanation of an error needs.
    pub fn about<'a, 'w>(&'a self, explains: bool, words: &'a ArgMatches<'w>) -> AboutFiles<'a, 'w>
        ensures { result.plan.words.now ≡ words.entry.now }
    {
        AboutFiles {
            plan: About {
                explains,
                words,
                plan: self.plan.as_slice(),
            },
            balances: self.balances_slice().unwrap_or(&[]),
            files: self.files.as_slice(),
        }
    }
}

pub fn slices_of(alloc: Global, files: &[Vec<u8>]) -> Result<Vec<&[u8]>, AllocError>
    ensures { IfOk result (λ slices. texts_after slices.items ≡ map (λ f. f.items) files.now) }
{
    let mut slices = Vec::with_capacity(alloc, files.len())?;
    for text in files {
        slices.push(text.as_slice())?;
    }
    Ok(slices)
}

/// Reads the texts that the command line names, and reports what they show. For the first one that cannot be read, an error line is printed, and its
/// status is returned.
pub fn texts_of<R: Eprint + AllocGlobal + Threads + Sync, S: Sources>(
    rt: &R,
    sources: &S,
    matches: &ArgMatches<'_>,
    explains: bool,
) -> Result<Texts, ExitStatus>
    ensures named { IfOk result (HasNamedTexts (S.whole sources.now) matches.now) }
    ensures closed { IfOk result (λ texts. AsksStrict matches.now → AreClosed texts) }
    ensures failed { IfErr result (IsUnreadStatus matches.now) }
{
    input_once(rt, matches)?;
    let plan = plan_of(rt, sources, matches, explains)?;
    if is_strict(matches) {
        refuse_unused(rt, plan.as_slice())?;
    }
    let texts = Texts {
        plan,
        balances: balances_of(rt, sources, matches, explains)?,
        files: files_of(rt, sources, matches, explains)?,
    };
    match remark_on(rt, matches, &texts, explains) {
        Ok(()) => Ok(texts),
        Err(status) => Err(status),
    }
}

fn balances_of<R: Eprint + AllocGlobal, S: Sources>(
    rt: &R,
    sources: &S,
    matches: &ArgMatches<'_>,
    explains: bool,
) -> Result<Option<Vec<u8>>, ExitStatus>
    ensures named { IfOk result (λ balances. AreNamedBalances
        (S.whole sources.now) matches.now (option_map (λ b. b.items) balances)) }
    ensures failed { IfErr result (λ status. status ≡ Resource) }
{
    let Some(name) = matches.get_str(BALANCES) else {
        return Ok(None);
    };
    let line = "cannot read balances";
    match read_or_report(rt, sources, name, FILE_LIMIT_BYTES, line, explains) {
        Ok(text) => Ok(Some(text)),
        Err(status) => Err(status),
    }
}

fn files_of<R: Eprint + AllocGlobal + Threads + Sync, S: Sources>(
    rt: &R,
    sources: &S,
    matches: &ArgMatches<'_>,
    explains: bool,
) -> Result<Vec<Vec<u8>>, ExitStatus>
    ensures named { IfOk result (λ files. AreNamedFiles
        (S.whole sources.now) matches.now (map (λ f. f.items) files.items)) }
    ensures failed { IfErr result (λ status. status ≡ Resource) }
{
    let names = matches.get_strs(FILE).unwrap_or(&[]);
    match read_texts(rt, rt.alloc(), sources, names, FILE_LIMIT_BYTES) {
        Ok(files) => Ok(files),
        Err(unread) => Err(report_file(rt, names, &unread, explains)),
    }
}

fn report_file<R: Eprint + AllocGlobal>(
    rt: &R,
    names: &[&str],
    unread: &UnreadText,
    explains: bool,
) -> ExitStatus
    requires named { unread.now.place < length names.now }
    ensures { result ≡ Resource }
{
    let number = unread.place + 1;
    let Ok(line) = format!(in rt.alloc(); "cannot read file {number}") else {
        return no_memory(rt);
    };
    let name = names[unread.place];
    report_unread(rt, name, line.as_str(), &unread.fault, explains)
}

/// The number of lines of the files without their headers, which is that of their records unless a field has line ends.
pub fn records_in(files: &[Vec<u8>]) -> u64 {
    let mut lines = 0u64;
    for file in files {
        let mut count = 0u64;
        for byte in file.as_slice() {
            if *byte == b'\n' {
                count = count.saturating_add(1);
            }
        }
        lines = lines.saturating_add(count.saturating_sub(1));
    }
    lines
}
