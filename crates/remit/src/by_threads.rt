//! The writing of the files' rows by several threads.
ghost use Rattle.std.specs.Prelude.{◌≡◌, ◌≤◌, ◌<◌, ◌-◌, ◌+◌, [], get_or, length, take};
ghost use Rattle.std.specs.Thread.{IsSync};
ghost use Rattle.fixpoint.specs.Out.{has_failed, writer_of};
ghost use Rattle.remit_records.specs.RecordWriter.{at};
ghost use Rattle.remit_records.specs.Looked.{looked_up};
ghost use Rattle.remit.specs.Sections.{MayBePart, WritesSection, whole_file};
ghost use Rattle.remit_records.specs.Rows.{WritesFile, WritesFiles, WritesOn};

use crate::report::Report;
use crate::sections::{Section, SectionTooLarge, render_section};
use claim_gate::Terms;
use faults::WriteFault;
use fixpoint::Out;
use remit_records::Decisions;
use std::io::Write;
use std::thread::{Threads, available_parallelism, join_mut};

/// The number of claims from which on a file is long enough to be worth further threads.
const CUT_CLAIMS: usize = 4_096;

/// The number of claims from which on a group of files is worth its threads: some 4 MiB of text.
const GROUP_CLAIMS: usize = 65_536;

/// A group of files has at least this many times the claims of its longest file, unless it ends with
/// the last file. So as many processors are busy until its end.
const GROUP_FILES: usize = 4;

/// Consecutive files, which are rendered at the same time.
#[derive(Clone, Copy, Drop)]
struct Group {
    /// The number of files before the group.
    start: usize,
    /// The number of files before the end of the group.
    end: usize,
    /// The number of accepted claims of the group. It is a hint.
    claims: usize,
}

/// Writes the rows of the first `providers` files, one group of files after another, so that the
/// memory for rendered rows does not grow with the number of files.
pub fn write_files_by_threads<R: Threads + Sync, W: Write>(
    rt: &R,
    terms: &Terms,
    providers: usize,
    report: &mut Report,
    out: &mut Out<W>,
) -> Result<(), WriteFault>
    requires most { providers ≤ length terms.now.files }
    ensures writes { WritesFiles (looked_up report.old.decisions.now) terms.now.plan.names
        (take providers terms.now.files)
        (at (W.contents (writer_of out.old)) (has_failed out.old) report.old.writer)
        (at (W.contents (writer_of out.new)) (has_failed out.new) report.new.writer) result }
    ensures decisions { report.new.decisions ≡ report.old.decisions }
{
    let mut written = 0;
    'groups: while written < providers {
        let group = next_group(report.decisions, written, providers);
        write_group(rt, terms, group, report, out)?;
        written = group.end;
    }
    Ok(())
}

// Returns the group of files after the first `start` files. It is short, so that little text is in
// memory, and long enough to keep several processors busy.
fn next_group(decisions: &Decisions, start: usize, providers: usize) -> Group
    requires { start < providers }
    ensures start { result.start ≡ start }
    ensures some { start < result.end }
    ensures most { result.end ≤ providers }
{
    let (mut claims, mut longest) = (0_usize, 0_usize);
    for place in start..providers {
        let count = decisions.claim_count(place + 1);
        claims = claims.saturating_add(count);
        if longest < count {
            longest = count;
        }
        if GROUP_CLAIMS <= claims && longest <= claims / GROUP_FILES {
            return Group {
                start,
                end: place + 1,
                claims,
            };
        }
    }
    Group {
        start,
        end: providers,
        claims,
    }
}

// Writes the rows of a group of files. Each file after the first is a section that another thread
// renders while the rows before it are written.
#[cycle(files)]
fn write_group<R: Threads + Sync, W: Write>(
    rt: &R,
    terms: &Terms,
    group: Group,
    report: &mut Report,
    out: &mut Out<W>,
) -> Result<(), WriteFault>
    requires some { group.start < group.end }
    requires most { group.end ≤ length terms.now.files }
    ensures writes { WritesOn (looked_up report.old.decisions.now) terms.now.plan.names
        terms.now.files group.start group.end
        (at (W.contents (writer_of out.old)) (has_failed out.old) report.old.writer)
        (at (W.contents (writer_of out.new)) (has_failed out.new) report.new.writer) result }
    ensures decisions { report.new.decisions ≡ report.old.decisions }
{
    if group.end - group.start == 1 {
        return write_first_file(rt, terms, group, report, out);
    }
    let (part, written) = write_files_in_front(rt, terms, group, report, out);
    written?;
    report.write_part(terms, Section::whole_file(group.end), part, out)
}

// Writes the rows of a group without its last file, while another thread renders the section of
// that file. By recursion, the threads of all files of the group start before its first row is
// written, and each section is written as soon as the sections before it are. If no thread can be
// started, the caller's thread renders the section after it has written the rows before it.
#[cycle(files)]
fn write_files_in_front<R: Threads + Sync, W: Write>(
    rt: &R,
    terms: &Terms,
    group: Group,
    report: &mut Report,
    out: &mut Out<W>,
) -> (Result<Vec<u8>, SectionTooLarge>, Result<(), WriteFault>)
    requires least { group.start + 2 ≤ group.end }
    requires most { group.end ≤ length terms.now.files }
    ensures part { MayBePart (looked_up report.old.decisions.now) (whole_file group.end)
        terms.now.plan.names (get_or terms.now.files (group.end - 1) []) result.0 }
    ensures writes { WritesOn (looked_up report.old.decisions.now) terms.now.plan.names
        terms.now.files group.start (group.end - 1)
        (at (W.contents (writer_of out.old)) (has_failed out.old) report.old.writer)
        (at (W.contents (writer_of out.new)) (has_failed out.new) report.new.writer) result.1 }
    ensures decisions { report.new.decisions ≡ report.old.decisions }
{
    let (alloc, decisions) = (report.alloc, report.decisions);
    let provider = group.end;
    let in_front = Group {
        start: group.start,
        end: provider - 1,
        claims: group.claims,
    };
    let mut make = || -> Result<Vec<u8>, SectionTooLarge>
        requires { (1 ≤ provider) × (provider ≤ length terms.now.files) }
        ensures { MayBePart (looked_up decisions.entry.now) (whole_file provider)
            terms.entry.now.plan.names (get_or terms.entry.now.files (provider - 1) []) result }
    { render_section(alloc, terms, decisions, Section::whole_file(provider)) };
    let mut write = || -> Result<(), WriteFault>
        requires { IsSync R.row × (in_front.start < in_front.end)
            × (in_front.end ≤ length terms.now.files) }
        ensures writes { WritesOn (looked_up report.entry.now.decisions.now)
            terms.entry.now.plan.names terms.entry.now.files in_front.start in_front.end
            (at (W.contents (writer_of out.entry.now)) (has_failed out.entry.now)
            report.entry.now.writer)
            (at (W.contents (writer_of out.exit.now)) (has_failed out.exit.now)
            report.exit.now.writer) result }
        ensures decisions { report.exit.now.decisions ≡ report.entry.now.decisions }
    { write_group(rt, terms, in_front, report, out) };
    join_mut(rt, &mut make, &mut write)
}

// Writes the rows of the first file of a group, the only one of `group`. If the others would wait
// for it, it is cut into three sections. To render a row takes about twice as long as to pass over
// it, so the first section is the longest, and all three end at about the same time.
fn write_first_file<R: Threads + Sync, W: Write>(
    rt: &R,
    terms: &Terms,
    group: Group,
    report: &mut Report,
    out: &mut Out<W>,
) -> Result<(), WriteFault>
    requires only { group.start + 1 ≡ group.end }
    requires most { group.end ≤ length terms.now.files }
    ensures writes { WritesFile (looked_up report.old.decisions.now) group.end
        terms.now.plan.names (get_or terms.now.files (group.end - 1) [])
        (at (W.contents (writer_of out.old)) (has_failed out.old) report.old.writer)
        (at (W.contents (writer_of out.new)) (has_failed out.new) report.new.writer) result }
    ensures decisions { report.new.decisions ≡ report.old.decisions }
{
    let provider = group.end;
    let claims = report.decisions.claim_count(provider);
    let others = group.claims.saturating_sub(claims);
    if claims < CUT_CLAIMS || claims / 4 < others || !has_several_processors(rt) {
        return report.write_file(terms, provider, out);
    }
    let cuts = [claims / 2, claims / 5 * 4];
    write_front_by_threads(rt, terms, Section::whole_file(provider), &cuts, report, out)
}

fn has_several_processors<R: Threads>(rt: &R) -> bool {
    match available_parallelism(rt) {
        Ok(count) => count.get() > 1,
        Err(_) => false,
    }
}

// Writes the rows of a section at the start of a file. It is cut after each of these numbers of
// rows. The caller's thread writes the rows before the first cut one by one, while another thread
// for each cut renders the rows after it.
#[cycle(sections)]
fn write_front_by_threads<R: Threads + Sync, W: Write>(
    rt: &R,
    terms: &Terms,
    section: Section,
    cuts: &[usize],
    report: &mut Report,
    out: &mut Out<W>,
) -> Result<(), WriteFault>
    requires least { 1 ≤ section.provider }
    requires most { section.provider ≤ length terms.now.files }
    requires start { section.start ≡ 0 }
    ensures writes { WritesSection (looked_up report.old.decisions.now) section
        terms.now.plan.names (get_or terms.now.files (section.provider - 1) [])
        (at (W.contents (writer_of out.old)) (has_failed out.old) report.old.writer)
        (at (W.contents (writer_of out.new)) (has_failed out.new) report.new.writer) result }
    ensures decisions { report.new.decisions ≡ report.old.decisions }
{
    let Some((cut, earlier)) = cuts.split_last() else {
        return report.write_section(terms, section, out);
    };
    let (front, back) = section.cut_after(*cut);
    let (part, written) = write_section_in_front(rt, terms, front, earlier, back, report, out);
    written?;
    report.write_part(terms, back, part, out)
}

// Writes the rows of a section at the start of a file, while another thread renders the section
// `back`.
#[cycle(sections)]
fn write_section_in_front<R: Threads + Sync, W: Write>(
    rt: &R,
    terms: &Terms,
    front: Section,
    cuts: &[usize],
    back: Section,
    report: &mut Report,
    out: &mut Out<W>,
) -> (Result<Vec<u8>, SectionTooLarge>, Result<(), WriteFault>)
    requires least { 1 ≤ front.provider }
    requires most { front.provider ≤ length terms.now.files }
    requires start { front.start ≡ 0 }
    requires back { back.provider ≡ front.provider }
    ensures part { MayBePart (looked_up report.old.decisions.now) back
        terms.now.plan.names (get_or terms.now.files (back.provider - 1) []) result.0 }
    ensures writes { WritesSection (looked_up report.old.decisions.now) front
        terms.now.plan.names (get_or terms.now.files (front.provider - 1) [])
        (at (W.contents (writer_of out.old)) (has_failed out.old) report.old.writer)
        (at (W.contents (writer_of out.new)) (has_failed out.new) report.new.writer) result.1 }
    ensures decisions { report.new.decisions ≡ report.old.decisions }
{
    let (alloc, decisions) = (report.alloc, report.decisions);
    let mut make = || -> Result<Vec<u8>, SectionTooLarge>
        requires { (1 ≤ back.provider) × (back.provider ≤ length terms.now.files) }
        ensures { MayBePart (looked_up decisions.entry.now) back terms.entry.now.plan.names
            (get_or terms.entry.now.files (back.provider - 1) []) result }
    { render_section(alloc, terms, decisions, back) };
    let mut write = || -> Result<(), WriteFault>
        requires sync { IsSync R.row }
        requires least { 1 ≤ front.provider }
        requires most { front.provider ≤ length terms.now.files }
        requires start { front.start ≡ 0 }
        ensures writes { WritesSection (looked_up report.entry.now.decisions.now) front
            terms.entry.now.plan.names (get_or terms.entry.now.files (front.provider - 1) [])
            (at (W.contents (writer_of out.entry.now)) (has_failed out.entry.now)
            report.entry.now.writer)
            (at (W.contents (writer_of out.exit.now)) (has_failed out.exit.now)
            report.exit.now.writer) result }
        ensures decisions { report.exit.now.decisions ≡ report.entry.now.decisions }
    { write_front_by_threads(rt, terms, front, cuts, report, out) };
    join_mut(rt, &mut make, &mut write)
}
