//! The text of a check's report, which is written piece by piece. Each table has its overlaps, and
//! then its gaps or the line of a wide table; the counts are the last line.

ghost use Rattle.std.specs.Prelude.{◌≡◌, ◌+◌, ◌<◌, ◌^◌, ◌++◌, IfOk, codes, decimal, flat_map, length};
ghost use Rattle.std.specs.Bool.{OnTrue};
ghost use Rattle.fixpoint.specs.Out.{has_failed, writer_of};
ghost use Rattle.check_report.specs.CheckText.{counts_line, overlap_line, rules_text, wide_line};
ghost use Rattle.fixpoint.specs.BufferedOut.{EndsText, Puts, at, greatest_count, starting};
ghost use Rattle.check_report.specs.Findings.{text_in};
ghost use Rattle.check_report.specs.CheckReport.{cell_text, reported_gap_line, reported_lines, reported_table_lines, reported_text, reported_wide_lines};

use super::report::{CheckReport, ColumnText, Findings, TableReport, check_report};
use faults::Ordinal;
use fixpoint::{BufferedOut, Out, ShortWrite};
use itoa::Buffer;
use std::alloc::{AllocError, Global};
use std::io::{Write, sink};
use tables::Plan;

/// Checks a plan. No real report has `usize::MAX` bytes; after the test of its length, the text is cut
/// only if the writer fails.
pub fn checked_report(
    alloc: Global,
    plan: &Plan,
    findings: Findings,
) -> Result<CheckReport, AllocError>
    ensures text { IfOk result (λ reported. reported_text reported ≡ text_in findings plan.now) }
    ensures counted { IfOk result (λ reported. length (reported_text reported) < greatest_count) }
{
    let reported = check_report(alloc, plan, findings)?;
    if !is_counted(alloc, &reported) {
        return Err(AllocError);
    }
    Ok(reported)
}

// Returns whether the text has fewer than `usize::MAX` bytes. A sink counts them.
fn is_counted(alloc: Global, reported: &CheckReport) -> bool
    ensures { OnTrue result (length (reported_text reported.now) < greatest_count) }
{
    match put_report(alloc, reported, &mut Out::new(sink())) {
        Ok(count) => count < usize::MAX,
        Err(_) => false,
    }
}

/// Writes the text of the report, and returns its length in bytes.
pub fn put_report<W: Write>(
    alloc: Global,
    reported: &CheckReport,
    out: &mut Out<W>,
) -> Result<usize, ShortWrite>
    ensures { EndsText (starting (W.contents (writer_of out.old)) (has_failed out.old))
        (reported_text reported.now) (W.contents (writer_of out.new)) (has_failed out.new) result }
{
    let mut pieces = BufferedOut::new(alloc);
    put_tables(0, reported.tables.as_slice(), &mut pieces, out);
    put_counts(reported.gaps, reported.overlaps, &mut pieces, out);
    pieces.end(out)
}

// Writes the lines of these tables, the first of which has this index.
fn put_tables<W: Write>(
    place: usize,
    tables: &[TableReport],
    pieces: &mut BufferedOut,
    out: &mut Out<W>,
)
    requires { place + length tables.now < 2 ^ 64 }
    ensures { Puts (at (W.contents (writer_of out.old)) (has_failed out.old) pieces.old)
        (at (W.contents (writer_of out.new)) (has_failed out.new) pieces.new)
        (reported_lines (place + 1) tables.now) }
{
    match tables.split_first() {
        Some((table, more)) => {
            put_table(Ordinal::at(place), table, pieces, out);
            put_tables(place + 1, more, pieces, out);
        }
        None => {}
    }
}

fn put_table<W: Write>(
    number: Ordinal,
    table: &TableReport,
    pieces: &mut BufferedOut,
    out: &mut Out<W>,
)
    ensures { Puts (at (W.contents (writer_of out.old)) (has_failed out.old) pieces.old)
        (at (W.contents (writer_of out.new)) (has_failed out.new) pieces.new)
        (reported_table_lines number table.now) }
{
    put_overlaps(number, table.overlaps.as_slice(), pieces, out);
    put_wide(number, table.is_wide, pieces, out);
    put_gaps(
        number,
        table.columns.as_slice(),
        table.gaps.as_slice(),
        pieces,
        out,
    );
}

fn put_overlaps<W: Write>(
    table: Ordinal,
    overlaps: &[(usize, usize)],
    pieces: &mut BufferedOut,
    out: &mut Out<W>,
)
    ensures { Puts (at (W.contents (writer_of out.old)) (has_failed out.old) pieces.old)
        (at (W.contents (writer_of out.new)) (has_failed out.new) pieces.new)
        (flat_map (overlap_line table) overlaps.now) }
{
    for rules in overlaps {
        put_overlap(table, rules.0, rules.1, pieces, out);
    }
}

// Writes the line `overlap table T: rules I J`.
fn put_overlap<W: Write>(
    table: Ordinal,
    first: usize,
    second: usize,
    pieces: &mut BufferedOut,
    out: &mut Out<W>,
)
    ensures { Puts (at (W.contents (writer_of out.old)) (has_failed out.old) pieces.old)
        (at (W.contents (writer_of out.new)) (has_failed out.new) pieces.new)
        (overlap_line table (first, second)) }
{
    put_numbered("overlap table ", table.number(), pieces, out);
    put_rules(first, second, pieces, out);
}

// Writes `: rules I J` and the line end.
fn put_rules<W: Write>(first: usize, second: usize, pieces: &mut BufferedOut, out: &mut Out<W>)
    ensures { Puts (at (W.contents (writer_of out.old)) (has_failed out.old) pieces.old)
        (at (W.contents (writer_of out.new)) (has_failed out.new) pieces.new)
        (rules_text (first, second)) }
{
    put_numbered(": rules ", first, pieces, out);
    put_numbered(" ", second, pieces, out);
    pieces.put(b"\n", out);
}

// Writes the line `wide table T` if the table is wide.
fn put_wide<W: Write>(table: Ordinal, is_wide: bool, pieces: &mut BufferedOut, out: &mut Out<W>)
    ensures { Puts (at (W.contents (writer_of out.old)) (has_failed out.old) pieces.old)
        (at (W.contents (writer_of out.new)) (has_failed out.new) pieces.new)
        (reported_wide_lines table is_wide) }
{
    if is_wide {
        put_numbered("wide table ", table.number(), pieces, out);
        pieces.put(b"\n", out);
    }
}

fn put_gaps<W: Write>(
    table: Ordinal,
    columns: &[ColumnText],
    gaps: &[u32],
    pieces: &mut BufferedOut,
    out: &mut Out<W>,
)
    ensures { Puts (at (W.contents (writer_of out.old)) (has_failed out.old) pieces.old)
        (at (W.contents (writer_of out.new)) (has_failed out.new) pieces.new)
        (flat_map (reported_gap_line table columns.now) gaps.now) }
{
    for place in gaps {
        put_gap(table, columns, *place as usize, pieces, out);
    }
}

// Writes the line `gap table T: ` with the region of each column.
fn put_gap<W: Write>(
    table: Ordinal,
    columns: &[ColumnText],
    place: usize,
    pieces: &mut BufferedOut,
    out: &mut Out<W>,
)
    ensures { Puts (at (W.contents (writer_of out.old)) (has_failed out.old) pieces.old)
        (at (W.contents (writer_of out.new)) (has_failed out.new) pieces.new)
        (reported_gap_line table columns.now place) }
{
    put_numbered("gap table ", table.number(), pieces, out);
    pieces.put(b": ", out);
    put_cell(columns, place, pieces, out);
    pieces.put(b"\n", out);
}

// Writes the regions of the cell with this index. The region of the last column changes fastest.
fn put_cell<W: Write>(
    columns: &[ColumnText],
    place: usize,
    pieces: &mut BufferedOut,
    out: &mut Out<W>,
)
    ensures { Puts (at (W.contents (writer_of out.old)) (has_failed out.old) pieces.old)
        (at (W.contents (writer_of out.new)) (has_failed out.new) pieces.new)
        (cell_text columns.now place) }
{
    match columns.split_first() {
        Some((column, more)) => {
            let following = column.following.max(1);
            pieces.put(column.region(place / following), out);
            put_cell(more, place % following, pieces, out);
        }
        None => {}
    }
}

// Writes the line `gaps G overlaps O`.
fn put_counts<W: Write>(gaps: usize, overlaps: usize, pieces: &mut BufferedOut, out: &mut Out<W>)
    ensures { Puts (at (W.contents (writer_of out.old)) (has_failed out.old) pieces.old)
        (at (W.contents (writer_of out.new)) (has_failed out.new) pieces.new)
        (counts_line gaps overlaps) }
{
    put_numbered("gaps ", gaps, pieces, out);
    put_numbered(" overlaps ", overlaps, pieces, out);
    pieces.put(b"\n", out);
}

fn put_numbered<W: Write>(words: &str, number: usize, pieces: &mut BufferedOut, out: &mut Out<W>)
    ensures { Puts (at (W.contents (writer_of out.old)) (has_failed out.old) pieces.old)
        (at (W.contents (writer_of out.new)) (has_failed out.new) pieces.new)
        (words.now ++ decimal number) }
{
    pieces.put(words.as_bytes(), out);
    pieces.put(Buffer::new().format(number).as_bytes(), out);
}
