//! The command `value` over a file of rows: reads the plan and the file, and writes the rows with the outputs of the tables.

ghost use Rattle.std.specs.Prelude.{◌≡◌, ◌≢◌, ◌⊎◌, IfErr, IfOk, false, true};
ghost use Rattle.console.specs.declared.exit_status.ExitStatus.TheVariants.{Done, Refused};
ghost use Rattle.console.specs.ExitStatus.{IsUnjudged};
ghost use Rattle.plan_commands.specs.Rows.{IsDoneRows, IsNamedRows, IsRefusedRows, RowsIsDone, RowsIsRefused};

use crate::lines::report_open_quote;
use crate::rows_explaining::explain_rows;
use clap::ArgMatches;
use console::names::ROWS;
use console::{AtomicTarget, ExitStatus, Sources, input_once};
use fixpoint::Out;
use plan_rows::{CASES_LIMIT_BYTES, do_rows};
use remarks::ends_in_quotes;
use std::io;
use std::rt::Files;
use value_command::{
    About, commit_output, exit_status_of, output_of, plan_of, read_or_report, report_unwritable,
};

/// Runs the command `value` over the file of `--rows`, and returns its exit status: `Done` if each row has its record, and no row is lost in a quoted field.
pub fn rows_of<R: Files + Print + Eprint + AllocGlobal, S: Sources>(
    rt: &R,
    sources: &S,
    matches: &ArgMatches<'_>,
    explains: bool,
) -> ExitStatus
    ensures done { result ≡ Done → RowsIsDone (S.whole sources.now) matches.now }
    ensures refused { result ≡ Refused → RowsIsRefused (S.whole sources.now) matches.now result }
{
    match input_once(rt, matches) {
        Ok(()) => rows_named(rt, sources, matches, explains),
        Err(status) => status,
    }
}

fn rows_named<R: Files + Print + Eprint + AllocGlobal, S: Sources>(
    rt: &R,
    sources: &S,
    matches: &ArgMatches<'_>,
    explains: bool,
) -> ExitStatus
    ensures done { result ≡ Done → RowsIsDone (S.whole sources.now) matches.now }
    ensures refused { result ≡ Refused → RowsIsRefused (S.whole sources.now) matches.now result }
{
    let plan = match plan_of(rt, sources, matches, explains) {
        Ok(plan) => plan,
        Err(status) => return status,
    };
    match rows_text_of(rt, sources, matches, explains) {
        Ok(rows) => rows_texts(rt, matches, plan.as_slice(), rows.as_slice(), explains),
        Err(status) => status,
    }
}

/// Reads the file of rows. If it cannot be read, an error line is printed, and its status is returned.
fn rows_text_of<R: Eprint + AllocGlobal, S: Sources>(
    rt: &R,
    sources: &S,
    matches: &ArgMatches<'_>,
    explains: bool,
) -> Result<Vec<u8>, ExitStatus>
    ensures named { IfOk result (λ rows.
        IsNamedRows (S.whole sources.now) matches.now rows.items) }
    ensures failed { IfErr result IsUnjudged }
{
    match matches.get_str(ROWS) {
        Some(name) => {
            let line = "cannot read rows";
            let rows = read_or_report(rt, sources, name, CASES_LIMIT_BYTES, line, explains)?;
            report_open_quote(rt, name, rows.as_slice());
            Ok(rows)
        }
        None => Err(ExitStatus::Usage),
    }
}

/// Writes to the file of `--output` if there is one, and otherwise to standard output.
fn rows_texts<R: Files + Print + Eprint + AllocGlobal>(
    rt: &R,
    matches: &ArgMatches<'_>,
    plan: &[u8],
    rows: &[u8],
    explains: bool,
) -> ExitStatus
    ensures done { result ≡ Done → IsDoneRows plan.now rows.now }
    ensures refused { result ≡ Refused → IsRefusedRows plan.now rows.now result }
{
    let about = About {
        explains,
        words: matches,
        plan,
    };
    match output_of(rt, &about) {
        Ok(Some(mut file)) => rows_into(rt, &about, plan, rows, &mut file),
        Ok(None) => rows_out(rt, &about, plan, rows),
        Err(status) => status,
    }
}

fn rows_out<R: Print + Eprint + AllocGlobal>(
    rt: &R,
    about: &About,
    plan: &[u8],
    rows: &[u8],
) -> ExitStatus
    ensures done { result ≡ Done → IsDoneRows plan.now rows.now }
    ensures refused { result ≡ Refused → IsRefusedRows plan.now rows.now result }
{
    let mut out = Out::new(io::writer(rt));
    let answer = do_rows(rt.alloc(), plan, rows, &mut out);
    let status = exit_status_of(rt, &answer);
    explain_rows(rt, about, rows, &answer);
    status_of_rows(status, ends_in_quotes(rows))
}

/// Writes to a place, whose text is replaced atomically, also if rows are lost.
fn rows_into<R: Eprint + AllocGlobal, P: AtomicTarget>(
    rt: &R,
    about: &About,
    plan: &[u8],
    rows: &[u8],
    place: &mut P,
) -> ExitStatus
    ensures done { result ≡ Done → IsDoneRows plan.now rows.now }
    ensures refused { result ≡ Refused → IsRefusedRows plan.now rows.now result }
{
    let text = match place.begin() {
        Ok(text) => text,
        Err(fault) => return report_unwritable(rt, about, &fault),
    };
    let mut out = Out::new(text);
    let answer = do_rows(rt.alloc(), plan, rows, &mut out);
    let status = commit_output(rt, about, place, out.into_inner(), &answer);
    explain_rows(rt, about, rows, &answer);
    status_of_rows(status, ends_in_quotes(rows))
}

// If the file ends within a quoted field, rows are lost, so that the others do not suffice.
fn status_of_rows(written: ExitStatus, loses_rows: bool) -> ExitStatus
    ensures done { result ≡ Done → (written ≡ Done) × (loses_rows ≡ false) }
    ensures refused { result ≡ Refused
        → ((written ≢ Done) × (written ≡ result)) ⊎ (loses_rows ≡ true) }
{
    if !loses_rows {
        return written;
    }
    match written {
        ExitStatus::Usage => ExitStatus::Usage,
        ExitStatus::Resource => ExitStatus::Resource,
        _ => ExitStatus::Refused,
    }
}
