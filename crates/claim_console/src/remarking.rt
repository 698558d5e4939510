//! Reports what the texts of a command show before claims are read: records that may be lost because a quote is wrong, files that are given twice, and
//! unknown keys of the plan.

ghost use Rattle.std.specs.Prelude.{◌≡◌, IfErr, OnOk, false, true};
ghost use Rattle.std.specs.List.{All};
ghost use Rattle.remarks.specs.Quotes.{EndsInQuotes};
ghost use Rattle.claim_console.specs.Ends.{IsUnreadStatus};
ghost use Rattle.claim_console.specs.Texts.{AreClosed};
ghost use Rattle.claim_console.specs.Words.{AsksStrict};

use crate::texts::Texts;
use crate::words::is_strict;
use claim_diagnostics::unknown_keys;
use clap::ArgMatches;
use console::names::{BALANCES, FILE, SUMMARY};
use console::{ExitStatus, no_memory};
use remarks::Remarks;
use std::alloc::AllocError;
use value_command::print_lines;

/// Prints a line for each text with a quoted field that is never closed. Where errors are explained, or with `--summary`, it also reports the rest. The
/// error is `Refused` under `--strict` if records may be lost, and `Resource` if memory ran out.
pub fn remark_on<R: Eprint + AllocGlobal>(
    rt: &R,
    matches: &ArgMatches<'_>,
    texts: &Texts,
    explains: bool,
) -> Result<(), ExitStatus>
    ensures failed { IfErr result (IsUnreadStatus matches.now) }
    ensures closed { OnOk result (AsksStrict matches.now → AreClosed texts.now) }
{
    let refuses = is_strict(matches);
    let lists = explains || matches.get_flag(SUMMARY);
    let mut remarks = Remarks::new(rt.alloc());
    if add_texts(&mut remarks, matches, texts, refuses, lists).is_err() {
        return Err(no_memory(rt));
    }
    print_lines(rt, remarks.lines());
    if both(refuses, remarks.may_lose_records) {
        return Err(ExitStatus::Refused);
    }
    // `--strict` has refused a plan with unknown keys already.
    if lists && !refuses {
        print_unknown_keys(rt, texts.plan.as_slice());
    }
    Ok(())
}

// In a function of its own, since a proof loses the cases where they join.
fn both(one: bool, other: bool) -> bool
    ensures one { result ≡ true → one ≡ true }
    ensures other { result ≡ false → one ≡ true → other ≡ false }
{
    one && other
}

fn add_texts(
    remarks: &mut Remarks,
    matches: &ArgMatches<'_>,
    texts: &Texts,
    refuses: bool,
    lists: bool,
) -> Result<(), AllocError>
    ensures { OnOk result (remarks.new.may_lose_records ≡ false → AreClosed texts.now) }
{
    let lists_long = refuses || lists;
    let balances = texts.balances_slice().unwrap_or(&[]);
    let name = matches.get_str(BALANCES).unwrap_or("");
    remarks.add_quotes(name, balances, lists_long)?;
    let files = texts.files.as_slice();
    let names = matches.get_strs(FILE).unwrap_or(&[]);
    add_files(remarks, names, files, lists_long, lists)?;
    if matches.get_flag(SUMMARY) {
        remarks.add_records(texts.plan.as_slice(), texts.balances_slice(), files)?;
    }
    Ok(())
}

fn add_files(
    remarks: &mut Remarks,
    names: &[&str],
    files: &[Vec<u8>],
    lists_long: bool,
    lists: bool,
) -> Result<(), AllocError>
    ensures closed { OnOk result (remarks.new.may_lose_records ≡ false
        → All (λ file. ¬ EndsInQuotes file.items) files.now) }
    ensures kept { OnOk result (remarks.new.may_lose_records ≡ false
        → remarks.old.may_lose_records ≡ false) }
{
    for place in 0..files.len() {
        let name = match names.get(place) {
            Some(name) => *name,
            None => "",
        };
        remarks.add_quotes(name, files[place].as_slice(), lists_long)?;
        if lists {
            remarks.add_copy(name, files, place)?;
        }
    }
    Ok(())
}

/// Prints a line for each unknown key of the plan. If memory runs out for the lines, they are left out.
pub fn print_unknown_keys<R: Eprint + AllocGlobal>(rt: &R, plan: &[u8]) {
    if let Ok(text) = str::from_utf8(plan)
        && let Ok(lines) = unknown_keys(rt.alloc(), text)
    {
        print_lines(rt, lines.as_str());
    }
}
