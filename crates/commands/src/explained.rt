//! The command `explain`: reads the texts of a run, and writes the explanation of records of its remittance.

ghost use Rattle.std.specs.Prelude.{◌≡◌, ◌≢◌};
ghost use Rattle.console.specs.declared.exit_status.ExitStatus.TheVariants.{Done, Refused};
ghost use Rattle.explanation.specs.Explained.{IsExplanation, IsFamilyExplanation, IsFoundIn};
ghost use Rattle.value_command.specs.Ends.{HasText};
ghost use Rattle.commands.specs.Explanations.{ExplainIsDone, ExplainIsRefused, IsAskedExplanation, IsClaimExplanation, IsClaimUnexplained, IsFamilyUnexplained, IsRecordUnexplained, IsUnexplained, given_texts, without_balances};
ghost use Rattle.claim_console.specs.Texts.{texts_at};

use crate::asked::{Asked, Subject, asked_of};
use claim_console::{AboutFiles, Texts, refuse, slices_of, texts_of};
use clap::ArgMatches;
use console::{ExitStatus, Sources, no_memory, print_error};
use diagnostics::{Explanation, explain, push_printable};
use dtable::read_plan;
use explanation::{
    ExplainFamilyInput, ExplainInput, Explained, Format, FoundClaim, Order, Place, do_explain,
    do_explain_family, find_claim, found_claim_has_a_record,
};
use fixpoint::Out;
use std::alloc::{AllocError, Global};
use std::io;
use std::thread::Threads;
use value_command::print_message;

/// The texts of an explanation, and its order and format.
#[derive(Clone, Copy)]
struct Given<'a> {
    plan: &'a [u8],
    balances: Option<&'a [u8]>,
    files: &'a [&'a [u8]],
    cutoff: Option<u64>,
    order: Order,
    format: Format,
}

/// Runs the command `explain`, and returns its exit status.
pub fn explain_of<R: Print + Eprint + AllocGlobal + Threads + Sync, S: Sources>(
    rt: &R,
    sources: &S,
    matches: &ArgMatches<'_>,
    explains: bool,
) -> ExitStatus
    ensures done { result ≡ Done → ExplainIsDone (S.whole sources.now) matches.now }
    ensures refused { result ≡ Refused → ExplainIsRefused (S.whole sources.now) matches.now result }
{
    let Some(asked) = asked_of(matches) else {
        let line = "error: `--claim` must be FILE:RECORD, two numbers such as 2:17";
        return print_error(rt, line, ExitStatus::Usage);
    };
    match texts_of(rt, sources, matches, explains) {
        Ok(texts) => explain_texts(rt, matches, asked, &texts, explains),
        Err(status) => status,
    }
}

fn explain_texts<R: Print + Eprint + AllocGlobal>(
    rt: &R,
    matches: &ArgMatches<'_>,
    asked: Asked<'_>,
    texts: &Texts,
    explains: bool,
) -> ExitStatus
    requires ordered { asked.order ≢ Order.Any }
    ensures done { result ≡ Done → HasText (IsAskedExplanation asked.entry.order
        (texts_at texts.now asked.entry.cutoff) asked.entry.subject asked.entry.format) }
    ensures refused { result ≡ Refused → IsUnexplained asked.entry.order
        (texts_at texts.now asked.entry.cutoff) asked.entry.subject result }
{
    let Ok(files) = slices_of(rt.alloc(), &texts.files) else {
        return no_memory(rt);
    };
    let given = Given {
        plan: texts.plan.as_slice(),
        balances: texts.balances_slice(),
        files: files.as_slice(),
        cutoff: asked.cutoff,
        order: asked.order,
        format: asked.format,
    };
    explain_subject(rt, &texts.about(explains, matches), given, asked.subject)
}

fn explain_subject<R: Print + Eprint + AllocGlobal>(
    rt: &R,
    about: &AboutFiles,
    given: Given<'_>,
    subject: Subject<'_>,
) -> ExitStatus
    requires ordered { given.order ≢ Order.Any }
    ensures done { result ≡ Done → HasText (IsAskedExplanation given.entry.order
        (given_texts given.entry) subject.entry given.entry.format) }
    ensures refused { result ≡ Refused → IsUnexplained given.entry.order
        (given_texts given.entry) subject.entry result }
{
    match subject {
        Subject::Record(place) => explain_record(rt, about, given, place),
        Subject::Claim(id) => explain_claim(rt, about, given, id),
        Subject::Member(name) => explain_family(rt, about, given, subject, name),
        Subject::Family(name) => explain_family(rt, about, given, subject, name),
    }
}

fn explain_record<R: Print + Eprint + AllocGlobal>(
    rt: &R,
    about: &AboutFiles,
    given: Given<'_>,
    place: Place,
) -> ExitStatus
    requires ordered { given.order ≢ Order.Any }
    ensures done { result ≡ Done → HasText (IsExplanation given.entry.order
        (given_texts given.entry) place given.entry.format) }
    ensures refused { result ≡ Refused → IsRecordUnexplained given.entry.order
        (given_texts given.entry) place result }
{
    let input = ExplainInput {
        plan: given.plan,
        balances: given.balances,
        files: given.files,
        cutoff: given.cutoff,
        order: given.order,
        place,
        format: given.format,
    };
    match do_explain(rt.alloc(), input, &mut Out::new(io::writer(rt))) {
        Ok(explained) => report(rt, about, explained, Subject::Record(place)),
        Err(stop) => refuse(rt, about, stop),
    }
}

fn explain_claim<R: Print + Eprint + AllocGlobal>(
    rt: &R,
    about: &AboutFiles,
    given: Given<'_>,
    id: &str,
) -> ExitStatus
    requires ordered { given.order ≢ Order.Any }
    ensures done { result ≡ Done → HasText (IsClaimExplanation given.entry.order
        (given_texts given.entry) id.now given.entry.format) }
    ensures refused { result ≡ Refused
        → IsClaimUnexplained (given_texts given.entry) id.now result }
{
    match find_claim(rt.alloc(), given.plan, given.files, id) {
        Ok(found) => explain_found(rt, about, given, id, found),
        Err(stop) => refuse(rt, about, stop),
    }
}

/// Explains the claim that was found, if one was.
fn explain_found<R: Print + Eprint + AllocGlobal>(
    rt: &R,
    about: &AboutFiles,
    given: Given<'_>,
    id: &str,
    found: Option<FoundClaim>,
) -> ExitStatus
    requires ordered { given.order ≢ Order.Any }
    requires found { IsFoundIn (without_balances (given_texts given)) id.now found }
    ensures done { result ≡ Done → HasText (IsClaimExplanation given.entry.order
        (given_texts given.entry) id.now given.entry.format) }
    ensures refused { result ≡ Refused
        → IsClaimUnexplained (given_texts given.entry) id.now result }
{
    // proof: the claim that was found has a record
    found_claim_has_a_record();
    let Some(first) = found else {
        return report_missing(rt, about, Subject::Claim(id));
    };
    report_others(rt, &first);
    explain_record(rt, about, given, first.place)
}

fn explain_family<R: Print + Eprint + AllocGlobal>(
    rt: &R,
    about: &AboutFiles,
    given: Given<'_>,
    subject: Subject<'_>,
    name: &str,
) -> ExitStatus
    requires ordered { given.order ≢ Order.Any }
    ensures done { result ≡ Done → HasText (IsFamilyExplanation given.entry.order
        (given_texts given.entry) name.now given.entry.format) }
    ensures refused { result ≡ Refused → IsFamilyUnexplained given.entry.order
        (given_texts given.entry) name.now result }
{
    if let Some(line) = mismatch(rt.alloc(), given.plan, subject) {
        return print_error(rt, line, ExitStatus::Usage);
    }
    let input = ExplainFamilyInput {
        plan: given.plan,
        balances: given.balances,
        files: given.files,
        cutoff: given.cutoff,
        order: given.order,
        family: name,
        format: given.format,
    };
    match do_explain_family(rt.alloc(), input, &mut Out::new(io::writer(rt))) {
        Ok(explained) => report(rt, about, explained, subject),
        Err(stop) => refuse(rt, about, stop),
    }
}

/// The line of an error if the plan is of a version whose accounts are not those of the option. A text that is no plan has an error of its own.
fn mismatch(alloc: Global, plan: &[u8], subject: Subject<'_>) -> Option<&'static str> {
    let Ok(plan) = read_plan(alloc, plan) else {
        return None;
    };
    let has_families = plan.keeps_families();
    drop(plan);
    match subject {
        Subject::Member(_) if has_families => {
            Some("error: `--member` is for plans of version 1 and 2; give `--family`")
        }
        Subject::Family(_) if !has_families => {
            Some("error: `--family` is for plans of version 3; give `--member`")
        }
        _ => None,
    }
}

/// Prints an error if there is nothing to explain, and returns the status.
fn report<R: Eprint + AllocGlobal>(
    rt: &R,
    about: &AboutFiles,
    explained: Explained,
    subject: Subject<'_>,
) -> ExitStatus
    ensures done { result ≡ Done → explained ≡ Explained.Whole }
    ensures refused { result ≡ Refused → explained ≡ Explained.NoRecord }
{
    match explained {
        Explained::Whole => ExitStatus::Done,
        Explained::NoRecord => report_missing(rt, about, subject),
    }
}

/// Prints the error that the files have no such record or claim, and returns its status.
fn report_missing<R: Eprint + AllocGlobal>(
    rt: &R,
    about: &AboutFiles,
    subject: Subject<'_>,
) -> ExitStatus
    ensures { result ≢ Done }
{
    let Ok(line) = missing_line(rt.alloc(), subject) else {
        return no_memory(rt);
    };
    let status = print_error(rt, line.as_str(), ExitStatus::Refused);
    if about.plan.explains {
        print_message(rt, explain(rt.alloc(), missing_explanation(subject)));
    }
    status
}

fn missing_line(alloc: Global, subject: Subject<'_>) -> Result<String, AllocError> {
    match subject {
        Subject::Record(place) => {
            let provider = place.provider;
            let number = place.number;
            format!(in alloc; "no such record: {provider}:{number}")
        }
        Subject::Claim(id) => named_line(alloc, "no such claim: ", id),
        Subject::Member(name) => named_line(alloc, "no claim of the member ", name),
        Subject::Family(name) => named_line(alloc, "no claim of the family ", name),
    }
}

fn named_line(alloc: Global, words: &str, name: &str) -> Result<String, AllocError> {
    let mut line = String::from_str(alloc, words)?;
    push_printable(&mut line, name)?;
    Ok(line)
}

fn missing_explanation(subject: Subject<'_>) -> Explanation {
    match subject {
        Subject::Record(_) => Explanation::new(
            "The file has fewer records, or the command line names fewer files. Files and records count from 1; the header does not count.",
            "Write the first two fields of the remittance's record, such as 2:17.",
        ),
        _ => Explanation::new(
            "No claim of the files has this value in its column, byte by byte. Refused records are no claims.",
            "Write it as the files have it, with its zeros and capital letters, and name all files of the run.",
        ),
    }
}

/// Prints how many claims have the identifier, if there are several.
fn report_others<R: Eprint + AllocGlobal>(rt: &R, found: &FoundClaim) {
    if found.others == 0 {
        return;
    }
    let count = found.others.saturating_add(1);
    let provider = found.place.provider;
    let number = found.place.number;
    if let Ok(line) = format!(in rt.alloc();
        "claims with this identifier: {count}; the explanation is of the first one, {provider}:{number}\n"
    ) {
        let _ = rt.eprint(line.as_str());
    }
}
