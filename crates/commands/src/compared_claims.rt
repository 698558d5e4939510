//! The command `compare` over claim files: reads two plans and the texts of a run, and lists the records that the plans settle otherwise.

ghost use Rattle.std.specs.Prelude.{◌≡◌, ◌≢◌, IfErr, IfOk};
ghost use Rattle.console.specs.declared.exit_status.ExitStatus.TheVariants.{Done, Refused};
ghost use Rattle.console.specs.ExitStatus.{IsUnjudged};
ghost use Rattle.adjudicate.specs.Audits.{IsAuditReason};
ghost use Rattle.commands.specs.Comparisons.{BothAreSettled, BothHaveRemittances, ClaimsAreCompared, ClaimsAreRefused, IsErrorOfEither, IsNamedOld, IsRefusedComparison, new_texts, old_texts};
ghost use Rattle.claim_console.specs.Ends.{IsStatusOfRefusal};
ghost use Rattle.orders.specs.RunTexts.{IsOrderedRemittance};
ghost use Rattle.plan_commands.specs.Words.{IsFail};

use crate::comparison_lines::lines_of;
use adjudicate::{
    ComparedTexts, Comparison, Order, OrderedInput, PLAN_LIMIT_BYTES, Stop, ValueStop,
    comparison_of, do_ordered_remittance,
};
use claim_console::{
    AboutFiles, Texts, cutoff_of, order_of, put_further, refuse, slices_of, texts_of,
};
use clap::ArgMatches;
use console::names::{FILE, NARROWED, OLD, RENAMED, TERMS};
use console::{AtomicTarget, ExitStatus, Sources, no_memory, print_error};
use fixpoint::{Out, put_all};
use plan_commands::fails;
use std::io;
use std::rt::Files;
use std::thread::Threads;
use value_command::{
    About, exit_status_of, output_of, print_lines, read_or_report, report_unwritable,
};

/// The texts whose remittances are compared, and their order.
#[derive(Clone, Copy)]
struct Compared<'a> {
    old: &'a [u8],
    new: &'a [u8],
    balances: Option<&'a [u8]>,
    files: &'a [&'a [u8]],
    cutoff: Option<u64>,
    order: Order,
}

/// Whether the command line of `compare` names claim files.
pub fn has_claims(matches: &ArgMatches<'_>) -> bool {
    match matches.get_strs(FILE) {
        Some(names) => !names.is_empty(),
        None => false,
    }
}

/// Runs the command `compare` over claim files, and returns its exit status.
pub fn compare_claims_of<R: Files + Print + Eprint + AllocGlobal + Threads + Sync, S: Sources>(
    rt: &R,
    sources: &S,
    matches: &ArgMatches<'_>,
    explains: bool,
) -> ExitStatus
    ensures done { result ≡ Done → ClaimsAreCompared (S.whole sources.now) matches.now }
    ensures refused { result ≡ Refused → ClaimsAreRefused (S.whole sources.now) matches.now result }
{
    if matches.get_strs(RENAMED).is_some() || matches.get_strs(NARROWED).is_some() {
        let line = "error: `--as` and `--where` are for a comparison without claim files";
        return print_error(rt, line, ExitStatus::Usage);
    }
    let texts = match texts_of(rt, sources, matches, explains) {
        Ok(texts) => texts,
        Err(status) => return status,
    };
    match old_plan_of(rt, sources, matches, explains) {
        Ok(old) => compare_texts(rt, matches, &texts, old.as_slice(), explains),
        Err(status) => status,
    }
}

/// Reads the old plan. If it cannot be read, an error line is printed, and its status is returned.
fn old_plan_of<R: Eprint + AllocGlobal, S: Sources>(
    rt: &R,
    sources: &S,
    matches: &ArgMatches<'_>,
    explains: bool,
) -> Result<Vec<u8>, ExitStatus>
    ensures named { IfOk result (λ plan. IsNamedOld (S.whole sources.now) matches.now plan.items) }
    ensures failed { IfErr result IsUnjudged }
{
    match matches.get_str(OLD) {
        Some(name) => {
            let line = "cannot read old plan";
            read_or_report(rt, sources, name, PLAN_LIMIT_BYTES, line, explains)
        }
        None => Err(ExitStatus::Usage),
    }
}

fn compare_texts<'x, R: Files + Print + Eprint + AllocGlobal>(
    rt: &R,
    matches: &ArgMatches<'_>,
    texts: &'x Texts,
    old: &'x [u8],
    explains: bool,
) -> ExitStatus
    ensures done { result ≡ Done → BothAreSettled matches.now old.now texts.now }
    ensures refused { result ≡ Refused → IsRefusedComparison matches.now old.now texts.now result }
{
    let order = order_of(matches);
    if order == Order::Any {
        return ExitStatus::Usage;
    }
    let Ok(files) = slices_of(rt.alloc(), &texts.files) else {
        return no_memory(rt);
    };
    let given = Compared {
        old,
        new: texts.plan.as_slice(),
        balances: texts.balances_slice(),
        files: files.as_slice(),
        cutoff: cutoff_of(matches),
        order,
    };
    let about = texts.about(explains, matches);
    compare_given(rt, &about, given)
}

/// Writes the list to the file of `--output` if there is one, and otherwise to standard output.
fn compare_given<R: Files + Print + Eprint + AllocGlobal>(
    rt: &R,
    about: &AboutFiles,
    given: Compared<'_>,
) -> ExitStatus
    requires ordered { given.order ≢ Order.Any }
    ensures done { result ≡ Done → BothHaveRemittances given.entry }
    ensures refused { result ≡ Refused
        → IsErrorOfEither about.now.plan.words.now given.entry result }
{
    match output_of(rt, &about.plan) {
        Ok(Some(mut file)) => compare_into(rt, about, given, &mut file),
        Ok(None) => compare_out(rt, about, given),
        Err(status) => status,
    }
}

/// Writes the list to standard output.
fn compare_out<R: Print + Eprint + AllocGlobal>(
    rt: &R,
    about: &AboutFiles,
    given: Compared<'_>,
) -> ExitStatus
    requires ordered { given.order ≢ Order.Any }
    ensures done { result ≡ Done → BothHaveRemittances given.entry }
    ensures refused { result ≡ Refused
        → IsErrorOfEither about.now.plan.words.now given.entry result }
{
    let comparison = match compare_remittances(rt, about, given) {
        Ok(comparison) => comparison,
        Err(status) => return status,
    };
    let text = comparison.text.as_slice();
    if let Err(cut) = put_all(text, &mut Out::new(io::writer(rt))) {
        let written = cut.written;
        let _ = exit_status_of(rt, &Err(ValueStop::Write { written }));
        return ExitStatus::Resource;
    }
    status_of(rt, about.plan.words, &comparison)
}

/// Writes the list to a place, whose text is replaced atomically.
fn compare_into<R: Eprint + AllocGlobal, P: AtomicTarget>(
    rt: &R,
    about: &AboutFiles,
    given: Compared<'_>,
    place: &mut P,
) -> ExitStatus
    requires ordered { given.order ≢ Order.Any }
    ensures done { result ≡ Done → BothHaveRemittances given.entry }
    ensures refused { result ≡ Refused
        → IsErrorOfEither about.now.plan.words.now given.entry result }
{
    let text = match place.begin() {
        Ok(text) => text,
        Err(fault) => return report_unwritable(rt, &about.plan, &fault),
    };
    let comparison = match compare_remittances(rt, about, given) {
        Ok(comparison) => comparison,
        Err(status) => {
            place.discard(text);
            return status;
        }
    };
    match put_further(rt, about, place, text, Some(comparison.text.as_slice())) {
        ExitStatus::Done => status_of(rt, about.plan.words, &comparison),
        _ => ExitStatus::Resource,
    }
}

/// Compares the remittances of both plans. The error of a plan is printed, after a line that says which plan it is, and its status is returned.
#[tactic(auto, using(crate::proofs::Statuses::both_settled, crate::proofs::Statuses::old_refused, crate::proofs::Statuses::new_refused))]
fn compare_remittances<R: Eprint + AllocGlobal>(
    rt: &R,
    about: &AboutFiles,
    given: Compared<'_>,
) -> Result<Comparison, ExitStatus>
    requires ordered { given.order ≢ Order.Any }
    ensures both { IfOk result (λ _. BothHaveRemittances given.entry) }
    ensures not_done { IfErr result (λ status. status ≢ Done) }
    ensures refused { IfErr result (λ status. status ≡ Refused
        → IsErrorOfEither about.now.plan.words.now given.entry status) }
{
    let old = match old_remittance(rt, about, given) {
        Ok(old) => old,
        Err(status) => return Err(status),
    };
    let new = match new_remittance(rt, about, given) {
        Ok(new) => new,
        Err(status) => return Err(status),
    };
    let texts = ComparedTexts {
        names: about.plan.words.get_strs(FILE).unwrap_or(&[]),
        old: old.as_slice(),
        new: new.as_slice(),
        has_remarks: !about.plan.words.get_flag(TERMS),
    };
    match comparison_of(rt.alloc(), texts) {
        Ok(comparison) => Ok(comparison),
        Err(_) => Err(no_memory(rt)),
    }
}

fn old_remittance<R: Eprint + AllocGlobal>(
    rt: &R,
    about: &AboutFiles,
    given: Compared<'_>,
) -> Result<Vec<u8>, ExitStatus>
    requires ordered { given.order ≢ Order.Any }
    ensures remittance { IfOk result (λ bytes.
        IsOrderedRemittance given.entry.order (old_texts given.entry) bytes.items) }
    ensures not_done { IfErr result (λ status. status ≢ Done) }
    ensures refused { IfErr result
        (IsStatusOfRefusal (IsAuditReason (old_texts given.entry))) }
{
    let input = OrderedInput {
        plan: given.old,
        balances: given.balances,
        files: given.files,
        cutoff: given.cutoff,
        order: given.order,
    };
    match do_ordered_remittance(rt.alloc(), input) {
        Ok(old) => Ok(old),
        Err(stop) => {
            say_which(rt, &stop, "With the old plan:\n");
            Err(refuse(rt, &about_old(about, given.old), stop))
        }
    }
}

fn new_remittance<R: Eprint + AllocGlobal>(
    rt: &R,
    about: &AboutFiles,
    given: Compared<'_>,
) -> Result<Vec<u8>, ExitStatus>
    requires ordered { given.order ≢ Order.Any }
    ensures remittance { IfOk result (λ bytes.
        IsOrderedRemittance given.entry.order (new_texts given.entry) bytes.items) }
    ensures not_done { IfErr result (λ status. status ≢ Done) }
    ensures refused { IfErr result
        (IsStatusOfRefusal (IsAuditReason (new_texts given.entry))) }
{
    let input = OrderedInput {
        plan: given.new,
        balances: given.balances,
        files: given.files,
        cutoff: given.cutoff,
        order: given.order,
    };
    match do_ordered_remittance(rt.alloc(), input) {
        Ok(new) => Ok(new),
        Err(stop) => {
            say_which(rt, &stop, "With the new plan:\n");
            Err(refuse(rt, about, stop))
        }
    }
}

// Says by which plan an error comes, unless memory ran out, which is no matter of a plan.
fn say_which<R: Eprint>(rt: &R, stop: &Stop, line: &str) {
    match stop {
        Stop::Value(ValueStop::NoMemory) => {}
        _ => print_lines(rt, line),
    }
}

// An explanation would name the file of the new plan.
fn about_old<'a, 'w>(about: &AboutFiles<'a, 'w>, plan: &'a [u8]) -> AboutFiles<'a, 'w> {
    AboutFiles {
        plan: About {
            explains: false,
            words: about.plan.words,
            plan,
        },
        balances: about.balances,
        files: about.files,
    }
}

/// Prints the sums, and returns the status: `Refused` under `--fail` if a record differs. If memory runs out for the lines, they are left out.
fn status_of<R: Eprint + AllocGlobal>(
    rt: &R,
    matches: &ArgMatches<'_>,
    comparison: &Comparison,
) -> ExitStatus
    ensures refused { result ≡ Refused → IsFail matches.now }
{
    if let Ok(lines) = lines_of(rt.alloc(), comparison) {
        print_lines(rt, lines.as_str());
    }
    if comparison.differing > 0 && fails(matches) {
        return ExitStatus::Refused;
    }
    ExitStatus::Done
}
