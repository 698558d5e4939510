//! Pages that show a plan. What is asked for is made of the plan's text, and then written whole.

ghost use Rattle.std.specs.Prelude.{◌≡◌, ◌≢◌, IfErr, OnOk};
ghost use Rattle.console.specs.declared.exit_status.ExitStatus.TheVariants.{Done};
ghost use Rattle.evaluation.specs.Stop.{IsPlanReason};
ghost use Rattle.plan_commands.specs.Pages.{DenotesPlan};
ghost use Rattle.value_command.specs.Ends.{IsStatusOfRefusal};

use crate::change_text::change_text;
use crate::zone_lines::append_box;
use console::names::{PLAN, STREAM};
use console::{AtomicTarget, ExitStatus};
use dtable::read_plan;
use evaluation::ValueStop;
use faults::{Reason, push_printable};
use fixpoint::{Out, put_all};
use plan_checks::{
    CompareFault, Comparing, DeadParts, PendingZones, RulePlace, TestPlace, WholeFault, ZONE_LIMIT,
    ZoneBox, dead_parts, failing_zones, plan_changes,
};
use plan_pages::{
    RuleNumber, Shown, TestNumber, balance_header, claim_header, names_text, plan_html, plan_text,
};
use std::alloc::{AllocError, Global};
use std::io::Write;
use std::rt::Files;
use std::{io, str};
use tables::Plan;
use value_command::{
    About, commit_output, exit_status_of, explain_refusal, output_of, report_unwritable,
};

/// What is asked for of a plan.
#[derive(Clone, Copy)]
pub enum Asked<'o> {
    /// Its names, one in each line.
    Names,
    /// A claim file without claims.
    Claims,
    /// A file of balances without records.
    Balances,
    /// Its tables in boxes, in lines of this width.
    Boxes(usize),
    /// A page in HTML, where the differences from an old plan are marked if there is one.
    Html(Option<&'o Plan>),
}

/// Writes what is asked for to the file of `--output` if there is one, and otherwise to standard output.
pub fn put_page<R: Files + Print + Eprint + AllocGlobal>(
    rt: &R,
    about: &About,
    asked: Asked<'_>,
) -> ExitStatus
    ensures done { result ≡ Done → DenotesPlan about.now.plan.now }
    ensures refused { result ≢ Done
        → IsStatusOfRefusal (IsPlanReason about.now.plan.now) result }
{
    match output_of(rt, about) {
        Ok(Some(mut file)) => page_into(rt, about, asked, &mut file),
        Ok(None) => page_out(rt, about, asked),
        Err(status) => status,
    }
}

/// Writes to standard output.
#[tactic(auto, using(crate::proofs::PageStatuses::shown_done))]
fn page_out<R: Print + Eprint + AllocGlobal>(rt: &R, about: &About, asked: Asked<'_>) -> ExitStatus
    ensures done { result ≡ Done → DenotesPlan about.now.plan.now }
    ensures refused { result ≢ Done
        → IsStatusOfRefusal (IsPlanReason about.now.plan.now) result }
{
    let mut out = Out::new(io::writer(rt));
    let answer = write_page(rt.alloc(), about, asked, &mut out);
    let status = exit_status_of(rt, &answer);
    explain_refusal(rt, about, &answer);
    status
}

/// Writes to a place, whose text is replaced atomically.
#[tactic(auto, using(crate::proofs::PageStatuses::shown_done))]
fn page_into<R: Eprint + AllocGlobal, P: AtomicTarget>(
    rt: &R,
    about: &About,
    asked: Asked<'_>,
    place: &mut P,
) -> ExitStatus
    ensures done { result ≡ Done → DenotesPlan about.now.plan.now }
    ensures refused { result ≢ Done
        → IsStatusOfRefusal (IsPlanReason about.now.plan.now) result }
{
    let text = match place.begin() {
        Ok(text) => text,
        Err(fault) => return report_unwritable(rt, about, &fault),
    };
    let mut out = Out::new(text);
    let answer = write_page(rt.alloc(), about, asked, &mut out);
    let status = commit_output(rt, about, place, out.into_inner(), &answer);
    explain_refusal(rt, about, &answer);
    status
}

/// Writes what is asked for. It is complete before its first byte is written.
fn write_page<W: Write>(
    alloc: Global,
    about: &About,
    asked: Asked<'_>,
    out: &mut Out<W>,
) -> Result<(), ValueStop>
    ensures done { OnOk result (DenotesPlan about.now.plan.now) }
    ensures refused { IfErr result (IsPlanReason about.now.plan.now) }
{
    match page_of(alloc, about, asked) {
        Ok(page) => match put_all(page.as_slice(), out) {
            Ok(()) => Ok(()),
            Err(cut) => Err(ValueStop::Write {
                written: cut.written,
            }),
        },
        Err(stop) => Err(stop),
    }
}

/// Reads the plan, and makes what is asked for.
#[tactic(auto, using(crate::proofs::PageStatuses::denotes))]
fn page_of(alloc: Global, about: &About, asked: Asked<'_>) -> Result<Vec<u8>, ValueStop>
    ensures done { OnOk result (DenotesPlan about.now.plan.now) }
    ensures refused { IfErr result (IsPlanReason about.now.plan.now) }
{
    match read_plan(alloc, about.plan) {
        Ok(plan) => {
            let page = page_on(alloc, about, &plan, asked);
            drop(plan);
            match page {
                Ok(page) => Ok(page),
                Err(_) => Err(ValueStop::NoMemory),
            }
        }
        Err(fault) => Err(ValueStop::from(fault)),
    }
}

fn page_on(
    alloc: Global,
    about: &About,
    plan: &Plan,
    asked: Asked<'_>,
) -> Result<Vec<u8>, AllocError> {
    match asked {
        Asked::Names => names_text(alloc, plan),
        Asked::Claims => claim_header(alloc, plan),
        Asked::Balances => balance_header(alloc, plan),
        Asked::Boxes(width) => plan_text(alloc, plan, width),
        Asked::Html(old) => html_on(alloc, plan, old, shown_name(about.word(PLAN))),
    }
}

/// The name of a plan's file without its folders.
fn shown_name(path: &str) -> &str {
    if path == STREAM {
        return "standard input";
    }
    match path.rsplit_once('/') {
        Some((_, name)) => name,
        None => path,
    }
}

fn html_on(
    alloc: Global,
    plan: &Plan,
    old: Option<&Plan>,
    name: &str,
) -> Result<Vec<u8>, AllocError> {
    let lines = changes_of(alloc, plan, old)?;
    let changes = str::from_utf8(lines.as_slice()).unwrap_or("");
    let shown = Shown {
        name,
        check: "",
        reasons: &[],
        values: "",
        dead_rules: &[],
        dead_tests: &[],
        old,
        changes,
    };
    match failing_zones(alloc, plan, ZONE_LIMIT) {
        Ok(found) => html_with(alloc, plan, &shown, &found),
        Err(WholeFault::OutOfMemory) => Err(AllocError),
        Err(fault) => {
            let unchecked = Shown {
                check: why_unchecked(&fault),
                ..shown
            };
            plan_html(alloc, plan, &unchecked)
        }
    }
}

/// The lines of `compare` for two plans. There are none without an old plan, or if the plans cannot be compared.
fn changes_of(alloc: Global, plan: &Plan, old: Option<&Plan>) -> Result<Vec<u8>, AllocError> {
    let Some(old) = old else {
        return Ok(Vec::new(alloc));
    };
    let comparing = Comparing {
        renames: &[],
        narrowed: &[],
        terms_only: false,
    };
    match plan_changes(alloc, old, plan, &comparing, ZONE_LIMIT) {
        Ok(found) => change_text(alloc, old, plan, &found),
        Err(CompareFault::OutOfMemory) => Err(AllocError),
        Err(_) => Ok(Vec::new(alloc)),
    }
}

/// The sentence that says why a plan is not checked as a whole.
fn why_unchecked(fault: &WholeFault) -> &'static str {
    match fault {
        WholeFault::InputRole(_) => {
            "A role is a name and no output, so the plan is not checked for values with which claims pend."
        }
        _ => {
            "The plan has too many zones to be checked as a whole for values with which claims pend."
        }
    }
}

fn html_with(
    alloc: Global,
    plan: &Plan,
    shown: &Shown<'_>,
    found: &PendingZones,
) -> Result<Vec<u8>, AllocError> {
    let mut reasons = Vec::new(alloc);
    let mut values = String::new(alloc);
    let mut dead_rules = Vec::new(alloc);
    let mut dead_tests = Vec::new(alloc);
    for zones in found.boxes.as_slice() {
        add_values(alloc, plan, found, zones, &mut values)?;
        add_reason(found, zones, &mut reasons)?;
    }
    add_dead(alloc, plan, &mut dead_rules, &mut dead_tests)?;
    let checked = Shown {
        check: what_is_found(reasons.is_empty()),
        reasons: reasons.as_slice(),
        values: values.as_str(),
        dead_rules: dead_rules.as_slice(),
        dead_tests: dead_tests.as_slice(),
        ..*shown
    };
    plan_html(alloc, plan, &checked)
}

fn what_is_found(is_nothing: bool) -> &'static str {
    if is_nothing {
        "No claim pends: the check of the whole plan found no values with which one would."
    } else {
        "Some claims pend: the check of the whole plan found the values that are noted below the tables."
    }
}

/// Appends the numbers of the rules that never give an answer, and of the tests that hold for no value.
fn add_dead(
    alloc: Global,
    plan: &Plan,
    rules: &mut Vec<RuleNumber>,
    tests: &mut Vec<TestNumber>,
) -> Result<(), AllocError> {
    match dead_parts(alloc, plan, ZONE_LIMIT) {
        Ok(found) => push_dead(&found, rules, tests),
        Err(_) => Err(AllocError),
    }
}

fn push_dead(
    found: &DeadParts,
    rules: &mut Vec<RuleNumber>,
    tests: &mut Vec<TestNumber>,
) -> Result<(), AllocError> {
    for place in found.rules.as_slice() {
        rules.push(rule_number(*place))?;
    }
    for place in found.tests.as_slice() {
        tests.push(test_number(*place))?;
    }
    Ok(())
}

fn rule_number(place: RulePlace) -> RuleNumber {
    RuleNumber {
        table: place.table.saturating_add(1),
        rule: place.rule.saturating_add(1),
    }
}

fn test_number(place: TestPlace) -> TestNumber {
    TestNumber {
        rule: rule_number(place.rule),
        column: place.column.saturating_add(1),
        test: place.test.saturating_add(1),
    }
}

fn add_reason(
    found: &PendingZones,
    zones: &ZoneBox,
    reasons: &mut Vec<Reason>,
) -> Result<(), AllocError> {
    if let Some(reason) = found.reasons.as_slice().get(zones.outcome) {
        reasons.push(*reason)?;
    }
    Ok(())
}

/// Appends a line with the values of a box.
fn add_values(
    alloc: Global,
    plan: &Plan,
    found: &PendingZones,
    zones: &ZoneBox,
    values: &mut String,
) -> Result<(), AllocError> {
    let mut line = Vec::new(alloc);
    let sides = zones.sides.as_slice();
    append_box(
        alloc,
        &mut line,
        plan.names(),
        found.regions.as_slice(),
        sides,
    )?;
    push_printable(values, str::from_utf8(line.as_slice()).unwrap_or(""))?;
    values.push_str("\n")
}
