//! The command `check --whole`: writes the values at which claims pend, over all tables of the plan together, and the rules and tests that are of no use.

ghost use Rattle.std.specs.Prelude.{◌≡◌, ◌≢◌, ◌<◌, IfErr, IfOk, false, slice_get, true};
ghost use Rattle.std.specs.Option.{option_map_or};
ghost use Rattle.console.specs.declared.exit_status.ExitStatus.TheVariants.{Done, Refused};
ghost use Rattle.console.specs.ExitStatus.{code_of};
ghost use Rattle.evaluation.specs.Stop.{status_of};
ghost use Rattle.plan_commands.specs.WholePlans.{IsJudged, IsJudgedText, IsUnlisted, IsWholeChecked, IsWholeRefused, StopsPlan, StopsText, are_allowed, has_no_box, has_none, is_clean, is_outside};
ghost use Rattle.plan_commands.specs.Words.{AsksFail, IsFail};
ghost use Rattle.plan_checks.specs.Dead.{AreDeadRules, AreDeadTests};
ghost use Rattle.plan_checks.specs.Pending.{HaveReasons, HoldValues, counted_zones};
ghost use Rattle.plan_checks.specs.TableFaults.{FailExactlyIn, IsUnlisted as IsUnlistedPlan};

use crate::words::fails;
use crate::zone_lines::{report_lines, wide_line};
use console::{AtomicTarget, ExitStatus, no_memory, print_error};
use dtable::read_plan;
use evaluation::ValueStop;
use faults::{Reason, RoleKey};
use fixpoint::{Out, put_all};
use plan_checks::{
    DeadParts, PendingZones, WholeFault, ZONE_LIMIT, ZoneBox, dead_parts, failing_zones,
    plan_regions,
};
use std::alloc::{AllocError, Global};
use std::io;
use std::rt::Files;
use tables::Plan;
use value_command::{
    About, commit_output, exit_status_of, explain_refusal, output_of, report_unwritable,
};

/// The report on a whole plan, and whether it has no mistake.
struct WholeReport {
    text: Vec<u8>,
    is_clean: bool,
}

impl Drop for WholeReport {
    fn drop(self) {
        let WholeReport {
            text: _,
            is_clean: _,
        } = self;
    }
}

/// The reason why there is no report on a whole plan.
#[derive(Drop)]
enum WholeStop {
    /// An error of the plan's text, or a lack of memory.
    Value(ValueStop),
    /// This role has the value of a name, which is not the same for all values of a zone.
    InputRole(RoleKey),
}

impl From<AllocError> for WholeStop {
    ghost use Rattle.std.specs.Prelude.{◌≡◌};
    ghost use Rattle.evaluation.specs.declared.stop.ValueStop.TheVariants.{NoMemory};
    ghost use Rattle.plan_commands.specs.declared.whole_check.WholeStop.TheVariants.{Value};

    ghost from_gives = { λ _ stop. stop ≡ Value NoMemory };

    fn from(refusal: AllocError) -> WholeStop {
        WholeStop::Value(ValueStop::from(refusal))
    }
}

/// Checks a whole plan, and writes to the file of `--output` if there is one, and otherwise to standard output.
pub fn check_whole_plan<R: Files + Print + Eprint + AllocGlobal>(
    rt: &R,
    about: &About,
) -> ExitStatus
    ensures done { result ≡ Done → IsWholeChecked about.now.words.now about.now.plan.now }
    ensures refused { result ≡ Refused
        → IsWholeRefused about.now.words.now about.now.plan.now result }
{
    match output_of(rt, about) {
        Ok(Some(mut file)) => check_into(rt, about, &mut file),
        Ok(None) => check_out(rt, about),
        Err(status) => status,
    }
}

/// Writes to standard output.
#[tactic(auto, using(crate::proofs::WholePlans::whole_done, crate::proofs::WholePlans::whole_fails, crate::proofs::WholePlans::unlisted_refused))]
fn check_out<R: Print + Eprint + AllocGlobal>(rt: &R, about: &About) -> ExitStatus
    ensures done { result ≡ Done → IsWholeChecked about.now.words.now about.now.plan.now }
    ensures refused { result ≡ Refused
        → IsWholeRefused about.now.words.now about.now.plan.now result }
{
    let report = match report_of(rt.alloc(), about.plan) {
        Ok(report) => report,
        Err(stop) => return refuse_whole(rt, about, stop),
    };
    if let Err(cut) = put_all(report.text.as_slice(), &mut Out::new(io::writer(rt))) {
        let written = cut.written;
        let _ = exit_status_of(rt, &Err(ValueStop::Write { written }));
        return ExitStatus::Resource;
    }
    judged_status(about, report.is_clean)
}

/// Writes to a place, whose text is replaced atomically.
#[tactic(auto, using(crate::proofs::WholePlans::whole_done, crate::proofs::WholePlans::whole_fails, crate::proofs::WholePlans::unlisted_refused))]
fn check_into<R: Eprint + AllocGlobal, P: AtomicTarget>(
    rt: &R,
    about: &About,
    place: &mut P,
) -> ExitStatus
    ensures done { result ≡ Done → IsWholeChecked about.now.words.now about.now.plan.now }
    ensures refused { result ≡ Refused
        → IsWholeRefused about.now.words.now about.now.plan.now result }
{
    let text = match place.begin() {
        Ok(text) => text,
        Err(fault) => return report_unwritable(rt, about, &fault),
    };
    let report = match report_of(rt.alloc(), about.plan) {
        Ok(report) => report,
        Err(stop) => {
            place.discard(text);
            return refuse_whole(rt, about, stop);
        }
    };
    let mut out = Out::new(text);
    let answer = match put_all(report.text.as_slice(), &mut out) {
        Ok(()) => Ok(()),
        Err(cut) => Err(ValueStop::Write {
            written: cut.written,
        }),
    };
    match commit_output(rt, about, place, out.into_inner(), &answer) {
        ExitStatus::Done => judged_status(about, report.is_clean),
        _ => ExitStatus::Resource,
    }
}

/// The status of a report that is written.
fn judged_status(about: &About, is_clean: bool) -> ExitStatus
    ensures done { result ≡ Done → AsksFail about.now.words.now → is_clean ≡ true }
    ensures refused { result ≡ Refused → IsFail about.now.words.now × (is_clean ≡ false) }
{
    if !is_clean && fails(about.words) {
        return ExitStatus::Refused;
    }
    ExitStatus::Done
}

/// Prints the error that there is no report, and returns its status.
#[tactic(auto, using(crate::proofs::WholePlans::unlisted_by, crate::proofs::WholePlans::unlisted_role))]
fn refuse_whole<R: Eprint + AllocGlobal>(rt: &R, about: &About, stop: WholeStop) -> ExitStatus
    requires { StopsText about.now.plan.now stop }
    ensures refused { IsUnlisted about.now.plan.now result }
    ensures not_done { result ≢ Done }
{
    match stop {
        WholeStop::Value(stop) => refuse_text(rt, about, stop),
        WholeStop::InputRole(role) => refuse_input_role(rt, role),
    }
}

fn refuse_text<R: Eprint + AllocGlobal>(rt: &R, about: &About, stop: ValueStop) -> ExitStatus
    ensures status { code_of result ≡ status_of stop }
    ensures not_done { result ≢ Done }
{
    let answer = Err(stop);
    let status = exit_status_of(rt, &answer);
    explain_refusal(rt, about, &answer);
    status
}

fn refuse_input_role<R: Eprint + AllocGlobal>(rt: &R, role: RoleKey) -> ExitStatus
    ensures { result ≢ Done }
{
    let key = role.key();
    match format!(in rt.alloc(); "role {key} is a name; zones need an output or a literal") {
        Ok(line) => print_error(rt, line.as_str(), ExitStatus::Refused),
        Err(_) => no_memory(rt),
    }
}

/// Checks the plan of a text. The report is complete before its first byte is written.
#[tactic(auto, using(crate::proofs::WholePlans::stopped_text, crate::proofs::WholePlans::judged_text, crate::proofs::WholePlans::spelling_stops))]
fn report_of(alloc: Global, text: &[u8]) -> Result<WholeReport, WholeStop>
    ensures judged { IfOk result (λ report. IsJudgedText text.now report.is_clean) }
    ensures stopped { IfErr result (StopsText text.now) }
{
    match read_plan(alloc, text) {
        Ok(plan) => {
            let report = report_on(alloc, &plan);
            drop(plan);
            report
        }
        Err(fault) => Err(WholeStop::Value(ValueStop::from(fault))),
    }
}

fn report_on(alloc: Global, plan: &Plan) -> Result<WholeReport, WholeStop>
    ensures judged { IfOk result (λ report. IsJudged plan.now report.is_clean) }
    ensures stopped { IfErr result (StopsPlan plan.now) }
{
    match failing_zones(alloc, plan, ZONE_LIMIT) {
        Ok(found) => report_on_zones(alloc, plan, &found),
        Err(fault) => report_without_zones(alloc, plan, fault),
    }
}

// Returns the report on a plan whose zones are not listed, or the reason why there is none.
#[tactic(auto, using(crate::proofs::WholePlans::wide_by, crate::proofs::WholePlans::input_role_stops, crate::proofs::WholePlans::memory_stops))]
fn report_without_zones(
    alloc: Global,
    plan: &Plan,
    fault: WholeFault,
) -> Result<WholeReport, WholeStop>
    requires refused { IsUnlistedPlan plan.now ZONE_LIMIT fault }
    ensures judged { IfOk result (λ report. IsJudged plan.now report.is_clean) }
    ensures stopped { IfErr result (StopsPlan plan.now) }
{
    match fault {
        WholeFault::TooWide(zones) => wide_report(alloc, plan, zones),
        WholeFault::InputRole(role) => Err(WholeStop::InputRole(role)),
        WholeFault::NoRoles | WholeFault::OutOfMemory => Err(WholeStop::from(AllocError)),
    }
}

// The rules and tests that are of no use are looked for in the same zones, so that they are not too
// many here.
#[tactic(auto, using(crate::proofs::WholePlans::memory_stops))]
fn report_on_zones(
    alloc: Global,
    plan: &Plan,
    found: &PendingZones,
) -> Result<WholeReport, WholeStop>
    requires exact { FailExactlyIn plan.now found.now.reasons found.now.boxes }
    requires known { HaveReasons found.now.reasons found.now.boxes }
    requires held { HoldValues plan.now found.now.boxes }
    ensures judged { IfOk result (λ report. IsJudged plan.now report.is_clean) }
    ensures stopped { IfErr result (StopsPlan plan.now) }
{
    match dead_parts(alloc, plan, ZONE_LIMIT) {
        Ok(dead) => report_with(alloc, plan, found, &dead),
        Err(_) => Err(WholeStop::from(AllocError)),
    }
}

#[tactic(auto, using(crate::proofs::WholePlans::memory_stops))]
fn report_with(
    alloc: Global,
    plan: &Plan,
    found: &PendingZones,
    dead: &DeadParts,
) -> Result<WholeReport, WholeStop>
    requires exact { FailExactlyIn plan.now found.now.reasons found.now.boxes }
    requires known { HaveReasons found.now.reasons found.now.boxes }
    requires held { HoldValues plan.now found.now.boxes }
    requires rules { AreDeadRules plan.now dead.now.rules }
    requires tests { AreDeadTests plan.now dead.now.tests }
    ensures judged { IfOk result (λ report. IsJudged plan.now report.is_clean) }
    ensures stopped { IfErr result (StopsPlan plan.now) }
{
    let text = report_lines(alloc, plan, found, dead)?;
    let is_clean = is_clean(found, dead);
    Ok(WholeReport { text, is_clean })
}

fn is_clean(found: &PendingZones, dead: &DeadParts) -> bool
    ensures { result ≡ is_clean found.now dead.now }
{
    has_none(dead.rules.as_slice())
        && (has_none(dead.tests.as_slice())
            && are_allowed(found.reasons.as_slice(), found.boxes.as_slice()))
}

/// Whether there is no box.
pub fn has_no_box(boxes: &[ZoneBox]) -> bool
    ensures { result ≡ has_no_box boxes.now }
{
    match boxes.split_first() {
        Some(_) => false,
        None => true,
    }
}

fn has_none<X>(items: &[X]) -> bool
    ensures { result ≡ has_none items.now }
{
    match items.split_first() {
        Some(_) => false,
        None => true,
    }
}

// Returns whether the reason of each box is a value that is not allowed.
fn are_allowed(reasons: &[Reason], boxes: &[ZoneBox]) -> bool
    ensures { result ≡ are_allowed reasons.now boxes.now }
{
    boxes.iter().all(|zones| is_allowed(reasons, zones))
}

fn is_allowed(reasons: &[Reason], zones: &ZoneBox) -> bool
    ensures { result ≡ option_map_or is_outside (slice_get reasons.now zones.now.outcome) true }
{
    match reasons.get(zones.outcome) {
        Some(reason) => is_outside(*reason),
        None => true,
    }
}

fn is_outside(reason: Reason) -> bool
    ensures { result ≡ is_outside reason }
{
    match reason {
        Reason::Outside { .. } => true,
        _ => false,
    }
}

// The line names what makes the plan wide.
#[tactic(auto, using(crate::proofs::WholePlans::memory_stops, crate::proofs::WholePlans::wide_judged))]
fn wide_report(alloc: Global, plan: &Plan, zones: usize) -> Result<WholeReport, WholeStop>
    requires wide { ZONE_LIMIT < counted_zones plan.now }
    ensures judged { IfOk result (λ report. IsJudged plan.now report.is_clean) }
    ensures stopped { IfErr result (StopsPlan plan.now) }
{
    let regions = plan_regions(alloc, plan)?;
    let text = wide_line(alloc, plan.names(), regions.as_slice(), zones)?;
    let is_clean = false;
    Ok(WholeReport { text, is_clean })
}
