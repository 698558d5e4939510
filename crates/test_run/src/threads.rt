//! Runs by several threads, on gates that other callers use too.
ghost use Rattle.std.specs.Prelude.{◌≡◌};

use crate::reports::{fills_each, is_report};
use crate::testing::{expects, fail, plan_of, terms_of};
use claim_gate::{Batch, Terms};
use crew::{RunFault, run};
use journal::Event;
use met::{Case, OtherCaller, calm_run, meets};
use std::alloc::Global;
use std::fmt::Write;
use std::process::Abort;
use std::sync::Wait;
use std::thread::Threads;
use tables::Plan;
use test_fixtures::{both_files, first_file, header, late_remittance, remittance};

mod earlier;
mod met;
mod watched;

fn batch_of<'t, R: Threads + Wait + Abort + Sync>(
    rt: &R,
    alloc: Global,
    terms: &'t Terms,
    workers: usize,
) -> Batch<'t>
    ensures { result.terms ≡ terms.now }
{
    match run(rt, alloc, terms, workers) {
        Ok(batch) => batch,
        Err(_) => fail(rt, "a run"),
    }
}

fn is_resource_fault(fault: RunFault) -> bool {
    let number = fault.number();
    number == 2 || number == 3
}

// A run that is refused memory or a thread reports it, and is tried once more.
fn batch_if_refused<'t, R: Threads + Wait + Abort + Sync>(
    rt: &R,
    alloc: Global,
    terms: &'t Terms,
    workers: usize,
) -> Batch<'t>
    ensures { result.terms ≡ terms.now }
{
    match run(rt, alloc, terms, workers) {
        Ok(batch) => batch,
        Err(fault) => {
            expects(rt, is_resource_fault(fault), "a run, or a lack of memory");
            batch_of(rt, alloc, terms, workers)
        }
    }
}

// Returns whether a finished run's journal has no claims: it has this number of ends, and the close.
fn is_ends_and_close(journal: &[Event], providers: usize) -> bool {
    let mut ends = 0usize;
    for event in journal {
        if let Event::End { .. } = event {
            ends = ends.saturating_add(1);
        }
    }
    let is_closed = matches!(journal.last(), Some(Event::Close));
    is_closed && ends == providers && journal.len() == providers.saturating_add(1)
}

// The run of files without claims.
fn check_ends<R: Threads + Wait + Abort + Sync>(
    rt: &R,
    alloc: Global,
    terms: &Terms,
    workers: usize,
) {
    let batch = batch_of(rt, alloc, terms, workers);
    let ends = is_ends_and_close(batch.journal(), terms.files().len());
    expects(rt, ends, "the ends and the close");
    drop(batch);
}

// A run by two workers, and its report into writers that are full.
fn check_cuts<R: Threads + Wait + Abort + Sync>(
    rt: &R,
    alloc: Global,
    terms: &Terms,
    report: &str,
) {
    let batch = batch_of(rt, alloc, terms, 2);
    fills_each(rt, alloc, terms, &batch, report);
    drop(batch);
}

// A run by two workers and its report, which may be refused memory. The journal has this number of
// events.
fn check_report<R: Threads + Wait + Abort + Sync>(
    rt: &R,
    alloc: Global,
    terms: &Terms,
    events: usize,
    report: &str,
) {
    let batch = batch_if_refused(rt, alloc, terms, 2);
    expects(rt, batch.journal().len() == events, "these events");
    is_report(rt, alloc, terms, &batch, report);
    drop(batch);
}

// The runs that a test checks.
#[derive(Clone, Copy)]
enum Runs {
    /// A run of files without claims, by this number of workers.
    WithoutClaims(usize),
    /// A run whose report is this text, into writers that are full after any number of bytes.
    Cut(&'static str),
    /// A run that may be refused memory. Its journal has this number of events, and its report is
    /// this text.
    ThoughRefused(usize, &'static str),
    Watched(Case),
}

// Only one function owns the plan of all tests, and only one owns the terms, because a function that
// owns one of them is expensive to prove.
fn check<R: Threads + Wait + Abort + Sync>(
    rt: &R,
    alloc: Global,
    files: &[&[u8]],
    cutoff: Option<u64>,
    runs: Runs,
) {
    let plan = plan_of(rt, alloc);
    check_under(rt, alloc, &plan, files, cutoff, runs);
    drop(plan);
}

fn check_under<R: Threads + Wait + Abort + Sync>(
    rt: &R,
    alloc: Global,
    plan: &Plan,
    files: &[&[u8]],
    cutoff: Option<u64>,
    runs: Runs,
) {
    let terms = terms_of(rt, alloc, plan, files, cutoff);
    match runs {
        Runs::WithoutClaims(workers) => check_ends(rt, alloc, &terms, workers),
        Runs::Cut(report) => check_cuts(rt, alloc, &terms, report),
        Runs::ThoughRefused(events, report) => check_report(rt, alloc, &terms, events, report),
        Runs::Watched(case) => meets(rt, alloc, &terms, &case),
    }
    drop(terms);
}

// Runs over both files.
fn check_both<R: Threads + Wait + Abort + Sync>(rt: &R, alloc: Global, runs: Runs) {
    check(rt, alloc, both_files(), None, runs);
}

#[test]
fn a_run_over_a_header_alone(rt: HostRuntime) {
    check(&rt, rt.alloc(), &[header()], None, Runs::WithoutClaims(2));
    let files = [header(); 64];
    check(&rt, rt.alloc(), &files, None, Runs::WithoutClaims(4));
}

#[test]
fn a_report_is_cut_at_each_length(rt: HostRuntime) {
    check_both(&rt, rt.alloc(), Runs::Cut(remittance()));
    let late = Runs::Cut(late_remittance());
    check(&rt, rt.alloc(), both_files(), Some(0), late);
}

#[test]
fn a_report_of_a_run_though_memory_is_refused(rt: HostRuntime) {
    let whole = Runs::ThoughRefused(21, remittance());
    check_both(&rt, rt.alloc(), whole);
    let late = Runs::ThoughRefused(1, late_remittance());
    check(&rt, rt.alloc(), both_files(), Some(0), late);
}

// The stop ends a run that would never end, and the test fails then.
#[test]
fn intakes_go_on_where_others_are(rt: HostRuntime) {
    let mut case = calm_run(2, remittance());
    case.other = OtherCaller::AcceptsTwo;
    case.watch.stop_at_take = 100_000_000;
    check_both(&rt, rt.alloc(), Runs::Watched(case));
}

// A run in which this number of `take`s meet, or of `offer`s of these providers.
fn crowds_of(workers: usize, takes: u64, offers: u64, providers: u64) -> Runs {
    let mut case = calm_run(workers, remittance());
    case.watch.takes = takes;
    case.watch.offers = offers;
    case.wanted.takes = takes;
    case.wanted.offers = offers;
    case.wanted.providers = providers;
    Runs::Watched(case)
}

// A `take` of the caller meets one of each worker.
#[test]
fn two_workers_meet(rt: HostRuntime) {
    check_both(&rt, rt.alloc(), crowds_of(1, 2, 0, 0));
    check_both(&rt, rt.alloc(), crowds_of(4, 5, 0, 0));
    check_both(&rt, rt.alloc(), crowds_of(64, 65, 0, 0));
}

// A run has one intake thread for each of the two files. An `offer` of the first provider's meets one
// of the second's.
#[test]
fn two_intakes_meet(rt: HostRuntime) {
    check_both(&rt, rt.alloc(), crowds_of(1, 0, 2, 1 + 2));
}

// The intake threads are refused memory twice and stop the gate, but only after the caller and both
// workers have learned that the run is over. The cutoff ends it without the ends of the providers.
#[test]
fn a_run_is_over_before_an_intake_stops_it(rt: HostRuntime) {
    let mut case = calm_run(2, "");
    case.watch.overs_before_refused_ends = 3;
    case.watch.refused_ends = u64::MAX;
    check(&rt, rt.alloc(), both_files(), Some(6), Runs::Watched(case));
}

// With two tickets left, the lock wears out.
#[test]
fn a_run_wears_its_lock_out(rt: HostRuntime) {
    let mut case = calm_run(4, "");
    case.first_ticket = u64::MAX - 2;
    case.wanted.fault = 4;
    case.wanted.is_worn = true;
    check_both(&rt, rt.alloc(), Runs::Watched(case));
}

#[test]
fn a_run_on_a_stopped_gate(rt: HostRuntime) {
    let mut case = calm_run(2, "");
    case.other = OtherCaller::StopsBefore;
    case.wanted.fault = 5;
    check_both(&rt, rt.alloc(), Runs::Watched(case));
}

#[test]
fn a_run_beside_a_caller_that_stops_it(rt: HostRuntime) {
    let mut case = calm_run(2, remittance());
    case.other = OtherCaller::StopsBeside;
    case.wanted.fault = 5;
    for _ in 0..20 {
        check_both(&rt, rt.alloc(), Runs::Watched(case));
    }
}

// Each outcome that is recorded after the stop comes back with its job.
#[test]
fn a_work_s_finish_is_stopped(rt: HostRuntime) {
    let mut case = calm_run(2, "");
    case.watch.stops_outcomes = true;
    case.wanted.fault = 5;
    case.wanted.handed_back = 1;
    check_both(&rt, rt.alloc(), Runs::Watched(case));
}

// A run on a gate that refuses its first calls as if memory had run out: this number of `offer`s,
// `end`s, `take`s and outcomes.
fn refusals_of(offers: u64, ends: u64, takes: u64, outcomes: u64, fault: u8) -> Runs {
    let mut case = calm_run(2, remittance());
    case.watch.refused_offers = offers;
    case.watch.refused_ends = ends;
    case.watch.refused_takes = takes;
    case.watch.refused_outcomes = outcomes;
    case.wanted.fault = fault;
    Runs::Watched(case)
}

#[test]
fn a_call_refused_memory_is_made_once_more(rt: HostRuntime) {
    check_both(&rt, rt.alloc(), refusals_of(1, 1, 1, 1, 0));
}

// One file has one intake thread, which makes both refused calls. Several workers share the other
// calls, so all of them are refused.
#[test]
fn a_call_refused_memory_twice_ends_the_run(rt: HostRuntime) {
    let (files, all) = ([first_file()], u64::MAX);
    check(&rt, rt.alloc(), &files, None, refusals_of(2, 0, 0, 0, 2));
    check(&rt, rt.alloc(), &files, None, refusals_of(0, 2, 0, 0, 2));
    check(&rt, rt.alloc(), &files, None, refusals_of(0, 0, all, 0, 2));
    check(&rt, rt.alloc(), &files, None, refusals_of(0, 0, 0, all, 2));
}

/// The number of claims: one more than a worker takes in one turn, and twice as many as an intake
/// offers in one.
const CLAIMS: usize = 2_048 + 1;

// Returns a file of claims, of which those of a member are `members` records apart.
fn file_of(rt: &impl Abort, alloc: Global, members: usize) -> String {
    let mut text = String::new(alloc);
    text.push_str("claim,member,service,billed,code")
        .expect(rt, "memory for a header");
    for claim in 0..CLAIMS {
        let member = claim.checked_rem(members).unwrap_or(0);
        write!(text, "\nc,M{member},2024-01-05,40.00,B").expect(rt, "memory for a record");
    }
    text
}

// No claim is taken before all are offered, so that the first turn of a worker is full where each
// claim is another member's.
fn check_full_turn<R: Threads + Wait + Abort + Sync>(rt: &R, alloc: Global, members: usize) {
    let text = file_of(rt, alloc, members);
    let mut case = calm_run(1, "");
    case.watch.offers_before_takes = CLAIMS as u64;
    check(rt, alloc, &[text.as_bytes()], None, Runs::Watched(case));
    drop(text);
}

#[test]
fn runs_over_more_claims_than_a_turn_has(rt: HostRuntime) {
    check_full_turn(&rt, rt.alloc(), 1);
    check_full_turn(&rt, rt.alloc(), CLAIMS);
}
