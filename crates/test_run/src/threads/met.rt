//! Runs on a watched gate, and their results.

ghost use Rattle.std.specs.Prelude.{◌≡◌, IfSome};

use super::earlier::accept_two;
use super::watched::{Watch, WatchedGate, nothing};
use crate::reports::is_report;
use crate::testing::{expects, fail};
use claim_gate::{Batch, Gate, GateState, LockedGate, SerialGate, Terms};
use crew::run_with;
use std::alloc::Global;
use std::process::Abort;
use std::sync::Wait;
use std::thread;
use std::thread::Threads;
use turn_lock::{Section, TicketLock};

/// The result of a run on a watched gate.
#[derive(Clone, Copy)]
pub struct Met {
    /// The number of the run's fault, or 0 if there is none.
    pub fault: u8,
    /// Whether the pass that came back with the fault is worn.
    pub is_worn: bool,
    /// The greatest number of simultaneous `take`s.
    pub takes: u64,
    /// The greatest number of simultaneous `offer`s.
    pub offers: u64,
    /// The sum of the numbers of the providers whose `offer`s met.
    pub providers: u64,
    /// The number of outcomes that came back.
    pub handed_back: u64,
}

/// The calls of another caller of the gate, by a pass that is split off.
#[derive(Clone, Copy)]
pub enum OtherCaller {
    Nobody,
    /// It has the first two claims of the first provider accepted before the run.
    AcceptsTwo,
    /// It stops the gate before the run.
    StopsBefore,
    /// It stops the gate beside the run. The run succeeds if its caller learned before that it is
    /// over.
    StopsBeside,
}

/// A run on a watched gate, and its wanted result.
#[derive(Clone, Copy)]
pub struct Case {
    pub workers: usize,
    /// The number of the lock's first ticket.
    pub first_ticket: u64,
    pub other: OtherCaller,
    pub watch: Watch,
    /// The wanted result. A number of meeting calls or of providers may be 0, if it does not matter,
    /// and more outcomes may come back.
    pub wanted: Met,
    /// The report of a run without a fault, or an empty text if it does not matter.
    pub report: &'static str,
}

/// Returns a run that nothing disturbs and that ends without a fault, with this report.
pub fn calm_run(workers: usize, report: &'static str) -> Case {
    Case {
        workers,
        first_ticket: 0,
        other: OtherCaller::Nobody,
        watch: nothing(),
        wanted: Met {
            fault: 0,
            is_worn: false,
            takes: 0,
            offers: 0,
            providers: 0,
            handed_back: 0,
        },
        report,
    }
}

fn is_wanted(wanted: u64, met: u64) -> bool {
    wanted == 0 || wanted == met
}

impl Case {
    fn is_as_wanted(&self, met: Met) -> bool {
        let wanted = self.wanted;
        let is_over = met.fault == 0 && matches!(self.other, OtherCaller::StopsBeside);
        (is_over || met.fault == wanted.fault)
            && met.is_worn == wanted.is_worn
            && is_wanted(wanted.takes, met.takes)
            && is_wanted(wanted.offers, met.offers)
            && is_wanted(wanted.providers, met.providers)
            && met.handed_back >= wanted.handed_back
    }
}

fn stop_once<R: Wait, G: Gate>(rt: &R, gate: &G, pass: G::Pass)
    requires { G.has_pass gate.now pass }
{
    let _stopped = gate.stop(rt, pass);
}

// Returns the number of a run's fault, and whether the pass that comes back with it is worn.
fn fault_on<R: Threads + Wait + Sync, G: Gate + Sync>(
    rt: &R,
    alloc: Global,
    terms: &Terms,
    workers: usize,
    gate: &G,
    pass: G::Pass,
) -> (u8, bool)
    requires own { G.has_pass gate.now pass }
    requires terms { (G.known pass).seen.terms ≡ terms.now }
{
    match run_with(rt, alloc, terms, workers, gate, pass) {
        Ok(_) => (0, false),
        Err((fault, pass)) => (fault.number(), gate.counts(rt, pass).is_err()),
    }
}

// Returns the same of a run while another caller stops the gate.
fn fault_beside_a_stop<R: Threads + Wait + Sync, G: Gate + Sync>(
    rt: &R,
    alloc: Global,
    terms: &Terms,
    workers: usize,
    gate: &G,
    mine: G::Pass,
    theirs: G::Pass,
) -> (u8, bool)
    requires own { G.has_pass gate.now mine }
    requires terms { (G.known mine).seen.terms ≡ terms.now }
    requires other { G.has_pass gate.now theirs }
{
    thread::scope(
        thread::scope_env(),
        rt,
        |scope| -> (u8, bool)
            requires { G.has_pass gate.now mine × ((G.known mine).seen.terms ≡ terms.now)
                × G.has_pass gate.now theirs }
        {
            let job = move ||
                requires { G.has_pass gate.now theirs }
            { stop_once(rt, gate, theirs) };
            let _ = scope.spawn(job);
            fault_on(rt, alloc, terms, workers, gate, mine)
        },
    )
}

fn fault_of<R: Threads + Wait + Abort + Sync, G: Gate + Sync>(
    rt: &R,
    alloc: Global,
    terms: &Terms,
    case: &Case,
    gate: &G,
    pass: G::Pass,
) -> (u8, bool)
    requires own { G.has_pass gate.now pass }
    requires terms { (G.known pass).seen.terms ≡ terms.now }
{
    let (mine, theirs) = gate.split(pass);
    match case.other {
        OtherCaller::Nobody => drop(theirs),
        OtherCaller::AcceptsTwo => accept_two(rt, alloc, terms, gate, theirs),
        OtherCaller::StopsBefore => stop_once(rt, gate, theirs),
        OtherCaller::StopsBeside => {
            return fault_beside_a_stop(rt, alloc, terms, case.workers, gate, mine, theirs);
        }
    }
    fault_on(rt, alloc, terms, case.workers, gate, mine)
}

// Runs on the gate that this lock protects. Returns the gate if the run has no fault.
fn run_watched<S: Section + Drop + Sync, R: Threads + Wait + Abort + Sync>(
    rt: &R,
    alloc: Global,
    terms: &Terms,
    case: &Case,
    lock: S,
    pass: S::Pass,
) -> Option<S::Value>
where
    S::Value: SerialGate + Drop + Send + Sync,
    S::Pass: Send + Drop,
    requires own { S.has_pass lock pass }
    requires terms { (S.Value.shown (S.seen pass)).terms ≡ terms.now }
    ensures { IfSome result (λ state. (S.Value.shown state).terms ≡ terms.now) }
{
    let gate = WatchedGate::over(LockedGate::over(lock), case.watch);
    let (last, pass) = gate.split(pass);
    let (fault, is_worn) = fault_of(rt, alloc, terms, case, &gate, pass);
    let met = gate.met(fault, is_worn);
    expects(rt, case.is_as_wanted(met), "this result");
    if fault != 0 {
        return None;
    }
    match gate.inner().retire(rt, last) {
        Ok(state) => Some(state),
        Err(_) => fail(rt, "the gate of the run"),
    }
}

// Requires that the run of a gate is finished and has this report, if there is a gate. The journal
// then has three events for each of six claims, the ends of both providers and the close.
fn check_report<'t>(
    rt: &impl Abort,
    alloc: Global,
    terms: &'t Terms,
    state: Option<Box<GateState<'t>>>,
    report: &str,
)
    requires { IfSome state (λ gate. gate.value.terms ≡ terms.now) }
{
    let Some(state) = state else { return };
    let Ok(batch) = Batch::from_state(Box::into_inner(state), terms) else {
        fail(rt, "a finished run")
    };
    if !report.is_empty() {
        expects(rt, batch.journal().len() == 21, "21 events");
        is_report(rt, alloc, terms, &batch, report);
    }
    drop(batch);
}

/// Runs with a ticket lock that has the gate in a box, as the lock of `run` has it.
pub fn meets<R: Threads + Wait + Abort + Sync>(rt: &R, alloc: Global, terms: &Terms, case: &Case) {
    let state = GateState::new(alloc, terms).expect(rt, "a gate");
    let state = Box::new(alloc, state).expect(rt, "a box");
    let (lock, pass) = TicketLock::new_at(alloc, state, case.first_ticket).expect(rt, "a lock");
    let state = run_watched(rt, alloc, terms, case, lock, pass);
    check_report(rt, alloc, terms, state, case.report);
}
