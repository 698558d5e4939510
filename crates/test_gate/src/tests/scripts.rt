//! The scripts, which were worked out by hand. Amounts are in ten-thousandths of the currency unit.

use super::lines::Call::{Counts, End, Finish, Holds, Offer, Stop, Take};
use super::lines::Caller::{One, Other};
use super::lines::Line;
use super::locks::{Ending, Lock, Play};
use super::runs::{Calls, run};
use std::alloc::Global;
use std::process::Abort;
use std::sync::Wait;
use std::thread::Threads;
use test_fixtures::{
    both_files, family_file, family_plan, first_file, header, health_plan, second_file,
};

const ONE_CLAIM: &[u8] = b"claim,member,service,billed,code
c1,M1,2024-01-05,120.00,A
";

fn one_claim() -> &'static [u8] {
    ONE_CLAIM
}

const ONE_FILE: &[&[u8]] = &[ONE_CLAIM];

/// The only file of a run with a single claim.
pub fn one_file() -> &'static [&'static [u8]] {
    ONE_FILE
}

/// A script with its end.
#[derive(Clone, Copy)]
pub struct Script {
    pub lines: &'static [Line],
    pub ending: Ending,
}

impl Script {
    // The play of the script.
    fn on(self, lock: Lock) -> Calls {
        Calls::Play(Play {
            lock,
            script: self.lines,
            ending: self.ending,
        })
    }
}

// Goes through a script on a gate without a lock, in a spin lock, and in a ticket lock.
fn on_each_gate<R: Threads + Wait + Abort + Sync>(
    rt: &R,
    alloc: Global,
    plan: &str,
    files: &[&[u8]],
    cutoff: Option<u64>,
    script: Script,
) {
    for lock in [Lock::Missing, Lock::Spin, Lock::Tickets(0)] {
        run(rt, alloc, plan, files, cutoff, script.on(lock));
    }
}

// No claim is admitted. A stop comes before the close.
static CLOSED: [Line; 9] = [
    Line(One, Counts(0, 0, 0, true, false), "yes", 0),
    Line(One, Offer(1, 0, "c1"), "closed", 0),
    Line(One, End(1, 4), "closed", 0),
    Line(One, Take, "over", 0),
    Line(One, Stop, "done", 0),
    Line(One, Counts(0, 0, 0, true, true), "yes", 0),
    Line(One, Offer(1, 0, "c1"), "stopped", 0),
    Line(One, End(1, 4), "stopped", 0),
    Line(One, Take, "stopped", 0),
];

fn closed_script() -> Script {
    Script {
        lines: &CLOSED,
        ending: Ending::Finished(b"C  "),
    }
}

#[test]
fn no_claim_is_admitted_though_memory_is_refused(rt: HostRuntime) {
    on_each_gate(
        &rt,
        rt.alloc(),
        health_plan(),
        both_files(),
        Some(0),
        closed_script(),
    );
}

// A member's claims take turns, and a claim of another member is ready at once. A refused offer
// comes back. An outcome is recorded once, while claims can still be offered. A provider can't end
// before all its claims are accepted. After a stop each call is refused, also the next stop changes
// nothing, and a refused job comes back with its outcome.
static WORKED: [Line; 26] = [
    Line(One, Counts(0, 0, 0, false, false), "yes", 0),
    Line(One, Take, "nothing", 0),
    Line(One, Offer(1, 0, "c1"), "at", 0),
    Line(Other, Offer(1, 0, "c1"), "out of turn", 1),
    Line(One, Take, "job", 0),
    Line(One, Holds("c1", [0, 0, 0, 0, 0]), "yes", 0),
    Line(Other, Take, "nothing", 0),
    Line(One, Offer(1, 1, "c2"), "at", 1),
    Line(Other, Take, "nothing", 0),
    Line(One, Offer(2, 0, "d1"), "at", 2),
    Line(Other, Take, "job", 2),
    Line(Other, Holds("d1", [0, 0, 0, 0, 0]), "yes", 0),
    Line(One, Finish(400_000), "recorded", 0),
    Line(One, Finish(400_000), "already", 0),
    Line(Other, Take, "job", 1),
    Line(
        Other,
        Holds("c2", [500_000, 600_000, 400_000, 500_000, 600_000]),
        "yes",
        0,
    ),
    Line(One, End(1, 4), "out of turn", 2),
    Line(One, Counts(3, 0, 1, false, false), "yes", 0),
    Line(One, Stop, "done", 0),
    Line(Other, Offer(2, 0, "d1"), "stopped", 0),
    Line(Other, Offer(1, 2, "c3"), "stopped", 0),
    Line(Other, End(1, 4), "stopped", 0),
    Line(Other, Take, "stopped", 0),
    Line(Other, Finish(400_000), "stopped", 0),
    Line(Other, Stop, "done", 0),
    Line(Other, Counts(3, 0, 1, false, true), "yes", 0),
];

fn worked_script() -> Script {
    Script {
        lines: &WORKED,
        ending: Ending::Unfinished(b"A10T0 A11A20T2 D0 T1 "),
    }
}

#[test]
fn two_callers_take_turns_though_memory_is_refused(rt: HostRuntime) {
    on_each_gate(
        &rt,
        rt.alloc(),
        health_plan(),
        both_files(),
        None,
        worked_script(),
    );
}

// A run of a single claim up to its end. The last end closes the journal, and a stop leaves it
// finished.
static ONLY: [Line; 10] = [
    Line(One, Offer(1, 0, "c1"), "at", 0),
    Line(One, End(1, 1), "ended", 0),
    Line(One, Counts(1, 1, 0, true, false), "yes", 0),
    Line(One, Take, "job", 0),
    Line(One, Holds("c1", [0, 0, 0, 0, 0]), "yes", 0),
    Line(One, Finish(400_000), "recorded", 0),
    Line(One, Finish(400_000), "already", 0),
    Line(One, Take, "over", 0),
    Line(Other, Counts(1, 1, 1, true, false), "yes", 0),
    Line(Other, Stop, "done", 0),
];

pub fn only_script() -> Script {
    Script {
        lines: &ONLY,
        ending: Ending::Finished(b"A10E1 C  T0 D0 "),
    }
}

#[test]
fn a_run_of_one_claim_ends_though_memory_is_refused(rt: HostRuntime) {
    on_each_gate(
        &rt,
        rt.alloc(),
        health_plan(),
        one_file(),
        None,
        only_script(),
    );
}

// A provider can end only once, even while another provider has not ended.
static END: [Line; 4] = [
    Line(One, Offer(1, 0, "c1"), "at", 0),
    Line(One, End(1, 1), "ended", 0),
    Line(One, End(1, 1), "already", 0),
    Line(One, Counts(1, 1, 0, false, false), "yes", 0),
];

fn end_script() -> Script {
    Script {
        lines: &END,
        ending: Ending::Unfinished(b"A10E1 "),
    }
}

#[test]
fn a_provider_ends_once_though_memory_is_refused(rt: HostRuntime) {
    let files = [one_claim(), header()];
    on_each_gate(&rt, rt.alloc(), health_plan(), &files, None, end_script());
}

// The claims of one family, which has three members, are decided one after another. Each is settled
// at the accumulators that the earlier claims of its member and of its family have left. The claim
// of another family is ready at once.
static FAMILY: [Line; 17] = [
    Line(One, Offer(1, 0, "e1"), "at", 0),
    Line(One, Offer(1, 1, "e2"), "at", 1),
    Line(One, Offer(1, 2, "e3"), "at", 2),
    Line(One, Offer(1, 3, "e4"), "at", 3),
    Line(One, Take, "job", 0),
    Line(One, Holds("e1", [0, 0, 0, 0, 0]), "yes", 0),
    Line(Other, Take, "job", 3),
    Line(Other, Holds("e4", [0, 0, 0, 0, 0]), "yes", 0),
    Line(Other, Take, "nothing", 0),
    Line(One, Finish(400_000), "recorded", 0),
    Line(One, Take, "job", 1),
    Line(One, Holds("e2", [0, 0, 0, 500_000, 600_000]), "yes", 0),
    Line(One, Take, "nothing", 0),
    Line(One, Finish(600_000), "recorded", 0),
    Line(One, Take, "job", 2),
    Line(One, Holds("e3", [0, 0, 0, 800_000, 1_000_000]), "yes", 0),
    Line(One, Take, "nothing", 0),
];

fn family_script() -> Script {
    Script {
        lines: &FAMILY,
        ending: Ending::Unfinished(b"A10A11A12A13T0 T3 D0 T1 D1 T2 "),
    }
}

#[test]
fn claims_of_a_family_take_turns_though_memory_is_refused(rt: HostRuntime) {
    let files = [family_file()];
    on_each_gate(
        &rt,
        rt.alloc(),
        family_plan(),
        &files,
        None,
        family_script(),
    );
}

// A journal begins with room for four events, so each of the following scripts ends by a call on a
// full journal, of which the last two events need more room. The end of a provider enlarges it.
static FULL_END: [Line; 5] = [
    Line(One, Offer(1, 0, "c1"), "at", 0),
    Line(One, Offer(1, 1, "c2"), "at", 1),
    Line(One, Offer(2, 0, "d1"), "at", 2),
    Line(One, Take, "job", 0),
    Line(Other, End(3, 0), "ended", 0),
];

fn full_end_script() -> Script {
    Script {
        lines: &FULL_END,
        ending: Ending::Unfinished(b"A10A11A20T0 E3 "),
    }
}

// A claim that is taken enlarges it.
static FULL_TAKE: [Line; 5] = [
    Line(One, Offer(1, 0, "c1"), "at", 0),
    Line(One, Offer(1, 1, "c2"), "at", 1),
    Line(One, Offer(2, 0, "d1"), "at", 2),
    Line(One, Take, "job", 0),
    Line(Other, Take, "job", 2),
];

fn full_take_script() -> Script {
    Script {
        lines: &FULL_TAKE,
        ending: Ending::Unfinished(b"A10A11A20T0 T2 "),
    }
}

// A call that finds no claim ready enlarges it, too.
static FULL_NOTHING: [Line; 5] = [
    Line(One, Offer(1, 0, "c1"), "at", 0),
    Line(One, Offer(1, 1, "c2"), "at", 1),
    Line(One, Offer(1, 2, "c3"), "at", 2),
    Line(One, Take, "job", 0),
    Line(Other, Take, "nothing", 0),
];

fn full_nothing_script() -> Script {
    Script {
        lines: &FULL_NOTHING,
        ending: Ending::Unfinished(b"A10A11A12T0 "),
    }
}

#[test]
fn calls_enlarge_a_full_journal_though_memory_is_refused(rt: HostRuntime) {
    let files = [first_file(), second_file(), header()];
    for script in [full_end_script(), full_take_script(), full_nothing_script()] {
        on_each_gate(&rt, rt.alloc(), health_plan(), &files, None, script);
    }
}

// Without a ticket each call comes back with what was given to it.
static NO_TICKET: [Line; 5] = [
    Line(One, Offer(1, 0, "c1"), "worn", 0),
    Line(One, End(1, 4), "worn", 0),
    Line(One, Take, "worn", 0),
    Line(One, Stop, "worn", 0),
    Line(One, Counts(0, 0, 0, false, false), "worn", 0),
];

// The last ticket serves to accept the first claim.
static ONE_TICKET: [Line; 6] = [
    Line(One, Offer(1, 0, "c1"), "at", 0),
    Line(One, Offer(1, 0, "c1"), "worn", 0),
    Line(One, End(1, 4), "worn", 0),
    Line(One, Take, "worn", 0),
    Line(One, Stop, "worn", 0),
    Line(One, Counts(1, 0, 0, false, false), "worn", 0),
];

// The last ticket serves to take the first claim.
static TWO_TICKETS: [Line; 3] = [
    Line(One, Offer(1, 0, "c1"), "at", 0),
    Line(One, Take, "job", 0),
    Line(One, Finish(400_000), "worn", 0),
];

// The play of a script on a gate in a ticket lock that has this number of tickets left.
fn with_left(left: u64, lines: &'static [Line]) -> Calls {
    let ending = Ending::Worn;
    Script { lines, ending }.on(Lock::Tickets(u64::MAX.saturating_sub(left)))
}

#[test]
fn no_call_without_a_ticket(rt: HostRuntime) {
    let plays = [
        with_left(0, &NO_TICKET),
        with_left(1, &ONE_TICKET),
        with_left(2, &TWO_TICKETS),
    ];
    for calls in plays {
        run(&rt, rt.alloc(), health_plan(), both_files(), None, calls);
    }
}

// Before two passes meet, one of them has offered a claim.
static FIRST_OFFER: [Line; 1] = [Line(One, Offer(1, 0, "c1"), "at", 0)];

pub fn first_offer() -> &'static [Line] {
    &FIRST_OFFER
}

// After they have met, the other pass finds that claim accepted, and stops the gate.
static OTHER_STOP: [Line; 3] = [
    Line(Other, Counts(1, 0, 0, false, false), "yes", 0),
    Line(Other, Offer(1, 0, "c1"), "out of turn", 1),
    Line(Other, Stop, "done", 0),
];

pub fn other_stop() -> &'static [Line] {
    &OTHER_STOP
}

// After they have met again, the first pass finds the gate stopped.
static THEN_STOPPED: [Line; 1] = [Line(One, Take, "stopped", 0)];

pub fn then_stopped() -> &'static [Line] {
    &THEN_STOPPED
}
