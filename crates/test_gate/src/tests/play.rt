//! Plays: two callers of a gate go through a script. A call that runs out of memory is repeated
//! once, after a check that the gate still has the counts that it had before. Each test whose name
//! says so is run once for each of its allocations, with that allocation refused.
ghost use Rattle.test_gate.specs.Words.{IsCaller, IsSeated};

use super::expects;
use super::lines::{Caller, Line, first_counts};
use super::seats::{Seat, Turn, ask_counts, make};
use claim_gate::{Counts, Gate, Terms};
use std::alloc::Global;
use std::process::Abort;
use std::sync::Wait;

// The two callers of a script.
#[derive(Drop)]
struct Seats<P> {
    one: Seat<P>,
    other: Seat<P>,
}

// Makes the call of a line, and checks the reply. The counts of the gate are these before it.
fn go<G: Gate>(
    rt: &(impl Abort + Wait),
    alloc: Global,
    terms: &Terms,
    gate: &G,
    seat: Seat<G::Pass>,
    line: Line,
    before: Counts,
) -> Seat<G::Pass>
    requires { IsSeated (G.has_pass gate.now) G.known terms.now seat.pass seat.job }
    ensures { IsSeated (G.has_pass gate.now) G.known terms.now result.pass result.job }
{
    let Turn { said, seat } = make(rt, alloc, terms, gate, seat, line.1);
    if !said.is_out_of_memory() {
        line.check(rt, said);
        return seat;
    }
    let Turn { said, seat } = ask_counts(rt, terms, gate, seat, before);
    expects(rt, said.is_yes(), "the counts of before");
    let Turn { said, seat } = make(rt, alloc, terms, gate, seat, line.1);
    line.check(rt, said);
    seat
}

fn go_by<G: Gate>(
    rt: &(impl Abort + Wait),
    alloc: Global,
    terms: &Terms,
    gate: &G,
    seats: Seats<G::Pass>,
    line: Line,
    before: Counts,
) -> Seats<G::Pass>
    requires one { IsSeated (G.has_pass gate.now) G.known terms.now seats.one.pass seats.one.job }
    requires other { IsSeated (G.has_pass gate.now) G.known terms.now seats.other.pass
        seats.other.job }
    ensures one { IsSeated (G.has_pass gate.now) G.known terms.now result.one.pass
        result.one.job }
    ensures other { IsSeated (G.has_pass gate.now) G.known terms.now result.other.pass
        result.other.job }
{
    let Seats { one, other } = seats;
    match line.0 {
        Caller::One => Seats {
            one: go(rt, alloc, terms, gate, one, line, before),
            other,
        },
        Caller::Other => Seats {
            one,
            other: go(rt, alloc, terms, gate, other, line, before),
        },
    }
}

/// Goes through a script, with two passes of callers who have no job. The gate is one to which no
/// claim was offered, or memory is not refused.
pub fn play<G: Gate>(
    rt: &(impl Abort + Wait),
    alloc: Global,
    terms: &Terms,
    gate: &G,
    passes: (G::Pass, G::Pass),
    script: &[Line],
) -> (G::Pass, G::Pass)
    requires one { IsCaller (G.has_pass gate.now) G.known terms.now passes.0 }
    requires other { IsCaller (G.has_pass gate.now) G.known terms.now passes.1 }
    ensures one { IsCaller (G.has_pass gate.now) G.known terms.now result.0 }
    ensures other { IsCaller (G.has_pass gate.now) G.known terms.now result.1 }
{
    let (one, other) = passes;
    let mut seats = Seats {
        one: Seat {
            pass: one,
            job: None,
        },
        other: Seat {
            pass: other,
            job: None,
        },
    };
    let mut counts = first_counts(terms);
    for entry in script {
        let line = *entry;
        seats = go_by(rt, alloc, terms, gate, seats, line, counts);
        counts = line.counts_after(terms, counts);
    }
    let Seats { one, other } = seats;
    (one.pass, other.pass)
}
