//! The work of the acceptor, the thread that offers the claims of all files where the terms ask for an order. Other threads
//! read claims ahead of it.
ghost use Rattle.std.specs.Prelude.{◌≡◌, ◌<◌, length, IfOk, IfErr};
ghost use Rattle.std.specs.Thread.{IsSync};
ghost use Rattle.crew.specs.Accepting.{AreOffered, ArePast, HasOfferedAll, IsAcceptorStep, IsAtClaim};
ghost use Rattle.gate_calls.specs.Passes.{GoesOn, LeavesWith};

use crate::fetching::Fetching;
use crate::reading_signal::ReadingSignal;
use claim_gate::Gate;
use faults::RunFault;
use gate_batching::{BatchTurn, OFFERS_LIMIT};
use gate_calls::{Exit, Onward, Shared, end, offer};
use ordered_claims::{ClaimQueues, ClaimReaders, NextClaim, OrderedClaims};
use std::alloc::AllocError;
use std::sync::Wait;
use std::thread::{Threads, available_parallelism, join};

/// The maximum number of claims for which the gate prefetches at once: about the number of reads that a processor makes in
/// parallel.
const FETCH_LIMIT: usize = 12;

/// The number of claims from which on other threads read them. To start these threads takes as long as to read some hundred
/// claims. Where many files are not sorted by day, rounds in which one file is read come by the hundred.
const CLAIMS_WORTH_THREADS: usize = 1_024;

/// The next step of the acceptor.
enum AcceptorStep {
    /// It offers the next claim.
    NextClaim,
    /// It waits until more claims are read.
    ReadOn,
    /// It ends the providers, since no claim is left.
    EndProviders,
    /// It leaves, since no more claims are accepted.
    Leave,
}

/// What the acceptor has offered, with the claims that are read and not given yet.
enum Offered<'t> {
    /// It goes on once more claims are read.
    Part(ClaimQueues<'t>),
    /// All claims of all files are accepted.
    Whole(ClaimQueues<'t>),
    /// No more claims are accepted.
    Shut,
}

/// Offers the claims of all files in the order of the terms, and ends all providers after the last one. In an order a claim
/// is offered only after all claims before it are accepted, so one thread offers them all, and others read ahead of it.
pub(crate) fn run_acceptor<R: Threads + Wait + Sync, G: Gate, F: Fetching<G>>(
    shared: &Shared<R, G>,
    fetching: &F,
    mut pass: G::Pass,
) -> Result<G::Pass, Exit<G::Pass>>
    requires own { G.has_pass shared.now.gate.now pass }
    requires terms { (G.known pass).seen.terms ≡ shared.now.terms.now }
    ensures goes_on { IfOk result (GoesOn (G.has_pass shared.now.gate.now) G.known pass) }
    ensures past { IfOk result
        (λ p. ArePast (G.known p).seen (length shared.now.terms.now.files)) }
    ensures leaves { IfErr result
        (LeavesWith (G.has_pass shared.now.gate.now) G.is_worn G.known pass) }
{
    let claims = match OrderedClaims::new(shared.alloc, shared.terms) {
        Ok(claims) => claims,
        Err(AllocError) => return Err(Exit {
            fault: RunFault::OutOfMemory,
            pass,
        }),
    };
    let threads = reader_count(shared.rt);
    let (mut queues, mut readers) = claims.split();
    let mut spare = Vec::new(shared.alloc);
    for _ in shared.rt.forever() {
        let Ok(()) = queues.take_from(&mut readers) else {
            return Err(Exit {
                fault: RunFault::OutOfMemory,
                pass,
            });
        };
        if spare.is_empty() {
            spare = shared.spare.take_all(shared.rt);
        }
        readers.reuse(&mut spare);
        let (read, onward) = offer_while_reading(shared, fetching, pass, queues, readers, threads);
        let onward = match onward {
            Ok(onward) => onward,
            Err(exit) => return Err(exit),
        };
        let Onward { value, pass: back } = onward;
        match value {
            Offered::Part(rest) => (queues, readers, pass) = (rest, read, back),
            Offered::Whole(rest) => return end_all(shared, back, &rest),
            Offered::Shut => return Ok(back),
        }
    }
    unreachable!()
}

// Returns the number of threads that read at once: that of the processors.
fn reader_count<R: Threads>(rt: &R) -> usize
    ensures { 0 < result }
{
    match available_parallelism(rt) {
        Ok(count) => count.get(),
        Err(_) => 1,
    }
}

// Offers the claims that are read, while other threads read more. Where few are to be read, this thread reads them before it
// offers, and where no thread can be started, it reads afterwards.
fn offer_while_reading<'t, R: Threads + Wait + Sync, G: Gate, F: Fetching<G>>(
    shared: &Shared<R, G>,
    fetching: &F,
    pass: G::Pass,
    queues: ClaimQueues<'t>,
    readers: ClaimReaders<'t>,
    threads: usize,
) -> (
    ClaimReaders<'t>,
    Result<Onward<Offered<'t>, G::Pass>, Exit<G::Pass>>,
)
    requires own { G.has_pass shared.now.gate.now pass }
    requires at { IsAtClaim shared.now.terms.now (G.known pass).seen queues }
    requires threads { 0 < threads }
    ensures terms { result.0.terms ≡ readers.entry.terms }
    ensures taken { result.0.taken ≡ readers.entry.taken }
    ensures goes_on { IfOk result.1
        (λ r. GoesOn (G.has_pass shared.now.gate.now) G.known pass r.pass) }
    ensures offered { IfOk result.1
        (λ r. AreOffered shared.now.terms.now (G.known r.pass).seen queues.entry r.value) }
    ensures leaves { IfErr result.1
        (LeavesWith (G.has_pass shared.now.gate.now) G.is_worn G.known pass) }
{
    let rt = shared.rt;
    let signal = ReadingSignal::new(shared.terms.order());
    if readers.wanted_count() < CLAIMS_WORTH_THREADS {
        let read = readers.read_ahead(rt, 1);
        signal.note_done();
        let onward = offer_turns(shared, fetching, pass, queues, &signal);
        return (read, onward);
    }
    let done = &signal;
    let reading = &signal;
    join(
        rt,
        move || -> ClaimReaders
            requires { IsSync R.row × (0 < threads) }
            ensures terms { result.terms ≡ readers.entry.terms }
            ensures taken { result.taken ≡ readers.entry.taken }
        {
            let read = readers.read_ahead(rt, threads);
            done.note_done();
            read
        },
        move || -> Result<Onward<Offered, G::Pass>, Exit<G::Pass>>
            requires { G.has_pass shared.now.gate.now pass
                × IsAtClaim shared.now.terms.now (G.known pass).seen queues }
            ensures goes_on { IfOk result
                (λ r. GoesOn (G.has_pass shared.entry.now.gate.now) G.known pass r.pass) }
            ensures offered { IfOk result
                (λ r. AreOffered shared.entry.now.terms.now (G.known r.pass).seen
                queues.entry r.value) }
            ensures leaves { IfErr result
                (LeavesWith (G.has_pass shared.entry.now.gate.now) G.is_worn G.known pass) }
        { offer_turns(shared, fetching, pass, queues, reading) },
    )
}

// Offers the claims that are read, turn after turn, until none is left or the readers can read on.
fn offer_turns<'t, R: Wait, G: Gate, F: Fetching<G>>(
    shared: &Shared<R, G>,
    fetching: &F,
    mut pass: G::Pass,
    mut claims: ClaimQueues<'t>,
    reading: &ReadingSignal,
) -> Result<Onward<Offered<'t>, G::Pass>, Exit<G::Pass>>
    requires own { G.has_pass shared.now.gate.now pass }
    requires at { IsAtClaim shared.now.terms.now (G.known pass).seen claims }
    ensures goes_on { IfOk result
        (λ r. GoesOn (G.has_pass shared.now.gate.now) G.known pass r.pass) }
    ensures offered { IfOk result
        (λ r. AreOffered shared.now.terms.now (G.known r.pass).seen claims.entry r.value) }
    ensures leaves { IfErr result
        (LeavesWith (G.has_pass shared.now.gate.now) G.is_worn G.known pass) }
{
    let mut turns = 0_usize;
    'turns: loop {
        let onward = match offer_turn(shared, fetching, pass, &mut claims) {
            Ok(onward) => onward,
            Err(exit) => return Err(exit),
        };
        let Onward { value, pass: back } = onward;
        match value {
            AcceptorStep::NextClaim => {
                turns = turns.saturating_add(1);
                if reading.ends_round(turns) {
                    return Ok(Onward {
                        value: Offered::Part(claims),
                        pass: back,
                    });
                }
                pass = back;
            }
            AcceptorStep::ReadOn => return Ok(Onward {
                value: Offered::Part(claims),
                pass: back,
            }),
            AcceptorStep::EndProviders => return Ok(Onward {
                value: Offered::Whole(claims),
                pass: back,
            }),
            AcceptorStep::Leave => return Ok(Onward {
                value: Offered::Shut,
                pass: back,
            }),
        }
    }
}

// Offers up to `OFFERS_LIMIT` claims in one turn.
fn offer_turn<R: Wait, G: Gate, F: Fetching<G>>(
    shared: &Shared<R, G>,
    fetching: &F,
    mut pass: G::Pass,
    claims: &mut ClaimQueues<'_>,
) -> Result<Onward<AcceptorStep, G::Pass>, Exit<G::Pass>>
    requires own { G.has_pass shared.now.gate.now pass }
    requires at { IsAtClaim shared.now.terms.now (G.known pass).seen claims.old }
    ensures goes_on { IfOk result
        (λ r. GoesOn (G.has_pass shared.now.gate.now) G.known pass r.pass) }
    ensures step { IfOk result (λ r. IsAcceptorStep shared.now.terms.now (G.known r.pass).seen
        claims.old claims.new r.value) }
    ensures leaves { IfErr result
        (LeavesWith (G.has_pass shared.now.gate.now) G.is_worn G.known pass) }
{
    let turn = shared.turns.begin_offers(shared.rt);
    let mut fetched = 0;
    'offers: for number in 0..OFFERS_LIMIT {
        pass = match fetch_upcoming(shared, fetching, pass, claims, &mut fetched) {
            Ok(pass) => pass,
            Err(exit) => return Err(exit),
        };
        let onward = match offer_next(shared, pass, claims, &turn) {
            Ok(onward) => onward,
            Err(exit) => return Err(exit),
        };
        let Onward { value, pass: back } = onward;
        match value {
            AcceptorStep::NextClaim => pass = back,
            step => return Ok(Onward {
                value: step,
                pass: back,
            }),
        }
    }
    Ok(Onward {
        value: AcceptorStep::NextClaim,
        pass,
    })
}

// Prefetches for the next claims, unless the last `fetched` of those that it has prefetched for are not offered yet.
fn fetch_upcoming<R: Wait, G: Gate, F: Fetching<G>>(
    shared: &Shared<R, G>,
    fetching: &F,
    pass: G::Pass,
    claims: &ClaimQueues<'_>,
    fetched: &mut usize,
) -> Result<G::Pass, Exit<G::Pass>>
    requires own { G.has_pass shared.now.gate.now pass }
    ensures goes_on { IfOk result (GoesOn (G.has_pass shared.now.gate.now) G.known pass) }
    ensures leaves { IfErr result
        (LeavesWith (G.has_pass shared.now.gate.now) G.is_worn G.known pass) }
{
    if *fetched > 0 {
        *fetched -= 1;
        return Ok(pass);
    }
    let upcoming = claims.upcoming(FETCH_LIMIT);
    *fetched = upcoming.len().saturating_sub(1);
    fetching.fetch(shared.rt, shared.gate, pass, upcoming)
}

// Offers the next claim in the order, if it is read. Where it is out of turn, another caller of the gate has offered it already,
// so that the claim after it is the next one.
fn offer_next<R: Wait, G: Gate>(
    shared: &Shared<R, G>,
    pass: G::Pass,
    claims: &mut ClaimQueues<'_>,
    turn: &BatchTurn,
) -> Result<Onward<AcceptorStep, G::Pass>, Exit<G::Pass>>
    requires own { G.has_pass shared.now.gate.now pass }
    requires at { IsAtClaim shared.now.terms.now (G.known pass).seen claims.old }
    ensures goes_on { IfOk result
        (λ r. GoesOn (G.has_pass shared.now.gate.now) G.known pass r.pass) }
    ensures step { IfOk result (λ r. IsAcceptorStep shared.now.terms.now (G.known r.pass).seen
        claims.old claims.new r.value) }
    ensures leaves { IfErr result
        (LeavesWith (G.has_pass shared.now.gate.now) G.is_worn G.known pass) }
{
    let offered = match claims.next() {
        NextClaim::Given(offered) => offered,
        NextClaim::Unread => return Ok(Onward {
            value: AcceptorStep::ReadOn,
            pass,
        }),
        NextClaim::NoneLeft => return Ok(Onward {
            value: AcceptorStep::EndProviders,
            pass,
        }),
    };
    let onward = match offer(shared, pass, offered, turn) {
        Ok(onward) => onward,
        Err(exit) => return Err(exit),
    };
    let Onward { value, pass } = onward;
    let Some(_) = value else {
        return Ok(Onward {
            value: AcceptorStep::Leave,
            pass,
        });
    };
    Ok(Onward {
        value: AcceptorStep::NextClaim,
        pass,
    })
}

// Ends all providers, of which all claims are accepted.
fn end_all<R: Wait, G: Gate>(
    shared: &Shared<R, G>,
    mut pass: G::Pass,
    claims: &ClaimQueues<'_>,
) -> Result<G::Pass, Exit<G::Pass>>
    requires own { G.has_pass shared.now.gate.now pass }
    requires all { HasOfferedAll shared.now.terms.now (G.known pass).seen claims.now }
    ensures goes_on { IfOk result (GoesOn (G.has_pass shared.now.gate.now) G.known pass) }
    ensures past { IfOk result
        (λ p. ArePast (G.known p).seen (length shared.now.terms.now.files)) }
    ensures leaves { IfErr result
        (LeavesWith (G.has_pass shared.now.gate.now) G.is_worn G.known pass) }
{
    let files = shared.terms.files();
    'providers: for place in 0..files.len() {
        let provider = place + 1;
        let count = claims.given_count(provider);
        pass = match end(shared, pass, provider, count) {
            Ok(pass) => pass,
            Err(exit) => return Err(exit),
        };
    }
    Ok(pass)
}
