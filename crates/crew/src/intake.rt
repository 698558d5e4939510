//! The work of an intake thread, which reads a provider's file and offers its claims.
ghost use Rattle.std.specs.Prelude.{◌≡◌, ◌<◌, ◌≤◌, ◌-◌, true, [], length, get_or, IfOk, IfErr};
ghost use Rattle.intake_csv.specs.Rows.{IsAtStart};
ghost use Rattle.gate_calls.specs.Passes.{GoesOn, LeavesWith};
ghost use Rattle.crew.specs.Reading.{IsAtRecord, IsStep, Reads};
ghost use Rattle.gate_calls.specs.Sharing.{is_past};
ghost use Rattle.faults.specs.declared.run_fault.RunFault.TheVariants.{OutOfMemory};
ghost use Rattle.journal.specs.declared.order.Order.TheVariants.{Any};

use crate::acceptor::run_acceptor;
use crate::fetching::Fetching;
use claim_gate::{BoxedClaim, Gate, Offer, Order, Terms};
use faults::RunFault;
use gate_batching::{BatchTurn, OFFERS_LIMIT};
use gate_calls::{Exit, Onward, Shared, end, offer};
use intake_csv::{
    Row, Rows, given_row_has_the_claim, no_records_give_no_rows, reader_begins_with_all_rows,
};
use std::alloc::{AllocError, Global};
use std::sync::Wait;
use std::thread::Threads;

/// An intake between two records of its provider's file.
#[derive(Drop)]
struct Intake<'t> {
    provider: usize,
    rows: Rows<'t>,
    /// The number of claims that it has read.
    count: usize,
    /// The place from which claims are offered. Those before it are accepted already.
    expected: usize,
    /// Boxes of decided claims, which the next claims take.
    spare: Vec<BoxedClaim>,
}

/// The next step of an intake.
enum Step {
    /// It reads the next record.
    NextRecord,
    /// It ends the provider, since no record is left.
    EndProvider,
    /// It leaves, since no more claims are accepted.
    Leave,
}

/// The result of reading a record.
enum Record {
    /// The record is a claim, which is to be offered.
    Claim(Offer),
    /// The record is refused, or its claim is accepted already.
    Skipped,
    /// No record is left.
    Missing,
}

/// Does the work of the intake with this number, from 0, which offers the claims of its provider's file. Where the terms ask
/// for an order, intake 0 is the acceptor, which offers the claims of all files, and the others do nothing.
pub(crate) fn run_intake_part<R: Threads + Wait + Sync, G: Gate, F: Fetching<G>>(
    shared: &Shared<R, G>,
    fetching: &F,
    pass: G::Pass,
    number: usize,
) -> Result<G::Pass, Exit<G::Pass>>
    requires own { G.has_pass shared.now.gate.now pass }
    requires terms { (G.known pass).seen.terms ≡ shared.now.terms.now }
    requires within { number < length shared.now.terms.now.files }
    ensures goes_on { IfOk result (GoesOn (G.has_pass shared.now.gate.now) G.known pass) }
    ensures leaves { IfErr result
        (LeavesWith (G.has_pass shared.now.gate.now) G.is_worn G.known pass) }
{
    // proof: the number of files has an upper limit, so `number + 1` does not overflow.
    let _files = shared.terms.files();
    let Order::Any = shared.terms.order() else {
        if number != 0 {
            return Ok(pass);
        }
        return run_acceptor(shared, fetching, pass);
    };
    run_intake(shared, pass, number + 1)
}

// Offers the claims of a provider's file in order, and ends the provider after the last one. Claims that other callers have
// already offered are skipped.
fn run_intake<R: Wait, G: Gate>(
    shared: &Shared<R, G>,
    mut pass: G::Pass,
    provider: usize,
) -> Result<G::Pass, Exit<G::Pass>>
    requires own { G.has_pass shared.now.gate.now pass }
    requires terms { (G.known pass).seen.terms ≡ shared.now.terms.now }
    requires any_order { shared.now.terms.now.order ≡ Any }
    requires least { 1 ≤ provider }
    requires most { provider ≤ length shared.now.terms.now.files }
    ensures goes_on { IfOk result (GoesOn (G.has_pass shared.now.gate.now) G.known pass) }
    ensures past { IfOk result (λ p. is_past (G.known p).seen provider ≡ true) }
    ensures leaves { IfErr result
        (LeavesWith (G.has_pass shared.now.gate.now) G.is_worn G.known pass) }
{
    // proof: the rows that a new reader has left are those of the file.
    reader_begins_with_all_rows();
    no_records_give_no_rows();
    let rows = match open(shared.alloc, shared.terms, provider) {
        Ok(rows) => rows,
        Err(fault) => return Err(Exit { fault, pass }),
    };
    let mut intake = Intake {
        provider,
        rows,
        count: 0,
        expected: 0,
        spare: Vec::new(shared.alloc),
    };
    'turns: loop {
        take_spare(shared, &mut intake);
        let onward = match offer_turn(shared, pass, &mut intake) {
            Ok(onward) => onward,
            Err(exit) => return Err(exit),
        };
        let Onward { value, pass: back } = onward;
        match value {
            Step::NextRecord => pass = back,
            Step::EndProvider => return end(shared, back, provider, intake.count),
            Step::Leave => return Ok(back),
        }
    }
}

// Gives an intake without spare boxes those of a worker's turn.
fn take_spare<R: Wait, G>(shared: &Shared<R, G>, intake: &mut Intake<'_>)
    ensures { intake.new ≡ record intake.old { spare = intake.new.spare } }
{
    if intake.spare.is_empty() {
        intake.spare = shared.spare.take(shared.rt);
    }
}

// Reads up to `OFFERS_LIMIT` records in one turn, and offers each claim before it reads the next record.
fn offer_turn<R: Wait, G: Gate>(
    shared: &Shared<R, G>,
    mut pass: G::Pass,
    intake: &mut Intake<'_>,
) -> Result<Onward<Step, G::Pass>, Exit<G::Pass>>
    requires own { G.has_pass shared.now.gate.now pass }
    requires any_order { shared.now.terms.now.order ≡ Any }
    requires at { IsAtRecord shared.now.terms.now (G.known pass).seen intake.old }
    ensures goes_on { IfOk result
        (λ r. GoesOn (G.has_pass shared.now.gate.now) G.known pass r.pass) }
    ensures step { IfOk result
        (λ r. IsStep shared.now.terms.now (G.known r.pass).seen intake.old intake.new r.value) }
    ensures leaves { IfErr result
        (LeavesWith (G.has_pass shared.now.gate.now) G.is_worn G.known pass) }
{
    let turn = shared.turns.begin_offers(shared.rt);
    'records: for record in 0..OFFERS_LIMIT {
        let onward = match offer_next(shared, pass, intake, &turn) {
            Ok(onward) => onward,
            Err(exit) => return Err(exit),
        };
        let Onward { value, pass: back } = onward;
        match value {
            Step::NextRecord => pass = back,
            Step::EndProvider => {
                return Ok(Onward {
                    value: Step::EndProvider,
                    pass: back,
                });
            }
            Step::Leave => {
                return Ok(Onward {
                    value: Step::Leave,
                    pass: back,
                });
            }
        }
    }
    Ok(Onward {
        value: Step::NextRecord,
        pass,
    })
}

// Reads a record, and offers its claim where it is not accepted already.
fn offer_next<R: Wait, G: Gate>(
    shared: &Shared<R, G>,
    pass: G::Pass,
    intake: &mut Intake<'_>,
    turn: &BatchTurn,
) -> Result<Onward<Step, G::Pass>, Exit<G::Pass>>
    requires own { G.has_pass shared.now.gate.now pass }
    requires any_order { shared.now.terms.now.order ≡ Any }
    requires at { IsAtRecord shared.now.terms.now (G.known pass).seen intake.old }
    ensures goes_on { IfOk result
        (λ r. GoesOn (G.has_pass shared.now.gate.now) G.known pass r.pass) }
    ensures step { IfOk result
        (λ r. IsStep shared.now.terms.now (G.known r.pass).seen intake.old intake.new r.value) }
    ensures leaves { IfErr result
        (LeavesWith (G.has_pass shared.now.gate.now) G.is_worn G.known pass) }
{
    let record = match read_record(shared.alloc, intake) {
        Ok(record) => record,
        Err(AllocError) => return Err(Exit {
            fault: RunFault::OutOfMemory,
            pass,
        }),
    };
    let offered = match record {
        Record::Claim(offered) => offered,
        Record::Skipped => return Ok(Onward {
            value: Step::NextRecord,
            pass,
        }),
        Record::Missing => return Ok(Onward {
            value: Step::EndProvider,
            pass,
        }),
    };
    let onward = match offer(shared, pass, offered, turn) {
        Ok(onward) => onward,
        Err(exit) => return Err(exit),
    };
    let Onward { value, pass } = onward;
    let Some(next) = value else {
        return Ok(Onward {
            value: Step::Leave,
            pass,
        });
    };
    intake.expected = next;
    Ok(Onward {
        value: Step::NextRecord,
        pass,
    })
}

// Reads a record. Its claim is to be offered unless it is accepted already.
fn read_record(alloc: Global, intake: &mut Intake<'_>) -> Result<Record, AllocError>
    requires place { intake.old.rows.place ≡ intake.old.count }
    requires fewer { intake.old.rows.place < intake.old.rows.number }
    ensures { IfOk result (Reads intake.old intake.new) }
{
    // proof: a reader returns the first of the rows that it has left.
    given_row_has_the_claim();
    let fields = BoxedClaim::spare_fields(alloc, &mut intake.spare);
    let Some(row) = intake.rows.next_in_spare(fields)? else {
        return Ok(Record::Missing);
    };
    let Row::Good { claim, .. } = row else {
        return Ok(Record::Skipped);
    };
    let claim = BoxedClaim::in_spare(alloc, &mut intake.spare, claim)?;
    let place = intake.count;
    intake.count += 1;
    if place < intake.expected {
        return Ok(Record::Skipped);
    }
    Ok(Record::Claim(Offer {
        provider: intake.provider,
        place,
        claim,
    }))
}

fn open<'t>(alloc: Global, terms: &Terms<'t>, provider: usize) -> Result<Rows<'t>, RunFault>
    requires least { 1 ≤ provider }
    requires most { provider ≤ length terms.now.files }
    ensures rows { IfOk result
        (IsAtStart terms.now.plan.names (get_or terms.now.files (provider - 1) [])) }
    ensures fault { IfErr result (λ fault. fault ≡ OutOfMemory) }
{
    match terms.rows(alloc, provider) {
        Ok(rows) => Ok(rows),
        Err(AllocError) => Err(RunFault::OutOfMemory),
    }
}
