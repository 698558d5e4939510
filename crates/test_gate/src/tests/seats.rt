//! A caller of a gate, and each of its calls. A job that is passed to `finish` is copied before, so
//! that it can be passed once more.
ghost use Rattle.std.specs.Prelude.{◌≡◌, IfOk, Some};
ghost use Rattle.journal.specs.Settled.{outcome_of};
ghost use Rattle.test_gate.specs.Words.{IsAtWork, IsCaller, IsSeated};

use super::filing::{offer_at, read_all};
use super::lines::{Call, Said};
use super::replies::{
    end_reply, finish_reply, is_job, is_paid, offer_reply, take_reply, worn_offer, worn_outcome,
};
use super::{expects, fail};
use claim_gate::{BoxedOutcome, Counts, Gate, Job, Served, Terms, WornOut};
use journal::jobs_are_stable;
use settlement::{Acc, Claim, Outcome, decide};
use std::alloc::{AllocError, Global};
use std::process::Abort;
use std::sync::Wait;

/// A caller of a gate: its pass, and the job that it has taken last, if it has taken one.
#[derive(Drop)]
pub struct Seat<P> {
    pub pass: P,
    pub job: Option<Job>,
}

/// The reply to a call, and the caller.
#[derive(Drop)]
pub struct Turn<P> {
    pub said: Said,
    pub seat: Seat<P>,
}

#[tactic(auto, using(crate::proofs::Order::any_order))]
fn offer<G: Gate>(
    rt: &(impl Abort + Wait),
    alloc: Global,
    terms: &Terms,
    gate: &G,
    seat: Seat<G::Pass>,
    filed: (usize, usize, &str),
) -> Turn<G::Pass>
    requires { IsSeated (G.has_pass gate.now) G.known terms.now seat.pass seat.job }
    ensures { IsSeated (G.has_pass gate.now) G.known terms.now result.seat.pass result.seat.job }
{
    jobs_are_stable();
    let (provider, place, id) = filed;
    let Seat { pass, job } = seat;
    let offer = offer_at(rt, alloc, terms, provider, place);
    let served = match gate.offer(rt, pass, offer) {
        Ok(served) => served,
        Err(worn) => {
            let WornOut { pass, value } = worn;
            return Turn {
                said: worn_offer(rt, value, provider, place, id),
                seat: Seat { pass, job },
            };
        }
    };
    let Served { reply, pass } = served;
    Turn {
        said: offer_reply(rt, reply, provider, place, id),
        seat: Seat { pass, job },
    }
}

fn end<G: Gate>(
    rt: &(impl Abort + Wait),
    alloc: Global,
    terms: &Terms,
    gate: &G,
    seat: Seat<G::Pass>,
    provider: usize,
    count: usize,
) -> Turn<G::Pass>
    requires { IsSeated (G.has_pass gate.now) G.known terms.now seat.pass seat.job }
    ensures { IsSeated (G.has_pass gate.now) G.known terms.now result.seat.pass result.seat.job }
{
    jobs_are_stable();
    let Seat { pass, job } = seat;
    read_all(rt, alloc, terms, provider, count);
    let served = match gate.end(rt, pass, provider, count) {
        Ok(served) => served,
        Err(worn) => return Turn {
            said: Said::worn(),
            seat: Seat {
                pass: worn.pass,
                job,
            },
        },
    };
    let Served { reply, pass } = served;
    Turn {
        said: end_reply(reply),
        seat: Seat { pass, job },
    }
}

fn take<G: Gate>(
    rt: &(impl Abort + Wait),
    terms: &Terms,
    gate: &G,
    seat: Seat<G::Pass>,
) -> Turn<G::Pass>
    requires { IsSeated (G.has_pass gate.now) G.known terms.now seat.pass seat.job }
    ensures { IsSeated (G.has_pass gate.now) G.known terms.now result.seat.pass result.seat.job }
{
    jobs_are_stable();
    let _plan = terms.plan();
    let Seat { pass, job } = seat;
    let served = match gate.take(rt, pass) {
        Ok(served) => served,
        Err(worn) => return Turn {
            said: Said::worn(),
            seat: Seat {
                pass: worn.pass,
                job,
            },
        },
    };
    let Served { reply, pass } = served;
    let last = take_reply(reply, job);
    Turn {
        said: last.said,
        seat: Seat {
            pass,
            job: last.job,
        },
    }
}

fn decide_once(
    rt: &impl Abort,
    alloc: Global,
    terms: &Terms,
    claim: &Claim,
    acc: Acc,
) -> Result<Outcome, AllocError>
    ensures { IfOk result (λ outcome. outcome ≡ outcome_of terms.now.plan claim.now acc) }
{
    let plan = terms.plan();
    assert!(rt; plan.roles().is_some());
    assert!(rt; claim.is_of(plan));
    decide(alloc, plan, claim, acc)
}

fn settled_once(
    rt: &impl Abort,
    alloc: Global,
    terms: &Terms,
    job: &Job,
) -> Result<BoxedOutcome, AllocError>
    ensures { IfOk result
        (λ outcome. outcome ≡ outcome_of terms.now.plan job.now.claim job.now.acc) }
{
    let outcome = decide_once(rt, alloc, terms, job.claim.as_claim(), job.acc)?;
    Ok(BoxedOutcome::new(alloc, outcome)?)
}

/// Returns the outcome of a job. If memory runs out, the settlement is repeated once.
pub fn decide_job(rt: &impl Abort, alloc: Global, terms: &Terms, job: &Job) -> BoxedOutcome
    ensures { result ≡ outcome_of terms.now.plan job.now.claim job.now.acc }
{
    match settled_once(rt, alloc, terms, job) {
        Ok(outcome) => outcome,
        Err(_) => settled_once(rt, alloc, terms, job).expect(rt, "memory for an outcome"),
    }
}

/// Copies a job. If memory runs out, the call is repeated once.
pub fn copy_of(rt: &impl Abort, alloc: Global, job: &Job) -> Job
    ensures { result ≡ job.now }
{
    match job.again(alloc) {
        Ok(copy) => copy,
        Err(_) => job.again(alloc).expect(rt, "memory for a copy"),
    }
}

fn finish<G: Gate>(
    rt: &(impl Abort + Wait),
    alloc: Global,
    terms: &Terms,
    gate: &G,
    pass: G::Pass,
    job: Job,
    paid: i64,
) -> Turn<G::Pass>
    requires caller { IsCaller (G.has_pass gate.now) G.known terms.now pass }
    requires at_work { IsAtWork (G.known pass).seen job }
    ensures { IsSeated (G.has_pass gate.now) G.known terms.now result.seat.pass result.seat.job }
{
    jobs_are_stable();
    let spare = copy_of(rt, alloc, &job);
    let outcome = decide_job(rt, alloc, terms, &job);
    expects(rt, is_paid(outcome.outcome(), paid), "the paid amount");
    let served = match gate.finish(rt, pass, job, outcome) {
        Ok(served) => served,
        Err(worn) => {
            let WornOut { pass, value } = worn;
            return Turn {
                said: worn_outcome(rt, value, &spare, paid),
                seat: Seat {
                    pass,
                    job: Some(spare),
                },
            };
        }
    };
    let Served { reply, pass } = served;
    Turn {
        said: finish_reply(rt, reply, &spare, paid),
        seat: Seat {
            pass,
            job: Some(spare),
        },
    }
}

fn stop<G: Gate>(rt: &impl Wait, terms: &Terms, gate: &G, seat: Seat<G::Pass>) -> Turn<G::Pass>
    requires { IsSeated (G.has_pass gate.now) G.known terms.now seat.pass seat.job }
    ensures { IsSeated (G.has_pass gate.now) G.known terms.now result.seat.pass result.seat.job }
{
    jobs_are_stable();
    let _plan = terms.plan();
    let Seat { pass, job } = seat;
    let pass = match gate.stop(rt, pass) {
        Ok(pass) => pass,
        Err(worn) => return Turn {
            said: Said::worn(),
            seat: Seat {
                pass: worn.pass,
                job,
            },
        },
    };
    Turn {
        said: Said::word("done"),
        seat: Seat { pass, job },
    }
}

/// Asks the gate for its counts, and whether they are these.
pub fn ask_counts<G: Gate>(
    rt: &impl Wait,
    terms: &Terms,
    gate: &G,
    seat: Seat<G::Pass>,
    wanted: Counts,
) -> Turn<G::Pass>
    requires { IsSeated (G.has_pass gate.now) G.known terms.now seat.pass seat.job }
    ensures { IsSeated (G.has_pass gate.now) G.known terms.now result.seat.pass result.seat.job }
{
    jobs_are_stable();
    let _plan = terms.plan();
    let Seat { pass, job } = seat;
    let served = match gate.counts(rt, pass) {
        Ok(served) => served,
        Err(worn) => return Turn {
            said: Said::worn(),
            seat: Seat {
                pass: worn.pass,
                job,
            },
        },
    };
    let Served { reply, pass } = served;
    Turn {
        said: Said::is_so(reply == wanted),
        seat: Seat { pass, job },
    }
}

/// Returns the job of a caller that has one.
pub fn job_of(rt: &impl Abort, job: Option<Job>) -> Job
    ensures { job ≡ Some result }
{
    match job {
        Some(job) => job,
        None => fail(rt, "a job"),
    }
}

/// Makes a call.
pub fn make<G: Gate>(
    rt: &(impl Abort + Wait),
    alloc: Global,
    terms: &Terms,
    gate: &G,
    seat: Seat<G::Pass>,
    call: Call,
) -> Turn<G::Pass>
    requires { IsSeated (G.has_pass gate.now) G.known terms.now seat.pass seat.job }
    ensures { IsSeated (G.has_pass gate.now) G.known terms.now result.seat.pass result.seat.job }
{
    match call {
        Call::Offer(provider, place, id) => {
            offer(rt, alloc, terms, gate, seat, (provider, place, id))
        }
        Call::End(provider, count) => end(rt, alloc, terms, gate, seat, provider, count),
        Call::Take => take(rt, terms, gate, seat),
        Call::Finish(paid) => {
            let Seat { pass, job } = seat;
            finish(rt, alloc, terms, gate, pass, job_of(rt, job), paid)
        }
        Call::Stop => stop(rt, terms, gate, seat),
        Call::Counts(accepted, ended, decided, closed, stopped) => {
            let wanted = Counts {
                accepted,
                ended,
                decided,
                closed,
                stopped,
            };
            ask_counts(rt, terms, gate, seat, wanted)
        }
        Call::Holds(id, amounts) => Turn {
            said: Said::is_so(is_job(&seat.job, id, amounts)),
            seat,
        },
    }
}
