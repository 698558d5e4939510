//! A sequential gate without a lock. Two callers call it in turn, each with a job of its own.
ghost use Rattle.std.specs.Prelude.{◌≡◌, IfSome};
ghost use Rattle.journal.specs.Gate.{LeadsTo};
ghost use Rattle.test_gate.specs.Words.{IsAnyOrder, IsAtWork};

use super::expects;
use super::filing::{gate_of, offer_at, read_all};
use super::lines::{Call, Caller, Line, Said, first_counts};
use super::replies::{LastJob, end_reply, finish_reply, is_job, is_paid, offer_reply, take_reply};
use super::seats::{copy_of, decide_job, job_of};
use claim_gate::{Counts, GateState, Job, Terms};
use journal::jobs_are_stable;
use std::alloc::Global;
use std::process::Abort;

#[tactic(auto, using(crate::proofs::Order::any_order))]
fn offer(
    rt: &impl Abort,
    alloc: Global,
    terms: &Terms,
    gate: &mut GateState,
    filed: (usize, usize, &str),
) -> Said
    requires any_order { IsAnyOrder terms.now }
    requires terms { gate.old.terms ≡ terms.now }
    ensures { LeadsTo gate.old gate.new }
{
    let (provider, place, id) = filed;
    let offer = offer_at(rt, alloc, terms, provider, place);
    offer_reply(rt, gate.offer(offer), provider, place, id)
}

fn end(
    rt: &impl Abort,
    alloc: Global,
    terms: &Terms,
    gate: &mut GateState,
    provider: usize,
    count: usize,
) -> Said
    requires { gate.old.terms ≡ terms.now }
    ensures { LeadsTo gate.old gate.new }
{
    read_all(rt, alloc, terms, provider, count);
    end_reply(gate.end(provider, count))
}

fn take(gate: &mut GateState, job: Option<Job>) -> LastJob
    requires { IfSome job (IsAtWork gate.old) }
    ensures leads { LeadsTo gate.old gate.new }
    ensures at_work { IfSome result.job (IsAtWork gate.new) }
{
    jobs_are_stable();
    take_reply(gate.take(), job)
}

fn finish(
    rt: &impl Abort,
    alloc: Global,
    terms: &Terms,
    gate: &mut GateState,
    job: Job,
    paid: i64,
) -> LastJob
    requires terms { gate.old.terms ≡ terms.now }
    requires at_work { IsAtWork gate.old job }
    ensures leads { LeadsTo gate.old gate.new }
    ensures at_work { IfSome result.job (IsAtWork gate.new) }
{
    jobs_are_stable();
    let spare = copy_of(rt, alloc, &job);
    let outcome = decide_job(rt, alloc, terms, &job);
    expects(rt, is_paid(outcome.outcome(), paid), "the paid amount");
    let reply = gate.finish(job, outcome);
    LastJob {
        said: finish_reply(rt, reply, &spare, paid),
        job: Some(spare),
    }
}

// Makes a call for a caller that has this job, if it has one.
fn make(
    rt: &impl Abort,
    alloc: Global,
    terms: &Terms,
    gate: &mut GateState,
    job: Option<Job>,
    call: Call,
) -> LastJob
    requires any_order { IsAnyOrder terms.now }
    requires terms { gate.old.terms ≡ terms.now }
    requires at_work { IfSome job (IsAtWork gate.old) }
    ensures leads { LeadsTo gate.old gate.new }
    ensures at_work { IfSome result.job (IsAtWork gate.new) }
{
    jobs_are_stable();
    match call {
        Call::Offer(provider, place, id) => LastJob {
            said: offer(rt, alloc, terms, gate, (provider, place, id)),
            job,
        },
        Call::End(provider, count) => LastJob {
            said: end(rt, alloc, terms, gate, provider, count),
            job,
        },
        Call::Take => take(gate, job),
        Call::Finish(paid) => finish(rt, alloc, terms, gate, job_of(rt, job), paid),
        Call::Stop => {
            gate.stop();
            LastJob {
                said: Said::word("done"),
                job,
            }
        }
        Call::Counts(accepted, ended, decided, closed, stopped) => {
            let wanted = Counts {
                accepted,
                ended,
                decided,
                closed,
                stopped,
            };
            LastJob {
                said: Said::is_so(gate.counts() == wanted),
                job,
            }
        }
        Call::Holds(id, amounts) => LastJob {
            said: Said::is_so(is_job(&job, id, amounts)),
            job,
        },
    }
}

// Makes the call of a line, and checks the reply. A call that runs out of memory is repeated once,
// after a check that the gate still has these counts, which it had before.
fn go(
    rt: &impl Abort,
    alloc: Global,
    terms: &Terms,
    gate: &mut GateState,
    job: Option<Job>,
    line: Line,
    before: Counts,
) -> Option<Job>
    requires any_order { IsAnyOrder terms.now }
    requires terms { gate.old.terms ≡ terms.now }
    requires at_work { IfSome job (IsAtWork gate.old) }
    ensures leads { LeadsTo gate.old gate.new }
    ensures at_work { IfSome result (IsAtWork gate.new) }
{
    let LastJob { said, job } = make(rt, alloc, terms, gate, job, line.1);
    if !said.is_out_of_memory() {
        line.check(rt, said);
        return job;
    }
    expects(rt, gate.counts() == before, "the counts of before");
    let LastJob { said, job } = make(rt, alloc, terms, gate, job, line.1);
    line.check(rt, said);
    job
}

// The jobs of the two callers.
#[derive(Drop)]
struct Jobs {
    one: Option<Job>,
    other: Option<Job>,
}

fn go_by(
    rt: &impl Abort,
    alloc: Global,
    terms: &Terms,
    gate: &mut GateState,
    jobs: Jobs,
    line: Line,
    before: Counts,
) -> Jobs
    requires any_order { IsAnyOrder terms.now }
    requires terms { gate.old.terms ≡ terms.now }
    requires one { IfSome jobs.one (IsAtWork gate.old) }
    requires other { IfSome jobs.other (IsAtWork gate.old) }
    ensures terms { gate.new.terms ≡ terms.now }
    ensures one { IfSome result.one (IsAtWork gate.new) }
    ensures other { IfSome result.other (IsAtWork gate.new) }
{
    jobs_are_stable();
    let Jobs { one, other } = jobs;
    match line.0 {
        Caller::One => Jobs {
            one: go(rt, alloc, terms, gate, one, line, before),
            other,
        },
        Caller::Other => Jobs {
            one,
            other: go(rt, alloc, terms, gate, other, line, before),
        },
    }
}

/// Goes through a script on a gate to which no claim was offered. Returns the gate.
pub fn play_alone<'t>(
    rt: &impl Abort,
    alloc: Global,
    terms: &'t Terms<'t>,
    script: &[Line],
) -> GateState<'t>
    requires { IsAnyOrder terms.now }
    ensures { result.terms ≡ terms.now }
{
    let mut gate = gate_of(rt, alloc, terms);
    gate.prefetch(&[]);
    let mut jobs = Jobs {
        one: None,
        other: None,
    };
    let mut counts = first_counts(terms);
    for entry in script {
        let line = *entry;
        jobs = go_by(rt, alloc, terms, &mut gate, jobs, line, counts);
        counts = line.counts_after(terms, counts);
    }
    drop(jobs);
    gate
}
