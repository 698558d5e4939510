//! The work of a worker thread, which decides claims.
ghost use Rattle.std.specs.Prelude.{◌≡◌, [], true, map, IsSome, IfOk, IfErr};
ghost use Rattle.std.specs.List.{All};
ghost use Rattle.settlement.specs.Claim.{IsClaimOf};
ghost use Rattle.journal.specs.Events.{has_decision};
ghost use Rattle.journal.specs.Lawful.{Finished};
ghost use Rattle.claim_gate.specs.Terms.{ForTerms};
ghost use Rattle.gate_calls.specs.Passes.{GoesOn, LeavesWith};
ghost use Rattle.gate_calls.specs.Sharing.{IsGathered, IsRecordedIn, IsSettledIn, IsTask, settled_by};

use crate::shared::{Exit, Onward, Shared};
use crate::stopping::ATTEMPTS;
use claim_gate::{
    BoxedClaim, BoxedOutcome, DecidedJob, FinishFault, Gate, Job, Refused, Served, Taken,
    claim_lists_exist,
};
use cutplan::CutPlan;
use faults::RunFault;
use gate_batching::{BatchTurn, TAKES_LIMIT};
use intake_csv::claims_have_the_plan_s_fields;
use journal::jobs_are_stable;
use settlement::Adjudicator;
use std::alloc::{AllocError, Global};
use std::sync::Wait;
use std::sync::atomic::Ordering;

/// The next step of a worker.
enum Task {
    /// The worker leaves, since the journal is finished.
    Over,
    /// The worker decides this claim.
    Work(Job),
    /// The worker asks again later, since no claim can be taken now.
    NothingReady,
}

/// The result of a worker's calls in one turn.
enum TakenJobs {
    /// The journal is finished.
    Over,
    /// The worker has taken these claims, perhaps none.
    Jobs(Vec<Job>),
}

/// Takes and decides claims until the journal is finished. The claims of a turn are decided after it, while another thread has
/// its turn.
pub fn run_worker<R: Wait, G: Gate>(
    shared: &Shared<R, G>,
    mut pass: G::Pass,
) -> Result<G::Pass, Exit<G::Pass>>
    requires plan { shared.now.plan.now ≡ shared.now.terms.now.plan }
    requires own { G.has_pass shared.now.gate.now pass }
    requires terms { (G.known pass).seen.terms ≡ shared.now.terms.now }
    ensures goes_on { IfOk result (GoesOn (G.has_pass shared.now.gate.now) G.known pass) }
    ensures finished { IfOk result
        (λ p. ForTerms shared.now.terms.now (λ T. Finished T (G.known p).seen.journal)) }
    ensures leaves { IfErr result
        (LeavesWith (G.has_pass shared.now.gate.now) G.is_worn G.known pass) }
{
    // proof: the plan is valid.
    let _plan = shared.terms.plan();
    let Ok(mut adjudicator) = Adjudicator::new(shared.alloc, shared.plan) else {
        return Err(Exit {
            fault: RunFault::OutOfMemory,
            pass,
        });
    };
    let mut settled = Vec::new(shared.alloc);
    let mut rests = 0;
    let mut limit = TAKES_LIMIT;
    for _ in shared.rt.forever() {
        let onward = match take_turn(shared, pass, settled, limit) {
            Ok(onward) => onward,
            Err(exit) => return Err(exit),
        };
        let Onward { value, pass: back } = onward;
        let jobs = match value {
            TakenJobs::Over => return Ok(back),
            TakenJobs::Jobs(jobs) => jobs,
        };
        if jobs.is_empty() {
            rests = shared.turns.rest(shared.rt, rests);
        } else {
            rests = 0;
            limit = shared.turns.next_limit(limit, jobs.len());
        }
        let Ok(decided) = decide_all(shared.alloc, &mut adjudicator, jobs) else {
            return Err(Exit {
                fault: RunFault::OutOfMemory,
                pass: back,
            });
        };
        shared
            .decided
            .fetch_add(decided.len() as u64, Ordering::Relaxed);
        settled = decided;
        pass = back;
    }
    unreachable!()
}

// Records the outcomes of the last turn and takes up to `limit` claims, in one turn. To keep the turn short, memory for as many
// claims as in the last turn is allocated before it, and the decided claims are kept for others after it.
fn take_turn<R: Wait, G: Gate>(
    shared: &Shared<R, G>,
    pass: G::Pass,
    settled: Vec<DecidedJob>,
    limit: usize,
) -> Result<Onward<TakenJobs, G::Pass>, Exit<G::Pass>>
    requires own { G.has_pass shared.now.gate.now pass }
    requires terms { (G.known pass).seen.terms ≡ shared.now.terms.now }
    requires settled { All (IsSettledIn (G.known pass).seen) settled.items }
    ensures goes_on { IfOk result
        (λ r. GoesOn (G.has_pass shared.now.gate.now) G.known pass r.pass) }
    ensures recorded { IfOk result
        (λ r. All (IsRecordedIn (G.known r.pass).seen) settled.items) }
    ensures gathered { IfOk result (λ r. IsGathered limit (G.known r.pass) r.value) }
    ensures leaves { IfErr result
        (LeavesWith (G.has_pass shared.now.gate.now) G.is_worn G.known pass) }
{
    let Ok(jobs) = Vec::with_capacity(shared.alloc, settled.len()) else {
        return Err(Exit {
            fault: RunFault::OutOfMemory,
            pass,
        });
    };
    let Ok(mut released) = Vec::with_capacity(shared.alloc, settled.len()) else {
        return Err(Exit {
            fault: RunFault::OutOfMemory,
            pass,
        });
    };
    let turn = shared.turns.begin(shared.rt);
    let pass = match record_all(shared, pass, settled, &mut released) {
        Ok(pass) => pass,
        Err(exit) => return Err(exit),
    };
    let gathered = gather(shared, pass, jobs, limit, turn);
    shared.spare.put(shared.rt, released);
    gathered
}

// Takes claims, one call after another, until none is ready or the turn has reached its limit.
fn gather<R: Wait, G: Gate>(
    shared: &Shared<R, G>,
    mut pass: G::Pass,
    mut jobs: Vec<Job>,
    limit: usize,
    turn: BatchTurn,
) -> Result<Onward<TakenJobs, G::Pass>, Exit<G::Pass>>
    requires own { G.has_pass shared.now.gate.now pass }
    requires terms { (G.known pass).seen.terms ≡ shared.now.terms.now }
    requires none { jobs.items ≡ [] }
    ensures goes_on { IfOk result
        (λ r. GoesOn (G.has_pass shared.now.gate.now) G.known pass r.pass) }
    ensures gathered { IfOk result (λ r. IsGathered limit (G.known r.pass) r.value) }
    ensures leaves { IfErr result
        (LeavesWith (G.has_pass shared.now.gate.now) G.is_worn G.known pass) }
{
    // proof: a job is a job in every later state of the gate.
    jobs_are_stable();
    'calls: for call in 0..limit {
        let onward = match take(shared, pass) {
            Ok(onward) => onward,
            Err(exit) => return Err(exit),
        };
        let Onward { value, pass: back } = onward;
        match value {
            Task::Over => return Ok(Onward {
                value: TakenJobs::Over,
                pass: back,
            }),
            Task::NothingReady => return Ok(Onward {
                value: TakenJobs::Jobs(jobs),
                pass: back,
            }),
            Task::Work(job) => {
                turn.count_taken();
                let Ok(()) = jobs.push(job) else {
                    return Err(Exit {
                        fault: RunFault::OutOfMemory,
                        pass: back,
                    });
                };
            }
        }
        pass = back;
    }
    Ok(Onward {
        value: TakenJobs::Jobs(jobs),
        pass,
    })
}

// Takes a claim, in at most `ATTEMPTS` calls.
fn take<R: Wait, G: Gate>(
    shared: &Shared<R, G>,
    mut pass: G::Pass,
) -> Result<Onward<Task, G::Pass>, Exit<G::Pass>>
    requires own { G.has_pass shared.now.gate.now pass }
    requires terms { (G.known pass).seen.terms ≡ shared.now.terms.now }
    ensures goes_on { IfOk result
        (λ r. GoesOn (G.has_pass shared.now.gate.now) G.known pass r.pass) }
    ensures task { IfOk result (λ r. IsTask (G.known r.pass) r.value) }
    ensures leaves { IfErr result
        (LeavesWith (G.has_pass shared.now.gate.now) G.is_worn G.known pass) }
{
    // proof: the claim files have lists of claims, whose claims have the plan's fields.
    claim_lists_exist(shared.terms);
    claims_have_the_plan_s_fields();
    let _names = shared.terms.plan().names();
    'tries: for _ in 0..ATTEMPTS {
        let served = match shared.gate.take(shared.rt, pass) {
            Ok(served) => served,
            Err(worn) => return Err(Exit {
                fault: RunFault::Worn,
                pass: worn.pass,
            }),
        };
        let Served { reply, pass: after } = served;
        match reply {
            Ok(Taken::Over) => return Ok(Onward {
                value: Task::Over,
                pass: after,
            }),
            Ok(Taken::Work(job)) => return Ok(Onward {
                value: Task::Work(job),
                pass: after,
            }),
            Ok(Taken::NothingReady) => {
                return Ok(Onward {
                    value: Task::NothingReady,
                    pass: after,
                });
            }
            Ok(Taken::Stopped) => return Err(Exit {
                fault: RunFault::Stopped,
                pass: after,
            }),
            Err(_) => pass = after,
        }
    }
    Err(Exit {
        fault: RunFault::OutOfMemory,
        pass,
    })
}

fn decide_all<'v, 'p>(
    alloc: Global,
    adjudicator: &mut Adjudicator<'v, CutPlan<'p>>,
    jobs: Vec<Job>,
) -> Result<Vec<DecidedJob>, AllocError>
    requires roles { IsSome adjudicator.old.roles }
    requires fields { All (λ job. IsClaimOf adjudicator.old job.claim) jobs.items }
    ensures plan { adjudicator.new ≡ adjudicator.old }
    ensures settled { IfOk result
        (λ settled. settled.items ≡ map (settled_by adjudicator.old) jobs.items) }
{
    let mut settled = Vec::with_capacity(alloc, jobs.len())?;
    for job in jobs {
        let one = settle(alloc, adjudicator, job)?;
        settled.push(one)?;
    }
    Ok(settled)
}

// Decides a claim and moves its outcome to the heap, outside the critical section.
fn settle<'v, 'p>(
    alloc: Global,
    adjudicator: &mut Adjudicator<'v, CutPlan<'p>>,
    job: Job,
) -> Result<DecidedJob, AllocError>
    requires roles { IsSome adjudicator.old.roles }
    requires fields { IsClaimOf adjudicator.old job.claim }
    ensures plan { adjudicator.new ≡ adjudicator.old }
    ensures settled { IfOk result (λ settled. settled ≡ settled_by adjudicator.old job) }
{
    let outcome = adjudicator.decide(alloc, job.claim.as_claim(), job.acc)?;
    let outcome = BoxedOutcome::new(alloc, outcome)?;
    Ok(DecidedJob { job, outcome })
}

// Records outcomes, one call after another. Their claims go into `released`, to be dropped after the turn.
fn record_all<R: Wait, G: Gate>(
    shared: &Shared<R, G>,
    mut pass: G::Pass,
    settled: Vec<DecidedJob>,
    released: &mut Vec<BoxedClaim>,
) -> Result<G::Pass, Exit<G::Pass>>
    requires own { G.has_pass shared.now.gate.now pass }
    requires terms { (G.known pass).seen.terms ≡ shared.now.terms.now }
    requires settled { All (IsSettledIn (G.known pass).seen) settled.items }
    ensures goes_on { IfOk result (GoesOn (G.has_pass shared.now.gate.now) G.known pass) }
    ensures recorded { IfOk result (λ p. All (IsRecordedIn (G.known p).seen) settled.items) }
    ensures leaves { IfErr result
        (LeavesWith (G.has_pass shared.now.gate.now) G.is_worn G.known pass) }
{
    // proof: a job is a job in every later state of the gate.
    jobs_are_stable();
    for one in settled {
        pass = match record(shared, pass, one, released) {
            Ok(pass) => pass,
            Err(exit) => return Err(exit),
        };
    }
    Ok(pass)
}

// Records an outcome, in at most `ATTEMPTS` calls. Another caller may have recorded it already.
fn record<R: Wait, G: Gate>(
    shared: &Shared<R, G>,
    mut pass: G::Pass,
    settled: DecidedJob,
    released: &mut Vec<BoxedClaim>,
) -> Result<G::Pass, Exit<G::Pass>>
    requires own { G.has_pass shared.now.gate.now pass }
    requires terms { (G.known pass).seen.terms ≡ shared.now.terms.now }
    requires settled { IsSettledIn (G.known pass).seen settled }
    ensures goes_on { IfOk result (GoesOn (G.has_pass shared.now.gate.now) G.known pass) }
    ensures decided { IfOk result
        (λ p. has_decision (G.known p).seen.journal settled.job.position ≡ true) }
    ensures leaves { IfErr result
        (LeavesWith (G.has_pass shared.now.gate.now) G.is_worn G.known pass) }
{
    // proof: the claim files have lists of claims, and a job is a job in every later state of the gate.
    claim_lists_exist(shared.terms);
    jobs_are_stable();
    let DecidedJob {
        mut job,
        mut outcome,
    } = settled;
    'tries: for _ in 0..ATTEMPTS {
        let served = match shared.gate.finish(shared.rt, pass, job, outcome) {
            Ok(served) => served,
            Err(worn) => return Err(Exit {
                fault: RunFault::Worn,
                pass: worn.pass,
            }),
        };
        let Served { reply, pass: after } = served;
        let refused = match reply {
            Ok(recorded) => {
                // Without memory for the list, the claim is dropped here.
                let _ = released.push(recorded.claim);
                return Ok(after);
            }
            Err(refused) => refused,
        };
        let Refused { fault, value } = refused;
        match fault {
            FinishFault::AlreadyDecided => return Ok(after),
            FinishFault::Stopped => return Err(Exit {
                fault: RunFault::Stopped,
                pass: after,
            }),
            FinishFault::OutOfMemory => {
                let DecidedJob {
                    job: again,
                    outcome: same,
                } = value;
                (pass, job, outcome) = (after, again, same);
            }
        }
    }
    Err(Exit {
        fault: RunFault::OutOfMemory,
        pass,
    })
}
