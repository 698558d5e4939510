//! The replies of a gate as those of a script. What a refused call gives back is compared with what
//! was given to it.
ghost use Rattle.test_gate.specs.Words.{IsLastJob};

use super::expects;
use super::filing::is_offer;
use super::lines::Said;
use claim_gate::{
    DecidedJob, EndFault, Ended, FinishFault, FinishResult, Job, Offer, OfferFault, OfferResult,
    TakeFault, Taken,
};
use settlement::{Acc, Outcome, Verdict};
use std::process::Abort;

fn offer_refusal(fault: OfferFault) -> Said {
    match fault {
        OfferFault::Stopped => Said::word("stopped"),
        OfferFault::Closed => Said::word("closed"),
        OfferFault::OutOfTurn { expected } => Said::with_number("out of turn", expected),
        OfferFault::OutOfMemory => Said::word("out of memory"),
    }
}

/// The reply to an offer. A refused offer must come back.
pub fn offer_reply(
    rt: &impl Abort,
    reply: OfferResult,
    provider: usize,
    place: usize,
    id: &str,
) -> Said {
    match reply {
        Ok(accepted) => Said::with_number("at", accepted.position),
        Err(refused) => {
            let same = is_offer(refused.value, provider, place, id);
            expects(rt, same, "the offer");
            offer_refusal(refused.fault)
        }
    }
}

/// The reply to an offer for which no ticket is left. The offer must come back.
pub fn worn_offer(rt: &impl Abort, back: Offer, provider: usize, place: usize, id: &str) -> Said {
    expects(rt, is_offer(back, provider, place, id), "the offer");
    Said::worn()
}

/// The reply to an end.
pub fn end_reply(reply: Result<Ended, EndFault>) -> Said {
    match reply {
        Ok(_) => Said::word("ended"),
        Err(EndFault::Stopped) => Said::word("stopped"),
        Err(EndFault::Closed) => Said::word("closed"),
        Err(EndFault::OutOfTurn { expected }) => Said::with_number("out of turn", expected),
        Err(EndFault::AlreadyEnded) => Said::word("already"),
        Err(EndFault::OutOfMemory) => Said::word("out of memory"),
    }
}

/// The reply to `take`, and the job that the caller has now.
#[derive(Drop)]
pub struct LastJob {
    pub said: Said,
    pub job: Option<Job>,
}

/// The reply to `take`, and the job in it, or the job of before if there is none in it.
pub fn take_reply(reply: Result<Taken, TakeFault>, before: Option<Job>) -> LastJob
    ensures { IsLastJob reply before result.job }
{
    match reply {
        Ok(Taken::Work(job)) => LastJob {
            said: Said::with_number("job", job.position),
            job: Some(job),
        },
        Ok(Taken::Over) => LastJob {
            said: Said::word("over"),
            job: before,
        },
        Ok(Taken::NothingReady) => LastJob {
            said: Said::word("nothing"),
            job: before,
        },
        Ok(Taken::Stopped) => LastJob {
            said: Said::word("stopped"),
            job: before,
        },
        Err(_) => LastJob {
            said: Said::word("out of memory"),
            job: before,
        },
    }
}

fn finish_refusal(fault: FinishFault) -> Said {
    match fault {
        FinishFault::Stopped => Said::word("stopped"),
        FinishFault::AlreadyDecided => Said::word("already"),
        FinishFault::OutOfMemory => Said::word("out of memory"),
    }
}

/// The reply to an outcome. The claim of a recorded outcome, or the refused job with its outcome,
/// must come back.
pub fn finish_reply(rt: &impl Abort, reply: FinishResult, job: &Job, paid: i64) -> Said {
    match reply {
        Ok(recorded) => {
            let claim = recorded.claim.as_claim();
            expects(
                rt,
                claim.id.as_str() == job.claim.as_claim().id.as_str(),
                "the claim",
            );
            Said::word("recorded")
        }
        Err(refused) => {
            expects(
                rt,
                is_back(refused.value, job, paid),
                "the job and its outcome",
            );
            finish_refusal(refused.fault)
        }
    }
}

/// The reply to an outcome for which no ticket is left. The job and the outcome must come back.
pub fn worn_outcome(rt: &impl Abort, back: DecidedJob, job: &Job, paid: i64) -> Said {
    expects(rt, is_back(back, job, paid), "the job and its outcome");
    Said::worn()
}

fn is_back(back: DecidedJob, job: &Job, paid: i64) -> bool {
    back.job.position == job.position
        && back.job.claim.as_claim().id.as_str() == job.claim.as_claim().id.as_str()
        && is_paid(back.outcome.outcome(), paid)
}

/// Returns whether an outcome pays this amount.
pub fn is_paid(outcome: &Outcome, paid: i64) -> bool {
    matches!(outcome.verdict, Verdict::Paid) && outcome.paid.amount().units() == paid
}

/// Returns whether the claim of a job has this identifier, and its account these amounts.
pub fn is_job(job: &Option<Job>, id: &str, amounts: [i64; 5]) -> bool {
    match job {
        Some(job) => job.claim.as_claim().id.as_str() == id && has_amounts(job.acc, amounts),
        None => false,
    }
}

fn has_amounts(acc: Acc, amounts: [i64; 5]) -> bool {
    let [met, oop, paid, fmet, foop] = amounts;
    acc.met.amount().units() == met
        && acc.oop.amount().units() == oop
        && acc.paid.amount().units() == paid
        && acc.fmet.amount().units() == fmet
        && acc.foop.amount().units() == foop
}
