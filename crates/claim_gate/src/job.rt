//! Claims that are being decided.
ghost use Rattle.std.specs.Prelude.{◌≡◌, IfOk};

use journal::{BoxedClaim, BoxedOutcome};
use settlement::Acc;
use std::alloc::{AllocError, Global};

/// A claim that the caller is to decide.
#[derive(Drop)]
pub struct Job {
    /// The claim's position, which is the number of claims that were accepted before it.
    pub position: usize,
    /// The claim.
    pub claim: BoxedClaim,
    /// Its account's accumulators after the earlier claims of its family.
    pub acc: Acc,
}

/// A job and its outcome.
#[derive(Drop)]
pub struct DecidedJob {
    /// The job.
    pub job: Job,
    /// The outcome.
    pub outcome: BoxedOutcome,
}

impl Job {
    /// Copies the job into new memory, so that its decision can be repeated.
    pub fn again(&self, alloc: Global) -> Result<Job, AllocError>
        ensures { IfOk result (λ copy. copy ≡ self.now) }
    {
        Ok(Job {
            position: self.position,
            claim: BoxedClaim::new(alloc, self.claim.as_claim().duplicate(alloc)?)?,
            acc: self.acc,
        })
    }
}
