//! The outcome of a claim, as a journal stores it.
ghost use Rattle.std.specs.Prelude.{◌≡◌, IfOk};
ghost use Rattle.std.specs.Result.{IfErr};

use settlement::Outcome;
use std::alloc::{AllocFailed, Global};
use std::marker::Model;

/// The outcome of a claim, in a box. Contracts treat it as the outcome itself.
#[derive(Drop)]
pub struct BoxedOutcome {
    outcome: Box<Outcome>,
}

impl Model for BoxedOutcome {
    ghost use Rattle.std.specs.Prelude.{box_value};
    ghost use Rattle.settlement.specs.declared.outcome.Outcome.{Outcome};

    ghost Value = { Outcome };

    ghost view = { λ d. box_value d.outcome };
}

impl BoxedOutcome {
    /// Boxes the outcome.
    ///
    /// # Errors
    ///
    /// Returns the outcome if memory cannot be allocated.
    pub fn new(alloc: Global, outcome: Outcome) -> Result<BoxedOutcome, AllocFailed<Outcome>>
        ensures value { IfOk result (λ made. made ≡ outcome) }
        ensures back { IfErr result (λ failed. failed.value ≡ outcome) }
    {
        match Box::new(alloc, outcome) {
            Ok(outcome) => Ok(BoxedOutcome { outcome }),
            Err(failed) => Err(failed),
        }
    }

    /// Returns a reference to the outcome.
    pub fn outcome(&self) -> &Outcome
        ensures { result.now ≡ self.now }
    {
        &*self.outcome
    }
}
