//! The first fault, in the order of `RunFault`, of the threads of a run.
ghost use Rattle.std.specs.Prelude.{◌≡◌, ◌≢◌, ◌≤◌, IfSome, IfNone};
ghost use Rattle.faults.specs.RunFaultNumber.{number_of};
ghost use Rattle.gate_calls.specs.MetAlone.{IsMetAlone};
ghost use Rattle.faults.specs.declared.run_fault.RunFault.{RunFault};
ghost use Rattle.faults.specs.declared.run_fault.RunFault.TheVariants.{Workers, Stopped};

use faults::RunFault;
use std::sync::atomic::{AtomicU64, Ordering};

/// The fault with the least number that any thread has noted.
#[derive(Drop)]
pub struct LeastFault {
    number: AtomicU64,
}

impl LeastFault {
    /// Creates the record of a run without faults.
    pub fn new() -> LeastFault {
        LeastFault {
            number: AtomicU64::new(u64::MAX),
        }
    }

    /// Notes a fault.
    pub fn note(&self, fault: RunFault) {
        self.number
            .fetch_min(u64::from(fault.number()), Ordering::SeqCst);
    }

    /// Returns the caller's own fault or the noted one, whichever has the lesser number. A noted fault counts only where it is
    /// a thread's own, because each caller sees a stop of the run itself.
    pub fn least_with(&self, own: RunFault) -> RunFault
        ensures least { number_of result ≤ number_of own }
        ensures workers { result ≡ Workers → own ≡ Workers }
        ensures stopped { result ≡ Stopped → own ≡ Stopped }
    {
        let noted = self.number.load(Ordering::SeqCst);
        match met_alone(noted.min(u64::from(own.number()))) {
            Some(fault) => fault,
            None => own,
        }
    }
}

// Returns the fault with this number where it can be a thread's own.
fn met_alone(number: u64) -> Option<RunFault>
    ensures found { IfSome result (λ fault. (number_of fault ≡ number) × IsMetAlone fault) }
    ensures none { IfNone result
        ((fault : RunFault) → IsMetAlone fault → number_of fault ≢ number) }
{
    match number {
        2 => Some(RunFault::OutOfMemory),
        3 => Some(RunFault::Thread),
        4 => Some(RunFault::Worn),
        _ => None,
    }
}
