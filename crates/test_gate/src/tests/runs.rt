//! The runs of the tests: each makes its calls under the terms of a plan and of files, which are
//! given as texts.
ghost use Rattle.test_gate.specs.Words.{IsAnyOrder};

use super::filing::{plan_of, terms_of};
use super::locks::Play;
use super::meeting::meet_once;
use super::own_gate::own_calls;
use super::rivals::rivals;
use claim_gate::Terms;
use std::alloc::Global;
use std::process::Abort;
use std::sync::Wait;
use std::thread::Threads;

/// The calls that a run makes.
#[derive(Clone, Copy)]
pub enum Calls {
    CallOwnGate,
    Meet,
    OfferByTwoThreads,
    Play(Play),
}

impl Calls {
    fn make<R: Threads + Wait + Abort + Sync>(self, rt: &R, alloc: Global, terms: &Terms)
        requires { IsAnyOrder terms.now }
    {
        match self {
            Calls::CallOwnGate => own_calls(rt, alloc, terms),
            Calls::Meet => meet_once(rt, alloc, terms),
            Calls::OfferByTwoThreads => rivals(rt, alloc, terms),
            Calls::Play(play) => play.calls(rt, alloc, terms),
        }
    }
}

/// Makes the calls under terms without balances.
pub fn run<R: Threads + Wait + Abort + Sync>(
    rt: &R,
    alloc: Global,
    plan: &str,
    files: &[&[u8]],
    cutoff: Option<u64>,
    calls: Calls,
) {
    let plan = plan_of(rt, alloc, plan.as_bytes());
    let terms = terms_of(rt, alloc, &plan, files, cutoff);
    calls.make(rt, alloc, &terms);
    drop(terms);
    drop(plan);
}
