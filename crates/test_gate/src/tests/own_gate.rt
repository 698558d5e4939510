//! A host's own gate. A host writes what it needs of a gate around another one, with no call beside
//! those of the trait: this gate counts its calls and leaves the rest to a gate in a lock.
ghost use Rattle.std.specs.Prelude.{◌≡◌, IfSome};
ghost use Rattle.test_gate.specs.Words.{IsAnyOrder};

use super::expects;
use super::locks::{by_tickets, check_ending, retire_gate};
use super::play::play;
use super::runs::{Calls, run};
use super::scripts::{one_file, only_script};
use claim_gate::{
    BoxedOutcome, Counts, DecidedJob, EndFault, Ended, FinishResult, Gate, Job, LockedGate, Offer,
    OfferResult, SerialGate, Served, TakeFault, Taken, Terms, WornOut,
};
use std::alloc::Global;
use std::process::Abort;
use std::sync::Wait;
use std::sync::atomic::{AtomicU64, Ordering};
use test_fixtures::health_plan;
use turn_lock::Section;

// A gate that counts its calls.
#[derive(Drop)]
struct CountedGate<G> {
    gate: G,
    calls: AtomicU64,
}

impl<G> CountedGate<G> {
    fn over(gate: G) -> CountedGate<G>
        ensures { result.gate ≡ gate }
    {
        let calls = AtomicU64::new(0);
        CountedGate { gate, calls }
    }

    fn count(&self) {
        self.calls.fetch_add(1, Ordering::SeqCst);
    }
}

impl<G: Gate> Gate for CountedGate<G> {
    type Pass = G::Pass;

    ghost has_pass = { λ counted pass. G.has_pass counted.gate pass };

    ghost known = { λ pass. G.known pass };

    ghost is_worn = { λ pass. G.is_worn pass };

    fn split(&self, pass: G::Pass) -> (G::Pass, G::Pass) {
        self.gate.split(pass)
    }

    fn offer<R: Wait>(
        &self,
        rt: &R,
        pass: G::Pass,
        offer: Offer,
    ) -> Result<Served<OfferResult, G::Pass>, WornOut<G::Pass, Offer>> {
        self.count();
        self.gate.offer(rt, pass, offer)
    }

    fn end<R: Wait>(
        &self,
        rt: &R,
        pass: G::Pass,
        provider: usize,
        count: usize,
    ) -> Result<Served<Result<Ended, EndFault>, G::Pass>, WornOut<G::Pass>> {
        self.count();
        self.gate.end(rt, pass, provider, count)
    }

    fn take<R: Wait>(
        &self,
        rt: &R,
        pass: G::Pass,
    ) -> Result<Served<Result<Taken, TakeFault>, G::Pass>, WornOut<G::Pass>> {
        self.count();
        self.gate.take(rt, pass)
    }

    fn finish<R: Wait>(
        &self,
        rt: &R,
        pass: G::Pass,
        job: Job,
        outcome: BoxedOutcome,
    ) -> Result<Served<FinishResult, G::Pass>, WornOut<G::Pass, DecidedJob>> {
        self.count();
        self.gate.finish(rt, pass, job, outcome)
    }

    fn stop<R: Wait>(&self, rt: &R, pass: G::Pass) -> Result<G::Pass, WornOut<G::Pass>> {
        self.count();
        self.gate.stop(rt, pass)
    }

    fn counts<R: Wait>(
        &self,
        rt: &R,
        pass: G::Pass,
    ) -> Result<Served<Counts, G::Pass>, WornOut<G::Pass>> {
        self.count();
        self.gate.counts(rt, pass)
    }
}

// Goes through a script of nine calls. Returns the sequential gate.
fn calls_over<S: Section + Drop>(
    rt: &(impl Abort + Wait),
    alloc: Global,
    terms: &Terms,
    lock: S,
    pass: S::Pass,
) -> Option<S::Value>
where
    S::Value: SerialGate + Drop,
    S::Pass: Send + Drop,
    requires any_order { IsAnyOrder terms.now }
    requires own { S.has_pass lock pass }
    requires terms { (S.Value.shown (S.seen pass)).terms ≡ terms.now }
    ensures { IfSome result (λ state. (S.Value.shown state).terms ≡ terms.now) }
{
    let counted = CountedGate::over(LockedGate::over(lock));
    let passes = counted.split(pass);
    let (pass, _other) = play(rt, alloc, terms, &counted, passes, only_script().lines);
    expects(rt, counted.calls.load(Ordering::SeqCst) == 9, "nine calls");
    let state = retire_gate(rt, terms, &counted.gate, pass);
    drop(counted);
    state
}

pub fn own_calls(rt: &(impl Abort + Wait), alloc: Global, terms: &Terms)
    requires { IsAnyOrder terms.now }
{
    let (lock, pass) = by_tickets(rt, alloc, terms, 0);
    let state = calls_over(rt, alloc, terms, lock, pass);
    check_ending(rt, terms, state, only_script().ending)
}

#[test]
fn a_hosts_own_gate(rt: HostRuntime) {
    run(
        &rt,
        rt.alloc(),
        health_plan(),
        one_file(),
        None,
        Calls::CallOwnGate,
    );
}
