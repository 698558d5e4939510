//! A gate that observes how a run calls it, and that refuses or stops at the worst moment that a
//! gate may choose.

ghost use Rattle.std.specs.Prelude.{◌≡◌};

use super::met::Met;
use claim_gate::{
    BoxedOutcome, Counts, DecidedJob, EndFault, Ended, FinishFault, FinishResult, Gate, Job, Offer,
    OfferFault, OfferResult, Refused, Served, TakeFault, Taken, WornOut,
};
use settlement::Money;
use std::sync::Wait;
use std::sync::atomic::{AtomicU64, Ordering};
use std::thread;
use std::time::Duration;

/// The greatest number of loads of a wait, which is far more than any wait of these tests needs.
const LOOKS_LIMIT: u64 = 100_000_000;

/// The time for which a complete crowd waits for further calls, in milliseconds.
const LINGER_MILLIS: u64 = 100;

/// Calls that wait for each other until the wanted number of them is there.
#[derive(Drop)]
pub struct Crowd {
    wanted: u64,
    inside: AtomicU64,
    most: AtomicU64,
    numbers: AtomicU64,
    open: AtomicU64,
}

impl Crowd {
    /// With 0 wanted calls, no call waits.
    fn of(wanted: u64) -> Crowd {
        Crowd {
            wanted,
            inside: AtomicU64::new(0),
            most: AtomicU64::new(0),
            numbers: AtomicU64::new(0),
            open: AtomicU64::new(0),
        }
    }

    // The last wanted call waits for further calls for a while, and then opens the crowd for all.
    // The calls before that leave their numbers.
    fn come<R: Wait>(&self, rt: &R, number: u64) {
        let inside = next_number(&self.inside);
        self.most.fetch_max(inside, Ordering::SeqCst);
        if self.open.load(Ordering::SeqCst) == 0 {
            self.numbers.fetch_add(number, Ordering::SeqCst);
            if inside == self.wanted {
                self.open
                    .park_timeout(rt, 0, Duration::from_millis(LINGER_MILLIS));
                self.open.store(1, Ordering::SeqCst);
            }
        }
        if inside < self.wanted {
            wait_for(&self.open, 1);
        }
    }

    fn go(&self) {
        self.inside.fetch_sub(1, Ordering::SeqCst);
    }

    /// Returns the greatest number of simultaneous calls.
    pub fn most(&self) -> u64 {
        self.most.load(Ordering::SeqCst)
    }

    /// Returns the sum of the numbers of the calls that met.
    pub fn numbers(&self) -> u64 {
        self.numbers.load(Ordering::SeqCst)
    }
}

// Waits until the word is at least `least`, but gives up after a very long time.
fn wait_for(word: &AtomicU64, least: u64) {
    for _ in 0..LOOKS_LIMIT {
        if word.load(Ordering::SeqCst) >= least {
            return;
        }
        thread::yield_now();
    }
}

// Counts a call, and returns its number, from 1.
fn next_number(count: &AtomicU64) -> u64 {
    count.fetch_add(1, Ordering::SeqCst).saturating_add(1)
}

/// The actions of a watched gate besides forwarding calls.
#[derive(Clone, Copy)]
pub struct Watch {
    /// The number of `take`s that wait for each other, or 0.
    pub takes: u64,
    /// The number of `offer`s that wait for each other, or 0.
    pub offers: u64,
    /// The number of the `take`, from 1, at which another caller stops the gate, or 0.
    pub stop_at_take: u64,
    /// Whether another caller stops the gate before each outcome is recorded.
    pub stops_outcomes: bool,
    /// The number of `take`s that must have reported the end of the run before an `end` is refused,
    /// or 0.
    pub overs_before_refused_ends: u64,
    /// The number of `offer`s before which no `take` is answered, or 0.
    pub offers_before_takes: u64,
    /// The number of first `offer`s that are refused as if memory had run out. The following fields
    /// have the same meaning for the other calls.
    pub refused_offers: u64,
    pub refused_ends: u64,
    pub refused_takes: u64,
    pub refused_outcomes: u64,
}

/// Returns the watch of a gate that only forwards calls.
pub fn nothing() -> Watch {
    Watch {
        takes: 0,
        offers: 0,
        stop_at_take: 0,
        stops_outcomes: false,
        overs_before_refused_ends: 0,
        offers_before_takes: 0,
        refused_offers: 0,
        refused_ends: 0,
        refused_takes: 0,
        refused_outcomes: 0,
    }
}

/// A gate that forwards its calls to another gate and observes them.
#[derive(Drop)]
pub struct WatchedGate<G> {
    gate: G,
    watch: Watch,
    takes: Crowd,
    offers: Crowd,
    offered: AtomicU64,
    ended: AtomicU64,
    taken: AtomicU64,
    finished: AtomicU64,
    overs: AtomicU64,
    handed_back: AtomicU64,
}

impl<G> WatchedGate<G> {
    pub fn over(gate: G, watch: Watch) -> WatchedGate<G>
        ensures { result.gate ≡ gate }
    {
        let takes = Crowd::of(watch.takes);
        let offers = Crowd::of(watch.offers);
        WatchedGate {
            gate,
            watch,
            takes,
            offers,
            offered: AtomicU64::new(0),
            ended: AtomicU64::new(0),
            taken: AtomicU64::new(0),
            finished: AtomicU64::new(0),
            overs: AtomicU64::new(0),
            handed_back: AtomicU64::new(0),
        }
    }

    /// Returns the gate to which calls are forwarded.
    pub fn inner(&self) -> &G
        ensures { result.now ≡ self.now.gate }
    {
        &self.gate
    }

    /// Returns what the gate has observed, with the fault of a run.
    pub fn met(&self, fault: u8, is_worn: bool) -> Met {
        Met {
            fault,
            is_worn,
            takes: self.takes.most(),
            offers: self.offers.most(),
            providers: self.offers.numbers(),
            handed_back: self.handed_back.load(Ordering::SeqCst),
        }
    }

    fn note_taken(&self, answer: &Result<Taken, TakeFault>) {
        if let Ok(Taken::Over) = answer {
            self.overs.fetch_add(1, Ordering::SeqCst);
        }
    }

    fn note_recorded(&self, answer: &FinishResult, position: usize, paid: Money) {
        if let Err(refused) = answer
            && matches!(refused.fault, FinishFault::Stopped)
            && refused.value.job.position == position
            && refused.value.outcome.outcome().paid == paid
        {
            self.handed_back.fetch_add(1, Ordering::SeqCst);
        }
    }
}

// A refused call requests the counts of the other gate, which is a critical section without effect.
// The gate is stopped by a pass that is split off.
impl<G: Gate> Gate for WatchedGate<G> {
    type Pass = G::Pass;

    ghost has_pass = { λ watched pass. G.has_pass watched.gate pass };

    ghost known = { λ pass. G.known pass };

    ghost is_worn = { λ pass. G.is_worn pass };

    fn split(&self, pass: G::Pass) -> (G::Pass, G::Pass) {
        self.gate.split(pass)
    }

    fn offer<R: Wait>(
        &self,
        rt: &R,
        pass: G::Pass,
        offer: Offer,
    ) -> Result<Served<OfferResult, G::Pass>, WornOut<G::Pass, Offer>> {
        if next_number(&self.offered) <= self.watch.refused_offers {
            return match self.gate.counts(rt, pass) {
                Ok(Served { pass, .. }) => Ok(Served {
                    reply: Err(Refused {
                        fault: OfferFault::OutOfMemory,
                        value: offer,
                    }),
                    pass,
                }),
                Err(WornOut { pass, .. }) => Err(WornOut { pass, value: offer }),
            };
        }
        self.offers.come(rt, offer.provider as u64);
        let answer = self.gate.offer(rt, pass, offer);
        self.offers.go();
        answer
    }

    fn end<R: Wait>(
        &self,
        rt: &R,
        pass: G::Pass,
        provider: usize,
        count: usize,
    ) -> Result<Served<Result<Ended, EndFault>, G::Pass>, WornOut<G::Pass>> {
        if next_number(&self.ended) > self.watch.refused_ends {
            return self.gate.end(rt, pass, provider, count);
        }
        wait_for(&self.overs, self.watch.overs_before_refused_ends);
        match self.gate.counts(rt, pass) {
            Ok(Served { pass, .. }) => Ok(Served {
                reply: Err(EndFault::OutOfMemory),
                pass,
            }),
            Err(worn) => Err(worn),
        }
    }

    fn take<R: Wait>(
        &self,
        rt: &R,
        pass: G::Pass,
    ) -> Result<Served<Result<Taken, TakeFault>, G::Pass>, WornOut<G::Pass>> {
        let number = next_number(&self.taken);
        if number <= self.watch.refused_takes {
            return match self.gate.counts(rt, pass) {
                Ok(Served { pass, .. }) => Ok(Served {
                    reply: Err(TakeFault::OutOfMemory),
                    pass,
                }),
                Err(worn) => Err(worn),
            };
        }
        wait_for(&self.offered, self.watch.offers_before_takes);
        let (pass, other) = self.gate.split(pass);
        if number == self.watch.stop_at_take {
            let _ = self.gate.stop(rt, other);
        }
        self.takes.come(rt, 0);
        let answer = self.gate.take(rt, pass);
        self.takes.go();
        if let Ok(served) = &answer {
            self.note_taken(&served.reply);
        }
        answer
    }

    fn finish<R: Wait>(
        &self,
        rt: &R,
        pass: G::Pass,
        job: Job,
        outcome: BoxedOutcome,
    ) -> Result<Served<FinishResult, G::Pass>, WornOut<G::Pass, DecidedJob>> {
        if next_number(&self.finished) <= self.watch.refused_outcomes {
            return match self.gate.counts(rt, pass) {
                Ok(Served { pass, .. }) => Ok(Served {
                    reply: Err(Refused {
                        fault: FinishFault::OutOfMemory,
                        value: DecidedJob { job, outcome },
                    }),
                    pass,
                }),
                Err(WornOut { pass, .. }) => Err(WornOut {
                    pass,
                    value: DecidedJob { job, outcome },
                }),
            };
        }
        let (position, paid) = (job.position, outcome.outcome().paid);
        let (pass, other) = self.gate.split(pass);
        if self.watch.stops_outcomes {
            let _ = self.gate.stop(rt, other);
        }
        let answer = self.gate.finish(rt, pass, job, outcome);
        if let Ok(served) = &answer {
            self.note_recorded(&served.reply, position, paid);
        }
        answer
    }

    fn stop<R: Wait>(&self, rt: &R, pass: G::Pass) -> Result<G::Pass, WornOut<G::Pass>> {
        self.gate.stop(rt, pass)
    }

    fn counts<R: Wait>(
        &self,
        rt: &R,
        pass: G::Pass,
    ) -> Result<Served<Counts, G::Pass>, WornOut<G::Pass>> {
        self.gate.counts(rt, pass)
    }
}
