//! A run by an intake thread for each provider's file and the given number of workers.
ghost use Rattle.std.specs.Prelude.{◌≡◌, ◌≢◌, ◌⊎◌, ◌↔◌, ◌<◌, ◌≤◌, ◌+◌, true, IsTrue, length, IfOk, IfErr, OnOk};
ghost use Rattle.std.specs.Thread.{IsSync};
ghost use Rattle.journal.specs.Lawful.{Finished};
ghost use Rattle.journal.specs.Events.{accepts};
ghost use Rattle.journal.specs.InOrder.{AreFirstInOrder};
ghost use Rattle.journal.specs.declared.order.Order.TheVariants.{Any};
ghost use Rattle.claim_gate.specs.Terms.{ForTerms};
ghost use Rattle.journal.specs.Gate.{LeadsTo};
ghost use Rattle.gate_calls.specs.Passes.{GoesOn, HasEnded, LeavesWith};
ghost use Rattle.crew.specs.Workers.{IsWorkerCount};
ghost use Rattle.faults.specs.declared.run_fault.RunFault.TheVariants.{Workers, Stopped};

use crate::fetching::{Fetching, GateFetching, NoFetching};
use crate::intake::run_intake_part;
use claim_gate::{
    Batch, Gate, GateState, LockedGate, SerialGate, SerialPrefetching, Terms, claim_lists_exist,
};
use cutplan::compile;
use faults::RunFault;
use gate_batching::GateBatching;
use gate_calls::{Exit, LeastFault, Shared, SpareClaims, run_worker, stop};
use journal::finished_is_final;
use std::alloc::Global;
use std::sync::Wait;
use std::sync::atomic::AtomicU64;
use std::thread;
use std::thread::Threads;
use turn_lock::{Section, TicketLock};

/// The maximum number of workers of a run.
pub const WORKERS_LIMIT: usize = 64;

/// Runs an intake thread for each provider's file and 1 to 64 workers, on a new gate that a ticket lock protects. Returns the
/// batch, whose journal is finished, and whose claims are accepted in the order that the terms ask for, if any. The calling
/// thread works as an additional worker. The faults are those of `run_with`.
pub fn run<'t, R: Threads + Wait + Sync>(
    rt: &R,
    alloc: Global,
    terms: &'t Terms,
    workers: usize,
) -> Result<Batch<'t>, RunFault>
    ensures terms { IfOk result (λ batch. batch.terms ≡ terms.now) }
    ensures finished { IfOk result (λ batch. ForTerms terms.now (λ T. Finished T batch.journal)) }
    ensures ordered { IfOk result (λ batch. terms.now.order ≢ Any → ForTerms terms.now
        (λ T. AreFirstInOrder terms.now.order T.files (accepts batch.journal))) }
    ensures workers { OnOk result (IsWorkerCount workers) }
    ensures refused { IfErr result (λ fault. (fault ≡ Workers) ↔ (¬ IsWorkerCount workers)) }
{
    let decided = AtomicU64::new(0);
    run_watched(rt, alloc, terms, workers, &decided)
}

/// Runs as `run` does. After each batch of claims, a worker adds the number of those that it has decided to `decided`, which
/// another thread may watch.
pub fn run_watched<'t, R: Threads + Wait + Sync>(
    rt: &R,
    alloc: Global,
    terms: &'t Terms,
    workers: usize,
    decided: &AtomicU64,
) -> Result<Batch<'t>, RunFault>
    ensures terms { IfOk result (λ batch. batch.terms ≡ terms.now) }
    ensures finished { IfOk result (λ batch. ForTerms terms.now (λ T. Finished T batch.journal)) }
    ensures ordered { IfOk result (λ batch. terms.now.order ≢ Any → ForTerms terms.now
        (λ T. AreFirstInOrder terms.now.order T.files (accepts batch.journal))) }
    ensures workers { OnOk result (IsWorkerCount workers) }
    ensures refused { IfErr result (λ fault. (fault ≡ Workers) ↔ (¬ IsWorkerCount workers)) }
{
    if !may_have(workers) {
        return Err(RunFault::Workers);
    }
    // proof: the claim files have lists of claims, so a statement about all such lists is not empty.
    claim_lists_exist(terms);
    // In a box the lock moves the gate as one pointer.
    let Ok(state) = GateState::new(alloc, terms) else {
        return Err(RunFault::OutOfMemory);
    };
    let Ok(state) = Box::new(alloc, state) else {
        return Err(RunFault::OutOfMemory);
    };
    let Ok((lock, pass)) = TicketLock::new(alloc, state) else {
        return Err(RunFault::OutOfMemory);
    };
    let state = match run_after_new(rt, alloc, terms, workers, lock, pass, decided) {
        Ok(state) => state,
        Err(fault) => return Err(fault),
    };
    let state = Box::into_inner(state);
    // proof: the claims are accepted in the order that the terms ask for.
    let _ordered = state.journal();
    match Batch::from_state(state, terms) {
        Ok(batch) => Ok(batch),
        Err(_) => unreachable!(),
    }
}

fn may_have(workers: usize) -> bool
    ensures { IsTrue result ↔ IsWorkerCount workers }
{
    1 <= workers && workers <= WORKERS_LIMIT
}

// Runs on the gate that this lock protects, and takes the gate out of the lock.
fn run_after_new<S: Section + Drop + Sync, R: Threads + Wait + Sync>(
    rt: &R,
    alloc: Global,
    terms: &Terms,
    workers: usize,
    lock: S,
    pass: S::Pass,
    decided: &AtomicU64,
) -> Result<S::Value, RunFault>
where
    S::Value: SerialGate + SerialPrefetching + Drop + Send + Sync,
    S::Pass: Send + Drop,
    requires own { S.has_pass lock pass }
    requires terms { (S.Value.shown (S.seen pass)).terms ≡ terms.now }
    requires workers { IsWorkerCount workers }
    ensures terms { IfOk result (λ state. (S.Value.shown state).terms ≡ terms.now) }
    ensures finished { IfOk result
        (λ state. ForTerms terms.now (λ T. Finished T (S.Value.shown state).journal)) }
    ensures fault { IfErr result (λ fault. fault ≢ Workers) }
{
    // proof: a finished journal is final.
    finished_is_final();
    let gate = LockedGate::over(lock);
    let pass = match run_on(
        rt,
        alloc,
        terms,
        workers,
        &gate,
        pass,
        &GateFetching,
        decided,
    ) {
        Ok(pass) => pass,
        Err((fault, _)) => return Err(fault),
    };
    match gate.retire(rt, pass) {
        Ok(state) => Ok(state),
        Err(_) => Err(RunFault::Worn),
    }
}

/// Runs an intake thread for each provider's file and 1 to 64 workers, on the caller's gate and with the caller's pass. Other
/// threads may call the gate meanwhile. The calling thread works as an additional worker until the journal is finished, and
/// then waits for all threads.
///
/// `Ok` means that the caller's pass has seen the finished journal, even if another thread met a fault. Otherwise the fault is
/// the first, in the order of `RunFault`, of those of the caller and its threads:
///
/// - `Workers`: the number of workers is not 1 to 64; the gate was not called.
/// - `OutOfMemory`, `Thread`: an allocation failed, or the system can't start another thread. Both stop the gate for all of
///   its callers, unless its lock is worn. So the gate may be stopped after `Ok`, too.
/// - `Worn`: the gate's lock has no ticket left.
/// - `Stopped`: another caller has stopped the gate, and the pass has seen it stopped.
///
/// With every fault but `Workers`, no caller of the gate is kept waiting: the pass that comes back has seen the gate stopped,
/// or that its lock is worn.
pub fn run_with<R: Threads + Wait + Sync, G: Gate + Sync>(
    rt: &R,
    alloc: Global,
    terms: &Terms,
    workers: usize,
    gate: &G,
    pass: G::Pass,
) -> Result<G::Pass, (RunFault, G::Pass)>
    requires own { G.has_pass gate.now pass }
    requires terms { (G.known pass).seen.terms ≡ terms.now }
    ensures own { IfOk result (λ p. G.has_pass gate.now p) }
    ensures back { IfErr result (λ e. G.has_pass gate.now e.1) }
    ensures seen { IfOk result (λ p. LeadsTo (G.known pass).seen (G.known p).seen) }
    ensures seen_back { IfErr result (λ e. LeadsTo (G.known pass).seen (G.known e.1).seen) }
    ensures finished { IfOk result
        (λ p. ForTerms terms.now (λ T. Finished T (G.known p).seen.journal)) }
    ensures workers { OnOk result (IsWorkerCount workers) }
    ensures refused { IfErr result (λ e. (e.0 ≡ Workers) ↔ (¬ IsWorkerCount workers)) }
    ensures stopped { IfErr result (λ e. e.0 ≡ Stopped → (G.known e.1).seen.stopped ≡ true) }
    ensures ended { IfErr result (λ e. e.0 ≢ Workers →
        ((G.known e.1).seen.stopped ≡ true) ⊎ G.is_worn e.1) }
{
    let decided = AtomicU64::new(0);
    run_on(rt, alloc, terms, workers, gate, pass, &NoFetching, &decided)
}

// Runs on a gate as `run_with` does, and prefetches for the offers in an order.
fn run_on<R: Threads + Wait + Sync, G: Gate + Sync, F: Fetching<G> + Sync>(
    rt: &R,
    alloc: Global,
    terms: &Terms,
    workers: usize,
    gate: &G,
    pass: G::Pass,
    fetching: &F,
    decided: &AtomicU64,
) -> Result<G::Pass, (RunFault, G::Pass)>
    requires own { G.has_pass gate.now pass }
    requires terms { (G.known pass).seen.terms ≡ terms.now }
    ensures own { IfOk result (λ p. G.has_pass gate.now p) }
    ensures back { IfErr result (λ e. G.has_pass gate.now e.1) }
    ensures seen { IfOk result (λ p. LeadsTo (G.known pass).seen (G.known p).seen) }
    ensures seen_back { IfErr result (λ e. LeadsTo (G.known pass).seen (G.known e.1).seen) }
    ensures finished { IfOk result
        (λ p. ForTerms terms.now (λ T. Finished T (G.known p).seen.journal)) }
    ensures workers { OnOk result (IsWorkerCount workers) }
    ensures refused { IfErr result (λ e. (e.0 ≡ Workers) ↔ (¬ IsWorkerCount workers)) }
    ensures stopped { IfErr result (λ e. e.0 ≡ Stopped → (G.known e.1).seen.stopped ≡ true) }
    ensures ended { IfErr result (λ e. e.0 ≢ Workers →
        ((G.known e.1).seen.stopped ≡ true) ⊎ G.is_worn e.1) }
{
    if !may_have(workers) {
        return Err((RunFault::Workers, pass));
    }
    let Ok(plan) = compile(alloc, terms.plan()) else {
        return Err((RunFault::OutOfMemory, stop(rt, terms, gate, pass)));
    };
    let shared = Shared {
        rt,
        alloc,
        terms,
        plan: &plan,
        gate,
        turns: GateBatching::new(),
        spare: SpareClaims::new(alloc),
        least: LeastFault::new(),
        decided,
    };
    match in_threads(&shared, fetching, pass, workers) {
        Ok(pass) => Ok(pass),
        Err(Exit { fault, pass }) => Err((shared.least.least_with(fault), pass)),
    }
}

// Starts the threads, works, and waits for them. A thread's fault is noted in `shared.least`, and the caller's own is returned.
fn in_threads<R: Threads + Wait + Sync, G: Gate + Sync, F: Fetching<G> + Sync>(
    shared: &Shared<R, G>,
    fetching: &F,
    pass: G::Pass,
    workers: usize,
) -> Result<G::Pass, Exit<G::Pass>>
    requires own { G.has_pass shared.now.gate.now pass }
    requires terms { (G.known pass).seen.terms ≡ shared.now.terms.now }
    requires workers { IsWorkerCount workers }
    requires plan { shared.now.plan.now ≡ shared.now.terms.now.plan }
    ensures goes_on { IfOk result (GoesOn (G.has_pass shared.now.gate.now) G.known pass) }
    ensures finished { IfOk result
        (λ p. ForTerms shared.now.terms.now (λ T. Finished T (G.known p).seen.journal)) }
    ensures leaves { IfErr result
        (LeavesWith (G.has_pass shared.now.gate.now) G.is_worn G.known pass) }
    ensures ended { IfErr result (λ exit. HasEnded G.is_worn G.known exit.pass) }
{
    // The calling thread has the last number, as an additional worker.
    let threads = shared.terms.files().len() + workers;
    thread::scope(
        thread::scope_env(),
        shared.rt,
        |scope| -> Result<G::Pass, Exit<G::Pass>>
            requires { G.has_pass shared.now.gate.now pass
                × ((G.known pass).seen.terms ≡ shared.now.terms.now)
                × (shared.now.plan.now ≡ shared.now.terms.now.plan)
                × (length shared.now.terms.now.files ≤ threads)
                × IsSync R.row }
            ensures goes_on { IfOk result
                (GoesOn (G.has_pass shared.entry.now.gate.now) G.known pass) }
            ensures finished { IfOk result (λ p. ForTerms shared.entry.now.terms.now
                (λ T. Finished T (G.known p).seen.journal)) }
            ensures leaves { IfErr result
                (LeavesWith (G.has_pass shared.entry.now.gate.now) G.is_worn G.known pass) }
            ensures ended { IfErr result (λ exit. HasEnded G.is_worn G.known exit.pass) }
        {
            let mut own = pass;
            'threads: for number in 0..threads {
                let (mine, theirs) = shared.gate.split(own);
                let job = move ||
                    requires { G.has_pass shared.now.gate.now theirs
                        × ((G.known theirs).seen.terms ≡ shared.now.terms.now)
                        × (shared.now.plan.now ≡ shared.now.terms.now.plan)
                        × IsSync R.row }
                {
                    if let Err(Exit { fault, .. }) = run_thread(shared, fetching, theirs, number) {
                        shared.least.note(fault);
                    }
                };
                if scope.spawn(job).is_err() {
                    shared.least.note(RunFault::Thread);
                    let stopped = stop(shared.rt, shared.terms, shared.gate, mine);
                    return run_thread(shared, fetching, stopped, threads);
                }
                own = mine;
            }
            run_thread(shared, fetching, own, threads)
        },
    )
}

// Does the work of the thread with this number. A thread that runs out of memory stops the gate.
fn run_thread<R: Threads + Wait + Sync, G: Gate, F: Fetching<G>>(
    shared: &Shared<R, G>,
    fetching: &F,
    pass: G::Pass,
    number: usize,
) -> Result<G::Pass, Exit<G::Pass>>
    requires own { G.has_pass shared.now.gate.now pass }
    requires terms { (G.known pass).seen.terms ≡ shared.now.terms.now }
    requires plan { shared.now.plan.now ≡ shared.now.terms.now.plan }
    ensures goes_on { IfOk result (GoesOn (G.has_pass shared.now.gate.now) G.known pass) }
    ensures finished { IfOk result (λ p. length shared.now.terms.now.files ≤ number →
        ForTerms shared.now.terms.now (λ T. Finished T (G.known p).seen.journal)) }
    ensures leaves { IfErr result
        (LeavesWith (G.has_pass shared.now.gate.now) G.is_worn G.known pass) }
    ensures ended { IfErr result (λ exit. HasEnded G.is_worn G.known exit.pass) }
{
    let exit = match do_part(shared, fetching, pass, number) {
        Ok(pass) => return Ok(pass),
        Err(exit) => exit,
    };
    let Exit { fault, pass } = exit;
    match fault {
        RunFault::OutOfMemory => Err(Exit {
            fault: RunFault::OutOfMemory,
            pass: stop(shared.rt, shared.terms, shared.gate, pass),
        }),
        other => Err(Exit { fault: other, pass }),
    }
}

// Does the work of the intake or the worker with this number: the first numbers are those of the intakes.
fn do_part<R: Threads + Wait + Sync, G: Gate, F: Fetching<G>>(
    shared: &Shared<R, G>,
    fetching: &F,
    pass: G::Pass,
    number: usize,
) -> Result<G::Pass, Exit<G::Pass>>
    requires own { G.has_pass shared.now.gate.now pass }
    requires terms { (G.known pass).seen.terms ≡ shared.now.terms.now }
    requires plan { shared.now.plan.now ≡ shared.now.terms.now.plan }
    ensures goes_on { IfOk result (GoesOn (G.has_pass shared.now.gate.now) G.known pass) }
    ensures finished { IfOk result (λ p. length shared.now.terms.now.files ≤ number →
        ForTerms shared.now.terms.now (λ T. Finished T (G.known p).seen.journal)) }
    ensures leaves { IfErr result
        (LeavesWith (G.has_pass shared.now.gate.now) G.is_worn G.known pass) }
{
    if number < shared.terms.files().len() {
        run_intake_part(shared, fetching, pass, number)
    } else {
        run_worker(shared, pass)
    }
}
