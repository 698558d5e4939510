//! Gates with and without locks: their initial states, the plays on them, and their journals at the
//! end. Whatever runs out of memory is repeated once.
ghost use Rattle.std.specs.Prelude.{◌≡◌, IfSome};
ghost use Rattle.turn_lock.specs.SpinShown.{IsPassOf as IsSpinPassOf, pass_seen};
ghost use Rattle.turn_lock.specs.TicketShown.{IsPassOf, pass_knows};
ghost use Rattle.claim_gate.specs.Locked.{lock_of};
ghost use Rattle.test_gate.specs.Words.{IsAnyOrder};

use super::alone::play_alone;
use super::events::is_journal;
use super::expects;
use super::filing::gate_of;
use super::lines::Line;
use super::play::play;
use claim_gate::{Batch, Event, Gate, GateState, LockedGate, SerialGate, Terms};
use std::alloc::Global;
use std::process::Abort;
use std::sync::Wait;
use turn_lock::{Pass, Section, SpinLock, SpinPass, TicketLock};

/// A gate to which no claim was offered, in a spin lock.
fn spin_gate<'t>(
    rt: &impl Abort,
    alloc: Global,
    terms: &'t Terms<'t>,
) -> (SpinLock<GateState<'t>>, SpinPass<GateState<'t>>)
    ensures own { IsSpinPassOf result.0 result.1 }
    ensures terms { (pass_seen result.1).terms ≡ terms.now }
{
    match SpinLock::new(alloc, gate_of(rt, alloc, terms)) {
        Ok(made) => made,
        Err(_) => SpinLock::new(alloc, gate_of(rt, alloc, terms)).expect(rt, "memory for a lock"),
    }
}

/// A gate to which no claim was offered, in a ticket lock whose first ticket is `first`.
pub fn by_tickets<'t>(
    rt: &impl Abort,
    alloc: Global,
    terms: &'t Terms<'t>,
    first: u64,
) -> (TicketLock<GateState<'t>>, Pass<GateState<'t>>)
    ensures own { IsPassOf result.0 result.1 }
    ensures terms { (pass_knows result.1).seen.terms ≡ terms.now }
{
    match TicketLock::new_at(alloc, gate_of(rt, alloc, terms), first) {
        Ok(made) => made,
        Err(_) => {
            TicketLock::new_at(alloc, gate_of(rt, alloc, terms), first).expect(
                rt,
                "memory for a lock",
            )
        }
    }
}

/// Takes the sequential gate out of its lock. There is none if no ticket is left.
pub fn retire_gate<S: Section + Drop>(
    rt: &impl Wait,
    terms: &Terms,
    gate: &LockedGate<S>,
    pass: S::Pass,
) -> Option<S::Value>
where
    S::Value: SerialGate + Drop,
    S::Pass: Send + Drop,
    requires own { S.has_pass (lock_of gate.now) pass }
    requires terms { (S.Value.shown (S.seen pass)).terms ≡ terms.now }
    ensures { IfSome result (λ state. (S.Value.shown state).terms ≡ terms.now) }
{
    let _plan = terms.plan();
    match gate.retire(rt, pass) {
        Ok(state) => Some(state),
        Err(_) => None,
    }
}

// Goes through a script on a gate with a lock. Returns the sequential gate.
fn play_over<S: Section + Drop>(
    rt: &(impl Abort + Wait),
    alloc: Global,
    terms: &Terms,
    lock: S,
    pass: S::Pass,
    script: &[Line],
) -> Option<S::Value>
where
    S::Value: SerialGate + Drop,
    S::Pass: Send + Drop,
    requires any_order { IsAnyOrder terms.now }
    requires own { S.has_pass lock pass }
    requires terms { (S.Value.shown (S.seen pass)).terms ≡ terms.now }
    ensures { IfSome result (λ state. (S.Value.shown state).terms ≡ terms.now) }
{
    let gate = LockedGate::over(lock);
    let passes = gate.split(pass);
    let (pass, _other) = play(rt, alloc, terms, &gate, passes, script);
    let state = retire_gate(rt, terms, &gate, pass);
    drop(gate);
    state
}

/// What a gate is in.
#[derive(Clone, Copy)]
pub enum Lock {
    /// No lock: the gate is called directly.
    Missing,
    Spin,
    /// A ticket lock whose first ticket is this one.
    Tickets(u64),
}

/// The end of a play: the gate can't be taken out of its lock, since no ticket is left, or it has
/// this journal, which is finished or not.
#[derive(Clone, Copy)]
pub enum Ending {
    Worn,
    Unfinished(&'static [u8]),
    Finished(&'static [u8]),
}

impl Ending {
    fn is(self, finished: bool, journal: &[Event]) -> bool {
        match self {
            Ending::Worn => false,
            Ending::Unfinished(words) => !finished && is_journal(journal, words),
            Ending::Finished(words) => finished && is_journal(journal, words),
        }
    }
}

fn has_ended<'t>(gate: GateState<'t>, terms: &'t Terms<'t>, ending: Ending) -> bool
    requires { gate.terms ≡ terms.now }
{
    match Batch::from_state(gate, terms) {
        Ok(batch) => ending.is(true, batch.journal()),
        Err(back) => ending.is(false, &back.into_journal()),
    }
}

/// Checks the end of a play.
pub fn check_ending<'t>(
    rt: &impl Abort,
    terms: &'t Terms<'t>,
    state: Option<GateState<'t>>,
    ending: Ending,
)
    requires { IfSome state (λ gate. gate.terms ≡ terms.now) }
{
    match state {
        Some(gate) => expects(rt, has_ended(gate, terms, ending), "this journal"),
        None => expects(rt, matches!(ending, Ending::Worn), "a ticket"),
    }
}

/// A script, the lock of the gate that it is played on, and its end.
#[derive(Clone, Copy)]
pub struct Play {
    pub lock: Lock,
    pub script: &'static [Line],
    pub ending: Ending,
}

impl Play {
    // Goes through the script. Returns the sequential gate.
    fn state<'t>(
        self,
        rt: &(impl Abort + Wait),
        alloc: Global,
        terms: &'t Terms<'t>,
    ) -> Option<GateState<'t>>
        requires { IsAnyOrder terms.now }
        ensures { IfSome result (λ gate. gate.terms ≡ terms.now) }
    {
        match self.lock {
            Lock::Missing => Some(play_alone(rt, alloc, terms, self.script)),
            Lock::Spin => {
                let (lock, pass) = spin_gate(rt, alloc, terms);
                play_over(rt, alloc, terms, lock, pass, self.script)
            }
            Lock::Tickets(first) => {
                let (lock, pass) = by_tickets(rt, alloc, terms, first);
                play_over(rt, alloc, terms, lock, pass, self.script)
            }
        }
    }

    /// Goes through the script and checks the end.
    pub fn calls(self, rt: &(impl Abort + Wait), alloc: Global, terms: &Terms)
        requires { IsAnyOrder terms.now }
    {
        check_ending(rt, terms, self.state(rt, alloc, terms), self.ending)
    }
}
