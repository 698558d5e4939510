//! Worn passes that meet, and what they know afterwards. Other meetings are shown by the tests of the
//! gate, and by the two callers of `agreeing`.
ghost use Rattle.std.specs.Prelude.{◌<◌};
ghost use Rattle.turn_lock.specs.Ticket.{last_word};
ghost use Rattle.turn_lock.specs.TicketShown.{IsPassOf, IsWornPass, pass_knows};

use super::{Entries, look_worn, ticket_lock_at};
use std::process::Abort;
use std::sync::Wait;
use turn_lock::{Pass, TicketLock};

// Draws the last ticket. The pass then knows that the lock is worn.
fn use_last<R: Wait + Abort>(
    rt: &R,
    lock: &TicketLock<Entries>,
    pass: Pass<Entries>,
) -> Pass<Entries>
    requires { IsPassOf lock.now pass }
    ensures own { IsPassOf lock.now result }
    ensures worn { IsWornPass result }
{
    let Ok((value, holding)) = lock.lock(rt, pass) else {
        panic!(rt; "the last ticket is refused");
    };
    assert!(rt; holding.ticket() == u64::MAX - 1);
    lock.leave(holding, value)
}

// A worn pass meets two passes that are not worn, once as the first argument and once as the
// second. Afterwards all three are worn.
fn meet_worn(
    lock: &TicketLock<Entries>,
    worn: Pass<Entries>,
    fresh: Pass<Entries>,
) -> (Pass<Entries>, Pass<Entries>, Pass<Entries>)
    requires own { IsPassOf lock.now worn × IsPassOf lock.now fresh }
    requires worn { IsWornPass worn }
    requires fresh { (pass_knows fresh).next < last_word }
    ensures own { IsPassOf lock.now result.0 × IsPassOf lock.now result.1
        × IsPassOf lock.now result.2 }
    ensures worn { IsWornPass result.0 × IsWornPass result.1 × IsWornPass result.2 }
{
    let (one, other) = lock.split(fresh);
    let (worn, one) = lock.meet(worn, one);
    let (other, worn) = lock.meet(other, worn);
    (worn, one, other)
}

#[test]
fn worn_passes_meet(rt: HostRuntime) {
    let (lock, pass) = ticket_lock_at(&rt, rt.alloc(), u64::MAX - 1);
    let (a, b) = lock.split(pass);
    let a = use_last(&rt, &lock, a);
    let (a, b, c) = meet_worn(&lock, a, b);
    look_worn(&rt, &lock, a);
    look_worn(&rt, &lock, b);
    look_worn(&rt, &lock, c);
}
