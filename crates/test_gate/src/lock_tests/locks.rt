//! Worked examples of the locks, and threads that append through each lock.

mod meetings;

ghost use Rattle.std.specs.Prelude.{◌≡◌, ◌<◌, IfOk};
ghost use Rattle.test_gate.specs.Lists.{GoesOn, same_list, longer_list, either_list};
ghost use Rattle.turn_lock.specs.SpinShown.{IsPassOf as IsSpinPassOf};
ghost use Rattle.turn_lock.specs.TicketShown.{IsDrawnOf, IsPassOf, pass_knows};

use std::alloc::Global;
use std::process::Abort;
use std::sync::Wait;
use std::thread;
use std::thread::Threads;
use turn_lock::{
    DrawFault, Drawn, Growing, Pass, Raced, Section, SpinLock, SpinPass, TicketLock, Worn,
};

#[derive(Clone, Copy, PartialEq)]
struct Entry {
    thread: u64,
    number: u64,
}

/// A list that grows only at its end.
#[derive(Drop)]
struct Entries {
    items: Vec<Entry>,
}

impl Growing for Entries {
    ghost leads = { λ old new. GoesOn old.items.items new.items.items };

    ghost reflexive = { λ x. same_list x.items.items };

    ghost transitive = { λ x y z. longer_list x.items.items y.items.items z.items.items };

    ghost ordered = { λ x y z. either_list x.items.items y.items.items z.items.items };
}

impl Entries {
    fn new(alloc: Global) -> Entries {
        Entries {
            items: Vec::new(alloc),
        }
    }
}

trait Book: Growing {
    // Returns false if memory runs out.
    fn append(&mut self, entry: Entry) -> bool
        ensures { Self.leads self.old self.new };

    fn entries(&self) -> &[Entry];
}

impl Book for Entries {
    fn append(&mut self, entry: Entry) -> bool {
        self.items.push(entry).is_ok()
    }

    fn entries(&self) -> &[Entry] {
        self.items.as_slice()
    }
}

// Makes a spin lock that protects an empty list.
fn spin_lock(rt: &impl Abort, alloc: Global) -> (SpinLock<Entries>, SpinPass<Entries>)
    ensures { IsSpinPassOf result.0 result.1 }
{
    SpinLock::new(alloc, Entries::new(alloc)).expect(rt, "memory for a lock")
}

fn ticket_lock(rt: &impl Abort, alloc: Global) -> (TicketLock<Entries>, Pass<Entries>)
    ensures { IsPassOf result.0 result.1 }
{
    TicketLock::new(alloc, Entries::new(alloc)).expect(rt, "memory for a lock")
}

// Makes a ticket lock with `first` as its first ticket.
fn ticket_lock_at(
    rt: &impl Abort,
    alloc: Global,
    first: u64,
) -> (TicketLock<Entries>, Pass<Entries>)
    ensures own { IsPassOf result.0 result.1 }
    ensures next { (pass_knows result.1).next ≡ first }
{
    TicketLock::new_at(alloc, Entries::new(alloc), first).expect(rt, "memory for a lock")
}

fn line(number: u64) -> Entry {
    Entry { thread: 0, number }
}

// The second pass draws the ticket that the first pass has looked at, so the first pass draws the
// next one.
fn draw_both(
    rt: &impl Abort,
    lock: &TicketLock<Entries>,
    a: Pass<Entries>,
    b: Pass<Entries>,
) -> (Drawn<Entries>, Drawn<Entries>)
    requires { IsPassOf lock.now a × IsPassOf lock.now b }
    ensures { IsDrawnOf lock.now result.0 × IsDrawnOf lock.now result.1 }
{
    let Ok(a) = lock.look(a) else {
        panic!(rt; "the first look is worn");
    };
    assert!(rt; a.next() == 0);
    let Ok(b) = lock.try_draw(b) else {
        panic!(rt; "no ticket for b");
    };
    assert!(rt; b.ticket() == 0);
    let Err((Raced { next }, a)) = lock.draw(a) else {
        panic!(rt; "a has drawn the ticket of b");
    };
    assert!(rt; next == 1);
    let Ok(a) = lock.try_draw(a) else {
        panic!(rt; "no ticket for a");
    };
    assert!(rt; a.ticket() == 1);
    (a, b)
}

// The pass with the first ticket finds an empty list and appends an entry, which the other pass
// finds.
fn serve_both<R: Wait + Abort>(
    rt: &R,
    lock: &TicketLock<Entries>,
    a: Drawn<Entries>,
    b: Drawn<Entries>,
)
    requires { IsDrawnOf lock.now a × IsDrawnOf lock.now b }
{
    let (mut value, b) = lock.enter(rt, b);
    assert!(rt; b.ticket() == 0 && value.entries().is_empty());
    assert!(rt; value.append(line(7)));
    let _ = lock.leave(b, value);
    let (value, a) = lock.enter(rt, a);
    assert!(rt; a.ticket() == 1);
    let value = lock.retire(a, value);
    assert!(rt; value.entries() == [line(7)].as_slice());
}

#[test]
fn tickets_are_served_in_their_order(rt: HostRuntime) {
    let (lock, pass) = ticket_lock(&rt, rt.alloc());
    let (a, b) = lock.split(pass);
    let (a, b) = draw_both(&rt, &lock, a, b);
    serve_both(&rt, &lock, a, b);
}

#[test]
fn spin_lock_gives_the_value_left(rt: HostRuntime) {
    let (lock, pass) = spin_lock(&rt, rt.alloc());
    let Ok((mut value, holder)) = lock.lock(&rt, pass) else {
        panic!(rt; "a spin lock is worn");
    };
    assert!(rt; value.append(line(7)));
    let pass = lock.leave(holder, value);
    let Ok((value, holder)) = lock.lock(&rt, pass) else {
        panic!(rt; "a spin lock is worn");
    };
    let value = lock.retire(holder, value);
    assert!(rt; value.entries() == [line(7)].as_slice());
}

// A look must fail with `Worn` and return the pass.
fn look_worn(rt: &impl Abort, lock: &TicketLock<Entries>, pass: Pass<Entries>) -> Pass<Entries>
    requires { IsPassOf lock.now pass }
    ensures { IsPassOf lock.now result }
{
    let Err((Worn, pass)) = lock.look(pass) else {
        panic!(rt; "a look of a worn pass");
    };
    pass
}

// Each call that would draw a ticket must fail with `Worn` and return the pass.
fn refuse_draws<R: Wait + Abort>(
    rt: &R,
    lock: &TicketLock<Entries>,
    pass: Pass<Entries>,
) -> Pass<Entries>
    requires { IsPassOf lock.now pass }
    ensures { IsPassOf lock.now result }
{
    let pass = look_worn(rt, lock, pass);
    let Err((DrawFault::Worn, pass)) = lock.try_draw(pass) else {
        panic!(rt; "a draw of a worn pass");
    };
    match lock.lock(rt, pass) {
        Ok((value, holder)) => {
            drop(lock.retire(holder, value));
            panic!(rt; "a section of a worn pass")
        }
        Err((Worn, pass)) => pass,
    }
}

#[test]
fn the_last_ticket_wears_the_lock(rt: HostRuntime) {
    let first = u64::MAX - 1;
    let (lock, pass) = ticket_lock_at(&rt, rt.alloc(), first);
    let Ok((mut value, holder)) = lock.lock(&rt, pass) else {
        panic!(rt; "the last ticket is refused");
    };
    assert!(rt; holder.ticket() == first);
    value.append(line(7));
    let pass = lock.leave(holder, value);
    let pass = refuse_draws(&rt, &lock, pass);
    refuse_draws(&rt, &lock, pass);
    let (lock, pass) = ticket_lock_at(&rt, rt.alloc(), u64::MAX);
    refuse_draws(&rt, &lock, pass);
}

fn retire_with_the_first_ticket<R: Wait + Abort>(
    rt: &R,
    lock: &TicketLock<Entries>,
    pass: Pass<Entries>,
)
    requires { IsPassOf lock.now pass }
{
    let Ok((value, holding)) = lock.lock(rt, pass) else {
        panic!(rt; "the first ticket is refused");
    };
    assert!(rt; holding.ticket() == 0);
    assert!(rt; lock.retire(holding, value).entries().is_empty());
}

fn draw_the_second_ticket(rt: &impl Abort, lock: &TicketLock<Entries>, pass: Pass<Entries>)
    requires { IsPassOf lock.now pass }
{
    let Ok(looked) = lock.look(pass) else {
        panic!(rt; "no look after a retired holder");
    };
    assert!(rt; looked.next() == 1);
    let Ok(drawn) = lock.draw(looked) else {
        panic!(rt; "no ticket after a retired holder");
    };
    assert!(rt; drawn.ticket() == 1);
}

#[test]
fn tickets_go_on_after_a_retired_holder(rt: HostRuntime) {
    let (lock, pass) = ticket_lock(&rt, rt.alloc());
    let (a, b) = lock.split(pass);
    retire_with_the_first_ticket(&rt, &lock, a);
    draw_the_second_ticket(&rt, &lock, b);
}

// Appends each entry of the thread in a critical section of its own.
fn append_all<S: Section, R: Wait>(
    rt: &R,
    lock: &S,
    mut pass: S::Pass,
    thread: u64,
    count: u64,
) -> Result<S::Pass, (Worn, S::Pass)>
where
    S::Value: Book,
    requires { S.has_pass lock.now pass }
    ensures { IfOk result (λ p. S.has_pass lock.now p) }
{
    for number in 0..count {
        let (mut value, holder) = match lock.lock(rt, pass) {
            Ok(found) => found,
            Err(worn) => return Err(worn),
        };
        value.append(Entry { thread, number });
        pass = lock.leave(holder, value);
    }
    Ok(pass)
}

// The calling thread is the first of the threads. Its pass is returned.
fn append_by_threads<S: Section + Sync, R: Threads + Wait + Sync>(
    rt: &R,
    lock: &S,
    pass: S::Pass,
    threads: u64,
    count: u64,
) -> Result<S::Pass, (Worn, S::Pass)>
where
    S::Value: Book + Send + Sync,
    S::Pass: Send + Drop,
    requires { S.has_pass lock.now pass }
    ensures { IfOk result (λ p. S.has_pass lock.now p) }
{
    thread::scope(
        thread::scope_env(),
        rt,
        |scope| -> Result<S::Pass, (Worn, S::Pass)>
            requires { S.has_pass lock.now pass }
            ensures { IfOk result (λ p. S.has_pass lock.entry.now p) }
        {
            let mut mine = pass;
            'start: for thread in 1..threads {
                let (left, theirs) = lock.split(mine);
                mine = left;
                let job = move || -> Result<S::Pass, (Worn, S::Pass)>
                    requires { S.has_pass lock.now theirs }
                { append_all(rt, lock, theirs, thread, count) };
                let _ = scope.spawn(job);
            }
            append_all(rt, lock, mine, 0, count)
        },
    )
}

// Returns the value after all threads have returned.
fn left_by_threads<S: Section + Sync, R: Threads + Wait + Sync>(
    rt: &R,
    lock: &S,
    pass: S::Pass,
    threads: u64,
    count: u64,
) -> Result<S::Value, (Worn, S::Pass)>
where
    S::Value: Book + Send + Sync,
    S::Pass: Send + Drop,
    requires { S.has_pass lock.now pass }
{
    let pass = match append_by_threads(rt, lock, pass, threads, count) {
        Ok(pass) => pass,
        Err(worn) => return Err(worn),
    };
    match lock.lock(rt, pass) {
        Ok((value, holder)) => Ok(lock.retire(holder, value)),
        Err(worn) => Err(worn),
    }
}

// Requires that each thread's entries are in its order, once each.
fn assert_each_in_order<A: Abort>(rt: &A, entries: &[Entry], threads: u64, count: u64) {
    for thread in 0..threads {
        let mut number = 0;
        for entry in entries {
            if entry.thread == thread {
                assert!(rt; number < count && entry.number == number);
                number += 1;
            }
        }
        assert!(rt; number == count);
    }
}

// Appends 10,000 entries through a lock.
fn append_through<S: Section + Sync, R: Threads + Wait + Abort + Sync>(
    rt: &R,
    lock: &S,
    pass: S::Pass,
    threads: u64,
    count: u64,
)
where
    S::Value: Book + Send + Sync + Drop,
    S::Pass: Send + Drop,
    requires { S.has_pass lock.now pass }
{
    let Ok(value) = left_by_threads(rt, lock, pass, threads, count) else {
        panic!(rt; "a new lock is worn");
    };
    assert!(rt; value.entries().len() == 10_000);
    assert_each_in_order(rt, value.entries(), threads, count);
}

#[test]
fn threads_append_through_each_lock(rt: HostRuntime) {
    for (threads, count) in [(2, 5_000), (8, 1_250)] {
        let (lock, pass) = spin_lock(&rt, rt.alloc());
        append_through(&rt, &lock, pass, threads, count);
        let (lock, pass) = ticket_lock(&rt, rt.alloc());
        append_through(&rt, &lock, pass, threads, count);
    }
}

#[test]
fn each_law_is_called(_rt: HostRuntime) {
    turn_lock::spin_steps_keep_the_rule::<Entries>();
    turn_lock::spin_rule_says::<Entries>();
    turn_lock::ticket_steps_keep_the_rule::<Entries>(0);
    turn_lock::ticket_rule_says::<Entries>(0);
    turn_lock::ticket_steps_forget_nothing::<Entries>();
    turn_lock::ticket_steps_keep_the_tally::<Entries>();
    turn_lock::tickets_come_once::<Entries>(0);
}
