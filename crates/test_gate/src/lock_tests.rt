//! Tests of the two examples and of the locks.
mod locks;

use crate::{
    Copies, CopyPass, Names, Visitors, agree, earlier, note, second_finds_what_the_first_left,
};
use turn_lock::{SpinLock, TicketLock};

#[test]
fn a_lock_of_copies_loses_what_another_pass_left(rt: HostRuntime) {
    let opening = Visitors { count: 3 };
    let (lock, pass) = SpinLock::new(rt.alloc(), opening).expect(&rt, "memory for a lock");
    assert!(rt; second_finds_what_the_first_left(&rt, &lock, pass));
    let (lock, pass) = TicketLock::new(rt.alloc(), opening).expect(&rt, "memory for a lock");
    assert!(rt; second_finds_what_the_first_left(&rt, &lock, pass));
    let pass = CopyPass::new(opening);
    assert!(rt; !second_finds_what_the_first_left(&rt, &Copies, pass));
}

#[test]
fn two_callers_agree_who_came_earlier(rt: HostRuntime) {
    let names = Names {
        noted: Vec::new(rt.alloc()),
    };
    let (lock, pass) = TicketLock::new(rt.alloc(), names).expect(&rt, "memory for a lock");
    let (a, b) = lock.split(pass);
    let Some(nine) = note(&rt, &lock, a, 9) else {
        panic!(rt; "9 was not noted");
    };
    let Some(five) = note(&rt, &lock, b, 5) else {
        panic!(rt; "5 was not noted");
    };
    let (five, nine) = agree(&lock, five, nine);
    assert!(rt; earlier(&five, &nine) == 9);
    assert!(rt; earlier(&nine, &five) == 9);
    assert!(rt; nine.place == 0 && five.place == 1);
}
