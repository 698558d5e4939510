//! Two callers that reach an agreement. Each one appends its name, in a critical section of its
//! own, to a list that a `TicketLock` protects, and knows only the list that it saw there. After
//! they have met, both have seen one list, which begins with every list that either of them had
//! seen. Both indices are therefore indices of that list, and different names have different
//! indices. No critical section alone could show this.

ghost use Rattle.std.specs.Prelude.{◌≡◌, ◌≢◌, ◌<◌, IfSome};
ghost use Rattle.test_gate.specs.Lists.{GoesOn, same_list, longer_list, either_list};
ghost use Rattle.turn_lock.specs.TicketShown.{IsPassOf, pass_knows};
ghost use Rattle.test_gate.specs.Names.{HasName};

use std::cmp::Ordering;
use std::sync::Wait;
use turn_lock::{Growing, Pass, TicketLock};

/// Names, in the order in which they were added.
#[derive(Drop)]
pub struct Names {
    pub noted: Vec<u64>,
}

impl Growing for Names {
    ghost leads = { λ old new. GoesOn old.noted.items new.noted.items };

    ghost reflexive = { λ x. same_list x.noted.items };

    ghost transitive = { λ x y z. longer_list x.noted.items y.noted.items z.noted.items };

    ghost ordered = { λ x y z. either_list x.noted.items y.noted.items z.noted.items };
}

/// A caller that has seen its name at the index `place` of the list.
#[derive(Drop)]
pub struct Caller {
    pub pass: Pass<Names>,
    pub name: u64,
    pub place: usize,
    pub ghost noted: { HasName (pass_knows pass).seen place name },
}

/// Appends the name to the list in one critical section. Returns `None` if no ticket is left or
/// memory runs out.
pub fn note<R: Wait>(
    rt: &R,
    lock: &TicketLock<Names>,
    pass: Pass<Names>,
    name: u64,
) -> Option<Caller>
    requires { IsPassOf lock.now pass }
    ensures own { IfSome result (λ caller. IsPassOf lock.now caller.pass) }
    ensures name { IfSome result (λ caller. caller.name ≡ name) }
{
    let Ok((mut names, holding)) = lock.lock(rt, pass) else {
        return None;
    };
    let place = names.noted.len();
    let noted = names.noted.push(name).is_ok();
    let pass = lock.leave(holding, names);
    if noted {
        Some(Caller { pass, name, place })
    } else {
        None
    }
}

/// Lets two callers meet. Each one keeps its name and its index, and both have then seen the same
/// list.
pub fn agree(lock: &TicketLock<Names>, one: Caller, other: Caller) -> (Caller, Caller)
    requires { IsPassOf lock.now one.pass × IsPassOf lock.now other.pass }
    ensures own { IsPassOf lock.now result.0.pass × IsPassOf lock.now result.1.pass }
    ensures agreed { (pass_knows result.0.pass).seen ≡ (pass_knows result.1.pass).seen }
    ensures names { (result.0.name ≡ one.name) × (result.1.name ≡ other.name) }
    ensures places { (result.0.place ≡ one.place) × (result.1.place ≡ other.place) }
{
    let (mine, theirs) = lock.meet(one.pass, other.pass);
    let first = Caller {
        pass: mine,
        name: one.name,
        place: one.place,
    };
    let second = Caller {
        pass: theirs,
        name: other.name,
        place: other.place,
    };
    (first, second)
}

/// Returns the name that was added first, for two callers that have agreed.
pub fn earlier(one: &Caller, other: &Caller) -> u64
    requires agreed { (pass_knows one.now.pass).seen ≡ (pass_knows other.now.pass).seen }
    requires apart { one.now.name ≢ other.now.name }
    ensures first { one.now.place < other.now.place → result ≡ one.now.name }
    ensures second { other.now.place < one.now.place → result ≡ other.now.name }
{
    match one.place.cmp(&other.place) {
        Ordering::Less => one.name,
        Ordering::Greater => other.name,
        Ordering::Equal => unreachable!(),
    }
}
