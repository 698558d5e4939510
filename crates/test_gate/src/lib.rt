//! Tests of `turn_lock` and `claim_gate` on worked examples, and two examples of the locks, to read
//! together with `turn_lock`. They are a crate of their own, since the tests of a crate are proved
//! together with all of its code.
//!
//! `agreeing` has two callers of a ticket lock that meet. It shows what they know of each other
//! afterwards, which no critical section alone could show them. `copies` has a type that is not a
//! lock although it satisfies the contract of `Section`. It shows that `Section` promises only what
//! one pass can observe, and that the rest takes two passes.
//!
//! `lock_tests` has the tests of the examples and of the locks, `tests` those of the gate.
#![tactic(auto)]

mod agreeing;
mod copies;
#[cfg(test)]
mod lock_tests;
#[cfg(test)]
mod tests;

pub use agreeing::{Caller, Names, agree, earlier, note};
pub use copies::{
    Copies, CopyHolder, CopyPass, Counted, Visitors, second_finds_what_the_first_left,
};
