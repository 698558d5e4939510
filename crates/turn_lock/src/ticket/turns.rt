//! The implementation of `Section` for the ticket lock.

ghost use Rattle.turn_lock.specs.Ticket.{last_word};

use super::lock::TicketLock;
use super::pass::{Holding, Pass};
use crate::growing::Growing;
use crate::section::{Section, Worn};
use std::sync::Wait;

impl<T: Growing> Section for TicketLock<T> {
    type Value = T;

    type Pass = Pass<T>;

    type Holder = Holding<T>;

    ghost use Rattle.turn_lock.specs.TicketShown.{IsPassOf, IsHoldingOf, IsWornPass, pass_knows, holding_knows};

    ghost has_pass = { IsPassOf };

    ghost has_holder = { IsHoldingOf };

    ghost seen = { λ pass. (pass_knows pass).seen };

    ghost tally = { λ pass. (pass_knows pass).ended };

    ghost last_found = { λ pass. (pass_knows pass).last };

    ghost is_worn = { IsWornPass };

    ghost found = { λ holder. (holding_knows holder).seen };

    ghost tally_before = { λ holder. (holding_knows holder).ended };

    fn split(&self, pass: Pass<T>) -> (Pass<T>, Pass<T>) {
        TicketLock::split(self, pass)
    }

    fn lock<R: Wait>(&self, rt: &R, pass: Pass<T>) -> Result<(T, Holding<T>), (Worn, Pass<T>)> {
        TicketLock::lock(self, rt, pass)
    }

    fn leave(&self, holder: Holding<T>, value: T) -> Pass<T> {
        TicketLock::leave(self, holder, value)
    }

    fn retire(&self, holder: Holding<T>, value: T) -> T {
        TicketLock::retire(self, holder, value)
    }
}
