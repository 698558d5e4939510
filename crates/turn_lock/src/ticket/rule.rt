//! The rule of the ticket lock, and the effect of each of its steps on a pass.

ghost use Rattle.turn_lock.specs.Ticket.{TicketLockRule, beside, newcomer};
ghost use Rattle.turn_lock.specs.declared.ticket.view.TicketView.TheVariants.{Spent};
ghost use Rattle.turn_lock.specs.Steps.{Looks, Draws, Serves, Settles, Leaves};

use super::view::TicketView;
use crate::growing::Growing;
use atomic_table::{Join, Play, Split, TableRule};
use std::marker::PhantomData;
use std::snapshot::Snapshot;

/// The initial state of the lock, which the table receives: the first ticket and the value.
#[derive(Drop)]
pub struct Opening<T> {
    pub first: u64,
    pub value: Snapshot<T>,
}

/// The rule of the ticket lock.
pub struct Tickets<T> {
    value: PhantomData<T>,
}

impl<T: Growing> TableRule<Option<T>, TicketView<T>, Opening<T>> for Tickets<T> {
    ghost holds = { λ key. TicketLockRule T.leads key.first };

    ghost first = { λ key. newcomer key.first key.value.value };
}

/// A load of the next ticket.
pub struct Look;

impl<T> Play<Option<T>, TicketView<T>> for Look {
    ghost then = { Looks };
}

/// The compare and exchange of the next ticket by the following one.
pub struct Draw;

impl<T> Play<Option<T>, TicketView<T>> for Draw {
    ghost then = { Draws };
}

/// A load of the served ticket.
pub struct Serve<T> {
    value: PhantomData<T>,
}

impl<T: Growing> Play<Option<T>, TicketView<T>> for Serve<T> {
    ghost then = { Serves T.leads };
}

/// The increment of the served ticket.
pub struct Leave<T> {
    value: PhantomData<T>,
}

impl<T: Growing> Play<Option<T>, TicketView<T>> for Leave<T> {
    ghost then = { Leaves T.leads };
}

/// The step after which a pass that has seen two values keeps the later one.
pub struct Settle<T> {
    value: PhantomData<T>,
}

impl<T: Growing> Play<Option<T>, TicketView<T>> for Settle<T> {
    ghost then = { Settles T.leads };
}

/// The join of two passes into one that has seen what both have seen.
pub struct Beside;

impl<T> Join<TicketView<T>> for Beside {
    ghost both = { beside };

    ghost spent = { Spent };
}

/// The split of a pass: both passes have seen what the one has seen.
pub struct Twice;

impl<T> Split<TicketView<T>> for Twice {
    ghost left = { λ v. v };

    ghost right = { λ v. v };
}
