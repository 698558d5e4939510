//! The four states of a pass of the ticket lock.

ghost use Rattle.std.specs.Prelude.{◌<◌};
ghost use Rattle.turn_lock.specs.Ticket.{last_word, IsIdle, HasLooked, IsWaiting, IsHolding};

use super::view::TicketView;
use atomic_table::Seat;

/// A pass without a ticket.
#[derive(Drop)]
pub struct Pass<T> {
    pub(super) seat: Seat<Option<T>, TicketView<T>>,
    pub ghost idle: { IsIdle seat.me },
}

/// A pass that has looked at the next ticket and may draw it.
#[derive(Drop)]
pub struct Looked<T> {
    pub(super) seat: Seat<Option<T>, TicketView<T>>,
    pub(super) next: u64,
    pub ghost looked: { HasLooked seat.me next },
    pub ghost left: { next < last_word },
}

/// A pass with a ticket. If it is dropped, neither this ticket nor any later one is ever served.
#[derive(Drop)]
pub struct Drawn<T> {
    pub(super) seat: Seat<Option<T>, TicketView<T>>,
    pub(super) ticket: u64,
    pub ghost waiting: { IsWaiting seat.me ticket },
}

/// A pass in a critical section. It cannot be dropped: only `leave` and `retire` end the section.
pub struct Holding<T> {
    pub(super) seat: Seat<Option<T>, TicketView<T>>,
    pub(super) section: u64,
    pub ghost holds: { IsHolding seat.me section },
}
