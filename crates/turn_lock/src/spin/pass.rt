//! The two states of a pass of the spin lock.

ghost use Rattle.turn_lock.specs.Spin.{IsIdle, IsHolding};

use super::view::SpinView;
use atomic_table::Seat;

/// A pass outside its critical sections.
#[derive(Drop)]
pub struct SpinPass<T> {
    pub(super) seat: Seat<Option<T>, SpinView<T>>,
    pub ghost idle: { IsIdle seat.me },
}

/// A pass in a critical section. It cannot be dropped: only `leave` and `retire` end the section.
pub struct SpinHolding<T> {
    pub(super) seat: Seat<Option<T>, SpinView<T>>,
    pub ghost holds: { IsHolding seat.me },
}
