//! The spin lock and its calls.

ghost use Rattle.std.specs.Prelude.{◌≡◌, [], IfOk};
ghost use Rattle.turn_lock.specs.Spin.{Wins};

use super::pass::{SpinHolding, SpinPass};
use super::rule::{Free, Spins, Take, Twice};
use super::view::SpinView;
use crate::growing::Growing;
use crate::section::{Section, Worn};
use atomic_table::{Refused, Seat, Table};
use crossbeam_utils::Backoff;
use std::alloc::{AllocError, Global};
use std::snapshot::Snapshot;
use std::sync::Wait;

/// A value protected by one word. The lock never wears out, and it serves passes in no particular
/// order.
#[derive(Drop)]
pub struct SpinLock<T: Growing> {
    table: Table<Option<T>, SpinView<T>, Snapshot<T>, Spins<T>, Global>,
    ghost words: { table.shared.table_id.words ≡ 1 },
    ghost slots: { table.shared.table_id.slots ≡ 1 },
}

impl<T: Growing + Drop> SpinLock<T> {
    ghost use Rattle.turn_lock.specs.SpinShown.{IsPassOf, pass_seen, pass_tally, pass_last};

    /// Creates a lock with the given value, and its first pass.
    ///
    /// # Errors
    ///
    /// Returns `AllocError` and drops the value if memory cannot be allocated.
    pub fn new(alloc: Global, value: T) -> Result<(SpinLock<T>, SpinPass<T>), AllocError>
        ensures own { IfOk result (λ r. IsPassOf r.0 r.1) }
        ensures seen { IfOk result (λ r. pass_seen r.1 ≡ value) }
        ensures tally { IfOk result (λ r. (pass_tally r.1 ≡ 0) × (pass_last r.1 ≡ value)) }
    {
        let about = Snapshot::of(&value);
        let mut slots = Vec::with_capacity(alloc, 1)?;
        slots.push(Some(value))?;
        match Table::new(alloc, &[0], slots, &about) {
            Ok((table, seat)) => Ok((SpinLock { table }, SpinPass { seat })),
            Err(Refused { slots: _ }) => Err(AllocError),
        }
    }
}

impl<T: Growing> SpinLock<T> {
    // Tries until the exchange finds 0, with a pause after each miss.
    fn win<R: Wait>(
        &self,
        rt: &R,
        mut seat: Seat<Option<T>, SpinView<T>>,
    ) -> Seat<Option<T>, SpinView<T>>
        requires own { seat.table_id ≡ self.now.table.shared.table_id }
        requires empty { seat.me.1 ≡ [] }
        ensures own { result.table_id ≡ seat.table_id }
        ensures won { Wins T.leads seat.me result.me }
    {
        let backoff = Backoff::new();
        for _ in rt.forever() {
            let shared = &self.table.shared;
            let word = shared.compare_exchange::<Take<T>>(&mut seat, 0, 0, 1);
            if word == 0 {
                return seat;
            }
            backoff.snooze();
        }
        unreachable!()
    }
}

impl<T: Growing> Section for SpinLock<T> {
    type Value = T;

    type Pass = SpinPass<T>;

    type Holder = SpinHolding<T>;

    ghost use Rattle.turn_lock.specs.SpinShown.{IsPassOf, IsHolderOf, pass_seen, pass_tally, pass_last, holder_found, holder_tally};

    ghost has_pass = { IsPassOf };

    ghost has_holder = { IsHolderOf };

    ghost seen = { pass_seen };

    ghost tally = { pass_tally };

    ghost last_found = { pass_last };

    ghost is_worn = { λ _. ⊥ };

    ghost found = { holder_found };

    ghost tally_before = { holder_tally };

    #[tactic(auto, using(crate::proofs::SpinMoves::splits))]
    fn split(&self, pass: SpinPass<T>) -> (SpinPass<T>, SpinPass<T>) {
        let SpinPass { mut seat } = pass;
        let other = self.table.shared.split_seat::<Twice>(&mut seat);
        (SpinPass { seat }, SpinPass { seat: other })
    }

    fn lock<R: Wait>(
        &self,
        rt: &R,
        pass: SpinPass<T>,
    ) -> Result<(T, SpinHolding<T>), (Worn, SpinPass<T>)> {
        let SpinPass { seat } = pass;
        let mut seat = self.win(rt, seat);
        let taken = self.table.shared.exchange(&mut seat, 0, None);
        let Some(value) = taken else { unreachable!() };
        Ok((value, SpinHolding { seat }))
    }

    fn leave(&self, holder: SpinHolding<T>, value: T) -> SpinPass<T> {
        let SpinHolding { mut seat } = holder;
        let empty = self.table.shared.exchange(&mut seat, 0, Some(value));
        let None = empty else { unreachable!() };
        self.table.shared.store::<Free<T>>(&mut seat, 0, 0);
        SpinPass { seat }
    }

    fn retire(&self, holder: SpinHolding<T>, value: T) -> T {
        let SpinHolding { seat: _ } = holder;
        value
    }
}
