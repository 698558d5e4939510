//! The rule of the spin lock, and the effect of each of its steps on a pass.

ghost use Rattle.turn_lock.specs.Spin.{SpinLockRule, newcomer, Takes, Frees};

use super::view::SpinView;
use crate::growing::Growing;
use atomic_table::{Play, Split, TableRule};
use std::marker::PhantomData;
use std::snapshot::Snapshot;

/// The rule of the spin lock. The table receives the initial value of the lock.
pub struct Spins<T> {
    value: PhantomData<T>,
}

impl<T: Growing> TableRule<Option<T>, SpinView<T>, Snapshot<T>> for Spins<T> {
    ghost holds = { λ _. SpinLockRule T.leads };

    ghost first = { λ key. newcomer key.value };
}

/// The compare and exchange of 0 by 1.
pub struct Take<T> {
    value: PhantomData<T>,
}

impl<T: Growing> Play<Option<T>, SpinView<T>> for Take<T> {
    ghost then = { Takes T.leads };
}

/// The store of 0.
pub struct Free<T> {
    value: PhantomData<T>,
}

impl<T: Growing> Play<Option<T>, SpinView<T>> for Free<T> {
    ghost then = { Frees T.leads };
}

/// The split of a pass: both passes have seen what the one has seen.
pub struct Twice;

impl<T> Split<SpinView<T>> for Twice {
    ghost left = { λ v. v };

    ghost right = { λ v. v };
}
