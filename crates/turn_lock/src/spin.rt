//! A spin lock of one word: 0 means free, 1 means taken.

mod lock;
mod pass;
mod rule;
mod view;

pub use lock::SpinLock;
pub use pass::{SpinHolding, SpinPass};
