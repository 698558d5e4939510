//! The knowledge of a pass of the spin lock.

/// What a pass of the spin lock knows. The type appears in proofs only: the program makes no value
/// of it.
pub struct SpinView<T> {
    /// Whether the pass is in a critical section.
    pub holds: bool,
    /// The last value that the pass has seen. In a critical section this is the value found there.
    pub seen: T,
    /// The number of critical sections that the pass has ended.
    pub ended: u64,
    /// The value that the last of these sections found, or the initial value of the lock.
    pub last: T,
}
