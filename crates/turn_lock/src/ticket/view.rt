//! The knowledge of a pass of the ticket lock. The types appear in proofs only: the program makes
//! no value of them.

/// The state of a pass on its way through the lock.
pub enum Stage {
    Idle,
    /// The pass has looked at the next ticket and may draw it.
    Looked,
    /// The pass has drawn this ticket.
    Waiting(u64),
    /// The pass is in the critical section of this ticket.
    Holding(u64),
}

/// What a pass has seen, and its tally.
pub struct LiveView<T> {
    pub stage: Stage,
    /// The last value that the pass has seen. In a critical section this is the value found there.
    pub seen: T,
    /// A second value that the pass has seen: the other pass's value while two passes are joined,
    /// and otherwise the last value.
    pub also: T,
    /// The greatest next ticket that the pass has seen.
    pub next: u64,
    /// The number of critical sections that the pass has ended.
    pub ended: u64,
    /// The value that the last of these sections found, or the initial value of the lock.
    pub last: T,
}

/// The view of a pass, or of one that was joined to another pass and no longer exists.
pub enum TicketView<T> {
    Spent,
    Live(LiveView<T>),
}
