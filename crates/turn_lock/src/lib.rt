//! Locks for a shared value that only grows.
//!
//! `Growing` states what it means for a value to grow. `Section` is the interface of every lock
//! here: a pass locks, receives the value and a holder, and ends its critical section with `leave`
//! or `retire`. `SpinLock` is a single word that is free or taken. `TicketLock` is the ticket lock
//! of Mellor-Crummey and Scott (1991), which serves its passes in the order of their tickets.
//!
//! Both locks are built on `atomic_table`, whose words change in single sequentially consistent
//! steps. Each step of a lock is proved to preserve the rule of the lock, for every interleaving
//! and any number of passes.
//!
//! Begin with `section.rt`, then read `specs/Spin.antt` for the simpler rule and
//! `specs/Ticket.antt` for the larger one. The larger rule has two parts: `WordsRule` is about the
//! two words, the tickets and the location of the value, and `ValuesRule` is about the value
//! itself.

#![tactic(auto)]

mod growing;
mod law;
mod section;
mod spin;
mod ticket;

pub use growing::Growing;
pub use law::{
    spin_rule_says, spin_steps_keep_the_rule, ticket_rule_says, ticket_steps_forget_nothing,
    ticket_steps_keep_the_rule, ticket_steps_keep_the_tally, tickets_come_once,
};
pub use section::{Section, Worn};
pub use spin::{SpinHolding, SpinLock, SpinPass};
pub use ticket::{DrawFault, Drawn, Holding, Looked, Pass, Raced, TicketLock};
