//! The ticket lock of Mellor-Crummey and Scott (1991). Word 0 is the next ticket to be drawn, and
//! word 1 is the ticket that is served.
//!
//! A pass draws a ticket by compare and exchange, not by fetch and add, so that the lock refuses a
//! draw after the last ticket and the word never wraps.

mod fault;
mod lock;
mod pass;
mod rule;
mod turns;
mod view;

pub use fault::{DrawFault, Raced};
pub use lock::TicketLock;
pub use pass::{Drawn, Holding, Looked, Pass};
