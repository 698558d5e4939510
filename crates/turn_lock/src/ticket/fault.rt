//! The reasons for which no ticket was drawn.

use thiserror::Error;

/// Another pass has drawn the ticket that the pass had looked at.
#[derive(Debug, Drop, Error)]
#[error("the ticket was drawn by another pass, and the next is {next}")]
pub struct Raced {
    /// The next ticket that the draw found, which is greater than the one looked at.
    pub next: u64,
}

/// The reason for which `try_draw` drew no ticket.
#[derive(Debug, Drop, Error)]
pub enum DrawFault {
    /// The last ticket has been drawn, so no pass will draw one again.
    #[error("the last ticket was drawn")]
    Worn,
    /// Another pass has drawn the ticket that the pass had looked at. `next` is the next ticket
    /// that the draw found, which is greater.
    #[error("the ticket was drawn by another pass, and the next is {next}")]
    Raced { next: u64 },
}
