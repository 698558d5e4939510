//! Scripts: what the callers of a gate call in turn, with the reply that each call must have.

use super::expects;
use claim_gate::{Counts, Terms};
use std::process::Abort;

/// One of the two callers.
#[derive(Clone, Copy)]
pub enum Caller {
    One,
    Other,
}

/// A call of a gate, or a question. Amounts are in ten-thousandths of the currency unit.
#[derive(Clone, Copy)]
pub enum Call {
    /// Offers the claim of a provider at a place of its file. The claim has this identifier.
    Offer(usize, usize, &'static str),
    /// Ends a provider whose file has this number of claims.
    End(usize, usize),
    /// Takes a claim.
    Take,
    /// Finishes the caller's job with its outcome, which pays this amount.
    Finish(i64),
    /// Stops the gate.
    Stop,
    /// Are these the numbers of accepted claims, of ended providers and of decided claims, and is
    /// the gate closed, and stopped?
    Counts(usize, usize, usize, bool, bool),
    /// Is this the identifier of the claim of the caller's job, and are these the amounts that the
    /// member has met, has paid and was paid, and that the family has met and has paid?
    Holds(&'static str, [i64; 5]),
}

/// A line of a script: a caller, what it calls, and the reply, which is a word with a position or
/// a place, or with 0 where it has neither.
#[derive(Clone, Copy)]
pub struct Line(pub Caller, pub Call, pub &'static str, pub usize);

/// A reply as a word with a number.
#[derive(Clone, Copy)]
pub struct Said {
    word: &'static str,
    number: usize,
}

impl Said {
    /// A reply with a position or a place.
    pub fn with_number(word: &'static str, number: usize) -> Said {
        Said { word, number }
    }

    /// A reply without a position or a place.
    pub fn word(word: &'static str) -> Said {
        Said { word, number: 0 }
    }

    /// The reply to a question.
    pub fn is_so(holds: bool) -> Said {
        Said::word(if holds { "yes" } else { "no" })
    }

    /// No ticket is left for the call.
    pub fn worn() -> Said {
        Said::word("worn")
    }

    pub fn is_out_of_memory(self) -> bool {
        self.word == "out of memory"
    }

    pub fn is_yes(self) -> bool {
        self.word == "yes"
    }
}

impl Line {
    /// Ends the test if this is not the reply of the line.
    pub fn check(self, rt: &impl Abort, said: Said) {
        let Line(_, _, word, number) = self;
        expects(rt, said.word == word && said.number == number, word);
    }

    /// The counts of a gate after this line, if they were these before it.
    pub fn counts_after(self, terms: &Terms, before: Counts) -> Counts {
        let Line(_, _, word, _) = self;
        let accepted = count_more(before.accepted, word == "at");
        let ended = count_more(before.ended, word == "ended");
        let decided = count_more(before.decided, word == "recorded");
        let is_reached = terms.cutoff() == Some(accepted as u64);
        Counts {
            accepted,
            ended,
            decided,
            closed: is_reached || terms.files().len() == ended,
            stopped: before.stopped || word == "done",
        }
    }
}

fn count_more(count: usize, is_one_more: bool) -> usize {
    if is_one_more {
        count.saturating_add(1)
    } else {
        count
    }
}

/// The counts of a gate without claims.
pub fn first_counts(terms: &Terms) -> Counts {
    Counts {
        accepted: 0,
        ended: 0,
        decided: 0,
        closed: terms.cutoff() == Some(0),
        stopped: false,
    }
}
