//! The journal of a run: the rules that a lawful journal obeys, when a journal is finished, and
//! which event may come next. And the queues of claims: the claims of each family are decided one
//! after another.
//!
//! `event` defines the events that a journal consists of. The definitions begin with
//! `specs/Terms.antt` and `specs/Events.antt`, `specs/Lawful.antt` has the rules, and `laws` lists
//! what follows from them. `by_hand` tries the definitions on journals that were worked out by
//! hand.
//!
//! `Lanes` has a place for each accepted claim, by position. A claim waits until the earlier claims
//! of its family are decided. Then it is ready and can be taken, with the accumulators after the
//! last claims of its account and of its family, and finally it is decided. Begin with
//! `specs/Places.antt` and `specs/Calls.antt`; then read `lanes.rt`.
//!
//! The crate has no threads, and only `Lanes` has a state.
#![tactic(auto)]

mod accumulator_key;
mod boxed_claim;
mod boxed_outcome;
mod by_hand;
mod event;
mod family_queues;
mod hints;
mod index32;
mod lanes;
mod last_by_key;
mod last_by_member;
mod last_by_number;
mod last_claim_index;
mod laws;
mod link;
mod names;
mod order;
mod phase;
mod prefetcher;
mod ready_claim;
mod slot;

pub use boxed_claim::BoxedClaim;
pub use boxed_outcome::BoxedOutcome;
pub use event::Event;
pub use lanes::Lanes;
pub use laws::{
    due_claim_stays_in_order, empty_journal_is_lawful, families_are_their_members,
    finished_is_final, finished_takes_all, fitting_event_keeps_lawful, gate_keeps_lawful,
    histories_are_linear, jobs_are_stable, leads_in_order, members_take_turns,
    order_leaves_no_choice,
};
pub use order::Order;
pub use ready_claim::ReadyClaim;
