//! The gate of a run accepts the providers' claims, hands each one out when its family's earlier claims are decided, and
//! keeps the journal.
//!
//! A `GateState` is the gate as a single thread uses it. An intake, which reads a provider's file, calls `offer` and `end`; a
//! worker, which decides claims, calls `take` and `finish`; `stop` ends the run. The journal is always valid. A `Batch` is a
//! run whose journal is finished. A `LockedGate` protects a `GateState` with a lock from `turn_lock`, and the trait `Gate` has
//! the calls of its users. The trait `Prefetching` adds a call that saves time and changes no result. `journal`
//! orders the claims of a family, and defines journals and the calls.
//!
//! `Terms::new` takes a plan, the texts of the providers' files, the text of the balances and a cutoff, and returns their
//! `Terms`, or the first `TermsFault`; `Terms::with_order` also takes the `Order` in which claims are accepted.
//! `specs/Terms.antt` defines terms, and `specs/TermsFault.antt` defines each fault.
//!
//! Begin with `specs/Parts.antt` and `specs/Replies.antt`, which relate the calls to the definitions of `journal`; then read
//! `state.rt`. `specs/GateIndex.antt` defines the indexes that save each call from a walk over the journal. For the shared gate
//! read `specs/Shared.antt`, then `gate.rt` and `locked.rt`.
#![tactic(auto)]

mod answer;
mod batch;
mod counts;
mod fault;
mod gate;
mod intakes;
mod job;
mod laws;
mod locked;
mod offer;
mod prefetching;
mod reply;
mod serial;
mod state;
mod terms;

pub use answer::{FinishResult, OfferResult, Refused, Served, WornOut};
pub use batch::Batch;
pub use counts::Counts;
pub use fault::{EndFault, FinishFault, OfferFault, TakeFault};
pub use faults::TermsFault;
pub use gate::Gate;
pub use job::{DecidedJob, Job};
pub use journal::{BoxedClaim, BoxedOutcome, Event, Order};
pub use laws::{claim_lists_exist, families_of_texts_are_their_members};
pub use locked::LockedGate;
pub use offer::Offer;
pub use prefetching::{Prefetching, SerialPrefetching};
pub use reply::{Accepted, Ended, Recorded, Taken};
pub use serial::SerialGate;
pub use state::GateState;
pub use terms::{FILES_LIMIT, Terms};
