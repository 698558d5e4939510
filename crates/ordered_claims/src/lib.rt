//! The claims of all files of a run, one after another in the order that the run's terms ask for.
//!
//! A reader of each file makes claims of its records, ahead of those that are given, and a queue of
//! each file has the claims that it may give. `OrderedClaims` is both, for one thread: each call of
//! `next` returns the one of the files' next claims that comes first in the order, and reads the
//! claim after it. Taken apart, `ClaimQueues` gives the claims that are read, while `ClaimReaders`
//! reads more of them in other threads. With the order of the files or with none, the claims come
//! file after file.
//!
//! Begin with `specs/OrderedParts.antt`, which defines a reader and its next offer; then read
//! `reader.rt`, `queues.rt` and `readers.rt`. `specs/ReadAhead.antt` and `specs/Queued.antt` say what is
//! known of each file, and `specs/FirstHead.antt` which of the files' next claims is the first one.
#![tactic(auto)]

mod file_queue;
mod file_reader;
mod heads;
mod limits;
mod next_claim;
mod queues;
mod reader;
mod readers;

pub use next_claim::NextClaim;
pub use queues::ClaimQueues;
pub use reader::OrderedClaims;
pub use readers::ClaimReaders;
