//! The boxes of decided claims, which claims that are read later take.
//!
//! One thread reads a claim, and another one decides it. If that one freed the claim's memory, it would contend with all other
//! threads for the allocator of the reading thread.

use claim_gate::BoxedClaim;
use std::alloc::Global;
use std::mem::replace;
use std::sync::{Mutex, Wait};

/// The maximum number of lists that are kept: those of the turns in which the claims that are read ahead are decided.
const LISTS_LIMIT: usize = 64;

/// Lists of the boxes of decided claims. Which boxes they are has no effect on a result.
pub struct SpareClaims {
    alloc: Global,
    lists: Mutex<Vec<Vec<BoxedClaim>>>,
}

impl Drop for SpareClaims {
    fn drop(self) {
        let SpareClaims { alloc: _, lists: _ } = self;
    }
}

impl SpareClaims {
    /// Creates the state without a box.
    pub fn new(alloc: Global) -> SpareClaims {
        SpareClaims {
            alloc,
            lists: Mutex::new(Vec::new(alloc)),
        }
    }

    /// Keeps the boxes of a worker's turn. They are dropped if there are enough lists, or if memory runs out.
    pub fn put<R: Wait>(&self, rt: &R, list: Vec<BoxedClaim>) {
        if list.is_empty() {
            return;
        }
        let mut lists = self.lists.lock(rt);
        if lists.len() < LISTS_LIMIT {
            let _ = lists.push(list);
        }
    }

    /// Returns the boxes of one turn, or an empty list if there are none.
    pub fn take<R: Wait>(&self, rt: &R) -> Vec<BoxedClaim> {
        match self.lists.lock(rt).pop() {
            Some(list) => list,
            None => Vec::new(self.alloc),
        }
    }

    /// Returns all lists.
    pub fn take_all<R: Wait>(&self, rt: &R) -> Vec<Vec<BoxedClaim>> {
        replace(&mut *self.lists.lock(rt), Vec::new(self.alloc))
    }
}
