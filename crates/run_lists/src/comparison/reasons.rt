//! Counts of the records by status and reason, under two plans.

use crate::comparison::remittances::Remittances;
use std::alloc::{AllocError, Global};

/// The number of records with a status and a reason under the old plan, and under the new one.
pub struct ReasonCount {
    pub status: Vec<u8>,
    pub reason: Vec<u8>,
    pub old: u64,
    pub new: u64,
}

impl Drop for ReasonCount {
    fn drop(self) {
        let ReasonCount {
            status: _,
            reason: _,
            old: _,
            new: _,
        } = self;
    }
}

/// The counts of the records so far, in the order in which a status with a reason comes first.
pub struct Reasons {
    counts: Vec<ReasonCount>,
}

impl Drop for Reasons {
    fn drop(self) {
        let Reasons { counts: _ } = self;
    }
}

impl Reasons {
    /// Returns no counts.
    pub fn new(alloc: Global) -> Reasons {
        Reasons {
            counts: Vec::new(alloc),
        }
    }

    /// Counts a record of both remittances.
    pub fn count(&mut self, alloc: Global, both: &Remittances<'_>) -> Result<(), AllocError> {
        self.add(
            alloc,
            both.old_field(b"status"),
            both.old_field(b"reason"),
            1,
            0,
        )?;
        self.add(
            alloc,
            both.new_field(b"status"),
            both.new_field(b"reason"),
            0,
            1,
        )
    }

    /// Returns the counts.
    pub fn into_counts(self) -> Vec<ReasonCount> {
        let Reasons { counts } = self;
        counts
    }

    fn add(
        &mut self,
        alloc: Global,
        status: &[u8],
        reason: &[u8],
        old: u64,
        new: u64,
    ) -> Result<(), AllocError> {
        for known in self.counts.iter_mut() {
            if known.status.as_slice() == status && known.reason.as_slice() == reason {
                known.old = known.old.saturating_add(old);
                known.new = known.new.saturating_add(new);
                return Ok(());
            }
        }
        let status = Vec::from_slice(alloc, status)?;
        let reason = Vec::from_slice(alloc, reason)?;
        self.counts.push(ReasonCount {
            status,
            reason,
            old,
            new,
        })?;
        Ok(())
    }
}
