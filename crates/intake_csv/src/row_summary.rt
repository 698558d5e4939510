//! The summary of a row, which has what a report needs.
use faults::RowFault;

/// The summary of a row of a claim file: the columns that identify a claim, or the fault.
#[derive(Clone, Copy, Drop)]
pub enum RowSummary {
    /// A claim. Its number is that of its record after the header, from 1. Its place is its index
    /// among the claims of the file, from 0.
    Good {
        number: usize,
        place: usize,
        id_columns: IdColumns,
    },
    /// A refused record, with its number and its first fault.
    Bad {
        number: usize,
        fault: RowFault,
    },
}

/// The places of the fields that identify a claim in its record, from 0.
#[derive(Clone, Copy, Drop)]
pub struct IdColumns {
    /// The place of the claim's identifier.
    pub id: usize,
    /// The place of the family's identifier, if there is a column for it.
    pub family: Option<usize>,
    /// The place of the member's identifier.
    pub member: usize,
    /// The place of the date of service.
    pub service: usize,
}
