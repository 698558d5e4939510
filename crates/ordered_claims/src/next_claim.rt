//! What comes next of the claims of all files.

use claim_gate::Offer;

/// What comes next of the claims of all files, in the order of the terms.
pub enum NextClaim {
    /// The next claim, as an offer.
    Given(Offer),
    /// The next claim may be one that is not read yet.
    Unread,
    /// All claims of all files are given.
    NoneLeft,
}
