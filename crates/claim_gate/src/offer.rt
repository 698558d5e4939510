//! Offers of claims.

use journal::BoxedClaim;

/// An offer of a provider's claim. Providers count from 1.
#[derive(Drop)]
pub struct Offer {
    /// The provider.
    pub provider: usize,
    /// The claim's place among the claims of the provider's file, from 0.
    pub place: usize,
    /// The claim.
    pub claim: BoxedClaim,
}
