//! The reasons why a text is not a number.
use thiserror::Error;

/// The reason why a text is not a number. If several apply, the first in this order is returned.
#[derive(Clone, Copy, Debug, PartialEq, Eq, Error)]
pub enum NumFault {
    /// The text does not have the form of a number.
    #[error("not a number")]
    NotNumber,
    /// A digit after the fourth decimal is not zero.
    #[error("more than four decimals")]
    TooFine,
    /// The number is greater than 99999999999.9999 or less than -99999999999.9999.
    #[error("beyond 99999999999.9999")]
    TooLarge,
}
