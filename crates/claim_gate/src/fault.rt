//! Why a gate refuses a call. A refused call changes nothing.
ghost use Rattle.std.specs.Prelude.{◌≡◌};
ghost use Rattle.claim_gate.specs.FaultNumber.{
  offer_number_of,
  end_number_of,
  take_number_of,
  finish_number_of,
};

use thiserror::Error;

/// Why a claim is not accepted. The faults are checked in this order.
#[derive(Clone, Copy, Debug, PartialEq, Eq, Drop, Error)]
pub enum OfferFault {
    /// The gate is stopped.
    #[error("the gate is stopped")]
    Stopped,
    /// The journal is closed, so no more claims are accepted.
    #[error("no more claims are accepted")]
    Closed,
    /// The claim is not the provider's next one.
    #[error("the provider's next claim is that at place {expected}")]
    OutOfTurn {
        /// The place of the provider's next claim, from 0.
        expected: usize,
    },
    /// An allocation failed.
    #[error("out of memory")]
    OutOfMemory,
}

/// Why a provider does not end. The faults are checked in this order.
#[derive(Clone, Copy, Debug, PartialEq, Eq, Drop, Error)]
pub enum EndFault {
    /// The gate is stopped.
    #[error("the gate is stopped")]
    Stopped,
    /// The journal is closed, so no more claims are accepted.
    #[error("no more claims are accepted")]
    Closed,
    /// Not all claims of the provider are accepted.
    #[error("the provider's next claim is that at place {expected}")]
    OutOfTurn {
        /// The place of the provider's next claim, from 0.
        expected: usize,
    },
    /// The provider has already ended.
    #[error("the provider has ended before")]
    AlreadyEnded,
    /// An allocation failed.
    #[error("out of memory")]
    OutOfMemory,
}

/// Why no claim is taken.
#[derive(Clone, Copy, Debug, PartialEq, Eq, Drop, Error)]
pub enum TakeFault {
    /// An allocation failed.
    #[error("out of memory")]
    OutOfMemory,
}

/// Why a decision is not recorded. The faults are checked in this order.
#[derive(Clone, Copy, Debug, PartialEq, Eq, Drop, Error)]
pub enum FinishFault {
    /// The gate is stopped.
    #[error("the gate is stopped")]
    Stopped,
    /// The claim is already decided.
    #[error("the claim is decided already")]
    AlreadyDecided,
    /// An allocation failed.
    #[error("out of memory")]
    OutOfMemory,
}

impl OfferFault {
    /// Returns the fault's number.
    pub fn number(self) -> u8
        ensures { result ≡ offer_number_of self }
    {
        match self {
            OfferFault::Stopped => 2,
            OfferFault::Closed => 3,
            OfferFault::OutOfTurn { .. } => 4,
            OfferFault::OutOfMemory => 5,
        }
    }
}

impl EndFault {
    /// Returns the fault's number.
    pub fn number(self) -> u8
        ensures { result ≡ end_number_of self }
    {
        match self {
            EndFault::Stopped => 2,
            EndFault::Closed => 3,
            EndFault::OutOfTurn { .. } => 4,
            EndFault::AlreadyEnded => 5,
            EndFault::OutOfMemory => 6,
        }
    }
}

impl TakeFault {
    /// Returns the fault's number.
    pub fn number(self) -> u8
        ensures { result ≡ take_number_of self }
    {
        match self {
            TakeFault::OutOfMemory => 6,
        }
    }
}

impl FinishFault {
    /// Returns the fault's number.
    pub fn number(self) -> u8
        ensures { result ≡ finish_number_of self }
    {
        match self {
            FinishFault::Stopped => 2,
            FinishFault::AlreadyDecided => 3,
            FinishFault::OutOfMemory => 4,
        }
    }
}
