//! The faults that end the writing of a remittance early.
ghost use Rattle.std.specs.Prelude.{◌≡◌};
ghost use Rattle.faults.specs.WriteCauseNumber.{number_of};

use thiserror::Error;

/// The reason why the writing of a remittance ended early.
#[derive(Clone, Copy, Debug, PartialEq, Eq, Drop, Error)]
pub enum WriteCause {
    /// The writer failed and takes no more bytes.
    #[error("the writer takes no more bytes")]
    Device,
    /// Memory ran out.
    #[error("out of memory")]
    OutOfMemory,
}

impl WriteCause {
    /// Returns the number of the cause, from 1 to 2.
    pub fn number(self) -> u8
        ensures { result ≡ number_of self }
    {
        match self {
            WriteCause::Device => 1,
            WriteCause::OutOfMemory => 2,
        }
    }
}

/// A fault that ended the writing of a remittance early.
#[derive(Clone, Copy, Debug, PartialEq, Eq, Drop, Error)]
#[error("after {written} bytes: {cause}")]
pub struct WriteFault {
    /// The number of bytes of the remittance that the writer received.
    pub written: usize,
    /// The reason why it received no more.
    pub cause: WriteCause,
}
