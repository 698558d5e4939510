//! Faults while a text is read, before their offset in the whole text is known.
ghost use Rattle.std.specs.Prelude.{◌≡◌, ℕ, ◌-◌, List, length, IfOk, OnErr};
ghost use Rattle.feel_tests.specs.Words.{Sign, Begins, skip_white};
ghost use Rattle.faults.specs.declared.cell_fault.CellCause.TheVariants.{OutOfMemory};

use crate::symbol::Symbol;
use crate::word::{after_symbol, skip_white};
use faults::{CellCause, CellFault};
use std::alloc::{AllocError, AllocFailed};

/// A fault with its position, as the number of bytes from there to the end of the text.
#[derive(Clone, Copy, Drop)]
pub struct Refusal {
    pub left: usize,
    pub cause: CellCause,
}

impl Refusal {
    /// Makes a fault at the first byte of the text that is not white space, or at its end.
    pub fn at(text: &[u8], cause: CellCause) -> Refusal
        ensures cause { result.cause ≡ cause }
        ensures left { result.left ≡ length (skip_white text.now) }
    {
        Refusal {
            left: skip_white(text).len(),
            cause,
        }
    }

    /// Returns the fault with its offset in the whole text.
    pub fn fault_in(self, whole: &str) -> CellFault
        ensures cause { result.cause ≡ self.cause }
        ensures at { result.at ≡ length whole.now - self.left }
    {
        CellFault {
            at: whole.len().saturating_sub(self.left),
            cause: self.cause,
        }
    }
}

impl From<AllocError> for Refusal {
    ghost from_gives = { λ _ refusal. refusal.cause ≡ OutOfMemory };

    fn from(_fault: AllocError) -> Refusal {
        Refusal {
            left: 0,
            cause: CellCause::OutOfMemory,
        }
    }
}

impl<T: Drop> From<AllocFailed<T>> for Refusal {
    ghost from_gives = { λ _ refusal. refusal.cause ≡ OutOfMemory };

    fn from(_fault: AllocFailed<T>) -> Refusal {
        Refusal {
            left: 0,
            cause: CellCause::OutOfMemory,
        }
    }
}

/// Requires the symbol at the start of the text and returns the rest.
pub fn symbol_at(text: &[u8], symbol: Symbol) -> Result<&[u8], Refusal>
    ensures ok { IfOk result (λ rest. Begins text.now (Sign symbol) rest.now) }
    ensures refused { OnErr result ((rest : List ℕ) → ¬ Begins text.now (Sign symbol) rest) }
{
    match after_symbol(text, symbol) {
        Some(rest) => Ok(rest),
        None => Err(Refusal::at(text, CellCause::Token)),
    }
}
