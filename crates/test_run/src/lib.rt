//! Tests of `crew`, `remit` and `adjudicate`. They have a crate of their own, because the tests of a
//! crate are proved together with all of its code.
//!
//! What a command writes for which texts is shown by the cases of the program. These tests show what
//! a case can't: the calls of the library, writers that fail after any number of bytes, memory that
//! is refused, and threads on a gate that others use too.
#![tactic(auto)]

#[cfg(test)]
mod commands;
#[cfg(test)]
mod fault_lines;
#[cfg(test)]
mod reports;
#[cfg(test)]
mod runs;
#[cfg(test)]
mod testing;
#[cfg(test)]
mod threads;
#[cfg(test)]
mod writers;
