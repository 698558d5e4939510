//! Tests of the crates around the commands, `diagnostics` and `console`, where no end-to-end case shows a result. They have a crate of their own, since
//! the tests of a crate are proved together with all of its code.
#![tactic(auto)]

#[cfg(test)]
mod atomic_files;
#[cfg(test)]
mod ending;
#[cfg(test)]
mod explanations;
#[cfg(test)]
mod places;
#[cfg(test)]
mod reading;
