//! Tests of `fixpoint`, `feel_tests`, `dtable` and `cutplan` by worked examples. They are outside
//! these crates, because the tests of a crate are proved together with all of its code, and they
//! share one crate, because each test program costs the time to read the libraries that it uses.
#![tactic(auto)]

#[cfg(test)]
mod answers;
#[cfg(test)]
mod cells;
#[cfg(test)]
mod chains;
#[cfg(test)]
mod cuts;
#[cfg(test)]
mod ending;
#[cfg(test)]
mod numbers;
#[cfg(test)]
mod plans;
