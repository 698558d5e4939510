//! Tests of `settlement`, `journal`, `intake_csv`, `claim_gate` and `ordered_claims` by worked examples.
//! Those of the first two are what no run shows: calls that are refused memory, and hosts with
//! valuers of their own. They are a crate of their own, since the tests of a crate are proved
//! together with all of its code.
#![tactic(auto)]

#[cfg(test)]
mod balances;
#[cfg(test)]
mod claims;
#[cfg(test)]
mod ending;
#[cfg(test)]
mod ordered;
#[cfg(test)]
mod settling;
#[cfg(test)]
mod terms;
#[cfg(test)]
mod turns;
