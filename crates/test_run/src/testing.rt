//! Helpers that several tests share.
use adjudicate::{LINE_LIMIT_BYTES, Stop};
use claim_gate::Terms;
use dtable::read_plan;
use std::alloc::Global;
use std::process::Abort;
use tables::Plan;
use test_fixtures::health_plan;

/// Returns the plan of the worked examples. Here and below, a refused allocation is tried once
/// more.
pub fn plan_of(rt: &impl Abort, alloc: Global) -> Plan {
    if let Ok(plan) = read_plan(alloc, health_plan().as_bytes()) {
        return plan;
    }
    let Ok(plan) = read_plan(alloc, health_plan().as_bytes()) else {
        fail(rt, "a plan")
    };
    plan
}

/// Returns the terms of a plan, of files and of a cutoff.
pub fn terms_of<'a>(
    rt: &impl Abort,
    alloc: Global,
    plan: &'a Plan,
    files: &'a [&'a [u8]],
    cutoff: Option<u64>,
) -> Terms<'a> {
    if let Ok(terms) = Terms::new(alloc, plan, files, None, cutoff) {
        return terms;
    }
    let Ok(terms) = Terms::new(alloc, plan, files, None, cutoff) else {
        fail(rt, "terms")
    };
    terms
}

/// Ends the test. A `panic!` in the caller would format its message there, which is more to prove.
pub fn fail(rt: &impl Abort, wanted: &str) -> ! {
    panic!(rt; "not there: {wanted}")
}

/// Ends the test if this does not hold. Unlike an `assert!`, it has no branch in the caller.
pub fn expects(rt: &impl Abort, holds: bool, wanted: &str) {
    assert!(rt; holds, "not there: {wanted}");
}

/// Ends the test if this does not hold. The number says which case it is.
pub fn expects_at(rt: &impl Abort, holds: bool, number: usize) {
    assert!(rt; holds, "not at {number}");
}

/// Returns whether the error has this line and this status.
pub fn says(stop: &Stop, line: &str, status: u8) -> bool {
    let mut buffer = [0; LINE_LIMIT_BYTES];
    let length = stop.write_line(&mut buffer);
    &buffer[..length] == line.as_bytes() && stop.status() == status
}
