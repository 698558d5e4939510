//! Functions that end a failed test. A call of these costs the caller's proof less than a `panic!`
//! or an `assert!`, which formats a message in the caller at each exit. Each crate of tests has its
//! own copy, since no library may end the process.
use std::process::Abort;

/// Ends the test with a message.
pub fn fail(rt: &impl Abort, wanted: &str) -> ! {
    panic!(rt; "not there: {wanted}")
}

/// Ends the test with a message unless the condition holds.
pub fn expects(rt: &impl Abort, holds: bool, wanted: &str) {
    assert!(rt; holds, "not there: {wanted}");
}

/// Ends the test with the number of the failed case unless the condition holds.
pub fn expects_at(rt: &impl Abort, holds: bool, number: usize) {
    assert!(rt; holds, "not at {number}");
}
