//! Assertions of the tests. A call of these functions takes less of its caller's proof than a
//! `panic!` or an `assert!`, which builds a message in the caller at every exit. Each test crate
//! has its own copy, because no library may end the process.
use std::process::Abort;

/// Ends the test with a message that says what is missing.
pub fn fail(rt: &impl Abort, wanted: &str) -> ! {
    panic!(rt; "not there: {wanted}")
}

/// Ends the test with a message unless the condition holds.
pub fn expects(rt: &impl Abort, holds: bool, wanted: &str) {
    assert!(rt; holds, "not there: {wanted}");
}

/// Ends the test with the number of the failed case unless the condition holds.
pub fn expects_at(rt: &impl Abort, holds: bool, number: usize) {
    assert!(rt; holds, "not at {number}");
}
