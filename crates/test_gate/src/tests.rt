//! Tests of the gate on worked examples.

mod alone;
mod events;
mod filing;
mod lines;
mod locks;
mod meeting;
mod own_gate;
mod play;
mod replies;
mod rivals;
mod runs;
mod scripts;
mod seats;

use std::process::Abort;

// Ends the test. A call of this function costs less proof in its caller than a `panic!` there,
// which would format a message in the caller.
fn fail(rt: &impl Abort, wanted: &str) -> ! {
    panic!(rt; "not there: {wanted}")
}

// Ends the test if the condition is false. Unlike an `assert!`, a call has no branch in the caller.
fn expects(rt: &impl Abort, holds: bool, wanted: &str) {
    assert!(rt; holds, "not there: {wanted}");
}
