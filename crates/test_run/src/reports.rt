//! `write_report` over writers that are full, and with memory refused.
ghost use Rattle.std.specs.Prelude.{◌≡◌};

use crate::testing::{expects, expects_at};
use crate::writers::{WhenFull, is_filled, narrow_writer};
use adjudicate::Stop;
use claim_gate::{Batch, Terms};
use fixpoint::Out;
use remit::write_report;
use std::alloc::Global;
use std::process::Abort;

// A writer with room for `limit` bytes of the report receives exactly these.
fn fills(
    rt: &impl Abort,
    alloc: Global,
    terms: &Terms,
    batch: &Batch,
    limit: usize,
    when_full: WhenFull,
    text: &str,
)
    requires { batch.now.terms ≡ terms.now }
{
    let mut out = narrow_writer(rt, alloc, limit, 1_024, when_full);
    let answer = match write_report(alloc, terms, batch, &mut out) {
        Ok(()) => Ok(()),
        Err(fault) => Err(Stop::from(fault)),
    };
    let is_so = is_filled(answer, out, limit, text.as_bytes());
    expects_at(rt, is_so, limit);
}

/// Tries each room up to that for the whole report.
pub fn fills_each(rt: &impl Abort, alloc: Global, terms: &Terms, batch: &Batch, text: &str)
    requires { batch.now.terms ≡ terms.now }
{
    for limit in 0..=text.len() {
        fills(rt, alloc, terms, batch, limit, WhenFull::Fails, text);
        fills(rt, alloc, terms, batch, limit, WhenFull::TakesNothing, text);
    }
}

// Returns whether a writer has received the first `count` bytes of the report, and has failed only
// before its end.
fn has_front(out: Out<Vec<u8>>, report: &[u8], count: usize) -> bool {
    let has_failed = out.failed();
    let taken = out.into_inner();
    taken.len() == count
        && report.starts_with(taken.as_slice())
        && (count < report.len() || !has_failed)
}

// Returns whether the whole report was written. Otherwise the writer has received its first bytes,
// and the fault has their number: a `Vec` that cannot grow is a writer that fails.
fn is_written(rt: &impl Abort, alloc: Global, terms: &Terms, batch: &Batch, report: &[u8]) -> bool
    requires { batch.now.terms ≡ terms.now }
{
    let mut out = Out::new(Vec::new(alloc));
    let (count, is_whole) = match write_report(alloc, terms, batch, &mut out) {
        Ok(()) => (report.len(), true),
        Err(fault) => (fault.written, false),
    };
    expects(rt, has_front(out, report, count), "the first bytes");
    is_whole
}

/// Requires that the report is this text. A report that is refused memory is written once more.
pub fn is_report(rt: &impl Abort, alloc: Global, terms: &Terms, batch: &Batch, text: &str)
    requires { batch.now.terms ≡ terms.now }
{
    if !is_written(rt, alloc, terms, batch, text.as_bytes()) {
        let again = is_written(rt, alloc, terms, batch, text.as_bytes());
        expects(rt, again, "this report");
    }
}
