//! The command `value`: it evaluates a plan's tables for given arguments, and writes one line for
//! each output.

ghost use Rattle.std.specs.Prelude.{◌≡◌, IfErr, OnOk};
ghost use Rattle.fixpoint.specs.Out.{writer_of, has_failed};
ghost use Rattle.claim_gate.specs.Terms.{texts_of};
ghost use Rattle.evaluation.specs.Stop.{WritesText};
ghost use Rattle.evaluation.specs.ValueText.{IsValueText};
ghost use Rattle.orders.specs.Stop.{WritesUntil, IsReason, failed_after};

use fixpoint::Out;
use orders::Stop;
use std::alloc::Global;
use std::io::Write;

/// Evaluates the plan's tables for the arguments, each of the form `NAME=LITERAL`, and writes the
/// value of each output. The whole text is made before its first byte is written.
pub fn do_value<W: Write>(
    alloc: Global,
    plan: &[u8],
    arguments: &[&str],
    out: &mut Out<W>,
) -> Result<(), Stop>
    ensures written { OnOk result (WritesText (IsValueText plan.now (texts_of arguments.now))
        (W.contents (writer_of out.old)) (W.contents (writer_of out.new))) }
    ensures reason { IfErr result (IsReason plan.now (texts_of arguments.now)) }
    ensures stopped { IfErr result (WritesUntil (IsValueText plan.now (texts_of arguments.now))
        (W.contents (writer_of out.old)) (W.contents (writer_of out.new))) }

    // The writer has failed after a write fault, and otherwise only if it had failed before.
    ensures ok_failed { OnOk result (has_failed out.new ≡ has_failed out.old) }
    ensures failed { IfErr result (λ stop.
        has_failed out.new ≡ failed_after (has_failed out.old) stop) }
{
    match evaluation::do_value(alloc, plan, arguments, out) {
        Ok(()) => Ok(()),
        Err(stop) => Err(Stop::Value(stop)),
    }
}
