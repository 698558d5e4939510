//! The command `value`: it evaluates a plan's tables for given arguments, and writes one line for
//! each output.

ghost use Rattle.std.specs.Prelude.{◌≡◌, IfOk, IfErr, OnOk};
ghost use Rattle.fixpoint.specs.Out.{writer_of, has_failed};
ghost use Rattle.evaluation.specs.Arguments.{argument_texts};
ghost use Rattle.evaluation.specs.ValueText.{IsTextOf, IsValueText};
ghost use Rattle.evaluation.specs.Stop.{WritesText, WritesUntil, IsReason, failed_after, RefusesText, RefusesValue};

pub mod arguments;
pub mod text;

use crate::output::put_text;
use crate::stop::ValueStop;
use arguments::{first_missing, read_arguments};
use dtable::read_plan;
use fixpoint::Out;
use std::alloc::Global;
use std::io::Write;
use tables::{Name, Plan, Valuer};
use text::value_lines;

/// Evaluates the plan's tables for the arguments, each of the form `NAME=LITERAL`, and writes the
/// value of each output. The whole text is made before its first byte is written.
#[tactic(auto, using(crate::proofs::Refusals::writes_whole, crate::proofs::Refusals::writes_front))]
pub fn do_value<W: Write>(
    alloc: Global,
    plan: &[u8],
    arguments: &[&str],
    out: &mut Out<W>,
) -> Result<(), ValueStop>
    ensures written { OnOk result (WritesText (IsValueText plan.now (argument_texts arguments.now))
        (W.contents (writer_of out.old)) (W.contents (writer_of out.new))) }
    ensures reason { IfErr result (IsReason plan.now (argument_texts arguments.now)) }
    ensures stopped { IfErr result (WritesUntil
        (IsValueText plan.now (argument_texts arguments.now))
        (W.contents (writer_of out.old)) (W.contents (writer_of out.new))) }

    // The writer has failed after a write fault, and otherwise only if it had failed before.
    ensures ok_failed { OnOk result (has_failed out.new ≡ has_failed out.old) }
    ensures failed { IfErr result (λ stop.
        has_failed out.new ≡ failed_after (has_failed out.old) stop) }
{
    let text = value_text(alloc, plan, arguments)?;
    put_text(text.as_slice(), out)
}

fn value_text(alloc: Global, plan: &[u8], arguments: &[&str]) -> Result<Vec<u8>, ValueStop>
    ensures text { IfOk result (λ text.
        IsValueText plan.now (argument_texts arguments.now) text.items) }
    ensures refused { IfErr result (RefusesText plan.now (argument_texts arguments.now)) }
{
    let plan = read_plan(alloc, plan)?;
    let text = plan_text(alloc, &plan, arguments);
    drop(plan);
    text
}

fn plan_text(alloc: Global, plan: &Plan, arguments: &[&str]) -> Result<Vec<u8>, ValueStop>
    ensures text { IfOk result (λ text.
        IsTextOf plan.now (argument_texts arguments.now) text.items) }
    ensures refused { IfErr result (RefusesValue plan.now (argument_texts arguments.now)) }
{
    let inputs = read_arguments(alloc, plan, arguments)?;
    if let Some(input) = first_missing(plan, &inputs) {
        return Err(ValueStop::Missing(Name::new(alloc, input.name.as_str())?));
    }
    let values = plan.value(alloc, &inputs)?;
    Ok(value_lines(alloc, plan.tables(), &values)?)
}
