//! The command `value` over the rows of a file: it evaluates a plan's tables for each row, and writes
//! the rows with their values.

ghost use Rattle.std.specs.Prelude.{◌≡◌, IfOk, IfErr, OnOk};
ghost use Rattle.fixpoint.specs.Out.{writer_of, has_failed};
ghost use Rattle.evaluation.specs.Stop.{WritesText};
ghost use Rattle.plan_rows.specs.RowsStop.{IsReason, RefusesTexts, WritesUntil, failed_after};
ghost use Rattle.plan_rows.specs.ValuedRows.{IsRowsText};

use crate::rows_stop::RowsStop;
use crate::valued_rows::valued_text;
use dtable::read_plan;
use evaluation::ValueStop;
use fixpoint::{Out, ShortWrite, put_all};
use std::alloc::Global;
use std::io::Write;

/// Evaluates a plan's tables for each row of a file, and writes the rows with the outputs of the plan
/// and the column `fault` as further columns, as CSV (RFC 4180) with CRLF after each record.
///
/// The first record names the columns: a name of the plan gives its value, and the fields of any
/// other column are carried over as they are. The fault of a row is that of the tables, `value:N` for
/// a field in the column with the number N that denotes no value of its name's kind, or `fieldcount`
/// for another number of fields than the header has. The outputs of such a row are empty.
/// The whole text is made before its first byte is written.
#[tactic(auto, using(crate::proofs::RowRefusals::refused_is_reason, crate::proofs::RowRefusals::refused_keeps, crate::proofs::RowRefusals::refused_unfailed, crate::proofs::RowRefusals::writes_rows, crate::proofs::RowRefusals::writes_front))]
pub fn do_rows<W: Write>(
    alloc: Global,
    plan: &[u8],
    rows: &[u8],
    out: &mut Out<W>,
) -> Result<(), RowsStop>
    ensures written { OnOk result (WritesText (IsRowsText plan.now rows.now)
        (W.contents (writer_of out.old)) (W.contents (writer_of out.new))) }
    ensures reason { IfErr result (IsReason plan.now rows.now) }
    ensures stopped { IfErr result (WritesUntil (IsRowsText plan.now rows.now)
        (W.contents (writer_of out.old)) (W.contents (writer_of out.new))) }

    // The writer has failed after a write fault, and otherwise only if it had failed before.
    ensures ok_failed { OnOk result (has_failed out.new ≡ has_failed out.old) }
    ensures failed { IfErr result (λ stop.
        has_failed out.new ≡ failed_after (has_failed out.old) stop) }
{
    let text = rows_text(alloc, plan, rows)?;
    match put_all(text.as_slice(), out) {
        Ok(()) => Ok(()),
        Err(ShortWrite { written }) => Err(RowsStop::Value(ValueStop::Write { written })),
    }
}

fn rows_text(alloc: Global, plan: &[u8], rows: &[u8]) -> Result<Vec<u8>, RowsStop>
    ensures text { IfOk result (λ text. IsRowsText plan.now rows.now text.items) }
    ensures refused { IfErr result (RefusesTexts plan.now rows.now) }
{
    let plan = read_plan(alloc, plan)?;
    let text = valued_text(alloc, &plan, rows);
    drop(plan);
    text
}
