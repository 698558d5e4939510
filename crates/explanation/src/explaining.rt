//! The explanation of a record: it settles the claims of a family up to the claim that is explained, and
//! writes how this claim is settled.
ghost use Rattle.std.specs.Prelude.{◌≢◌, IfErr, IfOk};
ghost use Rattle.fixpoint.specs.Out.{writer_of};
ghost use Rattle.explanation.specs.Explained.{IsExplainReason, Writes, explained_texts};

use crate::asked::{Asked, Target, explanation};
use crate::format::Format;
use crate::row::Place;
use claim_gate::Order;
use evaluation::ValueStop;
use fixpoint::{Out, ShortWrite, put_all};
use orders::Stop;
use std::alloc::Global;
use std::io::Write;

/// The input of an explanation.
#[derive(Clone, Copy)]
pub struct ExplainInput<'a> {
    /// The text of the plan.
    pub plan: &'a [u8],
    /// The text of the opening balances. Without it, all accumulators begin at zero.
    pub balances: Option<&'a [u8]>,
    /// The texts of the providers' files. The first of them is the file of provider 1.
    pub files: &'a [&'a [u8]],
    /// The greatest number of claims that are accepted, or `None` for no limit.
    pub cutoff: Option<u64>,
    /// The order in which claims are accepted.
    pub order: Order,
    /// The record that is explained.
    pub place: Place,
    /// The form of the explanation.
    pub format: Format,
}

/// What an explanation says.
#[derive(Clone, Copy)]
pub enum Explained {
    /// The whole explanation is written.
    Whole,
    /// The files have no record at the place.
    NoRecord,
}

/// Explains a record of the remittance in an order, by files or by day of service: how its claim is
/// settled, or why it is refused. The caller's thread does all the work, and decides only the claims
/// of the claim's family. The whole text is made before its first byte is written.
pub fn do_explain<W: Write>(
    alloc: Global,
    input: ExplainInput,
    out: &mut Out<W>,
) -> Result<Explained, Stop>
    requires ordered { input.order ≢ Order.Any }
    ensures written { IfOk result (Writes input.entry.order (explained_texts input.entry)
        input.entry.place input.entry.format
        (W.contents (writer_of out.old)) (W.contents (writer_of out.new))) }
    ensures reason { IfErr result (IsExplainReason (explained_texts input.entry)) }
{
    let asked = Asked {
        plan: input.plan,
        balances: input.balances,
        files: input.files,
        cutoff: input.cutoff,
        order: input.order,
        target: Target::Record(input.place),
        format: input.format,
    };
    let Some(text) = explanation(alloc, asked)? else {
        return Ok(Explained::NoRecord);
    };
    match put_all(text.as_slice(), out) {
        Ok(()) => Ok(Explained::Whole),
        Err(ShortWrite { written }) => Err(Stop::Value(ValueStop::Write { written })),
    }
}
