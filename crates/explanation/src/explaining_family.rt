//! The explanation of all claims of a family: it settles each of them once, in the order of
//! acceptance, and explains it then.
ghost use Rattle.std.specs.Prelude.{◌≢◌, IfErr, IfOk};
ghost use Rattle.fixpoint.specs.Out.{writer_of};
ghost use Rattle.explanation.specs.Explained.{IsExplainReason, WritesFamily, family_texts};

use crate::asked::{Asked, Target, explanation};
use crate::explaining::Explained;
use crate::format::Format;
use claim_gate::Order;
use evaluation::ValueStop;
use fixpoint::{Out, ShortWrite, put_all};
use orders::Stop;
use std::alloc::Global;
use std::io::Write;

/// The input of an explanation of a family.
#[derive(Clone, Copy)]
pub struct ExplainFamilyInput<'a> {
    /// The text of the plan.
    pub plan: &'a [u8],
    /// The text of the opening balances. Without it, all accumulators begin at zero.
    pub balances: Option<&'a [u8]>,
    /// The texts of the providers' files. The first of them is the file of provider 1.
    pub files: &'a [&'a [u8]],
    /// The greatest number of claims that are accepted, or `None` for no limit.
    pub cutoff: Option<u64>,
    /// The order in which claims are accepted.
    pub order: Order,
    /// The family whose claims are explained. Under a plan without families it is a member.
    pub family: &'a str,
    /// The form of the explanation.
    pub format: Format,
}

/// Explains the records of all claims of a family in the remittance in an order, by files or by day of
/// service: one claim after another in this order, with the claims that are late after the cutoff. The
/// caller's thread does all the work, and decides only the claims of the family. The whole text is made
/// before its first byte is written.
pub fn do_explain_family<W: Write>(
    alloc: Global,
    input: ExplainFamilyInput,
    out: &mut Out<W>,
) -> Result<Explained, Stop>
    requires ordered { input.order ≢ Order.Any }
    ensures written { IfOk result (WritesFamily input.entry.order (family_texts input.entry)
        input.entry.family.now input.entry.format
        (W.contents (writer_of out.old)) (W.contents (writer_of out.new))) }
    ensures reason { IfErr result (IsExplainReason (family_texts input.entry)) }
{
    let asked = Asked {
        plan: input.plan,
        balances: input.balances,
        files: input.files,
        cutoff: input.cutoff,
        order: input.order,
        target: Target::Family(input.family),
        format: input.format,
    };
    let Some(text) = explanation(alloc, asked)? else {
        return Ok(Explained::NoRecord);
    };
    match put_all(text.as_slice(), out) {
        Ok(()) => Ok(Explained::Whole),
        Err(ShortWrite { written }) => Err(Stop::Value(ValueStop::Write { written })),
    }
}
