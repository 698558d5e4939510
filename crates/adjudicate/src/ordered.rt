//! The remittance of texts in an order, which one thread computes as an audit does.
ghost use Rattle.std.specs.Prelude.{◌≡◌, ◌≢◌, IfErr, IfOk};
ghost use Rattle.dtable.specs.PlanFile.{IsPlanText};
ghost use Rattle.evaluation.specs.declared.stop.ValueStop.TheVariants.{NoMemory};
ghost use Rattle.orders.specs.Remittance.{IsOrderedRemittanceOf};
ghost use Rattle.orders.specs.RunTexts.{IsOrderedRemittance};
ghost use Rattle.adjudicate.specs.Audits.{IsAuditReason};
ghost use Rattle.adjudicate.specs.OrderedTexts.{ordered_texts};

use crate::audit::ordered_remittance;
use claim_gate::{Order, Terms};
use dtable::read_plan;
use orders::Stop;
use std::alloc::Global;
use tables::Plan;

/// The texts of a run in an order.
#[derive(Clone, Copy)]
pub struct OrderedInput<'a> {
    /// The text of the plan.
    pub plan: &'a [u8],
    /// The text of the opening balances. Without it, all accumulators begin at zero.
    pub balances: Option<&'a [u8]>,
    /// The texts of the providers' files. The first of them is the file of provider 1.
    pub files: &'a [&'a [u8]],
    /// The greatest number of claims that are accepted, or `None` for no limit.
    pub cutoff: Option<u64>,
    /// The order in which claims are accepted.
    pub order: Order,
}

/// Returns the remittance of the texts in an order, by files or by day of service. The caller's thread
/// does all the work. The plan is checked first, and then the terms.
pub fn do_ordered_remittance(alloc: Global, input: OrderedInput) -> Result<Vec<u8>, Stop>
    requires ordered { input.order ≢ Order.Any }
    ensures remittance { IfOk result (λ due. IsOrderedRemittance
        input.entry.order (ordered_texts input.entry) due.items) }
    ensures reason { IfErr result (IsAuditReason (ordered_texts input.entry)) }
{
    let plan = read_plan(alloc, input.plan)?;
    let due = remittance_under(alloc, &plan, input);
    drop(plan);
    due
}

// Continues `do_ordered_remittance` after the plan is read.
fn remittance_under(alloc: Global, plan: &Plan, input: OrderedInput) -> Result<Vec<u8>, Stop>
    requires ordered { input.order ≢ Order.Any }
    requires spelled { IsPlanText (ordered_texts input).plan plan.now }
    ensures remittance { IfOk result (λ due. IsOrderedRemittance
        input.entry.order (ordered_texts input.entry) due.items) }
    ensures reason { IfErr result (IsAuditReason (ordered_texts input.entry)) }
{
    let terms = Terms::with_order(
        alloc,
        plan,
        input.files,
        input.balances,
        input.cutoff,
        input.order,
    )?;
    let due = remittance_of(alloc, &terms);
    drop(terms);
    due
}

fn remittance_of(alloc: Global, terms: &Terms) -> Result<Vec<u8>, Stop>
    requires { terms.now.order ≢ Order.Any }
    ensures due { IfOk result (λ due.
        IsOrderedRemittanceOf terms.now.order terms.now due.items) }
    ensures memory { IfErr result (λ stop. stop ≡ Stop.Value NoMemory) }
{
    let due = ordered_remittance(alloc, terms)?;
    Ok(due)
}
