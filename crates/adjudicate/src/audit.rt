//! The command `audit`: it computes the remittance of the texts in an order, and compares the given
//! bytes with it.
//!
//! An audit trusts no lock and no schedule. `serial` runs the claims in one thread, which decides
//! each of them before it reads the next one, and `difference` finds the first record that differs.
ghost use Rattle.std.specs.Prelude.{◌≡◌, ◌≢◌, IfErr, IfOk};
ghost use Rattle.dtable.specs.PlanFile.{IsPlanText};
ghost use Rattle.evaluation.specs.declared.stop.ValueStop.TheVariants.{NoMemory};
ghost use Rattle.orders.specs.Remittance.{IsOrderedRemittanceOf};
ghost use Rattle.orders.specs.RunTexts.{IsOrderedRemittance};
ghost use Rattle.adjudicate.specs.Audits.{IsAuditOver, IsAuditReason, HasDifference, audited_texts};

mod difference;
mod serial;

use claim_gate::{Order, Terms, claim_lists_exist};
use cutplan::compile;
use difference::first_difference;
pub use difference::{Difference, record_count};
use dtable::read_plan;
use fixpoint::Out;
use orders::{Stop, texts_have_one_remittance};
use remit::write_report;
pub use serial::decide_all;
use std::alloc::{AllocError, Global};
use tables::Plan;

/// The input of an audit.
#[derive(Clone, Copy)]
pub struct AuditInput<'a> {
    /// The text of the plan.
    pub plan: &'a [u8],
    /// The text of the opening balances. Without it, all accumulators begin at zero.
    pub balances: Option<&'a [u8]>,
    /// The texts of the providers' files. The first of them is the file of provider 1.
    pub files: &'a [&'a [u8]],
    /// The greatest number of claims that are accepted, or `None` for no limit.
    pub cutoff: Option<u64>,
    /// The order in which claims are accepted.
    pub order: Order,
    /// The bytes that are audited.
    pub remittance: &'a [u8],
}

/// The result of an audit.
#[derive(Drop)]
pub enum Audit {
    /// The bytes are the remittance of the texts in the order.
    Same,
    /// The bytes differ from the remittance of the texts in the order.
    Differs {
        /// The first record that differs.
        difference: Difference,
        /// The remittance of the texts in the order.
        due: Vec<u8>,
    },
}

/// Says whether the given bytes are the remittance of the texts in an order, by files or by day of
/// service. The caller's thread does all the work. The plan is checked first, and then the terms.
///
/// Texts have at most one remittance in an order, so that the answer does not depend on the run that
/// wrote the bytes.
pub fn do_audit(alloc: Global, input: AuditInput) -> Result<Audit, Stop>
    requires ordered { input.order ≢ Order.Any }
    ensures same { IfOk result (λ audit. audit ≡ Audit.Same → IsOrderedRemittance
        input.entry.order (audited_texts input.entry) input.entry.remittance.now) }
    ensures differs { IfOk result (λ audit. audit ≢ Audit.Same → ¬ IsOrderedRemittance
        input.entry.order (audited_texts input.entry) input.entry.remittance.now) }
    ensures difference { IfOk result (HasDifference
        input.entry.order (audited_texts input.entry) input.entry.remittance.now) }
    ensures reason { IfErr result (IsAuditReason (audited_texts input.entry)) }
{
    let plan = read_plan(alloc, input.plan)?;
    let audit = audit_plan(alloc, &plan, input);
    drop(plan);
    audit
}

// Continues `do_audit` after the plan is read.
fn audit_plan(alloc: Global, plan: &Plan, input: AuditInput) -> Result<Audit, Stop>
    requires ordered { input.order ≢ Order.Any }
    requires spelled { IsPlanText (audited_texts input).plan plan.now }
    ensures same { IfOk result (λ audit. audit ≡ Audit.Same → IsOrderedRemittance
        input.entry.order (audited_texts input.entry) input.entry.remittance.now) }
    ensures differs { IfOk result (λ audit. audit ≢ Audit.Same → ¬ IsOrderedRemittance
        input.entry.order (audited_texts input.entry) input.entry.remittance.now) }
    ensures difference { IfOk result (HasDifference
        input.entry.order (audited_texts input.entry) input.entry.remittance.now) }
    ensures reason { IfErr result (IsAuditReason (audited_texts input.entry)) }
{
    // proof: the texts have at most one remittance in the order
    texts_have_one_remittance();
    let terms = Terms::with_order(
        alloc,
        plan,
        input.files,
        input.balances,
        input.cutoff,
        input.order,
    )?;
    let audit = audit_terms(alloc, &terms, input.remittance);
    drop(terms);
    audit
}

// Compares the bytes with the remittance of the terms in their order.
fn audit_terms(alloc: Global, terms: &Terms, remittance: &[u8]) -> Result<Audit, Stop>
    requires { terms.now.order ≢ Order.Any }
    ensures audit { IfOk result (IsAuditOver terms.now.order terms.now remittance.now) }
    ensures memory { IfErr result (λ stop. stop ≡ Stop.Value NoMemory) }
{
    let due = ordered_remittance(alloc, terms)?;
    match first_difference(remittance, due.as_slice()) {
        Some(difference) => Ok(Audit::Differs { difference, due }),
        None => Ok(Audit::Same),
    }
}

// Returns the bytes of the remittance of the terms in their order.
pub fn ordered_remittance(alloc: Global, terms: &Terms) -> Result<Vec<u8>, AllocError>
    requires { terms.now.order ≢ Order.Any }
    ensures { IfOk result (λ due. IsOrderedRemittanceOf terms.now.order terms.now due.items) }
{
    let plan = compile(alloc, terms.plan())?;
    let batch = decide_all(alloc, terms, &plan)?;
    let mut out = Out::new(Vec::new(alloc));
    match write_report(alloc, terms, &batch, &mut out) {
        Ok(()) => Ok(out.into_inner()),
        // A write into memory fails only if memory runs out.
        Err(_) => Err(AllocError),
    }
}
