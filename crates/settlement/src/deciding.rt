//! The outcome of a claim, and the accumulators after it.
ghost use Rattle.std.specs.Prelude.{◌≡◌, IfOk, IfSome, IsSome};
ghost use Rattle.std.specs.Option.{SomeIff};
ghost use Rattle.tables.specs.Inputs.{IsReady};
ghost use Rattle.tables.specs.Plan.{PlanParts};
ghost use Rattle.settlement.specs.declared.claim.Claim.{Claim};
ghost use Rattle.settlement.specs.Accumulators.{after, AreInRange};
ghost use Rattle.settlement.specs.Determinations.{IsAlike, IsTrueOf};
ghost use Rattle.settlement.specs.Claim.{IsClaimOf};
ghost use Rattle.settlement.specs.RoleBindings.{ArePlaced};
ghost use Rattle.settlement.specs.Settlement.{by_roles, determination_of, outcome, outcome_from};
ghost use Rattle.settlement.specs.Workspace.{IsWorkspaceOf};

use crate::acc::Acc;
use crate::bindings::any_role_reads;
use crate::claim::Claim;
use crate::cost_sharing::{is_covered, remarks, terms_of};
use crate::determination::Determination;
use crate::determination_cache::DeterminationCache;
use crate::money::Money;
use crate::outcome::Outcome;
use crate::workspace::Workspace;
use faults::Reason;
use std::alloc::{AllocError, Global};
use std::marker::Model;
use tables::{Env, InputClasses, Inputs, Roles, Valuer};

/// Decides claims by one valuer, one after another. Claims of one input class are decided by one
/// value of the tables.
pub struct Adjudicator<'v, V: InputClasses> {
    valuer: &'v V,
    workspace: Workspace,
    cache: DeterminationCache,
}

impl<'v, V: InputClasses> Drop for Adjudicator<'v, V> {
    fn drop(self) {
        let Adjudicator {
            valuer: _,
            workspace: _,
            cache: _,
        } = self;
    }
}

impl<'v, V: InputClasses> Model for Adjudicator<'v, V> {
    ghost use Rattle.tables.specs.Plan.{PlanParts};
    ghost use Rattle.settlement.specs.Determinations.{IsTrueOf};
    ghost use Rattle.settlement.specs.Workspace.{IsWorkspaceOf};

    ghost Value = { PlanParts };

    ghost view = { λ a. V.plan_of a.valuer.now };

    ghost invariant = { λ a.
        IsWorkspaceOf (V.plan_of a.valuer.now) a.workspace
        × IsTrueOf (V.in_class a.valuer.now) (V.plan_of a.valuer.now) a.cache };
}

impl<'v, V: InputClasses> Adjudicator<'v, V> {
    /// Prepares to decide claims by the valuer's plan. Contracts see an adjudicator as that plan.
    pub fn new(alloc: Global, valuer: &'v V) -> Result<Adjudicator<'v, V>, AllocError>
        ensures { IfOk result (λ adjudicator. adjudicator ≡ V.plan_of valuer.now) }
    {
        let cache = DeterminationCache::new(alloc)?;
        let workspace = Workspace::new(alloc, valuer.plan())?;
        Ok(Adjudicator {
            valuer,
            workspace,
            cache,
        })
    }

    /// Returns the outcome of a claim by the plan, with the accumulators `acc` before it. Earlier
    /// calls do not affect the outcome. The only error is that memory runs out.
    pub fn decide(&mut self, alloc: Global, claim: &Claim, acc: Acc) -> Result<Outcome, AllocError>
        requires roles { IsSome self.old.roles }
        requires fields { IsClaimOf self.old claim.now }
        ensures decided { IfOk result (λ decided. decided ≡ outcome self.old claim.now acc) }
        ensures plan { self.new ≡ self.old }
    {
        self.workspace.bind(alloc, claim, &acc)?;
        let decided = decide_by_class(
            alloc,
            self.valuer,
            &self.workspace,
            &mut self.cache,
            claim.billed,
            acc,
        )?;
        self.workspace.keep_remarks(&decided.remarks);
        Ok(decided)
    }
}

/// Returns the outcome of a claim by the valuer's plan, with the accumulators `acc` before it. The
/// only error is that memory runs out. An `Adjudicator` decides many claims with fewer allocations.
pub fn decide<V: Valuer>(
    alloc: Global,
    valuer: &V,
    claim: &Claim,
    acc: Acc,
) -> Result<Outcome, AllocError>
    requires roles { IsSome (V.plan_of valuer.now).roles }
    requires fields { IsClaimOf (V.plan_of valuer.now) claim.now }
    ensures { IfOk result (λ decided. decided ≡ outcome (V.plan_of valuer.now) claim.now acc) }
{
    let mut workspace = Workspace::new(alloc, valuer.plan())?;
    workspace.bind(alloc, claim, &acc)?;
    let determination = determination_of(alloc, valuer, &workspace)?;
    determination.outcome(claim.billed, &acc)
}

// Returns the outcome of the claim to whose values the workspace is set. Its determination comes
// from the cache, or is stored there for other claims of the same input class.
fn decide_by_class<V: InputClasses>(
    alloc: Global,
    valuer: &V,
    workspace: &Workspace,
    cache: &mut DeterminationCache,
    billed: Money,
    acc: Acc,
) -> Result<Outcome, AllocError>
    requires roles { IsSome (V.plan_of valuer.now).roles }
    requires workspace { IsWorkspaceOf (V.plan_of valuer.now) workspace.now }
    requires ready { IsReady (V.plan_of valuer.now).tables workspace.now.inputs }
    requires true_yet { IsTrueOf (V.in_class valuer.now) (V.plan_of valuer.now) cache.old }
    ensures decided { IfOk result (λ decided. decided
        ≡ outcome_from billed acc (determination_of (V.plan_of valuer.now) workspace.now.inputs)) }
    ensures true_still { IsTrueOf (V.in_class valuer.now) (V.plan_of valuer.now) cache.new }
{
    let Some(input_class) = class_of(valuer, &workspace.inputs, cache) else {
        cache.record_miss();
        let determination = determination_of(alloc, valuer, workspace)?;
        return determination.outcome(billed, &acc);
    };
    if let Some(determination) = cache.get(input_class) {
        let decided = determination.outcome(billed, &acc)?;
        cache.record_hit();
        return Ok(decided);
    }
    let determination = determination_of(alloc, valuer, workspace)?;
    let decided = determination.outcome(billed, &acc)?;
    // If a role has the value of an input, two claims of one input class may have different
    // determinations.
    if any_role_reads(None, valuer.plan()) {
        cache.disable();
        return Ok(decided);
    }
    cache.keep(input_class, determination);
    Ok(decided)
}

fn class_of<V: InputClasses>(valuer: &V, inputs: &Inputs, cache: &DeterminationCache) -> Option<u64>
    ensures inside { IfSome result (V.in_class valuer.now inputs.now) }
    ensures alike { IfSome result
        (IsAlike (V.in_class valuer.now) (V.plan_of valuer.now) inputs.now) }
{
    if cache.is_of_use() {
        valuer.input_class(inputs)
    } else {
        None
    }
}

// Returns the determination of the claim to whose values the workspace is set. A fault of the
// tables pends the claim.
fn determination_of<V: Valuer>(
    alloc: Global,
    valuer: &V,
    workspace: &Workspace,
) -> Result<Determination, AllocError>
    requires roles { IsSome (V.plan_of valuer.now).roles }
    requires workspace { IsWorkspaceOf (V.plan_of valuer.now) workspace.now }
    requires ready { IsReady (V.plan_of valuer.now).tables workspace.now.inputs }
    ensures { IfOk result (λ found.
        found ≡ determination_of (V.plan_of valuer.now) workspace.now.inputs) }
{
    let roles = valuer.plan().roles().unwrap();
    match valuer.value(alloc, &workspace.inputs) {
        Ok(env) => by_roles(workspace, &env, roles),
        Err(fault) => {
            let reason = Reason::of(fault).ok_or(AllocError)?;
            Ok(Determination::Pended(reason))
        }
    }
}

// Returns the determination of a claim from the answers of the tables. A claim that is not covered
// is denied, whatever the other roles are.
fn by_roles(workspace: &Workspace, env: &Env, roles: &Roles) -> Result<Determination, AllocError>
    requires { ArePlaced env.now.tables roles.now workspace.now.roles }
    ensures { IfOk result (λ determination.
        determination ≡ by_roles roles.now workspace.now.inputs env.now) }
{
    let inputs = &workspace.inputs;
    let places = &workspace.roles;
    let remark_table = &workspace.remark_table;
    if !is_covered(inputs, env, roles, places) {
        let remarks = remarks(env, &roles.remarks, places.remarks, remark_table)?;
        return Ok(Determination::Denied(remarks));
    }
    let terms = match terms_of(inputs, env, roles, places) {
        Ok(terms) => terms,
        Err(role) => return Ok(Determination::Pended(Reason::Term(role))),
    };
    let remarks = remarks(env, &roles.remarks, places.remarks, remark_table)?;
    Ok(Determination::Covered(terms, remarks))
}

/// Returns the accumulators after an outcome, or `None` if one of them is out of range. An outcome
/// of the settlement of a claim at `acc` leaves all of them in range.
pub fn after(acc: Acc, decided: &Outcome) -> Option<Acc>
    ensures sums { SomeIff result (AreInRange (after acc decided.now)) (after acc decided.now) }
    ensures settled { (plan : PlanParts) (claim : Claim) → decided.now ≡ outcome plan claim acc
        → IsSome result }
{
    acc.plus(decided.ded, decided.share, decided.paid)
}
