//! What the claims of a plan are settled with.
ghost use Rattle.std.specs.Prelude.{IfOk, OnOk};
ghost use Rattle.tables.specs.Plan.{PlanParts};
ghost use Rattle.settlement.specs.Claim.{IsClaimOf};
ghost use Rattle.settlement.specs.Reads.{Serves};
ghost use Rattle.settlement.specs.Workspace.{FitsIn, IsWorkspaceOf};

use crate::acc::Acc;
use crate::bindings::{bind_inputs, places_read};
use crate::claim::Claim;
use crate::remark_table::RemarkTable;
use crate::remarks::Remarks;
use crate::role_bindings::{RoleBindings, role_places};
use std::alloc::{AllocError, Global};
use tables::{Inputs, Plan, Sequence};

/// The slots for the values that a plan reads, which are made once and set again for each claim,
/// and what is found once for the plan's roles.
pub struct Workspace {
    /// The places of the names that the plan reads.
    pub places: Sequence<usize>,
    /// The slots of the plan's names.
    pub inputs: Inputs,
    pub roles: RoleBindings,
    pub remark_table: RemarkTable,
}

impl Drop for Workspace {
    fn drop(self) {
        let Workspace {
            places: _,
            inputs: _,
            roles: _,
            remark_table: _,
        } = self;
    }
}

impl Workspace {
    /// Makes the workspace of a plan. Its slots have no values yet.
    pub fn new(alloc: Global, plan: &Plan) -> Result<Workspace, AllocError>
        ensures { IfOk result (IsWorkspaceOf plan.now) }
    {
        let places = places_read(alloc, plan)?;
        let inputs = Inputs::new(alloc, plan)?;
        let roles = role_places(plan);
        let remark_table = RemarkTable::new(alloc, plan, roles.remarks)?;
        Ok(Workspace {
            places,
            inputs,
            roles,
            remark_table,
        })
    }

    /// Sets the slots to the values of a claim and the accumulators. If memory runs out, some slots
    /// have no value.
    pub fn bind(&mut self, alloc: Global, claim: &Claim, acc: &Acc) -> Result<(), AllocError>
        requires { FitsIn self.old claim.now }
        ensures workspace { (plan : PlanParts) → IsWorkspaceOf plan self.old
            → IsWorkspaceOf plan self.new }
        ensures serves { OnOk result ((plan : PlanParts) → IsWorkspaceOf plan self.old
            → IsClaimOf plan claim.now → Serves plan claim.now acc.now self.new.inputs) }
    {
        bind_inputs(alloc, &mut self.inputs, self.places.as_slice(), claim, acc)
    }

    /// Keeps the remarks of an outcome, so that other outcomes can share them.
    pub fn keep_remarks(&mut self, remarks: &Remarks)
        ensures { (plan : PlanParts) → IsWorkspaceOf plan self.old → IsWorkspaceOf plan self.new }
    {
        self.remark_table.keep(remarks);
    }
}
