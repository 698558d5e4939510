//! The contract of every evaluator of a plan.
ghost use Rattle.std.specs.Prelude.{◌≡◌, Ok, IfOk, IfErr};
ghost use Rattle.tables.specs.Environment.{env};
ghost use Rattle.tables.specs.HitPolicy.{IsFaultOf};
ghost use Rattle.tables.specs.Inputs.{IsReady};
ghost use Rattle.tables.specs.Plan.{PlanParts};

use crate::environment::Env;
use crate::inputs::Inputs;
use crate::plan::Plan;
use faults::Fault;
use std::alloc::Global;

/// An evaluator of a plan's tables.
pub trait Valuer {
    /// The plan that is evaluated.
    ghost plan_of: { Self → PlanParts };

    /// Returns the plan.
    fn plan(&self) -> &Plan
        ensures { result.now ≡ plan_of self.now };

    /// Returns the value of the plan's tables for these inputs, or their first fault.
    fn value<'a>(&'a self, alloc: Global, inputs: &Inputs) -> Result<Env<'a>, Fault>
        requires { IsReady (plan_of self.now).tables inputs.now }
        ensures value { IfOk result (λ environment. env (plan_of self.now) inputs.now
            ≡ Ok environment) }
        ensures fault { IfErr result (IsFaultOf (env (plan_of self.now) inputs.now)) };
}
