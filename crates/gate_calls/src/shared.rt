//! What the threads of a run share, and what their functions return.

use crate::least_fault::LeastFault;
use crate::spare_claims::SpareClaims;
use claim_gate::Terms;
use cutplan::CutPlan;
use faults::RunFault;
use gate_batching::GateBatching;
use std::alloc::Global;
use std::sync::atomic::AtomicU64;

/// What the threads of a run share.
#[derive(Drop)]
pub struct Shared<'r, 't, 'p, R, G> {
    pub rt: &'r R,
    pub alloc: Global,
    pub terms: &'r Terms<'t>,
    /// The plan of the terms, compiled.
    pub plan: &'r CutPlan<'p>,
    pub gate: &'r G,
    /// The hints about which thread calls the gate next.
    pub turns: GateBatching,
    /// Lists of the boxes of decided claims, whose memory other claims can take.
    pub spare: SpareClaims,
    /// The first fault of the threads.
    pub least: LeastFault,
    /// The number of decided claims, which a caller may watch.
    pub decided: &'r AtomicU64,
}

/// The thread goes on, with what a function has returned beside its pass.
#[derive(Drop)]
pub struct Onward<T, P> {
    pub value: T,
    pub pass: P,
}

/// The thread leaves the run because of a fault, with its pass.
#[derive(Drop)]
pub struct Exit<P> {
    pub fault: RunFault,
    pub pass: P,
}
