//! Finished runs.
ghost use Rattle.std.specs.Prelude.{◌≡◌, IfOk, IfErr};
ghost use Rattle.journal.specs.Lawful.{Finished};
ghost use Rattle.claim_gate.specs.Terms.{ForTerms};

use crate::state::GateState;
use crate::terms::Terms;
use journal::Event;
use std::marker::Model;

/// A finished run: its terms and its journal, which is finished.
#[derive(Drop)]
pub struct Batch<'t> {
    terms: &'t Terms<'t>,
    journal: Vec<Event>,
}

impl<'t> Model for Batch<'t> {
    ghost use Rattle.claim_gate.specs.Terms.{ForTerms};
    ghost use Rattle.claim_gate.specs.Parts.{BatchParts};
    ghost use Rattle.journal.specs.Lawful.{Finished};

    ghost Value = { BatchParts };

    ghost view = { λ b. record { terms = b.terms.now; journal = b.journal.items } };

    ghost invariant = { λ b. ForTerms b.terms.now (λ T. Finished T b.journal.items) };
}

impl<'t> Batch<'t> {
    /// Creates the batch of a gate whose journal is finished. Returns the gate where the journal is not finished.
    pub fn from_state(state: GateState<'t>, terms: &'t Terms) -> Result<Batch<'t>, GateState<'t>>
        requires { state.terms ≡ terms.now }
        ensures batch { IfOk result
            (λ batch. (batch.terms ≡ terms.now) × (batch.journal ≡ state.entry.journal)) }
        ensures finished { IfOk result
            (λ batch. ForTerms terms.now (λ T. Finished T batch.journal)) }
        ensures back { IfErr result (λ back. back ≡ state.entry) }
        ensures unfinished { IfErr result
            (λ _. ForTerms terms.now (λ T. ¬ Finished T state.entry.journal)) }
    {
        if !state.is_over() {
            return Err(state);
        }
        Ok(Batch {
            terms,
            journal: state.into_journal(),
        })
    }

    /// Returns the finished journal.
    pub fn journal(&self) -> &[Event]
        ensures journal { result.now ≡ self.now.journal }
        ensures finished { ForTerms self.now.terms (λ T. Finished T self.now.journal) }
    {
        &self.journal
    }
}
