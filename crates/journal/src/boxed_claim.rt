//! A claim in a box.
ghost use Rattle.std.specs.Prelude.{◌≡◌, IfOk, IfErr};

use feel_tests::{Sequence, Value};
use settlement::Claim;
use std::alloc::{AllocFailed, Global};
use std::marker::Model;
use std::mem::replace;

/// A claim on the heap. It passes through a gate as one pointer, and the slot of a decided claim
/// takes little memory. Contracts see the claim.
#[derive(Drop)]
pub struct BoxedClaim {
    claim: Box<Claim>,
}

impl Model for BoxedClaim {
    ghost use Rattle.std.specs.Prelude.{box_value};
    ghost use Rattle.settlement.specs.declared.claim.Claim.{Claim};

    ghost Value = { Claim };

    ghost view = { λ stored. box_value stored.claim };
}

impl BoxedClaim {
    /// Moves the claim to the heap. If memory runs out, the claim is returned.
    pub fn new(alloc: Global, claim: Claim) -> Result<BoxedClaim, AllocFailed<Claim>>
        ensures value { IfOk result (λ stored. stored ≡ claim) }
        ensures back { IfErr result (λ failed. failed.value ≡ claim) }
    {
        match Box::new(alloc, claim) {
            Ok(claim) => Ok(BoxedClaim { claim }),
            Err(failed) => Err(failed),
        }
    }

    /// Moves the claim to a spare box, whose own claim is dropped, or to the heap if there is no
    /// spare box. If memory runs out, the claim is returned.
    pub fn in_spare(
        alloc: Global,
        spare: &mut Vec<BoxedClaim>,
        claim: Claim,
    ) -> Result<BoxedClaim, AllocFailed<Claim>>
        ensures value { IfOk result (λ stored. stored ≡ claim) }
        ensures back { IfErr result (λ failed. failed.value ≡ claim) }
    {
        let Some(mut stored) = spare.pop() else {
            return BoxedClaim::new(alloc, claim);
        };
        *stored.claim = claim;
        Ok(stored)
    }

    /// Takes the memory of the fields of the box that `in_spare` fills next. Its content has no
    /// meaning. Without a spare box, the list has no memory.
    pub fn spare_fields(alloc: Global, spare: &mut Vec<BoxedClaim>) -> Sequence<Value> {
        match spare.last_mut() {
            Some(stored) => replace(&mut stored.claim.fields, Sequence::new(alloc)),
            None => Sequence::new(alloc),
        }
    }

    /// Returns the claim.
    pub fn as_claim(&self) -> &Claim
        ensures { result.now ≡ self.now }
    {
        &*self.claim
    }
}
