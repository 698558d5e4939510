//! The calls of the gate by which claims are accepted and providers end.
ghost use Rattle.std.specs.Prelude.{◌≡◌, ◌<◌, ◌+◌, ◌^◌, true, IfOk, IfErr};
ghost use Rattle.claim_gate.specs.Terms.{ForTerms};
ghost use Rattle.claim_gate.specs.Replies.{HasClaims, IsFiled};
ghost use Rattle.claim_gate.specs.Shared.{IsDueAt};
ghost use Rattle.gate_calls.specs.Passes.{GoesOn, LeavesWith};
ghost use Rattle.gate_calls.specs.Sharing.{GoesOnAt, HasAccepted, is_past};

use crate::shared::{Exit, Onward, Shared};
use crate::stopping::ATTEMPTS;
use claim_gate::{EndFault, Gate, Offer, OfferFault, Refused, Served, claim_lists_exist};
use faults::RunFault;
use gate_batching::BatchTurn;
use std::sync::Wait;

/// Offers a claim, in at most `ATTEMPTS` calls. Returns the place of the provider's next claim, or `None` where no more claims
/// are accepted.
pub fn offer<R: Wait, G: Gate>(
    shared: &Shared<R, G>,
    mut pass: G::Pass,
    mut offer: Offer,
    turn: &BatchTurn,
) -> Result<Onward<Option<usize>, G::Pass>, Exit<G::Pass>>
    requires own { G.has_pass shared.now.gate.now pass }
    requires terms { (G.known pass).seen.terms ≡ shared.now.terms.now }
    requires filed { ForTerms shared.now.terms.now (λ T. IsFiled T offer) }
    requires due { IsDueAt (G.known pass).seen offer.provider offer.place }
    requires taken { HasAccepted (G.known pass).seen offer.provider offer.place }
    requires room { offer.place + 1 < 2 ^ 64 }
    ensures goes_on { IfOk result
        (λ r. GoesOn (G.has_pass shared.now.gate.now) G.known pass r.pass) }
    ensures next { IfOk result
        (λ r. GoesOnAt (G.known r.pass).seen offer.provider offer.place r.value) }
    ensures leaves { IfErr result
        (LeavesWith (G.has_pass shared.now.gate.now) G.is_worn G.known pass) }
{
    // proof: the claim files have lists of claims, so a statement about all such lists is not empty.
    claim_lists_exist(shared.terms);
    let following = offer.place + 1;
    'tries: for _ in 0..ATTEMPTS {
        let served = match shared.gate.offer(shared.rt, pass, offer) {
            Ok(served) => served,
            Err(worn) => return Err(Exit {
                fault: RunFault::Worn,
                pass: worn.pass,
            }),
        };
        let Served { reply, pass: after } = served;
        let refused = match reply {
            Ok(_) => {
                turn.count_offer();
                return Ok(Onward {
                    value: Some(following),
                    pass: after,
                });
            }
            Err(refused) => refused,
        };
        let Refused { fault, value } = refused;
        match fault {
            OfferFault::OutOfTurn { expected } => return Ok(Onward {
                value: Some(expected),
                pass: after,
            }),
            OfferFault::Closed => return Ok(Onward {
                value: None,
                pass: after,
            }),
            OfferFault::Stopped => return Ok(Onward {
                value: None,
                pass: after,
            }),
            OfferFault::OutOfMemory => (pass, offer) = (after, value),
        }
    }
    Err(Exit {
        fault: RunFault::OutOfMemory,
        pass,
    })
}

/// Ends a provider of which all `count` claims are accepted, in at most `ATTEMPTS` calls.
pub fn end<R: Wait, G: Gate>(
    shared: &Shared<R, G>,
    mut pass: G::Pass,
    provider: usize,
    count: usize,
) -> Result<G::Pass, Exit<G::Pass>>
    requires own { G.has_pass shared.now.gate.now pass }
    requires terms { (G.known pass).seen.terms ≡ shared.now.terms.now }
    requires claims { ForTerms shared.now.terms.now (λ T. HasClaims T provider count) }
    requires taken { HasAccepted (G.known pass).seen provider count }
    ensures goes_on { IfOk result (GoesOn (G.has_pass shared.now.gate.now) G.known pass) }
    ensures past { IfOk result (λ p. is_past (G.known p).seen provider ≡ true) }
    ensures leaves { IfErr result
        (LeavesWith (G.has_pass shared.now.gate.now) G.is_worn G.known pass) }
{
    // proof: the claim files have lists of claims, so a statement about all such lists is not empty.
    claim_lists_exist(shared.terms);
    'tries: for _ in 0..ATTEMPTS {
        let served = match shared.gate.end(shared.rt, pass, provider, count) {
            Ok(served) => served,
            Err(worn) => return Err(Exit {
                fault: RunFault::Worn,
                pass: worn.pass,
            }),
        };
        let Served { reply, pass: after } = served;
        match reply {
            Ok(_) => return Ok(after),
            Err(EndFault::AlreadyEnded) => return Ok(after),
            Err(EndFault::Closed) => return Ok(after),
            Err(EndFault::Stopped) => return Ok(after),
            Err(EndFault::OutOfMemory) => pass = after,
            Err(EndFault::OutOfTurn { .. }) => unreachable!(),
        }
    }
    Err(Exit {
        fault: RunFault::OutOfMemory,
        pass,
    })
}
