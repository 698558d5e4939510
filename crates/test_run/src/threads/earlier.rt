//! A caller that has the first claims of a file accepted before a run.

ghost use Rattle.std.specs.Prelude.{◌≡◌, ◌≤◌, ◌+◌, length, slice_get, Some};
ghost use Rattle.journal.specs.Terms.{claims_of};
ghost use Rattle.journal.specs.declared.order.Order.TheVariants.{Any};
ghost use Rattle.claim_gate.specs.Terms.{ForTerms};
ghost use Rattle.gate_calls.specs.Sharing.{HasAccepted};

use crate::testing::{expects, fail};
use claim_gate::{BoxedClaim, Gate, Offer, Served, Terms, claim_lists_exist};
use intake_csv::{Row, given_row_has_the_claim, reader_begins_with_all_rows};
use journal::Order;
use settlement::Claim;
use std::alloc::Global;
use std::process::Abort;
use std::sync::Wait;

// Offers the first provider's claim at a place, which must be accepted. Only claims of this
// provider were accepted before, so its position is its place.
fn accept<R: Wait + Abort, G: Gate>(
    rt: &R,
    terms: &Terms,
    gate: &G,
    pass: G::Pass,
    place: usize,
    claim: BoxedClaim,
) -> G::Pass
    requires own { G.has_pass gate.now pass }
    requires terms { (G.known pass).seen.terms ≡ terms.now }
    requires any_order { terms.now.order ≡ Any }
    requires filed { ForTerms terms.now (λ T. slice_get (claims_of T 1) place ≡ Some claim) }
    requires taken { HasAccepted (G.known pass).seen 1 place }
    ensures own { G.has_pass gate.now result }
    ensures terms { (G.known result).seen.terms ≡ terms.now }
    ensures taken { HasAccepted (G.known result).seen 1 (place + 1) }
{
    // proof: each text has a list of claims, so a condition on every such list is not vacuous
    claim_lists_exist(terms);
    let offered = Offer {
        provider: 1,
        place,
        claim,
    };
    let Ok(served) = gate.offer(rt, pass, offered) else {
        fail(rt, "a reply")
    };
    let Served { reply, pass } = served;
    match reply {
        Ok(accepted) => {
            expects(rt, accepted.position == place, "its position");
            pass
        }
        Err(_) => fail(rt, "an accepted claim"),
    }
}

fn first_two(rt: &impl Abort, alloc: Global, terms: &Terms) -> (BoxedClaim, BoxedClaim)
    requires { 1 ≤ length terms.now.files }
    ensures first { ForTerms terms.now (λ T. slice_get (claims_of T 1) 0 ≡ Some result.0) }
    ensures second { ForTerms terms.now (λ T. slice_get (claims_of T 1) 1 ≡ Some result.1) }
{
    reader_begins_with_all_rows();
    given_row_has_the_claim();
    let mut rows = match terms.rows(alloc, 1) {
        Ok(rows) => rows,
        Err(_) => fail(rt, "rows"),
    };
    let first = match rows.next() {
        Ok(Some(Row::Good { claim, .. })) => boxed_claim_of(rt, alloc, claim),
        _ => fail(rt, "a claim"),
    };
    let second = match rows.next() {
        Ok(Some(Row::Good { claim, .. })) => boxed_claim_of(rt, alloc, claim),
        _ => fail(rt, "a claim"),
    };
    (first, second)
}

fn boxed_claim_of(rt: &impl Abort, alloc: Global, claim: Claim) -> BoxedClaim
    ensures { result ≡ claim }
{
    match BoxedClaim::new(alloc, claim) {
        Ok(stored) => stored,
        Err(_) => fail(rt, "memory for a claim"),
    }
}

/// Offers the first two claims of the first provider, which must be accepted.
pub fn accept_two<R: Wait + Abort, G: Gate>(
    rt: &R,
    alloc: Global,
    terms: &Terms,
    gate: &G,
    pass: G::Pass,
)
    requires own { G.has_pass gate.now pass }
    requires terms { (G.known pass).seen.terms ≡ terms.now }
{
    let files = terms.files().len();
    assert!(rt; 1 <= files);
    let Order::Any = terms.order() else {
        fail(rt, "terms without an order")
    };
    let (first, second) = first_two(rt, alloc, terms);
    let pass = accept(rt, terms, gate, pass, 0, first);
    let _ = accept(rt, terms, gate, pass, 1, second);
}
