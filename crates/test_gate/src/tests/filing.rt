//! The plan, the terms and the gate of a test, and the claims of the providers' files, read one
//! after another as an intake thread does. Whatever runs out of memory is repeated once.
ghost use Rattle.std.specs.Prelude.{◌≡◌, ◌+◌, IfOk, OnOk};
ghost use Rattle.claim_gate.specs.Terms.{ForTerms};
ghost use Rattle.claim_gate.specs.Replies.{HasClaims, IsFiled};
ghost use Rattle.test_gate.specs.Words.{IsAnyOrder, IsReader};

use super::fail;
use claim_gate::{BoxedClaim, GateState, Offer, Terms};
use dtable::read_plan;
use intake_csv::{
    Row, Rows, given_row_is_the_first, no_records_give_no_rows, reader_begins_with_all_rows,
};
use std::alloc::{AllocError, Global};
use std::process::Abort;
use tables::Plan;

fn read_once(alloc: Global, text: &[u8]) -> Result<Plan, AllocError> {
    let Ok(plan) = read_plan(alloc, text) else {
        return Err(AllocError);
    };
    Ok(plan)
}

pub fn plan_of(rt: &impl Abort, alloc: Global, text: &[u8]) -> Plan {
    match read_once(alloc, text) {
        Ok(plan) => plan,
        Err(_) => read_once(alloc, text).expect(rt, "a plan"),
    }
}

// The terms of a plan and of files, without balances.
pub fn terms_of<'a>(
    rt: &impl Abort,
    alloc: Global,
    plan: &'a Plan,
    files: &'a [&'a [u8]],
    cutoff: Option<u64>,
) -> Terms<'a>
    ensures { IsAnyOrder result }
{
    if let Ok(terms) = Terms::new(alloc, plan, files, None, cutoff) {
        return terms;
    }
    let Ok(terms) = Terms::new(alloc, plan, files, None, cutoff) else {
        fail(rt, "terms")
    };
    terms
}

fn begin_gate<'t>(alloc: Global, terms: &'t Terms<'t>) -> Result<GateState<'t>, AllocError>
    ensures { IfOk result (λ gate. gate.terms ≡ terms.now) }
{
    GateState::new(alloc, terms)
}

// A gate to which no claim was offered.
pub fn gate_of<'t>(rt: &impl Abort, alloc: Global, terms: &'t Terms<'t>) -> GateState<'t>
    ensures { result.terms ≡ terms.now }
{
    match begin_gate(alloc, terms) {
        Ok(gate) => gate,
        Err(_) => begin_gate(alloc, terms).expect(rt, "memory for a gate"),
    }
}

// A reader at the start of a provider's file.
pub fn open<'t>(
    rt: &impl Abort,
    alloc: Global,
    terms: &'t Terms,
    provider: usize,
) -> Result<Rows<'t>, AllocError>
    ensures reader { IfOk result (λ rows. ForTerms terms.now (λ T. IsReader T provider rows)) }
    ensures place { IfOk result (λ rows. rows.place ≡ 0) }
{
    reader_begins_with_all_rows();
    let files = terms.files();
    assert!(rt; 1 <= provider && provider <= files.len());
    let rows = terms.rows(alloc, provider)?;
    Ok(rows)
}

// Reads the next record of a provider's file, which must be a claim, as an offer.
pub fn next_offer(
    rt: &impl Abort,
    alloc: Global,
    terms: &Terms,
    provider: usize,
    rows: &mut Rows,
) -> Result<Offer, AllocError>
    requires { ForTerms terms.now (λ T. IsReader T provider rows.old) }
    ensures filed { IfOk result (λ offer. ForTerms terms.now (λ T. IsFiled T offer)) }
    ensures reader { OnOk result (ForTerms terms.now (λ T. IsReader T provider rows.new)) }
    ensures place { OnOk result (rows.new.place ≡ rows.old.place + 1) }
{
    given_row_is_the_first();
    let _plan = terms.plan();
    match rows.next()? {
        Some(Row::Good { place, claim, .. }) => Ok(Offer {
            provider,
            place,
            claim: BoxedClaim::new(alloc, claim)?,
        }),
        _ => fail(rt, "a claim"),
    }
}

// Reads `count` records from the start of a provider's file, which must all be claims.
fn go_by(
    rt: &impl Abort,
    alloc: Global,
    terms: &Terms,
    provider: usize,
    rows: &mut Rows,
    count: usize,
) -> Result<(), AllocError>
    requires reader { ForTerms terms.now (λ T. IsReader T provider rows.old) }
    requires place { rows.old.place ≡ 0 }
    ensures reader { OnOk result (ForTerms terms.now (λ T. IsReader T provider rows.new)) }
    ensures place { OnOk result (rows.new.place ≡ count) }
{
    for _ in 0..count {
        next_offer(rt, alloc, terms, provider, rows)?;
    }
    Ok(())
}

// Reads the records before a place, from the start of a provider's file, and then the claim at that
// place as an offer.
fn offer_after(
    rt: &impl Abort,
    alloc: Global,
    terms: &Terms,
    provider: usize,
    rows: &mut Rows,
    place: usize,
) -> Result<Offer, AllocError>
    requires reader { ForTerms terms.now (λ T. IsReader T provider rows.old) }
    requires place { rows.old.place ≡ 0 }
    ensures filed { IfOk result (λ offer. ForTerms terms.now (λ T. IsFiled T offer)) }
{
    go_by(rt, alloc, terms, provider, rows, place)?;
    next_offer(rt, alloc, terms, provider, rows)
}

fn read_offer(
    rt: &impl Abort,
    alloc: Global,
    terms: &Terms,
    provider: usize,
    place: usize,
) -> Result<Offer, AllocError>
    ensures { IfOk result (λ offer. ForTerms terms.now (λ T. IsFiled T offer)) }
{
    let mut rows = open(rt, alloc, terms, provider)?;
    offer_after(rt, alloc, terms, provider, &mut rows, place)
}

// Returns the claim at a place of a provider's file as an offer. All records up to it must be
// claims.
pub fn offer_at(
    rt: &impl Abort,
    alloc: Global,
    terms: &Terms,
    provider: usize,
    place: usize,
) -> Offer
    ensures { ForTerms terms.now (λ T. IsFiled T result) }
{
    match read_offer(rt, alloc, terms, provider, place) {
        Ok(offer) => offer,
        Err(_) => read_offer(rt, alloc, terms, provider, place).expect(rt, "memory for a claim"),
    }
}

// Reads a provider's file to its end. It must have `count` claims and no other record.
fn go_to_end(
    rt: &impl Abort,
    alloc: Global,
    terms: &Terms,
    provider: usize,
    rows: &mut Rows,
    count: usize,
) -> Result<(), AllocError>
    requires reader { ForTerms terms.now (λ T. IsReader T provider rows.old) }
    requires place { rows.old.place ≡ 0 }
    ensures { OnOk result (ForTerms terms.now (λ T. HasClaims T provider count)) }
{
    no_records_give_no_rows();
    go_by(rt, alloc, terms, provider, rows, count)?;
    match rows.next()? {
        None => Ok(()),
        Some(_) => fail(rt, "the end of the file"),
    }
}

fn read_through(
    rt: &impl Abort,
    alloc: Global,
    terms: &Terms,
    provider: usize,
    count: usize,
) -> Result<(), AllocError>
    ensures { OnOk result (ForTerms terms.now (λ T. HasClaims T provider count)) }
{
    let mut rows = open(rt, alloc, terms, provider)?;
    go_to_end(rt, alloc, terms, provider, &mut rows, count)
}

// Reads a provider's file to its end. It must have `count` claims and no other record.
pub fn read_all(rt: &impl Abort, alloc: Global, terms: &Terms, provider: usize, count: usize)
    ensures { ForTerms terms.now (λ T. HasClaims T provider count) }
{
    match read_through(rt, alloc, terms, provider, count) {
        Ok(()) => {}
        Err(_) => read_through(rt, alloc, terms, provider, count).expect(rt, "memory for a file"),
    }
}

pub fn is_offer(offer: Offer, provider: usize, place: usize, id: &str) -> bool {
    offer.provider == provider && offer.place == place && offer.claim.as_claim().id.as_str() == id
}
