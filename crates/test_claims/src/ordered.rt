//! Tests of the order in which the claims of three files come. The files are given in the order A, B, C. The claims of A are
//! not sorted by day of service, and the first record of C is refused.
use crate::claims::plan;
use crate::ending::{expects, fail};
use claim_gate::{Offer, Terms};
use dtable::read_plan;
use journal::Order;
use ordered_claims::OrderedClaims;
use std::alloc::{AllocError, Global};
use std::process::Abort;
use test_fixtures::health_plan;

const A: &[u8] = b"claim,member,service,billed,code
a1,M1,2024-03-01,120.00,A
a2,M1,2024-01-05,40.00,B
a3,M2,2024-02-01,40.00,B
";

const B: &[u8] = b"claim,member,service,billed,code
b1,M2,2024-01-05,30.00,B
b2,M3,2024-03-01,10.00,X
";

const C: &[u8] = b"claim,member,service,billed,code
c0,M3,2024-01-01,9.999,B
c1,M3,2024-02-01,10.00,X
";

/// A claim that is offered.
#[derive(Clone, Copy)]
struct Wanted {
    provider: usize,
    place: usize,
    id: &'static str,
}

fn claim(provider: usize, place: usize, id: &'static str) -> Wanted {
    Wanted {
        provider,
        place,
        id,
    }
}

// b1 has the first day; c1 comes before a1 and b2; a1 and b2 have one day, and A is given first; a2 and a3 follow a1 in their
// file, and have days before that of b2.
fn by_service() -> [Wanted; 6] {
    [
        claim(2, 0, "b1"),
        claim(3, 0, "c1"),
        claim(1, 0, "a1"),
        claim(1, 1, "a2"),
        claim(1, 2, "a3"),
        claim(2, 1, "b2"),
    ]
}

fn by_files() -> [Wanted; 6] {
    [
        claim(1, 0, "a1"),
        claim(1, 1, "a2"),
        claim(1, 2, "a3"),
        claim(2, 0, "b1"),
        claim(2, 1, "b2"),
        claim(3, 0, "c1"),
    ]
}

fn is_wanted(offer: Offer, wanted: Wanted) -> bool {
    offer.provider == wanted.provider
        && offer.place == wanted.place
        && offer.claim.as_claim().id.as_str() == wanted.id
}

fn gives(claims: &mut OrderedClaims<'_>, wanted: Wanted) -> Result<bool, AllocError> {
    match claims.next()? {
        Some(offer) => Ok(is_wanted(offer, wanted)),
        None => Ok(false),
    }
}

// After a call that ran out of memory, the next call reports it again.
fn stays_refused(claims: &mut OrderedClaims<'_>) -> Result<bool, AllocError> {
    match claims.next() {
        Ok(_) => Ok(false),
        Err(AllocError) => Err(AllocError),
    }
}

// Returns whether the reader gives these claims and then no more.
fn gives_all(alloc: Global, terms: &Terms<'_>, wanted: &[Wanted]) -> Result<bool, AllocError> {
    let mut claims = OrderedClaims::new(alloc, terms)?;
    for &one in wanted {
        match gives(&mut claims, one) {
            Ok(true) => {}
            Ok(false) => return Ok(false),
            Err(AllocError) => return stays_refused(&mut claims),
        }
    }
    Ok(claims.next()?.is_none())
}

#[test]
fn claims_come_by_day_of_service_or_no_memory(rt: HostRuntime) {
    let Ok(plan) = read_plan(rt.alloc(), health_plan().as_bytes()) else {
        return;
    };
    let files: [&[u8]; 3] = [A, B, C];
    let Ok(terms) = Terms::with_order(rt.alloc(), &plan, &files, None, None, Order::Service) else {
        return;
    };
    match gives_all(rt.alloc(), &terms, &by_service()) {
        Ok(all) => expects(&rt, all, "the claims by day of service"),
        Err(AllocError) => {}
    }
}

// The claims come file after file.
fn come_by_files(rt: &impl Abort, alloc: Global, order: Order) {
    let plan = plan(rt, alloc, health_plan().as_bytes());
    let files: [&[u8]; 3] = [A, B, C];
    let Ok(terms) = Terms::with_order(alloc, &plan, &files, None, None, order) else {
        fail(rt, "terms")
    };
    let Ok(all) = gives_all(alloc, &terms, &by_files()) else {
        fail(rt, "memory")
    };
    expects(rt, all, "the claims file after file");
}

// Without an order they come so too.
#[test]
fn claims_come_file_after_file(rt: HostRuntime) {
    come_by_files(&rt, rt.alloc(), Order::Files);
    come_by_files(&rt, rt.alloc(), Order::Any);
}
