//! Tests of files of balances by worked examples. Their faults are shown by the cases of
//! `tests/program`.
use crate::claims::BY_FAMILY;
use crate::ending::expects;
use dtable::read_plan;
use intake_csv::{BalanceFault, Balances, read_balances};
use settlement::Acc;
use std::alloc::Global;
use std::process::Abort;
use tables::Plan;

/// Balances of two families. The columns are not in the order of the documentation, and one more
/// column has bytes that are no text.
const OF_FAMILIES: &[u8] =
    b"year,family,note,member,met,oop,paid\n2024,F1,\xFF,M1,50,10,5\n2024,F1,,M2,4,3,2\n2025,F1,,M1,1,1,1\n2024,F2,,M1,7,7,7\n2024,F1,,M3,0.50,0,0\n";

/// A family, a member and a year, the member's own amounts in ten-thousandths, and the family's
/// sums.
type OfFamily = (&'static str, &'static str, u16, (i64, i64, i64), (i64, i64));

const MEMBERS_BY_FAMILY: [OfFamily; 8] = [
    (
        "F1",
        "M1",
        2024,
        (500_000, 100_000, 50_000),
        (545_000, 130_000),
    ),
    (
        "F1",
        "M2",
        2024,
        (40_000, 30_000, 20_000),
        (545_000, 130_000),
    ),
    ("F1", "M3", 2024, (5_000, 0, 0), (545_000, 130_000)),
    ("F1", "M4", 2024, (0, 0, 0), (545_000, 130_000)),
    ("F1", "M2", 2025, (0, 0, 0), (10_000, 10_000)),
    ("F2", "M1", 2024, (70_000, 70_000, 70_000), (70_000, 70_000)),
    ("F2", "M1", 2025, (0, 0, 0), (0, 0)),
    ("M1", "M1", 2024, (0, 0, 0), (0, 0)),
];

#[test]
fn balances_of_families_or_no_memory(rt: HostRuntime) {
    if let Ok(plan) = read_plan(rt.alloc(), BY_FAMILY) {
        families_or_no_memory(&rt, rt.alloc(), &plan);
    }
}

fn families_or_no_memory(rt: &impl Abort, alloc: Global, plan: &Plan) {
    match read_balances(alloc, plan, OF_FAMILIES) {
        Ok(balances) => have_members_by_family(rt, balances, members_by_family()),
        Err(fault) => lacks_memory(rt, fault),
    }
}

fn members_by_family() -> &'static [OfFamily] {
    &MEMBERS_BY_FAMILY
}

fn have_members_by_family(rt: &impl Abort, balances: Balances, members: &[OfFamily]) {
    for (family, member, year, own, sums) in members {
        let found = has_amounts(balances.of(family, member, *year), *own, *sums);
        expects(rt, found, member);
    }
}

/// Returns whether accumulators have these amounts of a member and these sums of its family, in
/// ten-thousandths.
pub(crate) fn has_amounts(acc: Acc, own: (i64, i64, i64), family: (i64, i64)) -> bool {
    acc.met.amount().units() == own.0
        && acc.oop.amount().units() == own.1
        && acc.paid.amount().units() == own.2
        && acc.fmet.amount().units() == family.0
        && acc.foop.amount().units() == family.1
}

fn lacks_memory(rt: &impl Abort, fault: BalanceFault) {
    expects(rt, fault == BalanceFault::OutOfMemory, "out of memory");
}
