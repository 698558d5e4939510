//! Tests of claim files. What rows they have is shown by the cases of `tests/program`.
use crate::ending::{expects, expects_at, fail};
use dtable::read_plan;
use intake_csv::{
    ClaimFile, FileFault, Row, Rows, claims_have_the_plan_s_fields, given_row_is_the_first,
    no_records_give_no_rows, reader_begins_with_all_rows,
};
use std::alloc::{AllocError, Global};
use std::process::Abort;
use tables::Plan;

/// A plan with one field, which is a text.
const PLAN: &[u8] = b"version = 1\nfields = [{name = \"code\", kind = \"text\"}]\n";

/// A plan with the same field, and with accumulators by benefit year and for families.
pub(crate) const BY_FAMILY: &[u8] = b"version = 3\nfields = [{name = \"code\", kind = \"text\"}]\n";

/// The first claim file of the documentation.
const CLAIMS: &[u8] = b"claim,member,service,billed,code
c1,M1,2024-01-05,120.00,A
c2,M1,2024-02-01,40.00,B
c3,M1,2024-02-02,40.00,Z
c4,M1,2024-03-01,100.00,A
";

/// Reads the plan of a text. The call is repeated if memory runs out.
pub(crate) fn plan(rt: &impl Abort, alloc: Global, text: &[u8]) -> Plan {
    if let Ok(plan) = read_plan(alloc, text) {
        return plan;
    }
    let Ok(plan) = read_plan(alloc, text) else {
        fail(rt, "a plan")
    };
    plan
}

#[test]
fn calls_the_laws() {
    claims_have_the_plan_s_fields();
    reader_begins_with_all_rows();
    given_row_is_the_first();
    no_records_give_no_rows();
}

#[test]
fn claims_or_no_memory(rt: HostRuntime) {
    if let Ok(plan) = read_plan(rt.alloc(), PLAN) {
        check_claims_or_no_memory(&rt, rt.alloc(), &plan, CLAIMS);
    }
}

fn check_claims_or_no_memory(rt: &impl Abort, alloc: Global, plan: &Plan, text: &[u8]) {
    match ClaimFile::new(alloc, plan, text) {
        Ok(file) => check_file_or_no_memory(rt, alloc, file),
        Err(fault) => expects(rt, fault == FileFault::OutOfMemory, "out of memory"),
    }
}

fn check_file_or_no_memory(rt: &impl Abort, alloc: Global, file: ClaimFile) {
    if let Ok(mut rows) = file.rows(alloc) {
        check_rows_or_no_memory(rt, &mut rows);
    }
}

// With one allocation refused, the earlier rows are right, and every call from then on reports that
// memory ran out.
fn check_rows_or_no_memory(rt: &impl Abort, rows: &mut Rows) {
    for wanted in 1..5_usize {
        match next(rows) {
            Ok(Some((number, place))) => {
                let same = number == wanted && place.saturating_add(1) == number;
                expects_at(rt, same, wanted);
            }
            Ok(None) => fail(rt, "a claim"),
            Err(AllocError) => {
                expects(rt, next(rows).is_err(), "out of memory");
                expects(rt, next(rows).is_err(), "out of memory again");
                return;
            }
        }
    }
    expects(rt, matches!(next(rows), Ok(None)), "the end");
}

// Returns the number of the next claim, and its place among the claims; refused records have none.
fn next(rows: &mut Rows) -> Result<Option<(usize, usize)>, AllocError> {
    match rows.next()? {
        Some(Row::Good { number, place, .. }) => Ok(Some((number, place))),
        Some(Row::Bad { .. }) => Ok(None),
        None => Ok(None),
    }
}
