//! Tests of the inputs of a run by worked examples. A call that runs out of memory is repeated.
use crate::balances::has_amounts;
use crate::claims::plan;
use crate::ending::{expects, fail};
use claim_gate::{Terms, TermsFault};
use feel_tests::{Day, TEXT_LIMIT_BYTES, Text};
use intake_csv::{BalanceFault, FileFault, RowCause, RowFault};
use settlement::{Acc, Claim};
use std::alloc::Global;
use std::process::Abort;
use tables::{Plan, Sequence};

/// A plan that pays the billed amount, up to 5.00.
const PLAN: &[u8] = br#"
version = 1
fields = [{name = "code", kind = "text"}]
[roles]
cover = "true"
fee = "5"
deductible = "0"
copay = "0"
rate = "0"
oop_max = "1000"
"#;

const CLAIMS: &[u8] = b"claim,member,service,billed,code\nc1,M1,2024-01-05,120.00,A\n";

const OTHER_CLAIMS: &[u8] = b"claim,member,service,billed,code\n";

const BALANCES: &[u8] = b"member,met,oop,paid\nM1,50.00,10.00,5.00\n";

const TWICE: &[u8] = b"member,met,oop,paid\nM1,50.00,10.00,5.00\nM1,50.00,10.00,5.00\n";

fn terms<'a>(
    rt: &impl Abort,
    alloc: Global,
    plan: &'a Plan,
    files: &'a [&'a [u8]],
    balances: Option<&[u8]>,
    cutoff: Option<u64>,
) -> Terms<'a> {
    match Terms::new(alloc, plan, files, balances, cutoff) {
        Ok(terms) => return terms,
        Err(fault) => expects(rt, fault == TermsFault::OutOfMemory, "out of memory"),
    }
    let Ok(terms) = Terms::new(alloc, plan, files, balances, cutoff) else {
        fail(rt, "terms")
    };
    terms
}

fn text(rt: &impl Abort, alloc: Global, text: &str) -> Text {
    assert!(rt; text.len() <= TEXT_LIMIT_BYTES);
    Text::new(alloc, text).expect(rt, "a text in its place")
}

// Returns a claim of a member without a family, on 5 January 2024.
fn claim(rt: &impl Abort, alloc: Global, member: &str) -> Claim {
    Claim {
        id: text(rt, alloc, "c1"),
        family: None,
        member: text(rt, alloc, member),
        service: Day::from_epoch_day(19_727).expect(rt, "a day"),
        billed: Acc::zero().met,
        fields: Sequence::new(alloc),
    }
}

// Compares the opening accumulators of a member who is the only one of its family.
fn opens(rt: &impl Abort, alloc: Global, terms: &Terms, wanted: (&str, i64, i64, i64)) {
    let (member, met, oop, paid) = wanted;
    let claim = claim(rt, alloc, member);
    let found = has_amounts(terms.opening(&claim), (met, oop, paid), (met, oop));
    expects(rt, found, member);
}

fn has_files(rt: &impl Abort, terms: &Terms, wanted: &[&[u8]]) {
    expects(rt, terms.files().len() == wanted.len(), "as many files");
    for (text, other) in terms.files().iter().zip(wanted) {
        expects(rt, *text == *other, "the file");
    }
}

fn check_terms(rt: &impl Abort, alloc: Global, plan: &Plan) {
    let files = [CLAIMS, OTHER_CLAIMS];
    let full = terms(rt, alloc, plan, &files, Some(BALANCES), Some(7));
    check_full(rt, alloc, full, &files);
    check_without_balances(rt, alloc, plan);
}

fn check_full(rt: &impl Abort, alloc: Global, terms: Terms, files: &[&[u8]]) {
    expects(rt, terms.plan().names().len() == 8, "the plan's names");
    expects(rt, terms.plan().roles().is_some(), "the plan's roles");
    expects(rt, terms.cutoff() == Some(7), "the cutoff");
    has_files(rt, &terms, files);
    opens(rt, alloc, &terms, ("M1", 500_000, 100_000, 50_000));
    opens(rt, alloc, &terms, ("M2", 0, 0, 0));
}

fn check_without_balances(rt: &impl Abort, alloc: Global, plan: &Plan) {
    let terms = terms(rt, alloc, plan, &[CLAIMS], None, None);
    check_plain(rt, alloc, terms);
}

fn check_plain(rt: &impl Abort, alloc: Global, terms: Terms) {
    expects(rt, terms.cutoff().is_none(), "no cutoff");
    opens(rt, alloc, &terms, ("M1", 0, 0, 0));
}

// `./check` runs this test once for each of its allocations, with that allocation refused.
#[test]
fn terms_of_texts_though_memory_is_refused(rt: HostRuntime) {
    let plan = plan(&rt, rt.alloc(), PLAN);
    check_terms(&rt, rt.alloc(), &plan);
    check_faults(&rt, rt.alloc(), &plan);
}

/// The second record of balances repeats a member.
const REPEATED: TermsFault = TermsFault::Balances(BalanceFault::Row {
    number: 2,
    fault: RowFault {
        column: 1,
        cause: RowCause::Repeated,
    },
});

// No file is a fault before those of the balances. The program cannot be called without a file, and
// the other faults are shown by the cases of `tests/program`.
fn check_faults(rt: &impl Abort, alloc: Global, plan: &Plan) {
    let refused = Terms::new(alloc, plan, &[], Some(TWICE), None).err();
    expects(rt, refused == Some(TermsFault::Files), "no file");
}

/// Faults, with their numbers and texts.
const FAULTS: [(TermsFault, u8, &str); 5] = [
    (TermsFault::NoRoles, 1, "the plan has no roles"),
    (TermsFault::Files, 2, "no file, or too many files"),
    (
        TermsFault::File {
            provider: 2,
            fault: FileFault::NoHeader,
        },
        3,
        "file 2: the file has no header",
    ),
    (
        REPEATED,
        4,
        "balances: record 2: column 1: a member occurs twice",
    ),
    (TermsFault::OutOfMemory, 5, "out of memory"),
];

#[test]
fn faults_have_numbers_and_texts(rt: HostRuntime) {
    for (fault, number, wanted) in &FAULTS {
        expects(&rt, fault.number() == *number, wanted);
        let reported = format!(in rt.alloc(); "{fault}").expect(&rt, "memory for a text");
        expects(&rt, reported.as_str() == *wanted, wanted);
    }
}
