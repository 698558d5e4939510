//! Runs by each number of workers.
use crate::testing::expects_at;
use crate::writers::{Narrow, WhenFull, narrow_writer};
use adjudicate::{RunInput, do_run};
use fixpoint::Out;
use std::process::Abort;
use std::sync::Wait;
use std::thread::Threads;
use test_fixtures::{
    both_files, family_file, family_plan, header, health_plan, late_remittance, remittance,
};
use texts::{empty_remittance, family_remittance, splits, three_and_three};

mod texts;

/// The numbers of workers with which each run is tried, from the least to the greatest.
const WORKERS: &[usize] = &[1, 2, 4, 64];

fn is_one_of(out: Out<Narrow>, reports: &[&str]) -> bool {
    let writer = out.into_inner();
    for report in reports {
        if writer.bytes_taken() == report.as_bytes() {
            return true;
        }
    }
    false
}

// A run writes one of these remittances, whatever the number of its workers.
fn writes<'a, R: Threads + Wait + Abort + Sync + AllocGlobal>(
    rt: &R,
    plan: &'a str,
    files: &'a [&'a [u8]],
    cutoff: Option<u64>,
    reports: &[&str],
) {
    for workers in WORKERS {
        let input = RunInput {
            plan: plan.as_bytes(),
            balances: None,
            files,
            cutoff,
            workers: *workers,
        };
        let mut out = narrow_writer(rt, rt.alloc(), 1_024, 1_024, WhenFull::Fails);
        let is_done = do_run(rt, input, &mut out).is_ok() && !out.failed();
        expects_at(rt, is_done && is_one_of(out, reports), *workers);
    }
}

#[test]
fn two_files_in_one_remittance(rt: HostRuntime) {
    for cutoff in [None, Some(6), Some(7), Some(u64::MAX)] {
        writes(&rt, health_plan(), both_files(), cutoff, &[remittance()]);
    }
    let late = [late_remittance()];
    writes(&rt, health_plan(), both_files(), Some(0), &late);
}

#[test]
fn one_file_in_a_remittance(rt: HostRuntime) {
    let empty = [empty_remittance()];
    writes(&rt, health_plan(), &[header()], None, &empty);
    let families = [family_remittance()];
    writes(&rt, family_plan(), &[family_file()], None, &families);
}

// Four of six claims are accepted; the split between the files depends on the schedule.
#[test]
fn a_cutoff_leaves_claims_over(rt: HostRuntime) {
    writes(&rt, health_plan(), three_and_three(), Some(4), splits());
}
