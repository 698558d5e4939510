//! The gaps and overlaps of a compiled plan, which no command asks for. The checks of the regions of
//! each kind are tested by cases of the built program's `check`. A call that runs out of memory is
//! repeated once.
ghost use Rattle.std.specs.Prelude.{◌≡◌};
ghost use Rattle.cutplan.specs.Numbered.{IsTableNumber};

mod alike;
mod plans;
mod wide_plans;

use crate::answers::plan_of;
use crate::ending::{expects, fail};
use cutplan::{CELL_LIMIT, CheckFault, CutPlan, Region, compile};
use plans::{flag_and_code, no_region_after_ten_columns, seventeen_regions, sixteen_regions};
use std::alloc::Global;
use std::process::Abort;
use tables::{Plan, Sequence};

// Compiles the plan, even if one allocation is refused.
fn cut_of<'p>(rt: &impl Abort, alloc: Global, plan: &'p Plan) -> CutPlan<'p>
    ensures { result ≡ plan.now }
{
    if let Ok(cut) = compile(alloc, plan) {
        return cut;
    }
    let Ok(cut) = compile(alloc, plan) else {
        fail(rt, "memory for a cut plan")
    };
    cut
}

// Returns the gaps of a plan's first table, even if one allocation is refused.
fn gaps_of(alloc: Global, cut: &CutPlan) -> Result<Vec<Sequence<Region>>, CheckFault>
    requires { IsTableNumber cut.now 1 }
{
    match cut.gaps(alloc, 1) {
        Err(CheckFault::OutOfMemory) => cut.gaps(alloc, 1),
        answer => answer,
    }
}

// Returns whether the list consists of this pair.
fn is_pair(pairs: &[(usize, usize)], first: usize, second: usize) -> bool {
    match pairs {
        [pair] => pair.0 == first && pair.1 == second,
        _ => false,
    }
}

// Returns whether there is this number of gaps, or `None`, because the table has too many cells.
fn are_gaps(found: Result<Vec<Sequence<Region>>, CheckFault>, wanted: Option<usize>) -> bool {
    match found {
        Ok(cells) => wanted == Some(cells.len()),
        Err(fault) => wanted.is_none() && fault == CheckFault::TooWide,
    }
}

// Requires that the first table has exactly this overlap, or none.
fn check_overlaps(rt: &impl Abort, alloc: Global, cut: &CutPlan, wanted: Option<(usize, usize)>)
    requires { IsTableNumber cut.now 1 }
{
    let pairs = match cut.overlaps(alloc, 1) {
        Ok(pairs) => pairs,
        Err(_) => cut.overlaps(alloc, 1).expect(rt, "memory for pairs"),
    };
    expects(rt, are_pairs(pairs, wanted), "the one overlap, or none");
}

fn are_pairs(pairs: Vec<(usize, usize)>, wanted: Option<(usize, usize)>) -> bool {
    match wanted {
        Some((first, second)) => is_pair(pairs.as_slice(), first, second),
        None => pairs.is_empty(),
    }
}

fn check_first(
    rt: &impl Abort,
    alloc: Global,
    plan: &Plan,
    gaps: Option<usize>,
    overlap: Option<(usize, usize)>,
) {
    assert!(rt; plan.tables().len() > 0);
    let cut = cut_of(rt, alloc, plan);
    expects(rt, are_gaps(gaps_of(alloc, &cut), gaps), "the gaps");
    check_overlaps(rt, alloc, &cut, overlap);
}

// Requires the number of gaps of the first table of a plan, or that it has too many cells, and its
// only overlap, if there is one.
fn check(
    rt: &impl Abort,
    alloc: Global,
    text: &[u8],
    gaps: Option<usize>,
    overlap: Option<(usize, usize)>,
) {
    let plan = plan_of(rt, alloc, text);
    check_first(rt, alloc, &plan, gaps, overlap);
}

// In the first plan the earlier columns have too many tuples of regions to visit, so the walk over
// cells must not start. `./check` runs this test once for each of its allocations, with that
// allocation refused.
#[test]
fn gaps_and_overlaps_are_listed_though_memory_is_refused(rt: HostRuntime) {
    let no_region = no_region_after_ten_columns();
    check(&rt, rt.alloc(), no_region, Some(0), None);
    check(&rt, rt.alloc(), flag_and_code(), Some(2), Some((2, 3)));
}

#[test]
fn sixteen_and_seventeen_regions_in_each_of_four_columns(rt: HostRuntime) {
    check(&rt, rt.alloc(), sixteen_regions(), Some(61_440), None);
    check(&rt, rt.alloc(), seventeen_regions(), None, None);
    expects(&rt, CELL_LIMIT == 65_536, "the limit of cells");
}
