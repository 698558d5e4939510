//! Overlaps: pairs of rules that share an allowed input.
//!
//! For each rule, the masks of a column that contain it also contain all rules that share a region
//! of that column with it. Each mask is therefore visited once for each rule, and not once for each
//! pair of rules.
ghost use Rattle.std.specs.Prelude.{◌≡◌, ◌+◌, ◌-◌, ◌<◌, ◌≤◌, ◌++◌, ◌∷◌, [], IfOk, OnOk, filter, length, if◌then◌else◌};
ghost use Rattle.cutplan.specs.Check.{pairs, pairs_with};
ghost use Rattle.cutplan.specs.Masks.{has_rule};
ghost use Rattle.cutplan.specs.CheckSteps.{share_all};
ghost use Rattle.cutplan.specs.CompiledColumns.{masks_kept};
ghost use Rattle.cutplan.specs.declared.mask.TheConstants.{MASK_CAPACITY};

use crate::compiled_column::CompiledColumn;
use crate::mask::RuleMask;
use crate::rule_pairs::partners;
use std::alloc::{AllocError, Global};

/// Returns the pairs of the first `count` rules that have a mask of each column in common. Rules
/// are numbered from 1. The smaller number comes first, and the pairs are in order.
pub fn overlaps(
    alloc: Global,
    count: usize,
    columns: &[CompiledColumn],
) -> Result<Vec<(usize, usize)>, AllocError>
    requires { count ≤ MASK_CAPACITY }
    ensures { IfOk result (λ found. found.items
        ≡ filter (λ pair. share_all (masks_kept columns.now) (pair.0 - 1) (pair.1 - 1))
        (pairs count)) }
{
    let mut found = Vec::new(alloc);
    'rules: for first in 0..count {
        let others = partners(columns, first);
        push_pairs(count, first, &others, &mut found)?;
    }
    Ok(found)
}

// Appends the pairs of the rule at the index `first` with each later rule in `others`.
fn push_pairs(
    count: usize,
    first: usize,
    others: &RuleMask,
    found: &mut Vec<(usize, usize)>,
) -> Result<(), AllocError>
    requires within { first < count }
    requires few { count ≤ MASK_CAPACITY }
    ensures { OnOk result (found.new.items ≡ found.old.items
        ++ filter (λ pair. has_rule others.now (pair.1 - 1)) (pairs_with count (first + 1))) }
{
    'seconds: for second in first + 1..count {
        push_pair(first, second, others, found)?;
    }
    Ok(())
}

fn push_pair(
    first: usize,
    second: usize,
    others: &RuleMask,
    found: &mut Vec<(usize, usize)>,
) -> Result<(), AllocError>
    requires { (first < MASK_CAPACITY) × (second < MASK_CAPACITY) }
    ensures { OnOk result (found.new.items ≡ found.old.items
        ++ (if has_rule others.now second then (first + 1, second + 1) ∷ [] else [])) }
{
    if others.has(second) {
        found.push((first + 1, second + 1))?;
    }
    Ok(())
}
