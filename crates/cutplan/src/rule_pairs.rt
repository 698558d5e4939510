//! The rules that share a region of every column with a given rule.
ghost use Rattle.std.specs.Prelude.{◌≡◌, ◌<◌, ◌&&◌, ◌||◌, ℕ, length};
ghost use Rattle.cutplan.specs.Masks.{has_rule, Marks};
ghost use Rattle.cutplan.specs.CheckSteps.{share, share_all};
ghost use Rattle.cutplan.specs.CompiledColumns.{masks_kept};
ghost use Rattle.cutplan.specs.declared.mask.TheConstants.{MASK_CAPACITY};

use crate::compiled_column::CompiledColumn;
use crate::mask::{MASK_CAPACITY, RuleMask};

/// Returns the rules that share a region of every column with the rule at this index.
pub fn partners(columns: &[CompiledColumn], rule: usize) -> RuleMask
    requires { rule < MASK_CAPACITY }
    ensures { Marks (share_all (masks_kept columns.now) rule) result }
{
    let mut mask = RuleMask::first_rules(MASK_CAPACITY);
    'columns: for column in columns {
        let shared = sharing_rules(column.masks.as_slice(), rule);
        mask = mask.meet(&shared);
    }
    mask
}

// Returns the rules that have one of these masks in common with the rule at this index.
fn sharing_rules(masks: &[RuleMask], rule: usize) -> RuleMask
    requires { rule < MASK_CAPACITY }
    ensures { Marks (share masks.now rule) result }
{
    let mut found = RuleMask::none();
    'masks: for mask in masks {
        found = with_partners(found, mask, rule);
    }
    found
}

// Returns `found`, joined with the mask if the mask has the rule.
fn with_partners(found: RuleMask, mask: &RuleMask, rule: usize) -> RuleMask
    requires { rule < MASK_CAPACITY }
    ensures words { length result ≡ 4 }
    ensures has { (place : ℕ) → place < 256 → has_rule result place
        ≡ (has_rule found place || (has_rule mask.now rule && has_rule mask.now place)) }
{
    if mask.has(rule) {
        found.join(mask)
    } else {
        found
    }
}
