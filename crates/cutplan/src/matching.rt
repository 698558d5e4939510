//! The search for the matching rules of a table by the masks of its columns.
ghost use Rattle.std.specs.Prelude.{◌≤◌, IfSome, length};
ghost use Rattle.cutplan.specs.Matching.{IsMatchingMask, OthersRise};
ghost use Rattle.cutplan.specs.CompiledColumns.{AreKept, IsMaskOf, IsMaskRead};
ghost use Rattle.cutplan.specs.declared.mask.TheConstants.{MASK_CAPACITY};

use crate::compiled_column::CompiledColumn;
use crate::mask::{MASK_CAPACITY, RuleMask};
use feel_tests::Value;
use tables::{Answers, Inputs, Table, value_read};

/// Returns the rules of the table that match, if each of its inputs reads a value that is of its
/// column's kind and lies in one of the regions. `columns` are the compiled columns of the table.
pub fn matching_mask(
    given: &Inputs,
    earlier: &[Answers<'_>],
    table: &Table,
    columns: &[CompiledColumn],
) -> Option<RuleMask>
    requires few { length table.now.rules ≤ MASK_CAPACITY }
    requires kept { AreKept table.now columns.now }
    ensures { IfSome result (λ mask. IsMatchingMask given.now earlier.now table.now mask) }
{
    let mut mask = RuleMask::first_rules(table.rules.len());
    for column in columns {
        let read = mask_read(given, earlier, column)?;
        mask = mask.meet(read);
    }
    Some(mask)
}

// Returns the mask of the region that contains the value that the column reads.
fn mask_read<'m>(
    given: &Inputs,
    earlier: &[Answers<'_>],
    column: &'m CompiledColumn,
) -> Option<&'m RuleMask>
    requires { OthersRise column.now.partition.regions.items }
    ensures { IfSome result (λ mask. IsMaskRead given.now earlier.now column.now mask.now) }
{
    let value = value_read(given, earlier, column.origin)?;
    mask_of(column, value)
}

// Returns the mask of the region that contains the value, if the value is of the column's kind and
// lies in a region.
fn mask_of<'m>(column: &'m CompiledColumn, value: &Value) -> Option<&'m RuleMask>
    requires { OthersRise column.now.partition.regions.items }
    ensures { IfSome result (λ mask. IsMaskOf column.now value.now mask.now) }
{
    let place = column.partition.place_of(value)?;
    let mask = column.masks.as_slice().get(place)?;
    Some(mask)
}
