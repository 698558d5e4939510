//! The compiled input columns of a plan's tables: the partition of each column, with a mask for each
//! of its regions. The check of a table and its evaluation both use them.
ghost use Rattle.std.specs.Prelude.{◌≡◌, ◌≤◌, All, IfOk, length};
ghost use Rattle.std.specs.List.{AllZip};
ghost use Rattle.cutplan.specs.CompiledColumns.{AreCompiledColumns, IsCompiledColumn, regions_kept};
ghost use Rattle.cutplan.specs.Masks.{AreMasks};
ghost use Rattle.cutplan.specs.CheckSteps.{AreMasksBy};
ghost use Rattle.cutplan.specs.declared.mask.TheConstants.{MASK_CAPACITY};

use crate::cell_probe::{CellProbe, first_value, mask_of, probes_of};
use crate::mask::RuleMask;
use crate::partition::Partition;
use feel_tests::Kind;
use regions::Region;
use std::alloc::{AllocError, Global};
use tables::{Input, Origin, Plan, Sequence, Table};

/// A compiled input column: the input expression, the partition of the values that it reads, and
/// the masks of the regions, in the same order.
pub struct CompiledColumn {
    pub origin: Origin,
    pub partition: Partition,
    pub masks: Sequence<RuleMask>,
}

impl Drop for CompiledColumn {
    fn drop(self) {
        let CompiledColumn {
            origin: _,
            partition: _,
            masks: _,
        } = self;
    }
}

/// Compiles the columns of these tables of a plan, in order.
pub fn compiled_tables(
    alloc: Global,
    plan: &Plan,
    tables: &[Table],
) -> Result<Sequence<Sequence<CompiledColumn>>, AllocError>
    requires { All (λ t. length t.rules ≤ MASK_CAPACITY) tables.now }
    ensures { IfOk result (λ kept. AllZip (AreCompiledColumns plan.now) tables.now kept) }
{
    let mut kept = Sequence::new(alloc);
    for table in tables {
        kept.push(compiled_columns(alloc, plan, table)?)?;
    }
    Ok(kept)
}

/// Compiles the columns of a table of the plan, in order.
pub fn compiled_columns(
    alloc: Global,
    plan: &Plan,
    table: &Table,
) -> Result<Sequence<CompiledColumn>, AllocError>
    requires { length table.now.rules ≤ MASK_CAPACITY }
    ensures { IfOk result (λ kept. AreCompiledColumns plan.now table.now kept) }
{
    let mut kept = Sequence::new(alloc);
    for (place, input) in table.inputs.as_slice().iter().enumerate() {
        kept.push(compiled_column(alloc, plan, table, place, input)?)?;
    }
    Ok(kept)
}

fn compiled_column(
    alloc: Global,
    plan: &Plan,
    table: &Table,
    place: usize,
    input: &Input,
) -> Result<CompiledColumn, AllocError>
    requires { length table.now.rules ≤ MASK_CAPACITY }
    ensures { IfOk result (λ kept. IsCompiledColumn plan.now table.now place input.now kept) }
{
    let partition = Partition::of_column(alloc, plan, table, place, input)?;
    let regions = partition.regions.as_slice();
    let masks = masks_of_column(alloc, partition.kind, table, place, regions)?;
    Ok(CompiledColumn {
        origin: input.origin,
        partition,
        masks,
    })
}

// Returns the masks of a column with values of the kind, one for each of these regions.
fn masks_of_column(
    alloc: Global,
    kind: Kind,
    table: &Table,
    column: usize,
    regions: &[Region],
) -> Result<Sequence<RuleMask>, AllocError>
    requires { length table.now.rules ≤ MASK_CAPACITY }
    ensures { IfOk result (λ masks. AreMasks table.now column regions.now masks) }
{
    let mut asked = probes_of(alloc, kind, table, column)?;
    masks_by_cells(alloc, asked.as_mut_slice(), regions)
}

fn masks_by_cells(
    alloc: Global,
    asked: &mut [CellProbe<'_>],
    regions: &[Region],
) -> Result<Sequence<RuleMask>, AllocError>
    requires { length asked.old ≤ MASK_CAPACITY }
    ensures { IfOk result (λ masks. AreMasksBy asked.old regions.now masks) }
{
    let mut masks = Sequence::new(alloc);
    for region in regions {
        let first = first_value(alloc, region)?;
        masks.push(mask_of(asked, region, &first))?;
    }
    Ok(masks)
}

/// Copies the regions of these columns.
pub fn regions_of_columns(
    alloc: Global,
    columns: &[CompiledColumn],
) -> Result<Sequence<Sequence<Region>>, AllocError>
    ensures { IfOk result (λ found. found ≡ regions_kept columns.now) }
{
    let mut found = Sequence::new(alloc);
    for column in columns {
        found.push(column.partition.duplicate_regions(alloc)?)?;
    }
    Ok(found)
}
