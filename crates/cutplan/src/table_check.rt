//! The check of one table. Only the regions and masks of that table are in memory.
ghost use Rattle.std.specs.Prelude.{◌≡◌, ◌-◌, ◌≤◌, IfOk, filter, length};
ghost use Rattle.cutplan.specs.Check.{cells, meet, overlaps, pairs};
ghost use Rattle.cutplan.specs.CompiledColumns.{regions_kept, AreMasked};
ghost use Rattle.cutplan.specs.Numbered.{IsTableNumber, cells_of, overlaps_of};
ghost use Rattle.cutplan.specs.Places.{ArePlaces, is_gap, is_gap_of, regions_of};
ghost use Rattle.regions.specs.Regions.{table_regions};
ghost use Rattle.cutplan.specs.declared.mask.TheConstants.{MASK_CAPACITY};

use crate::compiled_column::{CompiledColumn, compiled_columns, regions_of_columns};
use crate::gap::gap_places;
use crate::overlap::overlaps;
use regions::Region;
use std::alloc::{AllocError, Global};
use tables::{Plan, Sequence, Table};

/// The result of the check of a table. A cell of the check is a tuple of regions, one for each
/// column. Cells are ordered column by column from the left, so that the last column changes
/// fastest, and are numbered from 0.
#[derive(Drop)]
pub struct TableCheck {
    /// The pairs of rules that share an allowed input, in order and each once. Rules are numbered
    /// from 1, and the smaller one comes first.
    pub overlaps: Vec<(usize, usize)>,
    /// The regions of each input column.
    pub columns: Sequence<Sequence<Region>>,
    /// The numbers of the cells that no rule covers, in increasing order, or `None` if the check
    /// has more than `CELL_LIMIT` cells.
    pub gaps: Option<Vec<u32>>,
}

/// Checks a table of the plan. Tables are numbered from 1. The only error is that memory runs out.
pub fn check_table(alloc: Global, plan: &Plan, table: usize) -> Result<TableCheck, AllocError>
    requires { IsTableNumber plan.now table }
    ensures overlaps { IfOk result (λ check. check.overlaps.items ≡ overlaps_of plan.now table) }
    ensures columns { IfOk result (λ check. check.columns ≡ regions_of plan.now table) }
    ensures gaps { IfOk result (λ check. ArePlaces (cells_of plan.now table)
        (is_gap_of plan.now table) check.gaps) }
{
    check_of(alloc, plan, &plan.tables()[table - 1])
}

fn check_of(alloc: Global, plan: &Plan, table: &Table) -> Result<TableCheck, AllocError>
    requires { length table.now.rules ≤ MASK_CAPACITY }
    ensures overlaps { IfOk result (λ check. check.overlaps.items ≡ overlaps plan.now table.now) }
    ensures columns { IfOk result (λ check. check.columns ≡ table_regions plan.now table.now) }
    ensures gaps { IfOk result (λ check. ArePlaces (cells (table_regions plan.now table.now))
        (is_gap table.now) check.gaps) }
{
    let compiled = compiled_columns(alloc, plan, table)?;
    let overlaps = overlaps_of(alloc, table, compiled.as_slice())?;
    let gaps = gap_places(alloc, table, compiled.as_slice())?;
    let columns = regions_of_columns(alloc, compiled.as_slice())?;
    Ok(TableCheck {
        overlaps,
        columns,
        gaps,
    })
}

/// Returns the pairs of rules of the table that share an allowed input. `columns` are the compiled
/// columns of the table.
pub fn overlaps_of(
    alloc: Global,
    table: &Table,
    columns: &[CompiledColumn],
) -> Result<Vec<(usize, usize)>, AllocError>
    requires few { length table.now.rules ≤ MASK_CAPACITY }
    requires masks { AreMasked table.now 0 columns.now }
    ensures { IfOk result (λ found. found.items
        ≡ filter (λ pair. meet (regions_kept columns.now) table.now (pair.0 - 1) (pair.1 - 1))
        (pairs (length table.now.rules))) }
{
    overlaps(alloc, table.rules.len(), columns)
}
