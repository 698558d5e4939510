//! The gaps of a check: the cells that no rule covers, either as cells or as indices among all
//! cells.
ghost use Rattle.std.specs.Prelude.{◌≡◌, ◌+◌, ◌*◌, ◌≤◌, ◌<◌, ◌^◌, ◌++◌, ◌∷◌, All, IfOk, IfErr, OnOk, filter, get_or, map, min, length, not, [], ◌==◌, if◌then◌else◌};
ghost use Rattle.std.specs.List.{list_any};
ghost use Rattle.cutplan.specs.Check.{cells, covers};
ghost use Rattle.cutplan.specs.Masks.{rules_in, HasOnlyFirst};
ghost use Rattle.cutplan.specs.Places.{ArePlaces, is_gap, places};
ghost use Rattle.cutplan.specs.CheckSteps.{uncovered};
ghost use Rattle.cutplan.specs.CompiledColumns.{regions_kept, AreMasked};
ghost use Rattle.cutplan.specs.Numbered.{cell_limit, IsWide};
ghost use Rattle.cutplan.specs.declared.mask.TheConstants.{MASK_CAPACITY};

use crate::compiled_column::CompiledColumn;
use crate::fault::CheckFault;
use crate::mask::RuleMask;
use regions::Region;
use std::alloc::{AllocError, Global};
use tables::{Sequence, Table};

/// The greatest number of cells in a check.
pub const CELL_LIMIT: usize = 65_536;

/// Returns the number of cells of the columns, or the limit plus one if there are more.
pub fn cell_count(columns: &[Sequence<Region>]) -> usize
    ensures { result ≡ min (length (cells columns.now)) (cell_limit + 1) }
{
    let mut count = 1;
    for regions in columns {
        count = capped_product(count, regions.len());
    }
    count
}

// Returns the number of cells of compiled columns, or the limit plus one if there are more.
fn count_cells(columns: &[CompiledColumn]) -> usize
    ensures { result ≡ min (length (cells (regions_kept columns.now))) (cell_limit + 1) }
{
    let mut count = 1;
    for column in columns {
        count = capped_product(count, column.partition.regions.as_slice().len());
    }
    count
}

// Returns the product, or the limit plus one if the product is greater.
fn capped_product(count: usize, factor: usize) -> usize
    ensures { result ≡ min (count * factor) (cell_limit + 1) }
{
    count.saturating_mul(factor).min(CELL_LIMIT + 1)
}

/// Returns the cells of the columns that no rule of the table covers, in order, or `TooWide` if there
/// are more cells than the limit. `columns` are the compiled columns of the table.
pub fn gaps(
    alloc: Global,
    table: &Table,
    columns: &[CompiledColumn],
) -> Result<Vec<Sequence<Region>>, CheckFault>
    requires far { length columns.now < 2 ^ 59 }
    requires few { length table.now.rules ≤ MASK_CAPACITY }
    requires masks { AreMasked table.now 0 columns.now }
    ensures listed { IfOk result (λ found. found.items
        ≡ filter (λ cell. not (list_any (λ r. covers r.cells cell) table.now.rules))
        (cells (regions_kept columns.now))) }
    ensures narrow { OnOk result (length (cells (regions_kept columns.now)) ≤ cell_limit) }
    ensures wide { IfErr result (IsWide (length (cells (regions_kept columns.now)))) }
{
    match gap_places(alloc, table, columns)? {
        Some(places) => Ok(cells_at(alloc, columns, places.as_slice())?),
        None => Err(CheckFault::TooWide),
    }
}

// Returns the cells of the columns at these indices.
fn cells_at(
    alloc: Global,
    columns: &[CompiledColumn],
    places: &[u32],
) -> Result<Vec<Sequence<Region>>, AllocError>
    requires narrow { length (cells (regions_kept columns.now)) ≤ cell_limit }
    requires within { All (λ place. place < length (cells (regions_kept columns.now))) places.now }
    ensures { IfOk result (λ found. found.items
        ≡ map (λ place. get_or (cells (regions_kept columns.now)) place []) places.now) }
{
    let mut found = Vec::new(alloc);
    for place in places {
        let mut cell = Sequence::new(alloc);
        push_regions(alloc, columns, *place as usize, &mut cell)?;
        found.push(cell)?;
    }
    Ok(found)
}

// Appends the regions of the cell at the index `place`. The last column changes fastest.
fn push_regions(
    alloc: Global,
    columns: &[CompiledColumn],
    place: usize,
    cell: &mut Sequence<Region>,
) -> Result<(), AllocError>
    requires narrow { length (cells (regions_kept columns.now)) ≤ cell_limit }
    requires within { place < length (cells (regions_kept columns.now)) }
    ensures { OnOk result (cell.new
        ≡ cell.old ++ get_or (cells (regions_kept columns.now)) place []) }
{
    match columns.split_first() {
        Some((column, more)) => {
            let following = count_cells(more);
            let regions = column.partition.regions.as_slice();
            let first = place / following;
            cell.push(regions[first].duplicate(alloc)?)?;
            push_regions(alloc, more, place % following, cell)
        }
        None => Ok(()),
    }
}

/// Returns the indices of the gaps among the cells of the columns, from 0, in increasing order, or
/// `None` if there are more cells than the limit. `columns` are the compiled columns of the table.
pub fn gap_places(
    alloc: Global,
    table: &Table,
    columns: &[CompiledColumn],
) -> Result<Option<Vec<u32>>, AllocError>
    requires far { length columns.now < 2 ^ 59 }
    requires few { length table.now.rules ≤ MASK_CAPACITY }
    requires masks { AreMasked table.now 0 columns.now }
    ensures { IfOk result (ArePlaces (cells (regions_kept columns.now)) (is_gap table.now)) }
{
    let count = count_cells(columns);
    if count > CELL_LIMIT {
        return Ok(None);
    }
    // There is no cell if a column has no region. A walk would then visit every tuple of regions of
    // the columns before that column, and their number has no limit.
    if count == 0 {
        return Ok(Some(Vec::new(alloc)));
    }
    let mut walk = Walk {
        found: Vec::new(alloc),
        passed: 0,
    };
    let rules = RuleMask::first_rules(table.rules.len());
    walk_cells(table, 0, columns, &rules, &mut walk)?;
    Ok(Some(walk.found))
}

/// The state of a walk over the cells: the indices of the gaps so far, and the number of cells
/// passed.
#[derive(Drop)]
struct Walk {
    found: Vec<u32>,
    passed: u32,
}

// Walks over the cells of these columns, in order, and records those that none of the remaining
// `rules` covers. `columns` are the compiled columns of the table from the index `place` on.
fn walk_cells(
    table: &Table,
    place: usize,
    columns: &[CompiledColumn],
    rules: &RuleMask,
    walk: &mut Walk,
) -> Result<(), AllocError>
    requires far { place + length columns.now < 2 ^ 59 }
    requires few { length table.now.rules ≤ MASK_CAPACITY }
    requires masks { AreMasked table.now place columns.now }
    requires rules { HasOnlyFirst (length table.now.rules) rules.now }
    requires room { walk.old.passed + length (cells (regions_kept columns.now)) ≤ cell_limit }
    ensures found { OnOk result (walk.new.found.items ≡ walk.old.found.items
        ++ places (uncovered table.now place (rules_in (length table.now.rules) rules.now))
        walk.old.passed (cells (regions_kept columns.now))) }
    ensures passed { OnOk result (walk.new.passed
        ≡ walk.old.passed + length (cells (regions_kept columns.now))) }
{
    match columns.split_first() {
        Some((column, more)) => {
            for mask in column.masks.as_slice() {
                let left = rules.meet(mask);
                walk_cells(table, place + 1, more, &left, walk)?;
            }
            Ok(())
        }
        None => walk_end(table.rules.len(), rules, walk),
    }
}

// With no columns left, the cell is a gap if no rule remains.
fn walk_end(count: usize, rules: &RuleMask, walk: &mut Walk) -> Result<(), AllocError>
    requires few { count ≤ MASK_CAPACITY }
    requires rules { HasOnlyFirst count rules.now }
    requires room { walk.old.passed < cell_limit }
    ensures found { OnOk result (walk.new.found.items ≡ walk.old.found.items
        ++ (if length (rules_in count rules.now) == 0 then walk.old.passed ∷ [] else [])) }
    ensures passed { OnOk result (walk.new.passed ≡ walk.old.passed + 1) }
{
    if rules.is_none(count) {
        walk.found.push(walk.passed)?;
    }
    walk.passed += 1;
    Ok(())
}
