//! The partition of the values of a column, or of a name, into regions.
//!
//! The literals of a column are cut once, when the column is compiled. The masks, the check of the
//! table and the evaluation all use the regions from then. A name has a partition of its own for
//! input classes, since all columns that read the name cut its values, whatever each of them allows.
ghost use Rattle.std.specs.Prelude.{◌≡◌, IfOk, IfSome, slice_get};
ghost use Rattle.std.specs.Option.{option_map_or};
ghost use Rattle.feel_tests.specs.declared.kind.Kind.TheVariants as kinds;
ghost use Rattle.tables.specs.Plan.{read_kind_of};
ghost use Rattle.cutplan.specs.CompiledColumns.{IsColumnPartition};
ghost use Rattle.cutplan.specs.InputClasses.{IsNamePartition};
ghost use Rattle.cutplan.specs.Matching.{IsPlaceOf, OthersRise};
ghost use Rattle.regions.specs.Values.{kind_of_output, kind_read};

use crate::cuts::{cuts_of_column, cuts_of_name};
use crate::keys::keys_of_regions;
use crate::lookup::place_of;
use feel_tests::{Kind, Value};
use regions::{Region, allowed_regions, is_value, regions_between};
use std::alloc::{AllocError, Global};
use tables::{Input, Origin, Plan, Sequence, Table};

/// The regions of a column or of a name, the kind of their values, and the keys for the search of a
/// region.
pub struct Partition {
    pub kind: Kind,
    pub regions: Vec<Region>,
    pub keys: Sequence<u64>,
}

impl Drop for Partition {
    fn drop(self) {
        let Partition {
            kind: _,
            regions: _,
            keys: _,
        } = self;
    }
}

impl Partition {
    /// Returns the partition of the column at the index `column`, whose input is `input`. It has
    /// the regions that contain an allowed value.
    pub fn of_column(
        alloc: Global,
        plan: &Plan,
        table: &Table,
        column: usize,
        input: &Input,
    ) -> Result<Partition, AllocError>
        ensures { IfOk result (IsColumnPartition plan.now table.now column input.now) }
    {
        let kind = kind_read(plan, input.origin);
        let cuts = cuts_of_column(alloc, kind, table, column, &input.values)?;
        let all = regions_between(alloc, kind, cuts)?;
        Partition::of_regions(alloc, kind, allowed_regions(&input.values, all))
    }

    /// Returns the partition of the name at this index among the plan's names. It has all regions.
    pub fn of_name(alloc: Global, plan: &Plan, name: usize) -> Result<Partition, AllocError>
        ensures { IfOk result (IsNamePartition plan.now name) }
    {
        let kind = kind_read(plan, Origin::Given(name));
        let cuts = cuts_of_name(alloc, kind, plan.tables(), name)?;
        let all = regions_between(alloc, kind, cuts)?;
        Partition::of_regions(alloc, kind, all)
    }

    fn of_regions(alloc: Global, kind: Kind, regions: Vec<Region>) -> Result<Partition, AllocError>
        ensures kind { IfOk result (λ made. made.kind ≡ kind) }
        ensures regions { IfOk result (λ made. made.regions.items ≡ regions.items) }
    {
        let keys = keys_of_regions(alloc, regions.as_slice())?;
        Ok(Partition {
            kind,
            regions,
            keys,
        })
    }

    /// Returns the index of the region that contains the value, if the value is of the kind and
    /// lies in a region.
    #[inline(always)]
    pub fn place_of(&self, value: &Value) -> Option<usize>
        requires { OthersRise self.now.regions.items }
        ensures { IfSome result (IsPlaceOf self.now value.now) }
    {
        if !is_value(self.kind, value) {
            return None;
        }
        place_of(self.regions.as_slice(), self.keys.as_slice(), value)
    }

    /// Copies the regions.
    pub fn duplicate_regions(&self, alloc: Global) -> Result<Sequence<Region>, AllocError>
        ensures { IfOk result (λ copy. copy ≡ self.now.regions.items) }
    {
        let mut copy = Sequence::new(alloc);
        for region in self.regions.as_slice() {
            copy.push(region.duplicate(alloc)?)?;
        }
        Ok(copy)
    }
}

// Returns the kind of the values that an input reads. In a plan, every input reads a name or an
// output that exists; for any other input the kind is `Kind::Number`.
fn kind_read(plan: &Plan, origin: Origin) -> Kind
    ensures { result ≡ kind_read plan.now origin }
{
    match origin {
        Origin::Given(place) => match plan.names().get(place) {
            Some(data) => data.kind,
            None => Kind::Number,
        },
        Origin::Earlier { table, column } => kind_of_output(plan.tables(), table, column),
    }
}

fn kind_of_output(tables: &[Table], table: usize, column: usize) -> Kind
    ensures { result ≡ kind_of_output tables.now table column }
{
    match tables.get(table) {
        Some(table) => kind_in(table, column),
        None => Kind::Number,
    }
}

fn kind_in(table: &Table, column: usize) -> Kind
    ensures { result ≡ option_map_or (λ o. read_kind_of table.now.hit o.kind)
        (slice_get table.now.outputs column) kinds.Number }
{
    match table.outputs.as_slice().get(column) {
        Some(output) => table.hit.read_kind_of(output.kind),
        None => Kind::Number,
    }
}
