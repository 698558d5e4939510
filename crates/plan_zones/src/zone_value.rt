//! The value of a plan's tables in a zone: cells are tested with the regions of the zone, so that no
//! value in the zone is needed.
ghost use Rattle.std.specs.Prelude.{◌≡◌, ◌+◌, ◌<◌, ◌^◌, [], IfOk, IfSome};
ghost use Rattle.std.specs.Option.{option_copied};
ghost use Rattle.tables.specs.HitPolicy.{Gives};
ghost use Rattle.cutplan.specs.ClassWise.{answers_in, cell_holds_in, cells_hold_in, first_outside_in, is_outside_in, matching_in, rule_matches_in, table_value_in};
ghost use Rattle.plan_zones.specs.Zones.{class_of, region_at};

use cutplan::{Region, holds_in};
use faults::Fault;
use feel_tests::{Cell, Sequence};
use std::alloc::{AllocError, Global};
use tables::{
    Answer, Answers, AnswersByTable, Input, Inputs, Origin, Table, answers_by_hit, value_read,
};

/// A zone: the regions of all names, and the index of the region of each name. `blank` has no value
/// for any name; only answers of tables are read with it.
#[derive(Clone, Copy)]
pub struct Zone<'z> {
    pub regions: &'z [Sequence<Region>],
    pub places: &'z [usize],
    pub blank: &'z Inputs,
}

impl<'z> Zone<'z> {
    // Returns the region of a name.
    pub fn region_at(&self, name: usize) -> Option<&Region>
        ensures { option_copied result ≡ region_at self.now.regions.now self.now.places.now name }
    {
        let regions = self.regions.get(name)?;
        regions.as_slice().get(*self.places.get(name)?)
    }

    // Returns whether the cell holds for what an input reads.
    fn holds(&self, earlier: &[Answers<'_>], origin: Origin, cell: &Cell) -> bool
        ensures { result ≡ cell_holds_in (class_of self.now.regions.now self.now.places.now)
            earlier.now origin cell.now }
    {
        match origin {
            Origin::Given(name) => match self.region_at(name) {
                Some(region) => holds_in(cell, region),
                None => holds_in(cell, &Region::Every),
            },
            Origin::Earlier { .. } => match value_read(self.blank, earlier, origin) {
                Some(value) => cell.holds(value),
                None => false,
            },
        }
    }

    fn cells_hold(&self, earlier: &[Answers<'_>], inputs: &[Input], cells: &[Cell]) -> bool
        ensures { result ≡ cells_hold_in (class_of self.now.regions.now self.now.places.now)
            earlier.now inputs.now cells.now }
    {
        inputs
            .iter()
            .zip(cells)
            .all(|(input, cell)| self.holds(earlier, input.origin, cell))
    }

    fn rule_matches(&self, earlier: &[Answers<'_>], table: &Table, rule: usize) -> bool
        ensures { result ≡ rule_matches_in (class_of self.now.regions.now self.now.places.now)
            earlier.now table.now rule }
    {
        match table.rules.as_slice().get(rule) {
            Some(rule) => {
                self.cells_hold(earlier, table.inputs.as_slice(), rule.cells.as_slice())
            }
            None => false,
        }
    }

    // Returns the indices of the matching rules, in rule order.
    pub fn matching(
        &self,
        alloc: Global,
        earlier: &[Answers<'_>],
        table: &Table,
    ) -> Result<Sequence<usize>, AllocError>
        ensures { IfOk result (λ rules. rules
            ≡ matching_in (class_of self.now.regions.now self.now.places.now)
            earlier.now table.now) }
    {
        let mut found = Sequence::new(alloc);
        for rule in 0..table.rules.len() {
            if self.rule_matches(earlier, table, rule) {
                found.push(rule)?;
            }
        }
        Ok(found)
    }

    fn is_outside(&self, earlier: &[Answers<'_>], input: &Input) -> bool
        ensures { result ≡ is_outside_in (class_of self.now.regions.now self.now.places.now)
            earlier.now input.now }
    {
        match &input.values {
            Some(allowed) => !self.holds(earlier, input.origin, allowed),
            None => false,
        }
    }

    // Returns the first column in which no allowed value is read.
    pub fn first_outside(&self, earlier: &[Answers<'_>], table: &Table) -> Option<usize>
        ensures value { result
            ≡ first_outside_in (class_of self.now.regions.now self.now.places.now)
            earlier.now table.now }
        ensures countable { IfSome result (λ column. column + 1 < 2 ^ 64) }
    {
        table
            .inputs
            .iter()
            .position(|input| self.is_outside(earlier, input))
    }

    // Returns the answers of the table that follows the tables with the `earlier` answers.
    fn table_value(
        &self,
        alloc: Global,
        earlier: &[Answers<'_>],
        table: &Table,
    ) -> Result<Sequence<Answer>, Fault>
        ensures { Gives (table_value_in (class_of self.now.regions.now self.now.places.now)
            earlier.now table.now) result }
    {
        let number = earlier.len() + 1;
        if let Some(column) = self.first_outside(earlier, table) {
            return Err(Fault::Outside {
                table: number,
                column: column + 1,
            });
        }
        let rules = self.matching(alloc, earlier, table)?;
        answers_by_hit(alloc, number, table, rules.as_slice())
    }

    /// Returns the answers of the tables in the zone, in order, or the first fault.
    pub fn value<'a>(&self, alloc: Global, tables: &[Table]) -> Result<AnswersByTable<'a>, Fault>
        ensures { Gives (answers_in (class_of self.now.regions.now self.now.places.now)
            [] tables.now) result }
    {
        let mut answers = AnswersByTable::new(alloc);
        for table in tables {
            let next = self.table_value(alloc, answers.as_slice(), table)?;
            answers.push(Answers::from_sequence(next))?;
        }
        Ok(answers)
    }
}
