//! Whether a zone is of use to a rule or to a test of a cell.
ghost use Rattle.std.specs.Prelude.{◌≡◌, [], ◌∷◌};
ghost use Rattle.feel_tests.specs.declared.cell.Cell.TheVariants.{OneOf};
ghost use Rattle.cutplan.specs.ClassWise.{cell_holds_in};
ghost use Rattle.plan_zones.specs.Runs.{has_rule, is_giving, is_met, meets_after, meets_by};
ghost use Rattle.plan_zones.specs.Zones.{class_of};

use crate::rule_place::{RulePlace, TestPlace, tests_at};
use crate::test_values::{passes_alone, passes_in};
use crate::zone_value::Zone;
use cutplan::Region;
use feel_tests::{Sequence, Test};
use tables::{Answers, Origin, Table, value_read};

/// Returns whether the rule is among those that give the answers of its table.
pub fn is_giving(given: &[Sequence<usize>], place: &RulePlace) -> bool
    ensures { result ≡ is_giving given.now place.now }
{
    match given.get(place.table) {
        Some(rules) => has_rule(rules.as_slice(), place.rule),
        None => false,
    }
}

fn has_rule(rules: &[usize], rule: usize) -> bool
    ensures { result ≡ has_rule rule rules.now }
{
    rules.iter().any(|other| *other == rule)
}

impl<'z> Zone<'z> {
    /// Returns whether the test holds for what its column reads, where the tables before its own have
    /// the first of these answers.
    #[tactic(auto, using(crate::proofs::Asking::beyond, crate::proofs::Asking::within))]
    pub fn meets(&self, tables: &[Table], answers: &[Answers<'_>], place: &TestPlace) -> bool
        ensures { result ≡ is_met (class_of self.now.regions.now self.now.places.now)
            tables.now answers.now place.now }
    {
        let before = place.rule.table;
        if before > answers.len() {
            return false;
        }
        self.meets_by(tables, &answers[..before], place)
    }

    fn meets_by(&self, tables: &[Table], earlier: &[Answers<'_>], place: &TestPlace) -> bool
        ensures { result ≡ meets_by (class_of self.now.regions.now self.now.places.now)
            tables.now earlier.now place.now }
    {
        match tables.get(place.rule.table) {
            Some(table) => self.meets_after(tables, earlier, place, table),
            None => false,
        }
    }

    fn meets_after(
        &self,
        tables: &[Table],
        earlier: &[Answers<'_>],
        place: &TestPlace,
        table: &Table,
    ) -> bool
        ensures { result ≡ meets_after (class_of self.now.regions.now self.now.places.now)
            tables.now earlier.now place.now table.now }
    {
        if self.first_outside(earlier, table).is_some() {
            return false;
        }
        let tests = tests_at(tables, place.rule, place.column);
        match (
            table.inputs.as_slice().get(place.column),
            tests.get(place.test),
        ) {
            (Some(input), Some(test)) => self.passes(earlier, input.origin, test),
            _ => false,
        }
    }

    // Returns whether the test holds for what an input reads.
    fn passes(&self, earlier: &[Answers<'_>], origin: Origin, test: &Test) -> bool
        ensures { result ≡ cell_holds_in (class_of self.now.regions.now self.now.places.now)
            earlier.now origin (OneOf (test.now ∷ [])) }
    {
        match origin {
            Origin::Given(name) => match self.region_at(name) {
                Some(region) => passes_in(test, region),
                None => passes_in(test, &Region::Every),
            },
            Origin::Earlier { .. } => match value_read(self.blank, earlier, origin) {
                Some(value) => passes_alone(test, value),
                None => false,
            },
        }
    }
}
