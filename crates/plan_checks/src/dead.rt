//! The rules of a plan that never give an answer, and the tests of cells that are met nowhere.
ghost use Rattle.std.specs.Prelude.{◌≡◌, ◌≤◌, [], IfErr, IfOk, OnOk, filter, not};
ghost use Rattle.plan_checks.specs.Dead.{AreDeadRules, AreDeadTests, IsTooWide};
ghost use Rattle.plan_checks.specs.Leaving.{Begins, IsLeft};
ghost use Rattle.plan_checks.specs.Pending.{counted_zones};
ghost use Rattle.plan_zones.specs.RulePlaces.{all_rules, all_tests};
ghost use Rattle.plan_zones.specs.Runs.{gives_in, is_giving, is_met, meets_in};
ghost use Rattle.plan_zones.specs.Zones.{class_of};

use cutplan::Region;
use feel_tests::Sequence;
use plan_zones::{
    RulePlace, TestPlace, WholeFault, Zone, all_rules, append_region, is_giving, plan_regions,
    tests_of_rules, zone_count,
};
use std::alloc::{AllocError, Global};
use tables::{Answers, Inputs, Plan, Table};

/// Rules and tests of a plan.
pub struct DeadParts {
    /// Rules that give the answer of their table, or a part of it, at no values that a claim can have.
    pub rules: Sequence<RulePlace>,
    /// Tests of cells that hold at no values that a claim can have.
    pub tests: Sequence<TestPlace>,
}

impl Drop for DeadParts {
    fn drop(self) {
        let DeadParts { rules: _, tests: _ } = self;
    }
}

/// The zones of a plan.
#[derive(Clone, Copy)]
struct Zones<'p> {
    tables: &'p [Table],
    regions: &'p [Sequence<Region>],
    blank: &'p Inputs,
}

/// Finds the rules of the plan that give the answer of their table, or a part of it, at no values that
/// a claim can have, and the tests of cells that hold at none. Fails with `TooWide` if the plan has
/// more than `limit` zones, and otherwise only if memory runs out.
pub fn dead_parts(alloc: Global, plan: &Plan, limit: usize) -> Result<DeadParts, WholeFault>
    ensures rules { IfOk result (λ dead. AreDeadRules plan.now dead.rules) }
    ensures tests { IfOk result (λ dead. AreDeadTests plan.now dead.tests) }
    ensures narrow { OnOk result (counted_zones plan.now ≤ limit) }
    ensures refused { IfErr result (IsTooWide plan.now limit) }
{
    let regions = plan_regions(alloc, plan)?;
    let zones = zone_count(regions.as_slice());
    if zones > limit {
        return Err(WholeFault::TooWide(zones));
    }
    let blank = Inputs::new(alloc, plan)?;
    let zones = Zones {
        tables: plan.tables(),
        regions: regions.as_slice(),
        blank: &blank,
    };
    let dead = zones.list_unused(alloc)?;
    Ok(dead)
}

impl<'p> Zones<'p> {
    // Returns the parts that are not used in any zone.
    fn list_unused(&self, alloc: Global) -> Result<DeadParts, AllocError>
        ensures rules { IfOk result (λ dead. IsLeft
            (λ zone. gives_in (class_of self.now.regions.now zone) self.now.tables.now)
            (Begins [] self.now.regions.now) (all_rules self.now.tables.now) dead.rules) }
        ensures tests { IfOk result (λ dead. IsLeft
            (λ zone. meets_in (class_of self.now.regions.now zone) self.now.tables.now)
            (Begins [] self.now.regions.now) (all_tests self.now.tables.now) dead.tests) }
    {
        let rules = all_rules(alloc, self.tables)?;
        let tests = tests_of_rules(alloc, self.tables, rules.as_slice())?;
        let mut left = DeadParts { rules, tests };
        self.leave(alloc, &mut left, &[], self.regions)?;
        Ok(left)
    }

    // Leaves the parts that are not used in any zone that begins with the regions `first` and has
    // others for the names of `more`.
    fn leave(
        &self,
        alloc: Global,
        left: &mut DeadParts,
        first: &[usize],
        more: &[Sequence<Region>],
    ) -> Result<(), AllocError>
        ensures rules { OnOk result (IsLeft
            (λ zone. gives_in (class_of self.now.regions.now zone) self.now.tables.now)
            (Begins first.now more.now) left.old.rules left.new.rules) }
        ensures tests { OnOk result (IsLeft
            (λ zone. meets_in (class_of self.now.regions.now zone) self.now.tables.now)
            (Begins first.now more.now) left.old.tests left.new.tests) }
    {
        match more.split_first() {
            Some((choices, more)) => {
                for region in 0..choices.len() {
                    let next = append_region(alloc, first, region)?;
                    self.leave(alloc, left, next.as_slice(), more)?;
                }
                Ok(())
            }
            None => self.leave_zone(alloc, left, first),
        }
    }

    // Leaves the parts that are not used in the zone.
    fn leave_zone(
        &self,
        alloc: Global,
        left: &mut DeadParts,
        places: &[usize],
    ) -> Result<(), AllocError>
        ensures rules { OnOk result (left.new.rules ≡ filter (λ place. not
            (gives_in (class_of self.now.regions.now places.now) self.now.tables.now place))
            left.old.rules) }
        ensures tests { OnOk result (left.new.tests ≡ filter (λ place. not
            (meets_in (class_of self.now.regions.now places.now) self.now.tables.now place))
            left.old.tests) }
    {
        let zone = Zone {
            regions: self.regions,
            places,
            blank: self.blank,
        };
        if left.rules.is_empty() && left.tests.is_empty() {
            return Ok(());
        }
        let run = zone.run(alloc, self.tables)?;
        leave_rules(alloc, run.giving.as_slice(), &mut left.rules)?;
        leave_tests(
            alloc,
            &zone,
            self.tables,
            run.answers.as_slice(),
            &mut left.tests,
        )
    }
}

// Leaves the rules that give no answers.
fn leave_rules(
    alloc: Global,
    given: &[Sequence<usize>],
    left: &mut Sequence<RulePlace>,
) -> Result<(), AllocError>
    ensures { OnOk result (left.new ≡ filter (λ place. not (is_giving given.now place)) left.old) }
{
    let mut rules = Sequence::new(alloc);
    for place in left.as_slice() {
        if !is_giving(given, place) {
            rules.push(*place)?;
        }
    }
    *left = rules;
    Ok(())
}

// Leaves the tests that are not met in the zone.
fn leave_tests(
    alloc: Global,
    zone: &Zone<'_>,
    tables: &[Table],
    answers: &[Answers<'_>],
    left: &mut Sequence<TestPlace>,
) -> Result<(), AllocError>
    ensures { OnOk result (left.new ≡ filter (λ place. not
        (is_met (class_of zone.now.regions.now zone.now.places.now)
        tables.now answers.now place)) left.old) }
{
    let mut tests = Sequence::new(alloc);
    for place in left.as_slice() {
        if !zone.meets(tables, answers, place) {
            tests.push(*place)?;
        }
    }
    *left = tests;
    Ok(())
}
