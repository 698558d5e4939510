//! Evaluation of the rules' cells of a column for one value after another.
//!
//! Between two adjacent literals of its own, a cell holds for all values or for none, so it is
//! evaluated there only once, and its answer is reused for the values that follow. The regions of a
//! column are in increasing order. Each cell is therefore evaluated once for each of its own
//! literals and once between two of them, and not once for each region.
ghost use Rattle.std.specs.Prelude.{◌≡◌, ◌≤◌, IfOk, IfSome, false, length, slice_get, true};
ghost use Rattle.std.specs.Option.{option_map_or};
ghost use Rattle.regions.specs.Regions.{holds_of, is_open};
ghost use Rattle.cutplan.specs.Masks.{Marks};
ghost use Rattle.cutplan.specs.CheckSteps.{cell_holds, cell_holds_in, column_cells, first_value, holds_among};
ghost use Rattle.cutplan.specs.declared.mask.TheConstants.{MASK_CAPACITY};

use crate::cuts::own_cuts;
use crate::mask::RuleMask;
use crate::sorted_cuts::{find_place, is_located_at};
use feel_tests::{Kind, Value};
use regions::{Region, is_open, least_like, next};
use std::alloc::{AllocError, Global};
use std::marker::Model;
use tables::{Rule, Sequence, Table};

/// A rule's cell in a column, with the last answer. Contracts see it as the cell, if the rule has
/// one. `cuts` are the sorted literals of the cell that have the column's kind. `answer` is the
/// answer for the values that lie between the cuts before and at the index `place`.
#[derive(Drop)]
pub struct CellProbe<'a> {
    rule: &'a Rule,
    column: usize,
    kind: Kind,
    cuts: Sequence<Value>,
    place: usize,
    answer: Option<bool>,
}

impl<'a> Model for CellProbe<'a> {
    ghost use Rattle.std.specs.Prelude.{Option, slice_get};
    ghost use Rattle.feel_tests.specs.declared.cell.Cell.{Cell};
    ghost use Rattle.cutplan.specs.CheckSteps.{IsAsked};

    ghost Value = { Option Cell };

    ghost view = { λ a. slice_get a.rule.now.cells a.column };

    ghost invariant = { λ a. IsAsked a.rule.now a.column a.kind a.cuts a.place a.answer };
}

impl<'a> CellProbe<'a> {
    /// Makes a probe of the rule's cell in the column, which has values of this kind. No answer is
    /// known yet.
    #[tactic(auto, using(crate::proofs::Between::none_asked))]
    pub fn new(
        alloc: Global,
        kind: Kind,
        rule: &'a Rule,
        column: usize,
    ) -> Result<CellProbe<'a>, AllocError>
        ensures { IfOk result (λ made. made ≡ slice_get rule.now.cells column) }
    {
        let cuts = own_cuts(alloc, kind, rule, column)?;
        Ok(CellProbe {
            rule,
            column,
            kind,
            cuts,
            place: 0,
            answer: None,
        })
    }

    /// Returns whether the cell holds in the region, of which `first` is the first value. A missing
    /// cell holds everywhere.
    pub fn holds_in(&mut self, region: &Region, first: &Option<Value>) -> bool
        requires { first.now ≡ first_value region.now }
        ensures answer { result ≡ cell_holds_in self.old region.now }
        ensures same { self.new ≡ self.old }
    {
        match region {
            Region::Below(_) => self.holds_of(first),
            Region::At(_) => self.holds_of(first),
            Region::Between(_, _) => self.holds_of(first),
            Region::Above(_) => self.holds_of(first),
            Region::Other(_) => self.is_open(),
            Region::Every => self.is_open(),
        }
    }

    fn is_open(&self) -> bool
        ensures { result ≡ option_map_or is_open self.now true }
    {
        match self.rule.cells.as_slice().get(self.column) {
            Some(cell) => is_open(cell),
            None => true,
        }
    }

    fn holds_of(&mut self, value: &Option<Value>) -> bool
        ensures answer { result ≡ option_map_or (λ cell. holds_of cell value.now) self.old true }
        ensures same { self.new ≡ self.old }
    {
        match value {
            Some(value) => self.holds(value),
            None => self.is_missing(),
        }
    }

    fn is_missing(&self) -> bool
        ensures { result ≡ option_map_or (λ cell. false) self.now true }
    {
        match self.rule.cells.as_slice().get(self.column) {
            Some(_) => false,
            None => true,
        }
    }

    // Returns whether the cell holds for the value. The last answer is reused if no literal of the
    // cell lies between this value and the last one.
    fn holds(&mut self, value: &Value) -> bool
        ensures answer { result ≡ cell_holds self.old value.now }
        ensures same { self.new ≡ self.old }
    {
        match self.cached_answer(value) {
            Some(answer) => answer,
            None => self.ask(value),
        }
    }

    // Returns the last answer if it applies to the value.
    fn cached_answer(&self, value: &Value) -> Option<bool>
        ensures { IfSome result (λ answer. answer ≡ cell_holds self.now value.now) }
    {
        let answer = self.answer?;
        if is_located_at(self.kind, self.cuts.as_slice(), self.place, value) {
            Some(answer)
        } else {
            None
        }
    }

    // Evaluates the cell. The answer is stored unless the value is a literal of the cell, because
    // the answer then applies to that value alone.
    #[tactic(auto, using(crate::proofs::Between::asked_at))]
    fn ask(&mut self, value: &Value) -> bool
        ensures answer { result ≡ cell_holds self.old value.now }
        ensures same { self.new ≡ self.old }
    {
        let answer = holds(self.rule, self.column, value);
        let place = find_place(self.cuts.as_slice(), value);
        if is_located_at(self.kind, self.cuts.as_slice(), place, value) {
            self.place = place;
            self.answer = Some(answer);
        }
        answer
    }
}

// Returns whether the rule's cell in the column holds for the value. A missing cell holds for every
// value.
fn holds(rule: &Rule, column: usize, value: &Value) -> bool
    ensures { result ≡ cell_holds (slice_get rule.now.cells column) value.now }
{
    match rule.cells.as_slice().get(column) {
        Some(cell) => cell.holds(value),
        None => true,
    }
}

/// Returns a probe for the cell of each rule of the table in the column, which has values of this
/// kind.
pub fn probes_of<'a>(
    alloc: Global,
    kind: Kind,
    table: &'a Table,
    column: usize,
) -> Result<Vec<CellProbe<'a>>, AllocError>
    ensures { IfOk result (λ asked. asked.items ≡ column_cells table.now column) }
{
    let mut asked = Vec::new(alloc);
    for rule in table.rules.as_slice() {
        asked.push(CellProbe::new(alloc, kind, rule, column)?)?;
    }
    Ok(asked)
}

/// Returns the rules whose cell holds in the region. There is one `CellProbe` for each rule, and
/// `first` is the first value of the region.
pub fn mask_of(asked: &mut [CellProbe<'_>], region: &Region, first: &Option<Value>) -> RuleMask
    requires few { length asked.old ≤ MASK_CAPACITY }
    requires first { first.now ≡ first_value region.now }
    ensures marks { Marks (holds_among asked.old region.now) result }
    ensures same { asked.new ≡ asked.old }
{
    let mut mask = RuleMask::none();
    'rules: for place in 0..asked.len() {
        let cell = &mut asked[place];
        let holds = cell.holds_in(region, first);
        mask.insert_if(place, holds);
    }
    mask
}

/// Returns the first value of the region. A region of other texts or of all values has none.
pub fn first_value(alloc: Global, region: &Region) -> Result<Option<Value>, AllocError>
    ensures { IfOk result (λ first. first ≡ first_value region.now) }
{
    match region {
        Region::Below(cut) => Ok(least_like(cut)),
        Region::At(value) => Ok(Some(value.duplicate(alloc)?)),
        Region::Between(low, _) => Ok(next(low)),
        Region::Above(cut) => Ok(next(cut)),
        Region::Other(_) => Ok(None),
        Region::Every => Ok(None),
    }
}
