//! A compiled plan, which can be checked and which evaluates its tables by rule masks.
ghost use Rattle.std.specs.Prelude.{◌≡◌, ◌≤◌, ◌<◌, ◌-◌, ◌+◌, ◌^◌, ℕ, [], false, Ok, Some, IfOk, IfErr, IfSome, OnOk, OnSome, length, slice_get};
ghost use Rattle.tables.specs.Environment.{answers_of, table_value};
ghost use Rattle.tables.specs.HitPolicy.{Gives, IsFaultOf, by_hit, lists};
ghost use Rattle.tables.specs.Priority.{all_ranked, in_priority_order};
ghost use Rattle.cutplan.specs.Check.{cells, gaps, overlaps};
ghost use Rattle.cutplan.specs.Matching.{IsMatchingMask};
ghost use Rattle.cutplan.specs.CompiledAnswers.{compiled_answers};
ghost use Rattle.cutplan.specs.CompiledColumns.{AreColumnsOf};
ghost use Rattle.cutplan.specs.Masks.{rules_in, AreMasksOf, HasOnlyFirst, IsColumnNumber};
ghost use Rattle.cutplan.specs.declared.mask.TheConstants.{MASK_CAPACITY};
ghost use Rattle.cutplan.specs.Numbered.{cell_limit as CELL_LIMIT, IsTableNumber, cells_of, gaps_of, overlaps_of, IsWide};
ghost use Rattle.cutplan.specs.InputClasses.{IsInputClass};

use crate::compiled_answers::{CompiledAnswers, answers_of_tables, find_answers, ranked_in};
use crate::compiled_column::{CompiledColumn, compiled_tables};
use crate::fault::CheckFault;
use crate::gap::gaps;
use crate::input_class::{CompiledName, class_of, compiled_names};
use crate::law::classes_answer_alike;
use crate::mask::{INLINE_RULES, RuleMask};
use crate::matching::matching_mask;
use crate::table_check::overlaps_of;
use regions::Region;
use smallvec::SmallVec;
use std::alloc::{AllocError, Global};
use std::marker::Model;
use tables::{
    Answer, Answers, AnswersByTable, Env, Fault, Hit, InputClasses, Inputs, Plan, Sequence, Table,
    Valuer, answers_by_hit, lists_of, table_value,
};

/// A plan that is compiled for checks and for evaluation by masks. Contracts see it as the plan. It
/// borrows the plan and owns the regions of its columns with their masks, the precomputed answers
/// of its tables, and the regions of the names that the tables read, which determine input classes.
pub struct CutPlan<'a> {
    plan: &'a Plan,
    columns: Sequence<Sequence<CompiledColumn>>,
    answers: Sequence<CompiledAnswers>,
    names: Sequence<CompiledName>,
}

impl Drop for CutPlan<'_> {
    fn drop(self) {
        let CutPlan {
            plan: _,
            columns: _,
            answers: _,
            names: _,
        } = self;
    }
}

impl<'a> Model for CutPlan<'a> {
    ghost use Rattle.tables.specs.Plan.{PlanParts};
    ghost use Rattle.cutplan.specs.CompiledAnswers.{IsLending};

    ghost Value = { PlanParts };

    ghost view = { λ c. c.plan.now };

    ghost invariant = { λ c. IsLending c.plan.now c.columns c.answers c.names };
}

/// Compiles the plan for its check and for evaluation by masks. The only error is that memory runs
/// out.
#[tactic(auto, using(crate::proofs::Compiling::few_rules))]
pub fn compile(alloc: Global, plan: &Plan) -> Result<CutPlan<'_>, AllocError>
    ensures { IfOk result (λ made. made ≡ plan.now) }
{
    let columns = compiled_tables(alloc, plan, plan.tables())?;
    let answers = answers_of_tables(alloc, plan.tables())?;
    let names = compiled_names(alloc, plan)?;
    Ok(CutPlan {
        plan,
        columns,
        answers,
        names,
    })
}

impl<'a> Valuer for CutPlan<'a> {
    ghost plan_of = { λ plan. plan };

    fn plan(&self) -> &Plan {
        self.plan
    }

    fn value<'b>(&'b self, alloc: Global, inputs: &Inputs) -> Result<Env<'b>, Fault> {
        let mut answers = AnswersByTable::new(alloc);
        self.push_answers(alloc, inputs, self.plan.tables(), &mut answers)?;
        Ok(Env::new(self.plan.tables(), answers))
    }
}

impl<'a> InputClasses for CutPlan<'a> {
    ghost in_class = { λ plan given input_class. IsInputClass plan given input_class };

    fn input_class(&self, inputs: &Inputs) -> Option<u64> {
        // proof: all inputs in one input class have the same value
        classes_answer_alike();
        class_of(self.plan, self.names.as_slice(), inputs)
    }
}

impl<'a> CutPlan<'a> {
    /// Returns the pairs of rules of a table that share an allowed input. Tables and rules are
    /// numbered from 1. The smaller rule comes first, and the pairs are in order, each once.
    pub fn overlaps(&self, alloc: Global, table: usize) -> Result<Vec<(usize, usize)>, AllocError>
        requires { IsTableNumber self.now table }
        ensures { IfOk result (λ found. found.items ≡ overlaps_of self.now table) }
    {
        overlaps_of(alloc, self.table_of(table), self.columns_of(table))
    }

    /// Returns the cells of a table's check that no rule covers. Tables are numbered from 1. The
    /// cells are ordered by their regions column by column from the left, so that the last column
    /// changes fastest. Fails with `TooWide` if the check has more than `CELL_LIMIT` cells.
    pub fn gaps(&self, alloc: Global, table: usize) -> Result<Vec<Sequence<Region>>, CheckFault>
        requires { IsTableNumber self.now table }
        ensures listed { IfOk result (λ found. found.items ≡ gaps_of self.now table) }
        ensures narrow { OnOk result (length (cells_of self.now table) ≤ CELL_LIMIT) }
        ensures wide { IfErr result (IsWide (length (cells_of self.now table))) }
    {
        gaps(alloc, self.table_of(table), self.columns_of(table))
    }

    /// Returns the masks of an input column, one for each of its regions, in the order of the
    /// regions. A mask has the rules whose cell holds for the values of the region. Tables and
    /// columns are numbered from 1.
    pub fn masks(&self, table: usize, column: usize) -> &[RuleMask]
        requires table { IsTableNumber self.now table }
        requires column { IsColumnNumber self.now table column }
        ensures { AreMasksOf self.now table column result.now }
    {
        self.columns_of(table)[column - 1].masks.as_slice()
    }

    // Returns the table with this number.
    fn table_of(&self, table: usize) -> &Table
        requires { IsTableNumber self.now table }
        ensures table { slice_get self.now.tables (table - 1) ≡ Some result.now }
        ensures few { length result.now.rules ≤ MASK_CAPACITY }
    {
        &self.plan.tables()[table - 1]
    }

    // Returns the compiled columns of the table with this number.
    fn columns_of(&self, table: usize) -> &[CompiledColumn]
        requires { IsTableNumber self.now table }
        ensures { AreColumnsOf self.now table result.now }
    {
        self.columns.as_slice()[table - 1].as_slice()
    }

    // Appends the answers of the plan's tables to the empty list `answers`, in order, or returns
    // the first fault.
    fn push_answers<'b>(
        &'b self,
        alloc: Global,
        given: &Inputs,
        tables: &[Table],
        answers: &mut AnswersByTable<'b>,
    ) -> Result<(), Fault>
        requires tables { tables.now ≡ self.now.tables }
        requires none { answers.old ≡ [] }
        ensures answers { OnOk result (answers_of given.now [] tables.now ≡ Ok answers.new) }
        ensures fault { IfErr result (IsFaultOf (answers_of given.now [] tables.now)) }
    {
        for (place, table) in tables.iter().enumerate() {
            let next = self.table_value(alloc, given, answers.as_slice(), place, table)?;
            answers.push(next)?;
        }
        Ok(())
    }

    // Returns the answers of the table at the index `place`, which follows the tables with the
    // `earlier` answers. Masks decide nothing if a value is missing, of another kind, or not
    // allowed; `tables` then evaluates the table.
    fn table_value<'b>(
        &'b self,
        alloc: Global,
        given: &Inputs,
        earlier: &[Answers<'_>],
        place: usize,
        table: &Table,
    ) -> Result<Answers<'b>, Fault>
        requires { slice_get self.now.tables place ≡ Some table.now }
        ensures { Gives (table_value given.now earlier.now table.now) result }
    {
        match self.matching_mask(given, earlier, place, table) {
            Some(mask) => {
                let kept = self.compiled_answers(place, table);
                value_of_mask(alloc, earlier.len() + 1, table, kept, &mask)
            }
            None => Ok(Answers::from_sequence(table_value(alloc, given, earlier, table)?)),
        }
    }

    fn compiled_answers(&self, place: usize, table: &Table) -> &CompiledAnswers
        requires { slice_get self.now.tables place ≡ Some table.now }
        ensures { result.now ≡ compiled_answers table.now }
    {
        &self.answers.as_slice()[place]
    }

    /// Returns the matching rules of the table at the index `place`, or `None` if its masks do not
    /// decide them.
    pub fn matching_mask(
        &self,
        given: &Inputs,
        earlier: &[Answers<'_>],
        place: usize,
        table: &Table,
    ) -> Option<RuleMask>
        requires { slice_get self.now.tables place ≡ Some table.now }
        ensures few { OnSome result (length table.now.rules ≤ MASK_CAPACITY) }
        ensures mask { IfSome result (λ mask. IsMatchingMask given.now earlier.now table.now mask) }
    {
        let columns = self.columns.as_slice().get(place)?;
        matching_mask(given, earlier, table, columns.as_slice())
    }
}

// Returns the answers of the table with this number if the rules of the mask match.
fn value_of_mask<'k>(
    alloc: Global,
    number: usize,
    table: &Table,
    kept: &'k CompiledAnswers,
    mask: &RuleMask,
) -> Result<Answers<'k>, Fault>
    requires kept { kept.now ≡ compiled_answers table.now }
    requires few { length table.now.rules ≤ MASK_CAPACITY }
    requires within { HasOnlyFirst (length table.now.rules) mask.now }
    ensures { Gives (by_hit table.now.hit number table.now
        (rules_in (length table.now.rules) mask.now)) result }
{
    let mut rules = SmallVec::<usize, INLINE_RULES>::new(alloc);
    mask.list_rules(table.rules.len(), &mut rules)?;
    value_of_rules(alloc, number, table, kept, mask, rules.as_slice())
}

// Returns the answers of the table for these matching rules, which are those of the mask.
// Precomputed answers are borrowed.
fn value_of_rules<'k>(
    alloc: Global,
    number: usize,
    table: &Table,
    kept: &'k CompiledAnswers,
    mask: &RuleMask,
    rules: &[usize],
) -> Result<Answers<'k>, Fault>
    requires kept { kept.now ≡ compiled_answers table.now }
    requires few { length table.now.rules ≤ MASK_CAPACITY }
    requires rules { rules.now ≡ rules_in (length table.now.rules) mask.now }
    ensures { Gives (by_hit table.now.hit number table.now
        (rules_in (length table.now.rules) mask.now)) result }
{
    if let Some(answers) = find_answers(table, kept, mask, rules) {
        return Ok(Answers::from_slice(answers));
    }
    let answers = match table.hit {
        Hit::O => in_output_order(alloc, table, kept.order.as_slice(), mask)?,
        _ => answers_by_hit(alloc, number, table, rules)?,
    };
    Ok(Answers::from_sequence(answers))
}

// Returns the answers of the table under Output order, if the rules of the mask match. `order` is
// the ranking of all rules of the table.
fn in_output_order(
    alloc: Global,
    table: &Table,
    order: &[usize],
    mask: &RuleMask,
) -> Result<Sequence<Answer>, AllocError>
    requires ranked { order.now ≡ all_ranked table.now }
    requires few { length table.now.rules ≤ MASK_CAPACITY }
    ensures { IfOk result (λ answers. answers ≡ lists table.now
        (in_priority_order table.now (rules_in (length table.now.rules) mask.now))) }
{
    let ranked = ranked_in(alloc, table, order, mask)?;
    lists_of(alloc, table, ranked.as_slice())
}
