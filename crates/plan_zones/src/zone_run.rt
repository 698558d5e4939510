//! What tables do in a zone up to their first fault: their answers, and the rules that give them.
ghost use Rattle.std.specs.Prelude.{◌≡◌, [], IfOk};
ghost use Rattle.plan_zones.specs.Running.{IsRunOf};
ghost use Rattle.plan_zones.specs.Runs.{answered_in, giving_in};
ghost use Rattle.plan_zones.specs.Zones.{class_of};

use crate::giving::giving_rules;
use crate::zone_value::Zone;
use faults::Fault;
use feel_tests::Sequence;
use std::alloc::{AllocError, Global};
use tables::{Answer, Answers, AnswersByTable, Table, answers_by_hit};

/// The answers of a table, and the rules that give them.
#[derive(Drop)]
pub struct TableRun {
    pub answers: Sequence<Answer>,
    pub giving: Sequence<usize>,
}

/// The answers of the tables before the first fault, and for each of them the rules that give its
/// answers.
pub struct Run<'a> {
    pub answers: AnswersByTable<'a>,
    pub giving: Sequence<Sequence<usize>>,
}

impl Drop for Run<'_> {
    fn drop(self) {
        let Run {
            answers: _,
            giving: _,
        } = self;
    }
}

impl<'z> Zone<'z> {
    /// Evaluates the tables up to the first fault.
    pub fn run<'a>(&self, alloc: Global, tables: &[Table]) -> Result<Run<'a>, AllocError>
        ensures answers { IfOk result (λ run. run.answers
            ≡ answered_in (class_of self.now.regions.now self.now.places.now) [] tables.now) }
        ensures giving { IfOk result (λ run. run.giving
            ≡ giving_in (class_of self.now.regions.now self.now.places.now) [] tables.now) }
    {
        let mut answers = AnswersByTable::new(alloc);
        let mut giving = Sequence::new(alloc);
        for table in tables {
            let found = self.table_run(alloc, answers.as_slice(), table)?;
            match found {
                Some(run) => {
                    let TableRun {
                        answers: next,
                        giving: rules,
                    } = run;
                    giving.push(rules)?;
                    answers.push(Answers::from_sequence(next))?;
                }
                None => return Ok(Run { answers, giving }),
            }
        }
        Ok(Run { answers, giving })
    }

    // Evaluates the table that follows the tables with the `earlier` answers.
    #[tactic(auto, using(crate::proofs::PlaceLists::outside_ends))]
    fn table_run(
        &self,
        alloc: Global,
        earlier: &[Answers<'_>],
        table: &Table,
    ) -> Result<Option<TableRun>, AllocError>
        ensures { IfOk result (IsRunOf (class_of self.now.regions.now self.now.places.now)
            earlier.now table.now) }
    {
        if let Some(_) = self.first_outside(earlier, table) {
            return Ok(None);
        }
        let rules = self.matching(alloc, earlier, table)?;
        match answers_by_hit(alloc, earlier.len() + 1, table, rules.as_slice()) {
            Ok(answers) => {
                let giving = giving_rules(alloc, table, rules.as_slice(), answers.as_slice())?;
                Ok(Some(TableRun { answers, giving }))
            }
            Err(Fault::OutOfMemory) => Err(AllocError),
            Err(_) => Ok(None),
        }
    }
}
