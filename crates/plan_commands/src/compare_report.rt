//! The report on two plans.

ghost use Rattle.std.specs.Prelude.{◌≡◌, IfErr, IfOk, false};
ghost use Rattle.dtable.specs.PlanFile.{IsPlanText};
ghost use Rattle.plan_zones.specs.declared.compare_fault.CompareFault.TheVariants as compare;
ghost use Rattle.plan_commands.specs.WholePlans.{has_no_box};
ghost use Rattle.plan_commands.specs.Comparing.{AreCompared, AreComparedPlans, AreComparedTexts, IsTextStop, StopsComparing, StopsPlans, StopsTexts};
ghost use Rattle.plan_commands.specs.declared.compare_report.CompareStop.TheVariants.{Plans};

use crate::change_text::{change_text, wide_text};
use crate::compare_words::{WordFault, narrowings_of, renames_of, words_of};
use crate::whole_check::has_no_box;
use clap::ArgMatches;
use console::names::{NARROWED, RENAMED, TERMS};
use dtable::read_plan;
use evaluation::ValueStop;
use plan_checks::{
    CompareFault, Comparing, Narrowing, PlanChanges, Side, ZONE_LIMIT, join_plans, plan_changes,
    regions_of_names,
};
use std::alloc::{AllocError, Global};
use tables::Plan;

/// The report on two plans, and whether they settle all claims alike, as far as they are compared.
pub struct CompareReport {
    pub text: Vec<u8>,
    pub is_same: bool,
}

impl Drop for CompareReport {
    fn drop(self) {
        let CompareReport {
            text: _,
            is_same: _,
        } = self;
    }
}

/// The reason why there is no report on two plans.
#[derive(Drop)]
pub enum CompareStop {
    /// An error of the text of a plan, or a lack of memory.
    Text { side: Side, stop: ValueStop },
    /// An error of a word of the command line.
    Word(WordFault),
    /// The plans cannot be compared.
    Plans(CompareFault),
}

impl From<AllocError> for CompareStop {
    ghost use Rattle.std.specs.Prelude.{◌≡◌};
    ghost use Rattle.plan_zones.specs.declared.compare_fault.CompareFault.TheVariants.{OutOfMemory};
    ghost use Rattle.plan_commands.specs.declared.compare_report.CompareStop.TheVariants.{Plans};

    ghost from_gives = { λ _ stop. stop ≡ Plans OutOfMemory };

    fn from(_refusal: AllocError) -> CompareStop {
        CompareStop::Plans(CompareFault::OutOfMemory)
    }
}

impl From<WordFault> for CompareStop {
    ghost use Rattle.std.specs.Prelude.{◌≡◌};
    ghost use Rattle.plan_commands.specs.declared.compare_report.CompareStop.TheVariants.{Word};

    ghost from_gives = { λ fault stop. stop ≡ Word fault };

    fn from(fault: WordFault) -> CompareStop {
        CompareStop::Word(fault)
    }
}

/// Compares the plans of two texts. The report is complete before its first byte is written.
#[tactic(auto, using(crate::proofs::Comparisons::compared_texts, crate::proofs::Comparisons::stopped_texts, crate::proofs::Comparisons::old_text_stops, crate::proofs::Comparisons::new_text_stops))]
pub fn report_of(
    alloc: Global,
    matches: &ArgMatches<'_>,
    old: &[u8],
    new: &[u8],
) -> Result<CompareReport, CompareStop>
    ensures compared { IfOk result (λ report.
        AreComparedTexts matches.now old.now new.now report.is_same) }
    ensures stopped { IfErr result (StopsTexts matches.now old.now new.now) }
{
    let old_plan = plan_on(alloc, Side::Old, old)?;
    match plan_on(alloc, Side::New, new) {
        Ok(new_plan) => {
            let report = report_on(alloc, matches, &old_plan, &new_plan);
            drop(new_plan);
            drop(old_plan);
            report
        }
        Err(stop) => {
            drop(old_plan);
            Err(stop)
        }
    }
}

fn plan_on(alloc: Global, side: Side, text: &[u8]) -> Result<Plan, CompareStop>
    ensures spelled { IfOk result (λ plan. IsPlanText text.now plan) }
    ensures stopped { IfErr result (IsTextStop side text.now) }
{
    match read_plan(alloc, text) {
        Ok(plan) => Ok(plan),
        Err(fault) => Err(CompareStop::Text {
            side,
            stop: ValueStop::from(fault),
        }),
    }
}

#[tactic(auto, using(crate::proofs::Comparisons::asked_stops))]
fn report_on(
    alloc: Global,
    matches: &ArgMatches<'_>,
    old: &Plan,
    new: &Plan,
) -> Result<CompareReport, CompareStop>
    ensures compared { IfOk result (λ report.
        AreComparedPlans matches.now old.now new.now report.is_same) }
    ensures stopped { IfErr result (StopsPlans matches.now old.now new.now) }
{
    let renames = renames_of(alloc, words_of(matches, RENAMED))?;
    let narrowed = narrowings_of(alloc, words_of(matches, NARROWED), old, new)?;
    let comparing = Comparing {
        renames: renames.as_slice(),
        narrowed: narrowed.as_slice(),
        terms_only: matches.get_flag(TERMS),
    };
    report_by(alloc, old, new, &comparing)
}

#[tactic(auto, using(crate::proofs::Comparisons::compared_as, crate::proofs::Comparisons::wide_compared, crate::proofs::Comparisons::plans_stop))]
fn report_by(
    alloc: Global,
    old: &Plan,
    new: &Plan,
    comparing: &Comparing<'_>,
) -> Result<CompareReport, CompareStop>
    ensures compared { IfOk result (λ report.
        AreCompared old.now new.now comparing.now report.is_same) }
    ensures stopped { IfErr result (StopsComparing old.now new.now comparing.now) }
{
    match plan_changes(alloc, old, new, comparing, ZONE_LIMIT) {
        Ok(found) => changes_report(alloc, old, new, &found),
        Err(CompareFault::TooWide(zones)) => wide_report(alloc, old, new, comparing, zones),
        Err(fault) => Err(CompareStop::Plans(fault)),
    }
}

fn changes_report(
    alloc: Global,
    old: &Plan,
    new: &Plan,
    found: &PlanChanges,
) -> Result<CompareReport, CompareStop>
    ensures same { IfOk result (λ report. report.is_same ≡ has_no_box found.now.boxes) }
    ensures stopped { IfErr result (λ stop. stop ≡ Plans compare.OutOfMemory) }
{
    let text = change_text(alloc, old, new, found)?;
    let is_same = has_no_box(found.boxes.as_slice());
    Ok(CompareReport { text, is_same })
}

// The line names what makes the plans wide.
#[tactic(auto, using(crate::proofs::Comparisons::plans_stop, crate::proofs::Comparisons::memory_stops_comparing))]
fn wide_report(
    alloc: Global,
    old: &Plan,
    new: &Plan,
    comparing: &Comparing<'_>,
    zones: usize,
) -> Result<CompareReport, CompareStop>
    ensures same { IfOk result (λ report. report.is_same ≡ false) }
    ensures stopped { IfErr result (StopsComparing old.now new.now comparing.now) }
{
    let joint = match join_plans(alloc, old, new, comparing) {
        Ok(joint) => joint,
        Err(fault) => return Err(CompareStop::Plans(fault)),
    };
    let names = joint.names.as_slice();
    let regions = regions_of_names(alloc, old, new, names, comparing.narrowed)?;
    let text = wide_text(alloc, old, new, names, regions.as_slice(), zones)?;
    let is_same = false;
    Ok(CompareReport { text, is_same })
}
