//! The text of an explanation: of a record, or of all claims of a family.
ghost use Rattle.std.specs.Prelude.{◌≡◌, ◌≢◌, IfErr, IfOk, option_map};
ghost use Rattle.dtable.specs.PlanFile.{IsPlanText};
ghost use Rattle.explanation.specs.Asked.{IsTargetText, IsTargetTextOver, asked_texts};
ghost use Rattle.explanation.specs.Explained.{IsExplainReason};

use crate::family_facts::family_text;
use crate::format::Format;
use crate::record_text::record_text;
use crate::row::Place;
use claim_gate::{Order, Terms};
use dtable::read_plan;
use orders::Stop;
use std::alloc::{AllocError, Global};
use tables::Plan;

/// What is explained.
#[derive(Clone, Copy)]
pub(crate) enum Target<'a> {
    /// The record at a place.
    Record(Place),
    /// All claims of a family. Under a plan without families it is a member.
    Family(&'a str),
}

/// The texts that are given for an explanation, its target and its form.
#[derive(Clone, Copy)]
pub(crate) struct Asked<'a> {
    pub(crate) plan: &'a [u8],
    pub(crate) balances: Option<&'a [u8]>,
    pub(crate) files: &'a [&'a [u8]],
    pub(crate) cutoff: Option<u64>,
    pub(crate) order: Order,
    pub(crate) target: Target<'a>,
    pub(crate) format: Format,
}

/// Returns the text of the explanation, or `None` if the files have no record at the place, or no claim
/// of the family.
pub(crate) fn explanation(alloc: Global, asked: Asked) -> Result<Option<Vec<u8>>, Stop>
    requires ordered { asked.order ≢ Order.Any }
    ensures text { IfOk result (λ text. IsTargetText asked.entry.order (asked_texts asked.entry)
        asked.entry.target asked.entry.format (option_map (λ t. t.items) text)) }
    ensures reason { IfErr result (IsExplainReason (asked_texts asked.entry)) }
{
    let plan = read_plan(alloc, asked.plan)?;
    let text = explanation_under(alloc, &plan, asked);
    drop(plan);
    text
}

// Continues `explanation` after the plan is read.
fn explanation_under(alloc: Global, plan: &Plan, asked: Asked) -> Result<Option<Vec<u8>>, Stop>
    requires ordered { asked.order ≢ Order.Any }
    requires spelled { IsPlanText (asked_texts asked).plan plan.now }
    ensures text { IfOk result (λ text. IsTargetText asked.entry.order (asked_texts asked.entry)
        asked.entry.target asked.entry.format (option_map (λ t. t.items) text)) }
    ensures reason { IfErr result (IsExplainReason (asked_texts asked.entry)) }
{
    let terms = Terms::with_order(
        alloc,
        plan,
        asked.files,
        asked.balances,
        asked.cutoff,
        asked.order,
    )?;
    let text = explanation_over(alloc, &terms, asked.target, asked.format);
    drop(terms);
    Ok(text?)
}

fn explanation_over(
    alloc: Global,
    terms: &Terms,
    target: Target,
    format: Format,
) -> Result<Option<Vec<u8>>, AllocError>
    requires { terms.now.order ≢ Order.Any }
    ensures { IfOk result (λ text. IsTargetTextOver terms.now target.entry format
        (option_map (λ t. t.items) text)) }
{
    match target {
        Target::Record(place) => record_text(alloc, terms, place, format),
        Target::Family(family) => family_text(alloc, terms, family, format),
    }
}
