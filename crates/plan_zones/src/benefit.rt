//! What a plan says of the claims in a zone before their amounts: that they pend, are denied or are
//! covered.
ghost use Rattle.std.specs.Prelude.{◌≡◌, ◌↔◌, [], IfOk, IsTrue, filter_map};
ghost use Rattle.std.specs.Option.{option_copied};
ghost use Rattle.settlement.specs.Roles.{remarks_of, text_of, texts_of};
ghost use Rattle.settlement.specs.Settlement.{by_roles};
ghost use Rattle.plan_zones.specs.Changes.{IsPart, determination_by, looked_at, remarks_looked_at};
ghost use Rattle.plan_zones.specs.Determined.{determination_in};
ghost use Rattle.plan_zones.specs.declared.benefit.Benefit.TheVariants.{Covered, Denied, Pends};

use crate::change::{Change, covered_change};
use crate::terms::{Terms, are_same_terms, is_covered, terms_of};
use crate::zone_value::Zone;
use faults::Reason;
use feel_tests::{Sequence, Text, Value};
use std::alloc::{AllocError, Global};
use tables::{Answer, Env, Inputs, Name, Plan, Roles};

/// What a plan says of a claim before its amounts.
pub enum Benefit {
    /// The claim is pended for review by a person.
    Pends(Reason),
    /// The claim is not covered, and has these remarks.
    Denied {
        remarks: Sequence<Text>,
    },
    /// The claim is covered on these terms, and has these remarks.
    Covered {
        terms: Terms,
        remarks: Sequence<Text>,
    },
}

impl Drop for Benefit {
    fn drop(self) {
        match self {
            Benefit::Pends(_) => {}
            Benefit::Denied { remarks: _ } => {}
            Benefit::Covered {
                terms: _,
                remarks: _,
            } => {}
        }
    }
}

impl Benefit {
    /// Returns whether the benefits are equal.
    #[tactic(auto, using(crate::proofs::Benefits::same_turned))]
    pub fn is_same(&self, other: &Benefit) -> bool
        ensures { IsTrue result ↔ (self.now ≡ other.now) }
    {
        match self {
            Benefit::Pends(reason) => other.pends_for(*reason),
            Benefit::Denied { remarks } => other.is_denied_with(remarks.as_slice()),
            Benefit::Covered { terms, remarks } => {
                other.is_covered_with(*terms, remarks.as_slice())
            }
        }
    }

    /// Returns the change from this benefit to another one.
    pub fn change_to(self, alloc: Global, new: Benefit) -> Change
        ensures old { IsPart (determination_by self) (determination_by new) result.old }
        ensures new { IsPart (determination_by new) (determination_by self) result.new }
    {
        match self {
            Benefit::Covered { terms, remarks } => {
                new.change_from_covered(alloc, terms, remarks)
            }
            Benefit::Denied { remarks } => Change {
                old: Benefit::Denied { remarks },
                new,
            },
            Benefit::Pends(reason) => Change {
                old: Benefit::Pends(reason),
                new,
            },
        }
    }

    // Returns the change to this benefit from that of a covered claim.
    fn change_from_covered(self, alloc: Global, terms: Terms, remarks: Sequence<Text>) -> Change
        ensures old { IsPart (determination_by (Covered terms remarks)) (determination_by self)
            result.old }
        ensures new { IsPart (determination_by self) (determination_by (Covered terms remarks))
            result.new }
    {
        match self {
            Benefit::Covered {
                terms: others,
                remarks: theirs,
            } => covered_change(alloc, terms, remarks, others, theirs),
            Benefit::Denied { remarks: theirs } => Change {
                old: Benefit::Covered { terms, remarks },
                new: Benefit::Denied { remarks: theirs },
            },
            Benefit::Pends(reason) => Change {
                old: Benefit::Covered { terms, remarks },
                new: Benefit::Pends(reason),
            },
        }
    }

    fn pends_for(&self, reason: Reason) -> bool
        ensures { IsTrue result ↔ (self.now ≡ Pends reason) }
    {
        match self {
            Benefit::Pends(own) => *own == reason,
            Benefit::Denied { .. } => false,
            Benefit::Covered { .. } => false,
        }
    }

    fn is_denied_with(&self, remarks: &[Text]) -> bool
        ensures { IsTrue result ↔ (self.now ≡ Denied remarks.now) }
    {
        match self {
            Benefit::Denied { remarks: own } => are_same_texts(own.as_slice(), remarks),
            Benefit::Pends(_) => false,
            Benefit::Covered { .. } => false,
        }
    }

    fn is_covered_with(&self, terms: Terms, remarks: &[Text]) -> bool
        ensures { IsTrue result ↔ (self.now ≡ Covered terms remarks.now) }
    {
        match self {
            Benefit::Covered {
                terms: own,
                remarks: texts,
            } => are_same_terms(own, &terms) && are_same_texts(texts.as_slice(), remarks),
            Benefit::Pends(_) => false,
            Benefit::Denied { .. } => false,
        }
    }
}

/// Returns whether the texts are the same.
#[tactic(auto, using(crate::proofs::Benefits::same_texts))]
pub fn are_same_texts(one: &[Text], other: &[Text]) -> bool
    ensures { IsTrue result ↔ (one.now ≡ other.now) }
{
    match (one.split_first(), other.split_first()) {
        (Some((first, more)), Some((second, others))) => {
            first.as_str() == second.as_str() && are_same_texts(more, others)
        }
        (None, None) => true,
        _ => false,
    }
}

/// Returns what the plan says of the claims in a zone. With `terms_only` the benefit has no remarks.
#[tactic(auto, using(crate::proofs::Benefits::without_roles, crate::proofs::Benefits::pended_by, crate::proofs::Benefits::answered_by))]
pub fn benefit_in(
    alloc: Global,
    plan: &Plan,
    zone: &Zone<'_>,
    terms_only: bool,
) -> Result<Benefit, AllocError>
    ensures { IfOk result (λ found. determination_by found ≡ looked_at terms_only
        (determination_in plan.now zone.now.regions.now zone.now.places.now)) }
{
    let Some(roles) = plan.roles() else {
        return Ok(Benefit::Denied {
            remarks: Sequence::new(alloc),
        });
    };
    match zone.value(alloc, plan.tables()) {
        Ok(answers) => by_roles(alloc, &Env::new(plan.tables(), answers), roles, terms_only),
        Err(fault) => match Reason::of(fault) {
            Some(reason) => Ok(Benefit::Pends(reason)),
            None => Err(AllocError),
        },
    }
}

#[tactic(auto, using(crate::proofs::Benefits::denied_by, crate::proofs::Benefits::covered_by, crate::proofs::Benefits::invalid_by))]
fn by_roles(
    alloc: Global,
    env: &Env,
    roles: &Roles,
    terms_only: bool,
) -> Result<Benefit, AllocError>
    ensures { IfOk result (λ found. determination_by found
        ≡ looked_at terms_only (by_roles roles.now [] env.now)) }
{
    if !is_covered(env, roles) {
        let remarks = remarks_of(alloc, env, &roles.remarks, terms_only)?;
        return Ok(Benefit::Denied { remarks });
    }
    match terms_of(env, roles) {
        Ok(terms) => {
            let remarks = remarks_of(alloc, env, &roles.remarks, terms_only)?;
            Ok(Benefit::Covered { terms, remarks })
        }
        Err(role) => Ok(Benefit::Pends(Reason::Term(role))),
    }
}

fn remarks_of(
    alloc: Global,
    env: &Env,
    name: &Option<Name>,
    terms_only: bool,
) -> Result<Sequence<Text>, AllocError>
    ensures { IfOk result (λ texts. texts
        ≡ remarks_looked_at terms_only (remarks_of env.now name.now)) }
{
    if terms_only {
        return Ok(Sequence::new(alloc));
    }
    match name {
        Some(name) => texts_of(alloc, env.get(name.as_str())),
        None => Ok(Sequence::new(alloc)),
    }
}

fn texts_of(alloc: Global, answer: Option<&Answer>) -> Result<Sequence<Text>, AllocError>
    ensures { IfOk result (λ texts. texts ≡ texts_of (option_copied answer.entry)) }
{
    match answer {
        Some(Answer::Many(values)) => texts_in(alloc, values.as_slice()),
        _ => Ok(Sequence::new(alloc)),
    }
}

fn texts_in(alloc: Global, values: &[Value]) -> Result<Sequence<Text>, AllocError>
    ensures { IfOk result (λ texts. texts ≡ filter_map text_of values.now) }
{
    let mut texts = Sequence::new(alloc);
    for value in values {
        if let Some(text) = text_of(value) {
            texts.push(Text::new(alloc, text.as_str())?)?;
        }
    }
    Ok(texts)
}

fn text_of(value: &Value) -> Option<&Text>
    ensures { option_copied result ≡ text_of value.now }
{
    match value {
        Value::Text(text) => Some(text),
        Value::Number(_) => None,
        Value::Flag(_) => None,
        Value::Day(_) => None,
    }
}
