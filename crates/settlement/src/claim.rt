//! Claims as providers file them.
ghost use Rattle.std.specs.Prelude.{◌≡◌, ◌↔◌, IsTrue, IfOk};
ghost use Rattle.std.specs.List.{list_all, zip};
ghost use Rattle.tables.specs.Names.{names_of};
ghost use Rattle.tables.specs.Plan.{has_kind, keeps_families};
ghost use Rattle.settlement.specs.Fields.{have_kinds};

use crate::money::Money;
use feel_tests::{Day, Sequence, Text, Value, duplicates};
use std::alloc::{AllocError, Global};
use tables::{InputData, Plan, has_kind};

/// The number of a plan's names before its fields.
const NAMES_BEFORE: usize = 4;

/// The number of a plan's names after its fields.
const NAMES_AFTER: usize = 3;

/// A plan that keeps accumulators for families has one more name before its fields: `family`.
const NAMES_BEFORE_WITH_FAMILIES: usize = 5;

/// A plan that keeps accumulators for families has two more names after its fields: `fmet` and
/// `foop`.
const NAMES_AFTER_WITH_FAMILIES: usize = 5;

/// A claim for one service to one member.
pub struct Claim {
    /// The provider's identifier of the claim.
    pub id: Text,
    /// The family of the member, if the plan keeps accumulators for families.
    pub family: Option<Text>,
    /// The member who received the service.
    pub member: Text,
    /// The date of the service.
    pub service: Day,
    /// The amount that the provider bills.
    pub billed: Money,
    /// The values of the plan's fields, in the plan's order.
    pub fields: Sequence<Value>,
}

impl Drop for Claim {
    #[inline]
    fn drop(self) {
        let Claim {
            id: _,
            family: _,
            member: _,
            service: _,
            billed: _,
            fields: _,
        } = self;
    }
}

impl Claim {
    ghost use Rattle.settlement.specs.Accounts.{family_of};
    ghost use Rattle.settlement.specs.Claim.{IsClaimOf};

    /// Returns the family of the member. A claim without a family has the member as its own family.
    pub fn family(&self) -> &Text
        ensures { result.now ≡ family_of self.now }
    {
        match &self.family {
            Some(family) => family,
            None => &self.member,
        }
    }

    /// Returns whether the claim fits the plan: it has a family if and only if the plan keeps
    /// accumulators for families, and it has a value of the right kind for each of the plan's
    /// fields, in order.
    pub fn is_of(&self, plan: &Plan) -> bool
        ensures { IsTrue result ↔ IsClaimOf plan.now self.now }
    {
        self.family.is_some() == plan.keeps_families()
            && have_kinds(self.fields.as_slice(), fields_of(plan))
    }

    /// Copies the claim with all its texts.
    pub fn duplicate(&self, alloc: Global) -> Result<Claim, AllocError>
        ensures { IfOk result (λ copy. copy ≡ self.now) }
    {
        Ok(Claim {
            id: Text::new(alloc, self.id.as_str())?,
            family: copy_of(alloc, &self.family)?,
            member: Text::new(alloc, self.member.as_str())?,
            service: self.service,
            billed: self.billed,
            fields: duplicates(alloc, self.fields.as_slice())?,
        })
    }
}

fn copy_of(alloc: Global, text: &Option<Text>) -> Result<Option<Text>, AllocError>
    ensures { IfOk result (λ copy. copy ≡ text.now) }
{
    match text {
        Some(text) => Ok(Some(Text::new(alloc, text.as_str())?)),
        None => Ok(None),
    }
}

/// Returns the fields of a plan, in order: its names without the built-in names of claims and
/// accumulators.
pub fn fields_of(plan: &Plan) -> &[InputData]
    ensures { plan.now.names ≡ names_of (keeps_families plan.now) result.now }
{
    let names = plan.names();
    if plan.keeps_families() {
        &names[NAMES_BEFORE_WITH_FAMILIES..names.len() - NAMES_AFTER_WITH_FAMILIES]
    } else {
        &names[NAMES_BEFORE..names.len() - NAMES_AFTER]
    }
}

// Returns whether there is one value for each field, of the field's kind.
fn have_kinds(values: &[Value], fields: &[InputData]) -> bool
    ensures { result ≡ have_kinds values.now fields.now }
{
    values.len() == fields.len() && are_of_kinds(values, fields)
}

fn are_of_kinds(values: &[Value], fields: &[InputData]) -> bool
    ensures { result ≡ list_all (λ p. has_kind p.1.kind p.0) (zip values.now fields.now) }
{
    values
        .iter()
        .zip(fields)
        .all(|(value, data)| has_kind(data.kind, value))
}
