//! The values that a claim and its accumulators give the names of a plan.
ghost use Rattle.std.specs.Prelude.{◌≡◌, ◌++◌, ◌∷◌, [], IfOk, OnOk};
ghost use Rattle.feel_tests.specs.declared.value.Value.TheVariants as value_of;
ghost use Rattle.settlement.specs.Bindings.{accumulator_values, given_by, values_given};
ghost use Rattle.settlement.specs.Claim.{IsClaimOf};

use feel_tests::{Sequence, Text, Value};
use settlement::{Acc, Claim, Money};
use std::alloc::{AllocError, Global};
use tables::{Inputs, Plan};

/// Returns inputs with the values of all names of the plan.
pub(crate) fn inputs_of(
    alloc: Global,
    plan: &Plan,
    claim: &Claim,
    acc: &Acc,
) -> Result<Inputs, AllocError>
    requires { IsClaimOf plan.now claim.now }
    ensures { IfOk result (λ inputs. inputs ≡ given_by claim.now acc.now) }
{
    let values = values_of(alloc, claim, acc)?;
    let mut inputs = Inputs::new(alloc, plan)?;
    for (place, value) in values.as_slice().iter().enumerate() {
        inputs.set(place, value.duplicate(alloc)?);
    }
    Ok(inputs)
}

fn values_of(alloc: Global, claim: &Claim, acc: &Acc) -> Result<Sequence<Value>, AllocError>
    ensures { IfOk result (λ values. values ≡ values_given claim.now acc.now) }
{
    let mut values = Sequence::new(alloc);
    push_text(alloc, &mut values, &claim.id)?;
    if let Some(family) = &claim.family {
        push_text(alloc, &mut values, family)?;
    }
    push_text(alloc, &mut values, &claim.member)?;
    values.push(Value::Day(claim.service))?;
    push_money(&mut values, claim.billed)?;
    for value in claim.fields.as_slice() {
        values.push(value.duplicate(alloc)?)?;
    }
    push_accumulators(&mut values, claim, acc)?;
    Ok(values)
}

fn push_text(alloc: Global, list: &mut Sequence<Value>, text: &Text) -> Result<(), AllocError>
    ensures { OnOk result (list.new ≡ list.old ++ value_of.Text text.now ∷ []) }
{
    list.push(Value::Text(Text::new(alloc, text.as_str())?))
}

fn push_money(list: &mut Sequence<Value>, amount: Money) -> Result<(), AllocError>
    ensures { OnOk result (list.new ≡ list.old ++ value_of.Number amount ∷ []) }
{
    list.push(Value::Number(amount.amount()))
}

fn push_accumulators(list: &mut Sequence<Value>, claim: &Claim, acc: &Acc) -> Result<(), AllocError>
    ensures { OnOk result (list.new ≡ list.old ++ accumulator_values claim.now.family acc.now) }
{
    push_money(list, acc.met)?;
    push_money(list, acc.oop)?;
    push_money(list, acc.paid)?;
    if claim.family.is_none() {
        return Ok(());
    }
    push_money(list, acc.fmet)?;
    push_money(list, acc.foop)
}
