//! The claim with the values of a row, and the accumulators before it.

ghost use Rattle.std.specs.Prelude.{◌≡◌, ◌+◌, ◌<◌, ◌^◌, IfOk, IfErr, IfSome, IfNone, Some};
ghost use Rattle.feel_tests.specs.Value.{kind_of};
ghost use Rattle.feel_tests.specs.declared.kind.Kind.TheVariants as kinds;
ghost use Rattle.feel_tests.specs.declared.value.Value.TheVariants as values;
ghost use Rattle.tables.specs.Inputs.{value_at};
ghost use Rattle.tables.specs.Plan.{keeps_families};
ghost use Rattle.plan_rows.specs.Filing.{AreAccumulators, AreFieldsOf, HasNoKind, IsAmountAt, IsClaimBy, IsFamilyAmountAt, IsFamilyAt, IsFiledBy, IsNoAmountAt, IsTextAt, IsUnfit, LacksKind, first_accumulator, member_place};

use feel_tests::{Day, Kind, Sequence, Text, Value};
use settlement::{Acc, Claim, Money, fields_of};
use std::alloc::{AllocError, Global};
use tables::{Inputs, Plan, has_kind};

/// The number of names from the member to the first field.
const NAMES_TO_FIELDS: usize = 3;

/// A claim, and the accumulators before it.
#[derive(Drop)]
pub struct Filed {
    pub claim: Claim,
    pub acc: Acc,
}

/// Returns the index of the name `member`, which follows the names of the claim and the family.
pub fn member_place(plan: &Plan) -> usize
    ensures { result ≡ member_place plan.now }
{
    if plan.keeps_families() { 2 } else { 1 }
}

/// Returns the index of the first accumulator.
pub fn first_accumulator(plan: &Plan) -> usize
    ensures place { result ≡ first_accumulator plan.now }
    ensures small { result + 4 < 2 ^ 64 }
{
    let count = plan.names().len();
    if plan.keeps_families() {
        count.saturating_sub(5)
    } else {
        count.saturating_sub(3)
    }
}

/// Makes the claim with these values, and the accumulators before it. A text that is not given is
/// empty, and an amount that is not given is zero.
///
/// # Errors
///
/// The index of a name without a value that a claim can have: the day of service or a field has
/// none of its kind, or a number is not an amount of money.
pub fn filed_by(
    alloc: Global,
    plan: &Plan,
    given: &Inputs,
) -> Result<Result<Filed, usize>, AllocError>
    ensures filed { IfOk result (λ answer. IfOk answer
        (λ filed. IsFiledBy plan.now given.now filed.claim filed.acc)) }
    ensures unfit { IfOk result (λ answer. IfErr answer (IsUnfit plan.now given.now)) }
{
    let acc = match accumulators_at(given, plan) {
        Ok(acc) => acc,
        Err(place) => return Ok(Err(place)),
    };
    match claim_by(alloc, plan, given)? {
        Ok(claim) => Ok(Ok(Filed { claim, acc })),
        Err(place) => Ok(Err(place)),
    }
}

fn claim_by(alloc: Global, plan: &Plan, given: &Inputs) -> Result<Result<Claim, usize>, AllocError>
    ensures claim { IfOk result (λ answer. IfOk answer (IsClaimBy plan.now given.now)) }
    ensures unfit { IfOk result (λ answer. IfErr answer (IsUnfit plan.now given.now)) }
{
    let member = member_place(plan);
    let service = match service_at(plan, given) {
        Ok(service) => service,
        Err(place) => return Ok(Err(place)),
    };
    let billed = match amount_at(given, member + 2) {
        Ok(billed) => billed,
        Err(place) => return Ok(Err(place)),
    };
    let fields = match fields_at(alloc, plan, given)? {
        Ok(fields) => fields,
        Err(place) => return Ok(Err(place)),
    };
    Ok(Ok(Claim {
        id: text_at(alloc, given, 0)?,
        family: family_at(alloc, plan, given)?,
        member: text_at(alloc, given, member)?,
        service,
        billed,
        fields,
    }))
}

// Returns the values of the plan's fields, or the index of the first name without a value of its
// kind.
fn fields_at(
    alloc: Global,
    plan: &Plan,
    given: &Inputs,
) -> Result<Result<Sequence<Value>, usize>, AllocError>
    ensures fields { IfOk result (λ answer. IfOk answer (AreFieldsOf plan.now given.now)) }
    ensures unfit { IfOk result (λ answer. IfErr answer (HasNoKind plan.now given.now)) }
{
    let first = member_place(plan) + NAMES_TO_FIELDS;
    let mut fields = Sequence::new(alloc);
    let inputs = fields_of(plan);
    for (index, input) in inputs.iter().enumerate() {
        let Some(value) = value_of_kind(given, first + index, input.kind) else {
            return Ok(Err(first + index));
        };
        fields.push(value.duplicate(alloc)?)?;
    }
    Ok(Ok(fields))
}

fn value_of_kind(given: &Inputs, place: usize, kind: Kind) -> Option<&Value>
    ensures value { IfSome result (λ value. value_at given.now place ≡ Some value.now) }
    ensures kind { IfSome result (λ value. kind_of value.now ≡ kind) }
    ensures none { IfNone result (LacksKind given.now place kind) }
{
    let value = given.get(place)?;
    if has_kind(kind, value) {
        Some(value)
    } else {
        None
    }
}

fn service_at(plan: &Plan, given: &Inputs) -> Result<Day, usize>
    ensures day { IfOk result (λ day.
        value_at given.now (member_place plan.now + 1) ≡ Some (values.Day day)) }
    ensures unfit { IfErr result (HasNoKind plan.now given.now) }
{
    // proof: the service follows the member
    let _names = plan.names();
    let place = member_place(plan) + 1;
    match value_of_kind(given, place, Kind::Day) {
        Some(value) => Ok(day_of(value)),
        None => Err(place),
    }
}

fn day_of(value: &Value) -> Day
    requires { kind_of value.now ≡ kinds.Day }
    ensures { value.now ≡ values.Day result }
{
    match value {
        Value::Day(day) => *day,
        _ => unreachable!(),
    }
}

fn family_at(alloc: Global, plan: &Plan, given: &Inputs) -> Result<Option<Text>, AllocError>
    ensures { IfOk result (IsFamilyAt (keeps_families plan.now) given.now) }
{
    if plan.keeps_families() {
        Ok(Some(text_at(alloc, given, 1)?))
    } else {
        Ok(None)
    }
}

// Returns the text of a name, or an empty text if it has none.
fn text_at(alloc: Global, given: &Inputs, place: usize) -> Result<Text, AllocError>
    ensures { IfOk result (IsTextAt given.now place) }
{
    match given.get(place) {
        Some(Value::Text(text)) => Text::new(alloc, text.as_str()),
        _ => Text::new(alloc, ""),
    }
}

fn accumulators_at(given: &Inputs, plan: &Plan) -> Result<Acc, usize>
    ensures acc { IfOk result (AreAccumulators plan.now given.now) }
    ensures unfit { IfErr result (IsNoAmountAt given.now) }
{
    let first = first_accumulator(plan);
    let met = amount_at(given, first)?;
    let oop = amount_at(given, first + 1)?;
    let paid = amount_at(given, first + 2)?;
    let fmet = family_amount_at(given, plan, first + 3)?;
    let foop = family_amount_at(given, plan, first + 4)?;
    Ok(Acc {
        met,
        oop,
        paid,
        fmet,
        foop,
    })
}

// Does the same as `amount_at` in a plan with families; there is no such name in another plan.
fn family_amount_at(given: &Inputs, plan: &Plan, place: usize) -> Result<Money, usize>
    ensures amount { IfOk result (IsFamilyAmountAt (keeps_families plan.now) given.now place) }
    ensures unfit { IfErr result (IsNoAmountAt given.now) }
{
    if plan.keeps_families() {
        amount_at(given, place)
    } else {
        Ok(Money::zero())
    }
}

// Returns the amount of a name, or zero if it has no number. The error is the index itself.
fn amount_at(given: &Inputs, place: usize) -> Result<Money, usize>
    ensures amount { IfOk result (IsAmountAt given.now place) }
    ensures unfit { IfErr result (IsNoAmountAt given.now) }
{
    match given.get(place) {
        Some(Value::Number(number)) => match Money::new(*number) {
            Some(amount) => Ok(amount),
            None => Err(place),
        },
        _ => Ok(Money::zero()),
    }
}
