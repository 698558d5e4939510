//! The facts of a record: of a claim that is settled or late, or of a refused record.
ghost use Rattle.std.specs.Prelude.{◌≡◌, ◌≢◌, ◌≤◌, ◌++◌, Some, length, IfOk, OnOk};
ghost use Rattle.settlement.specs.Claim.{IsClaimOf};
ghost use Rattle.settlement.specs.Settlement.{outcome};
ghost use Rattle.journal.specs.Events.{claim_filed};
ghost use Rattle.journal.specs.declared.order.Order.TheVariants.{Any};
ghost use Rattle.claim_gate.specs.Terms.{ForTerms};
ghost use Rattle.explanation.specs.Cases.{filed_of};
ghost use Rattle.explanation.specs.Explanation.{IsFactsOf, IsFactsOfClaim, IsPlace, IsRowOf, facts_of_case};
ghost use Rattle.explanation.specs.Walking.{ClaimsFit};
ghost use Rattle.explanation.specs.Steps.{computation_facts, decided_facts, late_facts, outcome_facts, line_facts, settled_facts};

use crate::fact::Facts;
use crate::family::{Standing, outcome_of};
use crate::given::inputs_of;
use crate::record::claim_record;
use crate::refusal::facts_of_refused;
use crate::row::Place;
use crate::search::{Case, Wanted, find_case};
use crate::settlement_steps::{
    add_accumulators, add_amounts, add_before, add_claim, add_place, add_roles, verdict_text,
};
use crate::table::add_tables;
use claim_gate::{Terms, claim_lists_exist};
use cutplan::{CutPlan, compile};
use intake_csv::{Row, claims_have_the_plan_s_fields};
use settlement::{Acc, Adjudicator, Claim, Outcome, after};
use std::alloc::{AllocError, Global};
use tables::{Env, Inputs, Plan};

/// Returns the facts of the row of a provider's file.
pub(crate) fn facts_of_row(
    alloc: Global,
    terms: &Terms,
    place: Place,
    row: &Row,
) -> Result<Facts, AllocError>
    requires ordered { terms.now.order ≢ Any }
    requires there { IsPlace terms.now place }
    requires row { IsRowOf terms.now place (Some row.now) }
    ensures { IfOk result (λ facts. ForTerms terms.now
        (λ T. IsFactsOf terms.now T place.provider facts row.now)) }
{
    match row {
        Row::Good {
            number,
            place: index,
            claim,
        } => {
            let wanted = Wanted {
                provider: place.provider,
                place: *index,
                claim,
            };
            facts_of_claim(alloc, terms, *number, &wanted)
        }
        Row::Bad { number, fault } => {
            facts_of_refused(alloc, terms, place.provider, *number, *fault)
        }
    }
}

/// Adds the record of the remittance, without its line end.
pub(crate) fn add_record(facts: &mut Facts, line: &[u8]) -> Result<(), AllocError>
    ensures { OnOk result (facts.new ≡ facts.old ++ line_facts line.now) }
{
    let end = line.len().saturating_sub(2);
    facts.add(b"remittance", b"record", &line[..end])
}

fn facts_of_claim(
    alloc: Global,
    terms: &Terms,
    number: usize,
    wanted: &Wanted<'_>,
) -> Result<Facts, AllocError>
    requires ordered { terms.now.order ≢ Any }
    requires least { 1 ≤ wanted.now.provider }
    requires most { wanted.now.provider ≤ length terms.now.files }
    requires there { ForTerms terms.now
        (λ T. claim_filed T (filed_of wanted.now) ≡ Some wanted.now.claim.now) }
    ensures { IfOk result (λ facts. ForTerms terms.now (λ T. IsFactsOfClaim terms.now T
        wanted.now.provider number wanted.now.place wanted.now.claim.now facts)) }
{
    claims_fit(terms);
    let plan = compile(alloc, terms.plan())?;
    let mut adjudicator = Adjudicator::new(alloc, &plan)?;
    let case = find_case(alloc, terms, &mut adjudicator, wanted)?;
    let provider = wanted.provider;
    facts_of_case(
        alloc,
        terms,
        &mut adjudicator,
        provider,
        number,
        wanted.claim,
        case,
    )
}

/// No claim of the terms lacks the fields of the plan.
pub(crate) fn claims_fit(terms: &Terms)
    ensures { ClaimsFit terms.now }
{
    // proof: the claim files have lists of claims, and these claims have the fields of the plan
    claim_lists_exist(terms);
    claims_have_the_plan_s_fields();
    let _names = terms.plan().names();
}

/// Returns the facts of a claim in a case.
pub(crate) fn facts_of_case<'v, 'p>(
    alloc: Global,
    terms: &Terms,
    adjudicator: &mut Adjudicator<'v, CutPlan<'p>>,
    provider: usize,
    number: usize,
    claim: &Claim,
    case: Case,
) -> Result<Facts, AllocError>
    requires plan { adjudicator.old ≡ terms.now.plan }
    requires likely { ¬ ¬ IsClaimOf terms.now.plan claim.now }
    ensures facts { IfOk result (λ facts. facts
        ≡ facts_of_case terms.now provider number claim.now case) }
    ensures plan { OnOk result (adjudicator.new ≡ adjudicator.old) }
{
    match case {
        Case::Accepted { position, before } => {
            facts_of_accepted(
                alloc,
                terms,
                adjudicator,
                provider,
                number,
                claim,
                position,
                before,
            )
        }
        Case::Late { cutoff } => facts_of_late(alloc, terms, provider, number, claim, cutoff),
    }
}

fn facts_of_late(
    alloc: Global,
    terms: &Terms,
    provider: usize,
    number: usize,
    claim: &Claim,
    cutoff: u64,
) -> Result<Facts, AllocError>
    ensures { IfOk result (λ facts.
        facts ≡ late_facts terms.now.plan.version provider number claim.now cutoff) }
{
    let version = terms.plan().version();
    let mut facts = Facts::new(alloc);
    add_place(&mut facts, provider, number)?;
    add_claim(alloc, &mut facts, claim)?;
    facts.add_number(b"this claim", b"late after the cutoff", cutoff as u128)?;
    let line = claim_record(alloc, version, provider, number, claim, None)?;
    add_record(&mut facts, line.as_slice())?;
    Ok(facts)
}

fn facts_of_accepted<'v, 'p>(
    alloc: Global,
    terms: &Terms,
    adjudicator: &mut Adjudicator<'v, CutPlan<'p>>,
    provider: usize,
    number: usize,
    claim: &Claim,
    position: usize,
    before: Standing,
) -> Result<Facts, AllocError>
    requires plan { adjudicator.old ≡ terms.now.plan }
    requires likely { ¬ ¬ IsClaimOf terms.now.plan claim.now }
    ensures facts { IfOk result (λ facts. facts
        ≡ decided_facts terms.now.plan provider number claim.now position before) }
    ensures plan { OnOk result (adjudicator.new ≡ adjudicator.old) }
{
    let plan = terms.plan();
    let Standing { acc, last } = before;
    let step = b"this claim";
    let position = position as u128 + 1;
    let decided = outcome_of(alloc, terms, adjudicator, claim, acc)?;
    let mut facts = Facts::new(alloc);
    add_place(&mut facts, provider, number)?;
    add_claim(alloc, &mut facts, claim)?;
    facts.add_number(step, b"position in the order of acceptance", position)?;
    add_before(&mut facts, claim, &acc, last)?;
    add_outcome(alloc, &mut facts, plan, claim, acc, &decided)?;
    let version = plan.version();
    let line = claim_record(alloc, version, provider, number, claim, Some(&decided))?;
    add_record(&mut facts, line.as_slice())?;
    Ok(facts)
}

// Adds the computation of an outcome: the tables, the roles, the amounts, the verdict, and the
// accumulators after it.
fn add_outcome(
    alloc: Global,
    facts: &mut Facts,
    plan: &Plan,
    claim: &Claim,
    acc: Acc,
    decided: &Outcome,
) -> Result<(), AllocError>
    requires fits { IsClaimOf plan.now claim.now }
    requires outcome { decided.now ≡ outcome plan.now claim.now acc }
    ensures { OnOk result (facts.new
        ≡ facts.old ++ outcome_facts plan.now claim.now acc decided.now) }
{
    let given = inputs_of(alloc, plan, claim, &acc)?;
    add_computation(alloc, facts, &given, plan, &acc, decided)?;
    let verdict = verdict_text(alloc, decided.verdict)?;
    facts.add(b"settlement", b"verdict", verdict.as_slice())?;
    let Some(left) = after(acc, decided) else {
        unreachable!();
    };
    add_accumulators(facts, b"after this claim", claim, &left)
}

// Adds the tables, and the roles and the amounts if all tables have answers.
fn add_computation(
    alloc: Global,
    facts: &mut Facts,
    given: &Inputs,
    plan: &Plan,
    acc: &Acc,
    decided: &Outcome,
) -> Result<(), AllocError>
    ensures { OnOk result (facts.new ≡ facts.old
        ++ computation_facts plan.now given.now acc.now decided.now) }
{
    match add_tables(alloc, facts, given, plan.tables())? {
        Some(answers) => {
            let env = Env::new(plan.tables(), answers);
            add_settlement(alloc, facts, given, &env, plan, acc, decided)
        }
        None => Ok(()),
    }
}

fn add_settlement(
    alloc: Global,
    facts: &mut Facts,
    given: &Inputs,
    env: &Env,
    plan: &Plan,
    acc: &Acc,
    decided: &Outcome,
) -> Result<(), AllocError>
    requires { env.now.tables ≡ plan.now.tables }
    ensures { OnOk result (facts.new ≡ facts.old ++ settled_facts plan.now.roles given.now
        plan.now (Some env.now.answers) acc.now decided.now) }
{
    let Some(roles) = plan.roles() else {
        return Ok(());
    };
    add_roles(alloc, facts, given, env, roles)?;
    add_amounts(facts, given, env, roles, acc, decided)
}
