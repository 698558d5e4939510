//! The facts of a plan's tables.
ghost use Rattle.std.specs.Prelude.{◌≡◌, ◌++◌, [], codes, Some, IfOk, OnOk};
ghost use Rattle.faults.specs.Reason.{reason_of};
ghost use Rattle.tables.specs.Environment.{answers_of, table_value};
ghost use Rattle.evaluation.specs.ValueText.{answer_text};
ghost use Rattle.explanation.specs.Tables.{answer_facts, answering, facts_of_table, fault_facts, first_if, hit_text, is_ranked, ok_part, read_facts, remedy_text, rule_facts, table_facts, table_step, tables_facts, takes_one};

use crate::fact::Facts;
use crate::matching::matching;
use faults::Reason;
use feel_tests::{Literals, Sequence, Value, append_joined};
use itoa::Buffer;
use remit_records::reason_text;
use std::alloc::{AllocError, Global};
use tables::{
    Answer, Answers, AnswersByTable, Fault, Hit, Input, Inputs, Output, Table, in_priority_order,
    table_value, value_read,
};

/// Adds the facts of the tables, up to the first that has a fault. Returns the answers of all
/// tables, or `None` after a fault.
pub(crate) fn add_tables<'a>(
    alloc: Global,
    facts: &mut Facts,
    given: &Inputs,
    tables: &[Table],
) -> Result<Option<AnswersByTable<'a>>, AllocError>
    ensures facts { OnOk result (facts.new ≡ facts.old ++ tables_facts given.now [] tables.now) }
    ensures answers { IfOk result (λ found. found ≡ ok_part (answers_of given.now [] tables.now)) }
{
    let mut answers = AnswersByTable::new(alloc);
    for table in tables {
        match add_table(alloc, facts, given, answers.as_slice(), table)? {
            Some(next) => answers.push(Answers::from_sequence(next))?,
            None => return Ok(None),
        }
    }
    Ok(Some(answers))
}

// Adds the facts of the table that follows those with the `earlier` answers. Returns its answers, or
// `None` if it has a fault.
fn add_table(
    alloc: Global,
    facts: &mut Facts,
    given: &Inputs,
    earlier: &[Answers<'_>],
    table: &Table,
) -> Result<Option<Sequence<Answer>>, AllocError>
    ensures facts { OnOk result
        (facts.new ≡ facts.old ++ table_facts given.now earlier.now table.now) }
    ensures answers { IfOk result
        (λ found. found ≡ ok_part (table_value given.now earlier.now table.now)) }
{
    let step = step_of(alloc, earlier.len() + 1)?;
    let step = step.as_slice();
    add_values_read(alloc, facts, step, given, earlier, table.inputs.as_slice())?;
    let rules = matching(alloc, given, earlier, table)?;
    let rules = rules.as_slice();
    facts.add(step, b"hit policy", hit_text(table.hit))?;
    facts.add_number(step, b"number of rules that match", rules.len() as u128)?;
    add_rules(facts, step, b"rule that matches", rules)?;
    match table_value(alloc, given, earlier, table) {
        Ok(answers) => {
            add_answering(alloc, facts, step, table, rules)?;
            add_answers(
                alloc,
                facts,
                step,
                table.outputs.as_slice(),
                answers.as_slice(),
            )?;
            Ok(Some(answers))
        }
        Err(fault) => {
            let reason = Reason::of(fault).ok_or(AllocError)?;
            add_fault(alloc, facts, step, reason, fault)?;
            Ok(None)
        }
    }
}

fn step_of(alloc: Global, number: usize) -> Result<Vec<u8>, AllocError>
    ensures { IfOk result (λ step. step.items ≡ table_step number) }
{
    let mut step = Vec::from_slice(alloc, b"table ")?;
    step.extend_from_slice(Buffer::new().format(number).as_bytes())?;
    Ok(step)
}

fn hit_text(hit: Hit) -> &'static [u8]
    ensures { result.now ≡ hit_text hit }
{
    match hit {
        Hit::U => b"U (unique)",
        Hit::A => b"A (any)",
        Hit::P => b"P (priority)",
        Hit::F => b"F (first)",
        Hit::O => b"O (output order)",
        Hit::R => b"R (rule order)",
        Hit::C => b"C (collect)",
        Hit::Sum => b"C+ (sum)",
        Hit::Min => b"C< (least)",
        Hit::Max => b"C> (greatest)",
        Hit::Count => b"C# (count)",
    }
}

fn add_values_read<'x>(
    alloc: Global,
    facts: &mut Facts,
    step: &[u8],
    given: &'x Inputs,
    earlier: &'x [Answers<'x>],
    inputs: &[Input],
) -> Result<(), AllocError>
    ensures { OnOk result (facts.new
        ≡ facts.old ++ read_facts step.now given.now earlier.now inputs.now) }
{
    for input in inputs {
        let name = name_after(alloc, b"reads ", input.name.as_str())?;
        facts.add_value(
            step,
            name.as_slice(),
            value_read(given, earlier, input.origin),
        )?;
    }
    Ok(())
}

fn name_after(alloc: Global, front: &[u8], name: &str) -> Result<Vec<u8>, AllocError>
    ensures { IfOk result (λ text. text.items ≡ front.now ++ name.now) }
{
    let mut text = Vec::from_slice(alloc, front)?;
    text.extend_from_slice(name.as_bytes())?;
    Ok(text)
}

fn add_rules(facts: &mut Facts, step: &[u8], name: &[u8], rules: &[usize]) -> Result<(), AllocError>
    ensures { OnOk result (facts.new ≡ facts.old ++ rule_facts step.now name.now rules.now) }
{
    for rule in rules {
        facts.add_number(step, name, *rule as u128 + 1)?;
    }
    Ok(())
}

// Adds the rules that give the answer.
fn add_answering(
    alloc: Global,
    facts: &mut Facts,
    step: &[u8],
    table: &Table,
    rules: &[usize],
) -> Result<(), AllocError>
    ensures { OnOk result (facts.new ≡ facts.old
        ++ rule_facts step.now (codes "rule that gives the answer")
        (answering table.now.hit table.now rules.now)) }
{
    let name = b"rule that gives the answer";
    if is_ranked(table.hit) {
        let ranked = in_priority_order(alloc, table, rules)?;
        let chosen = first_if(takes_one(table.hit), ranked.as_slice());
        return add_rules(facts, step, name, chosen);
    }
    add_rules(facts, step, name, first_if(takes_one(table.hit), rules))
}

fn is_ranked(hit: Hit) -> bool
    ensures { result ≡ is_ranked hit }
{
    matches!(hit, Hit::P | Hit::O)
}

fn takes_one(hit: Hit) -> bool
    ensures { result ≡ takes_one hit }
{
    matches!(hit, Hit::P | Hit::F)
}

fn first_if(is_one: bool, rules: &[usize]) -> &[usize]
    ensures { result.now ≡ first_if is_one rules.now }
{
    if is_one && !rules.is_empty() {
        &rules[..1]
    } else {
        rules
    }
}

fn add_answers(
    alloc: Global,
    facts: &mut Facts,
    step: &[u8],
    outputs: &[Output],
    answers: &[Answer],
) -> Result<(), AllocError>
    ensures { OnOk result (facts.new ≡ facts.old ++ answer_facts step.now outputs.now answers.now) }
{
    for place in 0..outputs.len() {
        let Some(answer) = answers.get(place) else {
            return Ok(());
        };
        let name = name_after(alloc, b"answers ", outputs[place].name.as_str())?;
        let text = answer_text(alloc, answer)?;
        facts.add(step, name.as_slice(), text.as_slice())?;
    }
    Ok(())
}

// Returns a literal, or a list of literals in square brackets.
fn answer_text(alloc: Global, answer: &Answer) -> Result<Vec<u8>, AllocError>
    ensures { IfOk result (λ text. text.items ≡ answer_text answer.now) }
{
    let mut text = Vec::new(alloc);
    match answer {
        Answer::One(value) => value.write_text(&mut text)?,
        Answer::Many(values) => {
            text.push(b'[')?;
            append_joined::<Value, Literals>(&mut text, ", ", values.as_slice())?;
            text.push(b']')?;
        }
    }
    Ok(text)
}

fn add_fault(
    alloc: Global,
    facts: &mut Facts,
    step: &[u8],
    reason: Reason,
    fault: Fault,
) -> Result<(), AllocError>
    requires { reason_of fault ≡ Some reason }
    ensures { OnOk result (facts.new ≡ facts.old ++ fault_facts step.now fault) }
{
    let text = reason_text(alloc, reason)?;
    facts.add(step, b"fails by", text.as_bytes())?;
    facts.add(step, b"needs", remedy_text(fault))
}

fn remedy_text(fault: Fault) -> &'static [u8]
    ensures { result.now ≡ remedy_text fault }
{
    match fault {
        Fault::Outside { .. } => {
            b"allowed values of this column that include the value that it reads"
        }
        Fault::NoRule { .. } => {
            b"a rule that matches the values that the table reads, or a default for each output"
        }
        Fault::Clash { .. } => b"rules of which these values match one, or that agree",
        Fault::Range { .. } => b"entries whose result is in the range of numbers",
        Fault::OutOfMemory => b"",
    }
}
