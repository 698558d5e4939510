//! Whole plans, from their texts to their values, and memory that runs out. The values of other
//! plans are tested by cases of the built program.
use crate::answers::{give, inputs_of, is_text, plan_of, printed_text, value_of};
use crate::ending::expects;
use crate::plans::chain_plan;
use dtable::text_spells_at_most_one_plan;
use feel_tests::Kind;
use std::alloc::Global;
use std::process::Abort;
use tables::{InputData, Inputs, Name, Plan, Sequence, all_names, rules_have_one_priority_order};

/// The index of the billed amount among the names.
const BILLED: usize = 3;

/// The index of the first field among the names.
const CODE: usize = 4;

fn outputs_of_chain() -> &'static [&'static str] {
    &["score", "risk", "step", "note", "points", "rules"]
}

/// The answers of the chain for 120. The score is 1.5 plus 2 less 0.25, which is high, so the call
/// comes before the mail.
fn chain_answers() -> &'static str {
    "3.25\n\"HIGH\"\nlist \"CALL\" \"MAIL\"\nlist \"OVER\" \"LOOK\"\nlist 3 1\n2\n"
}

fn is_chain_answered(rt: &impl Abort, alloc: Global, plan: &Plan, inputs: &Inputs) {
    let values = value_of(rt, alloc, plan, inputs);
    let text = printed_text(rt, alloc, &values, outputs_of_chain());
    expects(rt, is_text(text, chain_answers()), chain_answers());
    drop(values);
}

// `./check` runs this test once for each of its allocations, with that allocation refused. The
// evaluation then reports that memory ran out, and its repetition has the right answers.
#[test]
fn a_chain_has_its_values_though_memory_is_refused(rt: HostRuntime) {
    let plan = plan_of(&rt, rt.alloc(), chain_plan());
    let mut inputs = inputs_of(&rt, rt.alloc(), &plan);
    give(&rt, rt.alloc(), &mut inputs, BILLED, "120");
    is_chain_answered(&rt, rt.alloc(), &plan, &inputs);
    drop(inputs);
    drop(plan);
}

// Returns whether there are eight names and `code` is at the index of the first field.
fn has_code(names: Sequence<InputData>) -> bool {
    match names.as_slice().get(CODE) {
        Some(data) => names.len() == 8 && data.name.as_str() == "code",
        None => false,
    }
}

#[test]
fn names_are_in_order_and_laws_hold(rt: HostRuntime) {
    rules_have_one_priority_order();
    text_spells_at_most_one_plan();
    let mut fields = Sequence::new(rt.alloc());
    let pushed = fields.push(InputData {
        name: Name::new(rt.alloc(), "code").expect(&rt, "memory for a name"),
        kind: Kind::Text,
    });
    expects(&rt, pushed.is_ok(), "memory for a field");
    let names = all_names(rt.alloc(), false, fields).expect(&rt, "memory for names");
    expects(&rt, has_code(names), "the field among eight names");
}
