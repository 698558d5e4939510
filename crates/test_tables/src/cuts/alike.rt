//! A plan and its compiled plan have the same answers: at each cut, one unit below and above it, at
//! each named text, and at a text that is not named.
ghost use Rattle.std.specs.Prelude.{◌≡◌, IsTrue};
ghost use Rattle.cutplan.specs.Masks.{IsColumnNumber};
ghost use Rattle.cutplan.specs.Numbered.{IsTableNumber};

use super::cut_of;
use super::plans::{allowed_codes, chain, codes, days, disjoint_plan, flag_and_code, stretches};
use super::wide_plans::{wide_codes, wide_days, wide_numbers};
use crate::answers::{give, inputs_of, plan_of, write_line};
use crate::ending::expects;
use cutplan::{CutPlan, RuleMask};
use std::alloc::{AllocError, Global};
use std::process::Abort;
use tables::{AnswersByTable, Env, InputClasses, Inputs, Plan, Valuer};
use test_fixtures::health_plan;

/// The index of the first field among the names.
const FIRST: usize = 4;

/// Literals of a field.
type Literals = &'static [&'static str];

/// The indices of the billed amount and of the deductible met among the names of the health plan.
const BILLED: usize = 3;

const MET: usize = 5;

fn remark_codes() -> Literals {
    &["\"A\"", "\"B\"", "\"X\"", "\"C\""]
}

fn remark_amounts() -> &'static [(&'static str, &'static str)] {
    &[
        ("99.9999", "0"),
        ("100", "49.9999"),
        ("100.0001", "49.9999"),
        ("100", "50"),
        ("100.0001", "50"),
        ("100.0001", "50.0001"),
    ]
}

/// Returns the answers of the plan's outputs, or the fault, as text. Each of the given values has
/// the index of its name.
fn answer_text<V: Valuer>(
    rt: &impl Abort,
    alloc: Global,
    valuer: &V,
    given: &[(usize, &str)],
) -> Vec<u8> {
    let inputs = inputs_with(rt, alloc, valuer.plan(), given);
    reported_at(rt, alloc, valuer, &inputs)
}

// Returns the inputs of the plan with these values, each with the index of its name. An empty
// literal sets no value.
fn inputs_with(rt: &impl Abort, alloc: Global, plan: &Plan, given: &[(usize, &str)]) -> Inputs {
    let mut inputs = inputs_of(rt, alloc, plan);
    for (place, literal) in given {
        if !literal.is_empty() {
            give(rt, alloc, &mut inputs, *place, literal);
        }
    }
    inputs
}

fn reported_at<V: Valuer>(rt: &impl Abort, alloc: Global, valuer: &V, inputs: &Inputs) -> Vec<u8> {
    assert!(rt; valuer.plan().ready(inputs));
    match valuer.value(alloc, inputs) {
        Ok(values) => answers_of(alloc, valuer.plan(), &values).expect(rt, "memory for a text"),
        Err(fault) => format!(in alloc; "{fault}")
            .expect(rt, "memory for a text")
            .into_bytes(),
    }
}

fn answers_of(alloc: Global, plan: &Plan, values: &Env) -> Result<Vec<u8>, AllocError> {
    let mut text = Vec::new(alloc);
    write_answers(&mut text, plan, values)?;
    Ok(text)
}

fn write_answers(text: &mut Vec<u8>, plan: &Plan, values: &Env) -> Result<(), AllocError> {
    for table in plan.tables() {
        for output in table.outputs.as_slice() {
            write_line(text, values.get(output.name.as_str()))?;
        }
    }
    Ok(())
}

/// Requires that a plan and its compiled plan have the same answers for these values.
fn check_at(rt: &impl Abort, alloc: Global, plan: &Plan, cut: &CutPlan, given: &[(usize, &str)]) {
    let plain = answer_text(rt, alloc, plan, given);
    let by_masks = answer_text(rt, alloc, cut, given);
    expects(rt, is_same(plain, by_masks), "the same answers by masks");
}

fn is_same(text: Vec<u8>, other: Vec<u8>) -> bool {
    text.as_slice() == other.as_slice()
}

/// Requires the same answers for each of these literals of the only field.
fn check_each(rt: &impl Abort, alloc: Global, plan: &Plan, cut: &CutPlan, literals: &[&str]) {
    for literal in literals {
        check_at(rt, alloc, plan, cut, &[(FIRST, *literal)]);
    }
}

/// A test of a plan and its compiled plan. Only one function owns the plan, because each owner of a
/// plan makes the proof much longer.
#[derive(Clone, Copy)]
enum Tried<'a> {
    /// The answers are the same for each of these literals of the only field.
    Alike(&'a [&'a str]),
    /// The masks have the matching rules for each of these literals of the first field.
    Matching(&'a [&'a str]),
    /// The answers are the same for each code and amount of the health plan.
    Remarks,
    /// The masks of the only column of two rules begin with these words.
    Masks(&'a [u64]),
    /// These literals of the first field and of the second lie in these input classes.
    Classes(&'a [(&'a str, &'a str, Option<u64>)]),
}

fn try_cut(rt: &impl Abort, alloc: Global, plan: &Plan, tried: Tried<'_>) {
    let cut = cut_of(rt, alloc, plan);
    match tried {
        Tried::Alike(literals) => check_each(rt, alloc, plan, &cut, literals),
        Tried::Matching(literals) => check_each_matching(rt, alloc, plan, &cut, literals),
        Tried::Remarks => check_remarks(rt, alloc, plan, &cut),
        Tried::Masks(words) => check_masks(rt, plan, &cut, words),
        Tried::Classes(wanted) => check_classes(rt, alloc, &cut, wanted),
    }
}

fn try_plan(rt: &impl Abort, alloc: Global, text: &[u8], tried: Tried<'_>) {
    let plan = plan_of(rt, alloc, text);
    try_cut(rt, alloc, &plan, tried);
}

fn around_apart() -> Literals {
    &[
        "-99999999999.9999",
        "0.9999",
        "1",
        "1.0001",
        "1.0002",
        "4.9999",
        "5",
        "5.0001",
        "99999999999.9999",
    ]
}

fn of_codes() -> Literals {
    &["\"A\"", "\"B\"", "\"AB\"", "\"\""]
}

fn around_days() -> Literals {
    &[
        "date(\"0001-01-01\")",
        "date(\"0001-01-02\")",
        "date(\"2024-02-28\")",
        "date(\"2024-02-29\")",
        "date(\"2024-03-01\")",
        "date(\"9999-12-30\")",
        "date(\"9999-12-31\")",
    ]
}

fn around_stretches() -> Literals {
    &["-0.0001", "0", "0.0001", "9.9999", "10", "10.0001"]
}

#[test]
fn stretches_side_by_side_are_valued_alike(rt: HostRuntime) {
    let literals = Tried::Alike(around_stretches());
    try_plan(&rt, rt.alloc(), stretches(), literals);
}

/// Requires that the health plan and its compiled plan have the same answers for each code and
/// amount.
fn check_remarks(rt: &impl Abort, alloc: Global, plan: &Plan, cut: &CutPlan) {
    for code in remark_codes() {
        for (billed, met) in remark_amounts() {
            let given = [(FIRST, *code), (BILLED, *billed), (MET, *met)];
            check_at(rt, alloc, plan, cut, &given);
        }
    }
}

#[test]
fn remarks_are_valued_alike(rt: HostRuntime) {
    try_plan(&rt, rt.alloc(), health_plan().as_bytes(), Tried::Remarks);
}

/// Requires that the masks of each table have the matching rules.
fn check_reported(rt: &impl Abort, alloc: Global, plan: &Plan, cut: &CutPlan, literal: &str)
    requires { cut.now ≡ plan.now }
{
    let mut inputs = Inputs::new(alloc, plan).expect(rt, "memory for inputs");
    give(rt, alloc, &mut inputs, FIRST, literal);
    let earlier = AnswersByTable::new(alloc);
    for (place, table) in plan.tables().iter().enumerate() {
        let mask = cut.matching_mask(&inputs, earlier.as_slice(), place, table);
        expects(rt, mask.is_some(), literal);
    }
}

fn check_each_matching(
    rt: &impl Abort,
    alloc: Global,
    plan: &Plan,
    cut: &CutPlan,
    literals: &[&str],
)
    requires { cut.now ≡ plan.now }
{
    for literal in literals {
        let literal: &str = literal;
        check_reported(rt, alloc, plan, cut, literal);
    }
}

fn allowed_literals() -> Literals {
    &["\"A\"", "\"B\""]
}

#[test]
fn masks_speak_of_allowed_values(rt: HostRuntime) {
    try_plan(
        &rt,
        rt.alloc(),
        disjoint_plan(),
        Tried::Matching(around_apart()),
    );
    try_plan(&rt, rt.alloc(), codes(), Tried::Matching(of_codes()));
    try_plan(
        &rt,
        rt.alloc(),
        allowed_codes(),
        Tried::Matching(allowed_literals()),
    );
    try_plan(&rt, rt.alloc(), days(), Tried::Matching(around_days()));
}

fn of_wide_codes() -> Literals {
    &["\"C00\"", "\"C41\"", "\"C79\"", "\"C80\""]
}

fn of_wide_numbers() -> Literals {
    &["0.9999", "1", "20.5", "40", "40.0001"]
}

fn of_wide_days() -> Literals {
    &[
        "date(\"2023-12-31\")",
        "date(\"2024-01-01\")",
        "date(\"2024-02-11\")",
        "date(\"2024-12-31\")",
    ]
}

/// No clause asks that the masks of a column are used: a table may also ask each rule.
#[test]
fn masks_are_used_in_columns_of_many_regions(rt: HostRuntime) {
    try_plan(
        &rt,
        rt.alloc(),
        wide_codes(),
        Tried::Matching(of_wide_codes()),
    );
    try_plan(
        &rt,
        rt.alloc(),
        wide_numbers(),
        Tried::Matching(of_wide_numbers()),
    );
    try_plan(
        &rt,
        rt.alloc(),
        wide_days(),
        Tried::Matching(of_wide_days()),
    );
}

// Returns whether the masks begin with these words.
fn have_first_words(masks: &[RuleMask], words: &[u64]) -> bool {
    masks.len() == words.len()
        && masks
            .iter()
            .zip(words)
            .all(|(mask, word)| mask.words()[0] == *word)
}

fn has_one_column(plan: &Plan) -> bool
    ensures { IsTrue result → IsTableNumber plan.now 1 × IsColumnNumber plan.now 1 1 }
{
    plan.tables().len() == 1 && plan.tables()[0].inputs.len() == 1
}

fn has_two_rules(plan: &Plan) -> bool {
    match plan.tables() {
        [table] => table.rules.len() == 2,
        _ => false,
    }
}

fn check_masks(rt: &impl Abort, plan: &Plan, cut: &CutPlan, words: &[u64])
    requires { cut.now ≡ plan.now }
{
    assert!(rt; has_one_column(plan));
    expects(rt, has_two_rules(plan), "two rules");
    let same = have_first_words(cut.masks(1, 1), words);
    expects(rt, same, "these words");
}

#[test]
fn masks_of_two_stretches(rt: HostRuntime) {
    try_plan(
        &rt,
        rt.alloc(),
        disjoint_plan(),
        Tried::Masks(&[1, 0, 2, 2, 2, 0]),
    );
}

fn check_classes(
    rt: &impl Abort,
    alloc: Global,
    cut: &CutPlan,
    wanted: &[(&str, &str, Option<u64>)],
) {
    for (first, second, input_class) in wanted {
        let given = [(FIRST, *first), (FIRST + 1, *second)];
        let inputs = inputs_with(rt, alloc, cut.plan(), &given);
        expects(rt, cut.input_class(&inputs) == *input_class, first);
    }
}

// The flag has two regions. The code has three, and the last one has all other texts.
fn classes_of_flag_and_code() -> &'static [(&'static str, &'static str, Option<u64>)] {
    &[
        ("false", "\"A\"", Some(0)),
        ("false", "\"C\"", Some(2)),
        ("false", "\"D\"", Some(2)),
        ("true", "\"A\"", Some(3)),
        ("true", "\"D\"", Some(5)),
        ("true", "", None),
    ]
}

// Both tables cut the only field, at 1, 2, 2.5 and 3.
fn classes_of_chain() -> &'static [(&'static str, &'static str, Option<u64>)] {
    &[
        ("-7", "", Some(0)),
        ("0.9999", "", Some(0)),
        ("1", "", Some(1)),
        ("2.4999", "", Some(4)),
        ("2.5001", "", Some(6)),
        ("100", "", Some(8)),
    ]
}

#[test]
fn values_of_one_class_and_of_others(rt: HostRuntime) {
    let of_both = Tried::Classes(classes_of_flag_and_code());
    try_plan(&rt, rt.alloc(), flag_and_code(), of_both);
    try_plan(&rt, rt.alloc(), chain(), Tried::Classes(classes_of_chain()));
}
