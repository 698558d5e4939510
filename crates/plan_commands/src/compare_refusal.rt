//! The error lines of `compare`, and their explanations.

ghost use Rattle.std.specs.Prelude.{◌≡◌, ◌≢◌};
ghost use Rattle.console.specs.ExitStatus.{code_of};
ghost use Rattle.console.specs.declared.exit_status.ExitStatus.TheVariants.{Done, Refused, Resource};
ghost use Rattle.evaluation.specs.Stop.{status_of};
ghost use Rattle.plan_zones.specs.declared.compare_fault.CompareFault.TheVariants as compare;
ghost use Rattle.plan_commands.specs.Comparing.{AreUncompared, StopsTexts};
ghost use Rattle.plan_commands.specs.declared.compare_words.WordFault.TheVariants as word;

use crate::compare_report::CompareStop;
use crate::compare_words::{WordFault, words_of};
use crate::near_names::{plan_again, push_near_input};
use console::names::{NARROWED, OLD, PLAN, RENAMED};
use console::{ExitStatus, no_memory, print_error};
use diagnostics::{Explanation, explain, explain_plan, push_printable};
use evaluation::ValueStop;
use plan_checks::{CompareFault, Side};
use std::alloc::{AllocError, Global};
use tables::Plan;
use value_command::{About, exit_status_of, print_message, value_message};

/// What an explanation needs of a comparison: the command line, the text of the new plan, and that of the old one.
#[derive(Clone, Copy)]
pub struct ComparedTexts<'a, 'w> {
    pub about: About<'a, 'w>,
    pub old: &'a [u8],
}

impl<'a, 'w> ComparedTexts<'a, 'w> {
    // The text of the plan on a side.
    fn plan_on(&self, side: Side) -> &[u8] {
        match side {
            Side::Old => self.old,
            Side::New => self.about.plan,
        }
    }
}

/// Prints the error that there is no report, and returns its status.
#[tactic(auto, using(crate::proofs::Comparisons::text_uncompared, crate::proofs::Comparisons::word_uncompared, crate::proofs::Comparisons::plans_uncompared))]
pub fn refuse_compare<R: Eprint + AllocGlobal>(
    rt: &R,
    texts: &ComparedTexts,
    stop: CompareStop,
) -> ExitStatus
    requires { StopsTexts texts.now.about.words.now
        texts.now.old.now texts.now.about.plan.now stop }
    ensures refused { result ≡ Refused → AreUncompared texts.now.about.words.now
        texts.now.old.now texts.now.about.plan.now result }
    ensures not_done { result ≢ Done }
{
    match stop {
        CompareStop::Text { side, stop } => refuse_plan(rt, texts, side, stop),
        CompareStop::Word(fault) => refuse_word(rt, texts, fault),
        CompareStop::Plans(fault) => refuse_plans(rt, texts, fault),
    }
}

// The line says which plan has the error.
fn refuse_plan<R: Eprint + AllocGlobal>(
    rt: &R,
    texts: &ComparedTexts,
    side: Side,
    stop: ValueStop,
) -> ExitStatus
    ensures status { code_of result ≡ status_of stop }
    ensures not_done { result ≢ Done }
{
    if matches!(stop, ValueStop::NoMemory) {
        return no_memory(rt);
    }
    let words = match side {
        Side::Old => "old plan: ",
        Side::New => "new plan: ",
    };
    let _ = rt.eprint(words);
    let answer = Err(stop);
    let status = exit_status_of(rt, &answer);
    if texts.about.explains
        && let Err(stop) = &answer
    {
        explain_plan_on(rt, texts, side, stop);
    }
    status
}

fn explain_plan_on<R: Eprint + AllocGlobal>(
    rt: &R,
    texts: &ComparedTexts,
    side: Side,
    stop: &ValueStop,
) {
    let alloc = rt.alloc();
    let name = match side {
        Side::Old => OLD,
        Side::New => PLAN,
    };
    let page = match stop {
        ValueStop::Plan(fault) => {
            explain_plan(alloc, texts.about.word(name), texts.plan_on(side), fault)
        }
        stop => value_message(alloc, &texts.about, stop),
    };
    print_message(rt, page);
}

fn refuse_word<R: Eprint + AllocGlobal>(
    rt: &R,
    texts: &ComparedTexts,
    fault: WordFault,
) -> ExitStatus
    ensures memory { fault ≡ word.OutOfMemory → result ≡ Resource }
    ensures not_done { result ≢ Done }
{
    match fault {
        WordFault::NoNewName(_) => {
            print_error(rt, "error: `--as` needs OLD=NEW", ExitStatus::Usage)
        }
        WordFault::NoCell(_) => {
            print_error(rt, "error: `--where` needs NAME=CELL", ExitStatus::Usage)
        }
        WordFault::Unknown(word) => refuse_name(rt, texts, NARROWED, word, Side::New),
        WordFault::Cell { word, at } => refuse_cell(rt, texts, word, at),
        WordFault::OutOfMemory => no_memory(rt),
    }
}

fn refuse_plans<R: Eprint + AllocGlobal>(
    rt: &R,
    texts: &ComparedTexts,
    fault: CompareFault,
) -> ExitStatus
    ensures memory { fault ≡ compare.OutOfMemory → result ≡ Resource }
    ensures not_done { result ≢ Done }
{
    match fault {
        CompareFault::NoOldName(word) => refuse_name(rt, texts, RENAMED, word, Side::Old),
        CompareFault::NoNewName(word) => refuse_name(rt, texts, RENAMED, word, Side::New),
        CompareFault::NoNarrowed(word) => refuse_name(rt, texts, NARROWED, word, Side::New),
        CompareFault::OutOfMemory => no_memory(rt),
        fault => match plans_line(rt.alloc(), texts, fault) {
            Ok(line) => refuse_line(rt, texts, line.as_str(), words_of_plans(fault)),
            Err(_) => no_memory(rt),
        },
    }
}

// Prints a line, and explains it if the caller wants it.
fn refuse_line<R: Eprint + AllocGlobal>(
    rt: &R,
    texts: &ComparedTexts,
    line: &str,
    words: Explanation,
) -> ExitStatus
    ensures { result ≢ Done }
{
    let status = print_error(rt, line, ExitStatus::Refused);
    if texts.about.explains {
        print_message(rt, explain(rt.alloc(), words));
    }
    status
}

// Returns the line of plans that cannot be compared.
fn plans_line(
    alloc: Global,
    texts: &ComparedTexts,
    fault: CompareFault,
) -> Result<String, AllocError> {
    match fault {
        CompareFault::NoRoles(side) => {
            let word = word_of(side);
            format!(in alloc; "the {word} plan has no roles")
        }
        CompareFault::InputRole(side, role) => {
            let word = word_of(side);
            let key = role.key();
            format!(in alloc;
                "role {key} of the {word} plan is a name; zones need an output or a literal"
            )
        }
        CompareFault::Merged(name) => name_line(
            alloc,
            texts,
            Side::Old,
            name,
            "two names of the old plan would be one of the new plan: ",
        ),
        CompareFault::TwoKinds(name) => name_line(
            alloc,
            texts,
            Side::New,
            name,
            "a name has values of another kind in the old plan: ",
        ),
        _ => String::from_str(alloc, "one plan keeps families, and the other does not"),
    }
}

fn word_of(side: Side) -> &'static str {
    match side {
        Side::Old => "old",
        Side::New => "new",
    }
}

// Returns the words with the name at the index in the plan on a side.
fn name_line(
    alloc: Global,
    texts: &ComparedTexts,
    side: Side,
    name: usize,
    words: &str,
) -> Result<String, AllocError> {
    let mut line = String::from_str(alloc, words)?;
    if let Some(plan) = plan_again(alloc, texts.plan_on(side))? {
        let done = push_name(&mut line, &plan, name);
        drop(plan);
        done?;
    }
    Ok(line)
}

fn push_name(line: &mut String, plan: &Plan, name: usize) -> Result<(), AllocError> {
    match plan.names().get(name) {
        Some(data) => line.push_str(data.name.as_str()),
        None => Ok(()),
    }
}

fn words_of_plans(fault: CompareFault) -> Explanation {
    match fault {
        CompareFault::NoRoles(_) => Explanation::new(
            "A plan without roles settles no claims, so that there is nothing to compare.",
            "Add the roles, or compare what the tables answer by `test`.",
        ),
        CompareFault::InputRole(_, _) => Explanation::new(
            "The role has the value of a name, so that claims with other values have other terms.",
            "Give the role by the output of a table, or by a literal.",
        ),
        CompareFault::Merged(_) => Explanation::new(
            "`--as` gives this name a name that another name of the old plan has already.",
            "Correct the names of `--as`.",
        ),
        CompareFault::TwoKinds(_) => Explanation::new(
            "The values of the name have one kind in the old plan, and another one in the new plan.",
            "If it is another name, call one of the two otherwise.",
        ),
        _ => Explanation::new(
            "A plan of version 3 has limits of families, and the other plan has none.",
            "Compare plans that both are of version 3, or both of an earlier version.",
        ),
    }
}

// Refuses a name of an option, with a similar name of the plan if it has one.
fn refuse_name<R: Eprint + AllocGlobal>(
    rt: &R,
    texts: &ComparedTexts,
    option: &str,
    word: usize,
    side: Side,
) -> ExitStatus
    ensures { result ≢ Done }
{
    match unknown_line(rt.alloc(), texts, option, word, side) {
        Ok(line) => refuse_line(rt, texts, line.as_str(), unknown_name(option)),
        Err(_) => no_memory(rt),
    }
}

fn unknown_name(option: &str) -> Explanation {
    if option == RENAMED {
        return Explanation::new(
            "`--as` has a name of the old plan, `=`, and a name of the new plan.",
            "Correct the name. `adjudicate names PLAN` lists the names of a plan.",
        );
    }
    Explanation::new(
        "`--where` has a name of the new plan, or of the old one if the new one does not have it.",
        "Correct the name. `adjudicate names PLAN` lists the names of a plan.",
    )
}

fn unknown_line(
    alloc: Global,
    texts: &ComparedTexts,
    option: &str,
    word: usize,
    side: Side,
) -> Result<String, AllocError> {
    let text = match words_of(texts.about.words, option).get(word) {
        Some(text) => *text,
        None => "",
    };
    let (first, second) = text.split_once('=').unwrap_or((text, ""));
    let is_second = option == RENAMED && matches!(side, Side::New);
    let name = if is_second { second } else { first };
    let mut line = String::from_str(alloc, "unknown name `")?;
    push_printable(&mut line, name)?;
    line.push_str(if option == RENAMED {
        "` in --as"
    } else {
        "` in --where"
    })?;
    push_near_input(alloc, &mut line, texts.plan_on(side), name)?;
    Ok(line)
}

fn refuse_cell<R: Eprint + AllocGlobal>(
    rt: &R,
    texts: &ComparedTexts,
    word: usize,
    at: usize,
) -> ExitStatus
    ensures { result ≢ Done }
{
    match cell_line(rt.alloc(), texts, word, at) {
        Ok(line) => refuse_line(rt, texts, line.as_str(), unreadable_cell()),
        Err(_) => no_memory(rt),
    }
}

fn cell_line(
    alloc: Global,
    texts: &ComparedTexts,
    word: usize,
    at: usize,
) -> Result<String, AllocError> {
    let text = match words_of(texts.about.words, NARROWED).get(word) {
        Some(text) => *text,
        None => "",
    };
    let (name, _) = text.split_once('=').unwrap_or((text, ""));
    let column = at.saturating_add(1);
    format!(in alloc; "the cell of {name} in --where can't be read at its byte {column}")
}

fn unreadable_cell() -> Explanation {
    Explanation::new(
        "The text after the first `=` is no cell for the values of the name.",
        "Write a cell as in a rule, and quote it for the shell: --where 'code=\"A\",\"B\"', or --where 'age=>=18'.",
    )
}
