//! Explanations of the errors of `test`.

use crate::near_names::push_near;
use diagnostics::{Explanation, explain, push_printable};
use evaluation::ValueStop;
use plan_rows::{CasesFault, TestStop, name_of_column};
use std::alloc::{AllocError, Global};
use value_command::{About, print_message, value_message};

/// Prints the explanation of an error of `test`, if the caller wants it.
pub fn explain_test<R: Eprint + AllocGlobal>(
    rt: &R,
    about: &About,
    cases: &[u8],
    answer: &Result<(), TestStop>,
) {
    let Err(stop) = answer else {
        return;
    };
    if !about.explains {
        return;
    }
    match stop {
        TestStop::Value(ValueStop::Missing(_)) => print_words(rt, missing_column()),
        TestStop::Value(stop) => print_message(rt, value_message(rt.alloc(), about, stop)),
        TestStop::Cases(fault) => {
            if let Ok(line) = column_line(rt.alloc(), about.plan, cases, *fault) {
                let _ = rt.eprint(line.as_str());
            }
            print_words(rt, words_of(*fault));
        }
    }
}

/// Prints an explanation.
pub fn print_words<R: Eprint + AllocGlobal>(rt: &R, words: Explanation) {
    print_message(rt, explain(rt.alloc(), words));
}

fn missing_column() -> Explanation {
    Explanation::new(
        "A table or the settlement of the rows needs this name, and no column of the file gives a value for it.",
        "Add a column with this name. Each row needs a value there.",
    )
}

fn words_of(fault: CasesFault) -> Explanation {
    match fault {
        CasesFault::TooLarge => Explanation::new(
            "A file of tests may have at most 16777216 bytes.",
            "Split it into several files, each with the first record.",
        ),
        CasesFault::NoHeader => Explanation::new(
            "The file has no record, and the first record must name the columns.",
            "Name the columns by names that the tables read, and by the outputs that are expected.",
        ),
        CasesFault::Unknown { .. } => Explanation::new(
            "The plan has neither an input nor an output with the name of the column, and no settlement has such a part.",
            "Correct the name, or remove the column; a comment has no place in the file.",
        ),
        CasesFault::Repeated { .. } => Explanation::new(
            "An earlier column gives the value of the same name.",
            "Remove one of the two columns.",
        ),
    }
}

// The line that shows the column of a fault, with a similar name of the plan if it has one; empty if the fault is in no column.
fn column_line(
    alloc: Global,
    plan: &[u8],
    cases: &[u8],
    fault: CasesFault,
) -> Result<String, AllocError> {
    let (CasesFault::Unknown { column } | CasesFault::Repeated { column }) = fault else {
        return Ok(String::new(alloc));
    };
    let name = name_of_column(alloc, cases, column)?;
    let mut line = begin_column(alloc, column, name.as_str())?;
    if matches!(fault, CasesFault::Unknown { .. }) {
        push_near(alloc, &mut line, plan, name.as_str())?;
    }
    line.push_str("\n")?;
    Ok(line)
}

/// Returns the beginning of the line that shows a column: its number and its name.
pub fn begin_column(alloc: Global, column: usize, name: &str) -> Result<String, AllocError> {
    let mut line = String::new(alloc);
    line.push_str("  column ")?;
    line.push_str(column.to_string(alloc)?.as_str())?;
    line.push_str(": ")?;
    push_printable(&mut line, name)?;
    Ok(line)
}
