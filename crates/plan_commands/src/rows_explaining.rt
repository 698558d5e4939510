//! Explanations of the errors of `value` over a file of rows.

use crate::test_explaining::{begin_column, print_words};
use diagnostics::Explanation;
use evaluation::ValueStop;
use plan_rows::{RowsFault, RowsStop, name_of_column};
use std::alloc::{AllocError, Global};
use value_command::{About, print_message, value_message};

/// Prints the explanation of an error of `value` over a file of rows, if the caller wants it.
pub fn explain_rows<R: Eprint + AllocGlobal>(
    rt: &R,
    about: &About,
    rows: &[u8],
    answer: &Result<(), RowsStop>,
) {
    let Err(stop) = answer else {
        return;
    };
    if !about.explains {
        return;
    }
    match stop {
        RowsStop::Value(ValueStop::Missing(_)) => print_words(rt, missing_column()),
        RowsStop::Value(stop) => print_message(rt, value_message(rt.alloc(), about, stop)),
        RowsStop::Rows(fault) => {
            if let Ok(line) = column_line(rt.alloc(), rows, *fault) {
                let _ = rt.eprint(line.as_str());
            }
            print_words(rt, words_of(*fault));
        }
    }
}

fn missing_column() -> Explanation {
    Explanation::new(
        "A table reads this name, and no column of the file gives a value for it.",
        "Add a column with this name. Each row needs a value there.",
    )
}

fn words_of(fault: RowsFault) -> Explanation {
    match fault {
        RowsFault::TooLarge => Explanation::new(
            "A file of rows may have at most 16777216 bytes.",
            "Split it into several files, each with the first record.",
        ),
        RowsFault::NoHeader => Explanation::new(
            "The file has no record, and the first record must name the columns.",
            "Name the columns by names that the tables read; other columns are carried over.",
        ),
        RowsFault::Repeated { .. } => Explanation::new(
            "An earlier column gives the value of the same name.",
            "Remove one of the two columns.",
        ),
        RowsFault::Taken { .. } => Explanation::new(
            "The plan has an output of this name, or the column is called `fault`: the printed rows have such a column of their own.",
            "Remove the column, or give it another name.",
        ),
    }
}

// The line that shows the column of a fault; empty if the fault is in no column.
fn column_line(alloc: Global, rows: &[u8], fault: RowsFault) -> Result<String, AllocError> {
    let (RowsFault::Repeated { column } | RowsFault::Taken { column }) = fault else {
        return Ok(String::new(alloc));
    };
    let name = name_of_column(alloc, rows, column)?;
    let mut line = begin_column(alloc, column, name.as_str())?;
    line.push_str("\n")?;
    Ok(line)
}
