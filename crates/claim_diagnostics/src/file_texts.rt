//! The texts of the explanations: for each fault of a run's files its cause and its fix. `scripts/faults` prints the list of all faults from them.

use diagnostics::{Explanation, memory};
use faults::{FileFault, RowCause, TermsFault};

/// The explanation of a fault of the terms. The fault of a file or of a record says more than this one.
pub fn terms_explanation(fault: &TermsFault) -> Explanation {
    match fault {
        TermsFault::NoRoles => Explanation::new(
            "The plan has no `roles`, so it cannot settle claims.",
            "Add the table `[roles]` to the plan.",
        ),
        TermsFault::Files => Explanation::new(
            "A run takes at most 64 claim files.",
            "Run the files in parts, and give the accumulators of one part to the next by `--balances`.",
        ),
        TermsFault::File { .. } => Explanation::new(
            "The file is not a valid claim file for this plan.",
            "Correct that file.",
        ),
        TermsFault::Balances(_) => Explanation::new(
            "The file of balances is not valid.",
            "Correct the file of balances.",
        ),
        TermsFault::OutOfMemory => memory(),
    }
}

/// The explanation of a file's fault.
pub fn file_explanation(fault: FileFault) -> Explanation {
    match fault {
        FileFault::TooLarge => Explanation::new(
            "The file is larger than 16,777,216 bytes.",
            "Split the file; one provider may have several files.",
        ),
        FileFault::NoHeader => Explanation::new(
            "The file is empty or has only empty lines; a header line is required.",
            "Add the header line.",
        ),
        FileFault::MissingColumn => Explanation::new(
            "The header does not have all required columns.",
            "Add the column, or correct its name: upper and lower case differ, and the separator is a comma.",
        ),
        FileFault::DuplicateColumn => Explanation::new(
            "The header has a required column more than once.",
            "Rename or remove one of them.",
        ),
        FileFault::OutOfMemory => memory(),
    }
}

/// The explanation of a record's fault in a file of balances.
pub fn record_explanation(cause: RowCause) -> Explanation {
    match cause {
        RowCause::FieldCount => Explanation::new(
            "The record has more or fewer fields than the header.",
            "Add or remove fields, and put a field with a comma in double quotes.",
        ),
        RowCause::Utf8 => Explanation::new(
            "The field is not valid UTF-8.",
            "Save the file in UTF-8.",
        ),
        RowCause::TooLong => Explanation::new(
            "The field is longer than 256 bytes.",
            "Shorten the field.",
        ),
        RowCause::EmptyId => Explanation::new(
            "The member is empty, or, under version 3 of the plan, the family.",
            "Fill in the member and the family.",
        ),
        RowCause::Value => Explanation::new(
            "An amount is not a number, or a year is not four digits from 0001 to 9999.",
            "Write an amount as 1234.50, and a year as 2024.",
        ),
        RowCause::NotCents => Explanation::new(
            "An amount has a fraction of a cent.",
            "Round the amount to cents.",
        ),
        RowCause::Negative => Explanation::new(
            "An amount is negative.",
            "Write an amount of 0 or more.",
        ),
        RowCause::Repeated => Explanation::new(
            "An earlier record has the same member; from version 2 of the plan on also the same year, and under version 3 also the same family.",
            "Keep one of the two records.",
        ),
        RowCause::Sum => Explanation::new(
            "With this record the sum of the amount over the family's members in the year is out of range.",
            "Correct the amounts of the family.",
        ),
    }
}
