//! Texts of cells of each kind, and the first fault of other texts. The end-to-end cases have many
//! more of both. `./check` runs this test once for each of its allocations, with that allocation
//! refused.
use super::fault_of;
use crate::ending::expects;
use feel_tests::CellCause::{BadDate, BadEscape, Literal, Token, Trailing, WrongKind};
use feel_tests::{CellCause, CellFault, Kind};

const CELLS: [(Kind, &str); 10] = [
    (Kind::Number, ""),
    (Kind::Number, "[1..2],7"),
    (Kind::Number, "not(1,2,>5)"),
    (Kind::Text, "-"),
    (Kind::Text, "\"A\",\"B\""),
    (Kind::Text, "not(\"A\",\"B\\\"\",\"C\")"),
    (Kind::Flag, "not( false )"),
    (Kind::Flag, "true,false,true"),
    (Kind::Day, "date(\"2024-02-29\"),<date(\"2024-02-29\")"),
    (Kind::Day, "]date(\"2024-02-29\") .. date(\"2024-02-29\")["),
];

const FAULTS: [(Kind, &str, CellCause, usize); 11] = [
    (Kind::Number, "1..5", Trailing, 1),
    (Kind::Number, "[1..5", Token, 5),
    (Kind::Number, "1.23451", Literal, 0),
    (Kind::Number, "- 5", Trailing, 2),
    (Kind::Number, "1,2,3,\"x\"", WrongKind, 6),
    (Kind::Text, "<\"A\"", WrongKind, 0),
    (Kind::Text, "\"a\\n\"", BadEscape, 2),
    (Kind::Text, "not(\"A\"),\"B\"", Trailing, 8),
    (Kind::Flag, "true,", Token, 5),
    (Kind::Day, "date(\"2023-02-29\")", BadDate, 0),
    (Kind::Day, "[date(\"2024-02-29\")]", Token, 19),
];

#[test]
fn cells_are_read_or_refused_though_memory_is_refused(rt: HostRuntime) {
    for row in &CELLS {
        let (kind, text) = *row;
        expects(&rt, fault_of(rt.alloc(), kind, text).is_none(), text);
    }
    for row in &FAULTS {
        let (kind, text, cause, at) = *row;
        let fault = Some(CellFault { at, cause });
        expects(&rt, fault_of(rt.alloc(), kind, text) == fault, text);
    }
}
