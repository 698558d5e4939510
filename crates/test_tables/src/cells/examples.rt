//! Literals and fields of each kind, and their values. The end-to-end cases show for which values
//! cells hold.
use super::{plain_of, value_of};
use crate::ending::expects;
use feel_tests::{
    CellCause, CellFault, Kind, Value, field_spells_at_most_one_value, literal_spells_its_value,
    text_spells_at_most_one_cell, text_spells_at_most_one_value,
};
use std::alloc::Global;
use std::process::Abort;

fn is_read_as(rt: &impl Abort, alloc: Global, kind: Kind, literal: &str, value: Value) -> bool {
    literal_spells_its_value(&value);
    let read = value_of(rt, alloc, kind, literal);
    read == value
}

// Returns whether the literal of a value is appended to a text. If memory runs out, the text must
// be unchanged, and the call is repeated.
fn is_written(rt: &impl Abort, alloc: Global, value: &Value, wanted: &str) -> bool {
    let mut out = begin_text(rt, alloc);
    if value.write_text(&mut out).is_err() {
        write_again(rt, value, &mut out);
    }
    is_after(out, wanted)
}

fn write_again(rt: &impl Abort, value: &Value, out: &mut Vec<u8>) {
    expects(rt, out.as_slice() == b"x = ".as_slice(), "the text before");
    value.write_text(out).expect(rt, "memory for a literal");
}

fn is_after(out: Vec<u8>, wanted: &str) -> bool {
    out.as_slice().strip_prefix(b"x = ") == Some(wanted.as_bytes())
}

fn begin_text(rt: &impl Abort, alloc: Global) -> Vec<u8> {
    match Vec::from_slice(alloc, b"x = ") {
        Ok(out) => out,
        Err(_) => Vec::from_slice(alloc, b"x = ").expect(rt, "memory for a text"),
    }
}

const LITERALS: [(Kind, &str, &str); 18] = [
    (Kind::Day, "date(\"2024-02-29\")", "date(\"2024-02-29\")"),
    (
        Kind::Day,
        " date ( \"0001-01-01\" ) ",
        "date(\"0001-01-01\")",
    ),
    (Kind::Day, "date(\"9999-12-31\")", "date(\"9999-12-31\")"),
    (Kind::Day, "date(\"1969-12-31\")", "date(\"1969-12-31\")"),
    (Kind::Text, "\"a\\\"b\\\\c\"", "\"a\\\"b\\\\c\""),
    (Kind::Text, " \"\" ", "\"\""),
    (Kind::Text, "\"\u{e9}\"", "\"\u{e9}\""),
    (Kind::Flag, " true", "true"),
    (Kind::Flag, "false", "false"),
    (Kind::Number, "-007.50", "-7.5"),
    (Kind::Number, " .5 ", "0.5"),
    (Kind::Number, "-0", "0"),
    (Kind::Number, "99999999999.9999", "99999999999.9999"),
    (Kind::Text, "\"a\\\"b\"", "\"a\\\"b\""),
    (
        Kind::Text,
        "\"a\\\"b\\\\c and some more\"",
        "\"a\\\"b\\\\c and some more\"",
    ),
    (Kind::Flag, "true", "true"),
    (Kind::Number, "-.5", "-0.5"),
    (Kind::Number, "1.5", "1.5"),
];

// A literal that is written must be read back as the same value. `./check` runs this test once for
// each of its allocations, with that allocation refused.
#[test]
fn literals_are_written_and_read_back_though_memory_is_refused(rt: HostRuntime) {
    for row in &LITERALS {
        let (kind, literal, wanted) = *row;
        let value = value_of(&rt, rt.alloc(), kind, literal);
        let same = value.kind() == kind && is_written(&rt, rt.alloc(), &value, wanted);
        expects(&rt, same, literal);
        let same = is_read_as(&rt, rt.alloc(), kind, wanted, value);
        expects(&rt, same, literal);
    }
    text_spells_at_most_one_value();
    text_spells_at_most_one_cell();
}

const FIELDS: [(Kind, &str, &str); 8] = [
    (Kind::Number, "1.50", "1.5"),
    (Kind::Number, "-.5", "-0.5"),
    (Kind::Flag, "true", "true"),
    (Kind::Flag, "false", "false"),
    (Kind::Text, "a\"b", "\"a\\\"b\""),
    (Kind::Text, "", "\"\""),
    (Kind::Text, " x ", "\" x \""),
    (Kind::Day, "2024-02-29", "date(\"2024-02-29\")"),
];

// `./check` runs this test once for each of its allocations, with that allocation refused.
#[test]
fn plain_fields_are_values_though_memory_is_refused(rt: HostRuntime) {
    for row in &FIELDS {
        let (kind, field, literal) = *row;
        let value = plain_of(&rt, rt.alloc(), kind, field);
        let same = is_read_as(&rt, rt.alloc(), kind, literal, value);
        expects(&rt, same, field);
    }
    field_spells_at_most_one_value();
}

#[test]
fn faults_are_reported(rt: HostRuntime) {
    let cause = CellCause::BadDate;
    let reported = format!(in rt.alloc(); "{}", CellFault { at: 17, cause }).expect(&rt, "memory");
    let wanted = "bad date at byte 17";
    expects(&rt, reported.as_str() == wanted, wanted);
}
