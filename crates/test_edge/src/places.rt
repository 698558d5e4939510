//! Tests of places in a plan's text.
use crate::ending::{expects, fail};
use diagnostics::{Places, Step, places_of, position_of};
use std::process::Abort;

fn plan() -> &'static str {
    "version = 1
fields = [{name = \"x\", kind = \"number\"}]
[[tables]] # the first
inputs = [{name = 'x'}]
outputs = [{name = 'y', kind = 'number'}]
rules = [
  {when = ['é\"]', \"-\"], then = ['1']},
]
"
}

// Ends the test if the value at the end of the steps has another place.
fn expects_at(rt: &impl Abort, places: &Places, steps: &[Step], line: usize, column: usize) {
    let found = position_of(plan().as_bytes(), places.nearest_node(steps));
    let is_there = found.line == line && found.column == column;
    expects(rt, is_there, "a value in its place");
}

// The steps to a cell of the first rule.
fn cell(item: usize) -> [Step; 6] {
    [
        Step::Key("tables"),
        Step::Item(0),
        Step::Key("rules"),
        Step::Item(0),
        Step::Key("when"),
        Step::Item(item),
    ]
}

#[test]
fn values_are_found_at_their_places(rt: HostRuntime) {
    match places_of(rt.alloc(), plan()) {
        Ok(places) => {
            let table = [Step::Key("tables"), Step::Item(0)];
            expects_at(&rt, &places, &table, 3, 1);
            expects_at(&rt, &places, &cell(1), 7, 19);
            // There is no third cell.
            expects_at(&rt, &places, &cell(2), 7, 11);
        }
        Err(_) => fail(&rt, "memory for places"),
    }
}
