//! Paths from the top of a plan's document to its values.

use crate::places::Step;

/// The number of steps of the longest path, which is that to a cell.
const STEPS_LIMIT: usize = 6;

/// The path to a value from the top of the document. It takes no memory, so no caller has to handle running out of it.
#[derive(Clone, Copy)]
pub struct ValuePath {
    steps: [Step; STEPS_LIMIT],
    count: usize,
}

/// The path to the document itself.
pub const TOP: ValuePath = ValuePath {
    steps: [Step::Item(0); STEPS_LIMIT],
    count: 0,
};

impl ValuePath {
    /// The path on to the value at a key.
    pub fn key(self, key: &'static str) -> ValuePath {
        self.on(Step::Key(key))
    }

    /// The path on to an item of the array at a key. Numbers of items count from 1, and steps from 0.
    pub fn item(self, list: &'static str, number: usize) -> ValuePath {
        self.key(list).on(Step::Item(number.saturating_sub(1)))
    }

    fn on(self, step: Step) -> ValuePath {
        let ValuePath { mut steps, count } = self;
        if count < STEPS_LIMIT {
            steps[count] = step;
        }
        ValuePath {
            steps,
            count: count.saturating_add(1),
        }
    }

    /// The steps from the top.
    pub fn as_slice(&self) -> &[Step] {
        self.steps.get(..self.count).unwrap_or(&[])
    }
}
