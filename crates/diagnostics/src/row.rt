//! Lists of sentences with the forms of the cells that they are for, and the search for the first row that fits a cell.
//!
//! A list is a text. Each of its headings begins with `@`, and has a word, a space and a sentence. The lines below it are the forms that the sentence is
//! for. The word says where they apply:
//!
//! | Word | Where the forms apply |
//! |---|---|
//! | `any` | to the test of a cell that has the fault, and to a literal |
//! | `test` | to the test of a cell that has the fault |
//! | `range` | to such a test whose first value is less than its second one |
//! | `text` | to the whole text |
//! | `cell` | to a whole cell |
//! | `ended` | to a whole cell that is complete before the fault |
//! | `literal` | to a literal |

use crate::forms::{Subject, Values, values_of};
use crate::kind::Kind;
use faults::{CellCause, CellFault};

/// A sentence, and the values for its pairs of braces.
#[derive(Clone, Copy)]
pub struct Found<'d> {
    pub sentence: &'static str,
    pub values: Values<'d>,
}

/// A cell or a literal that cannot be read, with its fault.
#[derive(Clone, Copy)]
pub struct BadCell<'d> {
    pub text: &'d [u8],
    /// The kind of its column.
    pub kind: Kind,
    /// Whether it is a single literal. A cell may have several tests.
    pub is_literal: bool,
    pub fault: CellFault,
}

impl<'d> BadCell<'d> {
    /// The sentence of the first form of a list that applies and fits, with the values.
    pub fn first_row(&self, list: &'static str) -> Option<Found<'d>> {
        for part in list.split('@') {
            if let Some((heading, forms)) = part.split_once('\n')
                && let Some((place, sentence)) = heading.split_once(' ')
                && let Some(values) = self.first_form(place, forms)
            {
                return Some(Found { sentence, values });
            }
        }
        None
    }

    // The values of the first of the forms that fits, if forms for this place apply.
    fn first_form(&self, place: &str, forms: &str) -> Option<Values<'d>> {
        let subject = self.subject_at(place)?;
        let is_range = place == "range";
        for form in forms.lines() {
            if let Some(values) = values_of(subject, form)
                && (!is_range || is_ascending(values.texts[0], values.texts[1]))
            {
                return Some(values);
            }
        }
        None
    }

    // The text that forms for this place are compared with, if they apply.
    fn subject_at(&self, place: &str) -> Option<Subject<'d>> {
        let begin = match place {
            "any" => self.begin_of_test(),
            "literal" if self.is_literal => self.begin_of_test(),
            "test" | "range" if !self.is_literal => self.begin_of_test(),
            "text" => 0,
            "cell" if !self.is_literal => 0,
            "ended" if !self.is_literal && matches!(self.fault.cause, CellCause::Trailing) => 0,
            _ => return None,
        };
        Some(Subject {
            text: self.text.get(begin..).unwrap_or(&[]),
            kind: self.kind,
            fault: self.fault.at.saturating_sub(begin),
        })
    }

    // The offset of the test that has the fault: after the last comma before it that is in no text, or after the parenthesis of `not`.
    fn begin_of_test(&self) -> usize {
        let mut begin = 0usize;
        let mut at = 0usize;
        let mut is_in_text = false;
        for byte in self.text.get(..self.fault.at).unwrap_or(&[]) {
            let before = self.text.get(..at).unwrap_or(&[]);
            at = at.saturating_add(1);
            match byte {
                b'"' => is_in_text = !is_in_text,
                b',' if !is_in_text => begin = at,
                b'(' if before.trim_ascii() == b"not".as_slice() => begin = at,
                _ => {}
            }
        }
        begin
    }
}

// Whether a range with these ends is not empty. Of two numbers of one sign the one with fewer digits before its dot is nearer to zero, and days have
// one length.
fn is_ascending(low: &str, high: &str) -> bool {
    let is_below_zero = low.starts_with('-');
    if is_below_zero != high.starts_with('-') {
        return is_below_zero;
    }
    let (near, far) = if is_below_zero {
        (high, low)
    } else {
        (low, high)
    };
    let near_digits = near.find('.').unwrap_or(near.len());
    let far_digits = far.find('.').unwrap_or(far.len());
    near_digits < far_digits || (near_digits == far_digits && near.as_bytes() < far.as_bytes())
}
