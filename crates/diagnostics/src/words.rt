//! Words that people write for hit policies and kinds, as lists of forms (`row.rt`).

use crate::kind::Kind;
use crate::row::BadCell;
use faults::{CellCause, CellFault};

/// For each hit policy the forms of the words that mean it.
pub const HIT_POLICIES: &str = "
@literal C+
*sum*
c +
@literal C<
*min*
@literal C>
*max*
@literal C#
*unt*
c #
@literal U
uni*
u
@literal A
any*
a
@literal P
pri*
p
@literal F
fir*
f
@literal O
out*
o
@literal R
rul*
r
@literal C
col*
c
";

/// What to write for a kind, with the forms of the words that mean it.
pub const KINDS: &str = "
@literal Write the kind `text`.
str*
char*
varchar*
text
@literal Write the kind `number`.
int*
num*
dec*
float*
money*
@literal Write the kind `flag`.
bool*
@literal Write the kind `day`.
date*
@literal Use one of the four kinds.
*
";

/// What a word means by the first of the forms that fits; empty if none does.
pub fn meaning_of(word: &str, list: &'static str) -> &'static str {
    let word = BadCell {
        text: word.as_bytes(),
        kind: Kind::Text,
        is_literal: true,
        fault: CellFault {
            cause: CellCause::Token,
            at: 0,
        },
    };
    match word.first_row(list) {
        Some(found) => found.sentence,
        None => "",
    }
}
