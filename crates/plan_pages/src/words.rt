//! The words of pages for hit policies, kinds, roles and the reasons for which claims pend.

use faults::{Reason, RoleKey};
use feel_tests::Kind;
use tables::Hit;

/// The word, the name and the meaning of a hit policy.
#[derive(Clone, Copy)]
pub struct HitWords {
    /// As the plan has it.
    pub word: &'static str,
    pub name: &'static str,
    /// A sentence that says what the value of a table is.
    pub meaning: &'static str,
}

static HITS: [HitWords; 11] = [
    HitWords {
        word: "U",
        name: "Unique",
        meaning: "At most one rule may match.",
    },
    HitWords {
        word: "A",
        name: "Any",
        meaning: "All rules that match must have the same outputs.",
    },
    HitWords {
        word: "P",
        name: "Priority",
        meaning: "Of the rules that match, the one with the highest priority decides.",
    },
    HitWords {
        word: "F",
        name: "First",
        meaning: "The first rule that matches decides.",
    },
    HitWords {
        word: "O",
        name: "Output order",
        meaning: "The outputs of all rules that match are listed, the highest priority first.",
    },
    HitWords {
        word: "R",
        name: "Rule order",
        meaning: "The outputs of all rules that match are listed, in the order of the rules.",
    },
    HitWords {
        word: "C",
        name: "Collect",
        meaning: "The outputs of all rules that match are listed.",
    },
    HitWords {
        word: "C+",
        name: "Collect, sum",
        meaning: "The value is the sum over all rules that match.",
    },
    HitWords {
        word: "C<",
        name: "Collect, least",
        meaning: "The value is the least of all rules that match.",
    },
    HitWords {
        word: "C>",
        name: "Collect, greatest",
        meaning: "The value is the greatest of all rules that match.",
    },
    HitWords {
        word: "C#",
        name: "Collect, count",
        meaning: "The value is the number of rules that match.",
    },
];

/// Returns the words of a hit policy.
pub fn hit_words(hit: Hit) -> HitWords {
    let place = match hit {
        Hit::U => 0,
        Hit::A => 1,
        Hit::P => 2,
        Hit::F => 3,
        Hit::O => 4,
        Hit::R => 5,
        Hit::C => 6,
        Hit::Sum => 7,
        Hit::Min => 8,
        Hit::Max => 9,
        Hit::Count => 10,
    };
    HITS[place]
}

/// Returns the word of a plan for a kind.
pub fn kind_word(kind: Kind) -> &'static str {
    match kind {
        Kind::Number => "number",
        Kind::Text => "text",
        Kind::Flag => "flag",
        Kind::Day => "day",
    }
}

/// Returns what a role is.
pub fn role_meaning(role: RoleKey) -> &'static str {
    match role {
        RoleKey::Cover => "whether the plan covers the care",
        RoleKey::Fee => "the most that the plan allows for the care",
        RoleKey::Deductible => "what the member pays in full before the plan pays",
        RoleKey::Copay => "a fixed amount that the member pays",
        RoleKey::Rate => "the member's share of the rest, from 0 to 1",
        RoleKey::OopMax => "the most that the member pays out of pocket",
        RoleKey::Remarks => "the remarks of the remittance",
        RoleKey::FamilyDeductible => "what the family pays in full before the plan pays",
        RoleKey::FamilyOopMax => "the most that the family pays out of pocket",
    }
}

/// Returns why a claim pends.
pub fn reason_meaning(reason: Reason) -> &'static str {
    match reason {
        Reason::Outside { .. } => "a value is not among the allowed ones",
        Reason::NoRule { .. } => "no rule matches, and there is no default",
        Reason::Clash { .. } => "rules that may not match together do so",
        Reason::Range { .. } => "a sum is beyond the range of numbers",
        Reason::Term(_) => "a role has no valid amount or rate",
    }
}
