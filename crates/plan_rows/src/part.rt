//! The parts of a settlement that a column of a file of tests can expect.

ghost use Rattle.std.specs.Prelude.{◌≡◌, find};
ghost use Rattle.plan_rows.specs.Parts.{amount_full_word, amount_of, amount_word, full_word, is_part_name, part_word, parts};

use settlement::{Money, Outcome};

/// An amount of a settlement.
#[derive(Clone, Copy)]
pub enum Amount {
    Allowed,
    Deductible,
    Copay,
    Coinsurance,
    Share,
    Paid,
}

/// A part of a settlement: a field of the remittance's records.
#[derive(Clone, Copy)]
pub enum Part {
    Status,
    Reason,
    Amount(Amount),
}

const PARTS: [Part; 8] = [
    Part::Status,
    Part::Reason,
    Part::Amount(Amount::Allowed),
    Part::Amount(Amount::Deductible),
    Part::Amount(Amount::Copay),
    Part::Amount(Amount::Coinsurance),
    Part::Amount(Amount::Share),
    Part::Amount(Amount::Paid),
];

impl Part {
    /// Returns the part that a column with this name expects.
    pub fn of_name(name: &str) -> Option<Part>
        ensures { result ≡ find (λ part. is_part_name part name.now) parts }
    {
        for part in &PARTS {
            if part.is_name(name) {
                return Some(*part);
            }
        }
        None
    }

    fn is_name(self, name: &str) -> bool
        ensures { result ≡ is_part_name self name.now }
    {
        name == self.word() || name == self.full_word()
    }

    // Returns the name of the part's field in the remittance.
    fn word(self) -> &'static str
        ensures { result.now ≡ part_word self }
    {
        match self {
            Part::Status => "status",
            Part::Reason => "reason",
            Part::Amount(amount) => amount.word(),
        }
    }

    // Returns the name that no name or output of a plan is likely to have, such as `settled:paid`
    // beside the accumulator `paid`.
    fn full_word(self) -> &'static str
        ensures { result.now ≡ full_word self }
    {
        match self {
            Part::Status => "settled:status",
            Part::Reason => "settled:reason",
            Part::Amount(amount) => amount.full_word(),
        }
    }
}

impl Amount {
    fn word(self) -> &'static str
        ensures { result.now ≡ amount_word self }
    {
        match self {
            Amount::Allowed => "allowed",
            Amount::Deductible => "ded",
            Amount::Copay => "copay",
            Amount::Coinsurance => "coins",
            Amount::Share => "share",
            Amount::Paid => "paid",
        }
    }

    fn full_word(self) -> &'static str
        ensures { result.now ≡ amount_full_word self }
    {
        match self {
            Amount::Allowed => "settled:allowed",
            Amount::Deductible => "settled:ded",
            Amount::Copay => "settled:copay",
            Amount::Coinsurance => "settled:coins",
            Amount::Share => "settled:share",
            Amount::Paid => "settled:paid",
        }
    }

    /// Returns this amount of an outcome.
    pub fn of(self, outcome: &Outcome) -> Money
        ensures { result ≡ amount_of self outcome.now }
    {
        match self {
            Amount::Allowed => outcome.allowed,
            Amount::Deductible => outcome.ded,
            Amount::Copay => outcome.copay,
            Amount::Coinsurance => outcome.coins,
            Amount::Share => outcome.share,
            Amount::Paid => outcome.paid,
        }
    }
}
