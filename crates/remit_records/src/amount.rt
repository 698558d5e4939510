//! The amounts of a record. The header, the records, their empty fields and the totals all follow
//! one list of amounts.
ghost use Rattle.std.specs.Prelude.{◌≡◌};
ghost use Rattle.remit_records.specs.Amounts.{amount_of, name_of};

use settlement::{Money, Outcome};

/// An amount of a record.
#[derive(Clone, Copy)]
pub enum Amount {
    Allowed,
    Deductible,
    Copay,
    Coinsurance,
    Share,
    Paid,
}

/// The amounts, in the order of their fields.
pub const AMOUNTS: [Amount; 6] = [
    Amount::Allowed,
    Amount::Deductible,
    Amount::Copay,
    Amount::Coinsurance,
    Amount::Share,
    Amount::Paid,
];

impl Amount {
    /// Returns the name of the amount's field in the header.
    pub fn name(self) -> &'static str
        ensures { result.now ≡ name_of self }
    {
        match self {
            Amount::Allowed => "allowed",
            Amount::Deductible => "ded",
            Amount::Copay => "copay",
            Amount::Coinsurance => "coins",
            Amount::Share => "share",
            Amount::Paid => "paid",
        }
    }

    /// Returns this amount of an outcome.
    pub fn of(self, outcome: &Outcome) -> Money
        ensures { result ≡ amount_of self outcome.now }
    {
        match self {
            Amount::Allowed => outcome.allowed,
            Amount::Deductible => outcome.ded,
            Amount::Copay => outcome.copay,
            Amount::Coinsurance => outcome.coins,
            Amount::Share => outcome.share,
            Amount::Paid => outcome.paid,
        }
    }
}
