//! The four kinds of values that the columns of a table have.
ghost use Rattle.std.specs.Prelude.{◌↔◌, IsTrue};
ghost use Rattle.feel_tests.specs.Grammar.{HasOrder};

/// A kind of values.
#[derive(Clone, Copy, PartialEq, Eq)]
pub enum Kind {
    /// A decimal number with four places.
    Number,
    /// A text of at most 256 bytes.
    Text,
    /// True or false.
    Flag,
    /// A day of the Gregorian calendar.
    Day,
}

impl Kind {
    /// Returns whether values of the kind are ordered: only then do comparisons and intervals
    /// apply.
    pub(crate) fn has_order(self) -> bool
        ensures { IsTrue result ↔ HasOrder self }
    {
        matches!(self, Kind::Number | Kind::Day)
    }
}
