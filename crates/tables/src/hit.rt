//! Hit policies.
ghost use Rattle.std.specs.Prelude.{◌≡◌};
ghost use Rattle.tables.specs.Plan.{gives_one, read_kind_of};

use feel_tests::Kind;

/// A hit policy: it determines the value of a table if several rules match (DMN 1.4, hit policies).
#[derive(Clone, Copy, PartialEq, Eq)]
pub enum Hit {
    /// Unique: at most one rule may match.
    U,
    /// Any: all matching rules must have the same outputs.
    A,
    /// Priority: the match with the highest priority decides.
    P,
    /// First: the first match decides.
    F,
    /// Output order: all matches are listed, in decreasing priority.
    O,
    /// Rule order: all matches are listed, in rule order.
    R,
    /// Collect: all matches are listed. This profile lists them in rule order.
    C,
    /// Collect, `C+`: the result is the sum of the matches' entries.
    Sum,
    /// Collect, `C<`: the result is the least of the matches' entries.
    Min,
    /// Collect, `C>`: the result is the greatest of the matches' entries.
    Max,
    /// Collect, `C#`: the result is the number of matching rules.
    Count,
}

impl Hit {
    /// Returns whether each output of a table with this hit policy has a single value and not a
    /// list.
    pub fn gives_one(self) -> bool
        ensures { result ≡ gives_one self }
    {
        !matches!(self, Hit::O | Hit::R | Hit::C)
    }

    /// Returns the kind of the values that later tables and roles see in an output of the declared
    /// kind.
    pub fn read_kind_of(self, written: Kind) -> Kind
        ensures { result ≡ read_kind_of self written }
    {
        match self {
            Hit::Count => Kind::Number,
            _ => written,
        }
    }
}
