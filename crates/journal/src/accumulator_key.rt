//! The keys of accumulators.
ghost use Rattle.std.specs.Prelude.{◌≡◌};
ghost use Rattle.journal.specs.LastByKey.{family_key, is_own_family};

/// The key of an account. Keys are ordered by family, then by member, then by year.
#[derive(Clone, Copy, PartialEq, Eq, PartialOrd, Ord)]
pub struct AccumulatorKey {
    /// The number of the family's name.
    pub family: u32,
    /// The number of the member's name.
    pub member: u32,
    /// The benefit year, which is 0 if the plan does not keep accumulators by benefit year.
    pub year: u16,
}

impl AccumulatorKey {
    /// Returns the key of the family and year: the family takes the place of the member.
    pub fn family_key(self) -> AccumulatorKey
        ensures { result ≡ family_key self }
    {
        AccumulatorKey {
            member: self.family,
            ..self
        }
    }

    /// Returns whether the member is its own family, in year 0.
    pub fn is_own_family(self) -> bool
        ensures { result ≡ is_own_family self }
    {
        self.family == self.member && self.year == 0
    }
}
