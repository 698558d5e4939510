//! The keys of accounts.
ghost use Rattle.std.specs.Prelude.{◌≡◌, IfOk};
ghost use Rattle.run_lists.specs.Entries.{account_of_key};

use std::alloc::{AllocError, Global};

/// The key of an account. Keys are ordered by benefit year, then by family, then by member.
#[derive(PartialEq, Eq, PartialOrd, Ord, Drop)]
pub struct AccountKey {
    /// The benefit year, which is 0 if the plan does not keep accumulators by benefit year.
    pub year: u16,
    pub family: String,
    pub member: String,
}

impl AccountKey {
    /// Copies the names of an account.
    pub fn new(
        alloc: Global,
        family: &str,
        member: &str,
        year: u16,
    ) -> Result<AccountKey, AllocError>
        ensures { IfOk result (λ key. account_of_key key
            ≡ record { family = family.now; member = member.now; year = year }) }
    {
        Ok(AccountKey {
            year,
            family: String::from_str(alloc, family)?,
            member: String::from_str(alloc, member)?,
        })
    }
}
