//! The index of the last claims of all accounts and families.
ghost use Rattle.std.specs.Prelude.{◌≡◌, ◌==◌, ◌<◌, ◌+◌, ◌^◌, true, false, Some, None, cond, IfOk, OnOk, OnErr};
ghost use Rattle.journal.specs.LastByKey.{AccumulatorKey as AnyKey, AreFoundAlike, IsAfter, last_of_key, family_key, family_year_in, is_key};

use crate::accumulator_key::AccumulatorKey;
use crate::last_by_key::LastByKey;
use crate::link::Link;
use std::alloc::{AllocError, Global};

/// The position of the last claim of each account, and of each family in a year.
pub struct LastClaimIndex {
    /// The last positions by account.
    pub accounts: LastByKey,
    /// The last positions by family and year, but only for families that have a claim of a member
    /// other than the family itself. All claims of any other family belong to one account, so a
    /// plan without families needs, and searches, only one map.
    pub family_years: LastByKey,
}

impl Drop for LastClaimIndex {
    fn drop(self) {
        let LastClaimIndex {
            accounts: _,
            family_years: _,
        } = self;
    }
}

/// The predecessors of a claim: the last earlier claims of its account and of its family and year.
#[derive(Clone, Copy)]
pub struct Predecessors {
    /// The position of the last earlier claim of its account.
    pub own: Link,
    /// The position of the last earlier claim of its family and year.
    pub family_year: Link,
}

impl LastClaimIndex {
    /// Returns an index without claims.
    pub fn new(alloc: Global) -> LastClaimIndex
        ensures accounts { (q : AnyKey) → last_of_key result.accounts q ≡ None }
        ensures family_years { (q : AnyKey) → family_year_in result q ≡ None }
    {
        LastClaimIndex {
            accounts: LastByKey::new(alloc),
            family_years: LastByKey::new(alloc),
        }
    }

    /// Sets the last claim of an account and of its family and year, and returns the previous ones.
    /// If memory runs out, the index is unchanged.
    pub fn put(&mut self, key: AccumulatorKey, position: u32) -> Result<Predecessors, AllocError>
        requires { position + 1 < 2 ^ 32 }
        ensures following { IfOk result (IsAfter self.old key) }
        ensures accounts { OnOk result ((q : AnyKey) → last_of_key self.new.accounts q
            ≡ cond (is_key key q) (Some position) (last_of_key self.old.accounts q)) }
        ensures family_years { OnOk result ((q : AnyKey) → family_year_in self.new (family_key q)
            ≡ cond (is_key (family_key key) (family_key q))
            (Some position)
            (family_year_in self.old (family_key q))) }
        ensures refused { OnErr result (AreFoundAlike self.old self.new) }
    {
        if key.family == key.member {
            self.insert_family(key, position)
        } else {
            self.insert_member(key, position)
        }
    }

    // The member is its own family.
    fn insert_family(
        &mut self,
        key: AccumulatorKey,
        position: u32,
    ) -> Result<Predecessors, AllocError>
        requires same { key.family == key.member ≡ true }
        requires fits { position + 1 < 2 ^ 32 }
        ensures following { IfOk result (IsAfter self.old key) }
        ensures accounts { OnOk result ((q : AnyKey) → last_of_key self.new.accounts q
            ≡ cond (is_key key q) (Some position) (last_of_key self.old.accounts q)) }
        ensures family_years { OnOk result ((q : AnyKey) → family_year_in self.new (family_key q)
            ≡ cond (is_key (family_key key) (family_key q))
            (Some position)
            (family_year_in self.old (family_key q))) }
        ensures refused { OnErr result (AreFoundAlike self.old self.new) }
    {
        let own = self.accounts.put(key, position)?;
        let family_year = self.family_years.replace_existing(key, position).or(own);
        Ok(Predecessors { own, family_year })
    }

    // The member is not its own family.
    fn insert_member(
        &mut self,
        key: AccumulatorKey,
        position: u32,
    ) -> Result<Predecessors, AllocError>
        requires other { key.family == key.member ≡ false }
        requires fits { position + 1 < 2 ^ 32 }
        ensures following { IfOk result (IsAfter self.old key) }
        ensures accounts { OnOk result ((q : AnyKey) → last_of_key self.new.accounts q
            ≡ cond (is_key key q) (Some position) (last_of_key self.old.accounts q)) }
        ensures family_years { OnOk result ((q : AnyKey) → family_year_in self.new (family_key q)
            ≡ cond (is_key (family_key key) (family_key q))
            (Some position)
            (family_year_in self.old (family_key q))) }
        ensures refused { OnErr result (AreFoundAlike self.old self.new) }
    {
        let family_key = key.family_key();
        let own = self.accounts.put(key, position)?;
        match self.family_years.put(family_key, position) {
            Ok(last) => match last.position() {
                Some(_) => Ok(Predecessors {
                    own,
                    family_year: last,
                }),
                None => Ok(Predecessors {
                    own,
                    family_year: self.accounts.last_position(family_key),
                }),
            },
            Err(refused) => {
                self.accounts.set(key, own);
                Err(refused)
            }
        }
    }
}
