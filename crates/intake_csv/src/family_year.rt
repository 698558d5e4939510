//! The opening balances of a family's members in a year.
ghost use Rattle.std.specs.Prelude.{◌≡◌, ◌∷◌, ◌++◌, [], None, OnOk, map, string_bytes};
ghost use Rattle.std.specs.Str.{bytes_eq};
ghost use Rattle.intake_csv.specs.Balances.{accounts_in, opening_of};
ghost use Rattle.intake_csv.specs.FamilyYears.{AreOnceBy, HasJoined, balance_in, begins, refused_after, refused_by_sums};

use crate::entry::OpeningEntry;
use settlement::{Acc, Balance, Money};
use std::alloc::{AllocError, Global};
use std::collections::BTreeMap;
use std::marker::Model;

/// The reason why the balance of a member is refused.
#[derive(Clone, Copy)]
pub enum Refusal {
    /// The member has a balance already.
    Again,
    /// The family's sum of the deductible met would be out of range.
    Met,
    /// The family's sum of the out-of-pocket amounts would be out of range.
    Oop,
}

/// The balances of a family's members in a year, and the sums over them. A family with one member
/// needs no map, and every family is one if the plan keeps no accumulators for families.
pub struct FamilyYear {
    first: String,
    balance: Balance,
    others: BTreeMap<String, Balance>,
    met: Money,
    oop: Money,
}

impl Drop for FamilyYear {
    fn drop(self) {
        let FamilyYear {
            first: _,
            balance: _,
            others: _,
            met: _,
            oop: _,
        } = self;
    }
}

impl Model for FamilyYear {
    ghost use Rattle.std.specs.Prelude.{string_bytes};
    ghost use Rattle.intake_csv.specs.FamilyYears.{IsFamilyYear, Members, members_of};

    ghost Value = { Members };

    ghost view = { λ h. members_of (string_bytes h.first) h.balance h.others };

    ghost invariant = { λ h.
        IsFamilyYear (members_of (string_bytes h.first) h.balance h.others) h.met h.oop };
}

impl FamilyYear {
    /// Returns a family with one member.
    pub fn new(alloc: Global, member: String, balance: Balance) -> FamilyYear
        ensures { result ≡ (string_bytes member, balance) ∷ [] }
    {
        FamilyYear {
            first: member,
            balance,
            others: BTreeMap::new(alloc),
            met: balance.met,
            oop: balance.oop,
        }
    }

    /// Returns the opening accumulators of a member: its own amounts are its balance, or zero
    /// without one, and the family's sums are over all members.
    pub fn opening(&self, member: &str) -> Acc
        ensures { result ≡ begins self.now (balance_in self.now member.now) }
    {
        match self.balance_of(member) {
            Some(balance) => balance.with_family(self.met, self.oop),
            None => Balance::zero().with_family(self.met, self.oop),
        }
    }

    /// Returns the reason why a member with this balance cannot be added, if there is one.
    pub fn refusal(&self, member: &str, balance: Balance) -> Option<Refusal>
        ensures { result ≡ refused_after self.now (balance_in self.now member.now) balance }
    {
        match self.balance_of(member) {
            Some(_) => Some(Refusal::Again),
            None => self.refusal_by_sums(balance),
        }
    }

    /// Adds a member whose balance is not refused.
    pub fn join(&mut self, member: String, balance: Balance) -> Result<(), AllocError>
        requires { refused_after self.old
            (balance_in self.old (string_bytes member)) balance ≡ None }
        ensures joined { OnOk result (HasJoined (string_bytes member) balance self.old self.new) }
        ensures once { AreOnceBy bytes_eq self.new }
    {
        let Some(met) = self.met.plus(balance.met) else {
            unreachable!();
        };
        let Some(oop) = self.oop.plus(balance.oop) else {
            unreachable!();
        };
        match self.others.insert(member, balance) {
            Ok(_) => {
                self.met = met;
                self.oop = oop;
                Ok(())
            }
            Err(_) => Err(AllocError),
        }
    }

    /// Appends the entries of the members, who are of this family and year.
    pub fn list(
        &self,
        alloc: Global,
        entries: &mut Vec<OpeningEntry>,
        family: &str,
        year: u16,
    ) -> Result<(), AllocError>
        ensures { OnOk result (map opening_of entries.new.items
            ≡ map opening_of entries.old.items ++ accounts_in year (family.now, self.now)) }
    {
        let first = self.first.as_str();
        entries.push(OpeningEntry::new(alloc, family, first, year, self.balance)?)?;
        for other in self.others.iter() {
            let member = other.0.as_str();
            entries.push(OpeningEntry::new(alloc, family, member, year, *other.1)?)?;
        }
        Ok(())
    }

    #[tactic(auto, using(crate::proofs::FamilyYears::found_first, crate::proofs::FamilyYears::found_after))]
    fn balance_of(&self, member: &str) -> Option<Balance>
        ensures { result ≡ balance_in self.now member.now }
    {
        if self.first.as_str() == member {
            return Some(self.balance);
        }
        self.others.get(member).copied()
    }

    fn refusal_by_sums(&self, balance: Balance) -> Option<Refusal>
        ensures { result ≡ refused_by_sums self.now balance }
    {
        if self.met.plus(balance.met).is_none() {
            return Some(Refusal::Met);
        }
        if self.oop.plus(balance.oop).is_none() {
            return Some(Refusal::Oop);
        }
        None
    }
}
