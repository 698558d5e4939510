//! The balances of accounts, to which opening balances and claims are added one after another.
ghost use Rattle.std.specs.Prelude.{◌≡◌, ◌∷◌, [], Some, IfOk, IfSome, OnOk, length, map};
ghost use Rattle.std.specs.Option.{unwrap_or};
ghost use Rattle.std.specs.BTreeMap.{get};
ghost use Rattle.settlement.specs.Accounts.{Account};
ghost use Rattle.settlement.specs.Opening.{no_balance, opening};
ghost use Rattle.intake_csv.specs.Balances.{accounts_of, opening_of};
ghost use Rattle.run_lists.specs.Charges.{Posts, added, charges_by, totals};
ghost use Rattle.run_lists.specs.Entries.{AreSorted, account_of_key, entries_of, key_cmp};

use crate::closing::account_key::AccountKey;
use claim_gate::Terms;
use intake_csv::OpeningEntry;
use settlement::{Balance, Claim, Outcome, account_year};
use std::alloc::{AllocError, Global};
use std::collections::BTreeMap;

/// The balance of each account: of its opening balance, and of the claims that are added.
pub struct ClosingBalances {
    pub accounts: BTreeMap<AccountKey, Balance>,
}

impl Drop for ClosingBalances {
    fn drop(self) {
        let ClosingBalances { accounts: _ } = self;
    }
}

impl ClosingBalances {
    /// Begins with the opening balances of the terms.
    pub fn of_opening(alloc: Global, terms: &Terms) -> Result<ClosingBalances, AllocError>
        ensures { IfOk result (λ closing. (account : Account)
            → totals (entries_of closing) account
            ≡ opening (accounts_of terms.now.balances) account) }
    {
        let entries = terms.opening_entries(alloc)?;
        let mut closing = ClosingBalances {
            accounts: BTreeMap::new(alloc),
        };
        closing.add_all(alloc, entries.as_slice())?;
        Ok(closing)
    }

    fn add_all(&mut self, alloc: Global, entries: &[OpeningEntry]) -> Result<(), AllocError>
        ensures { OnOk result (Posts (map opening_of entries.now)
            (entries_of self.old) (entries_of self.new)) }
    {
        for entry in entries {
            let (family, member) = (entry.family.as_str(), entry.member.as_str());
            let key = AccountKey::new(alloc, family, member, entry.year)?;
            self.add(key, entry.balance)?;
        }
        Ok(())
    }

    /// Adds what the outcome of a claim leaves to the claim's account.
    pub fn charge(
        &mut self,
        alloc: Global,
        terms: &Terms,
        claim: &Claim,
        outcome: &Outcome,
    ) -> Result<(), AllocError>
        ensures { OnOk result (Posts (charges_by terms.now.plan claim.now (Some outcome.now))
            (entries_of self.old) (entries_of self.new)) }
    {
        let year = account_year(terms.plan(), claim);
        let (family, member) = (claim.family().as_str(), claim.member.as_str());
        let key = AccountKey::new(alloc, family, member, year)?;
        self.add(
            key,
            Balance {
                met: outcome.ded,
                oop: outcome.share,
                paid: outcome.paid,
            },
        )
    }

    // Adds an amount of each kind to an account, which has zeros if it is new.
    fn add(&mut self, key: AccountKey, more: Balance) -> Result<(), AllocError>
        ensures { OnOk result (Posts ((account_of_key key, more) ∷ [])
            (entries_of self.old) (entries_of self.new)) }
    {
        // The sums are accumulators of the run, which are in range.
        let Some(after) = sum_of(self.balance_of(&key), more) else {
            return Err(AllocError);
        };
        self.accounts.insert(key, after)?;
        Ok(())
    }

    fn balance_of(&self, key: &AccountKey) -> Balance
        ensures { result ≡ unwrap_or (get key_cmp self.now.accounts key.now) no_balance }
    {
        match self.accounts.get(key) {
            Some(balance) => *balance,
            None => Balance::zero(),
        }
    }

    /// Returns the number of accounts.
    pub fn len(&self) -> usize
        ensures count { result ≡ length (entries_of self.now) }
        ensures sorted { AreSorted (entries_of self.now) }
    {
        self.accounts.len()
    }
}

// Returns the sums of the amounts of both balances, or `None` if one is out of range.
fn sum_of(balance: Balance, more: Balance) -> Option<Balance>
    ensures { IfSome result (λ sum. sum ≡ added balance more) }
{
    let met = balance.met.plus(more.met)?;
    let oop = balance.oop.plus(more.oop)?;
    let paid = balance.paid.plus(more.paid)?;
    Some(Balance { met, oop, paid })
}
