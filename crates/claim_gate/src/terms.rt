//! Terms: the inputs of a run.
ghost use Rattle.std.specs.Prelude.{◌≡◌, ◌≤◌, ◌-◌, [], List, get_or, length, map, IfOk, IfErr};
ghost use Rattle.std.specs.Option.{unwrap_or};
ghost use Rattle.claim_gate.specs.TermsFault.{HasTermsFault, IsFaultOfBalances, IsFaultOfFile, IsFaultOfFiles};
ghost use Rattle.settlement.specs.Accounts.{account_of};
ghost use Rattle.settlement.specs.Opening.{opening};
ghost use Rattle.intake_csv.specs.Balances.{AreOnce, accounts_of, opening_of};
ghost use Rattle.intake_csv.specs.ClaimFile.{IsFileOf};
ghost use Rattle.intake_csv.specs.Laws.{LieApart};
ghost use Rattle.intake_csv.specs.Rows.{AreRowsLeft, AreRowsOf, IsAtStart};
ghost use Rattle.intake_csv.specs.declared.rows.Row.{Row as AnyRow};
ghost use Rattle.journal.specs.declared.order.Order.TheVariants.{Any};
ghost use Rattle.claim_gate.specs.Terms.{AreBalancesOf, AreFilesOf, AreTerms, AreTermsOf, text_in, texts_of};

use faults::TermsFault;
use intake_csv::{BalanceFault, Balances, ClaimFile, FileFault, OpeningEntry, Rows, read_balances};
use journal::Order;
use settlement::{Acc, Claim, account_year};
use std::alloc::{AllocError, Global};
use std::marker::Model;
use tables::{Plan, Sequence};

/// The maximum number of providers' files in a run.
pub const FILES_LIMIT: usize = 64;

/// The inputs of a run: a plan with roles, the text of each provider's file, the members' opening balances, the maximum
/// number of claims that are accepted, and the order in which they are accepted. It borrows the plan and the texts.
pub struct Terms<'a> {
    plan: &'a Plan,
    files: &'a [&'a [u8]],
    validated: Sequence<ClaimFile<'a>>,
    balances: Option<Balances>,
    cutoff: Option<u64>,
    order: Order,
}

impl Drop for Terms<'_> {
    fn drop(self) {
        let Terms {
            plan: _,
            files: _,
            validated: _,
            balances: _,
            cutoff: _,
            order: _,
        } = self;
    }
}

impl<'a> Model for Terms<'a> {
    ghost use Rattle.std.specs.Prelude.{[]};
    ghost use Rattle.std.specs.Option.{unwrap_or};
    ghost use Rattle.claim_gate.specs.Terms.{AreFilesOf, AreTerms, TermsParts, texts_of};

    ghost Value = { TermsParts };

    ghost view = { λ t. record { plan = t.plan.now; files = texts_of t.files.now; balances = unwrap_or t.balances []; cutoff = t.cutoff; order = t.order } };

    ghost invariant = { λ t. AreTerms (record { plan = t.plan.now; files = texts_of t.files.now; balances = unwrap_or t.balances []; cutoff = t.cutoff; order = t.order }) × AreFilesOf t.plan.now.names (texts_of t.files.now) t.validated };
}

impl<'a> Terms<'a> {
    /// Creates the terms of a plan, the providers' files in order, an optional file of balances, and an optional cutoff.
    /// Without balances every accumulator begins at zero. Claims of different files are accepted in any order.
    pub fn new(
        alloc: Global,
        plan: &'a Plan,
        files: &'a [&'a [u8]],
        balances: Option<&[u8]>,
        cutoff: Option<u64>,
    ) -> Result<Terms<'a>, TermsFault>
        ensures ok { IfOk result
            (AreTermsOf plan.now (texts_of files.now) (text_in balances.entry) cutoff) }
        ensures any_order { IfOk result (λ terms. terms.order ≡ Any) }
        ensures fault { IfErr result
            (HasTermsFault plan.now (texts_of files.now) (text_in balances.entry)) }
    {
        Terms::with_order(alloc, plan, files, balances, cutoff, Order::Any)
    }

    /// Creates the terms as `new` does. Where `order` is not `Any`, claims are accepted in that order.
    pub fn with_order(
        alloc: Global,
        plan: &'a Plan,
        files: &'a [&'a [u8]],
        balances: Option<&[u8]>,
        cutoff: Option<u64>,
        order: Order,
    ) -> Result<Terms<'a>, TermsFault>
        ensures ok { IfOk result
            (AreTermsOf plan.now (texts_of files.now) (text_in balances.entry) cutoff) }
        ensures order { IfOk result (λ terms. terms.order ≡ order) }
        ensures fault { IfErr result
            (HasTermsFault plan.now (texts_of files.now) (text_in balances.entry)) }
    {
        if plan.roles().is_none() {
            return Err(TermsFault::NoRoles);
        }
        if files.is_empty() || files.len() > FILES_LIMIT {
            return Err(TermsFault::Files);
        }
        Ok(Terms {
            plan,
            files,
            validated: validate_files(alloc, plan, files)?,
            balances: balances_of(alloc, plan, balances)?,
            cutoff,
            order,
        })
    }

    /// Returns the plan, whose rules decide the claims.
    pub fn plan(&self) -> &'a Plan
        ensures plan { result.now ≡ self.now.plan }
        ensures terms { AreTerms self.now }
    {
        self.plan
    }

    /// Returns the texts of the providers' files, by provider.
    pub fn files(&self) -> &'a [&'a [u8]]
        ensures files { texts_of result.now ≡ self.now.files }
        ensures terms { AreTerms self.now }
    {
        self.files
    }

    /// Returns a reader at the first row of a provider's file. Providers count from 1.
    pub fn rows(&self, alloc: Global, provider: usize) -> Result<Rows<'a>, AllocError>
        requires least { 1 ≤ provider }
        requires most { provider ≤ length self.now.files }
        ensures start { IfOk result
            (IsAtStart self.now.plan.names (get_or self.now.files (provider - 1) [])) }
        ensures apart { IfOk result (λ rows. LieApart rows.layout.columns) }
        ensures rows { IfOk result
            (λ rows. (all : List AnyRow) → AreRowsLeft rows all
            → AreRowsOf self.now.plan.names (get_or self.now.files (provider - 1) []) all) }
    {
        self.validated.as_slice()[provider - 1].rows(alloc)
    }

    /// Returns the maximum number of claims that are accepted, if there is one.
    pub fn cutoff(&self) -> Option<u64>
        ensures { result ≡ self.now.cutoff }
    {
        self.cutoff
    }

    /// Returns the order in which claims are accepted.
    pub fn order(&self) -> Order
        ensures { result ≡ self.now.order }
    {
        self.order
    }

    /// Returns the opening accumulators of a claim's account. The member's own are zero where the balances have no entry for
    /// the member in the claim's year.
    pub fn opening(&self, claim: &Claim) -> Acc
        ensures { result ≡ opening (accounts_of self.now.balances)
            (account_of self.now.plan claim.now) }
    {
        match &self.balances {
            Some(balances) => balances.of(
                claim.family().as_str(),
                claim.member.as_str(),
                account_year(self.plan, claim),
            ),
            None => Acc::zero(),
        }
    }

    /// Returns the entry of each account that has an opening balance.
    pub fn opening_entries(&self, alloc: Global) -> Result<Vec<OpeningEntry>, AllocError>
        ensures listed { IfOk result (λ entries. map opening_of entries.items
            ≡ accounts_of self.now.balances) }
        ensures once { AreOnce self.now.balances }
    {
        match &self.balances {
            Some(balances) => balances.entries(alloc),
            None => Ok(Vec::new(alloc)),
        }
    }
}

// Returns the claim files of these texts, or the first text that is not a valid claim file under the plan.
fn validate_files<'t>(
    alloc: Global,
    plan: &Plan,
    files: &[&'t [u8]],
) -> Result<Sequence<ClaimFile<'t>>, TermsFault>
    ensures ok { IfOk result (AreFilesOf plan.now.names (texts_of files.now)) }
    ensures fault { IfErr result (IsFaultOfFiles plan.now.names (texts_of files.now)) }
{
    let mut validated = Sequence::new(alloc);
    for place in 0..files.len() {
        validated.push(validate_file(alloc, plan, place + 1, files[place])?)?;
    }
    Ok(validated)
}

// A failed allocation is a fault of the run and not of this file.
fn validate_file<'t>(
    alloc: Global,
    plan: &Plan,
    provider: usize,
    text: &'t [u8],
) -> Result<ClaimFile<'t>, TermsFault>
    ensures ok { IfOk result (IsFileOf plan.now.names text.now) }
    ensures fault { IfErr result (IsFaultOfFile plan.now.names provider text.now) }
{
    match ClaimFile::new(alloc, plan, text) {
        Ok(file) => Ok(file),
        Err(FileFault::OutOfMemory) => Err(TermsFault::OutOfMemory),
        Err(fault) => Err(TermsFault::File { provider, fault }),
    }
}

fn balances_of(
    alloc: Global,
    plan: &Plan,
    text: Option<&[u8]>,
) -> Result<Option<Balances>, TermsFault>
    ensures ok { IfOk result
        (λ balances. AreBalancesOf plan.now (text_in text.entry) (unwrap_or balances [])) }
    ensures fault { IfErr result (IsFaultOfBalances plan.now (text_in text.entry)) }
{
    let Some(given) = text else {
        return Ok(None);
    };
    match read_balances(alloc, plan, given) {
        Ok(balances) => Ok(Some(balances)),
        Err(BalanceFault::OutOfMemory) => Err(TermsFault::OutOfMemory),
        Err(fault) => Err(TermsFault::Balances(fault)),
    }
}
