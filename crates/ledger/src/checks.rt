// The checks of each call, in their order. A check that passes hands on the chain that it gathered.
ghost use Rattle.std.specs.Prelude.{◌≡◌, ◌<◌, ◌≤◌, not, ◌&&◌, length, IfOk, None, OnOk};
ghost use Rattle.std.specs.Option.{option_map};
ghost use Rattle.std.specs.Result.{result_err};
ghost use Rattle.tables.specs.Tables.{bank_at, grant_at, chain, under};
ghost use Rattle.tables.specs.Rows.{lost_bank, lost_grant};
ghost use Rattle.lists.specs.Listed.{listed};
ghost use Rattle.rules.specs.Rules.{misfit, open_refusal, buy_refusal, back_refusal, closing_refusal, reclaim_refusal, stock_refusal};
ghost use Rattle.ledger.specs.Posts.{lent, viewed, in_tables, Marked};

use crate::branches::{Branch, Marks, marks_under};
use crate::chains::{Chain, DEPTH, above, chain_of, is_live, nearest};
use crate::ledger::{Ledger, View};
use kind::Kind;
use tables::{Bank, Grant, Refusal, Table};

// Does a live grant stand in the row? As `is_live` of banks: a trait for one mark would be longer.
fn is_granted<K: Kind>(grants: &[Grant<K>], row: u32) -> bool
    ensures { result ≡ (grant_at K.Kind.answers.empty grants.now row).live }
{
    grants.get(row as usize).is_some_and(|grant| grant.live)
}

// Is the grant live, in a bank that is not?
fn is_stray<K: Kind>(banks: &[Bank<K>], grant: &Grant<K>) -> bool
    ensures { result ≡ (grant.now.live && not (bank_at K.Kind.answers.empty banks.now grant.now.bank).live) }
{
    grant.live && !is_live(banks, grant.bank)
}

// The bank of the lowest live grant whose bank has no whole chain, where each live bank has one.
fn lost_grant<K: Kind>(banks: &[Bank<K>], grants: &[Grant<K>]) -> Option<u32>
    requires { lost_bank K.Kind.answers banks.now ≡ None }
    ensures { result ≡ option_map (λ r. (grant_at K.Kind.answers.empty grants.now r).bank) (lost_grant K.Kind.answers banks.now grants.now) }
{
    for grant in grants {
        if is_stray(banks, grant) {
            return Some(grant.bank);
        }
    }
    None
}

// Is the bank live, with no more in use than its limit holds?
fn is_sound<K: Kind>(bank: &Bank<K>) -> bool
    ensures { result ≡ (bank.now.live && K.Kind.answers.holds bank.now.limit bank.now.used) }
{
    bank.live && bank.limit.holds(&bank.used)
}

// The tables have 1 to 64 banks and 1 to 1,024 grants.
fn check_lengths<K: Kind>(banks: &[Bank<K>], grants: &[Grant<K>]) -> Result<(), Refusal>
    ensures { result_err result ≡ misfit K.Kind.answers (in_tables banks.now grants.now) }
{
    if !(1..=64).contains(&banks.len()) {
        return Err(Refusal::TableLength(Table::Banks));
    }
    if !(1..=1024).contains(&grants.len()) {
        return Err(Refusal::TableLength(Table::Grants));
    }
    Ok(())
}

impl<K: Kind> View<'_, K> {
    pub(crate) fn check_stock(&self) -> Result<(), Refusal>
        ensures { result_err result ≡ stock_refusal K.Kind.answers (viewed self.now) }
    {
        check_lengths(self.banks, self.grants)?;
        if !is_sound(&self.banks[0]) {
            return Err(Refusal::OutOfOrder(0));
        }
        Ok(())
    }
}

impl<K: Kind> Ledger<'_, K> {
    pub(crate) fn check_set_up(&self) -> Result<(), Refusal>
        ensures { result_err result ≡ misfit K.Kind.answers (lent self.now) }
    {
        check_lengths(self.banks, self.grants)
    }

    pub(crate) fn check_open(&self, parent: u32, child: u32) -> Result<(), Refusal>
        ensures due { result_err result ≡ open_refusal K.Kind.answers (lent self.now) parent child }
        ensures within { OnOk result (child < length self.now.banks.now) }
    {
        check_lengths(self.banks, self.grants)?;
        if parent as usize >= self.banks.len() {
            return Err(Refusal::NoSuchBank(parent));
        }
        if child as usize >= self.banks.len() {
            return Err(Refusal::NoSuchBank(child));
        }
        if !is_live(self.banks, parent) {
            return Err(Refusal::BankFree(parent));
        }
        let Some(chain) = chain_of(self.banks, parent) else {
            return Err(Refusal::OutOfOrder(parent));
        };
        if chain.as_slice().len() >= DEPTH {
            return Err(Refusal::ChainFull(parent));
        }
        if is_live(self.banks, child) {
            return Err(Refusal::RowLive(child));
        }
        Ok(())
    }

    pub(crate) fn check_buy(&self, bank: u32, row: u32, amount: &K) -> Result<Chain, Refusal>
        ensures due { result_err result ≡ buy_refusal K.Kind.answers (lent self.now) bank row amount.now }
        ensures rows { IfOk result (λ c. listed c ≡ chain K.Kind.answers.empty self.now.banks.now bank) }
        ensures within { OnOk result ((row < length self.now.grants.now) × (self.now.head.now.last_serial < 4000000000)) }
    {
        check_lengths(self.banks, self.grants)?;
        if bank as usize >= self.banks.len() {
            return Err(Refusal::NoSuchBank(bank));
        }
        if row as usize >= self.grants.len() {
            return Err(Refusal::NoSuchGrant(row));
        }
        if amount.is_empty() {
            return Err(Refusal::EmptyAmount(bank));
        }
        if !is_live(self.banks, bank) {
            return Err(Refusal::BankFree(bank));
        }
        if is_granted(self.grants, row) {
            return Err(Refusal::RowLive(row));
        }
        if self.head.last_serial >= 4_000_000_000 {
            return Err(Refusal::SerialsSpent);
        }
        let Some(chain) = chain_of(self.banks, bank) else {
            return Err(Refusal::OutOfOrder(bank));
        };
        match nearest(self.banks, chain.as_slice(), |at| at.is_over(amount)) {
            Some(over) => Err(Refusal::OverLimit(over)),
            None => Ok(chain),
        }
    }

    pub(crate) fn check_back(&self, row: u32, serial: u32) -> Result<Chain, Refusal>
        ensures due { result_err result ≡ back_refusal K.Kind.answers (lent self.now) row serial }
        ensures rows { IfOk result (λ c. listed c ≡ chain K.Kind.answers.empty self.now.banks.now (grant_at K.Kind.answers.empty self.now.grants.now row).bank) }
        ensures within { OnOk result (row < length self.now.grants.now) }
    {
        check_lengths(self.banks, self.grants)?;
        if row as usize >= self.grants.len() {
            return Err(Refusal::NoSuchGrant(row));
        }
        let grants = &*self.grants;
        let grant = &grants[row as usize];
        if !grant.live || grant.serial != serial {
            return Err(Refusal::NotThisGrant(row));
        }
        let Some(chain) = chain_of(self.banks, grant.bank) else {
            return Err(Refusal::OutOfOrder(grant.bank));
        };
        match nearest(
            self.banks,
            chain.as_slice(),
            |at| at.is_short(&grant.amount),
        ) {
            Some(short) => Err(Refusal::OutOfOrder(short)),
            None => Ok(chain),
        }
    }

    pub(crate) fn check_closing(&self, bank: u32) -> Result<Marks, Refusal>
        ensures due { result_err result ≡ closing_refusal K.Kind.answers (lent self.now) bank }
        ensures marks { IfOk result (λ m. Marked m (under K.Kind.answers.empty self.now.banks.now bank)) }
        ensures within { OnOk result ((bank < length self.now.banks.now) × (length self.now.grants.now ≤ 1024)) }
    {
        check_lengths(self.banks, self.grants)?;
        if bank as usize >= self.banks.len() {
            return Err(Refusal::NoSuchBank(bank));
        }
        if bank == 0 {
            return Err(Refusal::RootBank);
        }
        if !is_live(self.banks, bank) {
            return Err(Refusal::BankFree(bank));
        }
        let marks = marks_under(self.banks, bank)?;
        match lost_grant(self.banks, self.grants) {
            Some(lost) => Err(Refusal::OutOfOrder(lost)),
            None => Ok(marks),
        }
    }

    pub(crate) fn check_reclaim(&self, bank: u32) -> Result<Branch, Refusal>
        ensures due { result_err result ≡ reclaim_refusal K.Kind.answers (lent self.now) bank }
        ensures rows { IfOk result (λ b. listed b.chain ≡ chain K.Kind.answers.empty self.now.banks.now bank) }
        ensures marks { IfOk result (λ b. Marked b.marks (under K.Kind.answers.empty self.now.banks.now bank)) }
        ensures within { OnOk result ((bank < length self.now.banks.now) × (length self.now.grants.now ≤ 1024)) }
    {
        let marks = self.check_closing(bank)?;
        let chain = chain_of(self.banks, bank).unwrap_or(Chain::new(0));
        let banks = &*self.banks;
        let used = &banks[bank as usize].used;
        match nearest(banks, above(&chain), |at| at.is_short(used)) {
            Some(short) => Err(Refusal::OutOfOrder(short)),
            None => Ok(Branch { chain, marks }),
        }
    }
}
