//! The aggregates of accounts, of lines and of pools: what each states, and what all entries count for it. What an
//! account counts for itself, its signers and its own reserves, is looked at in the account. What an entry counts for
//! others is in a tally.

ghost use Rattle.std.specs.Prelude.{◌≡◌, ◌+◌, ◌+ℤ◌, ◌↔◌, ℤ, pos, count_by, IsTrue, OnOk};
ghost use Rattle.ledger_types.specs.declared.entry.LedgerEntryBody.TheVariants as body;
ghost use Rattle.close_rules.specs.sponsor_laws.Sums.{is_there};
ghost use Rattle.close_rules.specs.legal_rules.Reserves.{for_each, signer_sponsors_in, sponsored_in_entry};
ghost use Rattle.close_rules.specs.legal_rules.Trades.{sells, buys};
ghost use Rattle.close_rules.specs.legal_rules.Aggregates.{stated};
ghost use Rattle.close_rules.specs.legal_rules.Legal.{pools_in};
ghost use Rattle.image_rules.specs.Terms.{AreTerms};
ghost use Rattle.image_rules.specs.Counts.{Adds, IsCountOf};
ghost use Rattle.image_rules.specs.Aggregates.{kind_of, own_count, payers_pay, owner_is_paid, counted_else};
ghost use Rattle.image_rules.specs.Aggregates.{Agrees};

use crate::counts::{Tally, add_at, add_for, count_of};
use crate::holders::holder;
use crate::offers::{sheep_of, wheat_of};
use crate::parts::{multiplicity, other_owner, sponsored_signers, sponsorship, subentries_in};
use crate::shares::{add_share_line, add_shares, add_uses};
use entry_slots::{
    account_liabilities, line_liabilities, num_sponsored, num_sponsoring, sponsor_in, use_count,
};
use ledger_types::{
    AccountEntry, AccountId, LedgerEntry, LedgerEntryBody, LedgerKey, LiquidityPoolEntry,
    TrustLineEntry,
};
use level_entries::PlacedEntries;
use std::alloc::AllocError;

/// A number that accounts, lines or pools state, and that all entries together count.
#[derive(Clone, Copy)]
pub enum Aggregate {
    /// How many subentries an account has.
    Subentries,
    /// How many reserves an account pays as a sponsor.
    Sponsoring,
    /// How many reserves of an account others pay.
    Sponsored,
    /// How much of what an account or a line holds offers may have to give.
    Selling,
    /// How much offers may put into an account or a line.
    Buying,
    /// How many shares of a pool there are.
    Shares,
    /// How many lines there are in shares of a pool.
    ShareLines,
    /// How many lines of pool shares need a line.
    Uses,
}

/// Counts one for each account that is named.
fn add_each(tally: &mut Tally, ids: &[Option<AccountId>]) -> Result<(), AllocError>
    ensures { OnOk result (Adds tally.old tally.new (λ k. for_each k ids.now)) }
{
    for id in ids {
        add_for(tally, *id, 1)?;
    }
    Ok(())
}

/// Counts one for each sponsor of a signer in an entry.
fn add_signers(tally: &mut Tally, body: &LedgerEntryBody) -> Result<(), AllocError>
    ensures { OnOk result (Adds tally.old tally.new (λ k. for_each k (signer_sponsors_in body.now))) }
{
    match body {
        LedgerEntryBody::Account(account) => match sponsorship(account) {
            None => Ok(()),
            Some(sponsorship) => add_each(tally, sponsorship.signer_sponsoring_ids.as_slice()),
        },
        _ => Ok(()),
    }
}

/// Counts what the sponsors in an entry pay.
pub fn add_payers(tally: &mut Tally, entry: &LedgerEntry) -> Result<(), AllocError>
    ensures { OnOk result (Adds tally.old tally.new (λ k. payers_pay k entry.now)) }
{
    add_for(tally, sponsor_in(&entry.ext), multiplicity(&entry.body))?;
    add_signers(tally, &entry.body)
}

/// How many reserves of an entry itself somebody else pays.
fn paid_for(entry: &LedgerEntry) -> u64
    ensures { result + count_by is_there (signer_sponsors_in entry.now.body) ≡ sponsored_in_entry entry.now }
{
    match sponsor_in(&entry.ext) {
        None => 0,
        Some(_) => multiplicity(&entry.body),
    }
}

/// Counts the reserves of an entry's owner that others pay, unless the entry is the owner itself.
fn add_paid_for(tally: &mut Tally, entry: &LedgerEntry) -> Result<(), AllocError>
    ensures { OnOk result (Adds tally.old tally.new (λ k. owner_is_paid k entry.now)) }
{
    let owner = other_owner(&entry.body);
    add_for(tally, owner, paid_for(entry))?;
    add_for(tally, owner, sponsored_signers(&entry.body))
}

/// Counts what an offer may have to give, where its seller has it.
fn add_sold(tally: &mut Tally, body: &LedgerEntryBody) -> Result<(), AllocError>
    requires { AreTerms body.now }
    ensures { OnOk result (Adds tally.old tally.new (λ k. sells k body.now)) }
{
    match body {
        LedgerEntryBody::Offer(offer) => {
            let named = holder(&offer.seller_id, &offer.selling);
            add_at(tally, named, wheat_of(offer))
        }
        _ => Ok(()),
    }
}

/// Counts what an offer may take in, where its seller will have it.
fn add_bought(tally: &mut Tally, body: &LedgerEntryBody) -> Result<(), AllocError>
    requires { AreTerms body.now }
    ensures { OnOk result (Adds tally.old tally.new (λ k. buys k body.now)) }
{
    match body {
        LedgerEntryBody::Offer(offer) => {
            let named = holder(&offer.seller_id, &offer.buying);
            add_at(tally, named, sheep_of(offer))
        }
        _ => Ok(()),
    }
}

/// Counts what an entry counts for others in an aggregate.
pub fn add_entry(
    tally: &mut Tally,
    aggregate: Aggregate,
    entries: &PlacedEntries<'_>,
    entry: &LedgerEntry,
) -> Result<(), AllocError>
    requires { AreTerms entry.now.body }
    ensures { OnOk result (Adds tally.old tally.new (λ k. counted_else (pools_in entries.now) aggregate k entry.now)) }
{
    match aggregate {
        Aggregate::Subentries => {
            add_for(tally, other_owner(&entry.body), subentries_in(&entry.body))
        }
        Aggregate::Sponsoring => add_payers(tally, entry),
        Aggregate::Sponsored => add_paid_for(tally, entry),
        Aggregate::Selling => add_sold(tally, &entry.body),
        Aggregate::Buying => add_bought(tally, &entry.body),
        Aggregate::Shares => add_shares(tally, &entry.body),
        Aggregate::ShareLines => add_share_line(tally, &entry.body),
        Aggregate::Uses => add_uses(tally, entries, &entry.body),
    }
}

/// What an account states in an aggregate.
fn stated_in(aggregate: Aggregate, account: &AccountEntry) -> i64
    ensures { stated (kind_of aggregate) (body.Account account.now) ≡ result }
{
    match aggregate {
        Aggregate::Subentries => i64::from(account.num_sub_entries),
        Aggregate::Sponsoring => i64::from(num_sponsoring(account)),
        Aggregate::Sponsored => i64::from(num_sponsored(account)),
        Aggregate::Selling => account_liabilities(account).selling,
        Aggregate::Buying => account_liabilities(account).buying,
        Aggregate::Shares => 0,
        Aggregate::ShareLines => 0,
        Aggregate::Uses => 0,
    }
}

/// What a line states in an aggregate.
fn stated_by_line(aggregate: Aggregate, line: &TrustLineEntry) -> i64
    ensures { stated (kind_of aggregate) (body.TrustLine line.now) ≡ result }
{
    match aggregate {
        Aggregate::Subentries => 0,
        Aggregate::Sponsoring => 0,
        Aggregate::Sponsored => 0,
        Aggregate::Selling => line_liabilities(line).selling,
        Aggregate::Buying => line_liabilities(line).buying,
        Aggregate::Shares => 0,
        Aggregate::ShareLines => 0,
        Aggregate::Uses => i64::from(use_count(line)),
    }
}

/// What a pool states in an aggregate.
fn stated_by_pool(aggregate: Aggregate, pool: &LiquidityPoolEntry) -> i64
    ensures { stated (kind_of aggregate) (body.LiquidityPool pool.now) ≡ result }
{
    match aggregate {
        Aggregate::Shares => pool.total_pool_shares,
        Aggregate::ShareLines => pool.pool_shares_trust_line_count,
        _ => 0,
    }
}

/// A count and what an account counts for itself in an aggregate.
fn with_own(count: u64, aggregate: Aggregate, entry: &LedgerEntry) -> u64
    ensures { (sum : ℤ) → IsCountOf count sum → IsCountOf result (sum +ℤ pos (own_count aggregate entry.now)) }
{
    match aggregate {
        Aggregate::Subentries => count.saturating_add(subentries_in(&entry.body)),
        Aggregate::Sponsoring => count,
        Aggregate::Sponsored => count
            .saturating_add(paid_for(entry))
            .saturating_add(sponsored_signers(&entry.body)),
        _ => count,
    }
}

/// Whether a number is that of a count. A count that stopped at the greatest number of 64 bits is that of none.
fn is_count(count: u64, number: i64) -> bool
    ensures { (sum : ℤ) → IsCountOf count sum → (IsTrue result ↔ number ≡ sum) }
{
    i128::from(count) == i128::from(number)
}

/// Whether an account, a line or a pool states what is counted for it. What is none of them states nothing.
pub fn agrees(tally: &Tally, aggregate: Aggregate, entry: &LedgerEntry) -> bool
    ensures { Agrees tally.now aggregate entry.now result }
{
    match &entry.body {
        LedgerEntryBody::Account(account) => {
            let key = LedgerKey::Account {
                account_id: account.account_id,
            };
            let count = with_own(count_of(tally, &key), aggregate, entry);
            is_count(count, stated_in(aggregate, account))
        }
        LedgerEntryBody::TrustLine(line) => {
            let key = LedgerKey::TrustLine {
                account_id: line.account_id,
                asset: line.asset,
            };
            is_count(count_of(tally, &key), stated_by_line(aggregate, line))
        }
        LedgerEntryBody::LiquidityPool(pool) => {
            let key = LedgerKey::LiquidityPool {
                pool_id: pool.pool_id,
            };
            is_count(count_of(tally, &key), stated_by_pool(aggregate, pool))
        }
        _ => true,
    }
}
