//! What lines of pool shares count for their pools, and for the lines that their holders need (CAP-0038).

ghost use Rattle.std.specs.Prelude.{◌≡◌, pos, ◌≤ℤ◌, Some, OnOk};
ghost use Rattle.close_rules.specs.legal_rules.PoolShares as spec;
ghost use Rattle.close_rules.specs.legal_rules.Legal.{pools_in};
ghost use Rattle.image_rules.specs.Terms.{AreTerms};
ghost use Rattle.image_rules.specs.Counts.{Adds};

use crate::counts::{Tally, add_at};
use crate::existing_pools::pool_params;
use crate::holders::needed_line;
use ledger_types::{
    AccountId, LedgerEntryBody, LedgerKey, PoolParams, TrustLineAsset, TrustLineEntry,
};
use level_entries::PlacedEntries;
use std::alloc::AllocError;

/// The pool whose shares a line is in.
fn pool_named(asset: &TrustLineAsset) -> Option<LedgerKey>
    ensures { result ≡ spec.pool_named asset.now }
{
    match *asset {
        TrustLineAsset::PoolShare(pool_id) => Some(LedgerKey::LiquidityPool { pool_id }),
        _ => None,
    }
}

/// How much a line has.
fn balance_of(line: &TrustLineEntry) -> u64
    requires { pos 0 ≤ℤ line.now.balance }
    ensures { line.now.balance ≡ pos result }
{
    line.balance.unsigned_abs()
}

/// Counts the shares of a line for their pool.
pub fn add_shares(tally: &mut Tally, body: &LedgerEntryBody) -> Result<(), AllocError>
    requires { AreTerms body.now }
    ensures { OnOk result (Adds tally.old tally.new (λ k. spec.shares_in k body.now)) }
{
    match body {
        LedgerEntryBody::TrustLine(line) => {
            let named = pool_named(&line.asset);
            add_at(tally, named, balance_of(line))
        }
        _ => Ok(()),
    }
}

/// Counts a line of shares for their pool.
pub fn add_share_line(tally: &mut Tally, body: &LedgerEntryBody) -> Result<(), AllocError>
    ensures { OnOk result (Adds tally.old tally.new (λ k. spec.share_lines k body.now)) }
{
    match body {
        LedgerEntryBody::TrustLine(line) => {
            let named = pool_named(&line.asset);
            add_at(tally, named, 1)
        }
        _ => Ok(()),
    }
}

/// Counts one for each of the lines that an account needs for its shares of a pool.
fn add_uses_of(tally: &mut Tally, id: &AccountId, params: &PoolParams) -> Result<(), AllocError>
    ensures { OnOk result (Adds tally.old tally.new (λ k. spec.uses_of k id.now (Some params.now))) }
{
    add_at(tally, needed_line(id, &params.asset_a), 1)?;
    add_at(tally, needed_line(id, &params.asset_b), 1)
}

/// Counts one for each of the lines that an account needs for its shares of a pool, where the pool exists.
fn add_uses_in(
    tally: &mut Tally,
    id: &AccountId,
    params: &Option<PoolParams>,
) -> Result<(), AllocError>
    ensures { OnOk result (Adds tally.old tally.new (λ k. spec.uses_of k id.now params.now)) }
{
    match params {
        None => Ok(()),
        Some(params) => add_uses_of(tally, id, params),
    }
}

/// Counts one for each of the lines that an account needs for its line, if that is one of pool shares.
fn add_uses_by(
    tally: &mut Tally,
    entries: &PlacedEntries<'_>,
    id: &AccountId,
    asset: &TrustLineAsset,
) -> Result<(), AllocError>
    ensures { OnOk result (Adds tally.old tally.new (λ k. spec.uses_by (pools_in entries.now) k id.now asset.now)) }
{
    match *asset {
        TrustLineAsset::PoolShare(pool_id) => {
            let params = pool_params(entries, pool_id)?;
            add_uses_in(tally, id, &params)
        }
        _ => Ok(()),
    }
}

/// Counts one for each of the lines that the holder of pool shares needs.
pub fn add_uses(
    tally: &mut Tally,
    entries: &PlacedEntries<'_>,
    body: &LedgerEntryBody,
) -> Result<(), AllocError>
    ensures { OnOk result (Adds tally.old tally.new (λ k. spec.uses (pools_in entries.now) k body.now)) }
{
    match body {
        LedgerEntryBody::TrustLine(line) => {
            add_uses_by(tally, entries, &line.account_id, &line.asset)
        }
        _ => Ok(()),
    }
}
