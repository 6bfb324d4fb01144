//! The pools of which an account has shares.

ghost use Rattle.std.specs.Prelude.{◌≡◌, IfOk, OnOk};
ghost use Rattle.ledger_types.specs.declared.key.LedgerKey.TheVariants.{TrustLine};
ghost use Rattle.trade_cross.specs.legal_rules.Holdings.{IsKeyed};
ghost use Rattle.pool_shares.specs.AccountPools as spec;
ghost use Rattle.pool_shares.specs.Held as held;

use entry_map::{Base, Entries, greater_account};
use ledger_types::{AccountId, Hash, LedgerEntry, LedgerEntryBody, LedgerKey, TrustLineAsset};
use std::alloc::{AllocError, Global};

/// What the line is in that an entry is, if it is one of this account.
fn line_held(entry: LedgerEntry, id: &AccountId) -> Option<TrustLineAsset>
    ensures { result ≡ held.line_held id.now entry.body }
{
    match &entry.body {
        LedgerEntryBody::TrustLine(line) if line.account_id.0 == id.0 => Some(line.asset),
        _ => None,
    }
}

/// The key of a line.
fn line_key(account_id: AccountId, asset: TrustLineAsset) -> LedgerKey
    ensures { result ≡ TrustLine account_id asset }
{
    LedgerKey::TrustLine { account_id, asset }
}

/// A key behind those of all lines of an account, with few other keys between.
fn last_key(id: &AccountId) -> LedgerKey
    ensures { held.AreLinesUpTo id.now result }
{
    match greater_account(id) {
        Some(other) => line_key(other, TrustLineAsset::Native),
        None => LedgerKey::Offer {
            seller_id: AccountId([0; 32]),
            offer_id: 0,
        },
    }
}

/// What the first line of an account after another one is in.
fn next_line<B: Base>(
    entries: &Entries<'_, B>,
    id: &AccountId,
    after: &TrustLineAsset,
) -> Result<Option<TrustLineAsset>, AllocError>
    ensures { IfOk result (held.IsNextLine entries.now.current id.now after.now) }
{
    match entries.next_up_to(&line_key(*id, *after), &last_key(id))? {
        None => Ok(None),
        Some(entry) => Ok(line_held(entry, id)),
    }
}

/// A line's asset ahead of each pool share: the greatest one that isn't.
fn ahead_of_shares() -> TrustLineAsset
    ensures { held.IsAheadOfShares result }
{
    TrustLineAsset::Alphanum12 {
        code: [u8::MAX; 12],
        issuer: AccountId([u8::MAX; 32]),
    }
}

/// Appends the pool in whose shares a line is, if it is in such.
fn push_pool(pools: &mut Vec<Hash>, asset: &TrustLineAsset) -> Result<(), AllocError>
    ensures { OnOk result (pools.new.items ≡ held.with_pool_of asset.now pools.old.items) }
{
    if let TrustLineAsset::PoolShare(pool) = asset {
        pools.push(*pool)?;
    }
    Ok(())
}

/// The pools of which an account has lines, in rising order of their ids. It costs what they are, and not what all
/// entries are.
pub fn pools_held_by<B: Base>(
    alloc: Global,
    entries: &Entries<'_, B>,
    id: &AccountId,
) -> Result<Vec<Hash>, AllocError>
    ensures { IsKeyed entries.now.current
        → IfOk result (λ pools. pools.items ≡ spec.pools_held_by id.now entries.now.current) }
{
    let mut pools = Vec::new(alloc);
    let mut last = ahead_of_shares();
    while let Some(asset) = next_line(entries, id, &last)? {
        push_pool(&mut pools, &asset)?;
        last = asset;
    }
    Ok(pools)
}
