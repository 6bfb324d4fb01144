//! Lines of pool shares that come and go, with the pools that have no line yet or any more.

ghost use Rattle.std.specs.Prelude.{◌≡◌, ◌+ℤ◌, neg_ℤ, pos, Some, OnOk};
ghost use Rattle.entry_map.specs.Undo.{with_current};
ghost use Rattle.entry_slots.specs.LineExtensions as extensions;
ghost use Rattle.entry_slots.specs.Lines as lines;
ghost use Rattle.entry_slots.specs.Pools as pools;
ghost use Rattle.trade_cross.specs.legal_rules.ShareLaws as laws;
ghost use Rattle.trade_cross.specs.Locations.{DoesFit, location_key};
ghost use Rattle.pool_shares.specs.Fits as fits;
ghost use Rattle.pool_shares.specs.ShareLines as spec;

use crate::withdrawing::risen;
use entry_map::{Base, Entries};
use entry_slots::{
    LineSlot, PoolSlot, erase_pool, load_line, load_pool, set_use_count, store_line, store_pool,
    use_count,
};
use ledger_types::{
    AccountId, Asset, Hash, LedgerKey, LiquidityPoolEntry, PoolParams, TrustLineAsset,
};
use sponsor_rules::{Ctx, remove_entry};
use std::alloc::AllocError;
use trade_cross::{Location, location_of};

/// A pool of which nobody has shares.
fn empty_pool(pool_id: &Hash, params: &PoolParams) -> LiquidityPoolEntry
    ensures { result ≡ spec.empty_pool pool_id.now params.now }
{
    LiquidityPoolEntry {
        pool_id: *pool_id,
        params: *params,
        reserve_a: 0,
        reserve_b: 0,
        total_pool_shares: 0,
        pool_shares_trust_line_count: 0,
    }
}

/// Makes a pool in the ledger of this number, where it doesn't exist.
pub fn put_pool<B: Base>(
    entries: &mut Entries<'_, B>,
    seq: u32,
    pool_id: &Hash,
    params: &PoolParams,
) -> Result<(), AllocError>
    ensures { OnOk result (
        entries.new ≡
        with_current entries.old (spec.map_with_pool seq pool_id.now params.now entries.old.current)) }
{
    if load_pool(entries, pool_id)?.is_some() {
        return Ok(());
    }
    let pool = empty_pool(pool_id, params);
    store_pool(
        entries,
        PoolSlot {
            last_modified_ledger_seq: seq,
            pool,
            ext: None,
        },
    )
}

/// A count of uses that rises by n, which may be below 0.
fn counted(count: i32, n: i32) -> i32
    requires { fits.DoesCountFit count n }
    ensures { result ≡ count +ℤ n }
{
    count + n
}

/// Stores the line that was loaded, which is used n times more.
#[tactic(auto, unfolding(entry_slots::specs::Lines::with_line))]
fn store_uses<B: Base>(
    entries: &mut Entries<'_, B>,
    id: &AccountId,
    held: &TrustLineAsset,
    slot: LineSlot,
    n: i32,
) -> Result<(), AllocError>
    requires loaded { Some slot ≡ lines.line_slot_at entries.old.current id.now held.now }
    requires fits { fits.DoesCountFit (extensions.use_count slot.line) n }
    ensures { OnOk result (
        entries.new ≡
        with_current entries.old (lines.with_line entries.old.current id.now held.now (laws.with_uses n))) }
{
    let mut slot = slot;
    let count = counted(use_count(&slot.line), n);
    set_use_count(&mut slot.line, count);
    store_line(entries, slot)
}

/// Counts n uses more of an account's line, if it exists.
#[tactic(auto, unfolding(entry_slots::specs::Lines::with_line))]
fn count_line_uses<B: Base>(
    entries: &mut Entries<'_, B>,
    id: &AccountId,
    held: &TrustLineAsset,
    n: i32,
) -> Result<(), AllocError>
    requires { fits.DoUsesFitAt n entries.old.current (fits.line_key id.now held.now) }
    ensures { OnOk result (
        entries.new ≡
        with_current entries.old (lines.with_line entries.old.current id.now held.now (laws.with_uses n))) }
{
    let Some(slot) = load_line(entries, id, held)? else {
        return Ok(());
    };
    store_uses(entries, id, held, slot, n)
}

/// Counts n uses more of the line in which an account has an asset. Its own entry counts none.
fn count_uses_at<B: Base>(
    entries: &mut Entries<'_, B>,
    id: &AccountId,
    location: Location,
    n: i32,
) -> Result<(), AllocError>
    requires { fits.DoUsesFitAt n entries.old.current (location_key id.now location) }
    ensures { OnOk result (
        entries.new ≡
        with_current entries.old (laws.map_with_uses_at n (location_key id.now location) entries.old.current)) }
{
    match location {
        Location::Line(held) => count_line_uses(entries, id, &held, n),
        Location::Account | Location::Nowhere => Ok(()),
    }
}

/// Counts n uses more of the line that an account needs for an asset, if it needs one.
#[tactic(auto, using(crate::proofs::Uses::uses_by_holder, crate::proofs::Uses::fits_by_holder))]
fn count_uses<B: Base>(
    entries: &mut Entries<'_, B>,
    id: &AccountId,
    asset: &Asset,
    n: i32,
) -> Result<(), AllocError>
    requires { fits.DoUsesFit n id.now asset.now entries.old.current }
    ensures { OnOk result (
        entries.new ≡
        with_current entries.old (laws.map_with_uses n id.now asset.now entries.old.current)) }
{
    count_uses_at(entries, id, location_of(id, asset), n)
}

/// Stores the pool that was loaded, with n lines more.
#[tactic(auto, unfolding(entry_slots::specs::Pools::with_pool))]
fn store_lines<B: Base>(
    entries: &mut Entries<'_, B>,
    pool_id: &Hash,
    slot: PoolSlot,
    n: i64,
) -> Result<(), AllocError>
    requires loaded { Some slot ≡ pools.pool_slot_at entries.old.current pool_id.now }
    requires fits { DoesFit slot.pool.pool_shares_trust_line_count n }
    ensures { OnOk result (
        entries.new ≡ with_current entries.old (laws.map_with_lines n pool_id.now entries.old.current)) }
{
    let mut slot = slot;
    slot.pool.pool_shares_trust_line_count = risen(slot.pool.pool_shares_trust_line_count, n);
    store_pool(entries, slot)
}

/// Counts n lines more of a pool, if it exists.
#[tactic(auto, unfolding(entry_slots::specs::Pools::with_pool))]
fn count_lines<B: Base>(
    entries: &mut Entries<'_, B>,
    pool_id: &Hash,
    n: i64,
) -> Result<(), AllocError>
    requires { fits.DoLinesFit n pool_id.now entries.old.current }
    ensures { OnOk result (
        entries.new ≡ with_current entries.old (laws.map_with_lines n pool_id.now entries.old.current)) }
{
    let Some(slot) = load_pool(entries, pool_id)? else {
        return Ok(());
    };
    store_lines(entries, pool_id, slot, n)
}

/// Counts n lines more of an account in a pool with these parameters, n being 1 or -1: by the pool, and by the lines
/// that the account needs for the pool's assets.
pub fn count_share_lines<B: Base>(
    entries: &mut Entries<'_, B>,
    n: i32,
    id: &AccountId,
    pool_id: &Hash,
    params: &PoolParams,
) -> Result<(), AllocError>
    requires { fits.DoShareLinesFit n id.now pool_id.now params.now entries.old.current }
    ensures { OnOk result (
        entries.new ≡
        with_current entries.old (
        laws.map_with_share_lines n id.now pool_id.now params.now entries.old.current)) }
{
    count_uses(entries, id, &params.asset_a, n)?;
    count_uses(entries, id, &params.asset_b, n)?;
    count_lines(entries, pool_id, i64::from(n))
}

/// Removes a pool that has no line.
fn remove_bare_pool<B: Base>(entries: &mut Entries<'_, B>, pool_id: &Hash) -> Result<(), AllocError>
    ensures { OnOk result (
        entries.new ≡
        with_current entries.old (spec.map_without_bare_pool pool_id.now entries.old.current)) }
{
    match load_pool(entries, pool_id)? {
        Some(slot) if slot.pool.pool_shares_trust_line_count == 0 => erase_pool(entries, pool_id),
        _ => Ok(()),
    }
}

/// Removes an account's line of a pool's shares, if it exists. The pool and the account's lines in its assets no longer
/// count it, and the pool goes with its last line (ChangeTrustOpFrame in stellar-core).
pub fn remove_share_line<B: Base>(
    entries: &mut Entries<'_, B>,
    ctx: &Ctx,
    id: &AccountId,
    pool_id: &Hash,
    params: &PoolParams,
) -> Result<(), AllocError>
    requires { fits.DoShareLinesFit (neg_ℤ (pos 1)) id.now pool_id.now params.now entries.old.current }
    ensures { OnOk result (
        entries.new ≡
        with_current entries.old (
        spec.map_without_share_line id.now pool_id.now params.now entries.old.current)) }
{
    let key = LedgerKey::TrustLine {
        account_id: *id,
        asset: TrustLineAsset::PoolShare(*pool_id),
    };
    remove_entry(entries, ctx, &key)?;
    count_share_lines(entries, -1, id, pool_id, params)?;
    remove_bare_pool(entries, pool_id)
}
