//! What shares of a pool are worth, and storing a change of an account's shares with the pool's reserves.

ghost use Rattle.std.specs.Prelude.{◌≡◌, ◌+ℤ◌, ◌≤ℤ◌, pos, Some, OnOk};
ghost use Rattle.ledger_types.specs.declared.asset.TrustLineAsset.TheVariants.{PoolShare};
ghost use Rattle.entry_map.specs.Undo.{with_current};
ghost use Rattle.entry_slots.specs.Lines.{line_slot_at};
ghost use Rattle.entry_slots.specs.Pools as pools;
ghost use Rattle.trade_cross.specs.Holdings.{paying};
ghost use Rattle.trade_cross.specs.Locations.{DoesFit};
ghost use Rattle.pool_shares.specs.Fits as fits;
ghost use Rattle.pool_shares.specs.Withdrawing as spec;

use entry_map::{Base, Entries};
use entry_slots::{LineSlot, PoolSlot, store_line, store_pool};
use ledger_types::{AccountId, Hash, LiquidityPoolEntry};
use pool_math::withdraw;
use std::alloc::AllocError;

/// Amounts of a pool's two assets, each at least 0.
#[derive(Clone, Copy)]
pub struct Part {
    pub a: i64,
    pub b: i64,
}

/// By how much a pool's reserves and its shares rise; each may be below 0.
#[derive(Clone, Copy)]
pub struct ShareChange {
    pub a: i64,
    pub b: i64,
    pub shares: i64,
}

/// What so many shares of a pool, at least 0 and at most all, give of its reserves, each rounded down
/// (getPoolWithdrawalAmount in stellar-core; CAP-0038).
pub fn part_of(pool: &LiquidityPoolEntry, shares: i64) -> Part
    requires reserve_a { pos 0 ≤ℤ pool.now.reserve_a }
    requires reserve_b { pos 0 ≤ℤ pool.now.reserve_b }
    requires shares { pos 0 ≤ℤ shares }
    requires within { shares ≤ℤ pool.now.total_pool_shares }
    ensures a { result.a ≡ pos (spec.part_of pool.now shares).a }
    ensures b { result.b ≡ pos (spec.part_of pool.now shares).b }
    ensures within_a { result.a ≤ℤ pool.now.reserve_a }
    ensures within_b { result.b ≤ℤ pool.now.reserve_b }
{
    let total = pool.total_pool_shares;
    Part {
        a: withdraw(pool.reserve_a, total, shares),
        b: withdraw(pool.reserve_b, total, shares),
    }
}

/// A number that rises by delta, which may be below 0.
pub fn risen(number: i64, delta: i64) -> i64
    requires { DoesFit number delta }
    ensures { result ≡ number +ℤ delta }
{
    number + delta
}

/// Stores the line of a pool's shares that was loaded, with so many shares more.
#[tactic(auto, unfolding(entry_slots::specs::Lines::with_line))]
fn store_balance<B: Base>(
    entries: &mut Entries<'_, B>,
    id: &AccountId,
    pool_id: &Hash,
    slot: LineSlot,
    shares: i64,
) -> Result<(), AllocError>
    requires loaded { Some slot ≡ line_slot_at entries.old.current id.now (PoolShare pool_id.now) }
    requires fits { DoesFit slot.line.balance shares }
    ensures { OnOk result (
        entries.new ≡
        with_current entries.old (paying (spec.share_key id.now pool_id.now) shares entries.old.current)) }
{
    let mut slot = slot;
    slot.line.balance = risen(slot.line.balance, shares);
    store_line(entries, slot)
}

/// A pool with so much more.
fn pool_with(pool: LiquidityPoolEntry, change: ShareChange) -> LiquidityPoolEntry
    requires { fits.DoesPoolFit pool change }
    ensures { result ≡ spec.with_change change.a change.b change.shares pool }
{
    LiquidityPoolEntry {
        pool_id: pool.pool_id,
        params: pool.params,
        reserve_a: risen(pool.reserve_a, change.a),
        reserve_b: risen(pool.reserve_b, change.b),
        total_pool_shares: risen(pool.total_pool_shares, change.shares),
        pool_shares_trust_line_count: pool.pool_shares_trust_line_count,
    }
}

/// Stores the pool that was loaded, with so much more.
#[tactic(auto, unfolding(entry_slots::specs::Pools::with_pool))]
fn store_reserves<B: Base>(
    entries: &mut Entries<'_, B>,
    pool_id: &Hash,
    slot: PoolSlot,
    change: ShareChange,
) -> Result<(), AllocError>
    requires loaded { Some slot ≡ pools.pool_slot_at entries.old.current pool_id.now }
    requires fits { fits.DoesPoolFit slot.pool change }
    ensures { OnOk result (
        entries.new ≡
        with_current entries.old (
        pools.with_pool entries.old.current pool_id.now (
        spec.with_change change.a change.b change.shares))) }
{
    let mut slot = slot;
    slot.pool = pool_with(slot.pool, change);
    store_pool(entries, slot)
}

/// Stores an account's line of a pool's shares and the pool, which were loaded, with so much more.
pub fn store_shares<B: Base>(
    entries: &mut Entries<'_, B>,
    id: &AccountId,
    pool_id: &Hash,
    line: LineSlot,
    pool: PoolSlot,
    change: ShareChange,
) -> Result<(), AllocError>
    requires line { Some line ≡ line_slot_at entries.old.current id.now (PoolShare pool_id.now) }
    requires pool { Some pool ≡ pools.pool_slot_at entries.old.current pool_id.now }
    requires balance { DoesFit line.line.balance change.shares }
    requires reserves { fits.DoesPoolFit pool.pool change }
    ensures { OnOk result (
        entries.new ≡
        with_current entries.old (
        spec.map_with_shares id.now pool_id.now change.a change.b change.shares entries.old.current)) }
{
    store_balance(entries, id, pool_id, line, change.shares)?;
    store_reserves(entries, pool_id, pool, change)
}
