//! The ranges of pools (CAP-0038).

ghost use Rattle.std.specs.Prelude.{◌≡◌, ◌↔◌, pos, ◌≤ℤ◌, IsTrue, IfOk};
ghost use Rattle.std.specs.declared.cmp.Ordering.TheVariants.{Less};
ghost use Rattle.ledger_types.specs.KeyOrder.{asset_cmp};
ghost use Rattle.hash_ids.specs.Ids.{pool_id_of};
ghost use Rattle.image_rules.specs.PoolRanges.{IsPoolInRangeButId, HasPoolId};

use hash_ids::pool_id;
use ledger_types::{Asset, LedgerEntryBody, LiquidityPoolEntry};
use std::alloc::{AllocError, Global};
use std::cmp::Ordering;

/// The fee of each pool, of 10000 (LIQUIDITY_POOL_FEE_V18).
const POOL_FEE: i32 = 30;

/// Whether an asset is below another one in the order of assets.
fn is_below(lower: &Asset, upper: &Asset) -> bool
    ensures { IsTrue result ↔ (asset_cmp lower.now upper.now ≡ Less) }
{
    match lower.cmp(upper) {
        Ordering::Less => true,
        _ => false,
    }
}

/// Whether neither reserves nor shares nor their lines are fewer than none.
fn are_counts_in_range(pool: &LiquidityPoolEntry) -> bool
    ensures { IsTrue result ↔ ((pos 0 ≤ℤ pool.now.reserve_a) × (pos 0 ≤ℤ pool.now.reserve_b)
        × (pos 0 ≤ℤ pool.now.total_pool_shares) × (pos 0 ≤ℤ pool.now.pool_shares_trust_line_count)) }
{
    0 <= pool.reserve_a
        && 0 <= pool.reserve_b
        && 0 <= pool.total_pool_shares
        && 0 <= pool.pool_shares_trust_line_count
}

/// Whether a pool is in its ranges, whatever its id is.
pub fn is_pool_in_range(pool: &LiquidityPoolEntry) -> bool
    ensures { IsTrue result ↔ IsPoolInRangeButId pool.now }
{
    let assets = is_below(&pool.params.asset_a, &pool.params.asset_b);
    let counts = are_counts_in_range(pool);
    pool.params.fee == POOL_FEE && assets && counts
}

/// Whether a pool has the id of its assets.
fn is_named_rightly(alloc: Global, pool: &LiquidityPoolEntry) -> Result<bool, AllocError>
    ensures { IfOk result (λ kept.
        IsTrue kept ↔ (pool.now.pool_id ≡ pool_id_of pool.now.params.asset_a pool.now.params.asset_b)) }
{
    let id = pool_id(alloc, &pool.params.asset_a, &pool.params.asset_b)?;
    Ok(pool.pool_id == id)
}

/// Whether an entry, if it is a pool, has the id of its assets.
pub fn has_pool_id(alloc: Global, body: &LedgerEntryBody) -> Result<bool, AllocError>
    ensures { IfOk result (λ kept. IsTrue kept ↔ HasPoolId body.now) }
{
    match body {
        LedgerEntryBody::LiquidityPool(pool) => is_named_rightly(alloc, pool),
        _ => Ok(true),
    }
}
