//! Rule 12: shares of pools, their lines and what these use are counted, and each pool is filled or empty (CAP-0038).

ghost use Rattle.std.specs.Prelude.{◌≡◌, ◌↔◌, pos, ◌<ℤ◌, IsTrue};
ghost use Rattle.entry_map.specs.EntryMap.{EntryMap};
ghost use Rattle.close_rules.specs.entry_sums.Sums.{EachEntry};
ghost use Rattle.close_rules.specs.legal_rules.Bounds.{IsFilledOrEmpty};
ghost use Rattle.close_rules.specs.EntryRules.{ArePoolsCounted};
ghost use Rattle.image_rules.specs.Tallies.{IsAgreement};

use crate::agreement::Agreement;
use crate::flags::both;
use ledger_types::{LedgerEntryBody, LiquidityPoolEntry};

/// Whether a pool has both reserves, and shares of them.
fn is_filled(pool: &LiquidityPoolEntry) -> bool
    ensures { IsTrue result ↔ ((pos 0 <ℤ pool.now.reserve_a) × (pos 0 <ℤ pool.now.reserve_b)
        × (pos 0 <ℤ pool.now.total_pool_shares)) }
{
    0 < pool.reserve_a && 0 < pool.reserve_b && 0 < pool.total_pool_shares
}

/// Whether a pool has neither reserves nor shares.
fn is_empty(pool: &LiquidityPoolEntry) -> bool
    ensures { IsTrue result ↔ ((pool.now.reserve_a ≡ pos 0) × (pool.now.reserve_b ≡ pos 0)
        × (pool.now.total_pool_shares ≡ pos 0)) }
{
    pool.reserve_a == 0 && pool.reserve_b == 0 && pool.total_pool_shares == 0
}

/// Whether a pool has both reserves and shares, or none of the three.
pub fn is_filled_or_empty(body: &LedgerEntryBody) -> bool
    ensures { IsTrue result ↔ IsFilledOrEmpty body.now }
{
    match body {
        LedgerEntryBody::LiquidityPool(pool) => {
            let filled = is_filled(pool);
            let empty = is_empty(pool);
            filled || empty
        }
        _ => true,
    }
}

/// Whether each pool states its shares and their lines, and each line how many lines of shares use it, and whether each
/// pool is filled or empty, if each is.
pub fn are_pools_counted(filled: bool, agreement: &Agreement) -> bool
    ensures { (m : EntryMap) → (IsTrue filled ↔ EachEntry (λ k e. IsFilledOrEmpty e.body) m)
        → IsAgreement m agreement.now → (IsTrue result ↔ ArePoolsCounted m) }
{
    let shares = both(agreement.shares, agreement.share_lines);
    let counted = both(shares, agreement.uses);
    both(filled, counted)
}
