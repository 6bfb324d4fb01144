//! Pools that exist, by their ids.

ghost use Rattle.std.specs.Prelude.{◌≡◌, IfOk};
ghost use Rattle.close_rules.specs.legal_rules.Legal.{params_of, pools_in};

use entry_map::Base;
use ledger_types::{Hash, LedgerEntry, LedgerEntryBody, LedgerKey, PoolParams};
use level_entries::PlacedEntries;
use std::alloc::AllocError;

/// What decides the id of a pool, if an entry is one.
fn params_in(entry: &Option<LedgerEntry>) -> Option<PoolParams>
    ensures { result ≡ params_of entry.now }
{
    match entry {
        None => None,
        Some(entry) => match &entry.body {
            LedgerEntryBody::LiquidityPool(pool) => Some(pool.params),
            _ => None,
        },
    }
}

/// What decides a pool's id, if the pool exists.
pub fn pool_params(
    entries: &PlacedEntries<'_>,
    pool_id: Hash,
) -> Result<Option<PoolParams>, AllocError>
    ensures { IfOk result (λ params. params ≡ pools_in entries.now pool_id) }
{
    let found = entries.find(&LedgerKey::LiquidityPool { pool_id })?;
    Ok(params_in(&found))
}
