//! Pools among the entries of a ledger.

ghost use Rattle.std.specs.Prelude.{◌≡◌, IfOk, IfSome, OnOk};
ghost use Rattle.entry_map.specs.ledger_types.declared.key.LedgerKey.TheVariants as key;
ghost use Rattle.entry_map.specs.EntryMap.{put, erase};
ghost use Rattle.entry_map.specs.Undo.{with_current};
ghost use Rattle.entry_slots.specs.Pools as spec;

use entry_map::ledger_types::{
    Hash, LedgerEntry, LedgerEntryBody, LedgerEntryExtensionV1, LedgerKey, LiquidityPoolEntry,
};
use entry_map::{Base, Entries};
use std::alloc::AllocError;

/// The entry of a pool, taken apart.
#[derive(Clone, Copy)]
pub struct PoolSlot {
    pub last_modified_ledger_seq: u32,
    pub pool: LiquidityPoolEntry,
    pub ext: Option<LedgerEntryExtensionV1>,
}

/// The parts of an entry, where it is that of a pool.
pub fn pool_slot_in(entry: LedgerEntry) -> Option<PoolSlot>
    ensures slot { result ≡ spec.pool_slot_in entry }
    ensures pool { spec.pool_in entry.body ≡ spec.pool_of_slot result }
{
    let (last_modified_ledger_seq, body, ext) = entry.into_parts();
    match body {
        LedgerEntryBody::LiquidityPool(pool) => Some(PoolSlot {
            last_modified_ledger_seq,
            pool,
            ext,
        }),
        _ => None,
    }
}

/// The pool with this id, if it exists.
#[tactic(auto, unfolding(crate::specs::Pools::pool_at))]
pub fn load_pool<B: Base>(
    entries: &Entries<'_, B>,
    pool_id: &Hash,
) -> Result<Option<PoolSlot>, AllocError>
    ensures slot { IfOk result (λ slot. slot ≡ spec.pool_slot_at entries.now.current pool_id.now) }
    ensures pool { IfOk result (λ slot. spec.pool_at entries.now.current pool_id.now ≡ spec.pool_of_slot slot) }
    ensures keyed { IfOk result (λ slot. IfSome slot (λ s. s.pool.pool_id ≡ pool_id.now)) }
{
    let key = LedgerKey::LiquidityPool { pool_id: *pool_id };
    match entries.get(&key)? {
        None => Ok(None),
        Some(entry) => Ok(pool_slot_in(entry)),
    }
}

/// Puts the entry of a pool under its key, in place of what was there.
pub fn store_pool<B: Base>(entries: &mut Entries<'_, B>, slot: PoolSlot) -> Result<(), AllocError>
    ensures { OnOk result (entries.new ≡ with_current entries.old (put entries.old.current (spec.entry_of_pool slot))) }
{
    let PoolSlot {
        last_modified_ledger_seq,
        pool,
        ext,
    } = slot;
    entries.put(LedgerEntry {
        last_modified_ledger_seq,
        body: LedgerEntryBody::LiquidityPool(pool),
        ext,
    })
}

/// Removes the pool with this id, if it exists.
pub fn erase_pool<B: Base>(entries: &mut Entries<'_, B>, pool_id: &Hash) -> Result<(), AllocError>
    ensures { OnOk result (
        entries.new ≡ with_current entries.old (erase entries.old.current (key.LiquidityPool pool_id.now))) }
{
    entries.erase(&LedgerKey::LiquidityPool { pool_id: *pool_id })
}
