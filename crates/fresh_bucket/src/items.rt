//! The items of a fresh bucket, under their keys.

ghost use Rattle.std.specs.Prelude.{◌≡◌, ◌++◌, ◌∷◌, [], map, IfOk, OnOk};
ghost use Rattle.ledger_types.specs.Keys.{key_of};
ghost use Rattle.entry_map.specs.KeyMaps.{AreRising};
ghost use Rattle.fresh_bucket.specs.Items.{IsItemRow, made, changed, gone};
ghost use Rattle.fresh_bucket.specs.ItemRefs.{item_at, items_at};

use crate::item_ref::ItemRef;
use entry_map::Batch;
use entry_table::{Kept, overlay};
use ledger_types::{LedgerEntry, LedgerKey};
use std::alloc::{AllocError, Global};

/// Puts an item under a key at the end of a row.
fn push<'a>(
    key: LedgerKey,
    item: ItemRef<'a>,
    row: &mut Vec<Kept<ItemRef<'a>>>,
) -> Result<(), AllocError>
    ensures { OnOk result (items_at row.new.items ≡ items_at row.old.items ++ (key, item_at item.entry) ∷ []) }
{
    let kept = Kept::new(*row.allocator(), key, item)?;
    row.push(kept)?;
    Ok(())
}

/// Entries that were not there.
fn made_row<'a>(
    alloc: Global,
    entries: &'a [LedgerEntry],
) -> Result<Vec<Kept<ItemRef<'a>>>, AllocError>
    ensures { IfOk result (λ row. items_at row.items ≡ map made entries.now) }
{
    let mut row = Vec::with_capacity(alloc, entries.len())?;
    for entry in entries {
        push(entry.key()?, ItemRef::Init(entry), &mut row)?;
    }
    Ok(row)
}

/// Entries that are another than they were.
fn changed_row<'a>(
    alloc: Global,
    entries: &'a [LedgerEntry],
) -> Result<Vec<Kept<ItemRef<'a>>>, AllocError>
    ensures { IfOk result (λ row. items_at row.items ≡ map changed entries.now) }
{
    let mut row = Vec::with_capacity(alloc, entries.len())?;
    for entry in entries {
        push(entry.key()?, ItemRef::Live(entry), &mut row)?;
    }
    Ok(row)
}

/// Keys of entries that are gone.
fn gone_row<'a>(alloc: Global, keys: &'a [LedgerKey]) -> Result<Vec<Kept<ItemRef<'a>>>, AllocError>
    ensures { IfOk result (λ row. items_at row.items ≡ map gone keys.now) }
{
    let mut row = Vec::with_capacity(alloc, keys.len())?;
    for key in keys {
        push(key.copy()?, ItemRef::Dead(key), &mut row)?;
    }
    Ok(row)
}

/// The items that a batch states, in the order of their keys, where the batch has them.
pub(crate) fn item_row<'a>(
    alloc: Global,
    batch: &'a Batch,
) -> Result<Vec<Kept<ItemRef<'a>>>, AllocError>
    requires init { AreRising (map key_of batch.now.init) }
    requires live { AreRising (map key_of batch.now.live) }
    requires dead { AreRising batch.now.dead }
    ensures { IfOk result (λ row. IsItemRow batch.now (items_at row.items)) }
{
    let made = made_row(alloc, batch.init.as_slice())?;
    let changed = changed_row(alloc, batch.live.as_slice())?;
    let gone = gone_row(alloc, batch.dead.as_slice())?;
    let there = overlay(alloc, made.as_slice(), changed.as_slice())?;
    overlay(alloc, there.as_slice(), gone.as_slice())
}
