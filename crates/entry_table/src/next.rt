//! The entries after the next ledger, by the batch of what its transactions changed.

ghost use Rattle.std.specs.Prelude.{◌≡◌, IfOk, length, map};
ghost use Rattle.std.specs.FinMap.{entries};
ghost use Rattle.entry_map.specs.EntryMap.{EntryMap, IsKeyed};
ghost use Rattle.entry_map.specs.Batch.{IsBatch};
ghost use Rattle.entry_map.specs.Indexes.{IsIndexOf, PositionMap};
ghost use Rattle.entry_changes.specs.Next.{stamped, AreNextEntries, IsExactBatch};
ghost use Rattle.entry_table.specs.AfterBatch.{after_batch};

use entry_map::Batch;
use item_list::ItemList;
use ledger_types::LedgerEntry;
use std::alloc::AllocError;

/// Gives entries the number of the ledger that changed them.
fn stamp(seq: u32, entries: &mut [LedgerEntry])
    ensures { entries.new ≡ map (stamped seq) entries.old }
{
    for entry in entries {
        entry.last_modified_ledger_seq = seq;
    }
}

/// Gives the entries of a list the number of the ledger that changed them.
fn stamp_list(seq: u32, entries: &mut ItemList<LedgerEntry>)
    ensures { entries.new ≡ map (stamped seq) entries.old }
{
    stamp(seq, entries.as_mut_slice());
}

/// Gives the new and changed entries of a batch the number of the ledger that made them. Then it is what the entries
/// after the ledger differ in from those before it.
pub fn stamp_batch(seq: u32, batch: &mut Batch)
    ensures next { (before : EntryMap) (worked : EntryMap) → IsKeyed worked → IsBatch before worked batch.old
        → AreNextEntries seq before worked (after_batch before batch.new)
        × IsExactBatch before (after_batch before batch.new) batch.new }
    ensures keyed { (before : EntryMap) → IsKeyed before → IsKeyed (after_batch before batch.new) }
    ensures index { (before : EntryMap) (worked : EntryMap) (offers : PositionMap) → IsKeyed before
        → IsIndexOf worked offers → IsBatch before worked batch.old
        → IsIndexOf (after_batch before batch.new) offers }
{
    stamp_list(seq, &mut batch.init);
    stamp_list(seq, &mut batch.live);
}

/// How many entries there are after a stamped batch, by how many there were before it. Err where that is no `usize`.
pub fn count_after(before: usize, batch: &Batch) -> Result<usize, AllocError>
    requires { (m : EntryMap) × IsExactBatch m (after_batch m batch.now) batch.now × (before ≡ length (entries m)) }
    ensures { (m : EntryMap) → IsExactBatch m (after_batch m batch.now) batch.now → before ≡ length (entries m)
        → IfOk result (λ count. count ≡ length (entries (after_batch m batch.now))) }
{
    match (before - batch.dead.len()).checked_add(batch.init.len()) {
        Some(count) => Ok(count),
        None => Err(AllocError),
    }
}
