//! The entries after a close, in the files of the levels after it.

ghost use Rattle.std.specs.Prelude.{◌≡◌, ℕ, IfOk};
ghost use Rattle.entry_map.specs.Indexes.{IsIndexOf};
ghost use Rattle.entry_table.specs.AfterBatch.{after_batch};
ghost use Rattle.entry_table.specs.entry_changes.Next.{IsExactBatch};
ghost use Rattle.ledger_close.specs.Leveled.{IsLeveled};

use crate::ledger::Ledger;
use bucket_levels::{LevelStep, steps_represent};
use entry_map::{Batch, OfferIndex};
use entry_table::count_after;
use level_pages::{StoredEntries, share_pairs};
use std::alloc::AllocError;

impl Ledger {
    /// The entries that a batch of changes leaves of the ledger's, found in the files of the step that the levels make
    /// with it, beside the index of the offers among them.
    pub(crate) fn entries_after(
        &self,
        step: &LevelStep,
        offers: OfferIndex,
        batch: &Batch,
    ) -> Result<StoredEntries, AllocError>
        requires exact { IsExactBatch self.now.state.entries (after_batch self.now.state.entries batch.now) batch.now }
        requires index { IsIndexOf (after_batch self.now.state.entries batch.now) offers }
        requires step { (version : ℕ)
            × IsLeveled self.now.state version (after_batch self.now.state.entries batch.now) step.now }
        ensures { IfOk result (λ entries. entries ≡ after_batch self.now.state.entries batch.now) }
    {
        steps_represent();
        let len = count_after(self.entries.len(), batch)?;
        let pairs = share_pairs(self.allocator(), step.pairs())?;
        Ok(StoredEntries::new(pairs, offers, len))
    }
}
