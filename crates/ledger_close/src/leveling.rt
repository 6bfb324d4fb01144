//! The levels after a close.

ghost use Rattle.std.specs.Prelude.{◌<◌, IfOk};
ghost use Rattle.entry_map.specs.EntryMap.{EntryMap, IsKeyed};
ghost use Rattle.entry_table.specs.entry_changes.Next.{IsExactBatch};
ghost use Rattle.entry_table.specs.entry_changes.Encodable.{AreEncodable};
ghost use Rattle.close_laws.specs.op_form.Sequences.{last_seq};
ghost use Rattle.ledger_close.specs.Counted.{AreStepsTo};
ghost use Rattle.ledger_close.specs.Leveled.{IsLeveled};

use crate::ledger::Ledger;
use bucket_levels::LevelStep;
use entry_map::Batch;
use fresh_bucket::fresh_bucket;
use std::alloc::{AllocError, Global};
use std::sync::ledger::Ledger as Count;
use steps::Steps;

impl Ledger {
    /// The step that the levels make, with the bucket of what changed.
    pub(crate) fn level<L: Count>(
        &self,
        alloc: Global,
        version: u32,
        batch: &Batch,
        steps: &mut Steps<L>,
    ) -> Result<LevelStep, AllocError>
        requires seq { self.now.state.header.ledger_seq < last_seq }
        requires encodable { (after : EntryMap) × IsExactBatch self.now.state.entries after batch.now
            × AreEncodable after }
        ensures levels { (after : EntryMap) → IsExactBatch self.now.state.entries after batch.now → IsKeyed after
            → IfOk result (IsLeveled self.now.state version after) }
        ensures steps { (after : EntryMap) → IsExactBatch self.now.state.entries after batch.now → IsKeyed after
            → AreStepsTo self.now after steps.old steps.new }
    {
        let seq = self.header.ledger_seq + 1;
        let fresh = fresh_bucket(alloc, version, batch)?;
        self.levels.plan_batch(seq, fresh, steps)
    }
}
