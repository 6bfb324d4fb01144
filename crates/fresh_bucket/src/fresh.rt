//! The fresh bucket of a close.

ghost use Rattle.std.specs.Prelude.{◌≡◌, Some, IfOk};
ghost use Rattle.entry_map.specs.EntryMap.{EntryMap, IsKeyed};
ghost use Rattle.entry_table.specs.entry_changes.Next.{IsExactBatch};
ghost use Rattle.entry_table.specs.entry_changes.Encodable.{AreEncodable};
ghost use Rattle.bucket_core.specs.Bucket.{version_of};
ghost use Rattle.bucket_levels.specs.Fresh.{IsFresh};

use crate::items::item_row;
use crate::write::file_of;
use bucket_core::Bucket;
use entry_map::Batch;
use std::alloc::{AllocError, Global};
use std::sync::Arc;

/// The bucket of what a close changed: META of the version, and INIT, LIVE and DEAD in the order of their keys.
pub fn fresh_bucket(alloc: Global, version: u32, batch: &Batch) -> Result<Arc<Bucket>, AllocError>
    requires { (before : EntryMap) × (after : EntryMap)
        × IsExactBatch before after batch.now × IsKeyed before × AreEncodable before × AreEncodable after }
    ensures fresh { (before : EntryMap) (after : EntryMap) → IsExactBatch before after batch.now → IsKeyed after
        → IfOk result (λ bucket. IsFresh before after bucket.value) }
    ensures version { IfOk result (λ bucket. version_of bucket.value ≡ Some version) }
{
    let row = item_row(alloc, batch)?;
    let file = file_of(alloc, version, row.as_slice())?;
    Bucket::of_file_to_merge(file)
}
