//! Writing what items under one key give.

ghost use Rattle.std.specs.Prelude.{◌≡◌, ◌++◌, [], OnOk, option_and_then};
ghost use Rattle.bucket_core.specs.ledger_types.declared.key.LedgerKey.{LedgerKey};
ghost use Rattle.bucket_core.specs.Bucket.{Change};
ghost use Rattle.bucket_merge.specs.Merge.{kept, joined};
ghost use Rattle.bucket_merge.specs.Walk.{put};
ghost use Rattle.bucket_merge.specs.Pending as spec;

use crate::joining::{Joining, is_dropped, joining_of};
use crate::record::{put_init, put_item, put_live};
use bucket_core::BucketItem;
use std::alloc::AllocError;

/// Writes an item, but for a DEAD into the deepest level.
pub(crate) fn write_kept(
    level: u32,
    item: &BucketItem<'_>,
    file: &mut Vec<u8>,
) -> Result<(), AllocError>
    requires { (k : LedgerKey) × (c : Change) × spec.States item.now k c }
    ensures { (k : LedgerKey) (c : Change) → spec.States item.now k c
        → OnOk result (file.new.items ≡ file.old.items ++ spec.records_of (put k (kept level c) [])) }
{
    if is_dropped(level, item.mark) {
        return Ok(());
    }
    put_item(item, file)
}

/// Writes what an older and a newer item under one key give.
pub(crate) fn write_joined(
    level: u32,
    older: &BucketItem<'_>,
    newer: &BucketItem<'_>,
    file: &mut Vec<u8>,
) -> Result<(), AllocError>
    requires { (k : LedgerKey) × (c : Change) × (d : Change) × spec.States older.now k c × spec.States newer.now k d }
    ensures { (k : LedgerKey) (c : Change) (d : Change) → spec.States older.now k c → spec.States newer.now k d
        → OnOk result (file.new.items
        ≡ file.old.items ++ spec.records_of (put k (option_and_then (kept level) (joined c d)) [])) }
{
    match joining_of(older.mark, newer.mark) {
        Joining::NewerAsLive => put_live(newer, file),
        Joining::NewerAsInit => put_init(newer, file),
        Joining::Nothing => Ok(()),
        Joining::Newer => write_kept(level, newer, file),
    }
}
