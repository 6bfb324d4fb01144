//! The merge of two buckets, in one pass.

ghost use Rattle.std.specs.Prelude.{◌≡◌, ◌+◌, ◌≤◌, ◌++◌, List, OnOk, IfOk, length, nat_eq};
ghost use Rattle.bucket_core.specs.File.{count_of};
ghost use Rattle.bucket_merge.specs.Merge as spec;
ghost use Rattle.bucket_merge.specs.Walk.{Pair, walk, merge_of};
ghost use Rattle.bucket_merge.specs.Pending as pending;

use crate::record::put_number;
use crate::side::{Side, side_of};
use crate::take::take_first_key;
use bucket_core::Bucket;
use std::alloc::AllocError;
use std::sync::Arc;
use std::sync::ledger::Ledger;
use steps::Steps;

/// Writes META of a version, or nothing for an empty merge.
fn write_meta(version: Option<u32>, file: &mut Vec<u8>) -> Result<(), AllocError>
    ensures { OnOk result (file.new.items ≡ file.old.items ++ pending.meta_of version) }
{
    match version {
        Some(version) => {
            put_number((1 << 31) + 12, file)?;
            put_number(u32::MAX, file)?;
            put_number(version, file)?;
            put_number(0, file)
        }
        None => Ok(()),
    }
}

/// The greater of two versions.
fn greater_version(older: Option<u32>, newer: Option<u32>) -> Option<u32>
    ensures { result ≡ spec.greater_version older newer }
{
    match (older, newer) {
        (Some(v), Some(w)) => Some(v.max(w)),
        (Some(v), None) => Some(v),
        (None, newer) => newer,
    }
}

/// Whether nothing is before the merge on either side.
fn are_empty(older: &Side<'_>, newer: &Side<'_>) -> bool
    ensures { (old : List Pair) (new : List Pair) → pending.Has older.now old → pending.Has newer.now new
        → result ≡ nat_eq (length old + length new) 0 }
{
    match older.hand {
        Some(_) => false,
        None => newer.hand.is_none(),
    }
}

/// Merges what is before it to the end.
fn merge_sides<L: Ledger>(
    level: u32,
    mut older: Side<'_>,
    mut newer: Side<'_>,
    file: &mut Vec<u8>,
    steps: &mut Steps<L>,
) -> Result<(), AllocError>
    requires { (old : List Pair) × (new : List Pair) × pending.Has older old × pending.Has newer new }
    ensures items { (old : List Pair) (new : List Pair) → pending.Has older.entry old → pending.Has newer.entry new
        → OnOk result (file.new.items ≡ file.old.items ++ pending.records_of (walk level old new)) }
    ensures exact { OnOk result (steps.new ≡ steps.old + length older.entry.ahead + length newer.entry.ahead) }
    ensures most { steps.new ≤ steps.old + length older.entry.ahead + length newer.entry.ahead }
{
    while !are_empty(&older, &newer) {
        take_first_key(level, &mut older, &mut newer, file, steps)?;
    }
    Ok(())
}

/// The merge of an older and a newer bucket into a level. An item of either is a step.
pub(crate) fn merge<L: Ledger>(
    level: u32,
    curr: &Bucket,
    snap: &Bucket,
    steps: &mut Steps<L>,
) -> Result<Arc<Bucket>, AllocError>
    ensures merge { IfOk result (λ bucket. bucket.value ≡ merge_of level curr.now snap.now) }
    ensures exact { OnOk result (steps.new ≡ steps.old + count_of curr.now + count_of snap.now) }
    ensures most { steps.new ≤ steps.old + count_of curr.now + count_of snap.now }
{
    let room = curr.bytes().len().saturating_add(snap.bytes().len());
    let mut file = Vec::with_capacity(curr.allocator(), room)?;
    write_meta(greater_version(curr.version(), snap.version()), &mut file)?;
    let older = side_of(curr.cursor(), steps);
    let newer = side_of(snap.cursor(), steps);
    merge_sides(level, older, newer, &mut file, steps)?;
    Bucket::of_file(file)
}

/// The merge of a fresh bucket into the newest file, that of level 0. An item of either is a step.
pub fn merge_fresh<L: Ledger>(
    curr: &Bucket,
    fresh: &Bucket,
    steps: &mut Steps<L>,
) -> Result<Arc<Bucket>, AllocError>
    ensures merge { IfOk result (λ bucket. spec.IsMerge 0 curr.now fresh.now bucket.value) }
    ensures exact { OnOk result (steps.new ≡ steps.old + count_of curr.now + count_of fresh.now) }
    ensures most { steps.new ≤ steps.old + count_of curr.now + count_of fresh.now }
{
    let bucket = merge(0, curr, fresh, steps)?;
    Ok(bucket)
}
