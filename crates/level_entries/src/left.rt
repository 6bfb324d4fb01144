//! The entries that the items of a row leave.

ghost use Rattle.std.specs.Prelude.{◌≡◌, ◌<◌, ◌++◌, [], length, slice_get, Some, IfOk, OnOk};
ghost use Rattle.std.specs.List.{AllByRecursion};
ghost use Rattle.std.specs.Option.{is_some};
ghost use Rattle.level_entries.specs.Placed.{Leaves, left_in, prepended_if};
ghost use Rattle.level_entries.specs.Rows as spec;

use bucket_core::StoredItem;
use bucket_items::BucketEntryType;
use ledger_types::{BucketEntry, LedgerEntry};
use std::alloc::{AllocError, Global};

/// The entry that an item leaves, if it leaves one.
pub(crate) fn entry_in(item: BucketEntry) -> Option<LedgerEntry>
    ensures { result ≡ spec.entry_in item }
{
    match item {
        BucketEntry::Meta { .. } => None,
        BucketEntry::Live(entry) => Some(entry),
        BucketEntry::Dead(_) => None,
        BucketEntry::Init(entry) => Some(entry),
    }
}

/// The entry that an item leaves, which leaves one.
pub(crate) fn left_entry(alloc: Global, item: &StoredItem<'_>) -> Result<LedgerEntry, AllocError>
    requires { Leaves item.now }
    ensures { IfOk result (λ entry. spec.entry_in item.now.1 ≡ Some entry) }
{
    match entry_in(item.read(alloc)?) {
        Some(entry) => Ok(entry),
        None => unreachable!(),
    }
}

/// The entry that the item at an index of a row leaves, where each leaves one.
pub(crate) fn entry_at(
    alloc: Global,
    row: &[StoredItem<'_>],
    index: usize,
) -> Result<LedgerEntry, AllocError>
    requires within { index < length row.now }
    requires each { AllByRecursion Leaves row.now }
    ensures { IfOk result (λ entry. slice_get (spec.entries_in row.now) index ≡ Some entry) }
{
    left_entry(alloc, &row[index])
}

/// Whether an item leaves an entry.
fn leaves_entry(item: &StoredItem<'_>) -> bool
    ensures { result ≡ is_some (spec.entry_in item.now.1) }
{
    match item.mark() {
        BucketEntryType::Meta => false,
        BucketEntryType::Live => true,
        BucketEntryType::Dead => false,
        BucketEntryType::Init => true,
    }
}

/// Puts an item at the end of a row, if it leaves an entry.
fn push_left<'a>(item: &StoredItem<'a>, row: &mut Vec<StoredItem<'a>>) -> Result<(), AllocError>
    ensures { OnOk result
        (row.new.items ≡ row.old.items ++ prepended_if (spec.entry_in item.now.1) item.now []) }
{
    if !leaves_entry(item) {
        return Ok(());
    }
    row.push(item.again())?;
    Ok(())
}

/// The items of a row that leave an entry.
pub(crate) fn left_in<'a>(
    alloc: Global,
    row: &[StoredItem<'a>],
) -> Result<Vec<StoredItem<'a>>, AllocError>
    ensures { IfOk result (λ left. left.items ≡ left_in row.now) }
{
    let mut left = Vec::with_capacity(alloc, row.len())?;
    for item in row {
        push_left(item, &mut left)?;
    }
    Ok(left)
}
