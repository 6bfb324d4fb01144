//! The offers among the entries that the items of a row leave.

ghost use Rattle.std.specs.Prelude.{◌≡◌, ◌<◌, length, slice_get, Some, None, IfOk, OnOk};
ghost use Rattle.std.specs.FinMap.{get};
ghost use Rattle.std.specs.List.{AllByRecursion};
ghost use Rattle.std.specs.Option.{is_some};
ghost use Rattle.ledger_types.specs.declared.entry.LedgerEntry.{LedgerEntry as AnEntry};
ghost use Rattle.ledger_types.specs.Keys.{key_of};
ghost use Rattle.bucket_items.specs.KeyRef.{key_seen};
ghost use Rattle.entry_map.specs.Book.{offer_in};
ghost use Rattle.entry_map.specs.EntryMap.{EntryMap, put};
ghost use Rattle.entry_map.specs.Indexes.{IsIndexOf, index_of, is_of_offer};
ghost use Rattle.level_entries.specs.Placed.{ArePlaced, IsIndexFrom, Leaves};
ghost use Rattle.level_entries.specs.Rows as spec;

use crate::left::left_entry;
use bucket_core::StoredItem;
use bucket_items::{KeyRef, read_key_ref};
use entry_map::{OfferIndex, push_offer};
use ledger_types::OfferEntry;
use std::alloc::{AllocError, Global};
use xdr_core::Cursor;

/// Of how many offers at most an index is made at once. That takes twice the index in memory beside it, and less time
/// than to put them in one by one, as all others are.
const MOST_AT_ONCE: usize = 65_536;

/// Whether a key is an offer's.
fn is_offer_key(key: &KeyRef<'_>) -> bool
    ensures { result ≡ is_of_offer (key_seen key.now) }
{
    matches!(key, KeyRef::Offer { .. })
}

/// Whether an item is of an offer, by its key.
fn is_of_offer(item: &StoredItem<'_>) -> bool
    ensures { result ≡ is_of_offer item.now.0 }
{
    let mut ahead = Cursor::new(item.key());
    match read_key_ref(&mut ahead) {
        Ok(key) => is_offer_key(&key),
        Err(_) => false,
    }
}

/// Whether the entry that the item at an index of a row leaves is an offer, by its key, where each leaves an entry.
pub(crate) fn is_offer_at(row: &[StoredItem<'_>], index: usize) -> bool
    requires within { index < length row.now }
    requires each { AllByRecursion Leaves row.now }
    ensures { (e : AnEntry) → slice_get (spec.entries_in row.now) index ≡ Some e → result ≡ is_some (offer_in e.body) }
{
    is_of_offer(&row[index])
}

/// Puts the offer that an item leaves, if it leaves one, at the end of a list of those of which an index is to be made.
/// No other entry is decoded.
fn push_offer_in(
    alloc: Global,
    item: &StoredItem<'_>,
    offers: &mut Vec<OfferEntry>,
) -> Result<(), AllocError>
    requires { Leaves item.now }
    ensures { (m : EntryMap) (e : AnEntry) → spec.entry_in item.now.1 ≡ Some e
        → IsIndexOf m (index_of offers.old.items) → get m (key_of e) ≡ None
        → OnOk result (IsIndexOf (put m e) (index_of offers.new.items)) }
{
    if !is_of_offer(item) {
        return Ok(());
    }
    let entry = left_entry(alloc, item)?;
    push_offer(offers, &entry)
}

/// The index of the offers that the last items of a row leave, and from which index on they come.
fn last_offers(alloc: Global, row: &[StoredItem<'_>]) -> Result<(OfferIndex, usize), AllocError>
    requires { (m : EntryMap) × ArePlaced m row.now }
    ensures { IfOk result (λ found. IsIndexFrom row.now found.0 found.1) }
{
    let mut offers = Vec::new(alloc);
    let mut ahead = row.len();
    while ahead > 0 && offers.len() < MOST_AT_ONCE {
        ahead -= 1;
        push_offer_in(alloc, &row[ahead], &mut offers)?;
    }
    let index = OfferIndex::from_offers(alloc, offers.as_slice())?;
    Ok((index, ahead))
}

/// An index with the offer that an item leaves, if it leaves one. No other entry is decoded.
fn with_item(
    alloc: Global,
    index: OfferIndex,
    item: &StoredItem<'_>,
) -> Result<OfferIndex, AllocError>
    requires { Leaves item.now }
    ensures { (m : EntryMap) (e : AnEntry) → spec.entry_in item.now.1 ≡ Some e → IsIndexOf m index
        → get m (key_of e) ≡ None → IfOk result (IsIndexOf (put m e)) }
{
    if !is_of_offer(item) {
        return Ok(index);
    }
    let entry = left_entry(alloc, item)?;
    index.with_entry(alloc, &entry)
}

/// The index of the offers that the items of a row leave.
pub(crate) fn offers_in(alloc: Global, row: &[StoredItem<'_>]) -> Result<OfferIndex, AllocError>
    requires { (m : EntryMap) × ArePlaced m row.now }
    ensures { (m : EntryMap) → ArePlaced m row.now → IfOk result (IsIndexOf m) }
{
    let (last, from) = last_offers(alloc, row)?;
    let mut index = last;
    let mut ahead = from;
    while ahead > 0 {
        ahead -= 1;
        index = with_item(alloc, index, &row[ahead])?;
    }
    Ok(index)
}
