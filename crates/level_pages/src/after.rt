//! The entry after a key in the map that levels represent.

ghost use Rattle.std.specs.Prelude.{◌≡◌, Option, Some, map, IfOk};
ghost use Rattle.std.specs.Option.{option_copied};
ghost use Rattle.ledger_types.specs.declared.key.LedgerKey.{LedgerKey as AKey};
ghost use Rattle.entry_map.specs.EntryMap.{EntryMap, IsNextAfter, IsNextUpTo};
ghost use Rattle.bucket_items.specs.KeyText.{IsKeyText};
ghost use Rattle.bucket_levels.specs.Levels.{pair_of};
ghost use Rattle.bucket_levels.specs.Meaning.{Represent};
ghost use Rattle.level_pages.specs.Last.{IsTextOf, is_behind};

use crate::newest::{entry_in, keys_are_encoded};
use crate::next::least_above;
use bucket_core::{StoredItem, encoded_bound, fingerprint};
use bucket_levels::LevelPair;
use ledger_types::{LedgerEntry, LedgerKey};
use std::alloc::{AllocError, Global};
use std::cmp::Ordering;

/// Whether an item's key is above a last one, by the key's text, if there is a last one.
fn is_behind(item: &StoredItem<'_>, last: Option<&[u8]>) -> bool
    ensures { (k : Option AKey) → IsTextOf (option_copied last.entry) k → result ≡ is_behind item.now.0 k }
{
    match last {
        None => false,
        Some(text) => matches!(item.order(text), Ordering::Greater),
    }
}

/// The entry with the least key above one, by the key's text, as far as a last key. It passes by keys of entries that
/// are gone.
pub(crate) fn entry_after(
    alloc: Global,
    pairs: &[LevelPair],
    text: &[u8],
    last: Option<&[u8]>,
) -> Result<Option<LedgerEntry>, AllocError>
    requires { (k : AKey) × IsKeyText text.now k }
    ensures { (m : EntryMap) (k : AKey) (end : Option AKey) → Represent (map pair_of pairs.now) m → IsKeyText text.now k
        → IsTextOf (option_copied last.entry) end → IfOk result (IsNextUpTo m k end) }
{
    let mut at = text;
    loop {
        let Some(item) = least_above(pairs, at, fingerprint(at)) else {
            return Ok(None);
        };
        if is_behind(&item, last) {
            return Ok(None);
        }
        if let Some(entry) = entry_in(item.read(alloc)?) {
            return Ok(Some(entry));
        }
        at = item.key();
    }
}

/// The entry with the least key above one in the map that levels represent. A key without an encoding, which no file
/// has, is answered like any other.
pub fn next_entry(
    alloc: Global,
    pairs: &[LevelPair],
    key: &LedgerKey,
) -> Result<Option<LedgerEntry>, AllocError>
    ensures { (m : EntryMap) → Represent (map pair_of pairs.now) m → IfOk result (IsNextAfter m key.now) }
{
    keys_are_encoded(pairs);
    let bound = encoded_bound(alloc, key)?;
    entry_after(alloc, pairs, bound.as_slice(), None)
}

/// The entry with the least key above one in the map that levels represent, as far as a last key: none where no key up
/// to that has an entry. It costs nothing what the files have behind the last key.
pub fn next_entry_up_to(
    alloc: Global,
    pairs: &[LevelPair],
    key: &LedgerKey,
    last: &LedgerKey,
) -> Result<Option<LedgerEntry>, AllocError>
    ensures { (m : EntryMap) → Represent (map pair_of pairs.now) m
        → IfOk result (IsNextUpTo m key.now (Some last.now)) }
{
    keys_are_encoded(pairs);
    let bound = encoded_bound(alloc, key)?;
    let end = encoded_bound(alloc, last)?;
    entry_after(alloc, pairs, bound.as_slice(), Some(end.as_slice()))
}
