//! The entry that the newest item under a key leaves.

ghost use Rattle.std.specs.Prelude.{◌≡◌, ◌≢◌, ◌∷◌, [], map, option_map, IfOk};
ghost use Rattle.bucket_core.specs.Encoded.{IsEncoded};
ghost use Rattle.bucket_core.specs.Filter as filter;
ghost use Rattle.ledger_types.specs.declared.key.LedgerKey.{LedgerKey as AKey};
ghost use Rattle.bucket_items.specs.KeyText.{IsKeyText};
ghost use Rattle.bucket_levels.specs.Levels.{pair_of};
ghost use Rattle.std.specs.FinMap.{get};
ghost use Rattle.xdr_entries.specs.Keys.{ledger_key};
ghost use Rattle.entry_map.specs.EntryMap.{EntryMap};
ghost use Rattle.bucket_levels.specs.Meaning.{files_of, changes_of, entry_by, Represent};
ghost use Rattle.level_pages.specs.Newest as spec;

use bucket_core::{StoredItem, encoded_key, fingerprint};
use bucket_levels::LevelPair;
use ledger_types::{BucketEntry, LedgerEntry, LedgerKey};
use std::alloc::{AllocError, Global};

/// The entry that an item leaves, if it leaves one.
pub(crate) fn entry_in(item: BucketEntry) -> Option<LedgerEntry>
    ensures { result ≡ spec.entry_in item }
{
    match item {
        BucketEntry::Meta { .. } => None,
        BucketEntry::Live(entry) => Some(entry),
        BucketEntry::Dead(_) => None,
        BucketEntry::Init(entry) => Some(entry),
    }
}

/// The newest item under a key in the two files of a level, where it is in its file, by the text of the key and its
/// fingerprint.
fn newest_in_pair<'a>(pair: &'a LevelPair, text: &[u8], fingerprint: u64) -> Option<StoredItem<'a>>
    requires { fingerprint ≡ filter.fingerprint text.now }
    ensures { (k : AKey) → IsKeyText text.now k
        → spec.IsNewest k (pair.now.curr.value ∷ pair.now.snap.value ∷ []) (option_map (λ x. x.1) result) }
{
    match pair.curr.stored(text, fingerprint) {
        Some(item) => Some(item),
        None => pair.snap.stored(text, fingerprint),
    }
}

/// The newest item under a key in the files of levels, where it is in its file, by the text of the key and its
/// fingerprint.
fn newest_stored<'a>(
    pairs: &'a [LevelPair],
    text: &[u8],
    fingerprint: u64,
) -> Option<StoredItem<'a>>
    requires { fingerprint ≡ filter.fingerprint text.now }
    ensures { (k : AKey) → IsKeyText text.now k
        → spec.IsNewest k (files_of (map pair_of pairs.now)) (option_map (λ x. x.1) result) }
{
    match pairs {
        [] => None,
        [pair, deeper @ ..] => match newest_in_pair(pair, text, fingerprint) {
            Some(item) => Some(item),
            None => newest_stored(deeper, text, fingerprint),
        },
    }
}

/// The entry under a key in the files of levels, by the text of the key: that of the newest item under it.
pub fn newest_entry(
    alloc: Global,
    pairs: &[LevelPair],
    text: &[u8],
) -> Result<Option<LedgerEntry>, AllocError>
    ensures { (k : AKey) → IsKeyText text.now k
        → IfOk result (λ entry. entry ≡ entry_by (changes_of (files_of (map pair_of pairs.now)) k)) }
{
    match newest_stored(pairs, text, fingerprint(text)) {
        None => Ok(None),
        Some(item) => Ok(entry_in(item.read(alloc)?)),
    }
}

/// The keys of which files say something have encodings. It does nothing.
pub(crate) fn keys_are_encoded(pairs: &[LevelPair])
    ensures { (k : AKey) → changes_of (files_of (map pair_of pairs.now)) k ≢ [] → IsEncoded ledger_key k }
{
    match pairs {
        [] => {}
        [pair, deeper @ ..] => {
            pair.curr.has_file();
            pair.snap.has_file();
            keys_are_encoded(deeper);
        }
    }
}

/// The entry under a key in the map that levels represent.
pub fn find_entry(
    alloc: Global,
    pairs: &[LevelPair],
    key: &LedgerKey,
) -> Result<Option<LedgerEntry>, AllocError>
    ensures { (m : EntryMap) → Represent (map pair_of pairs.now) m → IfOk result (λ entry. entry ≡ get m key.now) }
{
    match encoded_key(alloc, key)? {
        Some(text) => newest_entry(alloc, pairs, text.as_slice()),
        None => {
            keys_are_encoded(pairs);
            Ok(None)
        }
    }
}
