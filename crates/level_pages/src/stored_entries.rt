//! The entries of a ledger, found in the files of its levels.

ghost use Rattle.std.specs.Prelude.{◌≡◌, length, map, IfOk};
ghost use Rattle.std.specs.FinMap.{entries};
ghost use Rattle.entry_map.specs.EntryMap.{EntryMap, IsKeyed};
ghost use Rattle.bucket_levels.specs.Levels.{pair_of};
ghost use Rattle.bucket_levels.specs.Meaning.{Represent};
ghost use Rattle.level_pages.specs.Represented.{AreCounted};

use crate::after::{next_entry, next_entry_up_to};
use crate::newest::find_entry;
use bucket_levels::LevelPair;
use entry_map::{Base, OfferIndex};
use ledger_types::{LedgerEntry, LedgerKey};
use std::alloc::{AllocError, Global};
use std::marker::Model;
use std::sync::Arc;

/// The entries that the files of levels represent. An entry is looked up in the files when it is asked for: beside
/// them an index of the offers is kept, and the number of entries. It never changes. Contracts see the map.
#[derive(Drop)]
pub struct StoredEntries {
    pairs: Vec<LevelPair>,
    offers: OfferIndex,
    len: usize,
}

impl Model for StoredEntries {
    ghost use Rattle.std.specs.Prelude.{map};
    ghost use Rattle.entry_map.specs.EntryMap.{EntryMap};
    ghost use Rattle.entry_map.specs.Undo.{map_code};
    ghost use Rattle.bucket_levels.specs.Levels.{pair_of};
    ghost use Rattle.bucket_levels.specs.Meaning.{entries_of};
    ghost use Rattle.level_pages.specs.Represented.{AreCounted};

    ghost Value = { EntryMap };

    ghost coded = { map_code };

    ghost view = { λ stored. entries_of (map pair_of stored.pairs.items) };

    ghost invariant = { λ stored.
        AreCounted (entries_of (map pair_of stored.pairs.items)) stored.offers stored.len };
}

/// The files of a level, for one owner more.
pub fn share_pair(pair: &LevelPair) -> Result<LevelPair, AllocError>
    ensures { IfOk result (λ shared. pair_of shared ≡ pair_of pair.now) }
{
    Ok(LevelPair {
        curr: Arc::try_clone(&pair.curr)?,
        snap: Arc::try_clone(&pair.snap)?,
    })
}

/// The files of levels, for one owner more.
pub fn share_pairs(alloc: Global, pairs: &[LevelPair]) -> Result<Vec<LevelPair>, AllocError>
    ensures { IfOk result (λ shared. map pair_of shared.items ≡ map pair_of pairs.now) }
{
    let mut shared = Vec::with_capacity(alloc, pairs.len())?;
    for pair in pairs {
        shared.push(share_pair(pair)?)?;
    }
    Ok(shared)
}

impl StoredEntries {
    /// The entries that levels with these files represent, with the index of the offers among them and their number.
    /// It takes no memory.
    pub fn new(pairs: Vec<LevelPair>, offers: OfferIndex, len: usize) -> StoredEntries
        requires { (m : EntryMap) × Represent (map pair_of pairs.items) m × AreCounted m offers len }
        ensures { (m : EntryMap) → Represent (map pair_of pairs.items) m → result ≡ m }
    {
        StoredEntries { pairs, offers, len }
    }

    /// How many entries there are.
    pub fn len(&self) -> usize
        ensures count { result ≡ length (entries self.now) }
        ensures keyed { IsKeyed self.now }
    {
        self.len
    }
}

impl Base for StoredEntries {
    ghost entries = { λ stored. stored };

    fn find(&self, key: &LedgerKey) -> Result<Option<LedgerEntry>, AllocError> {
        find_entry(*self.pairs.allocator(), self.pairs.as_slice(), key)
    }

    fn next_after(&self, key: &LedgerKey) -> Result<Option<LedgerEntry>, AllocError> {
        next_entry(*self.pairs.allocator(), self.pairs.as_slice(), key)
    }

    fn next_up_to(
        &self,
        key: &LedgerKey,
        last: &LedgerKey,
    ) -> Result<Option<LedgerEntry>, AllocError> {
        next_entry_up_to(*self.pairs.allocator(), self.pairs.as_slice(), key, last)
    }

    fn offers(&self) -> Result<OfferIndex, AllocError> {
        self.offers.share()
    }
}
