//! The entries that levels represent, where they are in the files.

ghost use Rattle.std.specs.Prelude.{◌≡◌, ◌<◌, length, map, slice_get, Some, IfOk};
ghost use Rattle.std.specs.FinMap.{entries, values};
ghost use Rattle.std.specs.Option.{is_some};
ghost use Rattle.ledger_types.specs.declared.entry.LedgerEntry.{LedgerEntry as AnEntry};
ghost use Rattle.entry_map.specs.Book.{offer_in};
ghost use Rattle.entry_map.specs.EntryMap.{EntryMap, IsKeyed};
ghost use Rattle.bucket_levels.specs.Levels.{pair_of};
ghost use Rattle.bucket_levels.specs.Meaning.{entries_of, files_of};
ghost use Rattle.level_entries.specs.Rows.{IsNewestRow};

use crate::left::{entry_at, left_in};
use crate::offers::{is_offer_at, offers_in};
use bucket_core::StoredItem;
use bucket_levels::LevelPair;
use entry_map::{Base, OfferIndex};
use ledger_types::{LedgerEntry, LedgerKey};
use level_pages::{find_entry, next_entry};
use std::alloc::{AllocError, Global};
use std::marker::Model;

/// The entries that the files of levels represent, in the order of their keys, each where its newest item is in a file.
/// An entry is decoded when it is asked for, and takes 16 bytes until then. Contracts see the map.
#[derive(Drop)]
pub struct PlacedEntries<'a> {
    pairs: &'a [LevelPair],
    items: Vec<StoredItem<'a>>,
}

impl<'a> Model for PlacedEntries<'a> {
    ghost use Rattle.std.specs.Prelude.{map};
    ghost use Rattle.entry_map.specs.EntryMap.{EntryMap};
    ghost use Rattle.entry_map.specs.Undo.{map_code};
    ghost use Rattle.bucket_levels.specs.Levels.{pair_of};
    ghost use Rattle.bucket_levels.specs.Meaning.{entries_of};
    ghost use Rattle.level_entries.specs.Placed.{ArePlaced};

    ghost Value = { EntryMap };

    ghost coded = { map_code };

    ghost view = { λ placed. entries_of (map pair_of placed.pairs.now) };

    ghost invariant = { λ placed. ArePlaced (entries_of (map pair_of placed.pairs.now)) placed.items.items };
}

impl<'a> PlacedEntries<'a> {
    /// The entries of levels, by the newest items of their files.
    pub(crate) fn new(
        alloc: Global,
        pairs: &'a [LevelPair],
        row: &[StoredItem<'a>],
    ) -> Result<PlacedEntries<'a>, AllocError>
        requires { IsNewestRow (files_of (map pair_of pairs.now)) row.now }
        ensures { IfOk result (λ placed. placed ≡ entries_of (map pair_of pairs.now)) }
    {
        let items = left_in(alloc, row)?;
        Ok(PlacedEntries { pairs, items })
    }

    /// How many entries there are.
    pub fn len(&self) -> usize
        ensures count { result ≡ length (entries self.now) }
        ensures keyed { IsKeyed self.now }
    {
        self.items.as_slice().len()
    }

    /// The entry at an index in the order of keys.
    pub fn entry(&self, index: usize) -> Result<LedgerEntry, AllocError>
        requires { index < length (entries self.now) }
        ensures entry { IfOk result (λ entry. slice_get (values self.now) index ≡ Some entry) }
        ensures keyed { IsKeyed self.now }
    {
        entry_at(*self.items.allocator(), self.items.as_slice(), index)
    }

    /// Whether the entry at an index in the order of keys is an offer, for which it isn't decoded.
    pub fn is_offer(&self, index: usize) -> bool
        requires { index < length (entries self.now) }
        ensures { (e : AnEntry) → slice_get (values self.now) index ≡ Some e → result ≡ is_some (offer_in e.body) }
    {
        is_offer_at(self.items.as_slice(), index)
    }
}

impl<'a> Base for PlacedEntries<'a> {
    ghost entries = { λ placed. placed };

    fn find(&self, key: &LedgerKey) -> Result<Option<LedgerEntry>, AllocError> {
        find_entry(*self.items.allocator(), self.pairs, key)
    }

    fn next_after(&self, key: &LedgerKey) -> Result<Option<LedgerEntry>, AllocError> {
        next_entry(*self.items.allocator(), self.pairs, key)
    }

    fn offers(&self) -> Result<OfferIndex, AllocError> {
        offers_in(*self.items.allocator(), self.items.as_slice())
    }
}
