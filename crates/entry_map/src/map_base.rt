//! A base in memory.

ghost use Rattle.std.specs.Prelude.{◌≡◌, [], ◌∷◌, ◌++◌, IfOk, OnOk, map};
ghost use Rattle.std.specs.List.{IsDistinct};
ghost use Rattle.std.specs.Ordering.{eq_by_cmp};
ghost use Rattle.std.specs.FinMap.{from_entries};
ghost use Rattle.ledger_types.specs.Keys.{key_of};
ghost use Rattle.ledger_types.specs.KeyOrder.{key_cmp};

use crate::base::Base;
use crate::index::OfferIndex;
use crate::key_map::KeyMap;
use ledger_types::item_list::Boxed;
use ledger_types::{LedgerEntry, LedgerKey};
use std::alloc::AllocError;
use std::marker::Model;

/// An ordered map of entries in memory. Contracts see the map.
#[derive(Drop)]
pub struct MapBase {
    // Boxed, so that a node of the tree has room for pointers to the entries alone.
    entries: KeyMap<Boxed<LedgerEntry>>,
    offers: OfferIndex,
}

impl Model for MapBase {
    ghost use Rattle.std.specs.FinMap as map;
    ghost use Rattle.ledger_types.specs.contracts.key.LedgerKey as keys;
    ghost use Rattle.ledger_types.specs.contracts.entry.LedgerEntry as entry;
    ghost use Rattle.entry_map.specs.EntryMap.{EntryMap};
    ghost use Rattle.entry_map.specs.Indexes.{IsIndexOf};

    ghost Value = { EntryMap };

    ghost coded = { map.code keys.the_row.coded entry.the_row.coded };

    ghost view = { λ base. base.entries };

    ghost invariant = { λ base. IsIndexOf base.entries base.offers };
}

impl MapBase {
    /// The map of entries whose keys are distinct.
    pub fn from_entries(entries: Vec<LedgerEntry>) -> Result<MapBase, AllocError>
        requires { IsDistinct (eq_by_cmp key_cmp) (map key_of entries.items) }
        ensures { IfOk result (λ base. base ≡ from_entries (map (λ e. (key_of e, e)) entries.items)) }
    {
        let alloc = *entries.allocator();
        let offers = OfferIndex::from_entries(alloc, entries.as_slice())?;
        let mut pairs = Vec::with_capacity(alloc, entries.len())?;
        for entry in entries {
            push_pair(&mut pairs, entry)?;
        }
        Ok(MapBase {
            entries: KeyMap::from_pairs(pairs)?,
            offers,
        })
    }
}

/// Puts an entry and its key at the end.
fn push_pair(
    pairs: &mut Vec<(LedgerKey, Boxed<LedgerEntry>)>,
    entry: LedgerEntry,
) -> Result<(), AllocError>
    ensures { OnOk result (pairs.new.items ≡ pairs.old.items ++ (key_of entry, entry) ∷ []) }
{
    let key = entry.key()?;
    let entry = Boxed::new(*pairs.allocator(), entry)?;
    pairs.push((key, entry))?;
    Ok(())
}

impl Base for MapBase {
    ghost entries = { λ base. base };

    fn find(&self, key: &LedgerKey) -> Result<Option<LedgerEntry>, AllocError> {
        match self.entries.get(key) {
            None => Ok(None),
            Some(entry) => Ok(Some(entry.get().copy()?)),
        }
    }

    fn next_after(&self, key: &LedgerKey) -> Result<Option<LedgerEntry>, AllocError> {
        match self.entries.next_after(key) {
            None => Ok(None),
            Some((_, entry)) => Ok(Some(entry.get().copy()?)),
        }
    }

    fn offers(&self) -> Result<OfferIndex, AllocError> {
        self.offers.share()
    }
}
