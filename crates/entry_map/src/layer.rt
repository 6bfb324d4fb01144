//! A layer of changes.

ghost use Rattle.std.specs.Prelude.{◌≡◌, ◌||◌, IfOk, OnOk};
ghost use Rattle.std.specs.Option.{option_copied, option_or};
ghost use Rattle.std.specs.FinMap.{empty, get, insert, contains_key};
ghost use Rattle.ledger_types.specs.declared.key.LedgerKey.{LedgerKey as AKey};
ghost use Rattle.ledger_types.specs.Keys.{key_of};
ghost use Rattle.entry_map.specs.KeyMaps.{AreKeysOf};
ghost use Rattle.entry_map.specs.Layers.{IsKeyedLayer, IsNextKey};

use crate::key_map::KeyMap;
use ledger_types::item_list::Boxed;
use ledger_types::{LedgerEntry, LedgerKey};
use std::alloc::{AllocError, Global};
use std::marker::Model;

/// Changes by key: the entry that is put there, or none where it is erased.
#[derive(Drop)]
pub struct Layer {
    // Boxed, so that a node of the tree has room for pointers to the entries alone.
    changes: KeyMap<Option<Boxed<LedgerEntry>>>,
}

impl Model for Layer {
    ghost use Rattle.std.specs.FinMap as map;
    ghost use Rattle.std.specs.Coded.{coded_option};
    ghost use Rattle.ledger_types.specs.contracts.key.LedgerKey as keys;
    ghost use Rattle.ledger_types.specs.contracts.entry.LedgerEntry as entry;
    ghost use Rattle.entry_map.specs.Layers.{LayerMap, IsKeyedLayer};

    ghost Value = { LayerMap };

    ghost coded = { map.code keys.the_row.coded (coded_option entry.the_row.coded) };

    ghost view = { λ layer. layer.changes };

    ghost invariant = { λ layer. IsKeyedLayer layer.changes };
}

impl Layer {
    /// No changes. It takes no memory.
    pub fn new(alloc: Global) -> Layer
        ensures { result ≡ empty }
    {
        Layer {
            changes: KeyMap::new(alloc),
        }
    }

    /// What a key was changed to, if it was.
    pub fn get(&self, key: &LedgerKey) -> Option<&Option<Boxed<LedgerEntry>>>
        ensures found { option_copied result ≡ get self.now key.now }
        ensures keyed { IsKeyedLayer self.now }
    {
        self.changes.get(key)
    }

    /// Puts an entry under its key.
    pub fn put(&mut self, alloc: Global, entry: LedgerEntry) -> Result<(), AllocError>
        ensures { OnOk result (self.new ≡ insert self.old (key_of entry) (Some entry)) }
    {
        let key = entry.key()?;
        let entry = Boxed::new(alloc, entry)?;
        self.changes.insert(key, Some(entry))
    }

    /// Erases what is under a key.
    pub fn erase(&mut self, key: &LedgerKey) -> Result<(), AllocError>
        ensures { OnOk result (self.new ≡ insert self.old key.now None) }
    {
        self.changes.insert(key.copy()?, None)
    }

    /// The least changed key above a key.
    pub fn next_after(&self, key: &LedgerKey) -> Option<&LedgerKey>
        ensures { IsNextKey (contains_key self.now) key.now (option_copied result) }
    {
        match self.changes.next_after(key) {
            None => None,
            Some((key, _)) => Some(key),
        }
    }

    /// Puts the changes of a newer layer over these.
    pub fn absorb(&mut self, newer: Layer) -> Result<(), AllocError>
        ensures { OnOk result ((q : AKey) → get self.new q ≡ option_or (get newer q) (get self.old q)) }
    {
        let Layer { changes } = newer;
        self.changes.absorb(changes)
    }

    /// The changed keys, in their order.
    pub fn keys(&self, alloc: Global) -> Result<Vec<LedgerKey>, AllocError>
        ensures { IfOk result (λ keys. AreKeysOf self.now keys.items) }
    {
        self.changes.keys(alloc)
    }

    /// Puts the changed keys into a map of keys.
    pub fn add_keys_to(&self, keys: &mut KeyMap<()>) -> Result<(), AllocError>
        ensures { OnOk result ((q : AKey) →
            contains_key keys.new q ≡ (contains_key keys.old q || contains_key self.now q)) }
    {
        self.changes.add_keys_to(keys)
    }
}
