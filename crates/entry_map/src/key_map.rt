//! A map under the keys of entries.

ghost use Rattle.std.specs.Prelude.{◌≡◌, ◌||◌, ◌⊎◌, IfOk, OnOk, OnErr, MatchOption};
ghost use Rattle.std.specs.List.{IsDistinct};
ghost use Rattle.std.specs.Map.{keys_of};
ghost use Rattle.std.specs.BTreeMap.{IsFromIterResult};
ghost use Rattle.std.specs.Ordering.{eq_by_cmp};
ghost use Rattle.std.specs.Option.{option_copied, option_or};
ghost use Rattle.std.specs.FinMap.{empty, from_entries, get, insert, contains_key};
ghost use Rattle.ledger_types.specs.declared.key.LedgerKey.{LedgerKey as AKey};
ghost use Rattle.ledger_types.specs.KeyOrder.{key_cmp as order};
ghost use Rattle.entry_map.specs.KeyMaps.{NoneAbove, IsLeastAt, AreKeysOf};

use ledger_types::LedgerKey;
use std::alloc::{AllocError, Global};
use std::collections::BTreeMap;
use std::marker::Model;
use std::ops::Bound;

/// An ordered map from keys to values. Contracts see the finite map, in the keys' order.
#[derive(Drop)]
pub struct KeyMap<V> {
    tree: BTreeMap<LedgerKey, V>,
}

impl<V> Model for KeyMap<V> {
    ghost use Rattle.std.specs.FinMap as map;
    ghost use Rattle.ledger_types.specs.KeyOrder.{key_cmp};
    ghost use Rattle.ledger_types.specs.declared.key.LedgerKey.{LedgerKey};
    ghost use Rattle.ledger_types.specs.contracts.key.LedgerKey as keys;

    ghost Value = { map.FinMap key_cmp V };

    ghost coded = { map.code keys.the_row.coded V.code };

    ghost view = { λ m. map.from_entries m.tree.entries };
}

impl<V> KeyMap<V> {
    /// The empty map. It takes no memory.
    pub fn new(alloc: Global) -> KeyMap<V>
        ensures { result ≡ empty }
    {
        KeyMap {
            tree: BTreeMap::new(alloc),
        }
    }

    /// The value at a key.
    pub fn get(&self, key: &LedgerKey) -> Option<&V>
        ensures { option_copied result ≡ get self.now key.now }
    {
        self.tree.get(key)
    }

    /// The least key above a key, with its value.
    pub fn next_after(&self, key: &LedgerKey) -> Option<(&LedgerKey, &V)>
        ensures { MatchOption result (NoneAbove self.now key.now) (λ p. IsLeastAt self.now key.now p.0.now p.1.now) }
    {
        self.tree
            .range((Bound::Excluded(key), Bound::Unbounded))
            .next()
    }

    /// Puts the keys into a map of keys.
    pub fn add_keys_to(&self, keys: &mut KeyMap<()>) -> Result<(), AllocError>
        ensures { OnOk result ((q : AKey) →
            contains_key keys.new q ≡ (contains_key keys.old q || contains_key self.now q)) }
    {
        for key in self.tree.keys() {
            keys.insert(key.copy()?, ())?;
        }
        Ok(())
    }
}

impl<V> KeyMap<V> {
    /// Copies of the keys, in their order.
    pub fn keys(&self, alloc: Global) -> Result<Vec<LedgerKey>, AllocError>
        ensures { IfOk result (λ keys. AreKeysOf self.now keys.items) }
    {
        let mut keys = Vec::with_capacity(alloc, self.tree.len())?;
        for key in self.tree.keys() {
            keys.push(key.copy()?)?;
        }
        Ok(keys)
    }
}

impl<V: Drop> KeyMap<V> {
    /// The map of pairs whose keys are distinct, built at once.
    pub fn from_pairs(pairs: Vec<(LedgerKey, V)>) -> Result<KeyMap<V>, AllocError>
        requires { IsDistinct (eq_by_cmp order) (keys_of pairs.items) }
        ensures { IfOk result (λ m. m ≡ from_entries pairs.items) }
    {
        Ok(KeyMap {
            tree: tree_of(pairs)?,
        })
    }

    /// Puts a value at a key. Where memory is refused the map stays as it was.
    pub fn insert(&mut self, key: LedgerKey, value: V) -> Result<(), AllocError>
        ensures ok { OnOk result (self.new ≡ insert self.old key value) }
        ensures err { OnErr result (self.new ≡ self.old) }
    {
        self.tree.insert(key, value)?;
        Ok(())
    }

    /// Puts the values of a newer map over those of this one. Where memory is refused, some of them are put.
    pub fn absorb(&mut self, newer: KeyMap<V>) -> Result<(), AllocError>
        ensures ok { OnOk result ((q : AKey) → get self.new q ≡ option_or (get newer q) (get self.old q)) }
        ensures each { (q : AKey) → (get self.new q ≡ get newer q) ⊎ (get self.new q ≡ get self.old q) }
    {
        let KeyMap { tree: mut newer } = newer;
        self.tree.append(&mut newer)
    }

    /// The keys, in their order.
    pub fn into_keys(self, alloc: Global) -> Result<Vec<LedgerKey>, AllocError>
        ensures { IfOk result (λ keys. AreKeysOf self keys.items) }
    {
        let KeyMap { tree } = self;
        tree.into_keys().collect(alloc)
    }
}

/// The tree of pairs, built at once.
fn tree_of<V: Drop>(pairs: Vec<(LedgerKey, V)>) -> Result<BTreeMap<LedgerKey, V>, AllocError>
    ensures { IfOk result (IsFromIterResult ⟦<LedgerKey as Ord>⟧.cmp pairs.items) }
{
    let alloc = *pairs.allocator();
    pairs.into_iter().collect(alloc)
}
