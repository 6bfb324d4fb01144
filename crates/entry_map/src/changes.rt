//! What layers change of a base.

ghost use Rattle.std.specs.Prelude.{◌≡◌, ◌||◌, IfOk, OnOk};
ghost use Rattle.std.specs.FinMap.{contains_key};
ghost use Rattle.ledger_types.specs.declared.key.LedgerKey.{LedgerKey as AKey};
ghost use Rattle.entry_map.specs.Batch.{IsBatch};
ghost use Rattle.entry_map.specs.Noting.{AreChangedKeys, IsNoted, IsNotedAt, no_changes};
ghost use Rattle.entry_map.specs.Layers.{under, under_one, is_changed};

use crate::base::Base;
use crate::batch::Batch;
use crate::key_map::KeyMap;
use crate::layer::Layer;
use crate::lookup::entry_at;
use ledger_types::item_list::ItemList;
use ledger_types::{LedgerEntry, LedgerKey};
use std::alloc::{AllocError, Global};

/// Puts the keys that layers changed into a map of keys.
fn add_changed_keys(layers: &[Layer], keys: &mut KeyMap<()>) -> Result<(), AllocError>
    ensures { OnOk result ((q : AKey) →
        contains_key keys.new q ≡ (contains_key keys.old q || is_changed layers.now q)) }
{
    match layers {
        [] => Ok(()),
        [oldest, newer @ ..] => {
            oldest.add_keys_to(keys)?;
            add_changed_keys(newer, keys)
        }
    }
}

/// The keys that several layers changed, in their order.
fn collected_keys(alloc: Global, lower: &[Layer], top: &Layer) -> Result<Vec<LedgerKey>, AllocError>
    ensures { IfOk result (λ keys. AreChangedKeys lower.now top.now keys.items) }
{
    let mut keys = KeyMap::new(alloc);
    top.add_keys_to(&mut keys)?;
    add_changed_keys(lower, &mut keys)?;
    keys.into_keys(alloc)
}

/// The keys that the layers changed, in their order. Those of one layer are in order already.
fn changed_keys(alloc: Global, lower: &[Layer], top: &Layer) -> Result<Vec<LedgerKey>, AllocError>
    ensures { IfOk result (λ keys. AreChangedKeys lower.now top.now keys.items) }
{
    match lower {
        [] => top.keys(alloc),
        _ => collected_keys(alloc, lower, top),
    }
}

/// Notes how a key with one entry before and another one after, or none, changed.
fn note(
    batch: &mut Batch,
    key: LedgerKey,
    before: Option<LedgerEntry>,
    after: Option<LedgerEntry>,
) -> Result<(), AllocError>
    ensures { OnOk result (IsNoted before after key batch.old batch.new) }
{
    match before {
        None => match after {
            None => Ok(()),
            Some(entry) => batch.init.push(entry),
        },
        Some(old) => match after {
            None => batch.dead.push(key),
            Some(entry) if old.has_same_parts(&entry) => Ok(()),
            Some(entry) => batch.live.push(entry),
        },
    }
}

/// Notes how a key changed.
fn note_at<B: Base>(
    base: &B,
    lower: &[Layer],
    top: &Layer,
    key: LedgerKey,
    batch: &mut Batch,
) -> Result<(), AllocError>
    ensures { OnOk result (IsNotedAt (B.entries base.now) (under_one (under (B.entries base.now) lower.now) top.now)
        key batch.old batch.new) }
{
    let before = base.find(&key)?;
    let after = entry_at(base, lower, top, &key)?;
    note(batch, key, before, after)
}

/// No changes.
fn no_changes(alloc: Global) -> Batch
    ensures { result ≡ no_changes }
{
    Batch {
        init: ItemList::new(alloc),
        live: ItemList::new(alloc),
        dead: ItemList::new(alloc),
    }
}

/// What the layers change of the base: looks at each key that one of them changed.
pub fn changes_of<B: Base>(
    alloc: Global,
    base: &B,
    lower: &[Layer],
    top: &Layer,
) -> Result<Batch, AllocError>
    ensures { IfOk result (IsBatch (B.entries base.now) (under_one (under (B.entries base.now) lower.now) top.now)) }
{
    let mut batch = no_changes(alloc);
    for key in changed_keys(alloc, lower, top)? {
        note_at(base, lower, top, key, &mut batch)?;
    }
    Ok(batch)
}
