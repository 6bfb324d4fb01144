//! Making changes of a batch.

ghost use Rattle.std.specs.Prelude.{◌≡◌, ◌++◌, [], ◌∷◌, IfOk, OnOk, map, option_to_list};
ghost use Rattle.std.specs.FinMap.{get};
ghost use Rattle.std.specs.List.{filter_map};
ghost use Rattle.ledger_types.specs.Keys.{key_of};
ghost use Rattle.entry_map.specs.EntryMap.{IsKeyed};
ghost use Rattle.change_stream.specs.Changes.{IsBatchOver, AreChangesOf};
ghost use Rattle.change_stream.specs.Making as spec;
ghost use Rattle.change_stream.specs.declared.change.Change.TheVariants.{Updated};

use crate::change::Change;
use crate::sorting::{KeyedChange, sorted_changes};
use entry_map::{Base, Batch};
use ledger_types::{LedgerEntry, LedgerKey};
use std::alloc::{AllocError, Global};

/// Adds a change beside its key.
fn add(keyed: &mut Vec<KeyedChange>, change: Change) -> Result<(), AllocError>
    ensures { OnOk result (keyed.new.items ≡ keyed.old.items ++ spec.keyed change ∷ []) }
{
    let key = change.key()?;
    keyed.push(KeyedChange { key, change })?;
    Ok(())
}

/// Adds the creation of an entry.
fn add_creation(keyed: &mut Vec<KeyedChange>, after: &LedgerEntry) -> Result<(), AllocError>
    ensures { OnOk result (keyed.new.items ≡ keyed.old.items ++ spec.creation after.now ∷ []) }
{
    let after = after.copy()?;
    add(keyed, Change::Created { after })
}

/// Adds the creations of entries.
fn add_creations(keyed: &mut Vec<KeyedChange>, init: &[LedgerEntry]) -> Result<(), AllocError>
    ensures { OnOk result (keyed.new.items ≡ keyed.old.items ++ map spec.creation init.now) }
{
    for after in init {
        add_creation(keyed, after)?;
    }
    Ok(())
}

/// The base's entry with the key of an entry.
fn entry_before<B: Base>(base: &B, after: &LedgerEntry) -> Result<Option<LedgerEntry>, AllocError>
    ensures found { IfOk result (λ before. before ≡ get (B.entries base.now) (key_of after.now)) }
    ensures keyed { IfOk result (λ _. IsKeyed (B.entries base.now)) }
{
    let key = after.key()?;
    base.find(&key)
}

/// Adds the update of an entry to another one.
fn add_changed(
    keyed: &mut Vec<KeyedChange>,
    before: LedgerEntry,
    after: &LedgerEntry,
) -> Result<(), AllocError>
    ensures { OnOk result (keyed.new.items ≡ keyed.old.items ++ spec.keyed (Updated before after.now) ∷ []) }
{
    let after = after.copy()?;
    add(keyed, Change::Updated { before, after })
}

/// Adds the update to an entry of the base's entry with its key, if the base has one.
fn add_update<B: Base>(
    keyed: &mut Vec<KeyedChange>,
    base: &B,
    after: &LedgerEntry,
) -> Result<(), AllocError>
    ensures items { OnOk result (keyed.new.items
        ≡ keyed.old.items ++ option_to_list (spec.update_in (B.entries base.now) after.now)) }
    ensures keyed { OnOk result (IsKeyed (B.entries base.now)) }
{
    match entry_before(base, after)? {
        None => Ok(()),
        Some(before) => add_changed(keyed, before, after),
    }
}

/// Adds the updates to entries of the base's entries.
fn add_updates<B: Base>(
    keyed: &mut Vec<KeyedChange>,
    base: &B,
    live: &[LedgerEntry],
) -> Result<(), AllocError>
    ensures items { OnOk result (keyed.new.items
        ≡ keyed.old.items ++ filter_map (spec.update_in (B.entries base.now)) live.now) }
    ensures keyed { OnOk result (spec.IsKeyedFor (B.entries base.now) live.now) }
{
    for after in live {
        add_update(keyed, base, after)?;
    }
    Ok(())
}

/// Adds the removal of the base's entry with a key, if the base has one.
fn add_removal<B: Base>(
    keyed: &mut Vec<KeyedChange>,
    base: &B,
    key: &LedgerKey,
) -> Result<(), AllocError>
    ensures items { OnOk result (keyed.new.items
        ≡ keyed.old.items ++ option_to_list (spec.removal_in (B.entries base.now) key.now)) }
    ensures keyed { OnOk result (IsKeyed (B.entries base.now)) }
{
    match base.find(key)? {
        None => Ok(()),
        Some(before) => add(keyed, Change::Removed { before }),
    }
}

/// Adds the removals of the base's entries with some keys.
fn add_removals<B: Base>(
    keyed: &mut Vec<KeyedChange>,
    base: &B,
    dead: &[LedgerKey],
) -> Result<(), AllocError>
    ensures items { OnOk result (keyed.new.items
        ≡ keyed.old.items ++ filter_map (spec.removal_in (B.entries base.now)) dead.now) }
    ensures keyed { OnOk result (spec.IsKeyedFor (B.entries base.now) dead.now) }
{
    for key in dead {
        add_removal(keyed, base, key)?;
    }
    Ok(())
}

/// The changes of a batch over a base, each once, in the order of their keys.
pub fn changes<B: Base>(alloc: Global, base: &B, batch: &Batch) -> Result<Vec<Change>, AllocError>
    requires { IsBatchOver (B.entries base.now) batch.now }
    ensures { IfOk result (λ changes. AreChangesOf (B.entries base.now) batch.now changes.items) }
{
    let mut keyed = Vec::new(alloc);
    add_creations(&mut keyed, batch.init.as_slice())?;
    add_updates(&mut keyed, base, batch.live.as_slice())?;
    add_removals(&mut keyed, base, batch.dead.as_slice())?;
    sorted_changes(alloc, keyed)
}
