//! Changes in the order of their keys.

ghost use Rattle.std.specs.Prelude.{◌≡◌, IfOk, map};
ghost use Rattle.std.specs.List.Sorted.{IsPermutation, IsSortedBy};
ghost use Rattle.std.specs.Ordering.{is_lt};
ghost use Rattle.ledger_types.specs.KeyOrder.{key_cmp};
ghost use Rattle.change_stream.specs.Making as spec;

use crate::change::Change;
use ledger_types::LedgerKey;
use std::alloc::{AllocError, Global};
use std::cmp::Ordering;

/// A change beside its key, so that the key isn't made at each comparison.
pub(crate) struct KeyedChange {
    pub(crate) key: LedgerKey,
    pub(crate) change: Change,
}

impl Drop for KeyedChange {
    fn drop(self) {
        let KeyedChange { key, change } = self;
        drop(key);
        drop(change);
    }
}

impl KeyedChange {
    /// The change alone.
    fn into_change(self) -> Change
        ensures { result ≡ self.change }
    {
        let KeyedChange { key: _, change } = self;
        change
    }
}

/// The order of the keys of two changes.
#[tactic(auto, using(ledger_types::proofs::KeyOrdering::keys_compared))]
fn by_key(one: &KeyedChange, other: &KeyedChange) -> Ordering
    ensures { result ≡ key_cmp one.now.key other.now.key }
{
    one.key.cmp(&other.key)
}

/// Puts changes in the order of their keys.
fn sort_by_key(keyed: &mut Vec<KeyedChange>)
    ensures same { IsPermutation keyed.old.items keyed.new.items }
    ensures sorted { IsSortedBy (λ a b. is_lt (key_cmp a.key b.key)) keyed.new.items }
{
    keyed.sort_unstable_by(|one, other| by_key(one, other));
}

/// The changes alone.
fn without_keys(alloc: Global, keyed: Vec<KeyedChange>) -> Result<Vec<Change>, AllocError>
    ensures { IfOk result (λ changes. changes.items ≡ map (λ k. k.change) keyed.items) }
{
    let mut changes = Vec::with_capacity(alloc, keyed.len())?;
    for item in keyed {
        changes.push(item.into_change())?;
    }
    Ok(changes)
}

/// Changes in the order of their keys.
pub(crate) fn sorted_changes(
    alloc: Global,
    keyed: Vec<KeyedChange>,
) -> Result<Vec<Change>, AllocError>
    ensures { IfOk result (λ changes. spec.AreSorted keyed.items changes.items) }
{
    let mut keyed = keyed;
    sort_by_key(&mut keyed);
    without_keys(alloc, keyed)
}
