//! What is under a key in a base under layers.

ghost use Rattle.std.specs.Prelude.{◌≡◌, IfOk, IfSome, MatchOption, None, Some};
ghost use Rattle.std.specs.Option.{option_copied};
ghost use Rattle.std.specs.FinMap.{get};
ghost use Rattle.ledger_types.specs.Keys.{key_of};
ghost use Rattle.entry_map.specs.Layers.{under, under_one, change_of, newest_change};

use crate::base::Base;
use crate::layer::Layer;
use ledger_types::item_list::Boxed;
use ledger_types::{LedgerEntry, LedgerKey};
use std::alloc::AllocError;

/// What the newest of the layers that changed a key changed it to. The layers are in the order of their age, the oldest
/// first.
fn change_in<'a>(layers: &'a [Layer], key: &LedgerKey) -> Option<&'a Option<Boxed<LedgerEntry>>>
    ensures found { option_copied result ≡ change_of layers.now key.now }
    ensures keyed { IfSome result (λ change. IfSome change.now (λ e. key_of e ≡ key.now)) }
{
    match layers {
        [] => None,
        [oldest, newer @ ..] => match change_in(newer, key) {
            Some(change) => Some(change),
            None => oldest.get(key),
        },
    }
}

/// What a key was changed to, if it was.
fn newest_change<'a>(
    lower: &'a [Layer],
    top: &'a Layer,
    key: &LedgerKey,
) -> Option<&'a Option<Boxed<LedgerEntry>>>
    ensures found { option_copied result ≡ newest_change lower.now top.now key.now }
    ensures keyed { IfSome result (λ change. IfSome change.now (λ e. key_of e ≡ key.now)) }
{
    match top.get(key) {
        Some(change) => Some(change),
        None => change_in(lower, key),
    }
}

/// What a key was changed to, if it was: an entry, or none where it was erased. Nothing is copied.
pub fn change_at<'a>(
    lower: &'a [Layer],
    top: &'a Layer,
    key: &LedgerKey,
) -> Option<Option<&'a LedgerEntry>>
    ensures { MatchOption result (newest_change lower.now top.now key.now ≡ None)
        (λ change. newest_change lower.now top.now key.now ≡ Some (option_copied change)) }
{
    match newest_change(lower, top, key) {
        None => None,
        Some(None) => Some(None),
        Some(Some(entry)) => Some(Some(entry.get())),
    }
}

/// The same entry once more, or none.
fn copied(entry: &Option<Boxed<LedgerEntry>>) -> Result<Option<LedgerEntry>, AllocError>
    ensures { IfOk result (λ copy. copy ≡ entry.now) }
{
    match entry {
        None => Ok(None),
        Some(entry) => Ok(Some(entry.get().copy()?)),
    }
}

/// The entry with a key.
pub fn entry_at<B: Base>(
    base: &B,
    lower: &[Layer],
    top: &Layer,
    key: &LedgerKey,
) -> Result<Option<LedgerEntry>, AllocError>
    ensures found { IfOk result (λ entry.
        entry ≡ get (under_one (under (B.entries base.now) lower.now) top.now) key.now) }
    ensures keyed { IfOk result (λ entry. IfSome entry (λ e. key_of e ≡ key.now)) }
{
    match newest_change(lower, top, key) {
        Some(change) => copied(change),
        None => base.find(key),
    }
}
