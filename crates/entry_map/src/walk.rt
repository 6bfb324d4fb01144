//! The entries of a base under layers, in the order of their keys.

ghost use Rattle.std.specs.Prelude.{◌≡◌, ◌||◌, IfOk, IfSome, List, Some, option_map};
ghost use Rattle.std.specs.Option.{option_copied};
ghost use Rattle.std.specs.FinMap.{contains_key};
ghost use Rattle.ledger_types.specs.Keys.{key_of};
ghost use Rattle.entry_map.specs.EntryMap.{IsNextAfter, IsNextUpTo};
ghost use Rattle.entry_map.specs.Layers.{LayerMap, under, under_one, is_changed, lesser_of, IsNextKey};
ghost use Rattle.entry_map.specs.Walk.{IsNextKnown, up_to};
ghost use Rattle.entry_map.specs.Reached.{IsReached};
ghost use Rattle.entry_map.specs.declared.walk.Known.TheVariants.{Changed};

use crate::base::Base;
use crate::layer::Layer;
use crate::lookup::entry_at;
use ledger_types::{LedgerEntry, LedgerKey};
use std::alloc::AllocError;
use std::cmp::Ordering;
use std::marker::Model;

/// The lesser of two keys that may be missing.
fn lesser<'a>(one: Option<&'a LedgerKey>, other: Option<&'a LedgerKey>) -> Option<&'a LedgerKey>
    ensures { option_copied result ≡ lesser_of (option_copied one.entry) (option_copied other.entry) }
{
    match one {
        None => other,
        Some(a) => match other {
            None => Some(a),
            Some(b) => match b.cmp(a) {
                Ordering::Less => Some(b),
                _ => Some(a),
            },
        },
    }
}

/// The least key above a key that one of the layers changed.
fn next_changed<'a>(layers: &'a [Layer], key: &LedgerKey) -> Option<&'a LedgerKey>
    ensures { IsNextKey (is_changed layers.now) key.now (option_copied result) }
{
    match layers {
        [] => None,
        [oldest, newer @ ..] => lesser(oldest.next_after(key), next_changed(newer, key)),
    }
}

/// The entry of a base with the least key above a key, as far as a last key, if there is one.
fn next_in_base<B: Base>(
    base: &B,
    key: &LedgerKey,
    last: Option<&LedgerKey>,
) -> Result<Option<LedgerEntry>, AllocError>
    ensures { IfOk result (IsNextUpTo (B.entries base.now) key.now (option_copied last.entry)) }
{
    match last {
        None => base.next_after(key),
        Some(last) => base.next_up_to(key, last),
    }
}

/// A key, if it is at most a last one.
fn up_to<'a>(key: Option<&'a LedgerKey>, last: Option<&LedgerKey>) -> Option<&'a LedgerKey>
    ensures { option_copied result ≡ up_to (option_copied key.entry) (option_copied last.entry) }
{
    let key = key?;
    match last {
        None => Some(key),
        Some(last) => match key.cmp(last) {
            Ordering::Greater => None,
            _ => Some(key),
        },
    }
}

/// What is next: an entry of the base that no layer changed, or a key that one of the layers changed.
#[derive(Drop)]
enum Known {
    Kept(LedgerEntry),
    Changed(LedgerKey),
}

/// A changed key, if there is one.
fn changed(key: Option<&LedgerKey>) -> Result<Option<Known>, AllocError>
    ensures { IfOk result (λ known. known ≡ option_map Changed (option_copied key.entry)) }
{
    match key {
        None => Ok(None),
        Some(key) => Ok(Some(Known::Changed(key.copy()?))),
    }
}

/// The least key above a key that one of the layers changed, the open one among them.
fn next_in_layers<'a>(lower: &'a [Layer], top: &'a Layer, key: &LedgerKey) -> Option<&'a LedgerKey>
    ensures { IsNextKey (λ q. contains_key top.now q || is_changed lower.now q) key.now (option_copied result) }
{
    lesser(top.next_after(key), next_changed(lower, key))
}

/// The least key above a key that the base has or one of the layers changed, where the least that the layers changed is
/// known, as far as a last key. The base's entry is at hand, so that one that no layer changed needs no other look-up.
fn next_known<B: Base>(
    base: &B,
    ahead: Option<&LedgerKey>,
    key: &LedgerKey,
    last: Option<&LedgerKey>,
) -> Result<Option<Known>, AllocError>
    ensures { (ls : List LayerMap) (top : LayerMap)
        → IsNextKey (λ q. contains_key top q || is_changed ls q) key.now (option_copied ahead.entry)
        → IfOk result (IsNextKnown (B.entries base.now) ls top key.now (option_copied last.entry)) }
{
    let Some(entry) = next_in_base(base, key, last)? else {
        return changed(up_to(ahead, last));
    };
    let Some(least) = ahead else {
        return Ok(Some(Known::Kept(entry)));
    };
    match entry.key()?.cmp(least) {
        Ordering::Less => Ok(Some(Known::Kept(entry))),
        _ => changed(ahead),
    }
}

/// An entry that a walk came to, and the least key above its own that one of the layers changed.
#[derive(Drop)]
struct Reached<'a> {
    entry: LedgerEntry,
    ahead: Option<&'a LedgerKey>,
}

/// The entry with the least key above a key, as far as a last key: goes over the known keys, past those that are
/// erased. `ahead` is the least key above the first one that the layers changed; it is looked up anew only where the
/// walk comes to it.
fn reach<'a, B: Base>(
    base: &B,
    lower: &'a [Layer],
    top: &'a Layer,
    key: &LedgerKey,
    last: Option<&LedgerKey>,
    ahead: Option<&'a LedgerKey>,
) -> Result<Option<Reached<'a>>, AllocError>
    requires { IsNextKey (λ q. contains_key top.now q || is_changed lower.now q) key.now (option_copied ahead) }
    ensures { IfOk result (IsReached (B.entries base.now) lower.now top.now key.now (option_copied last.entry)) }
{
    let mut at = key.copy()?;
    let mut ahead = ahead;
    while let Some(known) = next_known(base, ahead, &at, last)? {
        let next = match known {
            Known::Kept(entry) => return Ok(Some(Reached { entry, ahead })),
            Known::Changed(next) => next,
        };
        ahead = next_in_layers(lower, top, &next);
        if let Some(entry) = entry_at(base, lower, top, &next)? {
            return Ok(Some(Reached { entry, ahead }));
        }
        at = next;
    }
    Ok(None)
}

/// The entry with the least key above a key.
pub fn entry_after<B: Base>(
    base: &B,
    lower: &[Layer],
    top: &Layer,
    key: &LedgerKey,
) -> Result<Option<LedgerEntry>, AllocError>
    ensures { IfOk result (IsNextAfter (under_one (under (B.entries base.now) lower.now) top.now) key.now) }
{
    match reach(base, lower, top, key, None, next_in_layers(lower, top, key))? {
        None => Ok(None),
        Some(reached) => Ok(Some(reached.entry)),
    }
}

/// The entry with the least key above a key, as far as a last key.
pub fn entry_up_to<B: Base>(
    base: &B,
    lower: &[Layer],
    top: &Layer,
    key: &LedgerKey,
    last: &LedgerKey,
) -> Result<Option<LedgerEntry>, AllocError>
    ensures { IfOk result
        (IsNextUpTo (under_one (under (B.entries base.now) lower.now) top.now) key.now (Some last.now)) }
{
    let ahead = next_in_layers(lower, top, key);
    match reach(base, lower, top, key, Some(last), ahead)? {
        None => Ok(None),
        Some(reached) => Ok(Some(reached.entry)),
    }
}

/// A walk over the entries of a base under layers, in the order of their keys, as far as a last key. Contracts see the
/// map, the key that it came to, and the last one.
#[derive(Drop)]
pub struct EntryWalk<'a, B: Base> {
    base: &'a B,
    lower: &'a [Layer],
    top: &'a Layer,
    at: LedgerKey,
    last: LedgerKey,
    // The least key above that one that one of the layers changed.
    ahead: Option<&'a LedgerKey>,
}

impl<'a, B: Base> Model for EntryWalk<'a, B> {
    ghost use Rattle.std.specs.Prelude.{◌||◌};
    ghost use Rattle.std.specs.Option.{option_copied};
    ghost use Rattle.std.specs.FinMap.{contains_key};
    ghost use Rattle.entry_map.specs.Layers.{under, under_one, is_changed, IsNextKey};
    ghost use Rattle.entry_map.specs.Walk.{WalkAt, walk_code};

    ghost Value = { WalkAt };

    ghost coded = { walk_code };

    ghost view = { λ w. record {
      entries = under_one (under (B.entries w.base.now) w.lower.now) w.top.now;
      at = w.at;
      last = w.last;
    } };

    ghost invariant = { λ w.
        IsNextKey (λ q. contains_key w.top.now q || is_changed w.lower.now q) w.at (option_copied w.ahead) };
}

impl<'a, B: Base> EntryWalk<'a, B> {
    /// A walk that begins at a key, as far as another one.
    pub(crate) fn new(
        base: &'a B,
        lower: &'a [Layer],
        top: &'a Layer,
        key: &LedgerKey,
        last: &LedgerKey,
    ) -> Result<EntryWalk<'a, B>, AllocError>
        ensures { IfOk result (λ walk. walk ≡ record {
          entries = under_one (under (B.entries base.now) lower.now) top.now;
          at = key.now;
          last = last.now;
        }) }
    {
        Ok(EntryWalk {
            base,
            lower,
            top,
            at: key.copy()?,
            last: last.copy()?,
            ahead: next_in_layers(lower, top, key),
        })
    }

    /// The entry with the least key above the one that the walk came to; it goes on from there. None where no key up to
    /// the last one has an entry.
    pub fn next(&mut self) -> Result<Option<LedgerEntry>, AllocError>
        ensures entries { self.new.entries ≡ self.old.entries }
        ensures last { self.new.last ≡ self.old.last }
        ensures next { IfOk result (IsNextUpTo self.old.entries self.old.at (Some self.old.last)) }
        ensures at { IfOk result (λ entry. IfSome entry (λ e. self.new.at ≡ key_of e)) }
    {
        let last = Some(&self.last);
        let Some(reached) = reach(self.base, self.lower, self.top, &self.at, last, self.ahead)?
        else {
            return Ok(None);
        };
        let Reached { entry, ahead } = reached;
        self.at = entry.key()?;
        self.ahead = ahead;
        Ok(Some(entry))
    }
}
