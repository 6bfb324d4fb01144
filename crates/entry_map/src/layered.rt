//! Layers of changes over a base.

ghost use Rattle.std.specs.Prelude.{◌≡◌, IfOk, IfSome, MatchOption, OnOk, Some};
ghost use Rattle.std.specs.Option.{option_copied};
ghost use Rattle.std.specs.FinMap.{get};
ghost use Rattle.ledger_types.specs.Keys.{key_of};
ghost use Rattle.entry_map.specs.EntryMap.{IsNextAfter, IsNextUpTo, put, erase};
ghost use Rattle.entry_map.specs.Batch.{IsBatch};
ghost use Rattle.entry_map.specs.Undo.{started, with_current, IsOpen, opened, undone, kept};

use crate::base::Base;
use crate::batch::Batch;
use crate::changes::changes_of;
use crate::layer::Layer;
use crate::lookup::{change_at, entry_at};
use crate::walk::{EntryWalk, entry_after, entry_up_to};
use ledger_types::{LedgerEntry, LedgerKey};
use std::alloc::{AllocError, Global};
use std::marker::Model;
use std::mem;

/// Layers of changes over a base, which stays as it is. Contracts see the map, the maps that are kept for undoing, and
/// the base's map.
#[derive(Drop)]
pub struct Layered<'a, B: Base> {
    alloc: Global,
    base: &'a B,
    // The changes under the newest open child, the oldest first.
    lower: Vec<Layer>,
    top: Layer,
}

impl<'a, B: Base> Model for Layered<'a, B> {
    ghost use Rattle.entry_map.specs.Undo.{Undo, undo_code};
    ghost use Rattle.entry_map.specs.Layers.{undo_of};

    ghost Value = { Undo };

    ghost coded = { undo_code };

    ghost view = { λ e. undo_of (B.entries e.base.now) e.lower.items e.top };
}

impl<'a, B: Base> Layered<'a, B> {
    /// The base's map, with nothing to undo.
    pub fn new(alloc: Global, base: &'a B) -> Result<Self, AllocError>
        ensures { IfOk result (λ layered. layered ≡ started (B.entries base.now)) }
    {
        Ok(Layered {
            alloc,
            base,
            lower: Vec::new(alloc),
            top: Layer::new(alloc),
        })
    }

    /// The entry with a key.
    pub fn get(&self, key: &LedgerKey) -> Result<Option<LedgerEntry>, AllocError>
        ensures found { IfOk result (λ entry. entry ≡ get self.now.current key.now) }
        ensures keyed { IfOk result (λ entry. IfSome entry (λ e. key_of e ≡ key.now)) }
    {
        entry_at(self.base, self.lower.as_slice(), &self.top, key)
    }

    /// What a key was changed to against the base, if it was: an entry, or none where it was erased. Nothing is copied.
    pub fn changed(&self, key: &LedgerKey) -> Option<Option<&LedgerEntry>>
        ensures { MatchOption result (get self.now.current key.now ≡ get self.now.base key.now)
            (λ change. get self.now.current key.now ≡ option_copied change) }
    {
        change_at(self.lower.as_slice(), &self.top, key)
    }

    /// The entry that the base has with a key.
    pub fn base_entry(&self, key: &LedgerKey) -> Result<Option<LedgerEntry>, AllocError>
        ensures { IfOk result (λ entry. entry ≡ get self.now.base key.now) }
    {
        self.base.find(key)
    }

    /// The entry with the least key above a key.
    pub fn next_after(&self, key: &LedgerKey) -> Result<Option<LedgerEntry>, AllocError>
        ensures { IfOk result (IsNextAfter self.now.current key.now) }
    {
        entry_after(self.base, self.lower.as_slice(), &self.top, key)
    }

    /// The entry with the least key above a key, as far as a last key: none where no key up to that has an entry.
    pub fn next_up_to(
        &self,
        key: &LedgerKey,
        last: &LedgerKey,
    ) -> Result<Option<LedgerEntry>, AllocError>
        ensures { IfOk result (IsNextUpTo self.now.current key.now (Some last.now)) }
    {
        entry_up_to(self.base, self.lower.as_slice(), &self.top, key, last)
    }

    /// A walk over the entries in the order of their keys, which begins at a key and goes as far as another one.
    pub fn walk_from(
        &self,
        key: &LedgerKey,
        last: &LedgerKey,
    ) -> Result<EntryWalk<'_, B>, AllocError>
        ensures { IfOk result (λ walk.
            walk ≡ record { entries = self.now.current; at = key.now; last = last.now }) }
    {
        EntryWalk::new(self.base, self.lower.as_slice(), &self.top, key, last)
    }

    /// Puts an entry under its key, in place of what was there.
    pub fn put(&mut self, entry: LedgerEntry) -> Result<(), AllocError>
        ensures { OnOk result (self.new ≡ with_current self.old (put self.old.current entry)) }
    {
        self.top.put(self.alloc, entry)
    }

    /// Removes what is under a key, if anything is.
    pub fn erase(&mut self, key: &LedgerKey) -> Result<(), AllocError>
        ensures { OnOk result (self.new ≡ with_current self.old (erase self.old.current key.now)) }
    {
        self.top.erase(key)
    }

    /// Opens a child, whose changes can be undone together.
    pub fn child(&mut self) -> Result<(), AllocError>
        ensures { OnOk result (self.new ≡ opened self.old) }
    {
        let top = mem::replace(&mut self.top, Layer::new(self.alloc));
        self.lower.push(top)?;
        Ok(())
    }

    /// Keeps the changes of the newest child.
    pub fn commit(&mut self) -> Result<(), AllocError>
        requires { IsOpen self.old }
        ensures { OnOk result (self.new ≡ kept self.old) }
    {
        if let Some(below) = self.lower.pop() {
            let top = mem::replace(&mut self.top, below);
            self.top.absorb(top)?;
        }
        Ok(())
    }

    /// Undoes the changes of the newest child. It takes no memory.
    pub fn drop_child(&mut self)
        requires { IsOpen self.old }
        ensures { self.new ≡ undone self.old }
    {
        if let Some(below) = self.lower.pop() {
            self.top = below;
        }
    }

    /// What changed against the base.
    pub fn changes(&self) -> Result<Batch, AllocError>
        ensures { IfOk result (IsBatch self.now.base self.now.current) }
    {
        changes_of(self.alloc, self.base, self.lower.as_slice(), &self.top)
    }
}
