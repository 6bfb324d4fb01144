//! A map of entries with undo.

ghost use Rattle.std.specs.Prelude.{◌≡◌, IfOk, IfSome, MatchOption, OnOk, Some};
ghost use Rattle.std.specs.Option.{option_copied};
ghost use Rattle.std.specs.FinMap.{get};
ghost use Rattle.ledger_types.specs.Keys.{key_of};
ghost use Rattle.entry_map.specs.EntryMap.{IsNextAfter, IsNextUpTo, put, erase};
ghost use Rattle.entry_map.specs.Batch.{IsBatch};
ghost use Rattle.entry_map.specs.Book.{IsPositionPriced, AreOffersSound, next_offer, offer_of};
ghost use Rattle.entry_map.specs.Indexes.{IsIndexOf};
ghost use Rattle.entry_map.specs.Undo.{started, with_current, IsOpen, opened, undone, kept};

use crate::base::Base;
use crate::batch::Batch;
use crate::index::{OfferIndex, is_of_offer, offer_in};
use crate::layered::Layered;
use crate::walk::EntryWalk;
use ledger_types::{Asset, LedgerEntry, LedgerKey, OfferEntry, Price};
use std::alloc::{AllocError, Global};
use std::marker::Model;

/// A map of entries with undo: layers of changes over a base, which stays as it is, and the index of the offers after
/// them. Contracts see the map, the maps that are kept for undoing, and the base's map. After a call that memory was
/// refused to it may only be dropped.
#[derive(Drop)]
pub struct Entries<'a, B: Base> {
    alloc: Global,
    layered: Layered<'a, B>,
    offers: OfferIndex,
    // The indexes that were saved as each child was opened, the newest at the end.
    saved: Vec<OfferIndex>,
    // Whether memory was refused in the middle of a change.
    is_broken: bool,
}

impl<'a, B: Base> Model for Entries<'a, B> {
    ghost use Rattle.std.specs.Prelude.{◌≡◌, false};
    ghost use Rattle.entry_map.specs.Undo.{Undo, undo_code};
    ghost use Rattle.entry_map.specs.Indexes.{IsIndexed};

    ghost Value = { Undo };

    ghost coded = { undo_code };

    ghost view = { λ e. e.layered };

    ghost invariant = { λ e. e.is_broken ≡ false → IsIndexed e.layered e.offers e.saved.items };
}

/// The index after an entry is put.
fn index_with<B: Base>(
    alloc: Global,
    layered: &Layered<'_, B>,
    offers: &OfferIndex,
    entry: &LedgerEntry,
) -> Result<OfferIndex, AllocError>
    ensures { IsIndexOf layered.now.current offers.now
        → IfOk result (IsIndexOf (put layered.now.current entry.now)) }
{
    let Some(offer) = offer_in(entry) else {
        return offers.share();
    };
    let old = layered.get(&entry.key()?)?;
    let left = offers.without_entry(alloc, &old)?;
    left.with_offer(alloc, offer)
}

/// The index after a key is erased.
fn index_without<B: Base>(
    alloc: Global,
    layered: &Layered<'_, B>,
    offers: &OfferIndex,
    key: &LedgerKey,
) -> Result<OfferIndex, AllocError>
    ensures { IsIndexOf layered.now.current offers.now
        → IfOk result (IsIndexOf (erase layered.now.current key.now)) }
{
    if !is_of_offer(key) {
        return offers.share();
    }
    let old = layered.get(key)?;
    offers.without_entry(alloc, &old)
}

impl<'a, B: Base> Entries<'a, B> {
    /// The base's map, with nothing to undo.
    pub fn new(alloc: Global, base: &'a B) -> Result<Self, AllocError>
        ensures { IfOk result (λ entries. entries ≡ started (B.entries base.now)) }
    {
        Ok(Entries {
            alloc,
            layered: Layered::new(alloc, base)?,
            offers: base.offers()?,
            saved: Vec::new(alloc),
            is_broken: false,
        })
    }

    /// The entry with a key.
    pub fn get(&self, key: &LedgerKey) -> Result<Option<LedgerEntry>, AllocError>
        ensures found { IfOk result (λ entry. entry ≡ get self.now.current key.now) }
        ensures keyed { IfOk result (λ entry. IfSome entry (λ e. key_of e ≡ key.now)) }
    {
        self.layered.get(key)
    }

    /// What a key was changed to against the base, if it was: an entry, or none where it was erased. Nothing is copied.
    pub fn changed(&self, key: &LedgerKey) -> Option<Option<&LedgerEntry>>
        ensures { MatchOption result (get self.now.current key.now ≡ get self.now.base key.now)
            (λ change. get self.now.current key.now ≡ option_copied change) }
    {
        self.layered.changed(key)
    }

    /// The entry that the base has with a key.
    pub fn base_entry(&self, key: &LedgerKey) -> Result<Option<LedgerEntry>, AllocError>
        ensures { IfOk result (λ entry. entry ≡ get self.now.base key.now) }
    {
        self.layered.base_entry(key)
    }

    /// The entry with the least key above a key.
    pub fn next_after(&self, key: &LedgerKey) -> Result<Option<LedgerEntry>, AllocError>
        ensures { IfOk result (IsNextAfter self.now.current key.now) }
    {
        self.layered.next_after(key)
    }

    /// The entry with the least key above a key, as far as a last key: none where no key up to that has an entry.
    pub fn next_up_to(
        &self,
        key: &LedgerKey,
        last: &LedgerKey,
    ) -> Result<Option<LedgerEntry>, AllocError>
        ensures { IfOk result (IsNextUpTo self.now.current key.now (Some last.now)) }
    {
        self.layered.next_up_to(key, last)
    }

    /// A walk over the entries in the order of their keys, which begins at a key and goes as far as another one.
    pub fn walk_from(
        &self,
        key: &LedgerKey,
        last: &LedgerKey,
    ) -> Result<EntryWalk<'_, B>, AllocError>
        ensures { IfOk result (λ walk.
            walk ≡ record { entries = self.now.current; at = key.now; last = last.now }) }
    {
        self.layered.walk_from(key, last)
    }

    /// The first offer of a pair's book after a price and an id, or at its head. None exactly where there is none.
    pub fn offer_after(
        &self,
        selling: &Asset,
        buying: &Asset,
        after: Option<(Price, i64)>,
    ) -> Result<Option<OfferEntry>, AllocError>
        ensures { AreOffersSound self.now.current → IsPositionPriced after
            → IfOk result (λ offer. offer ≡ next_offer self.now.current selling.now buying.now after) }
    {
        if self.is_broken {
            return Err(AllocError);
        }
        Ok(self.offers.offer_after(selling, buying, after))
    }

    /// The index of the map's offers.
    pub fn offers(&self) -> Result<OfferIndex, AllocError>
        ensures { IfOk result (IsIndexOf self.now.current) }
    {
        if self.is_broken {
            return Err(AllocError);
        }
        self.offers.share()
    }

    /// Puts an entry under its key, in place of what was there.
    pub fn put(&mut self, entry: LedgerEntry) -> Result<(), AllocError>
        ensures { OnOk result (self.new ≡ with_current self.old (put self.old.current entry)) }
    {
        if self.is_broken {
            return Err(AllocError);
        }
        self.is_broken = true;
        self.offers = index_with(self.alloc, &self.layered, &self.offers, &entry)?;
        self.layered.put(entry)?;
        self.is_broken = false;
        Ok(())
    }

    /// Removes what is under a key, if anything is.
    pub fn erase(&mut self, key: &LedgerKey) -> Result<(), AllocError>
        ensures { OnOk result (self.new ≡ with_current self.old (erase self.old.current key.now)) }
    {
        if self.is_broken {
            return Err(AllocError);
        }
        self.is_broken = true;
        self.offers = index_without(self.alloc, &self.layered, &self.offers, key)?;
        self.layered.erase(key)?;
        self.is_broken = false;
        Ok(())
    }

    /// Removes the offer under a key, which is known, so that its position needs no look-up.
    pub fn erase_offer(&mut self, key: &LedgerKey, offer: &OfferEntry) -> Result<(), AllocError>
        requires { offer_of (get self.old.current key.now) ≡ Some offer.now }
        ensures { OnOk result (self.new ≡ with_current self.old (erase self.old.current key.now)) }
    {
        if self.is_broken {
            return Err(AllocError);
        }
        self.is_broken = true;
        self.offers = self.offers.without_offer(self.alloc, offer)?;
        self.layered.erase(key)?;
        self.is_broken = false;
        Ok(())
    }

    /// Opens a child, whose changes can be undone together.
    pub fn child(&mut self) -> Result<(), AllocError>
        ensures { OnOk result (self.new ≡ opened self.old) }
    {
        if self.is_broken {
            return Err(AllocError);
        }
        self.is_broken = true;
        self.saved.push(self.offers.share()?)?;
        self.layered.child()?;
        self.is_broken = false;
        Ok(())
    }

    /// Keeps the changes of the newest child.
    pub fn commit(&mut self) -> Result<(), AllocError>
        requires { IsOpen self.old }
        ensures { OnOk result (self.new ≡ kept self.old) }
    {
        if self.is_broken {
            return Err(AllocError);
        }
        self.is_broken = true;
        self.saved.pop();
        self.layered.commit()?;
        self.is_broken = false;
        Ok(())
    }

    /// Undoes the changes of the newest child. It takes no memory.
    pub fn drop_child(&mut self)
        requires { IsOpen self.old }
        ensures { self.new ≡ undone self.old }
    {
        if let Some(offers) = self.saved.pop() {
            self.offers = offers;
        }
        self.layered.drop_child();
    }

    /// What changed against the base.
    pub fn changes(&self) -> Result<Batch, AllocError>
        ensures { IfOk result (IsBatch self.now.base self.now.current) }
    {
        self.layered.changes()
    }
}
