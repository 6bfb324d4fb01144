//! Where entries come from.

ghost use Rattle.std.specs.Prelude.{◌≡◌, IfOk, Some};
ghost use Rattle.std.specs.FinMap.{get};
ghost use Rattle.entry_map.specs.EntryMap.{EntryMap, IsKeyed, IsNextAfter, IsNextUpTo};
ghost use Rattle.entry_map.specs.Book.{IsPositionPriced, AreOffersSound, next_offer};
ghost use Rattle.entry_map.specs.Indexes.{IsIndexOf};

use crate::index::OfferIndex;
use ledger_types::{Asset, LedgerEntry, LedgerKey, OfferEntry, Price};
use std::alloc::AllocError;

/// A finite map from keys to entries that is read and not changed. It keeps the allocator that its answers are made
/// with.
pub trait Base {
    // The map.
    ghost entries: { Self → EntryMap };

    /// The entry with a key.
    fn find(&self, key: &LedgerKey) -> Result<Option<LedgerEntry>, AllocError>
        ensures found { IfOk result (λ entry. entry ≡ get (entries self.now) key.now) }
        ensures keyed { IsKeyed (entries self.now) };

    /// The entry with the least key above a key.
    fn next_after(&self, key: &LedgerKey) -> Result<Option<LedgerEntry>, AllocError>
        ensures next { IfOk result (IsNextAfter (entries self.now) key.now) }
        ensures keyed { IsKeyed (entries self.now) };

    /// The entry with the least key above a key, as far as a last key: none where no key up to that has an entry. What
    /// stands behind the last key need not be looked at.
    fn next_up_to(
        &self,
        key: &LedgerKey,
        last: &LedgerKey,
    ) -> Result<Option<LedgerEntry>, AllocError>
        ensures { IfOk result (IsNextUpTo (entries self.now) key.now (Some last.now)) }
    {
        let _ = last;
        self.next_after(key)
    }

    /// The index of the map's offers.
    fn offers(&self) -> Result<OfferIndex, AllocError>
        ensures { IfOk result (IsIndexOf (entries self.now)) };

    /// The first offer of a pair's book after a price and an id, or at its head. None exactly where there is none.
    final fn offer_after(
        &self,
        selling: &Asset,
        buying: &Asset,
        after: Option<(Price, i64)>,
    ) -> Result<Option<OfferEntry>, AllocError>
        ensures { AreOffersSound (entries self.now) → IsPositionPriced after
            → IfOk result (λ offer. offer ≡ next_offer (entries self.now) selling.now buying.now after) }
    {
        Ok(self.offers()?.offer_after(selling, buying, after))
    }
}
