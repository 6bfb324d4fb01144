//! Offers by their positions, kept in their order.

ghost use Rattle.std.specs.Prelude.{◌≡◌, None, Some, List, [], ◌∷◌, IfOk, OnOk, MatchOption, option_map, map};
ghost use Rattle.std.specs.BTreeMap.{IsFromIterResult};
ghost use Rattle.std.specs.Option.{option_copied};
ghost use Rattle.std.specs.List.{IsDistinct};
ghost use Rattle.std.specs.Ordering.{eq_by_cmp};
ghost use Rattle.std.specs.FinMap.{empty, insert, remove, get, from_entries};
ghost use Rattle.ledger_types.specs.KeyOrder.{key_cmp};
ghost use Rattle.ledger_types.specs.Keys.{key_of};
ghost use Rattle.ledger_types.specs.declared.key.LedgerKey.{LedgerKey as AKey};
ghost use Rattle.ledger_types.specs.declared.offer.OfferEntry.{OfferEntry as AnOffer};
ghost use Rattle.entry_map.specs.EntryMap.{EntryMap, erase, put};
ghost use Rattle.entry_map.specs.Book.{IsPositionPriced, AreSound, AreOffersSound, next_in, next_offer, offer_in};
ghost use Rattle.entry_map.specs.Book.{offer_of, offers_in};
ghost use Rattle.entry_map.specs.Positions.{IsNarrow, position_of, positioned, terms_of};
ghost use Rattle.entry_map.specs.Indexes.{IsIndexOf, IsNextOfPair, IsLastOfPair, IsLeastPosition, IsLastPosition};
ghost use Rattle.entry_map.specs.Indexes.{AreNarrow};
ghost use Rattle.entry_map.specs.Indexes.{IsChangedTo, index_of, is_of_offer, name_of, with_offers, without};
ghost use Rattle.entry_map.specs.Indexes.{without_offers};

use crate::batch::Batch;
use crate::position::{
    BookPosition, OfferTerms, position_of, prices_are_narrow, start_of, terms_of,
};
use ledger_types::{AccountId, Asset, LedgerEntry, LedgerEntryBody, LedgerKey, OfferEntry, Price};
use shared_tree::{Kept, Tree};
use std::alloc::{AllocError, Global};
use std::collections::BTreeMap;
use std::marker::Model;

/// Offers by their positions, in the order of their books. What changes is made anew, and the rest is shared. Contracts
/// see under each position what of its offer it doesn't determine.
#[derive(Drop)]
pub struct OfferIndex {
    tree: Tree<BookPosition, OfferTerms>,
}

impl Model for OfferIndex {
    ghost use Rattle.std.specs.FinMap.{from_sorted};
    ghost use Rattle.shared_tree.specs.Rows.{IsRising};
    ghost use Rattle.entry_map.specs.Order.{order};
    ghost use Rattle.entry_map.specs.Indexes.{PositionMap, position_map_code};

    ghost Value = { PositionMap };

    ghost coded = { position_map_code };

    ghost view = { λ index. from_sorted index.tree };

    ghost invariant = { λ index. IsRising order index.tree };
}

/// The offer that an entry is, if it is one.
pub fn offer_in(entry: &LedgerEntry) -> Option<&OfferEntry>
    ensures { option_copied result ≡ offer_in entry.now.body }
{
    match &entry.body {
        LedgerEntryBody::Offer(offer) => Some(offer),
        _ => None,
    }
}

/// The offer that an entry is, if there is one that is.
pub fn offer_of(entry: &Option<LedgerEntry>) -> Option<OfferEntry>
    ensures { result ≡ offer_of entry.now }
{
    match entry {
        None => None,
        Some(entry) => offer_in(entry).copied(),
    }
}

/// Puts the offer that an entry is, if it is one, at the end of a list of those of which an index is to be made.
pub fn push_offer(offers: &mut Vec<OfferEntry>, entry: &LedgerEntry) -> Result<(), AllocError>
    ensures { (m : EntryMap) → IsIndexOf m (index_of offers.old.items) → get m (key_of entry.now) ≡ None
        → OnOk result (IsIndexOf (put m entry.now) (index_of offers.new.items)) }
{
    if let Some(offer) = offer_in(entry) {
        prices_are_narrow(offer.price);
        offers.push(*offer)?;
    }
    Ok(())
}

/// The positions of offers with their terms.
fn positioned(
    alloc: Global,
    offers: &[OfferEntry],
) -> Result<Vec<(BookPosition, OfferTerms)>, AllocError>
    ensures { IfOk result (λ pairs. pairs.items ≡ map positioned offers.now) }
{
    let mut pairs = Vec::with_capacity(alloc, offers.len())?;
    for offer in offers {
        pairs.push((position_of(offer), terms_of(offer)))?;
    }
    Ok(pairs)
}

/// The tree of positions with terms, sorted at once. Of those that are the same the last one stays.
fn tree_of(
    pairs: Vec<(BookPosition, OfferTerms)>,
) -> Result<BTreeMap<BookPosition, OfferTerms>, AllocError>
    ensures { IfOk result (IsFromIterResult ⟦<BookPosition as Ord>⟧.cmp pairs.items) }
{
    let alloc = *pairs.allocator();
    pairs.into_iter().collect(alloc)
}

/// The positions of a tree with their terms, in their order.
fn rising_row(
    alloc: Global,
    tree: BTreeMap<BookPosition, OfferTerms>,
) -> Result<Vec<Kept<BookPosition, OfferTerms>>, AllocError>
    ensures { IfOk result (λ row. row.items ≡ tree.entries) }
{
    let mut row = Vec::with_capacity(alloc, tree.len())?;
    for (position, terms) in tree {
        row.push(Kept::new(alloc, position, terms)?)?;
    }
    Ok(row)
}

/// Whether nothing but an offer can be under a key.
pub fn is_of_offer(key: &LedgerKey) -> bool
    ensures { result ≡ is_of_offer key.now }
{
    matches!(key, LedgerKey::Offer { .. })
}

impl OfferIndex {
    /// The index of no offers.
    pub const fn empty() -> OfferIndex
        ensures { result ≡ empty }
    {
        OfferIndex {
            tree: Tree::empty(),
        }
    }

    /// The same index, for one owner more.
    pub fn share(&self) -> Result<OfferIndex, AllocError>
        ensures { IfOk result (λ index. index ≡ self.now) }
    {
        Ok(OfferIndex {
            tree: self.tree.share()?,
        })
    }

    /// The index with an offer.
    pub(crate) fn with_offer(
        &self,
        alloc: Global,
        offer: &OfferEntry,
    ) -> Result<OfferIndex, AllocError>
        ensures value { IfOk result (λ index.
            index ≡ insert self.now (position_of offer.now) (terms_of offer.now)) }
        ensures narrow { IsNarrow offer.now.price }
    {
        let kept = Kept::new(alloc, position_of(offer), terms_of(offer))?;
        Ok(OfferIndex {
            tree: self.tree.put(alloc, &kept)?,
        })
    }

    /// The index without the position of an offer, which is that of a map without it, whatever its key.
    pub(crate) fn without_offer(
        &self,
        alloc: Global,
        offer: &OfferEntry,
    ) -> Result<OfferIndex, AllocError>
        ensures value { IfOk result (λ index. index ≡ remove self.now (position_of offer.now)) }
        ensures map { (m : EntryMap) (k : AKey) → IsIndexOf m self.now → offer_of (get m k) ≡ Some offer.now
            → IfOk result (IsIndexOf (erase m k)) }
    {
        Ok(OfferIndex {
            tree: self.tree.take(alloc, &position_of(offer))?,
        })
    }

    /// The index without the position of an entry, if there is one and it is an offer.
    pub(crate) fn without_entry(
        &self,
        alloc: Global,
        entry: &Option<LedgerEntry>,
    ) -> Result<OfferIndex, AllocError>
        ensures { IfOk result (λ index. index ≡ without (offer_of entry.now) self.now) }
    {
        match offer_of(entry) {
            None => self.share(),
            Some(offer) => self.without_offer(alloc, &offer),
        }
    }

    /// The index with an entry that wasn't there, if it is an offer.
    pub fn with_entry(&self, alloc: Global, entry: &LedgerEntry) -> Result<OfferIndex, AllocError>
        ensures value { IfOk result (λ index. index ≡ with_offers self.now (offers_in (entry.now ∷ []))) }
        ensures map { (m : EntryMap) → IsIndexOf m self.now → get m (key_of entry.now) ≡ None
            → IfOk result (IsIndexOf (put m entry.now)) }
    {
        match offer_in(entry) {
            None => self.share(),
            Some(offer) => self.with_offer(alloc, offer),
        }
    }

    /// The index with those of some entries that are offers, one after the other.
    fn with_entries(&self, alloc: Global, entries: &[LedgerEntry]) -> Result<OfferIndex, AllocError>
        ensures { IfOk result (λ index. index ≡ with_offers self.now (offers_in entries.now)) }
    {
        let mut index = self.share()?;
        for entry in entries {
            index = index.with_entry(alloc, entry)?;
        }
        Ok(index)
    }

    /// The index without the positions of offers.
    fn without_offers(&self, alloc: Global, offers: &[OfferEntry]) -> Result<OfferIndex, AllocError>
        ensures { IfOk result (λ index. index ≡ without_offers self.now offers.now) }
    {
        let mut index = self.share()?;
        for offer in offers {
            index = index.without_offer(alloc, offer)?;
        }
        Ok(index)
    }

    /// The index of entries with distinct keys.
    pub fn from_entries(alloc: Global, entries: &[LedgerEntry]) -> Result<OfferIndex, AllocError>
        requires { IsDistinct (eq_by_cmp key_cmp) (map key_of entries.now) }
        ensures { IfOk result (IsIndexOf (from_entries (map (λ e. (key_of e, e)) entries.now))) }
    {
        let mut offers = Vec::new(alloc);
        let mut ahead = entries;
        while let Some((last, earlier)) = ahead.split_last() {
            push_offer(&mut offers, last)?;
            ahead = earlier;
        }
        OfferIndex::from_offers(alloc, offers.as_slice())
    }

    /// The index of a list of offers, built at once.
    pub fn from_offers(alloc: Global, offers: &[OfferEntry]) -> Result<OfferIndex, AllocError>
        ensures { IfOk result (λ index. index ≡ index_of offers.now) }
    {
        let tree = tree_of(positioned(alloc, offers)?)?;
        let row = rising_row(alloc, tree)?;
        Ok(OfferIndex {
            tree: Tree::of_row(alloc, row.as_slice())?,
        })
    }

    /// The index after a batch, made anew where something changed, and shared elsewhere. `before` has those of the
    /// index's offers that the batch changed or says to be gone.
    pub fn with_changes(
        &self,
        before: &[OfferEntry],
        batch: &Batch,
    ) -> Result<OfferIndex, AllocError>
        ensures { IfOk result (IsChangedTo self.now before.now batch.now) }
    {
        let alloc = batch.init.allocator();
        let left = self.without_offers(alloc, before)?;
        let made = left.with_entries(alloc, batch.init.as_slice())?;
        made.with_entries(alloc, batch.live.as_slice())
    }

    /// The least position above another one, with its terms.
    fn first_above(&self, start: &BookPosition) -> Option<&Kept<BookPosition, OfferTerms>>
        ensures { MatchOption (option_copied result) (IsLastPosition self.now start.now)
            (λ next. IsLeastPosition self.now start.now next.0 next.1) }
    {
        self.tree.above(start)
    }

    /// The least position above another one with its terms, if it is of the same pair.
    fn next_position(&self, start: &BookPosition) -> Option<&Kept<BookPosition, OfferTerms>>
        ensures { MatchOption (option_copied result) (IsLastOfPair self.now start.now)
            (λ next. IsNextOfPair self.now start.now next.0 next.1) }
    {
        let next = self.first_above(start)?;
        let position = next.key();
        if position.selling.is_same(&start.selling) && position.buying.is_same(&start.buying) {
            Some(next)
        } else {
            None
        }
    }

    /// The seller and the id of the first offer of a pair's book after a price and an id, or at its head. None exactly
    /// where there is none.
    pub fn after(
        &self,
        selling: &Asset,
        buying: &Asset,
        position: Option<(Price, i64)>,
    ) -> Option<(AccountId, i64)>
        ensures map { (m : EntryMap) → IsIndexOf m self.now → AreOffersSound m → IsPositionPriced position
            → result ≡ option_map name_of (next_offer m selling.now buying.now position) }
        ensures list { (offers : List AnOffer) → self.now ≡ index_of offers → AreSound offers
            → AreNarrow offers → IsPositionPriced position
            → result ≡ option_map name_of (next_in selling.now buying.now position offers) }
    {
        let next = self.offer_after(selling, buying, position)?;
        Some((next.seller_id, next.offer_id))
    }

    /// The first offer of a pair's book after a price and an id, or at its head. None exactly where there is none.
    pub fn offer_after(
        &self,
        selling: &Asset,
        buying: &Asset,
        position: Option<(Price, i64)>,
    ) -> Option<OfferEntry>
        ensures map { (m : EntryMap) → IsIndexOf m self.now → AreOffersSound m → IsPositionPriced position
            → result ≡ next_offer m selling.now buying.now position }
        ensures list { (offers : List AnOffer) → self.now ≡ index_of offers → AreSound offers
            → AreNarrow offers → IsPositionPriced position
            → result ≡ next_in selling.now buying.now position offers }
    {
        let next = self.next_position(&start_of(selling, buying, position))?;
        Some(next.value().offer_at(next.key()))
    }
}
