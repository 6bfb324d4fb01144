//! Books of offers: gone through, asked for their head, and indexed anew after batches.

use entry_map::{Batch, Entries, MapBase, OfferIndex};
use item_list::ItemList;
use ledger_types::{AccountId, Asset, LedgerEntry, LedgerEntryBody, LedgerKey, OfferEntry, Price};
use std::alloc::{AllocError, Global};

const SELLER: AccountId = AccountId([7; 32]);

// How many offers a layer changes over a base, and how many a batch changes.
const CHANGED: u32 = 1_000;

const BATCH: u32 = 100;

// How many offers a measure of walks asks for in all, and how often one of heads asks.
const ANSWERS: u32 = 1_000_000;

// How many indexes a measure makes.
const INDEXES: u32 = 1_000;

// A prime, so that no offer is changed twice unless it divides the count.
const STEP: u64 = 7919;

/// What was seen.
#[derive(Clone, Copy, PartialEq, Eq)]
pub struct Seen {
    /// How many offers were answered.
    pub offers: u64,
    /// The sum of their numbers, or the greatest `i64` where it is above that.
    pub ids: i64,
}

impl Seen {
    /// Nothing yet.
    const fn nothing() -> Seen {
        Seen { offers: 0, ids: 0 }
    }

    /// One offer more.
    fn see(&mut self, id: i64) {
        self.offers = self.offers.saturating_add(1);
        self.ids = self.ids.saturating_add(id);
    }
}

/// What is sold in one of some pairs, for lumens.
fn sold(pair: u32) -> Asset {
    let [_, _, high, low] = pair.to_be_bytes();
    Asset::Alphanum4 {
        code: [85, high, low, 0],
        issuer: SELLER,
    }
}

/// An offer of a number from 0 on. Offers that follow one another are far apart in their book.
fn offer(number: u32, shift: u32, pairs: u32) -> OfferEntry {
    let part = (u64::from(number) * STEP + u64::from(shift)) % 1_000_003 + 1;
    OfferEntry {
        seller_id: SELLER,
        offer_id: i64::from(number) + 1,
        selling: sold(if pairs == 0 { 0 } else { number % pairs }),
        buying: Asset::Native,
        amount: 1,
        price: Price {
            n: part as i32,
            d: 1_000,
        },
        flags: 0,
    }
}

/// The entry of an offer.
fn entry(offer: OfferEntry) -> LedgerEntry {
    LedgerEntry {
        last_modified_ledger_seq: 1,
        body: LedgerEntryBody::Offer(offer),
        ext: None,
    }
}

/// A base of no entries.
fn no_entries(alloc: Global) -> Result<MapBase, AllocError> {
    MapBase::from_entries(Vec::new(alloc))
}

/// Puts offers of one pair, in place of nothing or of what was there, each shifted in its book.
fn put_offers(
    entries: &mut Entries<'_, MapBase>,
    count: u32,
    shift: u32,
) -> Result<(), AllocError> {
    for number in 0..count {
        entries.put(entry(offer(number, shift, 1)))?;
    }
    Ok(())
}

/// Goes through the book of the pair, from its head to its end and from its head again, until it saw as many offers as
/// a measure asks for.
fn walk(entries: &Entries<'_, MapBase>) -> Result<Seen, AllocError> {
    let mut seen = Seen::nothing();
    let mut after = None;
    for _ in 0..ANSWERS {
        let next = match entries.offer_after(&sold(0), &Asset::Native, after)? {
            Some(next) => Some(next),
            None => entries.offer_after(&sold(0), &Asset::Native, None)?,
        };
        let Some(next) = next else {
            break;
        };
        seen.see(next.offer_id);
        after = Some((next.price, next.offer_id));
    }
    Ok(seen)
}

/// Makes a map of `count` offers of one pair, and changes a thousand of them in a layer. Where `through` says so, it
/// goes through their book, again and again.
pub fn pass_book(alloc: Global, count: u32, through: bool) -> Result<Seen, AllocError> {
    let base = no_entries(alloc)?;
    let mut entries = Entries::new(alloc, &base)?;
    put_offers(&mut entries, count, 0)?;
    entries.child()?;
    put_offers(&mut entries, CHANGED, 1)?;
    if through {
        walk(&entries)
    } else {
        Ok(Seen::nothing())
    }
}

/// Erases the best offers of the pair.
fn erase_best(entries: &mut Entries<'_, MapBase>, count: u32) -> Result<(), AllocError> {
    for _ in 0..count {
        if let Some(best) = entries.offer_after(&sold(0), &Asset::Native, None)? {
            entries.erase(&LedgerKey::Offer {
                seller_id: best.seller_id,
                offer_id: best.offer_id,
            })?;
        }
    }
    Ok(())
}

/// Makes a map of 20,000 offers of one pair, of which the best are erased in a layer. Where `calls` says so, it asks
/// a million times for the head of their book, in the layer above.
pub fn pass_head(alloc: Global, erased: u32, calls: bool) -> Result<Seen, AllocError> {
    let base = no_entries(alloc)?;
    let mut entries = Entries::new(alloc, &base)?;
    put_offers(&mut entries, 20_000, 0)?;
    entries.child()?;
    erase_best(&mut entries, erased)?;
    entries.child()?;
    let mut seen = Seen::nothing();
    for _ in 0..if calls { ANSWERS } else { 0 } {
        if let Some(best) = entries.offer_after(&sold(0), &Asset::Native, None)? {
            seen.see(best.offer_id);
        }
    }
    Ok(seen)
}

/// A batch that changes the prices of some offers, and what they were.
fn batch_of(
    alloc: Global,
    offers: &[OfferEntry],
    pairs: u32,
) -> Result<(Batch, Vec<OfferEntry>), AllocError> {
    let mut before = Vec::new(alloc);
    let mut batch = Batch {
        init: ItemList::new(alloc),
        live: ItemList::new(alloc),
        dead: ItemList::new(alloc),
    };
    for number in 0..BATCH {
        if let Some(old) = offers.get(number as usize) {
            before.push(*old)?;
            batch.live.push(entry(offer(number, 1, pairs)))?;
        }
    }
    Ok((batch, before))
}

/// Makes the index of `count` offers in some pairs. Where `over` says so, it makes the one after a batch of a hundred
/// a thousand times.
pub fn pass_index(alloc: Global, count: u32, pairs: u32, over: bool) -> Result<Seen, AllocError> {
    let mut offers = Vec::new(alloc);
    for number in 0..count {
        offers.push(offer(number, 0, pairs))?;
    }
    let index = OfferIndex::from_offers(alloc, offers.as_slice())?;
    let (batch, before) = batch_of(alloc, offers.as_slice(), pairs)?;
    let mut seen = Seen::nothing();
    for _ in 0..if over { INDEXES } else { 0 } {
        let next = index.with_changes(before.as_slice(), &batch)?;
        if let Some((_, id)) = next.after(&sold(0), &Asset::Native, None) {
            seen.see(id);
        }
    }
    Ok(seen)
}
