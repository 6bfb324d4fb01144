//! Where an offer is among all offers, and what else there is of it.

ghost use Rattle.std.specs.Prelude.{◌≡◌};
ghost use Rattle.entry_map.specs.Positions.{IsNarrow, IsPositionNarrow, offer_with, rank, position_of, start_of};
ghost use Rattle.entry_map.specs.Positions.{terms_of};

use ledger_types::{AccountId, Asset, OfferEntry, Price};

/// A position among all offers: by pair, and in the book of a pair by exact price and id. Positions are compared field
/// by field.
#[derive(Clone, Copy, PartialEq, Eq, PartialOrd, Ord)]
pub struct BookPosition {
    pub(crate) selling: Asset,
    pub(crate) buying: Asset,
    // Of equal prices the same, and of a lesser price a lesser one; at least 1.
    pub(crate) rank: u128,
    pub(crate) id: i64,
    // Whether it is after all offers with this rank and this id. No offer's own position is.
    pub(crate) is_end: bool,
    pub(crate) seller: AccountId,
}

/// What of an offer its position doesn't determine.
#[derive(Clone, Copy)]
pub struct OfferTerms {
    amount: i64,
    price: Price,
    flags: u32,
}

impl OfferTerms {
    /// The offer that has a position and these terms.
    pub fn offer_at(self, position: &BookPosition) -> OfferEntry
        ensures { result ≡ offer_with position.now self }
    {
        OfferEntry {
            seller_id: position.seller,
            offer_id: position.id,
            selling: position.selling,
            buying: position.buying,
            amount: self.amount,
            price: self.price,
            flags: self.flags,
        }
    }
}

/// What of an offer its position doesn't determine.
pub fn terms_of(offer: &OfferEntry) -> OfferTerms
    ensures { result ≡ terms_of offer.now }
{
    OfferTerms {
        amount: offer.amount,
        price: offer.price,
        flags: offer.flags,
    }
}

/// The denominator of a price fits 32 bits.
pub fn prices_are_narrow(price: Price)
    ensures { IsNarrow price }
{
    let _ = price;
}

/// A whole number in the order of prices.
fn rank(price: Price) -> u128
    ensures value { result ≡ rank price }
    ensures narrow { IsNarrow price }
{
    let d = price.d.unsigned_abs() as u128;
    if d == 0 {
        return 1;
    }
    price.n.unsigned_abs() as u128 * 4611686018427387904 / d + 1
}

/// The position of an offer.
pub fn position_of(offer: &OfferEntry) -> BookPosition
    ensures value { result ≡ position_of offer.now }
    ensures narrow { IsNarrow offer.now.price }
{
    BookPosition {
        selling: offer.selling,
        buying: offer.buying,
        rank: rank(offer.price),
        id: offer.offer_id,
        is_end: false,
        seller: offer.seller_id,
    }
}

/// The position that comes right before what is after a price and an id in the book of a pair, or before all of it.
pub fn start_of(selling: &Asset, buying: &Asset, after: Option<(Price, i64)>) -> BookPosition
    ensures value { result ≡ start_of selling.now buying.now after }
    ensures narrow { IsPositionNarrow after }
{
    let (rank, id, is_end) = match after {
        None => (0, 0, false),
        Some((price, id)) => (rank(price), id, true),
    };
    BookPosition {
        selling: *selling,
        buying: *buying,
        rank,
        id,
        is_end,
        seller: AccountId([0; 32]),
    }
}
