//! The keys of offers.

ghost use Rattle.std.specs.Prelude.{◌≡◌};
ghost use Rattle.trade_cross.specs.Crossing as spec;

use ledger_types::{LedgerKey, OfferEntry};

/// The key of an offer.
pub fn offer_key(offer: &OfferEntry) -> LedgerKey
    ensures { result ≡ spec.offer_key offer.now }
{
    LedgerKey::Offer {
        seller_id: offer.seller_id,
        offer_id: offer.offer_id,
    }
}
