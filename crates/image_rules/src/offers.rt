//! The ranges of offers, and what they bind (CAP-0003).

ghost use Rattle.std.specs.Prelude.{◌≡◌, ◌≢◌, ◌↔◌, ◌≤◌, pos, ◌≤ℤ◌, true, IsTrue};
ghost use Rattle.ledger_types.specs.Prices.{IsPriced};
ghost use Rattle.valid_values.specs.Assets as asset;
ghost use Rattle.close_rules.specs.legal_rules.OfferLiabilities.{bound_of};
ghost use Rattle.close_rules.specs.legal_rules.Ranges.{IsOfferInRange};
ghost use Rattle.image_rules.specs.Terms.{HasTerms};

use ledger_types::OfferEntry;
use offer_exchange::liabilities;
use valid_values::is_valid_asset;

/// How much of what an offer sells it may have to give.
pub fn wheat_of(offer: &OfferEntry) -> u64
    requires { HasTerms offer.now }
    ensures { result ≡ (bound_of offer.now).wheat }
{
    liabilities(offer.price, offer.amount)
        .selling
        .unsigned_abs()
}

/// How much of what an offer buys it may take in.
pub fn sheep_of(offer: &OfferEntry) -> u64
    requires { HasTerms offer.now }
    ensures { result ≡ (bound_of offer.now).sheep }
{
    liabilities(offer.price, offer.amount).buying.unsigned_abs()
}

/// Whether an offer sells something, at a price whose parts are at least 1.
fn are_terms_in_range(offer: &OfferEntry) -> bool
    ensures { IsTrue result ↔ ((pos 1 ≤ℤ offer.now.amount) × IsPriced offer.now.price) }
{
    1 <= offer.amount && 1 <= offer.price.n && 1 <= offer.price.d
}

/// Whether an offer binds something on both sides.
fn does_bind(offer: &OfferEntry) -> bool
    requires { HasTerms offer.now }
    ensures { IsTrue result ↔ ((1 ≤ (bound_of offer.now).wheat) × (1 ≤ (bound_of offer.now).sheep)) }
{
    1 <= wheat_of(offer) && 1 <= sheep_of(offer)
}

/// Whether an id is one that was drawn.
fn is_drawn(id_pool: u64, offer_id: i64) -> bool
    ensures { IsTrue result ↔ ((pos 1 ≤ℤ offer_id) × (offer_id ≤ℤ pos id_pool)) }
{
    1 <= offer_id && offer_id.unsigned_abs() <= id_pool
}

/// Whether an offer trades two valid assets.
fn are_assets_in_range(offer: &OfferEntry) -> bool
    ensures { IsTrue result ↔ ((asset.is_valid_asset offer.now.selling ≡ true)
        × (asset.is_valid_asset offer.now.buying ≡ true) × (offer.now.selling ≢ offer.now.buying)) }
{
    is_valid_asset(&offer.selling) && is_valid_asset(&offer.buying) && offer.selling != offer.buying
}

/// Whether an offer is in its ranges: it has an id that was drawn, trades two valid assets, binds something on both
/// sides, and has no flag but PASSIVE_FLAG 1.
pub fn is_offer_in_range(id_pool: u64, offer: &OfferEntry) -> bool
    ensures { IsTrue result ↔ IsOfferInRange id_pool offer.now }
{
    if !are_terms_in_range(offer) {
        return false;
    }
    let binds = does_bind(offer);
    let drawn = is_drawn(id_pool, offer.offer_id);
    let assets = are_assets_in_range(offer);
    binds && drawn && assets && offer.flags <= 1
}
