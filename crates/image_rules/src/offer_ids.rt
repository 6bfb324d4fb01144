//! Offers have distinct ids.

ghost use Rattle.std.specs.Prelude.{IfOk};
ghost use Rattle.image_rules.specs.OfferSets.{Brings};

use ledger_types::LedgerEntryBody;
use std::alloc::AllocError;
use std::collections::BTreeSet;

/// Adds the id of an offer to a set, and says whether it is new there. What isn't an offer has none.
pub fn is_id_new(ids: &mut BTreeSet<i64>, body: &LedgerEntryBody) -> Result<bool, AllocError>
    ensures { IfOk result (λ fresh. Brings ids.old ids.new body.now fresh) }
{
    match body {
        LedgerEntryBody::Offer(offer) => Ok(ids.insert(offer.offer_id)?),
        _ => Ok(true),
    }
}
