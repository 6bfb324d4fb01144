//! Offers that are removed without a trade.

ghost use Rattle.std.specs.Prelude.{◌≡◌, Some, OnOk};
ghost use Rattle.std.specs.FinMap.{get};
ghost use Rattle.ledger_types.specs.Keys.{key_of};
ghost use Rattle.entry_map.specs.Book.{offer_in};
ghost use Rattle.entry_map.specs.Undo.{with_current};
ghost use Rattle.entry_slots.specs.Offers.{offer_at};
ghost use Rattle.trade_cross.specs.Cancelling.{map_after_cancelling};
ghost use Rattle.trade_cross.specs.Crossable.{IsCrossable};

use crate::amounts::release;
use crate::keys::offer_key;
use entry_map::{Base, Entries};
use ledger_types::{LedgerEntry, OfferEntry};
use sponsor_rules::{Ctx, remove_entry, remove_found};
use std::alloc::AllocError;

/// Removes an offer that exists, without a trade: what it binds is released, and its reserve is freed.
pub fn cancel_offer<B: Base>(
    entries: &mut Entries<'_, B>,
    ctx: &Ctx,
    offer: &OfferEntry,
) -> Result<(), AllocError>
    requires crossable { IsCrossable entries.old.current }
    requires exists { offer_at entries.old.current offer.now.seller_id offer.now.offer_id ≡ Some offer.now }
    ensures entries { OnOk result (
        entries.new ≡ with_current entries.old (map_after_cancelling offer.now entries.old.current)) }
    ensures crossable { OnOk result (IsCrossable entries.new.current) }
{
    release(entries, offer)?;
    remove_entry(entries, ctx, &offer_key(offer))?;
    Ok(())
}

/// Removes the offer that an entry is, without a trade. The entry was found under its key, so it isn't looked up again.
pub fn cancel_found<B: Base>(
    entries: &mut Entries<'_, B>,
    entry: &LedgerEntry,
    offer: &OfferEntry,
) -> Result<(), AllocError>
    requires crossable { IsCrossable entries.old.current }
    requires found { get entries.old.current (key_of entry.now) ≡ Some entry.now }
    requires offer { offer_in entry.now.body ≡ Some offer.now }
    ensures entries { OnOk result (
        entries.new ≡ with_current entries.old (map_after_cancelling offer.now entries.old.current)) }
    ensures crossable { OnOk result (IsCrossable entries.new.current) }
{
    release(entries, offer)?;
    remove_found(entries, &offer_key(offer), entry)?;
    Ok(())
}
