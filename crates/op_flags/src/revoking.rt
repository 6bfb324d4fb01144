//! Offers that go with an authorisation that is taken back.

ghost use Rattle.std.specs.Prelude.{◌≡◌, Some, OnOk};
ghost use Rattle.std.specs.FinMap.{get};
ghost use Rattle.std.specs.List.{filter};
ghost use Rattle.ledger_types.specs.Keys.{key_of};
ghost use Rattle.entry_map.specs.Book.{offers_in};
ghost use Rattle.entry_map.specs.Undo.{with_current};
ghost use Rattle.trade_cross.specs.Crossable.{IsCrossable};
ghost use Rattle.op_flags.specs.Revoking as spec;
ghost use Rattle.op_flags.specs.Existing.{AreFound, map_after_one};

use entry_map::{Base, Entries};
use ledger_types::{AccountId, Asset, LedgerEntry, LedgerEntryBody, OfferEntry};
use offer_book::sold_entries;
use sponsor_rules::Ctx;
use std::alloc::AllocError;
use trade_cross::cancel_found;

/// Whether an offer sells or buys an asset.
fn trades_in(offer: &OfferEntry, asset: &Asset) -> bool
    ensures { result ≡ spec.trades_in asset.now offer.now }
{
    offer.selling.is_same(asset) || offer.buying.is_same(asset)
}

/// Removes the offer that an entry is, if it is one that sells or buys the asset.
fn cancel_trading<B: Base>(
    entries: &mut Entries<'_, B>,
    asset: &Asset,
    entry: &LedgerEntry,
) -> Result<(), AllocError>
    requires crossable { IsCrossable entries.old.current }
    requires found { get entries.old.current (key_of entry.now) ≡ Some entry.now }
    ensures entries { OnOk result (
        entries.new ≡ with_current entries.old (map_after_one asset.now entry.now entries.old.current)) }
    ensures crossable { OnOk result (IsCrossable entries.new.current) }
{
    match &entry.body {
        LedgerEntryBody::Offer(offer) if trades_in(offer, asset) => {
            cancel_found(entries, entry, offer)
        }
        _ => Ok(()),
    }
}

/// Removes those of some offers that sell or buy the asset, one after the other, by their entries. They all exist, with
/// distinct ids.
fn cancel_all<B: Base>(
    entries: &mut Entries<'_, B>,
    asset: &Asset,
    sold: &[LedgerEntry],
) -> Result<(), AllocError>
    requires crossable { IsCrossable entries.old.current }
    requires found { AreFound entries.old.current sold.now }
    ensures { OnOk result (
        entries.new ≡
        with_current entries.old (
        spec.map_after_cancelling_all (filter (spec.trades_in asset.now) (offers_in sold.now)) entries.old.current)) }
{
    for entry in sold {
        cancel_trading(entries, asset, entry)?;
    }
    Ok(())
}

/// Removes the offers of an account that sell or buy an asset, in rising order of their ids.
#[tactic(auto, unfolding(crate::specs::Revoking::map_without_offers))]
pub fn revoke_offers<B: Base>(
    entries: &mut Entries<'_, B>,
    ctx: &Ctx,
    trustor: &AccountId,
    asset: &Asset,
) -> Result<(), AllocError>
    requires crossable { IsCrossable entries.old.current }
    ensures { OnOk result (
        entries.new ≡
        with_current entries.old (spec.map_without_offers trustor.now asset.now entries.old.current)) }
{
    let sold = sold_entries(ctx.sponsorships.allocator(), entries, trustor)?;
    cancel_all(entries, asset, sold.as_slice())
}
