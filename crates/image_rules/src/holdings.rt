//! What offers trade from and into: whether it exists, and whether lines among it are authorised (CAP-0018). Each is
//! looked up once for both, and once for all offers of a seller that name the same asset.

ghost use Rattle.std.specs.Prelude.{◌≡◌, ◌↔◌, ◌++◌, ◌∷◌, [], IsTrue, IfOk, OnOk};
ghost use Rattle.entry_map.specs.EntryMap.{EntryMap};
ghost use Rattle.entry_slots.specs.Lines.{line_of};
ghost use Rattle.close_rules.specs.legal_rules.Needs.{keys_in};
ghost use Rattle.close_rules.specs.legal_rules.Trades as spec;
ghost use Rattle.close_rules.specs.legal_rules.Legal.{IsAuthorized};
ghost use Rattle.image_rules.specs.Holdings.{AreHeld, AreKnown, AreTradedIn};

use crate::flags::both;
use crate::holders::holder;
use entry_map::Base;
use ledger_types::{AccountId, Asset, LedgerEntry, LedgerEntryBody, LedgerKey, OfferEntry};
use level_entries::PlacedEntries;
use std::alloc::{AllocError, Global};
use std::collections::BTreeMap;

/// What is found under some keys.
#[derive(Clone, Copy)]
pub struct Holdings {
    /// Whether something exists under each.
    pub there: bool,
    /// Whether the lines among it are authorised.
    pub authorized: bool,
}

/// What was found of what a seller has assets in. All offers of one seller come one after another, so that no more is
/// kept than of one.
#[derive(Drop)]
pub struct SellerHoldings {
    pub seller: AccountId,
    pub found: BTreeMap<Asset, Holdings>,
}

/// Nothing that was found, of no seller yet.
pub fn no_holdings(alloc: Global) -> SellerHoldings
    ensures { (m : EntryMap) → AreKnown m result }
{
    SellerHoldings {
        seller: AccountId([0; 32]),
        found: BTreeMap::new(alloc),
    }
}

/// Whether an entry, if it is a line, carries AUTHORIZED 1 or AUTHORIZED_TO_MAINTAIN_LIABILITIES 2.
fn is_authorized(entry: &Option<LedgerEntry>) -> bool
    ensures { IsTrue result ↔ IsAuthorized (line_of entry.now) }
{
    match entry {
        None => true,
        Some(entry) => match &entry.body {
            LedgerEntryBody::TrustLine(line) => line.flags % 4 != 0,
            _ => true,
        },
    }
}

/// What is found under a key.
fn held_under(entries: &PlacedEntries<'_>, key: &LedgerKey) -> Result<Holdings, AllocError>
    ensures { IfOk result (AreHeld entries.now (key.now ∷ [])) }
{
    let found = entries.find(key)?;
    Ok(Holdings {
        there: found.is_some(),
        authorized: is_authorized(&found),
    })
}

/// What is found under a key, if one is named.
fn held_if_named(
    entries: &PlacedEntries<'_>,
    named: Option<LedgerKey>,
) -> Result<Holdings, AllocError>
    ensures { IfOk result (AreHeld entries.now (keys_in named)) }
{
    match named {
        None => Ok(Holdings {
            there: true,
            authorized: true,
        }),
        Some(key) => held_under(entries, &key),
    }
}

/// What is found of what a seller has an asset in. It is kept.
fn held_in(
    entries: &PlacedEntries<'_>,
    known: &mut SellerHoldings,
    asset: &Asset,
) -> Result<Holdings, AllocError>
    requires { AreKnown entries.now known.old }
    ensures held { IfOk result (AreHeld entries.now (keys_in (spec.holder known.old.seller asset.now))) }
    ensures seller { known.new.seller ≡ known.old.seller }
    ensures known { OnOk result (AreKnown entries.now known.new) }
{
    if let Some(held) = known.found.get(asset) {
        return Ok(*held);
    }
    let held = held_if_named(entries, holder(&known.seller, asset))?;
    known.found.insert(*asset, held)?;
    Ok(held)
}

/// Turns to a seller: what was found of another one is let go.
fn turn_to(known: &mut SellerHoldings, seller: &AccountId)
    ensures seller { known.new.seller ≡ seller.now }
    ensures known { (m : EntryMap) → AreKnown m known.old → AreKnown m known.new }
{
    if known.seller != *seller {
        known.seller = *seller;
        known.found.clear();
    }
}

/// What is found of what an offer's seller has its assets in.
fn held_by(
    entries: &PlacedEntries<'_>,
    known: &mut SellerHoldings,
    offer: &OfferEntry,
) -> Result<Holdings, AllocError>
    requires { AreKnown entries.now known.old }
    ensures held { IfOk result (AreHeld entries.now (keys_in (spec.holder offer.now.seller_id offer.now.selling)
        ++ keys_in (spec.holder offer.now.seller_id offer.now.buying))) }
    ensures known { OnOk result (AreKnown entries.now known.new) }
{
    turn_to(known, &offer.seller_id);
    let sold = held_in(entries, known, &offer.selling)?;
    let bought = held_in(entries, known, &offer.buying)?;
    Ok(Holdings {
        there: both(sold.there, bought.there),
        authorized: both(sold.authorized, bought.authorized),
    })
}

/// What is found of what an entry trades from and into, if it is an offer.
pub fn holdings_of(
    entries: &PlacedEntries<'_>,
    known: &mut SellerHoldings,
    body: &LedgerEntryBody,
) -> Result<Holdings, AllocError>
    requires { AreKnown entries.now known.old }
    ensures held { IfOk result (AreTradedIn entries.now body.now) }
    ensures known { OnOk result (AreKnown entries.now known.new) }
{
    match body {
        LedgerEntryBody::Offer(offer) => held_by(entries, known, offer),
        _ => Ok(Holdings {
            there: true,
            authorized: true,
        }),
    }
}
