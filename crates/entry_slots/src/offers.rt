//! Offers among the entries of a ledger.

ghost use Rattle.std.specs.Prelude.{◌≡◌, IfOk, IfSome, OnOk};
ghost use Rattle.entry_map.specs.ledger_types.declared.key.LedgerKey.TheVariants as key;
ghost use Rattle.entry_map.specs.EntryMap.{put, erase};
ghost use Rattle.entry_map.specs.Undo.{with_current};
ghost use Rattle.entry_slots.specs.Offers as spec;

use entry_map::ledger_types::{
    AccountId, LedgerEntry, LedgerEntryBody, LedgerEntryExtensionV1, LedgerKey, OfferEntry,
};
use entry_map::{Base, Entries};
use std::alloc::AllocError;

/// The entry of an offer, taken apart.
#[derive(Clone, Copy)]
pub struct OfferSlot {
    pub last_modified_ledger_seq: u32,
    pub offer: OfferEntry,
    pub ext: Option<LedgerEntryExtensionV1>,
}

/// The parts of an entry, where it is that of an offer.
pub fn offer_slot_in(entry: LedgerEntry) -> Option<OfferSlot>
    ensures slot { result ≡ spec.offer_slot_in entry }
    ensures offer { spec.offer_in entry.body ≡ spec.offer_of_slot result }
{
    let (last_modified_ledger_seq, body, ext) = entry.into_parts();
    match body {
        LedgerEntryBody::Offer(offer) => Some(OfferSlot {
            last_modified_ledger_seq,
            offer,
            ext,
        }),
        _ => None,
    }
}

/// The seller's offer with this id, if it exists.
#[tactic(auto, unfolding(crate::specs::Offers::offer_at))]
pub fn load_offer<B: Base>(
    entries: &Entries<'_, B>,
    seller_id: &AccountId,
    offer_id: i64,
) -> Result<Option<OfferSlot>, AllocError>
    ensures slot { IfOk result (λ slot. slot ≡ spec.offer_slot_at entries.now.current seller_id.now offer_id) }
    ensures offer { IfOk result (λ slot.
        spec.offer_at entries.now.current seller_id.now offer_id ≡ spec.offer_of_slot slot) }
    ensures keyed { IfOk result (λ slot.
        IfSome slot (λ s. (s.offer.seller_id ≡ seller_id.now) × (s.offer.offer_id ≡ offer_id))) }
{
    let key = LedgerKey::Offer {
        seller_id: *seller_id,
        offer_id,
    };
    match entries.get(&key)? {
        None => Ok(None),
        Some(entry) => Ok(offer_slot_in(entry)),
    }
}

/// Puts the entry of an offer under its key, in place of what was there.
pub fn store_offer<B: Base>(entries: &mut Entries<'_, B>, slot: OfferSlot) -> Result<(), AllocError>
    ensures { OnOk result (
        entries.new ≡ with_current entries.old (put entries.old.current (spec.entry_of_offer slot))) }
{
    let OfferSlot {
        last_modified_ledger_seq,
        offer,
        ext,
    } = slot;
    entries.put(LedgerEntry {
        last_modified_ledger_seq,
        body: LedgerEntryBody::Offer(offer),
        ext,
    })
}

/// Removes the seller's offer with this id, if it exists.
pub fn erase_offer<B: Base>(
    entries: &mut Entries<'_, B>,
    seller_id: &AccountId,
    offer_id: i64,
) -> Result<(), AllocError>
    ensures { OnOk result (
        entries.new ≡ with_current entries.old (erase entries.old.current (key.Offer seller_id.now offer_id))) }
{
    entries.erase(&LedgerKey::Offer {
        seller_id: *seller_id,
        offer_id,
    })
}
