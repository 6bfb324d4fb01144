//! The offer that is asked for.

ghost use Rattle.std.specs.Prelude.{◌≡◌, ◌<◌, ◌+◌, ◌≤ℤ◌, pos, None};
ghost use Rattle.sponsor_rules.specs.reserve_rules.Reserve.{greatest_i64};
ghost use Rattle.entry_slots.specs.EntrySponsor.{with_sponsor_in};
ghost use Rattle.entry_slots.specs.Offers.{entry_of_offer};
ghost use Rattle.op_form.specs.Sequences.{last_seq};
ghost use Rattle.op_offers.specs.Calls.{asked_in};
ghost use Rattle.op_offers.specs.Managing as spec;

use crate::ask::Ask;
use entry_slots::OfferSlot;
use ledger_types::{AccountId, LedgerEntryExtensionV1, OfferEntry};
use sponsor_rules::{Ctx, open_sponsor};

/// The offer that is asked for, with its entry. Its amount is still open.
#[derive(Clone, Copy)]
pub struct Asked {
    pub slot: OfferSlot,
    /// The most that is sold, where there is a limit, at least 0.
    pub sells: Option<i64>,
    /// The most that is bought, where there is a limit, at least 0.
    pub buys: Option<i64>,
}

/// The offer of an account that is asked for, with an id and flags, and without an amount.
fn offer_asked(source: &AccountId, ask: &Ask, offer_id: i64, flags: u32) -> OfferEntry
    ensures { result ≡ spec.offer_asked source.now ask.now offer_id flags }
{
    OfferEntry {
        seller_id: *source,
        offer_id,
        selling: ask.selling,
        buying: ask.buying,
        amount: 0,
        price: ask.price,
        flags,
    }
}

/// The extension of an entry that a sponsor pays for, if one does.
fn extension_of(sponsor: Option<AccountId>) -> Option<LedgerEntryExtensionV1>
    ensures { result ≡ with_sponsor_in sponsor None }
{
    match sponsor {
        None => None,
        Some(_) => Some(LedgerEntryExtensionV1 {
            sponsoring_id: sponsor,
        }),
    }
}

/// A new offer, which has the next id. The source's open sponsor pays for it, if there is one.
pub fn new_asked(ctx: &Ctx, ask: &Ask) -> Asked
    requires seq { ctx.now.seq < last_seq }
    requires ids { pos (ctx.now.id_pool + 1) ≤ℤ greatest_i64 }
    ensures value { asked_in result ≡ spec.new_asked ctx.now ask.now }
    ensures sells { result.sells ≡ ask.now.sells }
    ensures buys { result.buys ≡ ask.now.buys }
{
    let offer_id = (ctx.id_pool + 1) as i64;
    Asked {
        slot: OfferSlot {
            last_modified_ledger_seq: ctx.seq + 1,
            offer: offer_asked(&ctx.op_source, ask, offer_id, ask.flags),
            ext: extension_of(open_sponsor(ctx, &ctx.op_source)),
        },
        sells: ask.sells,
        buys: ask.buys,
    }
}

/// An old offer, which keeps its id, its flags and its sponsor.
pub fn old_asked(ctx: &Ctx, ask: &Ask, old: &OfferSlot) -> Asked
    ensures value { asked_in result ≡ spec.old_asked ctx.now ask.now old.now.offer (entry_of_offer old.now) }
    ensures sells { result.sells ≡ ask.now.sells }
    ensures buys { result.buys ≡ ask.now.buys }
{
    let offer = offer_asked(&ctx.op_source, ask, old.offer.offer_id, old.offer.flags);
    Asked {
        slot: OfferSlot { offer, ..*old },
        sells: ask.sells,
        buys: ask.buys,
    }
}
