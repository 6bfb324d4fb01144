//! An offer is made, changed or removed.

ghost use Rattle.std.specs.Prelude.{◌≡◌, ◌<◌, ◌+◌, ◌≤ℤ◌, pos, unsigned_abs, Some, Ok, OnOk};
ghost use Rattle.std.specs.FinMap.{get};
ghost use Rattle.ledger_types.specs.declared.key.LedgerKey.TheVariants as key;
ghost use Rattle.ledger_types.specs.Prices.{IsPriced};
ghost use Rattle.entry_map.specs.Undo.{with_current};
ghost use Rattle.entry_slots.specs.Offers.{offer_at, offer_slot_at, entry_of_offer};
ghost use Rattle.sponsor_rules.specs.reserve_rules.Reserve.{greatest_i64};
ghost use Rattle.sponsor_rules.specs.Adding.{map_after_counting_subentry};
ghost use Rattle.sponsor_rules.specs.Payers.{IsReady};
ghost use Rattle.trade_cross.specs.Amounts.{DoesReleaseFit};
ghost use Rattle.trade_cross.specs.Cancelling.{map_after_cancelling};
ghost use Rattle.op_form.specs.Sequences.{last_seq};
ghost use Rattle.op_offers.specs.Calls as calls;
ghost use Rattle.op_offers.specs.Calls.{IsFormed, IsManageable, IsSound, asked_in};
ghost use Rattle.op_offers.specs.Managing as spec;
ghost use Rattle.op_offers.specs.Operations.{effect_of};
ghost use Rattle.op_offers.specs.Selling as selling;
ghost use Rattle.op_offers.specs.Selling.{map_without_offer};

use crate::ask::{Ask, is_malformed};
use crate::asked::{Asked, new_asked, old_asked};
use crate::fault::OfferFault;
use crate::lines::test_lines;
use crate::sell::{Sold, sell};
use entry_map::{Base, Entries};
use entry_slots::{OfferSlot, erase_offer, load_offer};
use item_list::ItemList;
use ledger_types::{ClaimAtom, OfferEntry};
use op_types::ManageOfferEffect;
use sponsor_rules::{AddFault, Ctx, count_subentry};
use std::alloc::AllocError;
use trade_cross::{cancel_offer, release};

/// What became of an offer: each offer that it crossed, in order, what is left of it, and the greatest id so far.
#[derive(Drop)]
pub struct Managed {
    pub atoms: ItemList<ClaimAtom>,
    pub effect: ManageOfferEffect,
    pub id_pool: u64,
}

/// The offer that was asked for, with an amount.
fn offer_left(asked: &Asked, amount: i64) -> OfferEntry
    requires { pos 0 ≤ℤ amount }
    ensures { result ≡ selling.offer_left (asked_in asked.now) (unsigned_abs amount) }
{
    OfferEntry {
        amount,
        ..asked.slot.offer
    }
}

/// What became of a new offer that was sold. It takes the next id where it is kept.
fn made(id_pool: u64, asked: &Asked, sold: Sold) -> Managed
    requires amount { pos 0 ≤ℤ sold.amount }
    requires ids { pos (id_pool + 1) ≤ℤ greatest_i64 }
    ensures atoms { result.atoms ≡ sold.atoms }
    ensures effect { result.effect ≡ effect_of spec.Made (asked_in asked.now) (unsigned_abs sold.amount) }
    ensures id_pool { result.id_pool ≡ spec.drawn id_pool (id_pool + 1) (unsigned_abs sold.amount) }
{
    let Sold { atoms, amount } = sold;
    if amount == 0 {
        return Managed {
            atoms,
            effect: ManageOfferEffect::Deleted,
            id_pool,
        };
    }
    Managed {
        atoms,
        effect: ManageOfferEffect::Created(offer_left(asked, amount)),
        id_pool: id_pool + 1,
    }
}

/// What became of an old offer that was sold.
fn changed(id_pool: u64, asked: &Asked, sold: Sold) -> Managed
    requires amount { pos 0 ≤ℤ sold.amount }
    ensures atoms { result.atoms ≡ sold.atoms }
    ensures effect { result.effect ≡ effect_of spec.Changed (asked_in asked.now) (unsigned_abs sold.amount) }
    ensures id_pool { result.id_pool ≡ spec.drawn id_pool id_pool (unsigned_abs sold.amount) }
{
    let Sold { atoms, amount } = sold;
    let effect = if amount == 0 {
        ManageOfferEffect::Deleted
    } else {
        ManageOfferEffect::Updated(offer_left(asked, amount))
    };
    Managed {
        atoms,
        effect,
        id_pool,
    }
}

/// Counts the reserve of a new offer.
fn count_reserve<B: Base>(entries: &mut Entries<'_, B>, ctx: &Ctx) -> Result<(), OfferFault>
    requires { IsReady entries.old.current ctx.now.op_source }
    ensures { calls.IsCounted result entries.old entries.new (
        map_after_counting_subentry ctx.now ctx.now.op_source 1 entries.old.current) }
{
    match count_subentry(entries, ctx, &ctx.op_source, 1) {
        Ok(()) => Ok(()),
        Err(AddFault::NoMemory) => Err(OfferFault::NoMemory),
        Err(fault) => Err(OfferFault::Reserve(fault)),
    }
}

/// Makes an offer.
fn make<B: Base>(entries: &mut Entries<'_, B>, ctx: &Ctx, ask: &Ask) -> Result<Managed, OfferFault>
    requires seq { ctx.now.seq < last_seq }
    requires manageable { IsManageable ctx.now entries.old.current }
    requires sound { IsSound ask.now }
    ensures { calls.IsManaging ctx.now result entries.old entries.new (
        spec.made ctx.now ask.now entries.old.current) }
{
    test_lines(entries, &ctx.op_source, ask)?;
    count_reserve(entries, ctx)?;
    let asked = new_asked(ctx, ask);
    let sold = sell(entries, ctx, &asked)?;
    Ok(made(ctx.id_pool, &asked, sold))
}

/// Takes an old offer out of its book. It stays counted.
fn take_out<B: Base>(entries: &mut Entries<'_, B>, old: &OfferEntry) -> Result<(), AllocError>
    requires priced { IsPriced old.now.price }
    requires amount { pos 0 ≤ℤ old.now.amount }
    requires fits { DoesReleaseFit old.now entries.old.current }
    ensures { OnOk result (entries.new ≡ with_current entries.old (map_without_offer old.now entries.old.current)) }
{
    release(entries, old)?;
    erase_offer(entries, &old.seller_id, old.offer_id)
}

/// Changes an existing offer.
fn change<B: Base>(
    entries: &mut Entries<'_, B>,
    ctx: &Ctx,
    ask: &Ask,
    old: &OfferSlot,
) -> Result<Managed, OfferFault>
    requires manageable { IsManageable ctx.now entries.old.current }
    requires sound { IsSound ask.now }
    requires exists { Some old.now ≡ offer_slot_at entries.old.current ctx.now.op_source ask.now.offer_id }
    ensures { calls.IsManaging ctx.now result entries.old entries.new (
        spec.changed ctx.now ask.now old.now.offer (entry_of_offer old.now) entries.old.current) }
{
    test_lines(entries, &ctx.op_source, ask)?;
    take_out(entries, &old.offer)?;
    let asked = old_asked(ctx, ask, old);
    let sold = sell(entries, ctx, &asked)?;
    Ok(changed(ctx.id_pool, &asked, sold))
}

/// Removes an existing offer.
fn remove<B: Base>(
    entries: &mut Entries<'_, B>,
    ctx: &Ctx,
    old: &OfferEntry,
) -> Result<Managed, OfferFault>
    requires manageable { IsManageable ctx.now entries.old.current }
    requires exists { offer_at entries.old.current old.now.seller_id old.now.offer_id ≡ Some old.now }
    ensures { calls.IsManaging ctx.now result entries.old entries.new (
        Ok (spec.Removed (map_after_cancelling old.now entries.old.current))) }
{
    cancel_offer(entries, ctx, old)?;
    Ok(Managed {
        atoms: ItemList::new(ctx.sponsorships.allocator()),
        effect: ManageOfferEffect::Deleted,
        id_pool: ctx.id_pool,
    })
}

/// Changes or removes an offer of the source.
fn manage_old<B: Base>(
    entries: &mut Entries<'_, B>,
    ctx: &Ctx,
    ask: &Ask,
) -> Result<Managed, OfferFault>
    requires manageable { IsManageable ctx.now entries.old.current }
    requires sound { IsSound ask.now }
    ensures { calls.IsManaging ctx.now result entries.old entries.new (
        spec.managed_at ctx.now ask.now (get entries.old.current (key.Offer ctx.now.op_source ask.now.offer_id))
        entries.old.current) }
{
    let Some(old) = load_offer(entries, &ctx.op_source, ask.offer_id)? else {
        return Err(OfferFault::NotFound);
    };
    if ask.amount == 0 {
        return remove(entries, ctx, &old.offer);
    }
    change(entries, ctx, ask, &old)
}

/// Makes, changes or removes an offer of the source. Where it answers a fault, the map has to be undone.
pub fn manage<B: Base>(
    entries: &mut Entries<'_, B>,
    ctx: &Ctx,
    ask: &Ask,
) -> Result<Managed, OfferFault>
    requires seq { ctx.now.seq < last_seq }
    requires manageable { IsManageable ctx.now entries.old.current }
    requires formed { IsFormed ask.now }
    ensures { calls.IsManaging ctx.now result entries.old entries.new (
        spec.managed ctx.now ask.now entries.old.current) }
{
    if is_malformed(ask) {
        return Err(OfferFault::Malformed);
    }
    if ask.offer_id == 0 {
        return make(entries, ctx, ask);
    }
    manage_old(entries, ctx, ask)
}
