//! The changes by which an offer is crossed.

ghost use Rattle.std.specs.Prelude.{◌≡◌, ◌≤ℤ◌, pos, unsigned_abs, Some, OnOk};
ghost use Rattle.entry_map.specs.Undo.{with_current};
ghost use Rattle.entry_slots.specs.Offers as offers;
ghost use Rattle.ledger_types.specs.Prices.{IsPriced};
ghost use Rattle.trade_cross.specs.Crossing.{with_amount};
ghost use Rattle.trade_cross.specs.Locations.{DoesChangeFit, changing, location_key};
ghost use Rattle.trade_cross.specs.Plans as spec;

use crate::holding::{Change, change_holding};
use crate::keys::offer_key;
use crate::plan::{Plan, Sides};
use entry_map::{Base, Entries};
use entry_slots::{OfferSlot, load_offer, store_offer};
use ledger_types::{Liabilities, OfferEntry};
use offer_exchange::liabilities;
use sponsor_rules::{Ctx, remove_entry};
use std::alloc::AllocError;

/// What the rest of an offer binds; where there is none, nothing.
fn rest_bound(offer: &OfferEntry, rest: i64) -> Liabilities
    requires priced { IsPriced offer.now.price }
    requires rest { pos 0 ≤ℤ rest }
    ensures selling { result.selling ≡ pos (spec.rest_bound offer.now (unsigned_abs rest)).wheat }
    ensures buying { result.buying ≡ pos (spec.rest_bound offer.now (unsigned_abs rest)).sheep }
{
    if rest > 0 {
        return liabilities(offer.price, rest);
    }
    Liabilities {
        buying: 0,
        selling: 0,
    }
}

/// By how much the side changes that gives: `bound` is what the offer bound, and `rest` what its rest binds, each at
/// least 0.
fn giving_change(plan: Plan, bound: i64, rest: i64) -> Change
    requires wheat { pos 0 ≤ℤ plan.wheat }
    requires bound { pos 0 ≤ℤ bound }
    requires rest { pos 0 ≤ℤ rest }
    ensures { result ≡ spec.change_to_give plan.wheat bound rest }
{
    Change {
        balance: -plan.wheat,
        selling: rest - bound,
        buying: 0,
    }
}

/// By how much the side changes that takes.
fn taking_change(plan: Plan, bound: i64, rest: i64) -> Change
    requires bound { pos 0 ≤ℤ bound }
    requires rest { pos 0 ≤ℤ rest }
    ensures { result ≡ spec.change_to_take plan.sheep bound rest }
{
    Change {
        balance: plan.sheep,
        selling: 0,
        buying: rest - bound,
    }
}

/// Changes each of the two holders once, and then the offer: what rests of it stays in its place, and where nothing
/// rests it is removed with its reserve.
pub fn carry_out<B: Base>(
    entries: &mut Entries<'_, B>,
    ctx: &Ctx,
    offer: &OfferEntry,
    sides: Sides,
    bound: Liabilities,
    plan: Plan,
) -> Result<(), AllocError>
    requires priced { IsPriced offer.now.price }
    requires plan { spec.IsCarried offer.now bound plan }
    requires gives { DoesChangeFit entries.old.current (location_key offer.now.seller_id sides.gives_at)
        (spec.gives_in offer.now plan) }
    requires takes { DoesChangeFit
        (changing (location_key offer.now.seller_id sides.gives_at) (spec.gives_in offer.now plan) entries.old.current)
        (location_key offer.now.seller_id sides.takes_at) (spec.takes_in offer.now plan) }
    ensures { OnOk result (
        entries.new ≡
        with_current entries.old (
        spec.map_with_rest offer.now (unsigned_abs plan.rest) (spec.map_of offer.now sides plan entries.old.current))) }
{
    let rest = rest_bound(offer, plan.rest);
    let gives = giving_change(plan, bound.selling, rest.selling);
    change_holding(entries, &offer.seller_id, sides.gives_at, gives)?;
    let takes = taking_change(plan, bound.buying, rest.buying);
    change_holding(entries, &offer.seller_id, sides.takes_at, takes)?;
    keep_rest(entries, ctx, offer, plan.rest)
}

/// What rests of an offer stays in its place; where nothing rests it is removed with its reserve.
fn keep_rest<B: Base>(
    entries: &mut Entries<'_, B>,
    ctx: &Ctx,
    offer: &OfferEntry,
    rest: i64,
) -> Result<(), AllocError>
    requires rest { pos 0 ≤ℤ rest }
    ensures { OnOk result (
        entries.new ≡
        with_current entries.old (spec.map_with_rest offer.now (unsigned_abs rest) entries.old.current)) }
{
    if rest > 0 {
        return resize(entries, offer, rest);
    }
    remove_entry(entries, ctx, &offer_key(offer))
}

/// Gives an offer that exists another amount.
#[tactic(auto, unfolding(entry_slots::specs::Offers::with_offer))]
fn resize<B: Base>(
    entries: &mut Entries<'_, B>,
    offer: &OfferEntry,
    amount: i64,
) -> Result<(), AllocError>
    requires { pos 0 ≤ℤ amount }
    ensures { OnOk result (
        entries.new ≡
        with_current entries.old (
        offers.with_offer entries.old.current offer.now.seller_id offer.now.offer_id (
        λ was. with_amount (unsigned_abs amount) offer.now))) }
{
    let Some(slot) = load_offer(entries, &offer.seller_id, offer.offer_id)? else {
        return Ok(());
    };
    store_resized(entries, offer, slot, amount)
}

/// Stores the offer that was loaded, with another amount.
#[tactic(auto, unfolding(entry_slots::specs::Offers::with_offer))]
fn store_resized<B: Base>(
    entries: &mut Entries<'_, B>,
    offer: &OfferEntry,
    slot: OfferSlot,
    amount: i64,
) -> Result<(), AllocError>
    requires amount { pos 0 ≤ℤ amount }
    requires loaded { Some slot ≡
        offers.offer_slot_at entries.old.current offer.now.seller_id offer.now.offer_id }
    ensures { OnOk result (
        entries.new ≡
        with_current entries.old (
        offers.with_offer entries.old.current offer.now.seller_id offer.now.offer_id (
        λ was. with_amount (unsigned_abs amount) offer.now))) }
{
    let mut slot = slot;
    slot.offer = OfferEntry { amount, ..*offer };
    store_offer(entries, slot)
}
