//! One offer that is crossed.

ghost use Rattle.std.specs.Prelude.{◌≡◌, Some, IfOk, OnOk};
ghost use Rattle.entry_map.specs.Undo.{with_current};
ghost use Rattle.entry_slots.specs.Offers.{offer_at};
ghost use Rattle.trade_cross.specs.Crossing.{step};
ghost use Rattle.trade_cross.specs.Crossable.{IsCrossable};
ghost use Rattle.trade_cross.specs.Plans.{AreLeft, left_in};
ghost use Rattle.trade_cross.specs.Steps as spec;

use crate::carry::carry_out;
use crate::location::location_of;
use crate::plan::{Left, Plan, Sides, plan_of};
use crate::side::{most_given_with, most_taken_with};
use entry_map::{Base, Entries};
use ledger_types::{Liabilities, OfferEntry};
use offer_exchange::{Rounding, liabilities};
use sponsor_rules::Ctx;
use std::alloc::AllocError;

/// Where an offer's owner has its two assets, and what it can give and take of them at most once it is released from
/// what the offer binds.
fn sides_of<B: Base>(
    entries: &Entries<'_, B>,
    base_reserve: u32,
    offer: &OfferEntry,
    bound: Liabilities,
) -> Result<Sides, AllocError>
    requires bound { spec.IsBoundOf offer.now bound }
    requires ready { spec.AreSidesReady base_reserve entries.now.current offer.now }
    ensures { IfOk result (spec.AreSidesOf base_reserve entries.now.current offer.now) }
{
    let gives_at = location_of(&offer.seller_id, &offer.selling);
    let takes_at = location_of(&offer.seller_id, &offer.buying);
    let gives = most_given_with(
        entries,
        base_reserve,
        &offer.seller_id,
        gives_at,
        bound.selling,
    )?;
    let takes = most_taken_with(entries, &offer.seller_id, takes_at, bound.buying)?;
    Ok(Sides {
        gives_at,
        gives,
        takes_at,
        takes,
    })
}

/// Crosses an offer that exists: its owner's two holders are looked at and changed once each, and the offer shrinks or
/// goes.
pub fn cross_offer<B: Base>(
    entries: &mut Entries<'_, B>,
    ctx: &Ctx,
    rounding: Rounding,
    left: Left,
    offer: &OfferEntry,
) -> Result<Plan, AllocError>
    requires crossable { IsCrossable entries.old.current }
    requires exists { offer_at entries.old.current offer.now.seller_id offer.now.offer_id ≡ Some offer.now }
    requires left { AreLeft left }
    ensures moved { IfOk result (λ plan. spec.IsMoved plan (
        step ctx.now.base_reserve rounding (left_in left) offer.now entries.old.current)) }
    ensures entries { OnOk result (
        entries.new ≡
        with_current entries.old (
        step ctx.now.base_reserve rounding (left_in left) offer.now entries.old.current).entries) }
{
    let bound = liabilities(offer.price, offer.amount);
    let sides = sides_of(entries, ctx.base_reserve, offer, bound)?;
    let plan = plan_of(rounding, offer, sides, left);
    carry_out(entries, ctx, offer, sides, bound, plan)?;
    Ok(plan)
}
