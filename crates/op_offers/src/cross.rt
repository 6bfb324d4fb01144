//! The trade of an offer with the book.

ghost use Rattle.std.specs.Prelude.{◌≡◌, ◌≤ℤ◌, pos, unsigned_abs, IfOk, OnOk};
ghost use Rattle.entry_map.specs.Undo.{with_current};
ghost use Rattle.trade_cross.specs.Progressing.{IsCrossing};
ghost use Rattle.op_offers.specs.Calls.{AreLimitsLow, IsSellable, asked_in};
ghost use Rattle.op_offers.specs.Selling as spec;

use crate::ask::inverse;
use crate::asked::Asked;
use crate::limits::capped;
use crate::source::{source_gives, source_takes};
use entry_map::{Base, Entries};
use offer_exchange::Rounding;
use sponsor_rules::Ctx;
use std::alloc::AllocError;
use trade_cross::{Crossed, MOST_CROSSINGS, Trade, convert};

/// The trade of an offer, of whose assets its source can give and take so much at most, each at least 0.
fn trade_within(asked: &Asked, gives: i64, takes: i64) -> Trade
    requires limits { AreLimitsLow asked.now }
    requires gives { pos 0 ≤ℤ gives }
    requires takes { pos 0 ≤ℤ takes }
    ensures { result ≡ spec.trade_within (asked_in asked.now) (unsigned_abs gives) (unsigned_abs takes) }
{
    let offer = &asked.slot.offer;
    Trade {
        sheep: offer.selling,
        wheat: offer.buying,
        sheep_send: capped(asked.sells, 0, gives),
        wheat_receive: capped(asked.buys, 0, takes),
        rounding: Rounding::Normal,
        greatest: Some(inverse(offer.price)),
        passive: offer.flags == 1,
        crossings: MOST_CROSSINGS,
        taker: offer.seller_id,
    }
}

/// The trade of an offer: it sends what it sells and receives what it buys.
fn trade_of<B: Base>(
    entries: &Entries<'_, B>,
    base_reserve: u32,
    asked: &Asked,
) -> Result<Trade, AllocError>
    requires limits { AreLimitsLow asked.now }
    requires sellable { IsSellable (asked_in asked.now) entries.now.current }
    ensures { IfOk result (λ trade. trade ≡ spec.trade_of base_reserve (asked_in asked.now) entries.now.current) }
{
    let gives = source_gives(entries, base_reserve, asked)?;
    let takes = source_takes(entries, asked)?;
    Ok(trade_within(asked, gives, takes))
}

/// Crosses the offers of the other side. What the source itself has is left as it is.
pub fn cross<B: Base>(
    entries: &mut Entries<'_, B>,
    ctx: &Ctx,
    asked: &Asked,
) -> Result<Crossed, AllocError>
    requires limits { AreLimitsLow asked.now }
    requires sellable { IsSellable (asked_in asked.now) entries.old.current }
    ensures crossed { IfOk result (λ crossed. IsCrossing crossed (
        spec.crossed_by ctx.now.base_reserve (asked_in asked.now) entries.old.current)) }
    ensures entries { OnOk result (
        entries.new ≡
        with_current entries.old (
        spec.crossed_by ctx.now.base_reserve (asked_in asked.now) entries.old.current).entries) }
{
    let trade = trade_of(entries, ctx.base_reserve, asked)?;
    convert(ctx.sponsorships.allocator(), entries, ctx, &trade)
}
