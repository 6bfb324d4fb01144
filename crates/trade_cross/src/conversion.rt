//! A taker crosses a book.

ghost use Rattle.std.specs.Prelude.{◌≡◌, ◌<◌, IfOk, OnOk};
ghost use Rattle.entry_map.specs.Undo.{with_current};
ghost use Rattle.trade_cross.specs.Crossable.{IsCrossable};
ghost use Rattle.trade_cross.specs.Crossing.{turn, converted};
ghost use Rattle.trade_cross.specs.Plans.{left_in};
ghost use Rattle.trade_cross.specs.Progressing as spec;
ghost use Rattle.trade_cross.specs.declared.turn.Turn.TheVariants as turns;

use crate::crossed::{CrossEnd, Crossed};
use crate::plan::Left;
use crate::progress::{Progress, note};
use crate::step::cross_offer;
use crate::trade::Trade;
use crate::turn::{Turn, next_turn};
use entry_map::{Base, Entries};
use item_list::ItemList;
use ledger_types::OfferEntry;
use sponsor_rules::Ctx;
use std::alloc::{AllocError, Global};

/// Crosses the book of offers that sell wheat for sheep, offer by offer, until one of the taker's bounds is used up,
/// the book is, or the next offer isn't crossed. Sellers give and take; what the taker itself has is left as it is.
/// The offers that are crossed away are removed with their reserves, and one whose wheat stays keeps what its owner
/// can still give (convertWithOffers in stellar-core). Rounding, prices and amounts are those of CAP-0003. Where
/// memory is refused the map may only be dropped.
pub fn convert<B: Base>(
    alloc: Global,
    entries: &mut Entries<'_, B>,
    ctx: &Ctx,
    trade: &Trade,
) -> Result<Crossed, AllocError>
    requires crossable { IsCrossable entries.old.current }
    requires bounds { spec.AreTradeBounds trade.now }
    ensures crossed { IfOk result (λ crossed. spec.IsCrossing crossed (
        converted ctx.now.base_reserve trade.now entries.old.current)) }
    ensures entries { OnOk result (
        entries.new ≡
        with_current entries.old (converted ctx.now.base_reserve trade.now entries.old.current).entries) }
    ensures crossable { OnOk result (IsCrossable entries.new.current) }
{
    let mut progress = Progress {
        left: Left {
            sheep_send: trade.sheep_send,
            wheat_receive: trade.wheat_receive,
        },
        crossings: trade.crossings,
        sheep: 0,
        wheat: 0,
        atoms: ItemList::new(alloc),
    };
    loop {
        if let Some(end) = advance(entries, ctx, trade, &mut progress)? {
            let Progress {
                sheep,
                wheat,
                atoms,
                ..
            } = progress;
            return Ok(Crossed {
                sheep,
                wheat,
                atoms,
                end,
            });
        }
    }
}

/// Goes on by one turn. It answers the end, if that has come.
fn advance<B: Base>(
    entries: &mut Entries<'_, B>,
    ctx: &Ctx,
    trade: &Trade,
    progress: &mut Progress,
) -> Result<Option<CrossEnd>, AllocError>
    requires crossable { IsCrossable entries.old.current }
    requires within { spec.IsWithin trade.now progress.old }
    ensures advanced { IfOk result (λ end. spec.Advances ctx.now.base_reserve trade.now end progress.old
        entries.old.current progress.new entries.new.current) }
    ensures entries { OnOk result (entries.new ≡ with_current entries.old entries.new.current) }
    ensures crossable { OnOk result (IsCrossable entries.new.current) }
    ensures within { OnOk result (spec.IsWithin trade.now progress.new) }
{
    match next_turn(entries, trade, progress.left)? {
        Turn::Ends(end) => Ok(Some(end)),
        Turn::Meets(_) if progress.crossings == 0 => Ok(Some(CrossEnd::TooMany)),
        Turn::Meets(offer) => meet(entries, ctx, trade, progress, &offer),
    }
}

/// Crosses the offer that is met. It answers the end, if the offer stays.
fn meet<B: Base>(
    entries: &mut Entries<'_, B>,
    ctx: &Ctx,
    trade: &Trade,
    progress: &mut Progress,
    offer: &OfferEntry,
) -> Result<Option<CrossEnd>, AllocError>
    requires crossable { IsCrossable entries.old.current }
    requires within { spec.IsWithin trade.now progress.old }
    requires some { 0 < progress.old.crossings }
    requires meets { turn trade.now (left_in progress.old.left) entries.old.current ≡ turns.Meets offer.now }
    ensures advanced { IfOk result (λ end. spec.Advances ctx.now.base_reserve trade.now end progress.old
        entries.old.current progress.new entries.new.current) }
    ensures entries { OnOk result (entries.new ≡ with_current entries.old entries.new.current) }
    ensures crossable { OnOk result (IsCrossable entries.new.current) }
    ensures within { OnOk result (spec.IsWithin trade.now progress.new) }
{
    let plan = cross_offer(entries, ctx, trade.rounding, progress.left, offer)?;
    note(progress, offer, plan)?;
    if plan.wheat_stays {
        return Ok(Some(CrossEnd::Converted));
    }
    Ok(None)
}
