//! An amount that goes along a path of assets, hop by hop.

ghost use Rattle.std.specs.Prelude.{◌≡◌, pos, ◌≤ℤ◌, IfOk};
ghost use Rattle.trade_cross.specs.Crossable.{IsCrossable};
ghost use Rattle.trade_cross.specs.Progressing.{AreTradeBounds};
ghost use Rattle.op_payment.specs.PathCalls as calls;
ghost use Rattle.op_payment.specs.Paths as spec;

use crate::carried::Carried;
use crate::hop_fault::HopFault;
use entry_map::{Base, Entries};
use ledger_types::Asset;
use offer_exchange::Rounding;
use sponsor_rules::Ctx;
use std::alloc::AllocError;
use trade_cross::{CrossEnd, Crossed, Trade, hop, is_served};

/// So much wheat is received, for whatever it costs.
fn receiving(ctx: &Ctx, sheep: &Asset, wheat: &Asset, carried: &Carried) -> Trade
    requires { pos 0 ≤ℤ carried.now.amount }
    ensures { calls.IsReceiving result ctx.now sheep.now wheat.now carried.now }
{
    Trade {
        sheep: *sheep,
        wheat: *wheat,
        sheep_send: i64::MAX,
        wheat_receive: carried.amount,
        rounding: Rounding::StrictReceive,
        greatest: None,
        passive: false,
        crossings: carried.crossings,
        taker: ctx.op_source,
    }
}

/// So much sheep is sent, for whatever it brings.
fn sending(ctx: &Ctx, sheep: &Asset, wheat: &Asset, carried: &Carried) -> Trade
    requires { pos 0 ≤ℤ carried.now.amount }
    ensures { calls.IsSending result ctx.now sheep.now wheat.now carried.now }
{
    Trade {
        sheep: *sheep,
        wheat: *wheat,
        sheep_send: carried.amount,
        wheat_receive: i64::MAX,
        rounding: Rounding::StrictSend,
        greatest: None,
        passive: false,
        crossings: carried.crossings,
        taker: ctx.op_source,
    }
}

/// Why a hop wasn't served that ended so, if it wasn't.
fn end_fault(trade: &Trade, done: &Crossed) -> Option<HopFault>
    requires bounds { AreTradeBounds trade.now }
    requires sheep { pos 0 ≤ℤ done.now.sheep }
    requires wheat { pos 0 ≤ℤ done.now.wheat }
    ensures { calls.IsEndFault result trade.now done.now }
{
    match done.end {
        CrossEnd::CrossSelf => Some(HopFault::CrossSelf),
        CrossEnd::TooMany => Some(HopFault::TooMany),
        _ if is_served(trade, done) => None,
        _ => Some(HopFault::TooFew),
    }
}

/// Makes a hop, or answers why it isn't served. The map may only be dropped then.
fn hopped<B: Base>(
    entries: &mut Entries<'_, B>,
    ctx: &Ctx,
    trade: &Trade,
) -> Result<Result<Crossed, HopFault>, AllocError>
    requires crossable { IsCrossable entries.old.current }
    requires bounds { AreTradeBounds trade.now }
    ensures hopped { IfOk result (λ done. calls.IsHopped done entries.old entries.new (
        spec.hopped ctx.now trade.now entries.old.current)) }
    ensures crossable { IfOk result (λ done. IsCrossable entries.new.current) }
{
    let done = hop(ctx.sponsorships.allocator(), entries, ctx, trade)?;
    match end_fault(trade, &done) {
        Some(fault) => Ok(Err(fault)),
        None => Ok(Ok(done)),
    }
}

/// One hop back: what is needed of an asset is received for another one. Two neighbours that are one asset are no hop.
fn receive_hop<B: Base>(
    entries: &mut Entries<'_, B>,
    ctx: &Ctx,
    sheep: &Asset,
    wheat: &Asset,
    carried: Carried,
) -> Result<Result<Carried, HopFault>, AllocError>
    requires crossable { IsCrossable entries.old.current }
    requires low { pos 0 ≤ℤ carried.amount }
    ensures { IfOk result (λ r. calls.IsCarriedSo r entries.old entries.new (
        spec.received_hop ctx.now sheep.now wheat.now (calls.carried_of carried entries.old.current))) }
{
    if sheep.is_same(wheat) {
        return Ok(Ok(carried));
    }
    let trade = receiving(ctx, sheep, wheat, &carried);
    match hopped(entries, ctx, &trade)? {
        Ok(done) => Ok(Ok(carried.needed_before(done)?)),
        Err(fault) => Ok(Err(fault)),
    }
}

/// One hop on: all of an asset is sent for another one. Two neighbours that are one asset are no hop.
fn send_hop<B: Base>(
    entries: &mut Entries<'_, B>,
    ctx: &Ctx,
    sheep: &Asset,
    wheat: &Asset,
    carried: Carried,
) -> Result<Result<Carried, HopFault>, AllocError>
    requires crossable { IsCrossable entries.old.current }
    requires low { pos 0 ≤ℤ carried.amount }
    ensures { IfOk result (λ r. calls.IsCarriedSo r entries.old entries.new (
        spec.sent_hop ctx.now sheep.now wheat.now (calls.carried_of carried entries.old.current))) }
{
    if sheep.is_same(wheat) {
        return Ok(Ok(carried));
    }
    let trade = sending(ctx, sheep, wheat, &carried);
    match hopped(entries, ctx, &trade)? {
        Ok(done) => Ok(Ok(carried.carried_on(done)?)),
        Err(fault) => Ok(Err(fault)),
    }
}

/// What is needed at the end of a path is received, from its last pair back to its first.
pub fn receive<B: Base>(
    entries: &mut Entries<'_, B>,
    ctx: &Ctx,
    first: &Asset,
    path: &[Asset],
    last: &Asset,
    carried: Carried,
) -> Result<Result<Carried, HopFault>, AllocError>
    requires crossable { IsCrossable entries.old.current }
    requires low { pos 0 ≤ℤ carried.amount }
    ensures { IfOk result (λ r. calls.IsCarriedSo r entries.old entries.new (
        spec.received ctx.now first.now path.now last.now (calls.carried_of carried entries.old.current))) }
{
    let Some((next, others)) = path.split_first() else {
        return receive_hop(entries, ctx, first, last, carried);
    };
    match receive(entries, ctx, next, others, last, carried)? {
        Ok(carried) => receive_hop(entries, ctx, first, next, carried),
        Err(fault) => Ok(Err(fault)),
    }
}

/// What sets out at the beginning of a path is sent on, from its first pair to its last.
pub fn send<B: Base>(
    entries: &mut Entries<'_, B>,
    ctx: &Ctx,
    first: &Asset,
    path: &[Asset],
    last: &Asset,
    carried: Carried,
) -> Result<Result<Carried, HopFault>, AllocError>
    requires crossable { IsCrossable entries.old.current }
    requires low { pos 0 ≤ℤ carried.amount }
    ensures { IfOk result (λ r. calls.IsCarriedSo r entries.old entries.new (
        spec.sent ctx.now first.now path.now last.now (calls.carried_of carried entries.old.current))) }
{
    let Some((next, others)) = path.split_first() else {
        return send_hop(entries, ctx, first, last, carried);
    };
    match send_hop(entries, ctx, first, next, carried)? {
        Ok(carried) => send(entries, ctx, next, others, last, carried),
        Err(fault) => Ok(Err(fault)),
    }
}
