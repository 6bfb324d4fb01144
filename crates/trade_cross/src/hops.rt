//! Hops of a path.

ghost use Rattle.std.specs.Prelude.{◌≡◌, pos, ◌≤ℤ◌, unsigned_abs, nat_eq, nat_lt, ◌&&◌, IfOk, OnOk};
ghost use Rattle.entry_map.specs.Undo.{with_current};
ghost use Rattle.trade_cross.specs.Crossable.{IsCrossable};
ghost use Rattle.trade_cross.specs.Hop as spec;
ghost use Rattle.trade_cross.specs.HopCalls as calls;
ghost use Rattle.trade_cross.specs.Progressing.{AreTradeBounds, IsCrossing};

use crate::conversion::convert;
use crate::crossed::Crossed;
use crate::pool_swap::{Serving, Swap, serve, serving_pool};
use crate::trade::Trade;
use entry_map::{Base, Entries};
use offer_exchange::Rounding;
use sponsor_rules::Ctx;
use std::alloc::{AllocError, Global};

/// Makes a hop of a path: by the pool of the pair, where it can serve, unless the book can and is strictly cheaper
/// (convertWithOffersAndPools in stellar-core; CAP-0038). What the taker itself has is left as it is. The end is
/// `Converted` where the pool served, and else that of the book; `is_served` says of what was moved whether the hop was
/// served. Where memory is refused the map may only be dropped.
#[tactic(auto, unfolding(crate::specs::Hop::hop))]
pub fn hop<B: Base>(
    alloc: Global,
    entries: &mut Entries<'_, B>,
    ctx: &Ctx,
    trade: &Trade,
) -> Result<Crossed, AllocError>
    requires crossable { IsCrossable entries.old.current }
    requires bounds { AreTradeBounds trade.now }
    ensures crossed { IfOk result (λ crossed. IsCrossing crossed (spec.hop ctx.now trade.now entries.old.current)) }
    ensures entries { OnOk result (
        entries.new ≡ with_current entries.old (spec.hop ctx.now trade.now entries.old.current).entries) }
    ensures crossable { OnOk result (IsCrossable entries.new.current) }
{
    match serving_pool(alloc, entries, ctx, trade)? {
        None => convert(alloc, entries, ctx, trade),
        Some(serving) => choose(alloc, entries, ctx, trade, serving),
    }
}

/// Tries the book on a layer, and keeps that where it is strictly cheaper than the pool.
fn choose<B: Base>(
    alloc: Global,
    entries: &mut Entries<'_, B>,
    ctx: &Ctx,
    trade: &Trade,
    serving: Serving,
) -> Result<Crossed, AllocError>
    requires crossable { IsCrossable entries.old.current }
    requires bounds { AreTradeBounds trade.now }
    requires serving { calls.IsServing ctx.now trade.now entries.old.current serving }
    ensures crossed { IfOk result (λ crossed. IsCrossing crossed (spec.hop ctx.now trade.now entries.old.current)) }
    ensures entries { OnOk result (
        entries.new ≡ with_current entries.old (spec.hop ctx.now trade.now entries.old.current).entries) }
    ensures crossable { OnOk result (IsCrossable entries.new.current) }
{
    entries.child()?;
    let book = convert(alloc, entries, ctx, trade)?;
    if is_better(trade, &book, serving.swap) {
        entries.commit()?;
        return Ok(book);
    }
    entries.drop_child();
    serve(alloc, entries, ctx, trade, serving)
}

/// Whether the book serves, and is strictly cheaper than the pool.
fn is_better(trade: &Trade, book: &Crossed, pool: Swap) -> bool
    requires bounds { AreTradeBounds trade.now }
    requires book_sheep { pos 0 ≤ℤ book.now.sheep }
    requires book_wheat { pos 0 ≤ℤ book.now.wheat }
    requires pool_sheep { pos 0 ≤ℤ pool.sheep }
    requires pool_wheat { pos 0 ≤ℤ pool.wheat }
    ensures { result ≡ (calls.is_served_by trade.now book.now && calls.is_cheaper_by trade.now.rounding book.now pool) }
{
    is_served(trade, book) && is_cheaper(trade.rounding, book, pool)
}

/// Whether exactly all was sent, or exactly what was wanted was received.
pub fn is_served(trade: &Trade, done: &Crossed) -> bool
    requires bounds { AreTradeBounds trade.now }
    requires sheep { pos 0 ≤ℤ done.now.sheep }
    requires wheat { pos 0 ≤ℤ done.now.wheat }
    ensures value { result ≡ calls.is_served_by trade.now done.now }
    ensures served { calls.ShowsServed result trade.now done.now }
{
    match trade.rounding {
        Rounding::StrictSend => is_same(done.sheep, trade.sheep_send),
        _ => is_same(done.wheat, trade.wheat_receive),
    }
}

/// Whether the book gives more than the pool, or takes less.
fn is_cheaper(rounding: Rounding, book: &Crossed, pool: Swap) -> bool
    requires book_sheep { pos 0 ≤ℤ book.now.sheep }
    requires book_wheat { pos 0 ≤ℤ book.now.wheat }
    requires pool_sheep { pos 0 ≤ℤ pool.sheep }
    requires pool_wheat { pos 0 ≤ℤ pool.wheat }
    ensures { result ≡ calls.is_cheaper_by rounding book.now pool }
{
    match rounding {
        Rounding::StrictSend => is_less(pool.wheat, book.wheat),
        _ => is_less(book.sheep, pool.sheep),
    }
}

/// Whether two amounts are the same.
fn is_same(a: i64, b: i64) -> bool
    requires a { pos 0 ≤ℤ a }
    requires b { pos 0 ≤ℤ b }
    ensures { result ≡ nat_eq (unsigned_abs a) (unsigned_abs b) }
{
    a == b
}

/// Whether an amount is less than another.
fn is_less(a: i64, b: i64) -> bool
    requires a { pos 0 ≤ℤ a }
    requires b { pos 0 ≤ℤ b }
    ensures { result ≡ nat_lt (unsigned_abs a) (unsigned_abs b) }
{
    a < b
}
