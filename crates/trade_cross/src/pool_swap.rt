//! What the pool of a pair would move, and the pool that serves.

ghost use Rattle.std.specs.Prelude.{◌≡◌, pos, neg_ℤ, ◌+ℤ◌, ◌≤ℤ◌, unsigned_abs, false, Some, IfOk, OnOk};
ghost use Rattle.entry_map.specs.Undo.{with_current};
ghost use Rattle.entry_slots.specs.Pools.{pool_slot_at, with_pool};
ghost use Rattle.reserve_rules.specs.Reserve.{greatest_i64};
ghost use Rattle.trade_cross.specs.Crossable.{IsCrossable};
ghost use Rattle.trade_cross.specs.Hop as spec;
ghost use Rattle.trade_cross.specs.Hop.{is_trading_disabled};
ghost use Rattle.trade_cross.specs.HopCalls as calls;
ghost use Rattle.trade_cross.specs.Progressing.{AreTradeBounds, IsCrossing};

use crate::crossed::{CrossEnd, Crossed};
use crate::trade::Trade;
use entry_map::{Base, Entries};
use entry_slots::{PoolSlot, load_pool, store_pool};
use hash_ids::pool_id;
use item_list::ItemList;
use ledger_types::{Asset, ClaimAtom, Hash, LiquidityPoolEntry};
use offer_exchange::Rounding;
use pool_math::{swap_in, swap_out};
use sponsor_rules::Ctx;
use std::alloc::{AllocError, Global};
use std::cmp::Ordering;

/// What a pool would move.
#[derive(Clone, Copy)]
pub struct Swap {
    pub wheat: i64,
    pub sheep: i64,
}

/// The pool of a pair, and what it would move.
#[derive(Clone, Copy)]
pub struct Serving {
    pub slot: PoolSlot,
    pub swap: Swap,
}

/// Whether what is sent is the first of the pair's assets in the order of keys.
fn is_sheep_first(trade: &Trade) -> bool
    ensures { result ≡ spec.is_sheep_first trade.now }
{
    match trade.sheep.cmp(&trade.wheat) {
        Ordering::Less => true,
        _ => false,
    }
}

/// The id of the pair's pool.
fn pool_of_pair(alloc: Global, trade: &Trade) -> Result<Hash, AllocError>
    ensures { IfOk result (λ id. id ≡ spec.pool_of_pair trade.now) }
{
    if is_sheep_first(trade) {
        pool_id(alloc, &trade.sheep, &trade.wheat)
    } else {
        pool_id(alloc, &trade.wheat, &trade.sheep)
    }
}

/// Whether a pool is one of the pair's assets.
fn has_pair(trade: &Trade, pool: &LiquidityPoolEntry) -> bool
    ensures { result ≡ spec.has_pair trade.now pool.now }
{
    let (a, b) = (&pool.params.asset_a, &pool.params.asset_b);
    if is_sheep_first(trade) {
        a.is_same(&trade.sheep) && b.is_same(&trade.wheat)
    } else {
        a.is_same(&trade.wheat) && b.is_same(&trade.sheep)
    }
}

/// What a pool that has `x` of one asset and `y` of the other gives for all that can be put.
fn swap_giving(x: i64, y: i64, put: i64) -> Option<Swap>
    requires x { pos 0 ≤ℤ x }
    requires y { pos 0 ≤ℤ y }
    requires put { pos 0 ≤ℤ put }
    ensures { calls.ShowsGiven result x y put }
{
    match swap_in(x, y, put) {
        Some(given) => Some(Swap {
            wheat: given,
            sheep: put,
        }),
        None => None,
    }
}

/// What a pool that has `x` of one asset and `y` of the other takes for all that is wanted.
fn swap_taking(x: i64, y: i64, want: i64) -> Option<Swap>
    requires x { pos 0 ≤ℤ x }
    requires y { pos 0 ≤ℤ y }
    requires want { pos 0 ≤ℤ want }
    ensures { calls.ShowsTaken result x y want }
{
    match swap_out(x, y, want) {
        Some(taken) => Some(Swap {
            wheat: want,
            sheep: taken,
        }),
        None => None,
    }
}

/// What a pool would move that has `x` of what is sent and `y` of what is received, if it can serve.
fn swap_by(x: i64, y: i64, trade: &Trade) -> Option<Swap>
    requires x { pos 0 ≤ℤ x }
    requires y { pos 0 ≤ℤ y }
    requires bounds { AreTradeBounds trade.now }
    ensures { calls.ShowsSwap result x y trade.now }
{
    match trade.rounding {
        Rounding::StrictSend => swap_giving(x, y, trade.sheep_send),
        _ => swap_taking(x, y, trade.wheat_receive),
    }
}

/// What the pair's pool would move, if it can serve.
fn pool_swap_by(trade: &Trade, pool: &LiquidityPoolEntry) -> Option<Swap>
    requires reserve_a { pos 0 ≤ℤ pool.now.reserve_a }
    requires reserve_b { pos 0 ≤ℤ pool.now.reserve_b }
    requires bounds { AreTradeBounds trade.now }
    ensures { calls.ShowsPoolSwap result trade.now pool.now }
{
    if is_sheep_first(trade) {
        swap_by(pool.reserve_a, pool.reserve_b, trade)
    } else {
        swap_by(pool.reserve_b, pool.reserve_a, trade)
    }
}

/// The pair's pool and what it would move, if it exists, trading with pools isn't disabled, and it can serve.
pub fn serving_pool<B: Base>(
    alloc: Global,
    entries: &Entries<'_, B>,
    ctx: &Ctx,
    trade: &Trade,
) -> Result<Option<Serving>, AllocError>
    requires crossable { IsCrossable entries.now.current }
    requires bounds { AreTradeBounds trade.now }
    ensures { IfOk result (λ serving. calls.ShowsServing serving ctx.now trade.now entries.now.current) }
{
    if ctx.flags % 2 == 1 {
        return Ok(None);
    }
    let id = pool_of_pair(alloc, trade)?;
    match load_pool(entries, &id)? {
        None => Ok(None),
        Some(slot) => Ok(serving_of(entries, ctx, trade, slot)),
    }
}

/// What the pair's pool, which was loaded, would move, if it is one of the pair's assets, and can serve.
fn serving_of<B: Base>(
    entries: &Entries<'_, B>,
    ctx: &Ctx,
    trade: &Trade,
    slot: PoolSlot,
) -> Option<Serving>
    requires enabled { is_trading_disabled ctx.now ≡ false }
    requires crossable { IsCrossable entries.now.current }
    requires bounds { AreTradeBounds trade.now }
    requires loaded { Some slot ≡ pool_slot_at entries.now.current (spec.pool_of_pair trade.now) }
    requires keyed { slot.pool.pool_id ≡ spec.pool_of_pair trade.now }
    ensures { calls.ShowsServing result ctx.now trade.now entries.now.current }
{
    if !has_pair(trade, &slot.pool) {
        return None;
    }
    match pool_swap_by(trade, &slot.pool) {
        None => None,
        Some(swap) => Some(Serving { slot, swap }),
    }
}

/// A reserve that rises.
fn risen(reserve: i64, amount: i64) -> i64
    requires reserve { pos 0 ≤ℤ reserve }
    requires amount { pos 0 ≤ℤ amount }
    requires fits { (reserve +ℤ amount) ≤ℤ greatest_i64 }
    ensures { result ≡ reserve +ℤ pos (unsigned_abs amount) }
{
    reserve + amount
}

/// A reserve that falls.
fn fallen(reserve: i64, amount: i64) -> i64
    requires amount { pos 0 ≤ℤ amount }
    requires left { amount ≤ℤ reserve }
    ensures { result ≡ reserve +ℤ neg_ℤ (pos (unsigned_abs amount)) }
{
    reserve - amount
}

/// A pool whose first reserve is of what is sent, with what a swap leaves.
fn with_swap_first(swap: Swap, pool: LiquidityPoolEntry) -> LiquidityPoolEntry
    requires { calls.DoesSwapFit pool.reserve_a pool.reserve_b swap }
    ensures { result ≡
        spec.with_reserves (pos (unsigned_abs swap.sheep)) (neg_ℤ (pos (unsigned_abs swap.wheat))) pool }
{
    let mut pool = pool;
    pool.reserve_a = risen(pool.reserve_a, swap.sheep);
    pool.reserve_b = fallen(pool.reserve_b, swap.wheat);
    pool
}

/// A pool whose second reserve is of what is sent, with what a swap leaves.
fn with_swap_second(swap: Swap, pool: LiquidityPoolEntry) -> LiquidityPoolEntry
    requires { calls.DoesSwapFit pool.reserve_b pool.reserve_a swap }
    ensures { result ≡
        spec.with_reserves (neg_ℤ (pos (unsigned_abs swap.wheat))) (pos (unsigned_abs swap.sheep)) pool }
{
    let mut pool = pool;
    pool.reserve_a = fallen(pool.reserve_a, swap.wheat);
    pool.reserve_b = risen(pool.reserve_b, swap.sheep);
    pool
}

/// The pool with what a swap leaves.
fn with_swap(trade: &Trade, swap: Swap, pool: LiquidityPoolEntry) -> LiquidityPoolEntry
    requires { calls.DoesPoolFit trade.now swap pool }
    ensures { result ≡ spec.with_swap trade.now (calls.amounts_of swap) pool }
{
    if is_sheep_first(trade) {
        with_swap_first(swap, pool)
    } else {
        with_swap_second(swap, pool)
    }
}

/// Stores the pair's pool, which was loaded, with what a swap leaves.
fn store_swapped<B: Base>(
    entries: &mut Entries<'_, B>,
    trade: &Trade,
    serving: Serving,
) -> Result<(), AllocError>
    requires loaded { Some serving.slot ≡ pool_slot_at entries.old.current (spec.pool_of_pair trade.now) }
    requires fits { calls.DoesPoolFit trade.now serving.swap serving.slot.pool }
    ensures { OnOk result (
        entries.new ≡
        with_current entries.old (
        with_pool entries.old.current (spec.pool_of_pair trade.now) (
        spec.with_swap trade.now (calls.amounts_of serving.swap)))) }
{
    let Serving { mut slot, swap } = serving;
    slot.pool = with_swap(trade, swap, slot.pool);
    store_pool(entries, slot)?;
    Ok(())
}

/// What the pool gave and got.
fn atom_of(trade: &Trade, serving: Serving) -> ClaimAtom
    requires keyed { serving.slot.pool.pool_id ≡ spec.pool_of_pair trade.now }
    requires fits { calls.DoesPoolFit trade.now serving.swap serving.slot.pool }
    ensures { result ≡ spec.pool_atom trade.now (calls.amounts_of serving.swap) }
{
    ClaimAtom::LiquidityPool {
        pool_id: serving.slot.pool.pool_id,
        asset_sold: trade.wheat,
        amount_sold: serving.swap.wheat,
        asset_bought: trade.sheep,
        amount_bought: serving.swap.sheep,
    }
}

/// The pool serves.
pub fn serve<B: Base>(
    alloc: Global,
    entries: &mut Entries<'_, B>,
    ctx: &Ctx,
    trade: &Trade,
    serving: Serving,
) -> Result<Crossed, AllocError>
    requires crossable { IsCrossable entries.old.current }
    requires serving { calls.IsServing ctx.now trade.now entries.old.current serving }
    ensures crossed { IfOk result (λ crossed.
        IsCrossing crossed (spec.swapped trade.now (calls.amounts_of serving.swap) entries.old.current)) }
    ensures entries { OnOk result (
        entries.new ≡
        with_current entries.old (
        spec.swapped trade.now (calls.amounts_of serving.swap) entries.old.current).entries) }
    ensures crossable { OnOk result (IsCrossable entries.new.current) }
{
    let mut atoms = ItemList::new(alloc);
    atoms.push(atom_of(trade, serving))?;
    store_swapped(entries, trade, serving)?;
    Ok(Crossed {
        sheep: serving.swap.sheep,
        wheat: serving.swap.wheat,
        atoms,
        end: CrossEnd::Converted,
    })
}
