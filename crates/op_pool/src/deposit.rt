//! LIQUIDITY_POOL_DEPOSIT.

ghost use Rattle.std.specs.Prelude.{◌≡◌, ◌≤ℤ◌, pos, Some, IfOk, OnOk};
ghost use Rattle.ledger_types.specs.declared.asset.TrustLineAsset.TheVariants.{PoolShare};
ghost use Rattle.entry_map.specs.Undo.{with_current};
ghost use Rattle.entry_slots.specs.Lines.{line_slot_at};
ghost use Rattle.entry_slots.specs.Pools.{pool_slot_at};
ghost use Rattle.entry_slots.specs.Tests.{first_fault};
ghost use Rattle.reserve_rules.specs.Reserve.{IsLineInRange};
ghost use Rattle.pool_math.specs.Calls.{IsUnsigned};
ghost use Rattle.op_form.specs.Done.{Makes};
ghost use Rattle.op_form.specs.Premises.{BalancesAreInRange};
ghost use Rattle.op_pool.specs.Calls as calls;
ghost use Rattle.op_pool.specs.Deposit as spec;
ghost use Rattle.pool_shares.specs.Premises.{ArePoolsSound};

use crate::depositing::{deposit_by, is_malformed, is_pool_full, is_price_wrong};
use crate::holdings::{is_asset_short, is_asset_unusable, pay_both, turned};
use entry_map::{Base, Entries};
use entry_slots::{LineSlot, PoolSlot, load_line, load_pool};
use ledger_types::{LiquidityPoolEntry, PoolParams, TrustLineAsset, TrustLineEntry};
use op_types::{
    LiquidityPoolDepositOp, LiquidityPoolDepositResult, OperationResult, OperationResultTr,
};
use pool_math::Deposited;
use pool_shares::{ShareChange, store_shares};
use reserve_rules::line_room;
use sponsor_rules::Ctx;
use std::alloc::AllocError;

/// DISABLE_LIQUIDITY_POOL_DEPOSIT_FLAG of the header.
const DEPOSITS_DISABLED: u32 = 2;

/// LIQUIDITY_POOL_DEPOSIT: the source puts amounts of both assets of a pool into it, for shares of it.
pub fn liquidity_pool_deposit<B: Base>(
    op: &LiquidityPoolDepositOp,
    ctx: &Ctx,
    entries: &mut Entries<'_, B>,
) -> Result<OperationResult, AllocError>
    requires in_range { BalancesAreInRange entries.old.current }
    requires sound { ArePoolsSound entries.old.current }
    ensures { IfOk result (λ r.
        Makes r ctx.now entries.old entries.new (spec.liquidity_pool_deposit ctx.now op.now entries.old.current)) }
{
    if ctx.flags & DEPOSITS_DISABLED != 0 {
        return Ok(OperationResult::NotSupported);
    }
    if is_malformed(op) {
        return Ok(answer(LiquidityPoolDepositResult::Malformed));
    }
    let held = TrustLineAsset::PoolShare(op.pool_id);
    let Some(share) = load_line(entries, &ctx.op_source, &held)? else {
        return Ok(answer(LiquidityPoolDepositResult::NoTrust));
    };
    let Some(pool) = load_pool(entries, &op.pool_id)? else {
        return Ok(answer(LiquidityPoolDepositResult::NoTrust));
    };
    put_in(op, ctx, entries, share, pool)
}

/// What the operation answers.
fn answer(code: LiquidityPoolDepositResult) -> OperationResult
    ensures { result ≡ spec.answer code }
{
    OperationResult::Inner(OperationResultTr::LiquidityPoolDeposit(code))
}

/// Whether the source can't use what it has of either asset of a pool.
fn is_either_unusable<B: Base>(
    ctx: &Ctx,
    entries: &Entries<'_, B>,
    params: &PoolParams,
) -> Result<bool, AllocError>
    ensures { IfOk result (λ unusable.
        unusable ≡ calls.is_either_unusable ctx.now params.now entries.now.current) }
{
    if is_asset_unusable(entries, &ctx.op_source, &params.asset_a)? {
        return Ok(true);
    }
    is_asset_unusable(entries, &ctx.op_source, &params.asset_b)
}

/// Whether less of either asset of a pool is available to the source than so much.
fn is_either_short<B: Base>(
    ctx: &Ctx,
    entries: &Entries<'_, B>,
    params: &PoolParams,
    a: i64,
    b: i64,
) -> Result<bool, AllocError>
    requires { BalancesAreInRange entries.now.current }
    ensures { IfOk result (λ short.
        short ≡ calls.is_either_short ctx.now params.now a b entries.now.current) }
{
    let base_reserve = ctx.base_reserve;
    if is_asset_short(entries, base_reserve, &ctx.op_source, &params.asset_a, a)? {
        return Ok(true);
    }
    is_asset_short(entries, base_reserve, &ctx.op_source, &params.asset_b, b)
}

/// Why what is put in can't be.
fn amount_refusal<B: Base>(
    op: &LiquidityPoolDepositOp,
    ctx: &Ctx,
    entries: &Entries<'_, B>,
    share: &TrustLineEntry,
    pool: &LiquidityPoolEntry,
    d: Deposited,
) -> Result<Option<OperationResult>, AllocError>
    requires in_range { BalancesAreInRange entries.now.current }
    requires share { IsLineInRange share.now }
    requires unsigned { IsUnsigned d }
    ensures { IfOk result (λ refusal. refusal ≡ first_fault (
        calls.amount_tests ctx.now op.now share.now pool.now d entries.now.current)) }
{
    if is_either_short(ctx, entries, &pool.params, d.a, d.b)? {
        return Ok(Some(answer(LiquidityPoolDepositResult::Underfunded)));
    }
    if is_price_wrong(op, d.a, d.b) {
        return Ok(Some(answer(LiquidityPoolDepositResult::BadPrice)));
    }
    if line_room(share) < d.shares {
        return Ok(Some(answer(LiquidityPoolDepositResult::LineFull)));
    }
    if is_pool_full(pool, d) {
        return Ok(Some(answer(LiquidityPoolDepositResult::PoolFull)));
    }
    Ok(None)
}

/// Puts amounts of both assets into a pool, where that can be.
fn put_in<B: Base>(
    op: &LiquidityPoolDepositOp,
    ctx: &Ctx,
    entries: &mut Entries<'_, B>,
    share: LineSlot,
    pool: PoolSlot,
) -> Result<OperationResult, AllocError>
    requires max_a { pos 1 ≤ℤ op.now.max_amount_a }
    requires max_b { pos 1 ≤ℤ op.now.max_amount_b }
    requires in_range { BalancesAreInRange entries.old.current }
    requires sound { ArePoolsSound entries.old.current }
    requires share { Some share ≡ line_slot_at entries.old.current ctx.now.op_source (PoolShare op.now.pool_id) }
    requires pool { Some pool ≡ pool_slot_at entries.old.current op.now.pool_id }
    ensures { IfOk result (λ r. Makes r ctx.now entries.old entries.new (
        spec.put_in ctx.now op.now share.line pool.pool (spec.deposit_by op.now pool.pool) entries.old.current)) }
{
    if is_either_unusable(ctx, entries, &pool.pool.params)? {
        return Ok(answer(LiquidityPoolDepositResult::NotAuthorized));
    }
    let Some(d) = deposit_by(op, &pool.pool) else {
        return Ok(answer(LiquidityPoolDepositResult::PoolFull));
    };
    if let Some(refusal) = amount_refusal(op, ctx, entries, &share.line, &pool.pool, d)? {
        return Ok(refusal);
    }
    store_deposit(op, ctx, entries, share, pool, d)?;
    Ok(answer(LiquidityPoolDepositResult::Success))
}

/// Gives the source its shares, and takes both amounts from it.
fn store_deposit<B: Base>(
    op: &LiquidityPoolDepositOp,
    ctx: &Ctx,
    entries: &mut Entries<'_, B>,
    share: LineSlot,
    pool: PoolSlot,
    d: Deposited,
) -> Result<(), AllocError>
    requires share { Some share ≡ line_slot_at entries.old.current ctx.now.op_source (PoolShare op.now.pool_id) }
    requires pool { Some pool ≡ pool_slot_at entries.old.current op.now.pool_id }
    requires fits { calls.DoesDepositFit ctx.now.op_source op.now share.line pool.pool d entries.old.current }
    ensures { OnOk result (
        entries.new ≡
        with_current entries.old (
        calls.map_after_putting ctx.now.op_source op.now pool.pool d entries.old.current)) }
{
    let change = ShareChange {
        a: d.a,
        b: d.b,
        shares: d.shares,
    };
    let params = pool.pool.params;
    store_shares(entries, &ctx.op_source, &op.pool_id, share, pool, change)?;
    pay_both(entries, &ctx.op_source, &params, turned(d.a), turned(d.b))
}
