//! LIQUIDITY_POOL_WITHDRAW.

ghost use Rattle.std.specs.Prelude.{◌≡◌, ◌≤ℤ◌, pos, Some, IfOk, OnOk};
ghost use Rattle.ledger_types.specs.declared.asset.TrustLineAsset.TheVariants.{PoolShare};
ghost use Rattle.entry_map.specs.Undo.{with_current};
ghost use Rattle.entry_slots.specs.Lines.{line_slot_at};
ghost use Rattle.entry_slots.specs.Pools.{pool_slot_at};
ghost use Rattle.entry_slots.specs.Tests.{first_fault};
ghost use Rattle.trade_cross.specs.legal_rules.Ranges.{IsPoolInRange};
ghost use Rattle.pool_shares.specs.Withdrawing as withdrawing;
ghost use Rattle.op_form.specs.Done.{Makes};
ghost use Rattle.op_form.specs.Premises.{BalancesAreInRange};
ghost use Rattle.op_pool.specs.Calls as calls;
ghost use Rattle.pool_shares.specs.Premises.{ArePoolsSound};
ghost use Rattle.op_pool.specs.Withdraw as spec;

use crate::holdings::{most_of_asset, pay_both, turned};
use entry_map::{Base, Entries};
use entry_slots::{LineSlot, PoolSlot, load_line, load_pool};
use ledger_types::{LiquidityPoolEntry, PoolParams, TrustLineAsset};
use op_types::{
    LiquidityPoolWithdrawOp, LiquidityPoolWithdrawResult, OperationResult, OperationResultTr,
};
use pool_shares::{Part, ShareChange, part_of, store_shares};
use sponsor_rules::Ctx;
use std::alloc::AllocError;

/// DISABLE_LIQUIDITY_POOL_WITHDRAWAL_FLAG of the header.
const WITHDRAWALS_DISABLED: u32 = 4;

/// LIQUIDITY_POOL_WITHDRAW: the source gives shares of a pool back, for their part of both its assets.
pub fn liquidity_pool_withdraw<B: Base>(
    op: &LiquidityPoolWithdrawOp,
    ctx: &Ctx,
    entries: &mut Entries<'_, B>,
) -> Result<OperationResult, AllocError>
    requires in_range { BalancesAreInRange entries.old.current }
    requires sound { ArePoolsSound entries.old.current }
    ensures { IfOk result (λ r.
        Makes r ctx.now entries.old entries.new (spec.liquidity_pool_withdraw ctx.now op.now entries.old.current)) }
{
    if ctx.flags & WITHDRAWALS_DISABLED != 0 {
        return Ok(OperationResult::NotSupported);
    }
    if op.amount <= 0 || op.min_amount_a < 0 || op.min_amount_b < 0 {
        return Ok(answer(LiquidityPoolWithdrawResult::Malformed));
    }
    let held = TrustLineAsset::PoolShare(op.pool_id);
    let Some(share) = load_line(entries, &ctx.op_source, &held)? else {
        return Ok(answer(LiquidityPoolWithdrawResult::NoTrust));
    };
    if share.line.balance < op.amount {
        return Ok(answer(LiquidityPoolWithdrawResult::Underfunded));
    }
    let Some(pool) = load_pool(entries, &op.pool_id)? else {
        return Ok(answer(LiquidityPoolWithdrawResult::NoTrust));
    };
    take_out(op, ctx, entries, share, pool)
}

/// What the operation answers.
fn answer(code: LiquidityPoolWithdrawResult) -> OperationResult
    ensures { result ≡ spec.answer code }
{
    OperationResult::Inner(OperationResultTr::LiquidityPoolWithdraw(code))
}

/// Whether an amount is below its minimum.
fn is_below_minimum(op: &LiquidityPoolWithdrawOp, part: Part) -> bool
    ensures { result ≡ calls.is_below_minimum op.now part.a part.b }
{
    part.a < op.min_amount_a || part.b < op.min_amount_b
}

/// Whether there is too little room for either amount. Of what the source issues there is always room.
fn is_either_full<B: Base>(
    ctx: &Ctx,
    entries: &Entries<'_, B>,
    params: &PoolParams,
    part: Part,
) -> Result<bool, AllocError>
    requires in_range { BalancesAreInRange entries.now.current }
    requires sound { ArePoolsSound entries.now.current }
    requires a { pos 0 ≤ℤ part.a }
    requires b { pos 0 ≤ℤ part.b }
    ensures { IfOk result (λ full.
        full ≡ calls.is_either_full ctx.now params.now part.a part.b entries.now.current) }
{
    if most_of_asset(entries, &ctx.op_source, &params.asset_a)? < part.a {
        return Ok(true);
    }
    Ok(most_of_asset(entries, &ctx.op_source, &params.asset_b)? < part.b)
}

/// Why a part can't be taken out.
fn part_refusal<B: Base>(
    op: &LiquidityPoolWithdrawOp,
    ctx: &Ctx,
    entries: &Entries<'_, B>,
    params: &PoolParams,
    part: Part,
) -> Result<Option<OperationResult>, AllocError>
    requires in_range { BalancesAreInRange entries.now.current }
    requires sound { ArePoolsSound entries.now.current }
    requires a { pos 0 ≤ℤ part.a }
    requires b { pos 0 ≤ℤ part.b }
    ensures { IfOk result (λ refusal. refusal ≡ first_fault (
        calls.part_tests ctx.now op.now params.now part entries.now.current)) }
{
    if is_below_minimum(op, part) {
        return Ok(Some(answer(LiquidityPoolWithdrawResult::UnderMinimum)));
    }
    if is_either_full(ctx, entries, params, part)? {
        return Ok(Some(answer(LiquidityPoolWithdrawResult::LineFull)));
    }
    Ok(None)
}

/// What the shares that are given back give of a pool's reserves.
fn part_for(op: &LiquidityPoolWithdrawOp, pool: &LiquidityPoolEntry) -> Part
    requires range { IsPoolInRange pool.now }
    requires amount { pos 1 ≤ℤ op.now.amount }
    requires within { op.now.amount ≤ℤ pool.now.total_pool_shares }
    ensures part { result ≡ calls.signed_part (withdrawing.part_of pool.now op.now.amount) }
    ensures within_a { result.a ≤ℤ pool.now.reserve_a }
    ensures within_b { result.b ≤ℤ pool.now.reserve_b }
{
    part_of(pool, op.amount)
}

/// Takes the part that shares give out of a pool, where that can be.
fn take_out<B: Base>(
    op: &LiquidityPoolWithdrawOp,
    ctx: &Ctx,
    entries: &mut Entries<'_, B>,
    share: LineSlot,
    pool: PoolSlot,
) -> Result<OperationResult, AllocError>
    requires amount { pos 1 ≤ℤ op.now.amount }
    requires within { op.now.amount ≤ℤ share.line.balance }
    requires in_range { BalancesAreInRange entries.old.current }
    requires sound { ArePoolsSound entries.old.current }
    requires share { Some share ≡ line_slot_at entries.old.current ctx.now.op_source (PoolShare op.now.pool_id) }
    requires pool { Some pool ≡ pool_slot_at entries.old.current op.now.pool_id }
    ensures { IfOk result (λ r. Makes r ctx.now entries.old entries.new (
        spec.taken ctx.now op.now pool.pool (withdrawing.part_of pool.pool op.now.amount) entries.old.current)) }
{
    let part = part_for(op, &pool.pool);
    if let Some(refusal) = part_refusal(op, ctx, entries, &pool.pool.params, part)? {
        return Ok(refusal);
    }
    store_withdrawal(op, ctx, entries, share, pool, part)?;
    Ok(answer(LiquidityPoolWithdrawResult::Success))
}

/// Takes the shares from the source, and gives it both amounts.
fn store_withdrawal<B: Base>(
    op: &LiquidityPoolWithdrawOp,
    ctx: &Ctx,
    entries: &mut Entries<'_, B>,
    share: LineSlot,
    pool: PoolSlot,
    part: Part,
) -> Result<(), AllocError>
    requires share { Some share ≡ line_slot_at entries.old.current ctx.now.op_source (PoolShare op.now.pool_id) }
    requires pool { Some pool ≡ pool_slot_at entries.old.current op.now.pool_id }
    requires fits { calls.DoesWithdrawalFit ctx.now.op_source op.now share.line pool.pool part entries.old.current }
    ensures { OnOk result (
        entries.new ≡
        with_current entries.old (
        calls.map_after_handing ctx.now.op_source op.now pool.pool part entries.old.current)) }
{
    let change = ShareChange {
        a: turned(part.a),
        b: turned(part.b),
        shares: turned(op.amount),
    };
    let params = pool.pool.params;
    store_shares(entries, &ctx.op_source, &op.pool_id, share, pool, change)?;
    pay_both(entries, &ctx.op_source, &params, part.a, part.b)
}
