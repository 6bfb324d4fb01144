//! Liquidity pools.

ghost use Rattle.std.specs.Prelude.{◌≡◌, OnOk};
ghost use Rattle.xdr_core.specs.Position.{Reads, itself};
ghost use Rattle.xdr_tx.specs.Operations as spec;

use op_types::{LiquidityPoolDepositOp, LiquidityPoolWithdrawOp};
use std::alloc::AllocError;
use xdr_core::{Builder, Cursor, XdrFault};
use xdr_entries::{read_hash, read_price, write_hash, write_price};

/// Reads a deposit into a pool.
#[tactic(auto, unfolding(crate::specs::Operations::liquidity_pool_deposit_op))]
pub fn read_liquidity_pool_deposit_op(
    cursor: &mut Cursor<'_>,
) -> Result<LiquidityPoolDepositOp, XdrFault>
    ensures { Reads itself result cursor.old cursor.new (spec.liquidity_pool_deposit_op.read cursor.old) }
{
    let mut ahead = cursor.fork();
    let pool_id = read_hash(&mut ahead)?;
    let max_amount_a = ahead.i64()?;
    let max_amount_b = ahead.i64()?;
    let min_price = read_price(&mut ahead)?;
    let max_price = read_price(&mut ahead)?;
    *cursor = ahead;
    Ok(LiquidityPoolDepositOp {
        pool_id,
        max_amount_a,
        max_amount_b,
        min_price,
        max_price,
    })
}

/// Writes a deposit into a pool.
#[tactic(auto, unfolding(crate::specs::Operations::liquidity_pool_deposit_op))]
pub fn write_liquidity_pool_deposit_op(
    value: &LiquidityPoolDepositOp,
    builder: &mut Builder,
) -> Result<(), AllocError>
    ensures { OnOk result (builder.new ≡ spec.liquidity_pool_deposit_op.onto builder.old value.now) }
{
    write_hash(&value.pool_id, builder)?;
    builder.i64(value.max_amount_a)?;
    builder.i64(value.max_amount_b)?;
    write_price(&value.min_price, builder)?;
    write_price(&value.max_price, builder)
}

/// Reads a withdrawal from a pool.
#[tactic(auto, unfolding(crate::specs::Operations::liquidity_pool_withdraw_op))]
pub fn read_liquidity_pool_withdraw_op(
    cursor: &mut Cursor<'_>,
) -> Result<LiquidityPoolWithdrawOp, XdrFault>
    ensures { Reads itself result cursor.old cursor.new (spec.liquidity_pool_withdraw_op.read cursor.old) }
{
    let mut ahead = cursor.fork();
    let pool_id = read_hash(&mut ahead)?;
    let amount = ahead.i64()?;
    let min_amount_a = ahead.i64()?;
    let min_amount_b = ahead.i64()?;
    *cursor = ahead;
    Ok(LiquidityPoolWithdrawOp {
        pool_id,
        amount,
        min_amount_a,
        min_amount_b,
    })
}

/// Writes a withdrawal from a pool.
#[tactic(auto, unfolding(crate::specs::Operations::liquidity_pool_withdraw_op))]
pub fn write_liquidity_pool_withdraw_op(
    value: &LiquidityPoolWithdrawOp,
    builder: &mut Builder,
) -> Result<(), AllocError>
    ensures { OnOk result (builder.new ≡ spec.liquidity_pool_withdraw_op.onto builder.old value.now) }
{
    write_hash(&value.pool_id, builder)?;
    builder.i64(value.amount)?;
    builder.i64(value.min_amount_a)?;
    builder.i64(value.min_amount_b)
}
