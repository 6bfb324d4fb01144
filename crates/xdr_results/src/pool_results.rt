//! What liquidity pools answer.

ghost use Rattle.std.specs.Prelude.{◌≡◌, OnOk};
ghost use Rattle.xdr_core.specs.Position.{Reads, itself};
ghost use Rattle.xdr_results.specs.Answers as spec;

use crate::coded::{read_code, write_code};
use op_types::{LiquidityPoolDepositResult, LiquidityPoolWithdrawResult};
use std::alloc::AllocError;
use xdr_core::{Builder, Cursor, XdrFault};

/// Reads what LIQUIDITY_POOL_DEPOSIT answers.
#[tactic(auto, unfolding(crate::specs::Answers::liquidity_pool_deposit_result))]
pub fn read_liquidity_pool_deposit_result(
    cursor: &mut Cursor<'_>,
) -> Result<LiquidityPoolDepositResult, XdrFault>
    ensures { Reads itself result cursor.old cursor.new (spec.liquidity_pool_deposit_result.read cursor.old) }
{
    read_code(cursor)
}

/// Writes what LIQUIDITY_POOL_DEPOSIT answers.
#[tactic(auto, unfolding(crate::specs::Answers::liquidity_pool_deposit_result))]
pub fn write_liquidity_pool_deposit_result(
    value: &LiquidityPoolDepositResult,
    builder: &mut Builder,
) -> Result<(), AllocError>
    ensures { OnOk result (builder.new ≡ spec.liquidity_pool_deposit_result.onto builder.old value.now) }
{
    write_code(value, builder)
}

/// Reads what LIQUIDITY_POOL_WITHDRAW answers.
#[tactic(auto, unfolding(crate::specs::Answers::liquidity_pool_withdraw_result))]
pub fn read_liquidity_pool_withdraw_result(
    cursor: &mut Cursor<'_>,
) -> Result<LiquidityPoolWithdrawResult, XdrFault>
    ensures { Reads itself result cursor.old cursor.new (spec.liquidity_pool_withdraw_result.read cursor.old) }
{
    read_code(cursor)
}

/// Writes what LIQUIDITY_POOL_WITHDRAW answers.
#[tactic(auto, unfolding(crate::specs::Answers::liquidity_pool_withdraw_result))]
pub fn write_liquidity_pool_withdraw_result(
    value: &LiquidityPoolWithdrawResult,
    builder: &mut Builder,
) -> Result<(), AllocError>
    ensures { OnOk result (builder.new ≡ spec.liquidity_pool_withdraw_result.onto builder.old value.now) }
{
    write_code(value, builder)
}
