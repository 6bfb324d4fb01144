//! The operations of this crate, by their types.

ghost use Rattle.std.specs.Prelude.{IfOk};
ghost use Rattle.op_form.specs.Done.{Does};
ghost use Rattle.op_form.specs.Premises.{BalancesAreInRange};
ghost use Rattle.op_pool.specs.Operations as spec;
ghost use Rattle.pool_shares.specs.Premises.{ArePoolsSound};

use crate::deposit::liquidity_pool_deposit;
use crate::withdraw::liquidity_pool_withdraw;
use entry_map::{Base, Entries};
use op_types::{Operation, OperationBody, OperationResult};
use sponsor_rules::Ctx;
use std::alloc::AllocError;

/// Applies an operation of `ctx.op_source`: it answers the result, and changes the entries. Where the operation fails,
/// nothing has changed. Operations of other types are not supported here.
#[tactic(auto, unfolding(crate::specs::Operations::pool_operation))]
pub fn apply<B: Base>(
    op: &Operation,
    ctx: &mut Ctx,
    entries: &mut Entries<'_, B>,
) -> Result<OperationResult, AllocError>
    requires in_range { BalancesAreInRange entries.old.current }
    requires sound { ArePoolsSound entries.old.current }
    ensures { IfOk result (λ r.
        Does r ctx.new entries.old entries.new (spec.pool_operation ctx.old op.now.body entries.old.current)) }
{
    match &op.body {
        OperationBody::LiquidityPoolDeposit(op) => liquidity_pool_deposit(op, ctx, entries),
        OperationBody::LiquidityPoolWithdraw(op) => liquidity_pool_withdraw(op, ctx, entries),
        _ => Ok(OperationResult::NotSupported),
    }
}
