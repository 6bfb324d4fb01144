//! The operations of this crate, by their types.

ghost use Rattle.std.specs.Prelude.{◌<◌, IfOk};
ghost use Rattle.op_form.specs.Sequences.{last_seq};
ghost use Rattle.op_form.specs.Done.{Does};
ghost use Rattle.op_form.specs.Premises as premises;
ghost use Rattle.op_claim.specs.Operations as spec;

use crate::claim_claimable_balance::claim_claimable_balance;
use crate::clawback::clawback;
use crate::clawback_claimable_balance::clawback_claimable_balance;
use crate::create_claimable_balance::create_claimable_balance;
use entry_map::{Base, Entries};
use op_types::{Operation, OperationBody, OperationResult};
use sponsor_rules::Ctx;
use std::alloc::AllocError;

/// Applies an operation of `ctx.op_source`: it answers the result, and changes the entries. Where the operation fails,
/// nothing has changed. Operations of other types are not supported here.
#[tactic(auto, unfolding(crate::specs::Operations::claim_operation))]
pub fn apply<B: Base>(
    op: &Operation,
    ctx: &mut Ctx,
    entries: &mut Entries<'_, B>,
) -> Result<OperationResult, AllocError>
    requires seq { ctx.old.seq < last_seq }
    requires in_range { premises.BalancesAreInRange entries.old.current }
    requires amounts { premises.AreAmountsLow entries.old.current }
    ensures { IfOk result (λ r.
        Does r ctx.new entries.old entries.new (spec.claim_operation ctx.old op.now.body entries.old.current)) }
{
    match &op.body {
        OperationBody::CreateClaimableBalance(op) => create_claimable_balance(op, ctx, entries),
        OperationBody::ClaimClaimableBalance(op) => claim_claimable_balance(op, ctx, entries),
        OperationBody::Clawback(op) => clawback(op, ctx, entries),
        OperationBody::ClawbackClaimableBalance(op) => clawback_claimable_balance(op, ctx, entries),
        _ => Ok(OperationResult::NotSupported),
    }
}
