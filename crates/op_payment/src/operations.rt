//! The operations of this crate, by their types.

ghost use Rattle.std.specs.Prelude.{IfOk};
ghost use Rattle.op_form.specs.Done.{Does};
ghost use Rattle.op_form.specs.Premises as premises;
ghost use Rattle.op_payment.specs.Operations as spec;

use crate::path_receive::path_payment_strict_receive;
use crate::path_send::path_payment_strict_send;
use crate::payment::payment;
use entry_map::{Base, Entries};
use op_types::{Operation, OperationBody, OperationResult};
use sponsor_rules::Ctx;
use std::alloc::AllocError;

/// Applies an operation of `ctx.op_source`: it answers the result, and changes the entries. Where the operation fails,
/// nothing has changed. Operations of other types are not supported here.
#[tactic(auto, unfolding(crate::specs::Operations::payment_operation))]
pub fn apply<B: Base>(
    op: &Operation,
    ctx: &mut Ctx,
    entries: &mut Entries<'_, B>,
) -> Result<OperationResult, AllocError>
    requires in_range { premises.BalancesAreInRange entries.old.current }
    requires fit { spec.AreEntriesFit ctx.old op.now.body entries.old.current }
    ensures { IfOk result (λ r.
        Does r ctx.new entries.old entries.new (spec.payment_operation ctx.old op.now.body entries.old.current)) }
{
    match &op.body {
        OperationBody::Payment(op) => payment(op, ctx, entries),
        OperationBody::PathPaymentStrictReceive(op) => {
            path_payment_strict_receive(op, ctx, entries)
        }
        OperationBody::PathPaymentStrictSend(op) => path_payment_strict_send(op, ctx, entries),
        _ => Ok(OperationResult::NotSupported),
    }
}
