//! PAYMENT.

ghost use Rattle.std.specs.Prelude.{◌≡◌, ◌<ℤ◌, pos, IfOk};
ghost use Rattle.op_form.specs.Done.{Makes};
ghost use Rattle.op_form.specs.Premises.{BalancesAreInRange};
ghost use Rattle.op_payment.specs.Payment as spec;

use entry_map::{Base, Entries};
use op_form::{CreditFault, DebitFault, credit, debit, exists, is_issued_by, is_native};
use op_types::{OperationResult, OperationResultTr, PaymentOp, PaymentResult};
use sponsor_rules::Ctx;
use std::alloc::AllocError;
use valid_values::is_valid_asset;

/// PAYMENT: the source gives the destination an amount of an asset.
pub fn payment<B: Base>(
    op: &PaymentOp,
    ctx: &Ctx,
    entries: &mut Entries<'_, B>,
) -> Result<OperationResult, AllocError>
    requires { BalancesAreInRange entries.old.current }
    ensures { IfOk result (λ r.
        Makes r ctx.now entries.old entries.new (spec.payment ctx.now op.now entries.old.current)) }
{
    if op.amount <= 0 || !is_valid_asset(&op.asset) {
        return Ok(answer(PaymentResult::Malformed));
    }
    if is_to_itself(op, ctx) {
        return Ok(answer(PaymentResult::Success));
    }
    let destination = op.destination.account_id();
    if !is_issued_by(&op.asset, &destination) && !exists(entries, &destination)? {
        return Ok(answer(PaymentResult::NoDestination));
    }
    take_and_give(op, ctx, entries)
}

/// What the operation answers.
fn answer(code: PaymentResult) -> OperationResult
    ensures { result ≡ spec.answer code }
{
    OperationResult::Inner(OperationResultTr::Payment(code))
}

/// Whether an account pays lumens to itself.
fn is_to_itself(op: &PaymentOp, ctx: &Ctx) -> bool
    ensures { result ≡ spec.is_to_itself ctx.now op.now }
{
    is_native(&op.asset) && op.destination.account_id().0 == ctx.op_source.0
}

/// What a credit's fault answers.
fn credit_result(fault: CreditFault) -> OperationResult
    ensures { result ≡ spec.credit_result fault }
{
    match fault {
        CreditFault::NoLine => answer(PaymentResult::NoTrust),
        CreditFault::NotAuthorized => answer(PaymentResult::NotAuthorized),
        CreditFault::Full => answer(PaymentResult::LineFull),
    }
}

/// What a debit's fault answers.
fn debit_result(fault: DebitFault) -> OperationResult
    ensures { result ≡ spec.debit_result fault }
{
    match fault {
        DebitFault::NoLine => answer(PaymentResult::SrcNoTrust),
        DebitFault::NotAuthorized => answer(PaymentResult::SrcNotAuthorized),
        DebitFault::Short => answer(PaymentResult::Underfunded),
    }
}

/// Gives the amount to the destination and takes it from the source, or undoes that.
fn take_and_give<B: Base>(
    op: &PaymentOp,
    ctx: &Ctx,
    entries: &mut Entries<'_, B>,
) -> Result<OperationResult, AllocError>
    requires amount { pos 0 <ℤ op.now.amount }
    requires in_range { BalancesAreInRange entries.old.current }
    ensures { IfOk result (λ r.
        Makes r ctx.now entries.old entries.new (spec.taken_and_given ctx.now op.now entries.old.current)) }
{
    entries.child()?;
    if let Some(fault) = credit(entries, &op.destination.account_id(), &op.asset, op.amount)? {
        entries.drop_child();
        return Ok(credit_result(fault));
    }
    match debit(entries, ctx, &ctx.op_source, &op.asset, op.amount)? {
        Some(fault) => {
            entries.drop_child();
            Ok(debit_result(fault))
        }
        None => {
            entries.commit()?;
            Ok(answer(PaymentResult::Success))
        }
    }
}
