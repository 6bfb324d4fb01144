//! PATH_PAYMENT_STRICT_RECEIVE.

ghost use Rattle.std.specs.Prelude.{◌≡◌, ◌≤ℤ◌, ◌<ℤ◌, pos, IfOk};
ghost use Rattle.trade_cross.specs.legal_rules.Owing.{AreEntriesLegal};
ghost use Rattle.op_form.specs.Done.{Makes};
ghost use Rattle.op_form.specs.Premises.{BalancesAreInRange};
ghost use Rattle.op_payment.specs.PathCalls as calls;
ghost use Rattle.op_payment.specs.PathReceive as spec;

use crate::carried::Carried;
use crate::hop_fault::HopFault;
use crate::path::receive;
use crate::path_payment::{arrived, is_nobody, is_path_valid};
use entry_map::{Base, Entries};
use op_form::{CreditFault, DebitFault, credit, debit};
use op_types::{
    OperationResult, OperationResultTr, PathPaymentStrictReceiveOp, PathPaymentStrictReceiveResult,
};
use sponsor_rules::Ctx;
use std::alloc::AllocError;

/// PATH_PAYMENT_STRICT_RECEIVE: the destination gets an amount of an asset, and the source gives what that costs along
/// a path of assets.
pub fn path_payment_strict_receive<B: Base>(
    op: &PathPaymentStrictReceiveOp,
    ctx: &Ctx,
    entries: &mut Entries<'_, B>,
) -> Result<OperationResult, AllocError>
    requires in_range { BalancesAreInRange entries.old.current }
    requires legal { AreEntriesLegal ctx.now.id_pool entries.old.current }
    ensures { IfOk result (λ r.
        Makes r ctx.now entries.old entries.new (spec.path_payment_strict_receive ctx.now op.now entries.old.current)) }
{
    if op.send_max <= 0
        || op.dest_amount <= 0
        || !is_path_valid(&op.send_asset, op.path.as_slice(), &op.dest_asset)
    {
        return Ok(answer(PathPaymentStrictReceiveResult::Malformed));
    }
    let destination = op.destination.account_id();
    if is_nobody(
        entries,
        &destination,
        &op.send_asset,
        op.path.as_slice(),
        &op.dest_asset,
    )? {
        return Ok(answer(PathPaymentStrictReceiveResult::NoDestination));
    }
    entries.child()?;
    match take_and_give(op, ctx, entries)? {
        Ok(success) => {
            entries.commit()?;
            Ok(success)
        }
        Err(failure) => {
            entries.drop_child();
            Ok(failure)
        }
    }
}

/// What the operation answers.
fn answer(code: PathPaymentStrictReceiveResult) -> OperationResult
    ensures { result ≡ spec.answer code }
{
    OperationResult::Inner(OperationResultTr::PathPaymentStrictReceive(code))
}

/// What a credit's fault answers.
fn credit_result(fault: CreditFault) -> OperationResult
    ensures { result ≡ spec.credit_result fault }
{
    match fault {
        CreditFault::NoLine => answer(PathPaymentStrictReceiveResult::NoTrust),
        CreditFault::NotAuthorized => answer(PathPaymentStrictReceiveResult::NotAuthorized),
        CreditFault::Full => answer(PathPaymentStrictReceiveResult::LineFull),
    }
}

/// What a debit's fault answers.
fn debit_result(fault: DebitFault) -> OperationResult
    ensures { result ≡ spec.debit_result fault }
{
    match fault {
        DebitFault::NoLine => answer(PathPaymentStrictReceiveResult::SrcNoTrust),
        DebitFault::NotAuthorized => answer(PathPaymentStrictReceiveResult::SrcNotAuthorized),
        DebitFault::Short => answer(PathPaymentStrictReceiveResult::Underfunded),
    }
}

/// What a path answers along which the amount doesn't go.
fn path_result(fault: HopFault) -> OperationResult
    ensures { result ≡ spec.path_result fault }
{
    match fault {
        HopFault::CrossSelf => answer(PathPaymentStrictReceiveResult::OfferCrossSelf),
        HopFault::TooMany => OperationResult::ExceededWorkLimit,
        HopFault::TooFew => answer(PathPaymentStrictReceiveResult::TooFewOffers),
    }
}

/// The destination takes the amount first; it is received along the path, from its end to its beginning. Where it
/// answers a failure, the map has to be undone.
fn take_and_give<B: Base>(
    op: &PathPaymentStrictReceiveOp,
    ctx: &Ctx,
    entries: &mut Entries<'_, B>,
) -> Result<Result<OperationResult, OperationResult>, AllocError>
    requires amount { pos 0 <ℤ op.now.dest_amount }
    requires in_range { BalancesAreInRange entries.old.current }
    requires legal { AreEntriesLegal ctx.now.id_pool entries.old.current }
    ensures { IfOk result (λ r.
        calls.IsTried r ctx.now entries.old entries.new (spec.taken_and_given ctx.now op.now entries.old.current)) }
{
    if let Some(fault) = credit(
        entries,
        &op.destination.account_id(),
        &op.dest_asset,
        op.dest_amount,
    )? {
        return Ok(Err(credit_result(fault)));
    }
    let carried = Carried::set_out(ctx.sponsorships.allocator(), op.dest_amount);
    match receive(
        entries,
        ctx,
        &op.send_asset,
        op.path.as_slice(),
        &op.dest_asset,
        carried,
    )? {
        Ok(carried) => give(op, ctx, entries, carried),
        Err(fault) => Ok(Err(path_result(fault))),
    }
}

/// The source gives what the path costs.
fn give<B: Base>(
    op: &PathPaymentStrictReceiveOp,
    ctx: &Ctx,
    entries: &mut Entries<'_, B>,
    carried: Carried,
) -> Result<Result<OperationResult, OperationResult>, AllocError>
    requires low { pos 0 ≤ℤ carried.amount }
    requires in_range { BalancesAreInRange entries.old.current }
    ensures { IfOk result (λ r.
        calls.IsTried r ctx.now entries.old entries.new (
        spec.given ctx.now op.now (calls.carried_of carried entries.old.current))) }
{
    if op.send_max < carried.amount {
        return Ok(Err(answer(PathPaymentStrictReceiveResult::OverSendmax)));
    }
    if let Some(fault) = debit(entries, ctx, &ctx.op_source, &op.send_asset, carried.amount)? {
        return Ok(Err(debit_result(fault)));
    }
    Ok(Ok(answer(PathPaymentStrictReceiveResult::Success(arrived(
        carried.atoms,
        op.destination.account_id(),
        &op.dest_asset,
        op.dest_amount,
    )))))
}
