//! PATH_PAYMENT_STRICT_SEND.

ghost use Rattle.std.specs.Prelude.{◌≡◌, ◌≤ℤ◌, ◌<ℤ◌, pos, IfOk};
ghost use Rattle.trade_cross.specs.legal_rules.Owing.{AreEntriesLegal};
ghost use Rattle.op_form.specs.Done.{Makes};
ghost use Rattle.op_form.specs.Premises.{BalancesAreInRange};
ghost use Rattle.op_payment.specs.PathCalls as calls;
ghost use Rattle.op_payment.specs.PathSend as spec;

use crate::carried::Carried;
use crate::hop_fault::HopFault;
use crate::path::send;
use crate::path_payment::{arrived, is_nobody, is_path_valid};
use entry_map::{Base, Entries};
use op_form::{CreditFault, DebitFault, credit, debit};
use op_types::{
    OperationResult, OperationResultTr, PathPaymentStrictSendOp, PathPaymentStrictSendResult,
};
use sponsor_rules::Ctx;
use std::alloc::AllocError;

/// PATH_PAYMENT_STRICT_SEND: the source gives an amount of an asset, and the destination gets what comes of it along a
/// path of assets.
pub fn path_payment_strict_send<B: Base>(
    op: &PathPaymentStrictSendOp,
    ctx: &Ctx,
    entries: &mut Entries<'_, B>,
) -> Result<OperationResult, AllocError>
    requires in_range { BalancesAreInRange entries.old.current }
    requires legal { AreEntriesLegal ctx.now.id_pool entries.old.current }
    ensures { IfOk result (λ r.
        Makes r ctx.now entries.old entries.new (spec.path_payment_strict_send ctx.now op.now entries.old.current)) }
{
    if op.send_amount <= 0
        || op.dest_min <= 0
        || !is_path_valid(&op.send_asset, op.path.as_slice(), &op.dest_asset)
    {
        return Ok(answer(PathPaymentStrictSendResult::Malformed));
    }
    let destination = op.destination.account_id();
    if is_nobody(
        entries,
        &destination,
        &op.send_asset,
        op.path.as_slice(),
        &op.dest_asset,
    )? {
        return Ok(answer(PathPaymentStrictSendResult::NoDestination));
    }
    entries.child()?;
    match give_and_take(op, ctx, entries)? {
        Ok(success) => {
            entries.commit()?;
            Ok(success)
        }
        Err(failure) => {
            entries.drop_child();
            Ok(failure)
        }
    }
}

/// What the operation answers.
fn answer(code: PathPaymentStrictSendResult) -> OperationResult
    ensures { result ≡ spec.answer code }
{
    OperationResult::Inner(OperationResultTr::PathPaymentStrictSend(code))
}

/// What a credit's fault answers.
fn credit_result(fault: CreditFault) -> OperationResult
    ensures { result ≡ spec.credit_result fault }
{
    match fault {
        CreditFault::NoLine => answer(PathPaymentStrictSendResult::NoTrust),
        CreditFault::NotAuthorized => answer(PathPaymentStrictSendResult::NotAuthorized),
        CreditFault::Full => answer(PathPaymentStrictSendResult::LineFull),
    }
}

/// What a debit's fault answers.
fn debit_result(fault: DebitFault) -> OperationResult
    ensures { result ≡ spec.debit_result fault }
{
    match fault {
        DebitFault::NoLine => answer(PathPaymentStrictSendResult::SrcNoTrust),
        DebitFault::NotAuthorized => answer(PathPaymentStrictSendResult::SrcNotAuthorized),
        DebitFault::Short => answer(PathPaymentStrictSendResult::Underfunded),
    }
}

/// What a path answers along which the amount doesn't go.
fn path_result(fault: HopFault) -> OperationResult
    ensures { result ≡ spec.path_result fault }
{
    match fault {
        HopFault::CrossSelf => answer(PathPaymentStrictSendResult::OfferCrossSelf),
        HopFault::TooMany => OperationResult::ExceededWorkLimit,
        HopFault::TooFew => answer(PathPaymentStrictSendResult::TooFewOffers),
    }
}

/// The source gives the amount first; it is sent along the path, from its beginning to its end. Where it answers a
/// failure, the map has to be undone.
fn give_and_take<B: Base>(
    op: &PathPaymentStrictSendOp,
    ctx: &Ctx,
    entries: &mut Entries<'_, B>,
) -> Result<Result<OperationResult, OperationResult>, AllocError>
    requires amount { pos 0 <ℤ op.now.send_amount }
    requires in_range { BalancesAreInRange entries.old.current }
    requires legal { AreEntriesLegal ctx.now.id_pool entries.old.current }
    ensures { IfOk result (λ r.
        calls.IsTried r ctx.now entries.old entries.new (spec.given_and_taken ctx.now op.now entries.old.current)) }
{
    if let Some(fault) = debit(entries, ctx, &ctx.op_source, &op.send_asset, op.send_amount)? {
        return Ok(Err(debit_result(fault)));
    }
    let carried = Carried::set_out(ctx.sponsorships.allocator(), op.send_amount);
    match send(
        entries,
        ctx,
        &op.send_asset,
        op.path.as_slice(),
        &op.dest_asset,
        carried,
    )? {
        Ok(carried) => take(op, ctx, entries, carried),
        Err(fault) => Ok(Err(path_result(fault))),
    }
}

/// The destination takes what came of it.
fn take<B: Base>(
    op: &PathPaymentStrictSendOp,
    ctx: &Ctx,
    entries: &mut Entries<'_, B>,
    carried: Carried,
) -> Result<Result<OperationResult, OperationResult>, AllocError>
    requires low { pos 0 ≤ℤ carried.amount }
    requires in_range { BalancesAreInRange entries.old.current }
    ensures { IfOk result (λ r.
        calls.IsTried r ctx.now entries.old entries.new (
        spec.taken ctx.now op.now (calls.carried_of carried entries.old.current))) }
{
    if carried.amount < op.dest_min {
        return Ok(Err(answer(PathPaymentStrictSendResult::UnderDestmin)));
    }
    let destination = op.destination.account_id();
    if let Some(fault) = credit(entries, &destination, &op.dest_asset, carried.amount)? {
        return Ok(Err(credit_result(fault)));
    }
    let amount = carried.amount;
    Ok(Ok(answer(PathPaymentStrictSendResult::Success(arrived(
        carried.atoms,
        destination,
        &op.dest_asset,
        amount,
    )))))
}
