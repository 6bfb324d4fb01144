//! Operations.

ghost use Rattle.std.specs.Prelude.{◌≡◌, OnOk};
ghost use Rattle.xdr_core.specs.Position.{Position, Reads};
ghost use Rattle.xdr_core.specs.ReadFault.{cause_of};
ghost use Rattle.xdr_core.specs.Combinators.{pick};
ghost use Rattle.xdr_core.specs.Xdr.{no_arm};
ghost use Rattle.xdr_tx.specs.Operations as spec;

use crate::account_ops::{
    read_account_merge_op, read_bump_sequence_op, read_create_account_op, read_manage_data_op,
    read_set_options_op, write_account_merge_op, write_bump_sequence_op, write_create_account_op,
    write_manage_data_op, write_set_options_op,
};
use crate::balance_ops::{
    read_claim_claimable_balance_op, read_clawback_claimable_balance_op,
    read_create_claimable_balance_op, write_claim_claimable_balance_op,
    write_clawback_claimable_balance_op, write_create_claimable_balance_op,
};
use crate::offer_ops::{
    read_create_passive_sell_offer_op, read_manage_buy_offer_op, read_manage_sell_offer_op,
    write_create_passive_sell_offer_op, write_manage_buy_offer_op, write_manage_sell_offer_op,
};
use crate::payment_ops::{
    read_path_payment_strict_receive_op, read_path_payment_strict_send_op, read_payment_op,
    write_path_payment_strict_receive_op, write_path_payment_strict_send_op, write_payment_op,
};
use crate::pool_ops::{
    read_liquidity_pool_deposit_op, read_liquidity_pool_withdraw_op,
    write_liquidity_pool_deposit_op, write_liquidity_pool_withdraw_op,
};
use crate::sponsor_ops::{
    read_begin_sponsoring_future_reserves_op, read_revoke_sponsorship_op,
    write_begin_sponsoring_future_reserves_op, write_revoke_sponsorship_op,
};
use crate::trust_ops::{
    read_allow_trust_op, read_change_trust_op, read_clawback_op, read_set_trust_line_flags_op,
    write_allow_trust_op, write_change_trust_op, write_clawback_op, write_set_trust_line_flags_op,
};
use op_types::operation_type::{
    ACCOUNT_MERGE, ALLOW_TRUST, BEGIN_SPONSORING_FUTURE_RESERVES, BUMP_SEQUENCE, CHANGE_TRUST,
    CLAIM_CLAIMABLE_BALANCE, CLAWBACK, CLAWBACK_CLAIMABLE_BALANCE, CREATE_ACCOUNT,
    CREATE_CLAIMABLE_BALANCE, CREATE_PASSIVE_SELL_OFFER, END_SPONSORING_FUTURE_RESERVES, INFLATION,
    LIQUIDITY_POOL_DEPOSIT, LIQUIDITY_POOL_WITHDRAW, MANAGE_BUY_OFFER, MANAGE_DATA,
    MANAGE_SELL_OFFER, PATH_PAYMENT_STRICT_RECEIVE, PATH_PAYMENT_STRICT_SEND, PAYMENT,
    REVOKE_SPONSORSHIP, SET_OPTIONS, SET_TRUST_LINE_FLAGS,
};
use op_types::{Operation, OperationBody};
use std::alloc::{AllocError, Global};
use xdr_core::{Builder, Cursor, Decode, Encode, ReadFault, XdrKind, read_option, write_option};
use xdr_entries::MuxedAccountFormat;

/// Reads what an operation does.
#[tactic(auto, unfolding(crate::specs::Operations::operation_body))]
pub fn read_operation_body(
    alloc: Global,
    cursor: &mut Cursor<'_>,
) -> Result<OperationBody, ReadFault>
    ensures { Reads cause_of result cursor.old cursor.new (spec.operation_body.read cursor.old) }
{
    let mut ahead = cursor.fork();
    let body = match ahead.i32()? {
        CREATE_ACCOUNT => OperationBody::CreateAccount(read_create_account_op(&mut ahead)?),
        PAYMENT => OperationBody::Payment(read_payment_op(&mut ahead)?),
        PATH_PAYMENT_STRICT_RECEIVE => OperationBody::PathPaymentStrictReceive(
            read_path_payment_strict_receive_op(alloc, &mut ahead)?,
        ),
        MANAGE_SELL_OFFER => OperationBody::ManageSellOffer(read_manage_sell_offer_op(&mut ahead)?),
        CREATE_PASSIVE_SELL_OFFER => OperationBody::CreatePassiveSellOffer(
            read_create_passive_sell_offer_op(&mut ahead)?,
        ),
        SET_OPTIONS => OperationBody::SetOptions(read_set_options_op(alloc, &mut ahead)?),
        kind => read_second_body(alloc, cursor, kind, &mut ahead)?,
    };
    *cursor = ahead;
    Ok(body)
}

/// Reads what an operation does whose type is 6 or above. `start` is at the operation's type.
#[tactic(auto, unfolding(crate::specs::Operations::second_body_arms))]
fn read_second_body(
    alloc: Global,
    start: &Cursor<'_>,
    kind: i32,
    cursor: &mut Cursor<'_>,
) -> Result<OperationBody, ReadFault>
    ensures { Reads cause_of result cursor.old cursor.new
        (pick spec.second_body_arms no_arm start.now (kind, cursor.old)) }
{
    let mut ahead = cursor.fork();
    let body = match kind {
        CHANGE_TRUST => OperationBody::ChangeTrust(read_change_trust_op(&mut ahead)?),
        ALLOW_TRUST => OperationBody::AllowTrust(read_allow_trust_op(&mut ahead)?),
        ACCOUNT_MERGE => OperationBody::AccountMerge(read_account_merge_op(&mut ahead)?),
        INFLATION => OperationBody::Inflation,
        MANAGE_DATA => OperationBody::ManageData(read_manage_data_op(alloc, &mut ahead)?),
        BUMP_SEQUENCE => OperationBody::BumpSequence(read_bump_sequence_op(&mut ahead)?),
        _ => read_third_body(alloc, start, kind, &mut ahead)?,
    };
    *cursor = ahead;
    Ok(body)
}

/// Reads what an operation does whose type is 12 or above. `start` is at the operation's type.
#[tactic(auto, unfolding(crate::specs::Operations::third_body_arms))]
fn read_third_body(
    alloc: Global,
    start: &Cursor<'_>,
    kind: i32,
    cursor: &mut Cursor<'_>,
) -> Result<OperationBody, ReadFault>
    ensures { Reads cause_of result cursor.old cursor.new
        (pick spec.third_body_arms no_arm start.now (kind, cursor.old)) }
{
    let mut ahead = cursor.fork();
    let body = match kind {
        MANAGE_BUY_OFFER => OperationBody::ManageBuyOffer(read_manage_buy_offer_op(&mut ahead)?),
        PATH_PAYMENT_STRICT_SEND => OperationBody::PathPaymentStrictSend(
            read_path_payment_strict_send_op(alloc, &mut ahead)?,
        ),
        CREATE_CLAIMABLE_BALANCE => OperationBody::CreateClaimableBalance(
            read_create_claimable_balance_op(alloc, &mut ahead)?,
        ),
        CLAIM_CLAIMABLE_BALANCE => OperationBody::ClaimClaimableBalance(
            read_claim_claimable_balance_op(&mut ahead)?,
        ),
        BEGIN_SPONSORING_FUTURE_RESERVES => OperationBody::BeginSponsoringFutureReserves(
            read_begin_sponsoring_future_reserves_op(&mut ahead)?,
        ),
        END_SPONSORING_FUTURE_RESERVES => OperationBody::EndSponsoringFutureReserves,
        _ => read_last_body(alloc, start, kind, &mut ahead)?,
    };
    *cursor = ahead;
    Ok(body)
}

/// Reads what an operation does whose type is 18 or above. `start` is at the operation's type.
#[tactic(auto, unfolding(crate::specs::Operations::last_body_arms))]
fn read_last_body(
    alloc: Global,
    start: &Cursor<'_>,
    kind: i32,
    cursor: &mut Cursor<'_>,
) -> Result<OperationBody, ReadFault>
    ensures { Reads cause_of result cursor.old cursor.new
        (pick spec.last_body_arms no_arm start.now (kind, cursor.old)) }
{
    let mut ahead = cursor.fork();
    let body = match kind {
        REVOKE_SPONSORSHIP => OperationBody::RevokeSponsorship(read_revoke_sponsorship_op(
            alloc, &mut ahead,
        )?),
        CLAWBACK => OperationBody::Clawback(read_clawback_op(&mut ahead)?),
        CLAWBACK_CLAIMABLE_BALANCE => OperationBody::ClawbackClaimableBalance(
            read_clawback_claimable_balance_op(&mut ahead)?,
        ),
        SET_TRUST_LINE_FLAGS => OperationBody::SetTrustLineFlags(read_set_trust_line_flags_op(
            &mut ahead,
        )?),
        LIQUIDITY_POOL_DEPOSIT => OperationBody::LiquidityPoolDeposit(
            read_liquidity_pool_deposit_op(&mut ahead)?,
        ),
        LIQUIDITY_POOL_WITHDRAW => OperationBody::LiquidityPoolWithdraw(
            read_liquidity_pool_withdraw_op(&mut ahead)?,
        ),
        _ => return Err(ReadFault::Xdr(start.fault(XdrKind::BadEnum))),
    };
    *cursor = ahead;
    Ok(body)
}

/// The type of an operation.
fn type_of(value: &OperationBody) -> i32
    ensures { result ≡ spec.type_of value.now }
{
    match value {
        OperationBody::CreateAccount(_) => CREATE_ACCOUNT,
        OperationBody::Payment(_) => PAYMENT,
        OperationBody::PathPaymentStrictReceive(_) => PATH_PAYMENT_STRICT_RECEIVE,
        OperationBody::ManageSellOffer(_) => MANAGE_SELL_OFFER,
        OperationBody::CreatePassiveSellOffer(_) => CREATE_PASSIVE_SELL_OFFER,
        OperationBody::SetOptions(_) => SET_OPTIONS,
        OperationBody::ChangeTrust(_) => CHANGE_TRUST,
        OperationBody::AllowTrust(_) => ALLOW_TRUST,
        OperationBody::AccountMerge(_) => ACCOUNT_MERGE,
        OperationBody::Inflation => INFLATION,
        OperationBody::ManageData(_) => MANAGE_DATA,
        OperationBody::BumpSequence(_) => BUMP_SEQUENCE,
        OperationBody::ManageBuyOffer(_) => MANAGE_BUY_OFFER,
        OperationBody::PathPaymentStrictSend(_) => PATH_PAYMENT_STRICT_SEND,
        OperationBody::CreateClaimableBalance(_) => CREATE_CLAIMABLE_BALANCE,
        OperationBody::ClaimClaimableBalance(_) => CLAIM_CLAIMABLE_BALANCE,
        OperationBody::BeginSponsoringFutureReserves(_) => BEGIN_SPONSORING_FUTURE_RESERVES,
        OperationBody::EndSponsoringFutureReserves => END_SPONSORING_FUTURE_RESERVES,
        OperationBody::RevokeSponsorship(_) => REVOKE_SPONSORSHIP,
        OperationBody::Clawback(_) => CLAWBACK,
        OperationBody::ClawbackClaimableBalance(_) => CLAWBACK_CLAIMABLE_BALANCE,
        OperationBody::SetTrustLineFlags(_) => SET_TRUST_LINE_FLAGS,
        OperationBody::LiquidityPoolDeposit(_) => LIQUIDITY_POOL_DEPOSIT,
        OperationBody::LiquidityPoolWithdraw(_) => LIQUIDITY_POOL_WITHDRAW,
    }
}

/// Writes what an operation does.
#[tactic(auto, unfolding(crate::specs::Operations::operation_body))]
pub fn write_operation_body(value: &OperationBody, builder: &mut Builder) -> Result<(), AllocError>
    requires { spec.operation_body.within value.now }
    ensures { OnOk result (builder.new ≡ spec.operation_body.onto builder.old value.now) }
{
    builder.i32(type_of(value))?;
    match value {
        OperationBody::CreateAccount(op) => write_create_account_op(op, builder),
        OperationBody::Payment(op) => write_payment_op(op, builder),
        OperationBody::PathPaymentStrictReceive(op) => write_path_payment_strict_receive_op(
            op, builder,
        ),
        OperationBody::ManageSellOffer(op) => write_manage_sell_offer_op(op, builder),
        OperationBody::CreatePassiveSellOffer(op) => write_create_passive_sell_offer_op(
            op, builder,
        ),
        OperationBody::SetOptions(op) => write_set_options_op(op, builder),
        OperationBody::ChangeTrust(op) => write_change_trust_op(op, builder),
        OperationBody::AllowTrust(op) => write_allow_trust_op(op, builder),
        OperationBody::AccountMerge(op) => write_account_merge_op(op, builder),
        OperationBody::Inflation => Ok(()),
        OperationBody::ManageData(op) => write_manage_data_op(op, builder),
        OperationBody::BumpSequence(op) => write_bump_sequence_op(op, builder),
        OperationBody::ManageBuyOffer(op) => write_manage_buy_offer_op(op, builder),
        OperationBody::PathPaymentStrictSend(op) => write_path_payment_strict_send_op(op, builder),
        OperationBody::CreateClaimableBalance(op) => write_create_claimable_balance_op(op, builder),
        OperationBody::ClaimClaimableBalance(op) => write_claim_claimable_balance_op(op, builder),
        OperationBody::BeginSponsoringFutureReserves(op) =>
            write_begin_sponsoring_future_reserves_op(op, builder),
        OperationBody::EndSponsoringFutureReserves => Ok(()),
        OperationBody::RevokeSponsorship(op) => write_revoke_sponsorship_op(op, builder),
        OperationBody::Clawback(op) => write_clawback_op(op, builder),
        OperationBody::ClawbackClaimableBalance(op) => write_clawback_claimable_balance_op(
            op, builder,
        ),
        OperationBody::SetTrustLineFlags(op) => write_set_trust_line_flags_op(op, builder),
        OperationBody::LiquidityPoolDeposit(op) => write_liquidity_pool_deposit_op(op, builder),
        OperationBody::LiquidityPoolWithdraw(op) => write_liquidity_pool_withdraw_op(op, builder),
    }
}

/// Reads an operation.
#[tactic(auto, unfolding(crate::specs::Operations::operation))]
pub fn read_operation(alloc: Global, cursor: &mut Cursor<'_>) -> Result<Operation, ReadFault>
    ensures { Reads cause_of result cursor.old cursor.new (spec.operation.read cursor.old) }
{
    let mut ahead = cursor.fork();
    let source_account = read_option::<MuxedAccountFormat>(alloc, &mut ahead)?;
    let body = read_operation_body(alloc, &mut ahead)?;
    *cursor = ahead;
    Ok(Operation {
        source_account,
        body,
    })
}

/// Writes an operation.
#[tactic(auto, unfolding(crate::specs::Operations::operation))]
pub fn write_operation(value: &Operation, builder: &mut Builder) -> Result<(), AllocError>
    requires { spec.operation.within value.now }
    ensures { OnOk result (builder.new ≡ spec.operation.onto builder.old value.now) }
{
    write_option::<MuxedAccountFormat>(&value.source_account, builder)?;
    write_operation_body(&value.body, builder)
}

/// Operations, as a format.
pub enum OperationFormat {}

impl Decode for OperationFormat {
    type Value = Operation;

    type Failure = ReadFault;

    ghost format = { spec.operation };

    fn decode(alloc: Global, cursor: &mut Cursor<'_>) -> Result<Operation, ReadFault> {
        read_operation(alloc, cursor)
    }
}

impl Encode for OperationFormat {
    #[tactic(auto, using(xdr_core::proofs::FormatLaws::written, crate::proofs::BodyLaws::operation_laws))]
    fn encode(value: &Operation, builder: &mut Builder) -> Result<(), AllocError> {
        write_operation(value, builder)
    }
}
