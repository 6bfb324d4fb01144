//! What operations answer.

ghost use Rattle.std.specs.Prelude.{◌≡◌, OnOk};
ghost use Rattle.xdr_core.specs.Position.{Reads};
ghost use Rattle.xdr_core.specs.ReadFault.{cause_of};
ghost use Rattle.xdr_core.specs.Combinators.{pick};
ghost use Rattle.xdr_core.specs.Xdr.{no_arm};
ghost use Rattle.xdr_results.specs.Results as spec;

use crate::account_results::{
    read_account_merge_result, read_bump_sequence_result, read_inflation_result,
    read_manage_data_result, read_set_options_result, write_account_merge_result,
    write_bump_sequence_result, write_inflation_result, write_manage_data_result,
    write_set_options_result,
};
use crate::balance_results::{
    read_claim_claimable_balance_result, read_clawback_claimable_balance_result,
    read_create_claimable_balance_result, write_claim_claimable_balance_result,
    write_clawback_claimable_balance_result, write_create_claimable_balance_result,
};
use crate::coded::plain_value;
use crate::offer_results::{read_manage_offer_result, write_manage_offer_result};
use crate::payment_results::{
    read_create_account_result, read_path_payment_strict_receive_result,
    read_path_payment_strict_send_result, read_payment_result, write_create_account_result,
    write_path_payment_strict_receive_result, write_path_payment_strict_send_result,
    write_payment_result,
};
use crate::pool_results::{
    read_liquidity_pool_deposit_result, read_liquidity_pool_withdraw_result,
    write_liquidity_pool_deposit_result, write_liquidity_pool_withdraw_result,
};
use crate::sponsor_results::{
    read_begin_sponsoring_future_reserves_result, read_end_sponsoring_future_reserves_result,
    read_revoke_sponsorship_result, write_begin_sponsoring_future_reserves_result,
    write_end_sponsoring_future_reserves_result, write_revoke_sponsorship_result,
};
use crate::trust_results::{
    read_allow_trust_result, read_change_trust_result, read_clawback_result,
    read_set_trust_line_flags_result, write_allow_trust_result, write_change_trust_result,
    write_clawback_result, write_set_trust_line_flags_result,
};
use op_types::operation_type::{
    ACCOUNT_MERGE, ALLOW_TRUST, BEGIN_SPONSORING_FUTURE_RESERVES, BUMP_SEQUENCE, CHANGE_TRUST,
    CLAIM_CLAIMABLE_BALANCE, CLAWBACK, CLAWBACK_CLAIMABLE_BALANCE, CREATE_ACCOUNT,
    CREATE_CLAIMABLE_BALANCE, CREATE_PASSIVE_SELL_OFFER, END_SPONSORING_FUTURE_RESERVES, INFLATION,
    LIQUIDITY_POOL_DEPOSIT, LIQUIDITY_POOL_WITHDRAW, MANAGE_BUY_OFFER, MANAGE_DATA,
    MANAGE_SELL_OFFER, PATH_PAYMENT_STRICT_RECEIVE, PATH_PAYMENT_STRICT_SEND, PAYMENT,
    REVOKE_SPONSORSHIP, SET_OPTIONS, SET_TRUST_LINE_FLAGS,
};
use op_types::{Coded, OperationResult, OperationResultTr};
use std::alloc::{AllocError, Global};
use xdr_core::{Builder, Cursor, Decode, Encode, ReadFault, XdrKind};

/// opINNER (Stellar-transaction.x).
const OP_INNER: i32 = 0;

/// Reads what an operation answers that was run.
#[tactic(auto, unfolding(crate::specs::Results::operation_result_tr))]
pub fn read_operation_result_tr(
    alloc: Global,
    cursor: &mut Cursor<'_>,
) -> Result<OperationResultTr, ReadFault>
    ensures { Reads cause_of result cursor.old cursor.new (spec.operation_result_tr.read cursor.old) }
{
    let mut ahead = cursor.fork();
    let answer = match ahead.i32()? {
        CREATE_ACCOUNT => OperationResultTr::CreateAccount(read_create_account_result(&mut ahead)?),
        PAYMENT => OperationResultTr::Payment(read_payment_result(&mut ahead)?),
        PATH_PAYMENT_STRICT_RECEIVE => OperationResultTr::PathPaymentStrictReceive(
            read_path_payment_strict_receive_result(alloc, &mut ahead)?,
        ),
        MANAGE_SELL_OFFER => OperationResultTr::ManageSellOffer(read_manage_offer_result(
            alloc, &mut ahead,
        )?),
        CREATE_PASSIVE_SELL_OFFER => OperationResultTr::CreatePassiveSellOffer(
            read_manage_offer_result(alloc, &mut ahead)?,
        ),
        SET_OPTIONS => OperationResultTr::SetOptions(read_set_options_result(&mut ahead)?),
        kind => read_second_run(alloc, cursor, kind, &mut ahead)?,
    };
    *cursor = ahead;
    Ok(answer)
}

/// Reads what an operation answers whose type is 6 or above. `start` is at the operation's type.
#[tactic(auto, unfolding(crate::specs::Results::second_run_arms))]
fn read_second_run(
    alloc: Global,
    start: &Cursor<'_>,
    kind: i32,
    cursor: &mut Cursor<'_>,
) -> Result<OperationResultTr, ReadFault>
    ensures { Reads cause_of result cursor.old cursor.new
        (pick spec.second_run_arms no_arm start.now (kind, cursor.old)) }
{
    let mut ahead = cursor.fork();
    let answer = match kind {
        CHANGE_TRUST => OperationResultTr::ChangeTrust(read_change_trust_result(&mut ahead)?),
        ALLOW_TRUST => OperationResultTr::AllowTrust(read_allow_trust_result(&mut ahead)?),
        ACCOUNT_MERGE => OperationResultTr::AccountMerge(read_account_merge_result(&mut ahead)?),
        INFLATION => OperationResultTr::Inflation(read_inflation_result(alloc, &mut ahead)?),
        MANAGE_DATA => OperationResultTr::ManageData(read_manage_data_result(&mut ahead)?),
        BUMP_SEQUENCE => OperationResultTr::BumpSequence(read_bump_sequence_result(&mut ahead)?),
        _ => read_third_run(alloc, start, kind, &mut ahead)?,
    };
    *cursor = ahead;
    Ok(answer)
}

/// Reads what an operation answers whose type is 12 or above. `start` is at the operation's type.
#[tactic(auto, unfolding(crate::specs::Results::third_run_arms))]
fn read_third_run(
    alloc: Global,
    start: &Cursor<'_>,
    kind: i32,
    cursor: &mut Cursor<'_>,
) -> Result<OperationResultTr, ReadFault>
    ensures { Reads cause_of result cursor.old cursor.new
        (pick spec.third_run_arms no_arm start.now (kind, cursor.old)) }
{
    let mut ahead = cursor.fork();
    let answer = match kind {
        MANAGE_BUY_OFFER => OperationResultTr::ManageBuyOffer(read_manage_offer_result(
            alloc, &mut ahead,
        )?),
        PATH_PAYMENT_STRICT_SEND => OperationResultTr::PathPaymentStrictSend(
            read_path_payment_strict_send_result(alloc, &mut ahead)?,
        ),
        CREATE_CLAIMABLE_BALANCE => OperationResultTr::CreateClaimableBalance(
            read_create_claimable_balance_result(&mut ahead)?,
        ),
        CLAIM_CLAIMABLE_BALANCE => OperationResultTr::ClaimClaimableBalance(
            read_claim_claimable_balance_result(&mut ahead)?,
        ),
        BEGIN_SPONSORING_FUTURE_RESERVES => OperationResultTr::BeginSponsoringFutureReserves(
            read_begin_sponsoring_future_reserves_result(&mut ahead)?,
        ),
        END_SPONSORING_FUTURE_RESERVES => OperationResultTr::EndSponsoringFutureReserves(
            read_end_sponsoring_future_reserves_result(&mut ahead)?,
        ),
        _ => read_last_run(alloc, start, kind, &mut ahead)?,
    };
    *cursor = ahead;
    Ok(answer)
}

/// Reads what an operation answers whose type is 18 or above. `start` is at the operation's type.
#[tactic(auto, unfolding(crate::specs::Results::last_run_arms))]
fn read_last_run(
    alloc: Global,
    start: &Cursor<'_>,
    kind: i32,
    cursor: &mut Cursor<'_>,
) -> Result<OperationResultTr, ReadFault>
    ensures { Reads cause_of result cursor.old cursor.new
        (pick spec.last_run_arms no_arm start.now (kind, cursor.old)) }
{
    let mut ahead = cursor.fork();
    let answer = match kind {
        REVOKE_SPONSORSHIP => OperationResultTr::RevokeSponsorship(read_revoke_sponsorship_result(
            &mut ahead,
        )?),
        CLAWBACK => OperationResultTr::Clawback(read_clawback_result(&mut ahead)?),
        CLAWBACK_CLAIMABLE_BALANCE => OperationResultTr::ClawbackClaimableBalance(
            read_clawback_claimable_balance_result(&mut ahead)?,
        ),
        SET_TRUST_LINE_FLAGS => OperationResultTr::SetTrustLineFlags(
            read_set_trust_line_flags_result(&mut ahead)?,
        ),
        LIQUIDITY_POOL_DEPOSIT => OperationResultTr::LiquidityPoolDeposit(
            read_liquidity_pool_deposit_result(&mut ahead)?,
        ),
        LIQUIDITY_POOL_WITHDRAW => OperationResultTr::LiquidityPoolWithdraw(
            read_liquidity_pool_withdraw_result(&mut ahead)?,
        ),
        _ => return Err(ReadFault::Xdr(start.fault(XdrKind::BadEnum))),
    };
    *cursor = ahead;
    Ok(answer)
}

/// The type of the operation that answers.
fn type_of(value: &OperationResultTr) -> i32
    ensures { result ≡ spec.type_of value.now }
{
    match value {
        OperationResultTr::CreateAccount(_) => CREATE_ACCOUNT,
        OperationResultTr::Payment(_) => PAYMENT,
        OperationResultTr::PathPaymentStrictReceive(_) => PATH_PAYMENT_STRICT_RECEIVE,
        OperationResultTr::ManageSellOffer(_) => MANAGE_SELL_OFFER,
        OperationResultTr::CreatePassiveSellOffer(_) => CREATE_PASSIVE_SELL_OFFER,
        OperationResultTr::SetOptions(_) => SET_OPTIONS,
        OperationResultTr::ChangeTrust(_) => CHANGE_TRUST,
        OperationResultTr::AllowTrust(_) => ALLOW_TRUST,
        OperationResultTr::AccountMerge(_) => ACCOUNT_MERGE,
        OperationResultTr::Inflation(_) => INFLATION,
        OperationResultTr::ManageData(_) => MANAGE_DATA,
        OperationResultTr::BumpSequence(_) => BUMP_SEQUENCE,
        OperationResultTr::ManageBuyOffer(_) => MANAGE_BUY_OFFER,
        OperationResultTr::PathPaymentStrictSend(_) => PATH_PAYMENT_STRICT_SEND,
        OperationResultTr::CreateClaimableBalance(_) => CREATE_CLAIMABLE_BALANCE,
        OperationResultTr::ClaimClaimableBalance(_) => CLAIM_CLAIMABLE_BALANCE,
        OperationResultTr::BeginSponsoringFutureReserves(_) => BEGIN_SPONSORING_FUTURE_RESERVES,
        OperationResultTr::EndSponsoringFutureReserves(_) => END_SPONSORING_FUTURE_RESERVES,
        OperationResultTr::RevokeSponsorship(_) => REVOKE_SPONSORSHIP,
        OperationResultTr::Clawback(_) => CLAWBACK,
        OperationResultTr::ClawbackClaimableBalance(_) => CLAWBACK_CLAIMABLE_BALANCE,
        OperationResultTr::SetTrustLineFlags(_) => SET_TRUST_LINE_FLAGS,
        OperationResultTr::LiquidityPoolDeposit(_) => LIQUIDITY_POOL_DEPOSIT,
        OperationResultTr::LiquidityPoolWithdraw(_) => LIQUIDITY_POOL_WITHDRAW,
    }
}

/// Writes what an operation answers that was run.
#[tactic(auto, unfolding(crate::specs::Results::operation_result_tr))]
pub fn write_operation_result_tr(
    value: &OperationResultTr,
    builder: &mut Builder,
) -> Result<(), AllocError>
    requires { spec.operation_result_tr.within value.now }
    ensures { OnOk result (builder.new ≡ spec.operation_result_tr.onto builder.old value.now) }
{
    builder.i32(type_of(value))?;
    match value {
        OperationResultTr::CreateAccount(answer) => write_create_account_result(answer, builder),
        OperationResultTr::Payment(answer) => write_payment_result(answer, builder),
        OperationResultTr::PathPaymentStrictReceive(answer) =>
            write_path_payment_strict_receive_result(answer, builder),
        OperationResultTr::ManageSellOffer(answer) => write_manage_offer_result(answer, builder),
        OperationResultTr::CreatePassiveSellOffer(answer) => write_manage_offer_result(
            answer, builder,
        ),
        OperationResultTr::SetOptions(answer) => write_set_options_result(answer, builder),
        OperationResultTr::ChangeTrust(answer) => write_change_trust_result(answer, builder),
        OperationResultTr::AllowTrust(answer) => write_allow_trust_result(answer, builder),
        OperationResultTr::AccountMerge(answer) => write_account_merge_result(answer, builder),
        OperationResultTr::Inflation(answer) => write_inflation_result(answer, builder),
        OperationResultTr::ManageData(answer) => write_manage_data_result(answer, builder),
        OperationResultTr::BumpSequence(answer) => write_bump_sequence_result(answer, builder),
        OperationResultTr::ManageBuyOffer(answer) => write_manage_offer_result(answer, builder),
        OperationResultTr::PathPaymentStrictSend(answer) => write_path_payment_strict_send_result(
            answer, builder,
        ),
        OperationResultTr::CreateClaimableBalance(answer) => write_create_claimable_balance_result(
            answer, builder,
        ),
        OperationResultTr::ClaimClaimableBalance(answer) => write_claim_claimable_balance_result(
            answer, builder,
        ),
        OperationResultTr::BeginSponsoringFutureReserves(answer) =>
            write_begin_sponsoring_future_reserves_result(answer, builder),
        OperationResultTr::EndSponsoringFutureReserves(answer) =>
            write_end_sponsoring_future_reserves_result(answer, builder),
        OperationResultTr::RevokeSponsorship(answer) => write_revoke_sponsorship_result(
            answer, builder,
        ),
        OperationResultTr::Clawback(answer) => write_clawback_result(answer, builder),
        OperationResultTr::ClawbackClaimableBalance(answer) =>
            write_clawback_claimable_balance_result(answer, builder),
        OperationResultTr::SetTrustLineFlags(answer) => write_set_trust_line_flags_result(
            answer, builder,
        ),
        OperationResultTr::LiquidityPoolDeposit(answer) => write_liquidity_pool_deposit_result(
            answer, builder,
        ),
        OperationResultTr::LiquidityPoolWithdraw(answer) => write_liquidity_pool_withdraw_result(
            answer, builder,
        ),
    }
}

/// Reads what an operation answers.
#[tactic(auto, unfolding(crate::specs::Results::operation_result))]
pub fn read_operation_result(
    alloc: Global,
    cursor: &mut Cursor<'_>,
) -> Result<OperationResult, ReadFault>
    ensures { Reads cause_of result cursor.old cursor.new (spec.operation_result.read cursor.old) }
{
    let mut ahead = cursor.fork();
    let answer = match ahead.i32()? {
        OP_INNER => OperationResult::Inner(read_operation_result_tr(alloc, &mut ahead)?),
        code => plain_value(code, cursor)?,
    };
    *cursor = ahead;
    Ok(answer)
}

/// Writes what an operation answers.
#[tactic(auto, unfolding(crate::specs::Results::operation_result))]
pub fn write_operation_result(
    value: &OperationResult,
    builder: &mut Builder,
) -> Result<(), AllocError>
    requires { spec.operation_result.within value.now }
    ensures { OnOk result (builder.new ≡ spec.operation_result.onto builder.old value.now) }
{
    builder.i32(value.code())?;
    match value {
        OperationResult::Inner(inner) => write_operation_result_tr(inner, builder),
        _ => Ok(()),
    }
}

/// What operations answer, as a format.
pub enum OperationResultFormat {}

impl Decode for OperationResultFormat {
    type Value = OperationResult;

    type Failure = ReadFault;

    ghost format = { spec.operation_result };

    fn decode(alloc: Global, cursor: &mut Cursor<'_>) -> Result<OperationResult, ReadFault> {
        read_operation_result(alloc, cursor)
    }
}

impl Encode for OperationResultFormat {
    #[tactic(auto, using(xdr_core::proofs::FormatLaws::written, crate::proofs::OperationLaws::operation_result_laws))]
    fn encode(value: &OperationResult, builder: &mut Builder) -> Result<(), AllocError> {
        write_operation_result(value, builder)
    }
}
