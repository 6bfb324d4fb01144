//! What CREATE_ACCOUNT and payments answer.

ghost use Rattle.std.specs.Prelude.{◌≡◌, OnOk};
ghost use Rattle.xdr_core.specs.Position.{Reads, itself};
ghost use Rattle.xdr_core.specs.ReadFault.{cause_of};
ghost use Rattle.xdr_results.specs.Answers as spec;

use crate::claim_atom::ClaimAtomFormat;
use crate::coded::{plain_value, read_code, write_code};
use op_types::{
    Coded, CreateAccountResult, PathPaymentStrictReceiveResult, PathPaymentStrictSendResult,
    PathPaymentSuccess, PaymentResult, SimplePaymentResult,
};
use std::alloc::{AllocError, Global};
use xdr_core::{Builder, Cursor, ReadFault, XdrFault, read_list, write_list};
use xdr_entries::{read_account_id, read_asset, write_account_id, write_asset};

/// PATH_PAYMENT_STRICT_RECEIVE_SUCCESS (Stellar-transaction.x).
const PATH_PAYMENT_STRICT_RECEIVE_SUCCESS: i32 = 0;

/// PATH_PAYMENT_STRICT_RECEIVE_NO_ISSUER (Stellar-transaction.x).
const PATH_PAYMENT_STRICT_RECEIVE_NO_ISSUER: i32 = -9;

/// PATH_PAYMENT_STRICT_SEND_SUCCESS (Stellar-transaction.x).
const PATH_PAYMENT_STRICT_SEND_SUCCESS: i32 = 0;

/// PATH_PAYMENT_STRICT_SEND_NO_ISSUER (Stellar-transaction.x).
const PATH_PAYMENT_STRICT_SEND_NO_ISSUER: i32 = -9;

/// Reads what arrived at the end of a path.
#[tactic(auto, unfolding(crate::specs::Answers::simple_payment_result))]
pub fn read_simple_payment_result(cursor: &mut Cursor<'_>) -> Result<SimplePaymentResult, XdrFault>
    ensures { Reads itself result cursor.old cursor.new (spec.simple_payment_result.read cursor.old) }
{
    let mut ahead = cursor.fork();
    let destination = read_account_id(&mut ahead)?;
    let asset = read_asset(&mut ahead)?;
    let amount = ahead.i64()?;
    *cursor = ahead;
    Ok(SimplePaymentResult {
        destination,
        asset,
        amount,
    })
}

/// Writes what arrived at the end of a path.
#[tactic(auto, unfolding(crate::specs::Answers::simple_payment_result))]
pub fn write_simple_payment_result(
    value: &SimplePaymentResult,
    builder: &mut Builder,
) -> Result<(), AllocError>
    ensures { OnOk result (builder.new ≡ spec.simple_payment_result.onto builder.old value.now) }
{
    write_account_id(&value.destination, builder)?;
    write_asset(&value.asset, builder)?;
    builder.i64(value.amount)
}

/// Reads what a payment along a path moved.
#[tactic(auto, unfolding(crate::specs::Answers::path_payment_success))]
pub fn read_path_payment_success(
    alloc: Global,
    cursor: &mut Cursor<'_>,
) -> Result<PathPaymentSuccess, ReadFault>
    ensures { Reads cause_of result cursor.old cursor.new (spec.path_payment_success.read cursor.old) }
{
    let mut ahead = cursor.fork();
    let offers = read_list::<ClaimAtomFormat>(alloc, u32::MAX, &mut ahead)?;
    let last = read_simple_payment_result(&mut ahead)?;
    *cursor = ahead;
    Ok(PathPaymentSuccess { offers, last })
}

/// Writes what a payment along a path moved.
#[tactic(auto, unfolding(crate::specs::Answers::path_payment_success))]
pub fn write_path_payment_success(
    value: &PathPaymentSuccess,
    builder: &mut Builder,
) -> Result<(), AllocError>
    requires { spec.path_payment_success.within value.now }
    ensures { OnOk result (builder.new ≡ spec.path_payment_success.onto builder.old value.now) }
{
    write_list::<ClaimAtomFormat>(value.offers.as_slice(), u32::MAX, builder)?;
    write_simple_payment_result(&value.last, builder)
}

/// Reads what CREATE_ACCOUNT answers.
#[tactic(auto, unfolding(crate::specs::Answers::create_account_result))]
pub fn read_create_account_result(cursor: &mut Cursor<'_>) -> Result<CreateAccountResult, XdrFault>
    ensures { Reads itself result cursor.old cursor.new (spec.create_account_result.read cursor.old) }
{
    read_code(cursor)
}

/// Writes what CREATE_ACCOUNT answers.
#[tactic(auto, unfolding(crate::specs::Answers::create_account_result))]
pub fn write_create_account_result(
    value: &CreateAccountResult,
    builder: &mut Builder,
) -> Result<(), AllocError>
    ensures { OnOk result (builder.new ≡ spec.create_account_result.onto builder.old value.now) }
{
    write_code(value, builder)
}

/// Reads what PAYMENT answers.
#[tactic(auto, unfolding(crate::specs::Answers::payment_result))]
pub fn read_payment_result(cursor: &mut Cursor<'_>) -> Result<PaymentResult, XdrFault>
    ensures { Reads itself result cursor.old cursor.new (spec.payment_result.read cursor.old) }
{
    read_code(cursor)
}

/// Writes what PAYMENT answers.
#[tactic(auto, unfolding(crate::specs::Answers::payment_result))]
pub fn write_payment_result(value: &PaymentResult, builder: &mut Builder) -> Result<(), AllocError>
    ensures { OnOk result (builder.new ≡ spec.payment_result.onto builder.old value.now) }
{
    write_code(value, builder)
}

/// Reads what PATH_PAYMENT_STRICT_RECEIVE answers.
#[tactic(auto, unfolding(crate::specs::Answers::path_payment_strict_receive_result))]
pub fn read_path_payment_strict_receive_result(
    alloc: Global,
    cursor: &mut Cursor<'_>,
) -> Result<PathPaymentStrictReceiveResult, ReadFault>
    ensures { Reads cause_of result cursor.old cursor.new (spec.path_payment_strict_receive_result.read cursor.old) }
{
    let mut ahead = cursor.fork();
    let answer = match ahead.i32()? {
        PATH_PAYMENT_STRICT_RECEIVE_SUCCESS => PathPaymentStrictReceiveResult::Success(
            read_path_payment_success(alloc, &mut ahead)?,
        ),
        PATH_PAYMENT_STRICT_RECEIVE_NO_ISSUER => PathPaymentStrictReceiveResult::NoIssuer(
            read_asset(&mut ahead)?,
        ),
        code => plain_value(code, cursor)?,
    };
    *cursor = ahead;
    Ok(answer)
}

/// Writes what PATH_PAYMENT_STRICT_RECEIVE answers.
#[tactic(auto, unfolding(crate::specs::Answers::path_payment_strict_receive_result))]
pub fn write_path_payment_strict_receive_result(
    value: &PathPaymentStrictReceiveResult,
    builder: &mut Builder,
) -> Result<(), AllocError>
    requires { spec.path_payment_strict_receive_result.within value.now }
    ensures { OnOk result (builder.new ≡ spec.path_payment_strict_receive_result.onto builder.old value.now) }
{
    builder.i32(value.code())?;
    match value {
        PathPaymentStrictReceiveResult::Success(inner) => write_path_payment_success(
            inner, builder,
        ),
        PathPaymentStrictReceiveResult::NoIssuer(inner) => write_asset(inner, builder),
        _ => Ok(()),
    }
}

/// Reads what PATH_PAYMENT_STRICT_SEND answers.
#[tactic(auto, unfolding(crate::specs::Answers::path_payment_strict_send_result))]
pub fn read_path_payment_strict_send_result(
    alloc: Global,
    cursor: &mut Cursor<'_>,
) -> Result<PathPaymentStrictSendResult, ReadFault>
    ensures { Reads cause_of result cursor.old cursor.new (spec.path_payment_strict_send_result.read cursor.old) }
{
    let mut ahead = cursor.fork();
    let answer = match ahead.i32()? {
        PATH_PAYMENT_STRICT_SEND_SUCCESS => PathPaymentStrictSendResult::Success(
            read_path_payment_success(alloc, &mut ahead)?,
        ),
        PATH_PAYMENT_STRICT_SEND_NO_ISSUER => PathPaymentStrictSendResult::NoIssuer(read_asset(
            &mut ahead,
        )?),
        code => plain_value(code, cursor)?,
    };
    *cursor = ahead;
    Ok(answer)
}

/// Writes what PATH_PAYMENT_STRICT_SEND answers.
#[tactic(auto, unfolding(crate::specs::Answers::path_payment_strict_send_result))]
pub fn write_path_payment_strict_send_result(
    value: &PathPaymentStrictSendResult,
    builder: &mut Builder,
) -> Result<(), AllocError>
    requires { spec.path_payment_strict_send_result.within value.now }
    ensures { OnOk result (builder.new ≡ spec.path_payment_strict_send_result.onto builder.old value.now) }
{
    builder.i32(value.code())?;
    match value {
        PathPaymentStrictSendResult::Success(inner) => write_path_payment_success(inner, builder),
        PathPaymentStrictSendResult::NoIssuer(inner) => write_asset(inner, builder),
        _ => Ok(()),
    }
}
